use crate::making::has_bytes;
use resp_write::{Cmd, Pipeline};
use std::alloc::{AllocError, Global};
use sub_tracker::SubscriptionTracker;

/// Tracks a command, and says whether it is one of the six.
fn track(
    alloc: Global,
    tracker: &mut SubscriptionTracker,
    words: &[&[u8]],
) -> Result<bool, AllocError> {
    let mut command = Cmd::new(alloc);
    for word in words {
        command.arg(alloc, word)?;
    }
    match SubscriptionTracker::to_request(alloc, &command)? {
        Some((action, names)) => {
            tracker.update_with_request(alloc, action, &names)?;
            Ok(true)
        }
        None => Ok(false),
    }
}

/// The pipeline after these commands.
fn tracked(
    alloc: Global,
    tracker: &mut SubscriptionTracker,
    commands: &[&[&[u8]]],
) -> Result<Pipeline, AllocError> {
    for words in commands {
        track(alloc, tracker, words)?;
    }
    tracker.get_subscription_pipeline(alloc)
}

/// Whether these are the bytes of the pipeline after these commands.
fn leaves(alloc: Global, commands: &[&[&[u8]]], wanted: &[u8]) -> Result<bool, AllocError> {
    let mut tracker = SubscriptionTracker::new(alloc);
    let pipeline = tracked(alloc, &mut tracker, commands);
    drop(tracker);
    has_bytes(alloc, &pipeline?, wanted)
}

/// Commands of all families, whatever the case of their names, and one that is none of the six.
const MIXED: [&[&[u8]]; 7] = [
    &[b"subscribe", b"foo", b"bar"],
    &[b"PSUBSCRIBE", b"fo*o", b"b*ar"],
    &[b"SSUBSCRIBE", b"sfoo", b"sbar"],
    &[b"unsubscribe", b"foo"],
    &[b"Punsubscribe", b"b*ar"],
    &[b"Sunsubscribe", b"sfoo", b"SBAR"],
    &[b"GET", b"sfoo"],
];

const MIXED_AGAIN: &[u8] =
    b"*2\r\n$9\r\nSUBSCRIBE\r\n$3\r\nbar\r\n*2\r\n$10\r\nSSUBSCRIBE\r\n$4\r\nsbar\r\n*2\r\n$10\r\nPSUBSCRIBE\r\n$4\r\nfo*o\r\n";

/// Names that differ in case alone, the empty name, and a command without names.
const NAMES: [&[&[u8]]; 4] = [
    &[b"SUBSCRIBE", b"b", b"a", b"B", b"", b"a"],
    &[b"UNSUBSCRIBE"],
    &[b"UNSUBSCRIBE", b"b", b"c"],
    &[b"subscribe"],
];

const NAMES_AGAIN: &[u8] = b"*4\r\n$9\r\nSUBSCRIBE\r\n$0\r\n\r\n$1\r\nB\r\n$1\r\na\r\n";

/// One name in two families, of which one leaves it.
const TWICE: [&[&[u8]]; 3] = [
    &[b"SUBSCRIBE", b"x"],
    &[b"SSUBSCRIBE", b"x"],
    &[b"UNSUBSCRIBE", b"x"],
];

const TWICE_AGAIN: &[u8] = b"*2\r\n$10\r\nSSUBSCRIBE\r\n$1\r\nx\r\n";

#[test]
fn pipelines_have_what_is_subscribed(rt: HostRuntime) -> Result<(), AllocError> {
    let alloc = rt.alloc();
    let mixed = leaves(alloc, &MIXED, MIXED_AGAIN)?;
    assert!(rt; mixed);
    let names = leaves(alloc, &NAMES, NAMES_AGAIN)?;
    assert!(rt; names);
    let twice = leaves(alloc, &TWICE, TWICE_AGAIN)?;
    assert!(rt; twice);
    let nothing = leaves(alloc, &[&[]], b"")?;
    assert!(rt; nothing);
    Ok(())
}
