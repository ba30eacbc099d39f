//! Reads commands, one a line with a blank before each argument, and writes the pipeline that
//! subscribes again what they leave subscribed. The measurement of the tracker's speed runs it.
#![tactic(auto)]

use mux_resp::Cmd;
use std::alloc::{AllocError, Global};
use std::io;
use std::io::{BufRead, BufReader, Write};
use sub_tracker::SubscriptionTracker;

/// The command of a line.
fn command_of(alloc: Global, line: &str) -> Result<Cmd, AllocError> {
    let mut command = Cmd::new(alloc);
    for word in line.split(' ') {
        command.arg(alloc, word.as_bytes())?;
    }
    Ok(command)
}

/// Tracks the command of a line, if it is a subscription command.
fn track(alloc: Global, tracker: &mut SubscriptionTracker, line: &str) -> Result<(), AllocError> {
    let command = command_of(alloc, line)?;
    if let Some((action, names)) = SubscriptionTracker::to_request(alloc, &command)? {
        tracker.update_with_request(alloc, action, &names)?;
    }
    Ok(())
}

fn main(rt: HostRuntime) -> io::Result<()> {
    let alloc = rt.alloc();
    let mut tracker = SubscriptionTracker::new(alloc);
    for line in BufReader::new(alloc, rt.reader())?.lines(alloc) {
        let line = line?;
        track(alloc, &mut tracker, line.as_str())?;
    }
    let pipeline = tracker.get_subscription_pipeline(alloc)?;
    let packed = pipeline.get_packed_pipeline(alloc)?;
    io::writer(&rt).write_all(packed.as_slice())
}
