//! A client that keeps what it subscribed to when its connection is replaced: it tells a tracker of each command that it
//! sends, and sends the tracker's pipeline first on the new connection.

ghost use Rattle.std.specs.Prelude.{◌≡◌, List, ◌++◌, ◌∷◌, [], Some, None, OnOk, IfOk};
ghost use Rattle.sub_tracker.specs.Subscribed.{Request};
ghost use Rattle.sub_tracker.specs.Held.{held_after};
ghost use Rattle.sub_tracker.specs.Pipeline.{request_of, Resubscribes};

use crate::commands::command_of;
use mux_resp::{Cmd, Pipeline};
use std::alloc::{AllocError, Global};
use std::io;
use std::io::Write;
use sub_tracker::SubscriptionTracker;

/// What was sent on the connection that is gone.
const SENT: [&[&[u8]]; 6] = [
    &[b"SUBSCRIBE", b"news", b"sport", b"chess"],
    &[b"PSUBSCRIBE", b"weather.*"],
    &[b"ssubscribe", b"room"],
    &[b"GET", b"news"],
    &[b"UNSUBSCRIBE", b"news"],
    &[b"PUNSUBSCRIBE", b"alerts.*"],
];

/// Tells the tracker of one more command. Any but the six subscription commands leaves it as it was.
fn track(alloc: Global, tracker: &mut SubscriptionTracker, command: &Cmd) -> Result<(), AllocError>
    ensures other { request_of command.now.args ≡ None → OnOk result (tracker.new ≡ tracker.old) }
    ensures one_more { (history : List Request) (request : Request)
        → tracker.old.held ≡ held_after history → request_of command.now.args ≡ Some request
        → OnOk result (tracker.new.held ≡ held_after (history ++ request ∷ [])) }
{
    match SubscriptionTracker::to_request(alloc, command)? {
        Some((action, names)) => tracker.update_with_request(alloc, action, &names),
        None => Ok(()),
    }
}

/// The pipeline that subscribes again exactly what is subscribed.
fn resubscription(alloc: Global, tracker: &SubscriptionTracker) -> Result<Pipeline, AllocError>
    ensures { (history : List Request)
        → tracker.now.held ≡ held_after history → IfOk result (Resubscribes history) }
{
    tracker.get_subscription_pipeline(alloc)
}

/// Prints how many commands subscribe again, and their bytes.
pub fn print_resubscription(rt: &impl Print, alloc: Global) -> io::Result<()> {
    let mut tracker = SubscriptionTracker::new(alloc);
    for words in SENT {
        let command = command_of(alloc, words)?;
        track(alloc, &mut tracker, &command)?;
    }
    let pipeline = resubscription(alloc, &tracker)?;
    println!(rt; "{} commands", pipeline.len())?;
    let packed = pipeline.get_packed_pipeline(alloc)?;
    io::writer(rt).write_all(packed.as_slice())
}
