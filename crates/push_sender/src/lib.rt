//! Where the pushes of a session go: senders, and the actions' pushes handed to one.
#![tactic(auto)]

mod delivery;
mod push_fn;
mod sender;

pub use delivery::deliver;
pub use push_fn::{PushFn, Taker};
pub use sender::{AsyncPushSender, SendError};
