//! One link: a queue of messages, a row of started ones, the bytes to be written, and the dealing of items.
#![tactic(auto)]

mod dealing;
mod errors;
mod link;
mod message;
mod msg_reading;
mod outbox;
mod row;
mod spare;
mod starts;

pub use driver_model::{LinkFault, PushInfo};
pub use errors::{EnqueueError, StartError};
pub use link::LinkCore;
pub use message::{Entry, NoticeAt, PushAt, Queued, Settled, Started};
pub use outbox::Outbox;
pub use row::{Row, error_of};
pub use spare::{Rest, Spare};
