//! Lists that contracts see as the list of their items: byte strings, sequences, queues and names. Copies that take memory.
#![tactic(auto)]

mod bytes;
mod names;
mod queue;
mod seq;
mod try_clone;

pub use bytes::Bytes;
pub use names::Names;
pub use queue::Queue;
pub use seq::Seq;
pub use try_clone::TryClone;
