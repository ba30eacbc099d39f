use containers::Bytes;
use driver_model::{Notice, PushInfo, Shape, Verdict};
use resp_value::Values;

/// A message that has its place in the queue.
#[derive(Drop)]
pub struct Queued {
    pub id: u64,
    pub packed: Bytes,
    pub shape: Shape,
    /// Whether its verdict is wanted.
    pub awaited: bool,
}

/// A started message that takes more items.
#[derive(Drop)]
pub struct Entry {
    pub id: u64,
    pub shape: Shape,
    /// Whether its verdict is wanted.
    pub awaited: bool,
    pub got: Values,
}

/// A message that was started: its number on the link, how many items it takes, and how many bytes it has.
#[derive(Clone, Copy, PartialEq, Eq)]
pub struct Started {
    pub msg: u32,
    pub id: u64,
    pub need: u64,
    pub len: u64,
}

/// What an awaited message came to.
#[derive(Drop)]
pub struct Settled {
    pub id: u64,
    pub verdict: Verdict,
}

/// What is told, and how many messages the call had settled before it.
#[derive(Drop)]
pub struct NoticeAt {
    pub settled: u64,
    pub notice: Notice,
}

/// A push, and how many messages the call had settled before it.
#[derive(Drop)]
pub struct PushAt {
    pub settled: u64,
    pub info: PushInfo,
}
