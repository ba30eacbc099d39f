use cluster_retries::RoundEnd;
use containers::Seq;
use redis_error::RedisError;
use resp_value::Value;
use slot_hash::NodeAddress;

/// The end of a part. A part is one command, so none ends by the values of a pipeline: such an end counts as none.
#[derive(Drop)]
pub struct PartEnd {
    /// The number of its arrival: an end that came later has a greater one, and ends that came together have the same.
    pub arrival: u32,
    pub end: RoundEnd,
}

/// One part of a command that went to several nodes.
#[derive(Drop)]
pub struct PartResult {
    /// The node that it went to.
    pub address: NodeAddress,
    /// Its end, where that came.
    pub ended: Option<PartEnd>,
}

/// The parts of a command in order. Contracts see the list of them.
pub type PartResults = Seq<PartResult>;

/// What the results of all parts are together.
#[derive(Drop)]
pub enum FoldResult {
    Value(Value),
    Error(RedisError),
}
