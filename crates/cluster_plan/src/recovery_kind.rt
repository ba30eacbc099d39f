use redis_error::RedisError;
use slot_hash::NodeAddress;

/// What a plan is to bring about.
#[derive(Drop)]
pub enum RecoveryKind {
    /// All links are made anew, from the initial addresses.
    Initial,
    /// The slots are asked for anew.
    Slots,
    /// The link of this node is made anew.
    Repair(NodeAddress),
}

/// Why a recovery failed.
#[derive(Drop)]
pub enum Failure {
    /// No initial address could be connected; with the error of the last one.
    Create(RedisError),
    /// No node told its slots; with the error of the last one.
    Refresh(RedisError),
}
