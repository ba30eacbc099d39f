use redis_error::RedisError;
use resp_value::Value;
use slot_hash::NodeAddress;

/// The part of a plan to which an ask belongs.
#[derive(Clone, Copy)]
pub enum Part {
    /// The initial addresses are connected.
    Initial,
    /// The connected links are asked for the slots.
    First,
    /// Each entry of the map is reached, and then asked for the slots.
    Second,
    /// The nodes of the new map are reached.
    Last,
    /// A repair's attempt of this number, counted from 1.
    Attempt(u32),
}

/// What is asked.
#[derive(Clone, Copy)]
pub enum Request {
    /// A link to the address.
    Connect,
    /// A reply to PING on this link.
    Check(u32),
    /// A reply to CLUSTER SLOTS on this link.
    Query(u32),
    /// A timer of so many milliseconds.
    Wait(u64),
}

/// An ask of a plan.
#[derive(Drop)]
pub struct Ask {
    pub part: Part,
    /// The node that it is about.
    pub address: NodeAddress,
    pub request: Request,
}

/// What an ask is answered.
#[derive(Drop)]
pub enum Answer {
    /// The address is connected, by the link of this number.
    Connected(u32),
    /// The reply to a command, which may be a server's error.
    Value(Value),
    /// There is no link, or no reply. Of a link that ended the error is `Closed`.
    Failed(RedisError),
    /// The timer has fired.
    Fired,
}
