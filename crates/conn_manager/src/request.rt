use containers::{Bytes, Names};
use driver_model::Shape;
use resp_write::SubscriptionAction;

/// How far a request has come.
#[derive(Clone, Copy, PartialEq, Eq)]
pub enum Stage {
    /// It waits until its generation is ready.
    Held,
    /// It was handed to the link of this number, whose connection knows it by that one.
    Sent { link: u32, number: u32 },
    /// It is answered, or its caller has gone.
    Closed,
}

/// A request that waits until its generation is ready.
#[derive(Drop)]
pub struct HeldRequest {
    pub number: u32,
    pub packed: Bytes,
    pub shape: Shape,
    /// Whether its reply is awaited.
    pub awaited: bool,
}

/// What a subscription call does with which names.
#[derive(Drop)]
pub struct Call {
    pub action: SubscriptionAction,
    pub names: Names,
}
