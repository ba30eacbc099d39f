use crate::connections::{ConnectionMap, NodeEntry};
use crate::connects::InitialConnects;
use crate::recovery_kind::Failure;
use crate::step::{Arrival, Step};
use containers::{Queue, Seq};
use mux_routing::SlotMap;
use redis_error::RedisError;

/// The entries of a map while a pass goes through them.
#[derive(Drop)]
pub struct Pass {
    /// Those that it has gone through.
    pub passed: ConnectionMap,
    pub here: NodeEntry,
    pub rest: Queue<NodeEntry>,
}

/// How far a recovery has come.
#[derive(Drop)]
pub enum State {
    /// The initial addresses are connected; the map and its slots stand as they did.
    Initial {
        connects: InitialConnects,
        entries: ConnectionMap,
        slots: SlotMap,
    },
    /// The link of an entry is asked for the slots.
    First {
        pass: Pass,
        slots: SlotMap,
        link: u32,
    },
    /// The node of an entry is reached, or asked for the slots where it was. With the last error before.
    Second {
        pass: Pass,
        slots: SlotMap,
        step: Step,
        last: RedisError,
    },
    /// The nodes of the new map are reached, all at once, by the links that the entries have. Those that failed are left out.
    Last {
        entries: ConnectionMap,
        slots: SlotMap,
        nodes: Seq<Arrival>,
    },
    Ended {
        entries: ConnectionMap,
        slots: SlotMap,
        failure: Option<Failure>,
    },
}
