use containers::Seq;
use slot_hash::NodeAddress;

/// What a cluster has of a node. Links are known by their numbers.
#[derive(Clone, Copy)]
pub enum ConnState {
    /// A link that serves requests.
    Connected(u32),
    /// A link that is being repaired.
    Reconnecting(u32),
    /// There is no link yet.
    Connecting,
}

/// A node of a cluster, with what there is of it.
#[derive(Drop)]
pub struct NodeEntry {
    pub address: NodeAddress,
    pub state: ConnState,
}

/// The nodes of a cluster, in the order of their addresses.
pub type ConnectionMap = Seq<NodeEntry>;
