use containers::Seq;
use redis_error::RouteNumbers;
use slot_hash::NodeAddress;

/// The next two draws. A try uses none of them, the first, or both.
#[derive(Clone, Copy, Debug, PartialEq, Eq)]
pub struct Draws {
    pub first: u64,
    pub second: u64,
}

/// A node, and the number of the link to it.
#[derive(Drop)]
pub struct NodeLink {
    pub address: NodeAddress,
    pub link: u32,
}

/// Where a try of a request goes.
#[derive(Drop)]
pub enum RouteTarget {
    /// To this node, over this link.
    Node(NodeLink),
    /// To the node at this address, to which a link has to be made first.
    Connect(NodeAddress),
    /// Nowhere: no link serves it.
    NotFound,
}

/// Where a try goes, and how many draws that took.
#[derive(Drop)]
pub struct Resolution {
    pub target: RouteTarget,
    pub draws: usize,
}

/// Where the parts of a request go that goes to several nodes.
#[derive(Drop)]
pub enum PartTargets {
    /// Each part to one node, in order.
    Parts(Seq<NodeLink>),
    /// Nowhere: there is no part, or none has a link.
    NotFound,
    /// Nowhere: the routes of these numbers, counted from 0, have no link, and others have.
    RouteWithoutLink(RouteNumbers),
}

/// Where the parts of a request go, and how many draws that took.
#[derive(Drop)]
pub struct PartResolution {
    pub targets: PartTargets,
    pub draws: usize,
}
