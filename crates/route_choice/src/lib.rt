//! Which node each try of a cluster's request goes to, from what is known of the nodes at that moment: a function of plain
//! data, without a link.
#![tactic(auto)]

mod entries;
mod gathering;
mod laws;
mod parts;
mod replica_count;
mod resolver;
mod stand_ins;
mod targets;

pub use laws::{
    a_try_goes_where_it_may, parts_go_to_their_own_nodes, routes_without_links_are_named,
    the_map_stays_in_order,
};
pub use parts::resolve_parts;
pub use resolver::resolve;
pub use targets::{Draws, NodeLink, PartResolution, PartTargets, Resolution, RouteTarget};
