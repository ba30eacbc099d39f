ghost use Rattle.std.specs.Prelude.{◌≡◌, ◌<◌, ◌^◌, true, IfOk, IfSome};
ghost use Rattle.mux_routing.specs.Shards.{picking, reads_after, shard_at};
ghost use Rattle.route_choice.specs.Entries.{are_ordered};
ghost use Rattle.route_choice.specs.Resolver.{any_node, by_address, by_redirect, by_slot, draw_behind, goes, named_by, node_or, picks_for, reads_by, resolution, slot_route};

use crate::entries::{connected_at, connected_count, nth_connected};
use crate::replica_count::picks_for;
use crate::stand_ins::{preferred, stand_in};
use crate::targets::{Draws, NodeLink, Resolution, RouteTarget};
use cluster_plan::{ConnectionMap, NodeEntry};
use cluster_retries::{InternalSingleNodeRouting, Redirect, SingleNodeRoute};
use mux_routing::{ReadRoutingStrategy, Route, SlotMap};
use slot_hash::NodeAddress;
use std::alloc::{AllocError, Global};

impl Draws {
    /// The draw behind those that were used.
    fn behind(self, used: usize) -> u64
        ensures { result ≡ draw_behind used self }
    {
        if used == 0 { self.first } else { self.second }
    }
}

impl RouteTarget {
    /// To that node, and otherwise elsewhere.
    fn node_or(node: Option<NodeLink>, otherwise: RouteTarget) -> RouteTarget
        ensures { result ≡ node_or otherwise node }
    {
        match node {
            Some(node) => RouteTarget::Node(node),
            None => otherwise,
        }
    }
}

impl Resolution {
    /// There, with so many draws used.
    fn goes(draws: usize, target: RouteTarget) -> Resolution
        ensures { result ≡ goes draws target }
    {
        Resolution { target, draws }
    }
}

/// Any connected node, by the draw behind those that were used.
fn any_node(
    alloc: Global,
    entries: &[NodeEntry],
    used: usize,
    draws: Draws,
) -> Result<Resolution, AllocError>
    requires { used < 2 }
    ensures { IfOk result (λ r. r ≡ any_node used draws entries.now) }
{
    let count = connected_count(entries);
    if count == 0 {
        return Ok(Resolution::goes(used, RouteTarget::NotFound));
    }
    let number = draws.behind(used) % count as u64;
    let node = nth_connected(alloc, entries, number as usize)?;
    Ok(Resolution::goes(used + 1, RouteTarget::node_or(node, RouteTarget::NotFound)))
}

/// Of a slot's route: the node that it prefers, else one that stands in, else any.
fn by_slot<R: ReadRoutingStrategy>(
    alloc: Global,
    entries: &[NodeEntry],
    slots: &SlotMap,
    route: Route,
    reads: &mut Option<R>,
    draws: Draws,
) -> Result<Resolution, AllocError>
    requires order { are_ordered entries.now ≡ true }
    requires slot { route.slot < 2 ^ 14 }
    ensures is { IfOk result (λ r. r ≡ by_slot (picks_for reads.old route slots.now)
        (picking R.pick_of reads.old draws.first) route draws entries.now slots.now) }
    ensures reads { reads.new
        ≡ reads_after R.picked route.addr (shard_at route.slot slots.now) draws.first reads.old }
{
    let used = picks_for(slots, route, reads);
    if let Some(node) = preferred(alloc, entries, slots, route, reads, draws.first)? {
        return Ok(Resolution::goes(used, RouteTarget::Node(node)));
    }
    if let Some(node) = stand_in(alloc, entries, slots, route)? {
        return Ok(Resolution::goes(used, RouteTarget::Node(node)));
    }
    any_node(alloc, entries, used, draws)
}

/// The node at an address, and no other.
fn by_address(
    alloc: Global,
    entries: &[NodeEntry],
    address: &NodeAddress,
) -> Result<Resolution, AllocError>
    requires { are_ordered entries.now ≡ true }
    ensures { IfOk result (λ r. r ≡ by_address address.now entries.now) }
{
    let node = connected_at(alloc, entries, address)?;
    Ok(Resolution::goes(0, RouteTarget::node_or(node, RouteTarget::NotFound)))
}

/// The node that a server named.
fn by_redirect(
    alloc: Global,
    entries: &[NodeEntry],
    redirect: &Redirect,
) -> Result<Resolution, AllocError>
    requires { are_ordered entries.now ≡ true }
    ensures { IfOk result (λ r. r ≡ by_redirect (named_by redirect.now) entries.now) }
{
    let address = match redirect {
        Redirect::Moved(address) => address,
        Redirect::Ask(address) => address,
    };
    let node = connected_at(alloc, entries, address)?;
    let address = address.clone(alloc)?;
    Ok(Resolution::goes(0, RouteTarget::node_or(node, RouteTarget::Connect(address))))
}

/// Where a try of a request goes, and how many of the next draws that takes.
///
/// A redirect leads to its node, and to no other: where that isn't connected, a link to it has to be made. A random route takes a
/// connected node by a draw. A slot's route takes the node that `slot_addr_for_route` says, else the first connected one that
/// `shard_fallback_addrs` says, else a random one. An address takes its node alone. A part of a request that goes to several nodes
/// takes the link that it was made for. Where none of these is connected it is not found.
///
/// A strategy's pick uses a draw, also where another node stands in then; a random node uses one, also where it is the only one.
/// Only want of memory is refused; the strategy may have picked then.
#[tactic(auto, unfolding(crate::specs::Resolver::resolution))]
pub fn resolve<R: ReadRoutingStrategy>(
    alloc: Global,
    routing: &InternalSingleNodeRouting,
    connections: &ConnectionMap,
    slots: &SlotMap,
    reads: &mut Option<R>,
    draws: Draws,
) -> Result<Resolution, AllocError>
    requires order { are_ordered connections.now ≡ true }
    requires slot { IfSome (slot_route routing.now) (λ route. route.slot < 2 ^ 14) }
    ensures is { IfOk result (λ r. r
        ≡ resolution R.pick_of reads.old routing.now draws connections.now slots.now) }
    ensures reads { reads.new
        ≡ reads_by R.picked (slot_route routing.now) draws.first slots.now reads.old }
{
    let entries = connections.as_slice();
    if let Some(redirect) = &routing.redirect {
        return by_redirect(alloc, entries, redirect);
    }
    match &routing.route {
        SingleNodeRoute::Random => any_node(alloc, entries, 0, draws),
        SingleNodeRoute::SpecificNode(route) => {
            by_slot(alloc, entries, slots, *route, reads, draws)
        }
        SingleNodeRoute::ByAddress(address) => by_address(alloc, entries, address),
        SingleNodeRoute::Connection { address, link } => {
            let address = address.clone(alloc)?;
            let node = NodeLink {
                address,
                link: *link,
            };
            Ok(Resolution::goes(0, RouteTarget::Node(node)))
        }
    }
}
