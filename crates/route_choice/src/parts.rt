ghost use Rattle.std.specs.Prelude.{◌≡◌, ◌<◌, ◌≤◌, ◌^◌, true, IfOk, OnOk, length, option_and_then, slice_get};
ghost use Rattle.mux_routing.specs.Shards.{address_led_to, addresses, picking, reads_after, shard_at};
ghost use Rattle.route_choice.specs.Entries.{are_ordered};
ghost use Rattle.route_choice.specs.Parts.{are_slots, of_places, of_routes, part_at, part_resolution, parts_at, route_nodes, route_picks, route_reads, routes_of};

use crate::entries::state_at;
use crate::gathering::Gathered;
use crate::replica_count::picks_for;
use crate::stand_ins::led_address;
use crate::targets::{NodeLink, PartResolution};
use cluster_plan::{ConnState, ConnectionMap, NodeEntry};
use mux_routing::{
    KeyIndices, MultipleNodeRoutingInfo, NodeIndex, ReadRoutingStrategy, Route, SlotMap,
};
use slot_hash::NodeAddress;
use std::alloc::{AllocError, Global};

/// The node at an address, over its link, if it has one.
fn part_at(
    alloc: Global,
    entries: &[NodeEntry],
    address: &NodeAddress,
) -> Result<Option<NodeLink>, AllocError>
    requires { are_ordered entries.now ≡ true }
    ensures { IfOk result (λ node. node ≡ part_at entries.now address.now) }
{
    let Some(state) = state_at(entries, address) else {
        return Ok(None);
    };
    let link = match state {
        ConnState::Connected(link) => link,
        ConnState::Reconnecting(link) => link,
        ConnState::Connecting => return Ok(None),
    };
    let address = address.clone(alloc)?;
    Ok(Some(NodeLink { address, link }))
}

/// The node of a place among those of the slots, over its link, if it has one.
fn part_node(
    alloc: Global,
    entries: &[NodeEntry],
    slots: &SlotMap,
    place: NodeIndex,
) -> Result<Option<NodeLink>, AllocError>
    requires { are_ordered entries.now ≡ true }
    ensures { IfOk result (λ node. node
        ≡ option_and_then (part_at entries.now) (slice_get (addresses slots.now) place)) }
{
    let Some(address) = slots.get(place) else {
        return Ok(None);
    };
    part_at(alloc, entries, address)
}

/// The nodes of these places.
fn parts_at(
    alloc: Global,
    entries: &[NodeEntry],
    slots: &SlotMap,
    places: &[NodeIndex],
) -> Result<Vec<Option<NodeLink>>, AllocError>
    requires { are_ordered entries.now ≡ true }
    ensures { IfOk result (λ found. found.items
        ≡ parts_at entries.now (addresses slots.now) places.now) }
{
    let mut found = Vec::new(alloc);
    for place in places {
        let node = part_node(alloc, entries, slots, *place)?;
        found.push(node)?;
    }
    Ok(found)
}

/// One part for each node of these places that has a link.
fn of_places(
    alloc: Global,
    entries: &[NodeEntry],
    slots: &SlotMap,
    places: &[NodeIndex],
) -> Result<PartResolution, AllocError>
    requires { are_ordered entries.now ≡ true }
    ensures { IfOk result (λ r. r ≡ of_places entries.now slots.now places.now) }
{
    let found = parts_at(alloc, entries, slots, places)?;
    let gathered = Gathered::of(alloc, found)?;
    Ok(PartResolution {
        targets: gathered.for_nodes(),
        draws: 0,
    })
}

/// The node that a route prefers, over its link, if it has one.
fn route_node<R: ReadRoutingStrategy>(
    alloc: Global,
    entries: &[NodeEntry],
    slots: &SlotMap,
    route: Route,
    reads: &mut Option<R>,
    draw: u64,
) -> Result<Option<NodeLink>, AllocError>
    requires order { are_ordered entries.now ≡ true }
    requires slot { route.slot < 2 ^ 14 }
    ensures is { IfOk result (λ node. node ≡ option_and_then (part_at entries.now)
        (address_led_to route (picking R.pick_of reads.old draw) slots.now)) }
    ensures reads { reads.new
        ≡ reads_after R.picked route.addr (shard_at route.slot slots.now) draw reads.old }
{
    match led_address(slots, route, reads, draw) {
        Some(address) => part_at(alloc, entries, address),
        None => Ok(None),
    }
}

/// The nodes of these routes, and how many picks a strategy made for them.
fn route_nodes<R: ReadRoutingStrategy>(
    alloc: Global,
    entries: &[NodeEntry],
    slots: &SlotMap,
    routes: &[(Route, KeyIndices)],
    reads: &mut Option<R>,
    draws: &[u64],
) -> Result<(Vec<Option<NodeLink>>, usize), AllocError>
    requires order { are_ordered entries.now ≡ true }
    requires slots { are_slots routes.now ≡ true }
    requires draws { length routes.now ≤ length draws.now }
    ensures nodes { IfOk result (λ r. r.0.items
        ≡ route_nodes R.pick_of R.picked reads.old draws.now 0 entries.now slots.now routes.now) }
    ensures picks { IfOk result (λ r. r.1
        ≡ route_picks R.picked reads.old draws.now 0 slots.now routes.now) }
    ensures reads { OnOk result (reads.new
        ≡ route_reads R.picked reads.old draws.now 0 slots.now routes.now) }
{
    let mut found = Vec::new(alloc);
    let mut used = 0;
    for part in routes {
        let picks = picks_for(slots, part.0, reads);
        let node = route_node(alloc, entries, slots, part.0, reads, draws[used])?;
        found.push(node)?;
        used += picks;
    }
    Ok((found, used))
}

/// One part for each of these routes.
fn of_routes<R: ReadRoutingStrategy>(
    alloc: Global,
    entries: &[NodeEntry],
    slots: &SlotMap,
    routes: &[(Route, KeyIndices)],
    reads: &mut Option<R>,
    draws: &[u64],
) -> Result<PartResolution, AllocError>
    requires order { are_ordered entries.now ≡ true }
    requires slots { are_slots routes.now ≡ true }
    requires draws { length routes.now ≤ length draws.now }
    ensures is { IfOk result (λ r. r ≡ of_routes
        (route_picks R.picked reads.old draws.now 0 slots.now routes.now)
        (route_nodes R.pick_of R.picked reads.old draws.now 0 entries.now slots.now routes.now)) }
    ensures reads { OnOk result (reads.new
        ≡ route_reads R.picked reads.old draws.now 0 slots.now routes.now) }
{
    let (found, used) = route_nodes(alloc, entries, slots, routes, reads, draws)?;
    let gathered = Gathered::of(alloc, found)?;
    Ok(PartResolution {
        targets: gathered.for_routes(),
        draws: used,
    })
}

/// Where the parts of a request go that goes to several nodes, and how many of the next draws that takes.
///
/// To all nodes, or to all primaries, there is one part for each address of the slots that has a link, in order. With keys in several
/// slots there is one part for each route, to the node that `slot_addr_for_route` says; each pick of a strategy uses a draw. A link
/// that is being repaired serves too, and no other node stands in. There is no part at all where none has a link, and where some
/// routes have none.
///
/// Only want of memory is refused; the strategy may have picked for some routes then.
#[tactic(auto, unfolding(crate::specs::Parts::part_resolution))]
pub fn resolve_parts<R: ReadRoutingStrategy>(
    alloc: Global,
    nodes: &MultipleNodeRoutingInfo,
    connections: &ConnectionMap,
    slots: &SlotMap,
    reads: &mut Option<R>,
    draws: &[u64],
) -> Result<PartResolution, AllocError>
    requires order { are_ordered connections.now ≡ true }
    requires slots { are_slots (routes_of nodes.now) ≡ true }
    requires draws { length (routes_of nodes.now) ≤ length draws.now }
    ensures is { IfOk result (λ r. r ≡ part_resolution R.pick_of R.picked reads.old nodes.now
        draws.now connections.now slots.now) }
    ensures reads { OnOk result (reads.new
        ≡ route_reads R.picked reads.old draws.now 0 slots.now (routes_of nodes.now)) }
{
    let entries = connections.as_slice();
    match nodes {
        MultipleNodeRoutingInfo::AllNodes => {
            let places = slots.nodes(alloc)?;
            of_places(alloc, entries, slots, places.as_slice())
        }
        MultipleNodeRoutingInfo::AllMasters => {
            let places = slots.primaries(alloc)?;
            of_places(alloc, entries, slots, places.as_slice())
        }
        MultipleNodeRoutingInfo::MultiSlot(routes) => {
            of_routes(alloc, entries, slots, routes.as_slice(), reads, draws)
        }
    }
}
