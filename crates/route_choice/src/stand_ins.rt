ghost use Rattle.std.specs.Prelude.{◌≡◌, ◌<◌, ◌^◌, true, IfOk, option_and_then, option_copied, slice_get};
ghost use Rattle.mux_routing.specs.Shards.{address_led_to, addresses, picking, reads_after, shard_at};
ghost use Rattle.route_choice.specs.Entries.{are_ordered, connected_at};
ghost use Rattle.route_choice.specs.Resolver.{preferred, stand_in};
ghost use Rattle.route_choice.specs.Places.{first_of};

use crate::entries::connected_at;
use crate::targets::NodeLink;
use cluster_plan::NodeEntry;
use mux_routing::{NodeIndex, ReadRoutingStrategy, Route, SlotMap};
use slot_hash::NodeAddress;
use std::alloc::{AllocError, Global};

/// The node of a place among those of the slots, if it is connected.
fn connected_node(
    alloc: Global,
    entries: &[NodeEntry],
    slots: &SlotMap,
    place: NodeIndex,
) -> Result<Option<NodeLink>, AllocError>
    requires { are_ordered entries.now ≡ true }
    ensures { IfOk result (λ node. node
        ≡ option_and_then (connected_at entries.now) (slice_get (addresses slots.now) place)) }
{
    let Some(address) = slots.get(place) else {
        return Ok(None);
    };
    connected_at(alloc, entries, address)
}

/// The first of the nodes of these places that is connected.
fn first_connected(
    alloc: Global,
    entries: &[NodeEntry],
    slots: &SlotMap,
    places: &[NodeIndex],
) -> Result<Option<NodeLink>, AllocError>
    requires { are_ordered entries.now ≡ true }
    ensures { IfOk result (λ node. node
        ≡ first_of entries.now (addresses slots.now) places.now) }
{
    for place in places {
        if let Some(node) = connected_node(alloc, entries, slots, *place)? {
            return Ok(Some(node));
        }
    }
    Ok(None)
}

/// The address of the node that a route prefers, if a row of the slots says one.
pub fn led_address<'a, R: ReadRoutingStrategy>(
    slots: &'a SlotMap,
    route: Route,
    reads: &mut Option<R>,
    draw: u64,
) -> Option<&'a NodeAddress>
    requires { route.slot < 2 ^ 14 }
    ensures address { option_copied result
        ≡ address_led_to route (picking R.pick_of reads.old draw) slots.now }
    ensures reads { reads.new
        ≡ reads_after R.picked route.addr (shard_at route.slot slots.now) draw reads.old }
{
    let place = slots.slot_addr_for_route(route, reads, draw)?;
    Some(slots.address(place))
}

/// The node that a slot's route prefers, if it is connected.
pub fn preferred<R: ReadRoutingStrategy>(
    alloc: Global,
    entries: &[NodeEntry],
    slots: &SlotMap,
    route: Route,
    reads: &mut Option<R>,
    draw: u64,
) -> Result<Option<NodeLink>, AllocError>
    requires order { are_ordered entries.now ≡ true }
    requires slot { route.slot < 2 ^ 14 }
    ensures is { IfOk result (λ node. node
        ≡ preferred (picking R.pick_of reads.old draw) route entries.now slots.now) }
    ensures reads { reads.new
        ≡ reads_after R.picked route.addr (shard_at route.slot slots.now) draw reads.old }
{
    match led_address(slots, route, reads, draw) {
        Some(address) => connected_at(alloc, entries, address),
        None => Ok(None),
    }
}

/// The first node of a route's shard that may stand in and is connected.
#[tactic(auto, using(crate::proofs::Standing::stand_in_is))]
pub fn stand_in(
    alloc: Global,
    entries: &[NodeEntry],
    slots: &SlotMap,
    route: Route,
) -> Result<Option<NodeLink>, AllocError>
    requires order { are_ordered entries.now ≡ true }
    requires slot { route.slot < 2 ^ 14 }
    ensures { IfOk result (λ node. node ≡ stand_in route entries.now slots.now) }
{
    let places = slots.shard_fallback_addrs(alloc, route)?;
    first_connected(alloc, entries, slots, places.as_slice())
}
