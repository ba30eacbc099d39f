ghost use Rattle.std.specs.Prelude.{◌≡◌, ◌<◌, ◌^◌, true, None, IfOk, IfSome};
ghost use Rattle.route_choice.specs.Entries.{are_ordered};
ghost use Rattle.route_choice.specs.Resolver.{slot_route};

use crate::nodes::address;
use cluster_plan::{ConnState, ConnectionMap, NodeEntry};
use cluster_retries::{InternalSingleNodeRouting, SingleNodeRoute};
use containers::Seq;
use mux_routing::{
    MultipleNodeRoutingInfo, NodeAddress, ReadStrategy, Route, SlotAddr, SlotMap, SlotRow, SlotRows,
};
use route_choice::{
    Draws, PartResolution, PartTargets, Resolution, RouteTarget, resolve, resolve_parts,
};
use std::alloc::{AllocError, Global};

/// The only node of the cluster.
fn node(alloc: Global) -> Result<NodeAddress, AllocError> {
    address(alloc, b"h", 7_000)
}

/// The map of links, with this of the node.
fn links(alloc: Global, state: ConnState) -> Result<ConnectionMap, AllocError>
    ensures { IfOk result (λ entries. are_ordered entries ≡ true) }
{
    let address = node(alloc)?;
    let mut entries = Seq::new(alloc);
    entries.push(NodeEntry { address, state })?;
    Ok(entries)
}

/// The map of slots: all are at the node.
fn slots(alloc: Global) -> Result<SlotMap, AllocError> {
    let primary = node(alloc)?;
    let mut rows = SlotRows::new(alloc);
    rows.push(SlotRow {
        start: 0,
        end: 16_383,
        primary,
        replicas: Seq::new(alloc),
    })?;
    SlotMap::from_rows(alloc, &rows)
}

/// The link of a place, if it is a node's.
fn link_to(target: &RouteTarget) -> Option<u32> {
    match target {
        RouteTarget::Node(node) => Some(node.link),
        RouteTarget::Connect(_) => None,
        RouteTarget::NotFound => None,
    }
}

/// The link over which a try goes, and how many draws that took.
fn resolved(
    alloc: Global,
    routing: &InternalSingleNodeRouting,
    entries: &ConnectionMap,
    slots: &SlotMap,
) -> Result<(Option<u32>, usize), AllocError>
    requires order { are_ordered entries.now ≡ true }
    requires slot { IfSome (slot_route routing.now) (λ r. r.slot < 2 ^ 14) }
{
    let mut reads = Some(ReadStrategy::Random);
    let draws = Draws {
        first: 5,
        second: 7,
    };
    let Resolution { target, draws } = resolve(alloc, routing, entries, slots, &mut reads, draws)?;
    let link = link_to(&target);
    drop(target);
    Ok((link, draws))
}

/// To a slot's node, or to any.
fn routing(route: Option<Route>) -> InternalSingleNodeRouting
    ensures { slot_route result ≡ route }
{
    match route {
        Some(route) => unredirected(SingleNodeRoute::SpecificNode(route)),
        None => unredirected(SingleNodeRoute::Random),
    }
}

fn unredirected(route: SingleNodeRoute) -> InternalSingleNodeRouting
    ensures { result ≡ record { route = route; redirect = None } }
{
    InternalSingleNodeRouting {
        route,
        redirect: None,
    }
}

/// The same over these links, to a slot's node or to any.
fn resolved_over(
    alloc: Global,
    route: Option<Route>,
    entries: &ConnectionMap,
) -> Result<(Option<u32>, usize), AllocError>
    requires order { are_ordered entries.now ≡ true }
    requires slot { IfSome route (λ r. r.slot < 2 ^ 14) }
{
    let slots = slots(alloc)?;
    let routing = routing(route);
    let found = resolved(alloc, &routing, entries, &slots);
    drop(routing);
    drop(slots);
    found
}

/// The same over the link of this state.
fn tried(
    alloc: Global,
    route: Option<Route>,
    state: ConnState,
) -> Result<(Option<u32>, usize), AllocError>
    requires { IfSome route (λ r. r.slot < 2 ^ 14) }
{
    let entries = links(alloc, state)?;
    let found = resolved_over(alloc, route, &entries);
    drop(entries);
    found
}

fn count(targets: &PartTargets) -> usize {
    match targets {
        PartTargets::Parts(nodes) => nodes.len(),
        PartTargets::NotFound => 0,
        PartTargets::RouteWithoutLink(_) => 0,
    }
}

/// How many parts there are of a request to all primaries, over these links.
fn parts_over(alloc: Global, entries: &ConnectionMap, slots: &SlotMap) -> Result<usize, AllocError>
    requires { are_ordered entries.now ≡ true }
{
    let mut reads = Some(ReadStrategy::Random);
    let nodes = MultipleNodeRoutingInfo::AllMasters;
    let PartResolution { targets, draws: _ } = resolve_parts(
        alloc,
        &nodes,
        entries,
        slots,
        &mut reads,
        &[],
    )?;
    let count = count(&targets);
    drop(targets);
    Ok(count)
}

/// The same over the link of this state.
fn parts_to_primaries(alloc: Global, state: ConnState) -> Result<usize, AllocError> {
    let entries = links(alloc, state)?;
    let slots = slots(alloc)?;
    let count = parts_over(alloc, &entries, &slots);
    drop(slots);
    drop(entries);
    count
}

#[test]
fn tries_go_to_a_connected_node(rt: HostRuntime) -> Result<(), AllocError> {
    let alloc = rt.alloc();
    let any = tried(alloc, None, ConnState::Connected(3))?;
    assert!(rt; any == (Some(3), 1));
    let route = Route {
        slot: 12,
        addr: SlotAddr::ReplicaOptional,
    };
    let slot = tried(alloc, Some(route), ConnState::Connected(3))?;
    assert!(rt; slot == (Some(3), 0));
    let away = tried(alloc, Some(route), ConnState::Reconnecting(3))?;
    assert!(rt; away == (None, 0));
    Ok(())
}

#[test]
fn parts_go_to_a_link_that_is_repaired(rt: HostRuntime) -> Result<(), AllocError> {
    let alloc = rt.alloc();
    let repaired = parts_to_primaries(alloc, ConnState::Reconnecting(3))?;
    assert_eq!(rt; repaired, 1);
    let unlinked = parts_to_primaries(alloc, ConnState::Connecting)?;
    assert_eq!(rt; unlinked, 0);
    Ok(())
}
