ghost use Rattle.std.specs.Prelude.{◌≡◌, ◌∷◌, ◌==◌, ◌++◌, [], List, length, map, true, IfOk, OnOk};
ghost use Rattle.std.specs.List.{Contains};
ghost use Rattle.mux_routing.specs.Reply.{are_rows};
ghost use Rattle.mux_routing.specs.Shards.{addresses, in_order};
ghost use Rattle.cluster_plan.specs.Asks.{Answered};
ghost use Rattle.cluster_plan.specs.Connections.{link_to};
ghost use Rattle.cluster_plan.specs.Reached.{arrived, asked_for};
ghost use Rattle.cluster_plan.specs.Refresh.{renewed, renewed_by};
ghost use Rattle.cluster_plan.specs.Steps.{begun_at, settled_node, settled_nodes, stepped};
ghost use Rattle.cluster_plan.specs.Recovering.{IsSound, plan_of};

use crate::asks::{Answer, Ask, Part};
use crate::connections::{ConnState, ConnectionMap, NodeEntry};
use crate::passes::link_of;
use crate::progress::same_address;
use crate::state::State;
use crate::step::{Arrival, Step};
use containers::{Queue, Seq};
use mux_routing::{SlotMap, SlotRows};
use slot_hash::NodeAddress;
use std::alloc::{AllocError, Global};

/// The link to a node, if there is one.
fn link_to(address: &NodeAddress, entries: &[NodeEntry]) -> Option<u32>
    ensures { result ≡ link_to address.now entries.now }
{
    for entry in entries {
        if same_address(address, &entry.address) {
            return link_of(entry.state);
        }
    }
    None
}

/// The nodes of the new map, which are reached by the links that there are.
#[tactic(auto, using(crate::proofs::Arriving::looked_all))]
fn begun_nodes(
    alloc: Global,
    entries: &[NodeEntry],
    slots: &SlotMap,
) -> Result<Seq<Arrival>, AllocError>
    ensures { IfOk result (λ nodes. nodes ≡ map (begun_at entries.now) (addresses slots.now)) }
{
    let mut nodes = Seq::new(alloc);
    let numbers = slots.nodes(alloc)?;
    for number in &numbers {
        if let Some(node) = slots.get(*number) {
            let address = node.clone(alloc)?;
            let step = Step::begun(link_to(node, entries));
            nodes.push(Arrival { address, step })?;
        }
    }
    Ok(nodes)
}

/// Whether each node was reached.
fn are_reached(nodes: &[Arrival]) -> bool
    ensures { result ≡ (length (asked_for (stepped nodes.now [])) == 0) }
{
    for node in nodes {
        match node.step {
            Step::Checking(_) => return false,
            Step::Connecting => return false,
            Step::Arrived(_) => {}
        }
    }
    true
}

/// What is asked of a node, at the end of others.
fn ask_for(alloc: Global, node: &Arrival, asks: &mut Seq<Ask>) -> Result<(), AllocError>
    ensures { OnOk result ((others : List Arrival) → asks.new ++ asked_for (stepped others [])
        ≡ asks.old ++ asked_for (stepped (node.now ∷ others) [])) }
{
    match node.step.ask(alloc, Part::Last, &node.address)? {
        Some(ask) => asks.push(ask),
        None => Ok(()),
    }
}

/// What is asked of the nodes, in order.
pub fn asks_of_nodes(alloc: Global, nodes: &[Arrival]) -> Result<Seq<Ask>, AllocError>
    ensures { IfOk result (λ asks. asks ≡ asked_for (stepped nodes.now [])) }
{
    let mut asks = Seq::new(alloc);
    for node in nodes {
        ask_for(alloc, node, &mut asks)?;
    }
    Ok(asks)
}

/// The entry of a node that was reached.
fn enter(node: Arrival, entries: &mut ConnectionMap) -> Result<(), AllocError>
    ensures { OnOk result ((others : List Arrival) → entries.new ++ arrived (stepped others [])
        ≡ entries.old ++ arrived (stepped (node ∷ others) [])) }
{
    let Arrival { address, step } = node;
    match step {
        Step::Checking(_) => Ok(()),
        Step::Connecting => Ok(()),
        Step::Arrived(link) => entries.push(NodeEntry {
            address,
            state: ConnState::Connected(link),
        }),
    }
}

/// The entries of the nodes that were reached, in order.
fn reached_entries(alloc: Global, nodes: Seq<Arrival>) -> Result<ConnectionMap, AllocError>
    ensures { IfOk result (λ entries. entries ≡ arrived (stepped nodes [])) }
{
    let mut entries = Seq::new(alloc);
    let mut rest = Queue::from_vec(nodes.into_vec());
    while let Some(node) = rest.pop_front() {
        enter(node, &mut entries)?;
    }
    Ok(entries)
}

/// The nodes are reached, or they were and this is the end.
#[tactic(auto, unfolding(crate::specs::Recovering::plan_of), using(crate::proofs::Arriving::all_arrived))]
fn go_on(
    alloc: Global,
    entries: ConnectionMap,
    slots: SlotMap,
    nodes: Seq<Arrival>,
) -> Result<State, AllocError>
    requires { in_order (map (λ t. t.address) nodes) ≡ true }
    ensures is { IfOk result (λ s. (more : List Answered)
        → plan_of s more ≡ renewed_by entries slots (stepped nodes more)) }
    ensures sound { IfOk result IsSound }
{
    if !are_reached(nodes.as_slice()) {
        return Ok(State::Last {
            entries,
            slots,
            nodes,
        });
    }
    let entries = reached_entries(alloc, nodes)?;
    Ok(State::Ended {
        entries,
        slots,
        failure: None,
    })
}

/// A good reply: the nodes of the new map are reached.
#[tactic(auto, using(crate::proofs::Going::goes_renewed, crate::proofs::Going::order_begun))]
pub fn renew(alloc: Global, entries: ConnectionMap, rows: SlotRows) -> Result<State, AllocError>
    requires { are_rows rows ≡ true }
    ensures is { IfOk result (λ s. (more : List Answered) → plan_of s more ≡ renewed entries rows more) }
    ensures sound { IfOk result IsSound }
{
    let slots = SlotMap::from_rows(alloc, &rows)?;
    let nodes = begun_nodes(alloc, entries.as_slice(), &slots)?;
    let state = go_on(alloc, entries, slots, nodes)?;
    Ok(state)
}

/// What an answer makes of a node, at the end of others. A node that failed is left out.
fn settle(
    node: Arrival,
    address: &NodeAddress,
    told: &Answer,
    nodes: &mut Seq<Arrival>,
) -> Result<(), AllocError>
    ensures { OnOk result (nodes.new ≡ nodes.old ++ settled_node address.now told.now node) }
{
    if !same_address(&node.address, address) {
        return nodes.push(node);
    }
    if let Some(step) = node.step.next(told) {
        let Arrival { address, step: _ } = node;
        nodes.push(Arrival { address, step })?;
    }
    Ok(())
}

/// What an answer makes of all nodes.
fn settle_nodes(
    alloc: Global,
    nodes: Seq<Arrival>,
    address: &NodeAddress,
    told: &Answer,
) -> Result<Seq<Arrival>, AllocError>
    ensures { IfOk result (λ left. left ≡ settled_nodes address.now told.now nodes) }
{
    let mut left = Seq::new(alloc);
    let mut rest = Queue::from_vec(nodes.into_vec());
    while let Some(node) = rest.pop_front() {
        settle(node, address, told, &mut left)?;
    }
    Ok(left)
}

/// What was asked of a node of the new map was answered.
#[tactic(auto, using(crate::proofs::Going::goes_settled, crate::proofs::Going::order_left))]
pub fn after_arrival(
    alloc: Global,
    entries: ConnectionMap,
    slots: SlotMap,
    nodes: Seq<Arrival>,
    ask: &Ask,
    told: &Answer,
) -> Result<State, AllocError>
    requires order { in_order (map (λ t. t.address) nodes) ≡ true }
    requires given { Contains (asked_for (stepped nodes [])) ask.now }
    ensures is { IfOk result (λ s. (more : List Answered)
        → plan_of s more ≡ renewed_by entries slots (stepped nodes ((ask.now, told.now) ∷ more))) }
    ensures sound { IfOk result IsSound }
{
    let left = settle_nodes(alloc, nodes, &ask.address, told)?;
    let state = go_on(alloc, entries, slots, left)?;
    Ok(state)
}
