ghost use Rattle.std.specs.Prelude.{◌≡◌, ◌<◌, nat_lt, true, length, IfOk, Some, None, slice_get, if◌then◌else◌};
ghost use Rattle.mux_routing.specs.Shards.{address_less, place_of, text_less};
ghost use Rattle.cluster_plan.specs.Asks.{same_address};
ghost use Rattle.cluster_plan.specs.Connections.{state_at};
ghost use Rattle.route_choice.specs.Entries.{addresses_of, are_ordered, connected_at, connected_nodes};

use crate::targets::NodeLink;
use cluster_plan::{ConnState, NodeEntry};
use slot_hash::NodeAddress;
use std::alloc::{AllocError, Global};

/// Whether a text comes before another, byte by byte.
#[tactic(auto, using(crate::proofs::Order::less_is))]
fn text_less(a: &[u8], b: &[u8]) -> bool
    ensures { result ≡ text_less a.now b.now }
{
    a < b
}

/// Whether an address comes before another.
#[tactic(auto, unfolding(mux_routing::specs::Shards::address_less))]
fn address_less(a: &NodeAddress, b: &NodeAddress) -> bool
    ensures { result ≡ address_less a.now b.now }
{
    let (host, other) = (a.host.as_slice(), b.host.as_slice());
    text_less(host, other) || (host == other && a.port < b.port)
}

/// Whether two addresses are one.
fn same_address(a: &NodeAddress, b: &NodeAddress) -> bool
    ensures { result ≡ same_address a.now b.now }
{
    a.host.as_slice() == b.host.as_slice() && a.port == b.port
}

/// Whether the entry of a place comes before an address.
#[tactic(auto, using(crate::proofs::Finding::reads_before))]
fn is_before(entries: &[NodeEntry], place: usize, address: &NodeAddress) -> bool
    requires order { are_ordered entries.now ≡ true }
    requires place { place < length entries.now }
    ensures { result ≡ nat_lt place (place_of (addresses_of entries.now) address.now) }
{
    address_less(&entries[place].address, address)
}

/// How many entries come before an address.
#[tactic(auto, using(crate::proofs::Finding::place_within))]
fn place_of(entries: &[NodeEntry], address: &NodeAddress) -> usize
    requires { are_ordered entries.now ≡ true }
    ensures { result ≡ place_of (addresses_of entries.now) address.now }
{
    let mut low = 0;
    let mut high = entries.len();
    while low < high {
        let middle = low + (high - low) / 2;
        if is_before(entries, middle, address) {
            low = middle + 1;
        } else {
            high = middle;
        }
    }
    low
}

/// What an entry says of an address: its state, if it is the entry of it.
fn state_in(entry: &NodeEntry, address: &NodeAddress) -> Option<ConnState>
    ensures { result
        ≡ (if same_address address.now entry.now.address then Some entry.now.state else None) }
{
    if same_address(address, &entry.address) {
        Some(entry.state)
    } else {
        None
    }
}

/// What there is of the node at an address, if the map has it.
#[tactic(auto, using(crate::proofs::Finding::is_past, crate::proofs::Finding::is_here))]
pub fn state_at(entries: &[NodeEntry], address: &NodeAddress) -> Option<ConnState>
    requires { are_ordered entries.now ≡ true }
    ensures { result ≡ state_at address.now entries.now }
{
    let place = place_of(entries, address);
    if place >= entries.len() {
        return None;
    }
    state_in(&entries[place], address)
}

/// The node at an address, if it is connected.
pub fn connected_at(
    alloc: Global,
    entries: &[NodeEntry],
    address: &NodeAddress,
) -> Result<Option<NodeLink>, AllocError>
    requires { are_ordered entries.now ≡ true }
    ensures { IfOk result (λ node. node ≡ connected_at entries.now address.now) }
{
    let Some(state) = state_at(entries, address) else {
        return Ok(None);
    };
    match state {
        ConnState::Connected(link) => {
            let address = address.clone(alloc)?;
            Ok(Some(NodeLink { address, link }))
        }
        ConnState::Reconnecting(_) => Ok(None),
        ConnState::Connecting => Ok(None),
    }
}

/// How many nodes are connected.
pub fn connected_count(entries: &[NodeEntry]) -> usize
    ensures { result ≡ length (connected_nodes entries.now) }
{
    let mut count = 0;
    for entry in entries {
        if let ConnState::Connected(_) = entry.state {
            count += 1;
        }
    }
    count
}

/// The connected node of a number among all that are, counted from 0.
pub fn nth_connected(
    alloc: Global,
    entries: &[NodeEntry],
    number: usize,
) -> Result<Option<NodeLink>, AllocError>
    ensures { IfOk result (λ node. node ≡ slice_get (connected_nodes entries.now) number) }
{
    let mut left = number;
    for entry in entries {
        if let ConnState::Connected(link) = entry.state {
            if left == 0 {
                let address = entry.address.clone(alloc)?;
                return Ok(Some(NodeLink { address, link }));
            }
            left -= 1;
        }
    }
    Ok(None)
}
