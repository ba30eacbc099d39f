ghost use Rattle.std.specs.Prelude.{◌≡◌, ◌∷◌, ◌++◌, true, false, IfOk};
ghost use Rattle.mux_routing.specs.Shards.{address_less, in_order, text_less};
ghost use Rattle.cluster_plan.specs.Connections.{put};
ghost use Rattle.cluster_plan.specs.Initial.{in_address_order};
ghost use Rattle.cluster_plan.specs.Recovering.{places};

use crate::connections::{ConnectionMap, NodeEntry};
use containers::{Queue, Seq};
use slot_hash::NodeAddress;
use std::alloc::{AllocError, Global};

/// Whether a text comes before another, byte by byte.
#[tactic(auto, using(cluster_retries::proofs::AddressOrder::less_is))]
fn text_less(a: &[u8], b: &[u8]) -> bool
    ensures { result ≡ text_less a.now b.now }
{
    a < b
}

/// Whether an address comes before another.
#[tactic(auto, unfolding(mux_routing::specs::Shards::address_less))]
fn address_less(a: &NodeAddress, b: &NodeAddress) -> bool
    ensures { result ≡ address_less a.now b.now }
{
    let (host, other) = (a.host.as_slice(), b.host.as_slice());
    text_less(host, other) || (host == other && a.port < b.port)
}

/// These entries and the others behind them.
pub fn appended(front: ConnectionMap, others: Queue<NodeEntry>) -> Result<ConnectionMap, AllocError>
    ensures { IfOk result (λ entries. entries ≡ front ++ others) }
{
    let mut entries = front;
    let mut rest = others;
    while let Some(entry) = rest.pop_front() {
        entries.push(entry)?;
    }
    Ok(entries)
}

/// An entry between those before its place and the one found there, which it replaces if that is of the same node.
#[tactic(auto, using(crate::proofs::Sorting::put_over, crate::proofs::Sorting::put_between))]
fn put_here(
    front: ConnectionMap,
    new: NodeEntry,
    found: NodeEntry,
    others: Queue<NodeEntry>,
) -> Result<ConnectionMap, AllocError>
    requires { address_less found.address new.address ≡ false }
    ensures { IfOk result
        (λ entries. entries ≡ front ++ put new.address new.state (found ∷ others)) }
{
    let is_other = address_less(&new.address, &found.address);
    let mut entries = front;
    entries.push(new)?;
    if !is_other {
        return appended(entries, others);
    }
    entries.push(found)?;
    appended(entries, others)
}

/// An entry in its place among others in order.
fn put(alloc: Global, new: NodeEntry, sorted: ConnectionMap) -> Result<ConnectionMap, AllocError>
    ensures { IfOk result (λ entries. entries ≡ put new.address new.state sorted) }
{
    let mut before = Seq::new(alloc);
    let mut rest = Queue::from_vec(sorted.into_vec());
    while let Some(entry) = rest.pop_front() {
        if !address_less(&entry.address, &new.address) {
            return put_here(before, new, entry, rest);
        }
        before.push(entry)?;
    }
    before.push(new)?;
    Ok(before)
}

/// The entries in the order of their addresses.
#[tactic(auto, using(crate::proofs::Sorting::all_in_order))]
pub fn in_address_order(alloc: Global, entries: ConnectionMap) -> Result<ConnectionMap, AllocError>
    ensures is { IfOk result (λ sorted. sorted ≡ in_address_order entries) }
    ensures order { IfOk result (λ sorted. in_order (places sorted) ≡ true) }
{
    let mut sorted = Seq::new(alloc);
    let mut left = entries.into_vec();
    while let Some(entry) = left.pop() {
        sorted = put(alloc, entry, sorted)?;
    }
    Ok(sorted)
}
