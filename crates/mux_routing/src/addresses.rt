ghost use Rattle.std.specs.Prelude.{◌≡◌, ◌++◌, ◌≤◌, true, length, slice_get, IfOk, IfSome, IsNone, OnOk, Some};
ghost use Rattle.std.specs.List.{Contains};
ghost use Rattle.mux_routing.specs.Members.{named};
ghost use Rattle.mux_routing.specs.Shards.{addresses, in_order, place_of};

use crate::rows::SlotRow;
use slot_hash::NodeAddress;
use std::alloc::{AllocError, Global};

/// Copies of addresses, at the end.
fn push_copies(
    alloc: Global,
    nodes: &mut Vec<NodeAddress>,
    more: &[NodeAddress],
) -> Result<(), AllocError>
    ensures { OnOk result (nodes.new.items ≡ nodes.old.items ++ more.now) }
{
    for address in more {
        let copy = address.clone(alloc)?;
        nodes.push(copy)?;
    }
    Ok(())
}

/// The addresses of all rows, as they stand there.
fn named(alloc: Global, rows: &[SlotRow]) -> Result<Vec<NodeAddress>, AllocError>
    ensures { IfOk result (λ nodes. nodes.items ≡ named rows.now) }
{
    let mut nodes = Vec::new(alloc);
    for row in rows {
        let primary = row.primary.clone(alloc)?;
        nodes.push(primary)?;
        push_copies(alloc, &mut nodes, row.replicas.as_slice())?;
    }
    Ok(nodes)
}

/// The distinct addresses of all rows, in order. With n addresses it takes n log n comparisons.
pub fn addresses(alloc: Global, rows: &[SlotRow]) -> Result<Vec<NodeAddress>, AllocError>
    ensures { IfOk result (λ nodes. nodes.items ≡ addresses rows.now) }
{
    let mut nodes = named(alloc, rows)?;
    nodes.sort_unstable();
    nodes.dedup();
    Ok(nodes)
}

/// How many of these addresses stand before one.
pub fn place_of(nodes: &[NodeAddress], address: &NodeAddress) -> usize
    requires { in_order nodes.now ≡ true }
    ensures is { result ≡ place_of nodes.now address.now }
    ensures bound { result ≤ length nodes.now }
{
    match nodes.binary_search(address) {
        Ok(place) => place,
        Err(place) => place,
    }
}

/// The place of an address among these, if it is one of them.
pub fn found(nodes: &[NodeAddress], address: &NodeAddress) -> Option<usize>
    requires { in_order nodes.now ≡ true }
    ensures found { IfSome result (λ i. slice_get nodes.now i ≡ Some address.now) }
    ensures none { IsNone result → ¬ (Contains nodes.now address.now) }
{
    let place = place_of(nodes, address);
    match nodes.get(place) {
        Some(node) if *node == *address => Some(place),
        _ => None,
    }
}
