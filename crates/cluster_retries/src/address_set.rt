ghost use Rattle.std.specs.Prelude.{◌≡◌, ◌==◌, ◌≤◌, [], ◌∷◌, insert, length, true, IfOk, IfSome, MatchOption, OnOk, OnErr};
ghost use Rattle.mux_routing.specs.Shards.{address_less, in_order, inserted, place_of, text_less};
ghost use Rattle.cluster_retries.specs.Actions.{IsJoinedInPart, union};

use containers::Queue;
use slot_hash::NodeAddress;
use std::alloc::{AllocError, Global};
use std::marker::Model;

/// Addresses of nodes in order, by the bytes of the host and then by the port, each once. Contracts see the list of them.
#[derive(Drop)]
pub struct AddressSet {
    items: Vec<NodeAddress>,
}

impl Model for AddressSet {
    ghost use Rattle.std.specs.Prelude.{◌≡◌, List, true};
    ghost use Rattle.slot_hash.specs.declared.address.NodeAddress.{NodeAddress};
    ghost use Rattle.mux_routing.specs.Shards.{in_order};

    ghost Value = { List NodeAddress };

    ghost view = { λ s. s.items.items };

    ghost invariant = { λ s. in_order s.items.items ≡ true };
}

/// Whether a text comes before another, byte by byte.
#[tactic(auto, using(crate::proofs::AddressOrder::less_is))]
fn text_less(a: &[u8], b: &[u8]) -> bool
    ensures { result ≡ text_less a.now b.now }
{
    a < b
}

/// Whether an address comes before another.
#[tactic(auto, unfolding(mux_routing::specs::Shards::address_less))]
fn address_less(a: &NodeAddress, b: &NodeAddress) -> bool
    ensures { result ≡ address_less a.now b.now }
{
    let (host, other) = (a.host.as_slice(), b.host.as_slice());
    text_less(host, other) || (host == other && a.port < b.port)
}

/// How many of these addresses stand before one.
fn place_of(addresses: &[NodeAddress], address: &NodeAddress) -> usize
    ensures is { result ≡ place_of addresses.now address.now }
    ensures bound { result ≤ length addresses.now }
{
    for (i, other) in addresses.iter().enumerate() {
        if !address_less(other, address) {
            return i;
        }
    }
    addresses.len()
}

/// Where an address comes in, unless it is there.
#[tactic(auto, using(crate::proofs::Inserting::stands, crate::proofs::Inserting::comes_in, crate::proofs::Inserting::comes_last))]
fn gap_for(addresses: &[NodeAddress], address: &NodeAddress) -> Option<usize>
    ensures bound { IfSome result (λ at. at ≤ length addresses.now) }
    ensures is { MatchOption result
        (inserted address.now addresses.now ≡ addresses.now)
        (λ at. inserted address.now addresses.now ≡ insert addresses.now at address.now) }
{
    let at = place_of(addresses, address);
    if at >= addresses.len() {
        return Some(at);
    }
    if address_less(address, &addresses[at]) {
        Some(at)
    } else {
        None
    }
}

impl AddressSet {
    /// No addresses. Takes no memory.
    pub fn new(alloc: Global) -> AddressSet
        ensures { result ≡ [] }
    {
        AddressSet {
            items: Vec::new(alloc),
        }
    }

    /// One address. Only want of memory is refused.
    pub fn from_address(alloc: Global, address: NodeAddress) -> Result<AddressSet, AllocError>
        ensures { IfOk result (λ s. s ≡ address ∷ []) }
    {
        let mut set = AddressSet::new(alloc);
        set.insert(address)?;
        Ok(set)
    }

    /// The addresses in order.
    pub fn as_slice(&self) -> &[NodeAddress]
        ensures is { result.now ≡ self.now }
        ensures ordered { in_order self.now ≡ true }
    {
        self.items.as_slice()
    }

    pub fn len(&self) -> usize
        ensures { result ≡ length self.now }
    {
        self.items.len()
    }

    pub fn is_empty(&self) -> bool
        ensures { result ≡ (length self.now == 0) }
    {
        self.items.is_empty()
    }

    /// Puts an address in its place, unless it is there. An error leaves the addresses as they were.
    #[tactic(auto, using(crate::proofs::Unions::ordered_inserted))]
    pub fn insert(&mut self, address: NodeAddress) -> Result<(), AllocError>
        ensures ok { OnOk result (self.new ≡ inserted address self.old) }
        ensures err { OnErr result (self.new ≡ self.old) }
    {
        let Some(at) = gap_for(self.items.as_slice(), &address) else {
            return Ok(());
        };
        self.items.insert(at, address)?;
        Ok(())
    }

    /// Puts all of these in their places, unless they are there. An error leaves those that were put in before it, beside the
    /// addresses that there were.
    #[tactic(auto, using(crate::proofs::Unions::union_is, crate::proofs::Unions::none_put_in))]
    pub fn join(&mut self, more: AddressSet) -> Result<(), AllocError>
        ensures ok { OnOk result (self.new ≡ union self.old more) }
        ensures err { OnErr result (IsJoinedInPart self.old more self.new) }
    {
        self.items.reserve(more.items.len())?;
        let mut rest = Queue::from_vec(more.items);
        while let Some(address) = rest.pop_front() {
            self.insert(address)?;
        }
        Ok(())
    }
}
