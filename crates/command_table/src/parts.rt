ghost use Rattle.std.specs.Prelude.{◌≡◌, ◌<◌, ◌++◌, ◌∷◌, [], length, map, IfOk, OnOk, slice_get, slice_set, Some};
ghost use Rattle.slot_hash.specs.Tag.{slot_of};
ghost use Rattle.command_table.specs.Routing.{all_are, by_slots, keys_of_pairs, parts_of, placed};

use crate::routes::{random, to_slot};
use crate::routing::{
    KeyIndices, MultipleNodeRoutingInfo, ResponsePolicy, Route, RoutingInfo, SlotAddr, SlotParts,
};
use containers::Bytes;
use slot_hash::key_slot;
use std::alloc::{AllocError, Global};

/// The slots of keys.
pub fn slots_of_keys(alloc: Global, keys: &[Bytes]) -> Result<Vec<u16>, AllocError>
    ensures { IfOk result (λ slots. slots.items ≡ map slot_of keys.now) }
{
    keys.iter()
        .map(|key| key_slot(key.as_slice()))
        .collect(alloc)
}

/// The slots of the keys that have a value.
pub fn slots_of_pairs(alloc: Global, mut args: &[Bytes]) -> Result<Vec<u16>, AllocError>
    ensures { IfOk result (λ slots. slots.items ≡ map slot_of (keys_of_pairs args.entry.now)) }
{
    let mut slots = Vec::new(alloc);
    while let [key, _value, rest @ ..] = args {
        slots.push(key_slot(key.as_slice()))?;
        args = rest;
    }
    Ok(slots)
}

/// Whether all slots are this one.
fn all_are(slot: u16, slots: &[u16]) -> bool
    ensures { result ≡ all_are slot slots.now }
{
    for other in slots {
        if *other != slot {
            return false;
        }
    }
    true
}

/// One part for each slot, in the order of the first key of each.
fn parts_of(alloc: Global, addr: SlotAddr, slots: &[u16]) -> Result<SlotParts, AllocError>
    ensures { IfOk result (λ parts. parts ≡ parts_of addr slots.now) }
{
    let mut parts = SlotParts::new(alloc);
    for (i, slot) in slots.iter().enumerate() {
        let Ok(index) = u32::try_from(i) else {
            return Err(AllocError);
        };
        parts.place(alloc, addr, *slot, index)?;
    }
    Ok(parts)
}

/// By the slots of all keys: one slot is a single route.
pub fn by_slots(
    alloc: Global,
    addr: SlotAddr,
    policy: ResponsePolicy,
    slots: &[u16],
) -> Result<RoutingInfo, AllocError>
    ensures { IfOk result (λ r. r ≡ by_slots addr policy slots.now) }
{
    let [first, others @ ..] = slots else {
        return Ok(random());
    };
    if all_are(*first, others) {
        return Ok(to_slot(addr, *first));
    }
    let parts = parts_of(alloc, addr, slots)?;
    Ok(RoutingInfo::MultiNode(MultipleNodeRoutingInfo::MultiSlot(parts), Some(policy)))
}

impl SlotParts {
    /// The key of this place and slot joins the part of its slot, or begins a new last part.
    #[tactic(auto, using(crate::proofs::Placing::one_part_more, crate::proofs::Placing::found, crate::proofs::Placing::found_nowhere))]
    fn place(
        &mut self,
        alloc: Global,
        addr: SlotAddr,
        slot: u16,
        index: u32,
    ) -> Result<(), AllocError>
        ensures { OnOk result (self.new ≡ placed addr slot index self.old) }
    {
        for k in 0..self.len() {
            let here = self.slot_at(k);
            if here == slot {
                return self.join(k, index);
            }
        }
        let mut indices = KeyIndices::new(alloc);
        indices.push(index)?;
        self.push(Route { slot, addr }, indices)
    }
}
