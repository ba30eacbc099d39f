ghost use Rattle.std.specs.Prelude.{◌≡◌, ◌+◌, ◌*◌, ◌-◌, ◌^◌, ◌<◌, ◌≤◌, true, length, slice_get, Some};
ghost use Rattle.mux_routing.specs.Ranges.{are_apart, row_in};

use crate::steps::Steps;
use std::marker::Model;
use std::sync::ledger::Ledger;

/// Slots from a first to a last one, and the number of the last row that holds them.
#[derive(Clone, Copy, Debug, PartialEq, Eq)]
pub struct SlotRange {
    pub start: u16,
    pub end: u16,
    pub row: u32,
}

/// Ranges of slots, in order and apart. Contracts see the list of them.
#[derive(Drop)]
pub struct RangeTable {
    ranges: Vec<SlotRange>,
}

impl Model for RangeTable {
    ghost use Rattle.std.specs.Prelude.{◌≡◌, true, List};
    ghost use Rattle.mux_routing.specs.Ranges.{are_apart};
    ghost use Rattle.mux_routing.specs.declared.range_table.SlotRange.{SlotRange};

    ghost Value = { List SlotRange };

    ghost view = { λ t. t.ranges.items };

    ghost invariant = { λ t. are_apart t.ranges.items ≡ true };
}

impl RangeTable {
    /// The table of these ranges.
    pub(crate) fn new(ranges: Vec<SlotRange>) -> RangeTable
        requires { are_apart ranges.items ≡ true }
        ensures { result ≡ ranges.items }
    {
        RangeTable { ranges }
    }

    /// How many ranges there are.
    #[tactic(auto, using(crate::proofs::Searching::few))]
    pub fn len(&self) -> u32
        ensures { result ≡ length self.now }
    {
        self.ranges.len() as u32
    }

    /// The range of a number: one step.
    pub fn probe<L: Ledger>(&self, i: u32, steps: &mut Steps<L>) -> SlotRange
        requires { i < length self.now }
        ensures range { slice_get self.now i ≡ Some result }
        ensures steps { steps.new ≡ steps.old + 1 }
    {
        steps.tick();
        self.ranges[i as usize]
    }

    /// The row of the range in which a slot lies, if there is one.
    #[tactic(auto, using(crate::proofs::Searching::few))]
    pub fn find<L: Ledger>(&self, slot: u16, steps: &mut Steps<L>) -> Option<u32>
        ensures row { result ≡ row_in self.now slot }
        ensures grows { steps.old ≤ steps.new }
        ensures steps { 2 ^ (steps.new - steps.old) ≤ 2 * length self.now + 1 }
    {
        let mut low = 0;
        let mut high = self.ranges.len() as u32;
        while low < high {
            let middle = low + (high - low) / 2;
            let range = self.probe(middle, steps);
            if slot < range.start {
                high = middle;
            } else if range.end < slot {
                low = middle + 1;
            } else {
                return Some(range.row);
            }
        }
        None
    }
}
