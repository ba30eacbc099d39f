ghost use Rattle.std.specs.Prelude.{◌≡◌, ◌<◌, ◌≤◌, ◌+◌, ℕ, min, true, IfOk, OnOk};
ghost use Rattle.mux_routing.specs.Ranges.{are_apart, are_maximal, reach, row_in, with_stretch};
ghost use Rattle.mux_routing.specs.Shards.{or_else};

use crate::push_range::push_range;
use crate::range_table::SlotRange;
use std::alloc::{AllocError, Global};

/// How many slots there are.
const SLOT_COUNT: u16 = 16_384;

/// The slots from one on of which ranges say the same: the last of these slots, and their row.
#[derive(Clone, Copy)]
struct Stretch {
    end: u16,
    row: Option<u32>,
}

/// What ranges say from a slot on, where none of them ends before it.
fn stretch_at(ranges: &[SlotRange], at: u16) -> Stretch
    requires apart { are_apart ranges.now ≡ true }
    requires reach { reach at ranges.now ≡ true }
    requires slot { at < 16_384 }
    ensures order { at ≤ result.end }
    ensures slot { result.end < 16_384 }
    ensures reach { reach result.end ranges.now ≡ true }
    ensures same { (slot : ℕ) → at ≤ slot → slot ≤ result.end → row_in ranges.now slot ≡ result.row }
{
    let Some(first) = ranges.first() else {
        return Stretch {
            end: SLOT_COUNT - 1,
            row: None,
        };
    };
    if first.start <= at {
        return Stretch {
            end: first.end,
            row: Some(first.row),
        };
    }
    Stretch {
        end: first.start - 1,
        row: None,
    }
}

/// The later of two that say something, up to where neither says something else.
fn over(later: Stretch, earlier: Stretch) -> Stretch
    ensures end { result.end ≡ min later.end earlier.end }
    ensures row { result.row ≡ or_else later.row earlier.row }
{
    Stretch {
        end: later.end.min(earlier.end),
        row: later.row.or(earlier.row),
    }
}

/// Puts the slots from one to the end of a stretch behind ranges, if a row has them.
fn push_stretch(ranges: &mut Vec<SlotRange>, start: u16, stretch: Stretch) -> Result<(), AllocError>
    ensures { OnOk result (ranges.new.items ≡ with_stretch ranges.old.items start stretch.end stretch.row) }
{
    let Some(row) = stretch.row else {
        return Ok(());
    };
    push_range(
        ranges,
        SlotRange {
            start,
            end: stretch.end,
            row,
        },
    )
}

/// Of ranges, none of which ends before a slot, those that reach behind it.
fn behind(ranges: &[SlotRange], slot: u16) -> &[SlotRange]
    requires apart { are_apart ranges.now ≡ true }
    requires reach { reach slot ranges.now ≡ true }
    ensures apart { are_apart result.now ≡ true }
    ensures reach { reach (slot + 1) result.now ≡ true }
    ensures same { (later : ℕ) → slot < later → row_in result.now later ≡ row_in ranges.now later }
{
    let Some(first) = ranges.first() else {
        return ranges;
    };
    if first.end == slot {
        return &ranges[1..];
    }
    ranges
}

/// Ranges over others, which they cut. With n ranges it takes some 2 n steps.
pub fn overlay(
    alloc: Global,
    mut earlier: &[SlotRange],
    mut later: &[SlotRange],
) -> Result<Vec<SlotRange>, AllocError>
    requires earlier { are_apart earlier.now ≡ true }
    requires later { are_apart later.now ≡ true }
    ensures apart { IfOk result (λ ranges. are_apart ranges.items ≡ true) }
    ensures maximal { IfOk result (λ ranges. are_maximal ranges.items ≡ true) }
    ensures each { IfOk result (λ ranges. (slot : ℕ) → row_in ranges.items slot
        ≡ or_else (row_in later.now slot) (row_in earlier.now slot)) }
{
    let mut ranges = Vec::new(alloc);
    let mut at = 0;
    while at < SLOT_COUNT {
        let below = stretch_at(earlier, at);
        let above = stretch_at(later, at);
        let seen = over(above, below);
        push_stretch(&mut ranges, at, seen)?;
        earlier = behind(earlier, seen.end);
        later = behind(later, seen.end);
        at = seen.end + 1;
    }
    Ok(ranges)
}
