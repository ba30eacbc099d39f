ghost use Rattle.std.specs.Prelude.{◌≡◌, ◌+◌, ◌<◌, ◌≤◌, true, length, IfOk, IfSome, IsSome};
ghost use Rattle.mux_routing.specs.Kept.{AreOwned};
ghost use Rattle.mux_routing.specs.Reply.{in_range};

use crate::overlay::overlay;
use crate::push_range::push_range;
use crate::range_table::SlotRange;
use crate::rows::SlotRow;
use std::alloc::{AllocError, Global};

/// The ranges of rows of which each begins behind the end of the one before; none of other rows. `base` is the number of the
/// first row.
fn ranges_in_turn(
    alloc: Global,
    rows: &[SlotRow],
    base: u32,
) -> Result<Option<Vec<SlotRange>>, AllocError>
    requires range { in_range rows.now ≡ true }
    requires numbers { base + length rows.now < 4_294_967_296 }
    ensures owned { IfOk result (λ found. IfSome found (λ ranges. AreOwned ranges.items base rows.now)) }
    ensures single { length rows.now ≤ 1 → IfOk result IsSome }
{
    let mut ranges = Vec::new(alloc);
    let mut next = 0;
    for (i, row) in rows.iter().enumerate() {
        if row.start < next {
            return Ok(None);
        }
        push_range(
            &mut ranges,
            SlotRange {
                start: row.start,
                end: row.end,
                row: base + i as u32,
            },
        )?;
        next = row.end + 1;
    }
    Ok(Some(ranges))
}

/// The ranges of rows: of each half, and then the later ones over the earlier ones. With n rows it takes n log n steps, and
/// n where the rows are in order and apart.
#[tactic(auto, using(crate::proofs::Owning::front_in_range, crate::proofs::Owning::back_in_range))]
pub fn ranges_of(alloc: Global, rows: &[SlotRow], base: u32) -> Result<Vec<SlotRange>, AllocError>
    requires range { in_range rows.now ≡ true }
    requires numbers { base + length rows.now < 4_294_967_296 }
    ensures { IfOk result (λ ranges. AreOwned ranges.items base rows.now) }
{
    if let Some(ranges) = ranges_in_turn(alloc, rows, base)? {
        return Ok(ranges);
    }
    let half = rows.len() / 2;
    let earlier = ranges_of(alloc, &rows[..half], base)?;
    let later = ranges_of(alloc, &rows[half..], base + half as u32)?;
    let ranges = overlay(alloc, earlier.as_slice(), later.as_slice())?;
    Ok(ranges)
}
