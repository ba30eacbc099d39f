ghost use Rattle.std.specs.Prelude.{◌≡◌, OnOk};
ghost use Rattle.mux_routing.specs.Ranges.{goes_on, with_range};

use crate::range_table::SlotRange;
use std::alloc::AllocError;

/// Whether a range goes on in the next one.
fn goes_on(range: SlotRange, next: SlotRange) -> bool
    ensures { result ≡ goes_on range next }
{
    u32::from(range.end) + 1 == u32::from(next.start) && range.row == next.row
}

/// Puts a range behind others; where the last of these goes on in it, that one grows.
pub fn push_range(ranges: &mut Vec<SlotRange>, next: SlotRange) -> Result<(), AllocError>
    ensures { OnOk result (ranges.new.items ≡ with_range ranges.old.items next) }
{
    let Some(last) = ranges.pop() else {
        ranges.push(next)?;
        return Ok(());
    };
    if goes_on(last, next) {
        ranges.push(SlotRange {
            start: last.start,
            end: next.end,
            row: last.row,
        })?;
        return Ok(());
    }
    ranges.push(last)?;
    ranges.push(next)?;
    Ok(())
}
