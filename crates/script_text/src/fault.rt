ghost use Rattle.std.specs.Prelude.{◌≡◌, MatchResult, Some, None};
ghost use Rattle.script_text.specs.Faults.{at};
ghost use Rattle.script_text.specs.Numbers.{number, max_u32, max_u64};

use crate::number::{number_u32, number_u64};
use crate::reason::{EventReason, Reason};

/// Where a line is at fault, and why. Its parts stand between spaces, and are counted from 0; where it has no such
/// part, the fault stands behind the last.
#[derive(Clone, Copy)]
pub struct Fault {
    pub reason: Reason,
    pub part: usize,
}

/// The number of 32 bits that a part is, or its fault.
pub fn number_at(word: &[u8], part: usize) -> Result<u32, Fault>
    ensures { MatchResult result (λ n. number max_u32 word.now ≡ Some n)
        (λ fault. (number max_u32 word.now ≡ None)
        × (fault ≡ at (Reason.Event EventReason.Number) part)) }
{
    match number_u32(word) {
        Some(n) => Ok(n),
        None => Err(Fault {
            reason: Reason::Event(EventReason::Number),
            part,
        }),
    }
}

/// The number of 64 bits that a part is, or its fault.
pub fn large_number_at(word: &[u8], part: usize) -> Result<u64, Fault>
    ensures { MatchResult result (λ n. number max_u64 word.now ≡ Some n)
        (λ fault. (number max_u64 word.now ≡ None)
        × (fault ≡ at (Reason.Event EventReason.LargeNumber) part)) }
{
    match number_u64(word) {
        Some(n) => Ok(n),
        None => Err(Fault {
            reason: Reason::Event(EventReason::LargeNumber),
            part,
        }),
    }
}
