ghost use Rattle.std.specs.Prelude.{◌≡◌, ◌≤◌, MatchOption, IfSome, Some, None, is_some, length, drop, true, false};
ghost use Rattle.script_text.specs.Draws.{is_draw, drawn};

use crate::fault::Fault;
use crate::number::number_u64;
use crate::reason::{LineReason, Reason};
use crate::word::Word;

/// What stands behind the `@` of a word, if it begins so.
pub fn behind_at(word: &[u8]) -> Option<&[u8]>
    ensures { MatchOption result (is_draw word.now ≡ false)
        (λ digits. (is_draw word.now ≡ true) × (digits.now ≡ drop 1 word.now)) }
{
    match word {
        [b'@', digits @ ..] => Some(digits),
        _ => None,
    }
}

/// The word of the draws that words begin with, which is 0 where no `@` says it, and how many of the words say it.
pub fn drawn(words: &[Word<'_>]) -> Option<(u64, usize)>
    ensures read { MatchOption result (drawn words.now ≡ None)
        (λ d. drawn words.now ≡ Some (d.0, drop d.1 words.now)) }
    ensures fits { IfSome result (λ d. d.1 ≤ length words.now) }
{
    let [first, ..] = words else {
        return Some((0, 0));
    };
    let Some(digits) = behind_at(first.as_slice()) else {
        return Some((0, 0));
    };
    let word = number_u64(digits)?;
    Some((word, 1))
}

/// No number stands behind `@`.
pub fn draw_fault() -> Option<Fault>
    ensures { is_some result ≡ true }
{
    Some(Fault {
        reason: Reason::Line(LineReason::Draw),
        part: 0,
    })
}

/// The fault of the words behind so many others, as one of the line.
pub fn fault_behind(fault: Option<Fault>, before: usize) -> Option<Fault>
    ensures { is_some result ≡ is_some fault }
{
    match fault {
        Some(fault) => Some(Fault {
            reason: fault.reason,
            part: fault.part.saturating_add(before),
        }),
        None => None,
    }
}
