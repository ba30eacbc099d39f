ghost use Rattle.std.specs.Prelude.{◌≡◌, ◌≤◌, ◌+◌, length, take, drop, MatchOption};
ghost use Rattle.resp_read.specs.Parser.{line, unended};
ghost use Rattle.resp_read.specs.Waiting.{IsClear, IsReturn};
ghost use Rattle.resp_read.specs.Stages.{IsLook, LookCosts};

use crate::forms::Refusal;
use crate::limits::Limits;
use crate::tape::{Steps, Tape};
use std::sync::ledger::Ledger;

/// How many bytes stand before the first CR behind `from`, where none of the first `clear` is one.
pub fn find_return<L: Ledger>(
    tape: &Tape,
    from: usize,
    clear: usize,
    steps: &mut Steps<L>,
) -> Option<usize>
    requires fits { from + clear ≤ length tape.now }
    requires clear { IsClear clear (drop from tape.now) }
    ensures found { MatchOption result
        (IsClear (length (drop from tape.now)) (drop from tape.now))
        (λ i. (clear ≤ i) × IsReturn i (drop from tape.now)) }
    ensures steps { MatchOption result
        (steps.new + clear ≡ steps.old + length (drop from tape.now))
        (λ i. steps.new + clear ≡ steps.old + i + 1) }
{
    let len = tape.len() - from;
    let mut i = clear;
    while i < len {
        if tape.at((from + i) as u64, steps) == b'\r' {
            return Some(i);
        }
        i += 1;
    }
    None
}

/// Looks on along a line, of which `text` was taken: whether its CR has come. Takes what was looked at before it.
pub fn take_line<L: Ledger>(
    limits: Limits,
    tape: &Tape,
    from: usize,
    text: &mut Vec<u8>,
    steps: &mut Steps<L>,
) -> Result<bool, Refusal>
    requires fits { from + length text.old.items ≤ length tape.now }
    requires taken { text.old.items ≡ take (length text.old.items) (drop from tape.now) }
    requires clear { line text.old.items ≡ unended text.old.items }
    ensures look { IsLook limits (drop from tape.now) result text.new.items }
    ensures costs { LookCosts (drop from tape.now) text.old.items steps.old
        result text.new.items steps.new }
{
    let len = tape.len() - from;
    let clear = text.as_slice().len();
    match find_return(tape, from, clear, steps) {
        Some(i) => {
            if i > limits.line {
                return Err(Refusal::Bad);
            }
            match tape.copy((from + clear) as u64, (i - clear) as u64, text, steps) {
                Ok(()) => Ok(true),
                Err(_) => Err(Refusal::NoMemory),
            }
        }
        None => {
            if len > limits.line {
                return Err(Refusal::Bad);
            }
            match tape.copy((from + clear) as u64, (len - clear) as u64, text, steps) {
                Ok(()) => Ok(false),
                Err(_) => Err(Refusal::NoMemory),
            }
        }
    }
}
