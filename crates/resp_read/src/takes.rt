ghost use Rattle.std.specs.Prelude.{◌≡◌, ◌≤◌, ◌<◌, ◌+◌, ◌-◌, length, take, drop, get_or, IfOk};
ghost use Rattle.resp_read.specs.Stages.{IsHeadOf, IsKindOf, IsBody, IsFormat};

use crate::forms::Refusal;
use crate::frames::Begun;
use crate::limits::Limits;
use crate::stages::{Head, Part};
use crate::tape::{Steps, Tape};
use crate::{forms, stages};
use containers::Bytes;
use std::alloc::{AllocError, Global};
use std::sync::ledger::Ledger;

/// What the line behind this first byte announces, in so many aggregates.
#[tactic(auto, using(crate::proofs::BodyLaws::plain_head_of, crate::proofs::BodyLaws::nested_head_of, crate::proofs::BodyLaws::innermost_head_of))]
pub fn head_of(limits: Limits, around: usize, first: u8) -> Option<Head>
    ensures { IsHeadOf limits (limits.depth - around) first result }
{
    if forms::is_plain(first) {
        return stages::plain_head(first);
    }
    if around >= limits.depth {
        return stages::innermost_head(first);
    }
    stages::nested_head(first)
}

/// The line of the kind of a push that has so many values behind it.
#[tactic(auto, using(crate::proofs::BodyLaws::kind_text_of, crate::proofs::BodyLaws::kind_length_of, crate::proofs::BodyLaws::no_kind_of))]
pub fn kind_of_push(more: u64, first: u8) -> Option<Head>
    ensures { IsKindOf more first result }
{
    match first {
        b'+' => Some(Head::Kind(more)),
        b'$' => Some(Head::KindLength(more)),
        _ => None,
    }
}

/// The byte behind so many others.
fn byte_behind<L: Ledger>(tape: &Tape, next: usize, n: usize, steps: &mut Steps<L>) -> u8
    requires { next + n < length tape.now }
    ensures byte { result ≡ get_or (drop next tape.now) n 0 }
    ensures steps { steps.new ≡ steps.old + 1 }
{
    let end = tape.len();
    let from_there = end - next - n;
    tape.at((end - from_there) as u64, steps)
}

/// A copy of so many bytes, in no more room.
pub fn copied<L: Ledger>(
    alloc: Global,
    n: usize,
    tape: &Tape,
    next: usize,
    steps: &mut Steps<L>,
) -> Result<Bytes, AllocError>
    requires { next + n ≤ length tape.now }
    ensures text { IfOk result (λ b. b ≡ take n (drop next tape.now)) }
    ensures steps { steps.new ≤ steps.old + n }
{
    let mut text = Vec::with_capacity(alloc, n)?;
    tape.copy(next as u64, n as u64, &mut text, steps)?;
    Ok(Bytes::from_vec(text))
}

/// So many bytes, and CR.
pub fn take_body<L: Ledger>(
    alloc: Global,
    part: Part,
    n: usize,
    tape: &Tape,
    next: usize,
    steps: &mut Steps<L>,
) -> Result<Begun, Refusal>
    requires { next + n < length tape.now }
    ensures body { IsBody part n (drop next tape.now) result }
    ensures steps { steps.new ≤ steps.old + n + 1 }
{
    if byte_behind(tape, next, n, steps) != b'\r' {
        return Err(Refusal::Bad);
    }
    let text = match copied(alloc, n, tape, next, steps) {
        Ok(text) => text,
        Err(_) => return Err(Refusal::NoMemory),
    };
    match stages::part_whole(alloc, part, text) {
        Ok(begun) => Ok(begun),
        Err(_) => Err(Refusal::NoMemory),
    }
}

/// Three bytes, and `:`. The text behind them has so many bytes.
pub fn take_format<L: Ledger>(
    alloc: Global,
    n: u64,
    tape: &Tape,
    next: usize,
    steps: &mut Steps<L>,
) -> Result<Bytes, Refusal>
    requires { next + 3 < length tape.now }
    ensures format { IsFormat n (drop next tape.now) result }
    ensures steps { steps.new ≤ steps.old + 4 }
{
    if byte_behind(tape, next, 3, steps) != b':' {
        return Err(Refusal::Bad);
    }
    match copied(alloc, 3, tape, next, steps) {
        Ok(format) => Ok(format),
        Err(_) => Err(Refusal::NoMemory),
    }
}
