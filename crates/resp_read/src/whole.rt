ghost use Rattle.std.specs.Prelude.{◌≡◌, ◌≤◌, ◌<◌, ◌+◌, ◌-◌, ◌*◌, List, ℕ, [], length, take, drop, get_or, OnOk, IfOk};
ghost use Rattle.resp_value.specs.Data.{int};
ghost use Rattle.resp_value.specs.View.{data_of};
ghost use Rattle.resp_read.specs.Limits.{bounds, AreAllowed};
ghost use Rattle.resp_read.specs.Grammar.{max_bulk, simple_of};
ghost use Rattle.resp_read.specs.Digits.{greatest, digits_run, AreKept};
ghost use Rattle.resp_read.specs.Waiting.{IsClear};
ghost use Rattle.resp_read.specs.Stages.{stage_as};
ghost use Rattle.resp_read.specs.Places.{seen, IsTaken, IsPlace, StaysPlace, IsAtFirst, Costs};
ghost use Rattle.resp_read.specs.Whole.{IsEnd, EndCosts, IsKept, IsSize, Reaches};
ghost use Rattle.resp_read.specs.declared.digits.Digits.TheVariants.{Empty};
ghost use Rattle.resp_read.specs.declared.forms.OneLine.TheVariants as form;
ghost use Rattle.resp_read.specs.declared.stages.Head.TheVariants as named;
ghost use Rattle.resp_read.specs.declared.stages.Part.TheVariants as part;
ghost use Rattle.resp_read.specs.declared.stages.Want.TheVariants as wanted;
ghost use Rattle.resp_read.specs.declared.stages.Stage.TheVariants as staged;

use crate::digits::Digits;
use crate::forms::{OneLine, Refusal};
use crate::frames::{Begun, Sequence};
use crate::limits::Limits;
use crate::place::{Place, Taken};
use crate::stages::{Head, Part, Stage, Want};
use crate::tape::{Steps, Tape};
use crate::waiting::Front;
use crate::{forms, frames, takes};
use resp_value::{Value, Values};
use std::alloc::{AllocError, Global};
use std::sync::ledger::Ledger;

/// The bytes of a line before its CR, or all that are there, read as a number.
#[derive(Clone, Copy)]
struct Numeral {
    count: usize,
    digits: Digits,
}

/// Reads a number up to CR.
fn read_numeral<L: Ledger>(tape: &Tape, from: usize, steps: &mut Steps<L>) -> Numeral
    requires { from ≤ length tape.now }
    ensures fits { from + result.count ≤ length tape.now }
    ensures clear { IsClear result.count (drop from tape.now) }
    ensures ends { from + result.count < length tape.now → get_or tape.now (from + result.count) 0 ≡ 13 }
    ensures digits { result.digits ≡ digits_run Empty (take result.count (drop from tape.now)) }
    ensures kept { AreKept result.digits }
    ensures steps { steps.new ≤ steps.old + result.count + 1 }
    ensures cut { from + result.count ≡ length tape.now → steps.new ≡ steps.old + result.count }
{
    let len = tape.len() - from;
    let mut digits = Digits::Empty;
    let mut count = 0;
    while count < len {
        let b = tape.at((from + count) as u64, steps);
        if b == b'\r' {
            return Numeral { count, digits };
        }
        digits = digits.then(b);
        count += 1;
    }
    Numeral { count, digits }
}

/// Where the next thing begins behind a line of so many bytes, behind which CR stands, if LF follows and the line is within the
/// limit. None: LF has not come, or the line is too long.
fn line_end<L: Ledger>(
    limits: Limits,
    tape: &Tape,
    next: usize,
    count: usize,
    steps: &mut Steps<L>,
) -> Result<Option<usize>, Refusal>
    requires fits { next + count ≤ length tape.now }
    requires clear { IsClear count (drop next tape.now) }
    requires ends { next + count < length tape.now → get_or tape.now (next + count) 0 ≡ 13 }
    ensures end { IsEnd limits tape.now next count result }
    ensures costs { EndCosts steps.old result steps.new }
{
    let end = tape.len();
    let left = end - next - count;
    if left < 2 || count > limits.line {
        return Ok(None);
    }
    if tape.at((next + count + 1) as u64, steps) != b'\n' {
        return Err(Refusal::Bad);
    }
    Ok(Some(end - (left - 2)))
}

/// Takes what was looked at of a line of that head, and comes to it.
#[cold]
#[inline(never)]
fn keep<L: Ledger>(
    head: Head,
    count: usize,
    tape: &Tape,
    place: &mut Place,
    steps: &mut Steps<L>,
) -> Result<(), AllocError>
    requires place { IsPlace tape.now place.old }
    requires empty { place.old.line.text.items ≡ [] }
    requires fits { place.old.next + count ≤ length tape.now }
    requires clear { IsClear count (drop place.old.next tape.now) }
    ensures kept { OnOk result (IsKept tape.now head place.old place.new) }
    ensures costs { OnOk result (steps.new + count + 2 * seen place.old ≤ steps.old + 2 * seen place.new) }
    ensures steps { steps.new ≡ steps.old + count }
{
    match tape.copy(place.next as u64, count as u64, &mut place.line.text, steps) {
        Ok(()) => {
            place.line.front = Front::Text;
            place.enter(Stage::Line(head));
            Ok(())
        }
        Err(error) => Err(error),
    }
}

/// Reads a number of at most `most` that stands in a line of that head. Where the line isn't whole or has no such number, it
/// is kept.
#[inline(always)]
fn read_size<L: Ledger>(
    limits: Limits,
    most: u64,
    head: Head,
    tape: &Tape,
    place: &mut Place,
    steps: &mut Steps<L>,
) -> Result<Option<u64>, Refusal>
    requires most { most ≤ greatest }
    requires place { IsPlace tape.now place.old }
    requires first { place.old.stage ≡ staged.First }
    requires empty { place.old.line.text.items ≡ [] }
    ensures size { IsSize limits most head tape.now place.old result place.new }
    ensures costs { Costs tape.now place.old (steps.old + 1) result place.new steps.new }
{
    let next = place.next;
    let read = read_numeral(tape, next, steps);
    if let Some(n) = read.digits.natural(most) {
        match line_end(limits, tape, next, read.count, steps) {
            Ok(Some(behind)) => {
                place.next = behind;
                return Ok(Some(n));
            }
            Ok(None) => {}
            Err(refusal) => return Err(refusal),
        }
    }
    match keep(head, read.count, tape, place, steps) {
        Ok(()) => Ok(None),
        Err(_) => Err(Refusal::NoMemory),
    }
}

fn int_of(n: i64) -> Value
    ensures { data_of result ≡ int n }
{
    Value::Int(n)
}

/// A number of 64 bits.
#[tactic(auto, using(crate::proofs::WholeLaws::kept_reaches, crate::proofs::WholeLaws::no_line_stops))]
fn pass_number<L: Ledger>(
    limits: Limits,
    around: usize,
    tape: &Tape,
    place: &mut Place,
    steps: &mut Steps<L>,
) -> Result<Option<Begun>, Refusal>
    requires place { IsPlace tape.now place.old }
    requires first { place.old.stage ≡ staged.First }
    requires empty { place.old.line.text.items ≡ [] }
    ensures reaches { Reaches limits (limits.depth - around) tape.now
        (stage_as limits (limits.depth - around) (staged.Line (named.Value form.Number))) place.old.next result place.new }
    ensures place { StaysPlace tape.now result place.new }
    ensures first { IsAtFirst result place.new }
    ensures costs { Costs tape.now place.old (steps.old + 1) result place.new steps.new }
{
    let next = place.next;
    let read = read_numeral(tape, next, steps);
    if let Some(n) = read.digits.number() {
        match line_end(limits, tape, next, read.count, steps) {
            Ok(Some(behind)) => {
                place.next = behind;
                return Ok(Some(Begun::Whole(int_of(n))));
            }
            Ok(None) => {}
            Err(refusal) => return Err(refusal),
        }
    }
    match keep(Head::Value(OneLine::Number), read.count, tape, place, steps) {
        Ok(()) => Ok(None),
        Err(_) => Err(Refusal::NoMemory),
    }
}

/// So many bytes of a bulk string.
fn pass_body<L: Ledger>(
    alloc: Global,
    limits: Limits,
    around: usize,
    size: u64,
    tape: &Tape,
    place: &mut Place,
    steps: &mut Steps<L>,
) -> Result<Option<Begun>, Refusal>
    requires size { size ≤ max_bulk }
    requires place { IsPlace tape.now place.old }
    requires first { place.old.stage ≡ staged.First }
    requires empty { place.old.line.text.items ≡ [] }
    ensures reaches { Reaches limits (limits.depth - around) tape.now
        (stage_as limits (limits.depth - around) (staged.Want (wanted.Body part.Bulk size))) place.old.next result place.new }
    ensures place { StaysPlace tape.now result place.new }
    ensures first { IsAtFirst result place.new }
    ensures costs { Costs tape.now place.old steps.old result place.new steps.new }
{
    let next = place.next;
    let end = tape.len();
    let there = end - next;
    if there < 2 || there as u64 - 2 < size {
        place.enter(Stage::Want(Want::Body(Part::Bulk, size)));
        return Ok(None);
    }
    let n = size as usize;
    if tape.at((next + n) as u64, steps) != b'\r' {
        return Err(Refusal::Bad);
    }
    if tape.at((next + n + 1) as u64, steps) != b'\n' {
        return Err(Refusal::Bad);
    }
    match takes::copied(alloc, n, tape, next, steps) {
        Ok(text) => {
            place.next = end - (there - n - 2);
            Ok(Some(Begun::Whole(Value::BulkString(text))))
        }
        Err(_) => Err(Refusal::NoMemory),
    }
}

/// A bulk string.
#[tactic(auto, using(crate::proofs::WholeLaws::kept_reaches, crate::proofs::WholeLaws::no_line_stops))]
fn pass_bulk<L: Ledger>(
    alloc: Global,
    limits: Limits,
    around: usize,
    tape: &Tape,
    place: &mut Place,
    steps: &mut Steps<L>,
) -> Result<Option<Begun>, Refusal>
    requires allowed { AreAllowed limits }
    requires place { IsPlace tape.now place.old }
    requires first { place.old.stage ≡ staged.First }
    requires empty { place.old.line.text.items ≡ [] }
    ensures reaches { Reaches limits (limits.depth - around) tape.now
        (stage_as limits (limits.depth - around) (staged.Line named.Bulk)) place.old.next result place.new }
    ensures place { StaysPlace tape.now result place.new }
    ensures first { IsAtFirst result place.new }
    ensures costs { Costs tape.now place.old (steps.old + 1) result place.new steps.new }
{
    match read_size(limits, limits.bulk as u64, Head::Bulk, tape, place, steps) {
        Ok(Some(n)) => pass_body(alloc, limits, around, n, tape, place, steps),
        Ok(None) => Ok(None),
        Err(refusal) => Err(refusal),
    }
}

/// The count of an array.
#[tactic(auto, using(crate::proofs::WholeLaws::kept_reaches, crate::proofs::WholeLaws::no_line_stops))]
fn pass_array<L: Ledger>(
    alloc: Global,
    limits: Limits,
    around: usize,
    tape: &Tape,
    place: &mut Place,
    steps: &mut Steps<L>,
) -> Result<Option<Begun>, Refusal>
    requires allowed { AreAllowed limits }
    requires place { IsPlace tape.now place.old }
    requires first { place.old.stage ≡ staged.First }
    requires empty { place.old.line.text.items ≡ [] }
    ensures reaches { Reaches limits (limits.depth - around) tape.now
        (stage_as limits (limits.depth - around) (staged.Line named.Array)) place.old.next result place.new }
    ensures place { StaysPlace tape.now result place.new }
    ensures first { IsAtFirst result place.new }
    ensures costs { Costs tape.now place.old (steps.old + 1) result place.new steps.new }
{
    match read_size(limits, limits.count as u64, Head::Array, tape, place, steps) {
        Ok(Some(n)) => Ok(Some(frames::sequence_of(Sequence::Array, Values::new(alloc), n))),
        Ok(None) => Ok(None),
        Err(refusal) => Err(refusal),
    }
}

/// How many bytes stand before the first CR, or are there.
fn read_text<L: Ledger>(tape: &Tape, from: usize, steps: &mut Steps<L>) -> usize
    requires { from ≤ length tape.now }
    ensures fits { from + result ≤ length tape.now }
    ensures clear { IsClear result (drop from tape.now) }
    ensures ends { from + result < length tape.now → get_or tape.now (from + result) 0 ≡ 13 }
    ensures steps { steps.new ≤ steps.old + result + 1 }
    ensures cut { from + result ≡ length tape.now → steps.new ≡ steps.old + result }
{
    let len = tape.len() - from;
    let mut count = 0;
    while count < len {
        if tape.at((from + count) as u64, steps) == b'\r' {
            return count;
        }
        count += 1;
    }
    count
}

/// The simple string of so many bytes. `line` holds nothing, before and after.
fn take_simple<L: Ledger>(
    alloc: Global,
    next: usize,
    count: usize,
    tape: &Tape,
    line: &mut Taken,
    steps: &mut Steps<L>,
) -> Result<Value, AllocError>
    requires fits { next + count ≤ length tape.now }
    requires empty { line.old.text.items ≡ [] }
    ensures value { IfOk result (λ v. data_of v ≡ simple_of (take count (drop next tape.now))) }
    ensures line { OnOk result ((rest : List ℕ) → IsTaken line.new rest × (line.new.text.items ≡ [])) }
    ensures steps { steps.new ≡ steps.old + count }
{
    match tape.copy(next as u64, count as u64, &mut line.text, steps) {
        Ok(()) => {}
        Err(error) => return Err(error),
    }
    match forms::simple(alloc, line.text.as_slice()) {
        Ok(value) => {
            line.clear();
            Ok(value)
        }
        Err(error) => Err(error),
    }
}

/// A simple string.
#[tactic(auto, using(crate::proofs::WholeLaws::kept_reaches))]
fn pass_simple<L: Ledger>(
    alloc: Global,
    limits: Limits,
    around: usize,
    tape: &Tape,
    place: &mut Place,
    steps: &mut Steps<L>,
) -> Result<Option<Begun>, Refusal>
    requires place { IsPlace tape.now place.old }
    requires first { place.old.stage ≡ staged.First }
    requires empty { place.old.line.text.items ≡ [] }
    ensures reaches { Reaches limits (limits.depth - around) tape.now
        (stage_as limits (limits.depth - around) (staged.Line (named.Value form.Simple))) place.old.next result place.new }
    ensures place { StaysPlace tape.now result place.new }
    ensures first { IsAtFirst result place.new }
    ensures costs { Costs tape.now place.old (steps.old + 1) result place.new steps.new }
{
    let next = place.next;
    let found = read_text(tape, next, steps);
    match line_end(limits, tape, next, found, steps) {
        Ok(Some(behind)) => match take_simple(alloc, next, found, tape, &mut place.line, steps) {
            Ok(value) => {
                place.next = behind;
                Ok(Some(Begun::Whole(value)))
            }
            Err(_) => Err(Refusal::NoMemory),
        },
        Ok(None) => match keep(Head::Value(OneLine::Simple), found, tape, place, steps) {
            Ok(()) => Ok(None),
            Err(_) => Err(Refusal::NoMemory),
        },
        Err(refusal) => Err(refusal),
    }
}

/// What stands behind the first byte of this head, as far as it is there.
pub fn pass_head<L: Ledger>(
    alloc: Global,
    limits: Limits,
    around: usize,
    head: Head,
    tape: &Tape,
    place: &mut Place,
    steps: &mut Steps<L>,
) -> Result<Option<Begun>, Refusal>
    requires allowed { AreAllowed limits }
    requires place { IsPlace tape.now place.old }
    requires first { place.old.stage ≡ staged.First }
    requires empty { place.old.line.text.items ≡ [] }
    ensures reaches { Reaches limits (limits.depth - around) tape.now
        (stage_as limits (limits.depth - around) (staged.Line head)) place.old.next result place.new }
    ensures place { StaysPlace tape.now result place.new }
    ensures first { IsAtFirst result place.new }
    ensures costs { Costs tape.now place.old (steps.old + 1) result place.new steps.new }
{
    match head {
        Head::Value(OneLine::Number) => pass_number(limits, around, tape, place, steps),
        Head::Value(OneLine::Simple) => pass_simple(alloc, limits, around, tape, place, steps),
        Head::Bulk => pass_bulk(alloc, limits, around, tape, place, steps),
        Head::Array => pass_array(alloc, limits, around, tape, place, steps),
        _ => {
            place.enter(Stage::Line(head));
            Ok(None)
        }
    }
}
