ghost use Rattle.std.specs.Prelude.{◌≡◌, ◌≤◌, ◌<◌, ◌+◌, ◌-◌, List, ℕ, [], length, drop, false, MatchOption};
ghost use Rattle.resp_read.specs.Limits.{AreAllowed};
ghost use Rattle.resp_read.specs.Places.{is_too_few, is_line, IsTaken, IsPlace, PassesLine, LineCosts, Goes, Advances, StaysPlace, IsAtFirst, Costs};
ghost use Rattle.resp_read.specs.Stages.{stage_as, IsFollow, IsWant};
ghost use Rattle.resp_read.specs.declared.stages.Stage.TheVariants as staged;

use crate::forms::Refusal;
use crate::frames::Begun;
use crate::limits::Limits;
use crate::stages::{Follow, Head, Part, Stage, Want};
use crate::tape::{Steps, Tape};
use crate::waiting::{Front, Looked};
use crate::{scan, stages, takes, waiting, whole};
use std::alloc::Global;
use std::sync::ledger::Ledger;

/// What was taken of a line that has not ended.
#[derive(Drop)]
pub struct Taken {
    pub text: Vec<u8>,
    /// What was read of it.
    pub front: Front,
}

/// Where a reader is in its tape.
pub struct Place {
    /// Where what it reads next begins.
    pub next: usize,
    pub stage: Stage,
    /// What it took of the line there.
    pub line: Taken,
}

impl Drop for Place {
    fn drop(self) {
        let Place {
            next: _,
            stage,
            line,
        } = self;
        drop(stage);
        drop(line);
    }
}

impl Stage {
    /// The line that is read.
    fn line(&self) -> Option<Head>
        ensures { MatchOption result
            (is_line self.now ≡ false)
            (λ h. self.now ≡ staged.Line h) }
    {
        match self {
            Stage::Line(head) => Some(*head),
            _ => None,
        }
    }

    /// Whether so many bytes are too few for the next step, where that is no line.
    fn has_too_few(&self, n: usize) -> bool
        ensures { result ≡ is_too_few n self.now }
    {
        match self {
            Stage::First => n == 0,
            Stage::Line(_) => false,
            Stage::End(_) => n == 0,
            Stage::Want(Want::Body(_, size)) => n as u64 <= *size,
            Stage::Want(Want::Format(_)) => n <= 3,
            Stage::Want(Want::Kind(_)) => n == 0,
        }
    }
}

/// Looks on along the line behind `next`: what follows it, once its CR has come.
fn pass_line<L: Ledger>(
    alloc: Global,
    limits: Limits,
    head: Head,
    tape: &Tape,
    next: usize,
    line: &mut Taken,
    steps: &mut Steps<L>,
) -> Result<Follow, Refusal>
    requires allowed { AreAllowed limits }
    requires fits { next + length line.old.text.items ≤ length tape.now }
    requires taken { IsTaken line.old (drop next tape.now) }
    ensures passes { PassesLine limits head (drop next tape.now) result line.new }
    ensures costs { LineCosts (drop next tape.now) line.old steps.old result line.new steps.new }
{
    let count = line.text.as_slice().len();
    match scan::take_line(limits, tape, next, &mut line.text, steps) {
        Ok(true) => match stages::after_line(alloc, limits, head, line.text.as_slice()) {
            Ok(Some(follow)) => Ok(follow),
            Ok(None) => Err(Refusal::Bad),
            Err(_) => Err(Refusal::NoMemory),
        },
        Ok(false) => {
            let front = line.front;
            let looked = Looked { count, front };
            match waiting::front_of_head(limits, head, looked, line.text.as_slice()) {
                Some(front) => {
                    line.front = front;
                    Err(Refusal::Short)
                }
                None => Err(Refusal::Bad),
            }
        }
        Err(refusal) => Err(refusal),
    }
}

impl Taken {
    /// Nothing, of any line.
    pub fn new(alloc: Global) -> Taken
        ensures { (rest : List ℕ) → IsTaken result rest × (result.text.items ≡ []) }
    {
        Taken {
            text: Vec::new(alloc),
            front: Front::Text,
        }
    }

    /// Lets go what was taken, and keeps its room.
    pub fn clear(&mut self)
        ensures { (rest : List ℕ) → IsTaken self.new rest × (self.new.text.items ≡ []) }
    {
        self.text.clear();
        self.front = Front::Text;
    }
}

impl Place {
    /// Whether too few bytes are there for the next step, where that is no line.
    pub fn has_too_few(&self, tape: &Tape) -> bool
        requires { IsPlace tape.now self.now }
        ensures { result ≡ is_too_few (length tape.now - self.now.next) self.now.stage }
    {
        self.stage.has_too_few(tape.len() - self.next)
    }

    /// Comes to another stage.
    pub fn enter(&mut self, stage: Stage)
        ensures { self.new ≡ record self.old { stage = stage } }
    {
        drop(std::mem::replace(&mut self.stage, stage));
    }

    /// The stage, which is then the first one.
    fn take_stage(&mut self) -> Stage
        ensures stage { result ≡ self.old.stage }
        ensures first { self.new ≡ record self.old { stage = staged.First } }
    {
        std::mem::replace(&mut self.stage, Stage::First)
    }
}

/// The first byte of a value, and what stands behind it as far as it is there.
fn pass_first<L: Ledger>(
    alloc: Global,
    limits: Limits,
    around: usize,
    tape: &Tape,
    place: &mut Place,
    steps: &mut Steps<L>,
) -> Result<Option<Begun>, Refusal>
    requires allowed { AreAllowed limits }
    requires place { IsPlace tape.now place.old }
    requires first { place.old.stage ≡ staged.First }
    requires empty { place.old.line.text.items ≡ [] }
    requires some { place.old.next < length tape.now }
    ensures goes { Goes limits (limits.depth - around) tape.now
        (stage_as limits (limits.depth - around) staged.First) place.old.next result place.new }
    ensures place { StaysPlace tape.now result place.new }
    ensures first { IsAtFirst result place.new }
    ensures costs { Costs tape.now place.old steps.old result place.new steps.new }
{
    let end = tape.len();
    let first = tape.at(place.next as u64, steps);
    match takes::head_of(limits, around, first) {
        Some(head) => {
            place.next = end - (end - place.next - 1);
            whole::pass_head(alloc, limits, around, head, tape, place, steps)
        }
        None => Err(Refusal::Bad),
    }
}

/// LF, and what follows it.
fn pass_end<L: Ledger>(
    limits: Limits,
    around: usize,
    follow: Follow,
    tape: &Tape,
    place: &mut Place,
    steps: &mut Steps<L>,
) -> Result<Option<Begun>, Refusal>
    requires follow { IsFollow follow }
    requires place { IsPlace tape.now place.old }
    requires empty { place.old.line.text.items ≡ [] }
    requires first { place.old.stage ≡ staged.First }
    requires some { place.old.next < length tape.now }
    ensures goes { Goes limits (limits.depth - around) tape.now
        (stage_as limits (limits.depth - around) (staged.End follow)) place.old.next result place.new }
    ensures place { StaysPlace tape.now result place.new }
    ensures first { IsAtFirst result place.new }
    ensures costs { Costs tape.now place.old steps.old result place.new steps.new }
{
    let end = tape.len();
    if tape.at(place.next as u64, steps) != b'\n' {
        drop(follow);
        return Err(Refusal::Bad);
    }
    place.next = end - (end - place.next - 1);
    match follow {
        Follow::Begun(begun) => Ok(Some(begun)),
        Follow::Want(want) => {
            place.enter(Stage::Want(want));
            Ok(None)
        }
    }
}

/// What is wanted that is no line.
fn pass_want<L: Ledger>(
    alloc: Global,
    limits: Limits,
    around: usize,
    want: Want,
    tape: &Tape,
    place: &mut Place,
    steps: &mut Steps<L>,
) -> Result<Option<Begun>, Refusal>
    requires want { IsWant want }
    requires place { IsPlace tape.now place.old }
    requires empty { place.old.line.text.items ≡ [] }
    requires enough { is_too_few (length tape.now - place.old.next) (staged.Want want) ≡ false }
    ensures goes { Goes limits (limits.depth - around) tape.now
        (stage_as limits (limits.depth - around) (staged.Want want)) place.old.next result place.new }
    ensures place { StaysPlace tape.now result place.new }
    ensures first { IsAtFirst result place.new }
    ensures costs { Costs tape.now place.old steps.old result place.new steps.new }
{
    let end = tape.len();
    let next = place.next;
    let there = end - next;
    match want {
        Want::Body(part, size) => {
            let n = size as usize;
            match takes::take_body(alloc, part, n, tape, next, steps) {
                Ok(begun) => {
                    place.next = end - (there - n - 1);
                    place.enter(Stage::End(Follow::Begun(begun)));
                    Ok(None)
                }
                Err(refusal) => Err(refusal),
            }
        }
        Want::Format(size) => match takes::take_format(alloc, size, tape, next, steps) {
            Ok(format) => {
                place.next = end - (there - 4);
                place.enter(Stage::Want(Want::Body(Part::Verbatim(format), size)));
                Ok(None)
            }
            Err(refusal) => Err(refusal),
        },
        Want::Kind(more) => {
            let first = tape.at(next as u64, steps);
            match takes::kind_of_push(more, first) {
                Some(head) => {
                    place.next = end - (there - 1);
                    place.enter(Stage::Line(head));
                    Ok(None)
                }
                None => Err(Refusal::Bad),
            }
        }
    }
}

/// A line, and what follows it.
fn on_line<L: Ledger>(
    alloc: Global,
    limits: Limits,
    around: usize,
    head: Head,
    tape: &Tape,
    place: &mut Place,
    steps: &mut Steps<L>,
) -> Result<Option<Begun>, Refusal>
    requires allowed { AreAllowed limits }
    requires place { IsPlace tape.now place.old }
    requires line { place.old.stage ≡ staged.Line head }
    ensures advances { Advances limits (limits.depth - around) tape.now place.old result place.new }
    ensures place { StaysPlace tape.now result place.new }
    ensures first { IsAtFirst result place.new }
    ensures costs { Costs tape.now place.old steps.old result place.new steps.new }
{
    let end = tape.len();
    match pass_line(
        alloc,
        limits,
        head,
        tape,
        place.next,
        &mut place.line,
        steps,
    ) {
        Ok(follow) => {
            let taken = place.line.text.as_slice().len();
            place.next = end - (end - place.next - taken - 1);
            place.line.clear();
            place.enter(Stage::End(follow));
            Ok(None)
        }
        Err(refusal) => Err(refusal),
    }
}

/// Takes a step onwards from a place, in so many aggregates. `Short`: what it looked at is noted there.
pub fn advance<L: Ledger>(
    alloc: Global,
    limits: Limits,
    around: usize,
    tape: &Tape,
    place: &mut Place,
    steps: &mut Steps<L>,
) -> Result<Option<Begun>, Refusal>
    requires allowed { AreAllowed limits }
    requires place { IsPlace tape.now place.old }
    ensures advances { Advances limits (limits.depth - around) tape.now place.old result place.new }
    ensures place { StaysPlace tape.now result place.new }
    ensures first { IsAtFirst result place.new }
    ensures costs { Costs tape.now place.old steps.old result place.new steps.new }
{
    if let Some(head) = place.stage.line() {
        return on_line(alloc, limits, around, head, tape, place, steps);
    }
    if place.stage.has_too_few(tape.len() - place.next) {
        return Err(Refusal::Short);
    }
    if let Stage::First = &place.stage {
        return pass_first(alloc, limits, around, tape, place, steps);
    }
    match place.take_stage() {
        Stage::First | Stage::Line(_) => Err(Refusal::Bad),
        Stage::End(follow) => pass_end(limits, around, follow, tape, place, steps),
        Stage::Want(want) => pass_want(alloc, limits, around, want, tape, place, steps),
    }
}
