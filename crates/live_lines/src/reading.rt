ghost use Rattle.std.specs.Prelude.{◌≡◌, ◌≤◌, nat_lt, length, Some, Err, OnOk, IfOk, IfErr, IsErrOf};
ghost use Rattle.outside.specs.Ends.{Rose};
ghost use Rattle.caller_threads.specs.Submits.{IsAllowed};
ghost use Rattle.program_ends.specs.Sides.{side, IfTold};
ghost use Rattle.script_text.specs.Lines.{lines_of, texts};
ghost use Rattle.script_text.specs.Script.{max_text};
ghost use Rattle.session_callers.specs.Rule.{Each};
ghost use Rattle.live_lines.specs.Live.{AreLines, DecidesLines, HasNoLines, IsLive, IsPlan, IsRefused};

use crate::flying::{Flight, FlightError, fly};
use crate::planning::plan_of;
use containers::Bytes;
use driver_model::{SessionKind, Submission};
use outside::{Fed, Feed, FeedError, Source, World, feed_all};
use redis_error::ConfigName;
use script_text::{ScriptError, read_lines};
use std::alloc::{AllocError, Global};
use std::sync::Wait;
use std::thread::Threads;
use text_laws::a_slice_has_bytes;

/// The most bytes that lines may have. Of a source that has more, a line is at fault, whatever comes behind.
const MOST: usize = 67_108_864;

/// Why no live run came to its end.
#[derive(Clone, Copy, PartialEq, Eq)]
pub enum Refusal {
    /// The words are no plan.
    Usage,
    /// This line is the first at fault. Lines are counted from 1.
    Line(u32),
    /// The configuration is refused for what it says of this name.
    Config(ConfigName),
    NoMemory,
    /// The source failed.
    ReadFault,
}

/// The bytes of lines, until there are more than they may have.
#[derive(Drop)]
struct Kept {
    bytes: Bytes,
}

impl Feed for Kept {
    ghost kept = { λ k. k.bytes };

    ghost enough = { λ k. nat_lt max_text (length k.bytes) };

    ghost most = { λ _. max_text };

    fn push(&mut self, piece: &[u8]) -> Result<bool, AllocError> {
        self.bytes.extend_from_slice(piece)?;
        Ok(self.bytes.len() <= MOST)
    }
}

/// The bytes of a source, as far as they decide its lines.
fn read_text<S: Source>(alloc: Global, source: &mut S) -> Result<Bytes, FeedError>
    ensures text { IfOk result (DecidesLines (S.left source.old) (S.left source.new)) }
    ensures later { S.fault_count source.old ≤ S.fault_count source.new }
    ensures cause { IsErrOf result FeedError.Fault
        → Rose (S.fault_count source.old) (S.fault_count source.new) }
{
    let mut kept = Kept {
        bytes: Bytes::new(alloc),
    };
    match feed_all(alloc, source, &mut kept) {
        Ok(Fed::Ended) => Ok(kept.bytes),
        Ok(Fed::Enough) => Ok(kept.bytes),
        Err(error) => Err(error),
    }
}

/// The lines of a source to a session of this kind. The source is read to its end, or as far as a line of it is at fault.
fn source_lines<S: Source>(
    alloc: Global,
    kind: SessionKind,
    source: &mut S,
) -> Result<Vec<(Submission, u64)>, Refusal>
    ensures lines { IfOk result (λ lines.
        AreLines kind (S.left source.old) (S.left source.new) lines.items
        ) }
    ensures allowed { IfOk result (λ lines. Each (IsAllowed kind) lines.items) }
    ensures few { IfOk result (λ lines. length lines.items ≤ 1_000_000) }
    ensures refused { IfErr result (λ refusal.
        HasNoLines kind refusal
        (side (S.left source.old) (S.fault_count source.old))
        (side (S.left source.new) (S.fault_count source.new))
        ) }
{
    let text = match read_text(alloc, source) {
        Ok(text) => text,
        Err(FeedError::Fault) => return Err(Refusal::ReadFault),
        Err(FeedError::NoMemory) => return Err(Refusal::NoMemory),
    };
    a_slice_has_bytes(text.as_slice());
    match read_lines(alloc, kind, text.as_slice()) {
        Ok(lines) => Ok(lines),
        Err(ScriptError::Line(line)) => Err(Refusal::Line(line)),
        Err(ScriptError::NoMemory) => Err(Refusal::NoMemory),
    }
}

/// The live run that words ask for, of the lines of a source. Nothing is dialled before all lines were read.
pub fn flight_of<R: Threads + Wait + Sync, S: Source, W: World>(
    rt: &R,
    alloc: Global,
    words: &[String],
    source: &mut S,
    world: &mut W,
) -> Result<Flight, Refusal>
    ensures flight { IfOk result (λ flight.
        IfTold (side (S.left source.old) (S.fault_count source.old)) (λ bytes.
        IsLive (texts words.now) bytes (S.left source.new) (W.told world.old) (W.told world.new)
        flight
        )) }
    ensures plan { OnOk result (IsPlan (texts words.now)) }
    ensures refused { IfErr result (λ refusal.
        IsRefused refusal (texts words.now)
        (side (S.left source.old) (S.fault_count source.old))
        (side (S.left source.new) (S.fault_count source.new))
        (W.told world.old) (W.told world.new)
        ) }
{
    let plan = match plan_of(alloc, words) {
        Ok(Some(plan)) => plan,
        Ok(None) => return Err(Refusal::Usage),
        Err(_) => return Err(Refusal::NoMemory),
    };
    let lines = match source_lines(alloc, plan.config.kind(), source) {
        Ok(lines) => lines,
        Err(refusal) => {
            drop(plan);
            return Err(refusal);
        }
    };
    match fly(rt, alloc, plan, lines, world) {
        Ok(flight) => Ok(flight),
        Err(FlightError::Config(name)) => Err(Refusal::Config(name)),
        Err(FlightError::Spent(_)) => unreachable!(),
        Err(FlightError::NoMemory) => Err(Refusal::NoMemory),
    }
}
