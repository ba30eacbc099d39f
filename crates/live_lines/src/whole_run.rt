ghost use Rattle.program_ends.specs.Sides.{side};
ghost use Rattle.script_text.specs.Lines.{texts};
ghost use Rattle.live_lines.specs.Does.{DoesLive};

use crate::outcomes::write_outcomes;
use crate::reading::flight_of;
use crate::refusing::refuse;
use outside::{Sink, Source, World};
use program_ends::Status;
use std::alloc::Global;
use std::sync::Wait;
use std::thread::Threads;

/// Makes the live run that words ask for, of the lines of a source, and writes the outcome of each line, in the order of the
/// lines; or it writes why there was none, where `usage` is the line for words that are no plan.
pub fn live<R: Threads + Wait + Sync, S: Source, K: Sink, W: World>(
    rt: &R,
    alloc: Global,
    words: &[String],
    usage: &[u8],
    source: &mut S,
    sink: &mut K,
    world: &mut W,
) -> Status
    ensures { DoesLive usage.now (texts words.now) result
        (side (S.left source.old) (S.fault_count source.old))
        (side (S.left source.new) (S.fault_count source.new))
        (side (K.held sink.old) (K.fault_count sink.old))
        (side (K.held sink.new) (K.fault_count sink.new))
        (W.told world.old) (W.told world.new) }
{
    match flight_of(rt, alloc, words, source, world) {
        Ok(flight) => write_outcomes(alloc, flight, sink),
        Err(refusal) => refuse(alloc, refusal, usage, sink),
    }
}
