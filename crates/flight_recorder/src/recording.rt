ghost use Rattle.program_ends.specs.Sides.{side};
ghost use Rattle.script_text.specs.Lines.{texts};
ghost use Rattle.flight_recorder.specs.Records.{DoesRecord, Records};

use live_lines::{Refusal, flight_of, refuse};
use outside::{Sink, Source, World};
use program_ends::{Status, print};
use run_record::{RecordError, record};
use shared_session::Session;
use std::alloc::Global;
use std::sync::Wait;
use std::thread::Threads;

/// The line where the words are no plan.
const USAGE: &[u8] = b"usage: flight_recorder [callers=K] CONFIG\n";

/// The line where the history passes a limit of scripts.
const NO_SCRIPT: &[u8] = b"no script\n";

/// Writes the history of a session as a script.
fn write_record<K: Sink>(alloc: Global, session: &Session, sink: &mut K) -> Status
    ensures { Records session.now result
        (side (K.held sink.old) (K.fault_count sink.old))
        (side (K.held sink.new) (K.fault_count sink.new)) }
{
    match record(alloc, session) {
        Ok(script) => print(script.as_slice(), Status::Done, sink),
        Err(RecordError::NoScript) => print(NO_SCRIPT, Status::Script, sink),
        Err(RecordError::NoMemory) => Status::NoMemory,
    }
}

/// Makes the live run that words ask for, of the lines of a source, and writes its history as a script.
pub fn run<R: Threads + Wait + Sync, S: Source, K: Sink, W: World>(
    rt: &R,
    alloc: Global,
    words: &[String],
    source: &mut S,
    sink: &mut K,
    world: &mut W,
) -> Status
    ensures { DoesRecord (texts words.now) result
        (side (S.left source.old) (S.fault_count source.old))
        (side (S.left source.new) (S.fault_count source.new))
        (side (K.held sink.old) (K.fault_count sink.old))
        (side (K.held sink.new) (K.fault_count sink.new))
        (W.told world.old) (W.told world.new) }
{
    match flight_of(rt, alloc, words, source, world) {
        Ok(flight) => write_record(alloc, &flight.session, sink),
        Err(refusal) => refuse(alloc, refusal, USAGE, sink),
    }
}
