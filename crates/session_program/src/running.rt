ghost use Rattle.std.specs.Prelude.{◌≡◌, ◌⊎◌, ◌≤◌, ◌++◌, ℕ, List, [], true, false, codes, Ok, Err, Option};
ghost use Rattle.std.specs.Prelude.{OnOk, IfOk, IfErr, IfSome, IsErrOf};
ghost use Rattle.outside.specs.Ends.{Rose, Gained, GainedPart};
ghost use Rattle.single_session.specs.Replay.{trace_of, AreGood, AreUnspent, IsSound};
ghost use Rattle.trace_text.specs.Show.{show};
ghost use Rattle.script_text.specs.Script.{script_of};
ghost use Rattle.text_laws.specs.Fits.{AreBytes};
ghost use Rattle.session_program.specs.Does.{Does};
ghost use Rattle.session_program.specs.Reading.{Decides};
ghost use Rattle.program_ends.specs.Lines.{usage_line};
ghost use Rattle.session_program.specs.Notes.{IsBadNoteOf, IsOwn, IsWritten, Notes, live_note, open_count};
ghost use Rattle.program_ends.specs.Sides.{side, Side};
ghost use Rattle.session_program.specs.Stops.{Told, stop_line};
ghost use Rattle.live_lines.specs.Does.{DoesLive};
ghost use Rattle.live_lines.specs.Plans.{dial_limit};
ghost use Rattle.script_text.specs.Lines.{texts};
ghost use Rattle.session_program.specs.Words.{command_of, is_live, words_behind};

use crate::command::{Command, command_of};
use crate::counting::done_note;
use crate::generating::write_generated;
use crate::lines::{VERSION, help_text};
use crate::noting::{config_note, live_note, note_of, script_note, write_note};
use crate::reading::{ReadError, read_text};
use crate::replaying::{Stop, replay_into};
use containers::Bytes;
use live_lines::live;
use outside::{Sink, Source, World};
use program_ends::{
    PutError, READ_FAULT, Status, USAGE, print, push_config_line, push_line, put, refuse_script,
};
use script_text::{Script, ScriptError, read_script};
use std::alloc::{AllocError, Global};
use std::sync::Wait;
use std::thread::Threads;
use text_laws::a_slice_has_bytes;

/// Appends the line of why a replay stopped. Where memory is refused it stopped for that.
fn push_stop(alloc: Global, text: &mut Bytes, stop: Stop) -> Stop
    ensures text { text.new ≡ text.old ++ stop_line result }
    ensures kept { (result ≡ stop) ⊎ (result ≡ Stop.NoMemory) }
{
    let pushed = match stop {
        Stop::Config(name) => push_config_line(alloc, text, name),
        Stop::BadEvent(number) => push_line(alloc, text, b"bad event", number),
        Stop::Spent(number) => push_line(alloc, text, b"spent event", number),
        Stop::NoMemory => return stop,
        Stop::WriteFault => return stop,
    };
    match pushed {
        Ok(()) => stop,
        Err(_) => Stop::NoMemory,
    }
}

/// Writes what is left of a replay that stopped, unless the sink's fault stopped it.
fn end_early<K: Sink>(alloc: Global, stop: Stop, text: &mut Bytes, sink: &mut K) -> Stop
    ensures kept { (result ≡ stop) ⊎ (result ≡ Stop.NoMemory) ⊎ (result ≡ Stop.WriteFault) }
    ensures told { (result ≡ Stop.WriteFault)
        ⊎ Gained (K.held sink.old) (K.held sink.new) (text.old ++ stop_line result) }
    ensures same { stop ≡ Stop.WriteFault
        → (result ≡ Stop.WriteFault) × (K.held sink.new ≡ K.held sink.old) }
    ensures cut { result ≡ Stop.WriteFault → (stop ≡ Stop.WriteFault)
        ⊎ GainedPart (K.held sink.old) (K.held sink.new) (text.old ++ stop_line stop)
        ⊎ GainedPart (K.held sink.old) (K.held sink.new) (text.old ++ []) }
    ensures cause { result ≡ Stop.WriteFault → (stop ≡ Stop.WriteFault)
        ⊎ Rose (K.fault_count sink.old) (K.fault_count sink.new) }
    ensures later { K.fault_count sink.old ≤ K.fault_count sink.new }
{
    if stop == Stop::WriteFault {
        return stop;
    }
    let stop = push_stop(alloc, text, stop);
    if put(text, sink) {
        stop
    } else {
        Stop::WriteFault
    }
}

/// Replays a script, and writes its trace. Where an event is bad, the note says why, unless memory was refused for that.
#[tactic(auto, using(program_ends::proofs::Sent::sent_end))]
fn replay_script<K: Sink>(
    alloc: Global,
    script: Script,
    sink: &mut K,
    note: &mut Bytes,
) -> Result<Option<u64>, Stop>
    ensures trace { OnOk result (
        Gained (K.held sink.old) (K.held sink.new)
        (show (trace_of script.config script.word script.events))
        ) }
    ensures sound { OnOk result (IsSound script.config) }
    ensures good { OnOk result (AreGood script.config script.word script.events) }
    ensures unspent { OnOk result (AreUnspent script.config script.word script.events) }
    ensures counted { IfOk result (λ count. IfSome count (λ n.
        n ≡ open_count script.config script.word script.events)) }
    ensures stops { IfErr result (λ stop.
        Told stop script.config script.word script.events (K.held sink.old)
        (K.held sink.new)
        ) }
    ensures noted { (n : ℕ) → IsErrOf result (Stop.BadEvent n)
        → (note.new ≡ []) ⊎ IsBadNoteOf script.config script.word script.events note.new }
    ensures cause { IsErrOf result Stop.WriteFault
        → Rose (K.fault_count sink.old) (K.fault_count sink.new) }
{
    let mut text = Bytes::new(alloc);
    let Script {
        config,
        word,
        events,
    } = script;
    match replay_into(alloc, config, word, events, sink, &mut text, note) {
        Ok(count) => {
            if put(&text, sink) {
                Ok(count)
            } else {
                Err(Stop::WriteFault)
            }
        }
        Err(stop) => Err(end_early(alloc, stop, &mut text, sink)),
    }
}

/// How a command ended, and what is said of its script.
type Ending = (Status, Bytes);

/// Replays a script that was read from a source, whatever the source is.
fn replay_noted<K: Sink>(alloc: Global, script: Script, sink: &mut K) -> Ending
    ensures does { (source : Side) (source' : Side) (kept : List ℕ)
        → Decides source.bytes source'.bytes kept → script_of kept ≡ Ok script → AreBytes kept
        → Does Command.Replay result.0 source source'
        (side (K.held sink.old) (K.fault_count sink.old))
        (side (K.held sink.new) (K.fault_count sink.new)) }
    ensures own { (source : Side) (left : Option (List ℕ)) (kept : List ℕ)
        → Decides source.bytes left kept → script_of kept ≡ Ok script
        → IsOwn result.0 source result.1 }
{
    let mut note = Bytes::new(alloc);
    match replay_script(alloc, script, sink, &mut note) {
        Ok(count) => (Status::Done, done_note(alloc, count)),
        Err(Stop::Config(name)) => (Status::Config, config_note(alloc, name)),
        Err(Stop::BadEvent(_)) => (Status::BadEvent, note),
        Err(Stop::NoMemory) => (Status::NoMemory, Bytes::new(alloc)),
        Err(Stop::WriteFault) => (Status::WriteFault, Bytes::new(alloc)),
        Err(Stop::Spent(_)) => (Status::Spent, Bytes::new(alloc)),
    }
}

/// Refuses a text that was read from a source, whatever the source is, for the line that is at fault.
fn refuse_noted<K: Sink>(alloc: Global, text: &[u8], line: u32, sink: &mut K) -> Ending
    ensures does { (source : Side) (source' : Side) (kept : List ℕ)
        → Decides source.bytes source'.bytes kept → script_of kept ≡ Err line
        → Does Command.Replay result.0 source source'
        (side (K.held sink.old) (K.fault_count sink.old))
        (side (K.held sink.new) (K.fault_count sink.new)) }
    ensures own { (source : Side) (left : Option (List ℕ)) (kept : List ℕ)
        → Decides source.bytes left kept → script_of kept ≡ Err line
        → IsOwn result.0 source result.1 }
{
    match refuse_script(alloc, line, sink) {
        Ok(()) => (Status::Script, script_note(alloc, text, line)),
        Err(PutError::NoMemory) => (Status::NoMemory, Bytes::new(alloc)),
        Err(PutError::WriteFault) => (Status::WriteFault, Bytes::new(alloc)),
    }
}

/// Reads a script to the source's end, and replays it.
fn replay_source<S: Source, K: Sink>(alloc: Global, source: &mut S, sink: &mut K) -> Ending
    ensures does { Does Command.Replay result.0
        (side (S.left source.old) (S.fault_count source.old))
        (side (S.left source.new) (S.fault_count source.new))
        (side (K.held sink.old) (K.fault_count sink.old))
        (side (K.held sink.new) (K.fault_count sink.new)) }
    ensures own { IsOwn result.0
        (side (S.left source.old) (S.fault_count source.old)) result.1 }
{
    let intake = match read_text(alloc, source) {
        Ok(intake) => intake,
        Err(ReadError::Fault) => {
            return (
                print(READ_FAULT, Status::ReadFault, sink),
                Bytes::new(alloc),
            );
        }
        Err(ReadError::NoMemory) => return (Status::NoMemory, Bytes::new(alloc)),
    };
    let text = intake.text();
    a_slice_has_bytes(text);
    let script = match read_script(alloc, text) {
        Ok(script) => script,
        Err(ScriptError::Line(line)) => {
            let ending = refuse_noted(alloc, text, line, sink);
            drop(intake);
            return ending;
        }
        Err(ScriptError::NoMemory) => {
            drop(intake);
            return (Status::NoMemory, Bytes::new(alloc));
        }
    };
    drop(intake);
    replay_noted(alloc, script, sink)
}

/// Does what the words ask for, but for what is said on its side.
fn run_command<S: Source, K: Sink>(
    alloc: Global,
    words: &[String],
    source: &mut S,
    sink: &mut K,
) -> Ending
    ensures does { Does (command_of words.now) result.0
        (side (S.left source.old) (S.fault_count source.old))
        (side (S.left source.new) (S.fault_count source.new))
        (side (K.held sink.old) (K.fault_count sink.old))
        (side (K.held sink.new) (K.fault_count sink.new)) }
    ensures own { IsOwn result.0
        (side (S.left source.old) (S.fault_count source.old)) result.1 }
{
    match command_of(words) {
        Command::Replay => replay_source(alloc, source, sink),
        Command::Generate(rounds) => (write_generated(alloc, rounds, sink), Bytes::new(alloc)),
        Command::Help => (print(help_text(), Status::Done, sink), Bytes::new(alloc)),
        Command::Version => (print(VERSION, Status::Done, sink), Bytes::new(alloc)),
        Command::Unknown => (print(USAGE, Status::Usage, sink), Bytes::new(alloc)),
    }
}

/// Does what the words ask for, and says how it went; and the notes are told what to mend.
pub fn run_alone<S: Source, K: Sink, N: Sink>(
    alloc: Global,
    words: &[String],
    source: &mut S,
    sink: &mut K,
    notes: &mut N,
) -> Status
    ensures does { Does (command_of words.now) result
        (side (S.left source.old) (S.fault_count source.old))
        (side (S.left source.new) (S.fault_count source.new))
        (side (K.held sink.old) (K.fault_count sink.old))
        (side (K.held sink.new) (K.fault_count sink.new)) }
    ensures notes { Notes result
        (side (S.left source.old) (S.fault_count source.old))
        (side (N.held notes.old) (N.fault_count notes.old))
        (side (N.held notes.new) (N.fault_count notes.new)) }
{
    let ending = run_command(alloc, words, source, sink);
    write_note(note_of(ending.0, &ending.1), notes);
    ending.0
}

/// Whether the first word is `live`.
fn is_live(words: &[String]) -> bool
    ensures { result ≡ is_live words.now }
{
    match words {
        [word, ..] => word.as_bytes() == b"live".as_slice(),
        [] => false,
    }
}

/// The words behind the first.
fn words_behind(words: &[String]) -> &[String]
    ensures { texts result.now ≡ words_behind words.now }
{
    match words {
        [_, rest @ ..] => rest,
        [] => words,
    }
}

/// The most milliseconds that a dial of the program may take, by its words: those of `connect=MS`, and a second where they
/// don't say it.
pub fn dial_limit(alloc: Global, words: &[String]) -> Result<u64, AllocError>
    ensures { IfOk result (λ ms. ms ≡ dial_limit (words_behind words.now)) }
{
    live_lines::dial_limit(alloc, words_behind(words))
}

/// All that the program does: a live run where the first word is `live`, and else what one alone does.
pub fn run<R: Threads + Wait + Sync, S: Source, K: Sink, N: Sink, W: World>(
    rt: &R,
    alloc: Global,
    words: &[String],
    source: &mut S,
    sink: &mut K,
    notes: &mut N,
    world: &mut W,
) -> Status
    ensures does { is_live words.now ≡ false → Does (command_of words.now) result
        (side (S.left source.old) (S.fault_count source.old))
        (side (S.left source.new) (S.fault_count source.new))
        (side (K.held sink.old) (K.fault_count sink.old))
        (side (K.held sink.new) (K.fault_count sink.new)) }
    ensures notes { is_live words.now ≡ false → Notes result
        (side (S.left source.old) (S.fault_count source.old))
        (side (N.held notes.old) (N.fault_count notes.old))
        (side (N.held notes.new) (N.fault_count notes.new)) }
    ensures live { is_live words.now ≡ true
        → DoesLive usage_line (words_behind words.now) result
        (side (S.left source.old) (S.fault_count source.old))
        (side (S.left source.new) (S.fault_count source.new))
        (side (K.held sink.old) (K.fault_count sink.old))
        (side (K.held sink.new) (K.fault_count sink.new))
        (W.told world.old) (W.told world.new) }
    ensures live_notes { is_live words.now ≡ true
        → IsWritten (live_note result)
        (side (N.held notes.old) (N.fault_count notes.old))
        (side (N.held notes.new) (N.fault_count notes.new)) }
{
    if !is_live(words) {
        return run_alone(alloc, words, source, sink, notes);
    }
    let status = live(rt, alloc, words_behind(words), USAGE, source, sink, world);
    write_note(live_note(status), notes);
    status
}
