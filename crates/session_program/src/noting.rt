ghost use Rattle.std.specs.Prelude.{◌≡◌, ◌⊎◌, [], IfOk};
ghost use Rattle.session_program.specs.Notes.{IsLineNote, IsNote, IsOwn, IsWritten, config_words};
ghost use Rattle.session_program.specs.Notes.{fixed_note, line_note, live_note};
ghost use Rattle.program_ends.specs.Sides.{Side, side};

use crate::lines::reason_line;
use containers::Bytes;
use outside::{Sink, write_all};
use program_ends::Status;
use redis_error::ConfigName;
use script_text::explain_line;
use std::alloc::{AllocError, Global};

/// Where the words are no command.
const USAGE_NOTE: &[u8] =
    b"the words are replay, gen N, live CONFIG, --help or --version, and N is a number from 1 to 200000\n";

/// Where memory was refused.
const MEMORY_NOTE: &[u8] = b"memory was refused: standard output has whole turns at most\n";

/// Where the source failed.
const READ_NOTE: &[u8] = b"standard input could not be read to its end\n";

/// Where the sink failed.
const WRITE_NOTE: &[u8] = b"standard output took no more: what it has is a front of the output\n";

/// Where a number has run out.
const SPENT_NOTE: &[u8] = b"a number of 32 bits has run out: split the script\n";

/// Where the words behind `live` are no plan.
const PLAN_NOTE: &[u8] =
    b"live is followed by callers=K, K from 1 to 8, or nothing, and then by single, manager, lazy, pubsub or monitor, url=redis://HOST:PORT and its settings\n";

/// Where a line of a live run is at fault.
const LINES_NOTE: &[u8] =
    b"each line is a line `submit ..` of a script, and the last one is `end`: nothing was dialled\n";

/// Where the configuration of a live run is refused.
const REFUSED_NOTE: &[u8] =
    b"what standard output names is refused of the configuration: nothing was dialled\n";

/// Where memory was refused to a live run.
const OUTCOMES_NOTE: &[u8] = b"memory was refused: standard output has a front of the outcomes\n";

/// Where a URL is no address.
const URL_WORDS: &[u8] =
    b"the URL is no address: it has the scheme redis or valkey and a host, and beside them no more than a user, a password, a port, a database and a protocol";

/// Where pushes couldn't come.
const PUSH_WORDS: &[u8] = b"pushes come on RESP3 alone: push=on goes with ?protocol=3 in the URL";

/// Where what is subscribed again would be heard by nobody.
const RESUB_WORDS: &[u8] =
    b"what was subscribed is subscribed again where somebody hears pushes: resub=on goes with push=on";

/// Where delays would grow by no fraction.
const BASE_WORDS: &[u8] = b"delays grow by a fraction: the second number of base is at least 1";

/// Where there would be no permit.
const LIMIT_WORDS: &[u8] = b"a request holds at least 1 permit: limit=0 leaves none for any";

/// Where the queue of a link would hold nothing.
const BUFFER_WORDS: &[u8] =
    b"the queue of a link holds at least 1 message: buffer=0 leaves no place for any";

/// The sentence of a status that says all by itself.
fn fixed_note(status: Status) -> &'static [u8]
    ensures { result.now ≡ fixed_note status }
{
    match status {
        Status::Done => b"",
        Status::Usage => USAGE_NOTE,
        Status::Script => b"",
        Status::Config => b"",
        Status::BadEvent => b"",
        Status::NoMemory => MEMORY_NOTE,
        Status::ReadFault => READ_NOTE,
        Status::WriteFault => WRITE_NOTE,
        Status::Spent => SPENT_NOTE,
    }
}

/// The sentence of a live run that ends with this status.
pub fn live_note(status: Status) -> &'static [u8]
    ensures { result.now ≡ live_note status }
{
    match status {
        Status::Done => b"",
        Status::Usage => PLAN_NOTE,
        Status::Script => LINES_NOTE,
        Status::Config => REFUSED_NOTE,
        Status::BadEvent => b"",
        Status::NoMemory => OUTCOMES_NOTE,
        Status::ReadFault => READ_NOTE,
        Status::WriteFault => WRITE_NOTE,
        Status::Spent => b"",
    }
}

/// What is wrong with a line of a text, with its number.
fn explained(alloc: Global, text: &[u8], line: u32) -> Result<Bytes, AllocError>
    ensures { IfOk result (IsLineNote line) }
{
    let why = explain_line(alloc, text, line)?;
    reason_line(alloc, u64::from(line), why.as_slice())
}

/// The note of a text that is no script: nothing, where memory was refused for it.
pub fn script_note(alloc: Global, text: &[u8], line: u32) -> Bytes
    ensures { (result ≡ []) ⊎ IsLineNote line result }
{
    match explained(alloc, text, line) {
        Ok(note) => note,
        Err(_) => Bytes::new(alloc),
    }
}

/// What of a configuration is to be mended, by the name of what is refused.
fn config_words(alloc: Global, name: ConfigName) -> Result<Bytes, AllocError>
    ensures { IfOk result (λ words. words ≡ config_words name) }
{
    match name {
        ConfigName::Url => Bytes::from_slice(alloc, URL_WORDS),
        ConfigName::Push => Bytes::from_slice(alloc, PUSH_WORDS),
        ConfigName::Resub => Bytes::from_slice(alloc, RESUB_WORDS),
        ConfigName::Base => Bytes::from_slice(alloc, BASE_WORDS),
        ConfigName::Limit => Bytes::from_slice(alloc, LIMIT_WORDS),
        ConfigName::Buffer => Bytes::from_slice(alloc, BUFFER_WORDS),
        _ => {
            let mut words = Bytes::from_slice(alloc, b"the configuration is refused for its ")?;
            words.extend_from_slice(name.name().as_bytes())?;
            Ok(words)
        }
    }
}

/// The line that says what to mend in a configuration.
fn config_mended(alloc: Global, name: ConfigName) -> Result<Bytes, AllocError>
    ensures { IfOk result (λ note. note ≡ line_note 1 (config_words name)) }
{
    let words = config_words(alloc, name)?;
    reason_line(alloc, 1, words.as_slice())
}

/// The note of a configuration that is refused for what it says of this name: nothing, where memory was refused for it.
pub fn config_note(alloc: Global, name: ConfigName) -> Bytes
    ensures { (result ≡ []) ⊎ (result ≡ line_note 1 (config_words name)) }
{
    match config_mended(alloc, name) {
        Ok(note) => note,
        Err(_) => Bytes::new(alloc),
    }
}

/// The note of a run: what is said of its script, or of its status alone.
pub fn note_of(status: Status, own: &Bytes) -> &[u8]
    ensures { (source : Side) → IsOwn status source own.now → IsNote status source result.now }
{
    if own.is_empty() {
        fixed_note(status)
    } else {
        own.as_slice()
    }
}

/// Writes what is said on the side of a run. That the notes fail changes nothing else.
pub fn write_note<N: Sink>(note: &[u8], notes: &mut N)
    ensures { IsWritten note.now
        (side (N.held notes.old) (N.fault_count notes.old))
        (side (N.held notes.new) (N.fault_count notes.new)) }
{
    write_all(notes, note);
}
