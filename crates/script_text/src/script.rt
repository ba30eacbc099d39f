ghost use Rattle.std.specs.Prelude.{◌≡◌, ◌<◌, length, MatchOption, Some, None, Ok, IfOk, IfErr, option_and_then};
ghost use Rattle.script_text.specs.ConfigLine.{opening_of};
ghost use Rattle.script_text.specs.Cursor.{line_left, words_left, events_left, Passes, Goes, Continues, Refuses, Tells};
ghost use Rattle.script_text.specs.Script.{is_end, script_of};

use crate::config_line::opening;
use crate::event_line::event;
use crate::line::Line;
use crate::words::cut;
use containers::Seq;
use driver_model::{Config, Event, SessionKind};
use std::alloc::{AllocError, Global};

/// The most lines that a script has.
pub const MAX_LINES: u32 = 1_000_000;

/// The most bytes that a line has, without its LF.
pub const MAX_LINE: usize = 1_048_576;

/// The most bytes that a script has.
pub const MAX_TEXT: usize = 67_108_864;

/// What a session is made from, and what happens to it.
#[derive(Drop)]
pub struct Script {
    pub config: Config,
    pub word: u64,
    pub events: Seq<Event>,
}

/// Why a text was not read.
#[derive(Clone, Copy, Debug, PartialEq, Eq)]
pub enum ScriptError {
    /// This line is the first at fault. Lines are counted from 1.
    Line(u32),
    NoMemory,
}

impl From<AllocError> for ScriptError {
    ghost use Rattle.std.specs.Prelude.{◌≡◌};
    ghost use Rattle.script_text.specs.declared.script.ScriptError.TheVariants.{NoMemory};

    ghost from_gives = { λ _ e. e ≡ NoMemory };

    fn from(_error: AllocError) -> Self {
        ScriptError::NoMemory
    }
}

/// What is left of a text: its bytes, the number of the line that they begin with, and how many of them there may be.
#[derive(Drop)]
pub struct Cursor<'a> {
    pub left: &'a [u8],
    pub number: u32,
    pub room: usize,
}

/// The next line, if an LF ends it and it keeps the limits.
fn next_line<'a>(cursor: &mut Cursor<'a>) -> Option<&'a [u8]>
    ensures { MatchOption result (line_left cursor.old ≡ None)
        (λ line. (line_left cursor.old ≡ Some line.now)
        × Passes line.now cursor.old cursor.new) }
{
    let (line, rest) = cut(cursor.left, b'\n')?;
    if cursor.number > MAX_LINES || line.len() > MAX_LINE || line.len() >= cursor.room {
        return None;
    }
    cursor.left = rest;
    cursor.number += 1;
    cursor.room -= line.len() + 1;
    Some(line)
}

/// Reads the words of the next line, in place of those that the line had.
pub fn read_words<'a>(
    alloc: Global,
    cursor: &mut Cursor<'a>,
    words: &mut Line<'a>,
) -> Result<(), ScriptError>
    ensures words { IfOk result (λ _. words_left cursor.old ≡ Some words.new) }
    ensures passed { IfOk result (λ _. Goes cursor.old cursor.new) }
    ensures fault { IfErr result (λ e. Refuses e cursor.old.number (words_left cursor.old)) }
{
    let number = cursor.number;
    let Some(line) = next_line(cursor) else {
        return Err(ScriptError::Line(number));
    };
    if words.read(alloc, line)? {
        Ok(())
    } else {
        Err(ScriptError::Line(number))
    }
}

/// Whether these are the words of the last line.
pub fn is_end_line(words: &Line<'_>) -> bool
    ensures { result ≡ is_end words.now }
{
    match (words.words(), words.more()) {
        ([word], []) => word.as_slice() == b"end".as_slice(),
        _ => false,
    }
}

/// The event of a session of this kind that the next line is, or none where it is the last line.
#[tactic(auto, using(crate::proofs::Lines::nothing_left))]
fn next_event<'a>(
    alloc: Global,
    kind: SessionKind,
    cursor: &mut Cursor<'a>,
    words: &mut Line<'a>,
) -> Result<Option<Event>, ScriptError>
    ensures event { IfOk result (λ e.
        Continues e (events_left kind cursor.old) (events_left kind cursor.new)) }
    ensures less { IfOk result (λ _. length cursor.new.left.now < length cursor.old.left.now) }
    ensures fault { IfErr result (λ e. Tells e (events_left kind cursor.old)) }
{
    let number = cursor.number;
    if let Err(error) = read_words(alloc, cursor, words) {
        return Err(error);
    }
    if is_end_line(words) {
        if cursor.left.is_empty() {
            return Ok(None);
        }
        return Err(ScriptError::Line(cursor.number));
    }
    match event(alloc, kind, words)? {
        Some(event) => Ok(Some(event)),
        None => Err(ScriptError::Line(number)),
    }
}

/// The events of a session of this kind up to the last line.
fn all_events<'a>(
    alloc: Global,
    kind: SessionKind,
    cursor: &mut Cursor<'a>,
    words: &mut Line<'a>,
) -> Result<Seq<Event>, ScriptError>
    ensures events { IfOk result (λ es. events_left kind cursor.old ≡ Ok es) }
    ensures fault { IfErr result (λ e. Tells e (events_left kind cursor.old)) }
{
    let mut events = Seq::new(alloc);
    loop {
        match next_event(alloc, kind, cursor, words) {
            Ok(Some(event)) => events.push(event)?,
            Ok(None) => return Ok(events),
            Err(error) => return Err(error),
        }
    }
}

/// The configuration that the next line is, and the word of its draws.
fn config_line<'a>(
    alloc: Global,
    cursor: &mut Cursor<'a>,
    words: &mut Line<'a>,
) -> Result<(Config, u64), ScriptError>
    ensures config { IfOk result (λ o.
        option_and_then opening_of (words_left cursor.old) ≡ Some o) }
    ensures passed { IfOk result (λ _. Goes cursor.old cursor.new) }
    ensures fault { IfErr result (λ e.
        Refuses e cursor.old.number (option_and_then opening_of (words_left cursor.old))) }
{
    let number = cursor.number;
    if let Err(error) = read_words(alloc, cursor, words) {
        return Err(error);
    }
    match opening(alloc, words)? {
        Some(opening) => Ok(opening),
        None => Err(ScriptError::Line(number)),
    }
}

/// Reads a script.
#[tactic(auto, unfolding(crate::specs::Script::script_of))]
pub fn read_script(alloc: Global, text: &[u8]) -> Result<Script, ScriptError>
    ensures script { IfOk result (λ script. script_of text.now ≡ Ok script) }
    ensures fault { IfErr result (λ error. Tells error (script_of text.now)) }
{
    let mut cursor = Cursor {
        left: text,
        number: 1,
        room: MAX_TEXT,
    };
    let mut words = Line::new(alloc);
    let (config, word) = match config_line(alloc, &mut cursor, &mut words) {
        Ok(opening) => opening,
        Err(error) => return Err(error),
    };
    match all_events(alloc, config.kind(), &mut cursor, &mut words) {
        Ok(events) => Ok(Script {
            config,
            word,
            events,
        }),
        Err(error) => Err(error),
    }
}
