ghost use Rattle.std.specs.Prelude.{◌≡◌, ◌<◌, [], length, Ok, IfOk, IfErr};
ghost use Rattle.script_text.specs.Cursor.{Tells};
ghost use Rattle.script_text.specs.Lines.{submitted, submissions_left, lines_of, PutsBefore};
ghost use Rattle.script_text.specs.Lines.{config_of_parts, texts};

use crate::config_line::config;
use crate::event_line::event;
use crate::line::Line;
use crate::script::{Cursor, MAX_TEXT, ScriptError, is_end_line, read_words};
use containers::Seq;
use driver_model::{Config, Event, EventKind, SessionKind, Submission};
use std::alloc::{AllocError, Global};

/// What is submitted, with its word, if that is what happens.
fn submitted(event: Event) -> Option<(Submission, u64)>
    ensures { result ≡ submitted event }
{
    let Event { word, kind } = event;
    match kind {
        EventKind::Submit { submission } => Some((submission, word)),
        _ => None,
    }
}

/// The submission to a session of this kind that the next line is, or none where it is the last line.
#[tactic(auto, using(crate::proofs::Lines::nothing_left))]
fn next_submission<'a>(
    alloc: Global,
    kind: SessionKind,
    cursor: &mut Cursor<'a>,
    words: &mut Line<'a>,
) -> Result<Option<(Submission, u64)>, ScriptError>
    ensures line { IfOk result (λ line.
        PutsBefore line (submissions_left kind cursor.old) (submissions_left kind cursor.new)) }
    ensures less { IfOk result (λ _. length cursor.new.left.now < length cursor.old.left.now) }
    ensures fault { IfErr result (λ e. Tells e (submissions_left kind cursor.old)) }
{
    let number = cursor.number;
    if let Err(error) = read_words(alloc, cursor, words) {
        return Err(error);
    }
    if is_end_line(words) {
        if cursor.left.is_empty() {
            return Ok(None);
        }
        return Err(ScriptError::Line(cursor.number));
    }
    let Some(event) = event(alloc, kind, words)? else {
        return Err(ScriptError::Line(number));
    };
    match submitted(event) {
        Some(line) => Ok(Some(line)),
        None => Err(ScriptError::Line(number)),
    }
}

/// The submissions to a session of this kind up to the last line.
fn all_submissions<'a>(
    alloc: Global,
    kind: SessionKind,
    cursor: &mut Cursor<'a>,
    words: &mut Line<'a>,
) -> Result<Seq<(Submission, u64)>, ScriptError>
    ensures lines { IfOk result (λ lines. submissions_left kind cursor.old ≡ Ok lines) }
    ensures fault { IfErr result (λ e. Tells e (submissions_left kind cursor.old)) }
{
    let mut lines = Seq::new(alloc);
    loop {
        match next_submission(alloc, kind, cursor, words) {
            Ok(Some(line)) => lines.push(line)?,
            Ok(None) => return Ok(lines),
            Err(error) => return Err(error),
        }
    }
}

/// Reads lines `submit ..` to a session of this kind, the last one `end`: what each submits, with its word.
#[tactic(auto, unfolding(crate::specs::Lines::lines_of))]
pub fn read_lines(
    alloc: Global,
    kind: SessionKind,
    text: &[u8],
) -> Result<Vec<(Submission, u64)>, ScriptError>
    ensures lines { IfOk result (λ lines. lines_of kind text.now ≡ Ok lines.items) }
    ensures fault { IfErr result (λ error. Tells error (lines_of kind text.now)) }
{
    let mut cursor = Cursor {
        left: text,
        number: 1,
        room: MAX_TEXT,
    };
    let mut words = Line::new(alloc);
    match all_submissions(alloc, kind, &mut cursor, &mut words) {
        Ok(lines) => Ok(lines.into_vec()),
        Err(error) => Err(error),
    }
}

/// The configuration that a line with the word `config` and these words behind it is. They come into this line.
fn read_config_into<'a>(
    alloc: Global,
    words: &'a [String],
    line: &mut Line<'a>,
) -> Result<Option<Config>, AllocError>
    requires { line.old ≡ record { words = []; more = [] } }
    ensures { IfOk result (λ config. config ≡ config_of_parts (texts words.now)) }
{
    if !line.put(alloc, b"config")? {
        return Ok(None);
    }
    for word in words {
        if !line.put(alloc, word.as_bytes())? {
            return Ok(None);
        }
    }
    config(alloc, line.words(), line.more())
}

/// The configuration that a line with the word `config` and these words behind it is.
pub fn read_config(alloc: Global, words: &[String]) -> Result<Option<Config>, AllocError>
    ensures { IfOk result (λ config. config ≡ config_of_parts (texts words.now)) }
{
    let mut line = Line::new(alloc);
    read_config_into(alloc, words, &mut line)
}
