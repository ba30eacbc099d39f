ghost use Rattle.std.specs.Prelude.{◌≡◌, ◌++◌, [], flat_map, take, length, is_some, is_none};
ghost use Rattle.std.specs.Prelude.{option_and_then, bytes_eq, if◌then◌else◌, OnOk, IfOk, IfSome};
ghost use Rattle.script_text.specs.ConfigLine.{opening_of};
ghost use Rattle.script_text.specs.EventLine.{event_of};
ghost use Rattle.script_text.specs.Faults.{FindsFault, IsVisible, ends_in_return, is_visible, visible_byte};
ghost use Rattle.script_text.specs.Pieces.{piece_of};
ghost use Rattle.script_text.specs.Words.{words_of_line};

use crate::config_fault::opening_fault;
use crate::config_line::opening;
use crate::event_fault::event_fault;
use crate::fault::Fault;
use crate::line::Line;
use crate::reason::{LineReason, Reason, TextReason};
use crate::script::{MAX_LINE, MAX_LINES, MAX_TEXT, is_end_line};
use crate::words::{cut, is_escaped_well};
use containers::Bytes;
use driver_model::SessionKind;
use percent_encoding::percent_encode_byte;
use std::alloc::{AllocError, Global};

/// How many bytes of a line are shown at most.
const SHOWN: usize = 60;

/// Why what stands between two spaces is neither a word nor a separator.
#[tactic(auto, unfolding(crate::specs::Words::unescaped))]
fn part_reason(raw: &[u8]) -> Option<LineReason>
    ensures exact { is_some result ≡ is_none (piece_of raw.now) }
    ensures why { IfSome result (λ why.
        why ≡ (if bytes_eq raw.now [] then LineReason.Space else LineReason.Escape)) }
{
    if raw == b";".as_slice() {
        return None;
    }
    if raw.is_empty() {
        return Some(LineReason::Space);
    }
    if raw == b"%-".as_slice() {
        return None;
    }
    if is_escaped_well(raw) {
        return None;
    }
    Some(LineReason::Escape)
}

/// What is wrong with the first part of a line that is no word, or with the last where no other is.
fn part_fault(line: &[u8]) -> Fault {
    let mut left = line;
    let mut part = 0usize;
    while let Some((raw, rest)) = cut(left, b' ') {
        if let Some(reason) = part_reason(raw) {
            return Fault {
                reason: Reason::Line(reason),
                part,
            };
        }
        left = rest;
        part = part.saturating_add(1);
    }
    let reason = match (line, left) {
        ([], _) => LineReason::Empty,
        (_, []) => LineReason::Space,
        _ => LineReason::Escape,
    };
    Fault {
        reason: Reason::Line(reason),
        part,
    }
}

/// What is wrong with a first line.
fn first_line_fault(alloc: Global, line: &[u8]) -> Result<Option<Fault>, AllocError>
    ensures { IfOk result (λ fault.
        FindsFault fault (option_and_then opening_of (words_of_line line.now))) }
{
    let mut words = Line::new(alloc);
    if words.read(alloc, line)? {
        return Ok(opening_fault(&words));
    }
    Ok(Some(part_fault(line)))
}

/// What is wrong with a line that is to be an event of a session of this kind.
fn later_line_fault(
    alloc: Global,
    kind: SessionKind,
    line: &[u8],
) -> Result<Option<Fault>, AllocError>
    ensures { IfOk result (λ fault.
        FindsFault fault (option_and_then (event_of kind) (words_of_line line.now))) }
{
    let mut words = Line::new(alloc);
    if words.read(alloc, line)? {
        return Ok(event_fault(kind, &words));
    }
    Ok(Some(part_fault(line)))
}

/// The fault of a line at fault: where the line ends in CR, that.
fn or_return(line: &[u8], fault: Fault) -> Fault
    ensures { result.reason ≡ (if ends_in_return line.now
        then Reason.Line LineReason.CarriageReturn else fault.reason) }
{
    match line.last() {
        Some(13) => Fault {
            reason: Reason::Line(LineReason::CarriageReturn),
            part: usize::MAX,
        },
        _ => fault,
    }
}

/// A line of a text.
#[derive(Clone, Copy)]
struct Place<'a> {
    /// The line before it, if there is one.
    before: Option<&'a [u8]>,
    line: &'a [u8],
    /// Whether an LF ends it.
    ended: bool,
    /// How many bytes a text may have from its first byte on.
    room: usize,
}

/// The line of this number, counted from 1, or the last where there is none.
fn place_of(text: &[u8], number: u32) -> Place<'_> {
    let mut before = None;
    let mut left = text;
    for _ in 1..number {
        if let Some((line, rest)) = cut(left, b'\n') {
            before = Some(line);
            left = rest;
        }
    }
    let room = MAX_TEXT.saturating_sub(text.len() - left.len());
    match cut(left, b'\n') {
        Some((line, _)) => Place {
            before,
            line,
            ended: true,
            room,
        },
        None => Place {
            before,
            line: left,
            ended: false,
            room,
        },
    }
}

/// Whether these are the bytes of a last line.
fn is_last_line(alloc: Global, line: &[u8]) -> Result<bool, AllocError> {
    let mut words = Line::new(alloc);
    Ok(words.read(alloc, line)? && is_end_line(&words))
}

/// What is wrong with a line by where it stands, or by its length.
fn place_reason(
    alloc: Global,
    place: Place<'_>,
    number: u32,
) -> Result<Option<TextReason>, AllocError> {
    if number > MAX_LINES {
        return Ok(Some(TextReason::ManyLines));
    }
    if place.line.len() > MAX_LINE {
        return Ok(Some(TextReason::LongLine));
    }
    if place.line.len() >= place.room {
        return Ok(Some(TextReason::LongText));
    }
    if let Some(before) = place.before {
        if is_last_line(alloc, before)? {
            return Ok(Some(TextReason::BehindEnd));
        }
    }
    if place.ended {
        Ok(None)
    } else if place.line.is_empty() {
        Ok(Some(TextReason::NoEnd))
    } else {
        Ok(Some(TextReason::NoNewline))
    }
}

/// The kind of the session that these words open; where they open none, one connection.
fn kind_opened(alloc: Global, words: &Line<'_>) -> Result<SessionKind, AllocError> {
    let Some((config, _)) = opening(alloc, words)? else {
        return Ok(SessionKind::Single);
    };
    let kind = config.kind();
    drop(config);
    Ok(kind)
}

/// The kind of the session that a text is of, by its first line; of a text whose first line is none, one connection.
fn kind_of(alloc: Global, text: &[u8]) -> Result<SessionKind, AllocError> {
    let mut words = Line::new(alloc);
    if words.read(alloc, place_of(text, 1).line)? {
        kind_opened(alloc, &words)
    } else {
        Ok(SessionKind::Single)
    }
}

/// What is wrong with the words of a line of a text.
fn words_fault(
    alloc: Global,
    text: &[u8],
    line: &[u8],
    number: u32,
) -> Result<Option<Fault>, AllocError> {
    if number == 1 {
        return first_line_fault(alloc, line);
    }
    let kind = kind_of(alloc, text)?;
    later_line_fault(alloc, kind, line)
}

/// What is wrong with a line of a text.
fn line_fault(
    alloc: Global,
    text: &[u8],
    place: Place<'_>,
    number: u32,
) -> Result<Fault, AllocError> {
    if let Some(reason) = place_reason(alloc, place, number)? {
        return Ok(Fault {
            reason: Reason::Text(reason),
            part: usize::MAX,
        });
    }
    match words_fault(alloc, text, place.line, number)? {
        Some(fault) => Ok(or_return(place.line, fault)),
        None => Ok(Fault {
            reason: Reason::Sound,
            part: usize::MAX,
        }),
    }
}

/// The line up to the end of a part, or the whole where it has no such part.
fn front(line: &[u8], part: usize) -> &[u8]
    ensures { result.now ≡ take (length result.now) line.now }
{
    let mut before = part;
    for (index, byte) in line.iter().enumerate() {
        if *byte == b' ' {
            if before == 0 {
                return &line[..index];
            }
            before -= 1;
        }
    }
    line
}

/// Appends the last bytes of a text, as many as are shown.
fn push_tail(shown: &mut Bytes, text: &[u8]) -> Result<(), AllocError> {
    if text.len() > SHOWN {
        shown.extend_from_slice(b"..")?;
        return shown.extend_from_slice(&text[text.len() - SHOWN..]);
    }
    shown.extend_from_slice(text)
}

/// Whether a byte is shown as it is.
fn shows_itself(byte: u8) -> bool
    ensures { result ≡ is_visible byte }
{
    0x20 <= byte && byte < 0x7F
}

/// Appends a byte as it is shown.
fn push_visible(text: &mut Bytes, byte: u8) -> Result<(), AllocError>
    ensures { OnOk result (text.new ≡ text.old ++ visible_byte byte) }
{
    if shows_itself(byte) {
        return text.push(byte);
    }
    text.extend_from_slice(percent_encode_byte(byte).as_bytes())
}

/// A text as it is shown: each byte that isn't visible is escaped.
pub fn visible(alloc: Global, said: &[u8]) -> Result<Bytes, AllocError>
    ensures { IfOk result (λ text. text ≡ flat_map visible_byte said.now) }
{
    let mut text = Bytes::new(alloc);
    for byte in said {
        push_visible(&mut text, *byte)?;
    }
    Ok(text)
}

/// What is wrong with a line of a text, its number counted from 1: the line up to the fault, of a long one its last
/// bytes, and a sentence that says what is allowed. Each byte outside of 0x20 to 0x7E is escaped.
pub fn explain_line(alloc: Global, text: &[u8], number: u32) -> Result<Bytes, AllocError>
    ensures { IfOk result IsVisible }
{
    let place = place_of(text, number);
    let fault = line_fault(alloc, text, place, number)?;
    let mut said = Bytes::new(alloc);
    push_tail(&mut said, front(place.line, fault.part))?;
    if !said.is_empty() {
        said.extend_from_slice(b": ")?;
    }
    said.extend_from_slice(fault.reason.sentence())?;
    visible(alloc, said.as_slice())
}
