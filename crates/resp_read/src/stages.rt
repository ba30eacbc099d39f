ghost use Rattle.std.specs.Prelude.{◌≡◌, ◌≤◌, List, ℕ, length, IfOk, MatchOption};
ghost use Rattle.resp_value.specs.Data.{Data};
ghost use Rattle.resp_read.specs.Parser.{Found, bad, chosen, nested, plain, innermost, line};
ghost use Rattle.resp_read.specs.Limits.{bounds, AreAllowed};
ghost use Rattle.resp_read.specs.Frames.{begun_as};
ghost use Rattle.resp_read.specs.Stages.{head_on, part_as, Follows};
ghost use Rattle.resp_read.specs.declared.stages.Head.TheVariants as named;

use crate::forms::OneLine;
use crate::frames::{Begun, Pairing, Sequence};
use crate::limits::Limits;
use crate::{forms, frames, lines};
use containers::Bytes;
use resp_value::{Pairs, PushKind, Value, Values};
use std::alloc::{AllocError, Global};

/// What the line behind a first byte announces.
#[derive(Clone, Copy)]
pub enum Head {
    /// A value that is this line.
    Value(OneLine),
    /// The length of a bulk string, or `-1`.
    Bulk,
    BulkError,
    Verbatim,
    Array,
    Set,
    Map,
    Push,
    Attributes,
    /// The kind of a push that has so many values behind it.
    Kind(u64),
    /// The length of such a kind.
    KindLength(u64),
}

/// What a body of known length is.
#[derive(Drop)]
pub enum Part {
    Bulk,
    Error,
    /// A text of this format.
    Verbatim(Bytes),
    /// The kind of a push that has so many values behind it.
    Kind(u64),
}

/// What is wanted that is no line.
#[derive(Drop)]
pub enum Want {
    /// So many bytes, and CR LF.
    Body(Part, u64),
    /// A format, and a text of so many bytes.
    Format(u64),
    /// The kind of a push that has so many values behind it.
    Kind(u64),
}

/// What follows a line or a body.
#[derive(Drop)]
pub enum Follow {
    Begun(Begun),
    Want(Want),
}

/// What is read next.
#[derive(Drop)]
pub enum Stage {
    /// The first byte of a value.
    First,
    /// A line.
    Line(Head),
    /// LF, and then this.
    End(Follow),
    Want(Want),
}

/// The form that holds no values and begins with this byte.
pub fn plain_head(first: u8) -> Option<Head>
    ensures { MatchOption result
        ((limits : Limits) (bs : List ℕ) → chosen (plain (bounds limits)) first bs ≡ bad)
        (λ h. (limits : Limits) (inside : List ℕ → Found Data) (bs : List ℕ)
        → chosen (plain (bounds limits)) first bs ≡ head_on (bounds limits) inside h (line bs)) }
{
    match first {
        b'+' => Some(Head::Value(OneLine::Simple)),
        b'-' => Some(Head::Value(OneLine::Error)),
        b':' => Some(Head::Value(OneLine::Number)),
        b'$' => Some(Head::Bulk),
        b'_' => Some(Head::Value(OneLine::Null)),
        b'#' => Some(Head::Value(OneLine::Boolean)),
        b',' => Some(Head::Value(OneLine::Double)),
        b'(' => Some(Head::Value(OneLine::Big)),
        b'!' => Some(Head::BulkError),
        b'=' => Some(Head::Verbatim),
        _ => None,
    }
}

/// The form that holds values and begins with this byte.
pub fn nested_head(first: u8) -> Option<Head>
    ensures { (limits : Limits) (inside : List ℕ → Found Data) (bs : List ℕ) → MatchOption result
        (chosen (nested (bounds limits) inside) first bs ≡ bad)
        (λ h. chosen (nested (bounds limits) inside) first bs
        ≡ head_on (bounds limits) inside h (line bs)) }
{
    match first {
        b'*' => Some(Head::Array),
        b'~' => Some(Head::Set),
        b'%' => Some(Head::Map),
        b'>' => Some(Head::Push),
        b'|' => Some(Head::Attributes),
        _ => None,
    }
}

/// What begins with this byte where no more may be nested.
pub fn innermost_head(first: u8) -> Option<Head>
    ensures { (limits : Limits) (inside : List ℕ → Found Data) (bs : List ℕ) → MatchOption result
        (chosen (innermost (bounds limits)) first bs ≡ bad)
        (λ h. chosen (innermost (bounds limits)) first bs
        ≡ head_on (bounds limits) inside h (line bs)) }
{
    match first {
        b'*' => Some(Head::Value(OneLine::NoArray)),
        _ => None,
    }
}

/// What a body is, once it is whole.
pub fn part_whole(alloc: Global, part: Part, text: Bytes) -> Result<Begun, AllocError>
    ensures { IfOk result (λ b. (inside : List ℕ → Found Data) (bs : List ℕ)
        → part_as inside part text bs ≡ begun_as inside b bs) }
{
    match part {
        Part::Bulk => Ok(Begun::Whole(Value::BulkString(text))),
        Part::Error => Ok(Begun::Whole(forms::error(alloc, text.as_slice())?)),
        Part::Verbatim(format) => Ok(Begun::Whole(Value::VerbatimString { format, text })),
        Part::Kind(more) => {
            let of = Sequence::Push(PushKind::of_text(text));
            Ok(frames::sequence_of(of, Values::new(alloc), more))
        }
    }
}

/// What follows a line that is a value.
#[tactic(auto, using(crate::proofs::StageLaws::value_follows, crate::proofs::StageLaws::no_value_follows))]
fn after_value(
    alloc: Global,
    limits: Limits,
    form: OneLine,
    line: &[u8],
) -> Result<Option<Follow>, AllocError>
    requires { length line.now ≤ limits.line }
    ensures { IfOk result (λ f. Follows (bounds limits) (named.Value form) line.now f) }
{
    match forms::value_of_line(alloc, form, line)? {
        Some(value) => Ok(Some(Follow::Begun(Begun::Whole(value)))),
        None => Ok(None),
    }
}

/// What follows the length of a bulk string.
fn after_bulk(limits: Limits, line: &[u8]) -> Option<Follow>
    requires allowed { AreAllowed limits }
    requires fits { length line.now ≤ limits.line }
    ensures { Follows (bounds limits) named.Bulk line.now result }
{
    match lines::read_size(limits.bulk as u64, line) {
        None => None,
        Some(None) => Some(Follow::Begun(Begun::Whole(Value::Nil))),
        Some(Some(n)) => Some(Follow::Want(Want::Body(Part::Bulk, n))),
    }
}

/// What follows the length of an array.
fn after_array(alloc: Global, limits: Limits, line: &[u8]) -> Option<Follow>
    requires allowed { AreAllowed limits }
    requires fits { length line.now ≤ limits.line }
    ensures { Follows (bounds limits) named.Array line.now result }
{
    match lines::read_size(limits.count as u64, line) {
        None => None,
        Some(None) => Some(Follow::Begun(Begun::Whole(Value::Nil))),
        Some(Some(n)) => Some(Follow::Begun(frames::sequence_of(
            Sequence::Array,
            Values::new(alloc),
            n,
        ))),
    }
}

/// What follows the length of an error in so many bytes.
fn after_error(limits: Limits, line: &[u8]) -> Option<Follow>
    requires allowed { AreAllowed limits }
    requires fits { length line.now ≤ limits.line }
    ensures { Follows (bounds limits) named.BulkError line.now result }
{
    match lines::read_count(0, limits.bulk as u64, line) {
        None => None,
        Some(n) => Some(Follow::Want(Want::Body(Part::Error, n))),
    }
}

/// What follows the length of a text with its format.
fn after_verbatim(limits: Limits, line: &[u8]) -> Option<Follow>
    requires allowed { AreAllowed limits }
    requires fits { length line.now ≤ limits.line }
    ensures { Follows (bounds limits) named.Verbatim line.now result }
{
    match lines::read_count(4, limits.bulk as u64, line) {
        None => None,
        Some(n) => Some(Follow::Want(Want::Format(n - 4))),
    }
}

/// What follows the count of a set.
fn after_set(alloc: Global, limits: Limits, line: &[u8]) -> Option<Follow>
    requires allowed { AreAllowed limits }
    requires fits { length line.now ≤ limits.line }
    ensures { Follows (bounds limits) named.Set line.now result }
{
    match lines::read_count(0, limits.count as u64, line) {
        None => None,
        Some(n) => {
            let begun = frames::sequence_of(Sequence::Set, Values::new(alloc), n);
            Some(Follow::Begun(begun))
        }
    }
}

/// What follows the count of a map.
fn after_map(alloc: Global, limits: Limits, line: &[u8]) -> Option<Follow>
    requires allowed { AreAllowed limits }
    requires fits { length line.now ≤ limits.line }
    ensures { Follows (bounds limits) named.Map line.now result }
{
    match lines::read_count(0, limits.count as u64, line) {
        None => None,
        Some(n) => {
            let begun = frames::pairing_of(Pairing::Map, Pairs::new(alloc), n);
            Some(Follow::Begun(begun))
        }
    }
}

/// What follows the count of attributes.
fn after_attributes(alloc: Global, limits: Limits, line: &[u8]) -> Option<Follow>
    requires allowed { AreAllowed limits }
    requires fits { length line.now ≤ limits.line }
    ensures { Follows (bounds limits) named.Attributes line.now result }
{
    match lines::read_count(0, limits.count as u64, line) {
        None => None,
        Some(n) => {
            let begun = frames::pairing_of(Pairing::Attributes, Pairs::new(alloc), n);
            Some(Follow::Begun(begun))
        }
    }
}

/// What follows the count of a push.
fn after_push(limits: Limits, line: &[u8]) -> Option<Follow>
    requires allowed { AreAllowed limits }
    requires fits { length line.now ≤ limits.line }
    ensures { Follows (bounds limits) named.Push line.now result }
{
    match lines::read_count(1, limits.count as u64, line) {
        None => None,
        Some(n) => Some(Follow::Want(Want::Kind(n - 1))),
    }
}

/// What follows the kind of a push that has so many values behind it.
fn after_kind(
    alloc: Global,
    limits: Limits,
    more: u64,
    line: &[u8],
) -> Result<Option<Follow>, AllocError>
    requires { length line.now ≤ limits.line }
    ensures { IfOk result (λ f. Follows (bounds limits) (named.Kind more) line.now f) }
{
    let text = Bytes::from_slice(alloc, line)?;
    let begun = part_whole(alloc, Part::Kind(more), text)?;
    Ok(Some(Follow::Begun(begun)))
}

/// What follows the length of such a kind.
fn after_kind_length(limits: Limits, more: u64, line: &[u8]) -> Option<Follow>
    requires allowed { AreAllowed limits }
    requires fits { length line.now ≤ limits.line }
    ensures { Follows (bounds limits) (named.KindLength more) line.now result }
{
    match lines::read_count(0, limits.bulk as u64, line) {
        None => None,
        Some(n) => Some(Follow::Want(Want::Body(Part::Kind(more), n))),
    }
}

/// What follows a whole line of this head, or none where the line is none.
pub fn after_line(
    alloc: Global,
    limits: Limits,
    head: Head,
    line: &[u8],
) -> Result<Option<Follow>, AllocError>
    requires allowed { AreAllowed limits }
    requires fits { length line.now ≤ limits.line }
    ensures { IfOk result (λ f. Follows (bounds limits) head line.now f) }
{
    match head {
        Head::Value(form) => after_value(alloc, limits, form, line),
        Head::Bulk => Ok(after_bulk(limits, line)),
        Head::BulkError => Ok(after_error(limits, line)),
        Head::Verbatim => Ok(after_verbatim(limits, line)),
        Head::Array => Ok(after_array(alloc, limits, line)),
        Head::Set => Ok(after_set(alloc, limits, line)),
        Head::Map => Ok(after_map(alloc, limits, line)),
        Head::Push => Ok(after_push(limits, line)),
        Head::Attributes => Ok(after_attributes(alloc, limits, line)),
        Head::Kind(more) => after_kind(alloc, limits, more, line),
        Head::KindLength(more) => Ok(after_kind_length(limits, more, line)),
    }
}
