ghost use Rattle.std.specs.Prelude.{◌≡◌, ◌≤◌, ◌*◌, ℕ, List, length, Some};
ghost use Rattle.resp_read.specs.Parser.{line, size_begun, count_begun};
ghost use Rattle.resp_read.specs.Limits.{bounds, AreAllowed};
ghost use Rattle.resp_read.specs.Parts.{line_form};
ghost use Rattle.resp_read.specs.Stages.{GoesOn};
ghost use Rattle.resp_read.specs.Digits.{greatest, digits_run, AreKept};
ghost use Rattle.resp_read.specs.Doubles.{run};
ghost use Rattle.resp_read.specs.Waiting.{IsLooked, IsJudged};
ghost use Rattle.resp_read.specs.declared.digits.Digits.TheVariants.{Empty};
ghost use Rattle.resp_read.specs.declared.decimals.Seen.TheVariants.{Nothing};

use crate::decimals::Seen;
use crate::digits::Digits;
use crate::forms::OneLine;
use crate::limits::Limits;
use crate::stages::Head;
use crate::{decimals, lines};

/// What was read of a line that has not ended.
#[derive(Clone, Copy)]
pub enum Front {
    /// Bytes of no importance.
    Text,
    Numeral(Digits),
    Double(Seen),
}

/// How many bytes of a line that has not ended were looked at, and what was read of them.
#[derive(Clone, Copy)]
pub struct Looked {
    pub count: usize,
    pub front: Front,
}

impl Looked {
    /// The digits of the whole line.
    fn digits(self, text: &[u8]) -> Digits
        requires { IsLooked self text.now }
        ensures run { result ≡ digits_run Empty text.now }
        ensures kept { AreKept result }
    {
        match self.front {
            Front::Numeral(digits) => digits.through(&text[self.count..]),
            Front::Text => Digits::Empty.through(text),
            Front::Double(_) => Digits::Empty.through(text),
        }
    }

    /// The double of the whole line.
    fn double(self, text: &[u8]) -> Seen
        requires { IsLooked self text.now }
        ensures { result ≡ run Nothing text.now }
    {
        match self.front {
            Front::Double(seen) => decimals::read_through(seen, &text[self.count..]),
            Front::Text => decimals::read_through(Seen::Nothing, text),
            Front::Numeral(_) => decimals::read_through(Seen::Nothing, text),
        }
    }
}

/// Whether a line with these digits can become a length that is at most `most`, or `-1`.
fn can_be_size(most: u64, read: Digits, text: &[u8]) -> bool
    requires most { most ≤ greatest }
    requires read { read ≡ digits_run Empty text.now }
    ensures { result ≡ size_begun (Some most) text.now }
{
    if text.len() <= 2 {
        return lines::is_size_begun(most, text);
    }
    read.natural(most).is_some()
}

/// Whether a line with these digits can become a length between these two, within the limit of a line.
fn can_be_count(limits: Limits, least: u64, most: u64, read: Digits, text: &[u8]) -> bool
    requires allowed { AreAllowed limits }
    requires most { most ≤ greatest }
    requires digit { least ≤ 9 }
    requires room { 11 * least ≤ most }
    requires read { read ≡ digits_run Empty text.now }
    ensures { result ≡ count_begun (bounds limits) least (Some most) text.now }
{
    if text.is_empty() {
        return true;
    }
    match read.natural(most) {
        Some(n) => {
            if n < least {
                return text.len() < limits.line;
            }
            lines::is_within(limits, text)
        }
        None => false,
    }
}

fn text_if(can_be: bool) -> Option<Front>
    ensures { (l : List ℕ) → IsJudged can_be l result }
{
    if can_be { Some(Front::Text) } else { None }
}

/// What is read of a line that can become a value of this form.
fn front_of_value(limits: Limits, form: OneLine, looked: Looked, text: &[u8]) -> Option<Front>
    requires { IsLooked looked text.now }
    ensures { IsJudged ((line_form (bounds limits) form).begun text.now) text.now result }
{
    match form {
        OneLine::Simple => Some(Front::Text),
        OneLine::Error => Some(Front::Text),
        OneLine::Number => {
            let digits = looked.digits(text);
            if digits.can_be_number() {
                Some(Front::Numeral(digits))
            } else {
                None
            }
        }
        OneLine::Null => text_if(text.is_empty()),
        OneLine::Boolean => text_if(lines::is_truth_begun(text)),
        OneLine::Double => {
            let seen = looked.double(text);
            if decimals::can_be_double(limits, seen, text.len()) {
                Some(Front::Double(seen))
            } else {
                None
            }
        }
        OneLine::Big => {
            let digits = looked.digits(text);
            if digits.can_be_some() {
                Some(Front::Numeral(digits))
            } else {
                None
            }
        }
        OneLine::NoArray => text_if(lines::is_no_array_begun(text)),
    }
}

/// What is read of a line that can become a length that is at most `most`, or `-1`.
fn front_of_size(most: u64, looked: Looked, text: &[u8]) -> Option<Front>
    requires most { most ≤ greatest }
    requires looked { IsLooked looked text.now }
    ensures { IsJudged (size_begun (Some most) text.now) text.now result }
{
    let digits = looked.digits(text);
    if can_be_size(most, digits, text) {
        Some(Front::Numeral(digits))
    } else {
        None
    }
}

/// What is read of a line that can become a length between these two, within the limit of a line.
fn front_of_count(
    limits: Limits,
    least: u64,
    most: u64,
    looked: Looked,
    text: &[u8],
) -> Option<Front>
    requires allowed { AreAllowed limits }
    requires most { most ≤ greatest }
    requires digit { least ≤ 9 }
    requires room { 11 * least ≤ most }
    requires looked { IsLooked looked text.now }
    ensures { IsJudged (count_begun (bounds limits) least (Some most) text.now) text.now result }
{
    let digits = looked.digits(text);
    if can_be_count(limits, least, most, digits, text) {
        Some(Front::Numeral(digits))
    } else {
        None
    }
}

/// What is read of a line that has not ended, where it can become a line of this head.
#[tactic(auto, using(crate::proofs::HeadLaws::value_goes_on))]
pub fn front_of_head(limits: Limits, head: Head, looked: Looked, text: &[u8]) -> Option<Front>
    requires allowed { AreAllowed limits }
    requires looked { IsLooked looked text.now }
    requires fits { length text.now ≤ limits.line }
    ensures { GoesOn (bounds limits) head text.now result }
{
    let bulk = limits.bulk as u64;
    let count = limits.count as u64;
    match head {
        Head::Value(form) => front_of_value(limits, form, looked, text),
        Head::Bulk => front_of_size(bulk, looked, text),
        Head::BulkError => front_of_count(limits, 0, bulk, looked, text),
        Head::Verbatim => front_of_count(limits, 4, bulk, looked, text),
        Head::Array => front_of_size(count, looked, text),
        Head::Set => front_of_count(limits, 0, count, looked, text),
        Head::Map => front_of_count(limits, 0, count, looked, text),
        Head::Push => front_of_count(limits, 1, count, looked, text),
        Head::Attributes => front_of_count(limits, 0, count, looked, text),
        Head::Kind(_) => Some(Front::Text),
        Head::KindLength(_) => front_of_count(limits, 0, bulk, looked, text),
    }
}
