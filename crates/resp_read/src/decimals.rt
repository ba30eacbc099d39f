ghost use Rattle.std.specs.Prelude.{◌≡◌, ℕ, List, length};
ghost use Rattle.resp_read.specs.Grammar.{is_big, is_double};
ghost use Rattle.resp_read.specs.Parser.{made_by, double_tails};
ghost use Rattle.resp_read.specs.Limits.{bounds};
ghost use Rattle.resp_read.specs.Doubles.{digit_to, byte_to, exponent_to, step, run, missing};
ghost use Rattle.resp_read.specs.declared.decimals.Seen.TheVariants.{Nothing, Whole, Fraction, Exponent};

use crate::digits::{Digits, is_decimal};
use crate::limits::Limits;

/// Digits, with a sign or without.
pub fn is_big_number(line: &[u8]) -> bool
    ensures { result ≡ is_big line.now }
{
    let read = Digits::Empty.through(line);
    read.are_some()
}

/// What has been read of a double.
#[derive(Clone, Copy)]
pub enum Seen {
    Nothing,
    Minus,
    Plus,
    I,
    In,
    Inf,
    N,
    Na,
    Nan,
    Whole,
    Point,
    Fraction,
    Exponent,
    Sign,
    Power,
    /// No double begins so.
    Never,
}

fn on_digit(seen: Seen, b: u8) -> Seen
    ensures { result ≡ digit_to seen b }
{
    if is_decimal(b) { seen } else { Seen::Never }
}

fn on_exponent(b: u8) -> Seen
    ensures { result ≡ exponent_to b }
{
    match b {
        b'e' => Seen::Exponent,
        b'E' => Seen::Exponent,
        _ => Seen::Never,
    }
}

fn after_nothing(b: u8) -> Seen
    ensures { result ≡ step Nothing b }
{
    match b {
        b'-' => Seen::Minus,
        b'+' => Seen::Plus,
        b'i' => Seen::I,
        b'n' => Seen::N,
        _ => on_digit(Seen::Whole, b),
    }
}

fn after_exponent(b: u8) -> Seen
    ensures { result ≡ step Exponent b }
{
    match b {
        b'+' => Seen::Sign,
        b'-' => Seen::Sign,
        _ => on_digit(Seen::Power, b),
    }
}

fn after_whole(b: u8) -> Seen
    ensures { result ≡ step Whole b }
{
    if is_decimal(b) {
        return Seen::Whole;
    }
    if b == b'.' {
        return Seen::Point;
    }
    on_exponent(b)
}

fn after_fraction(b: u8) -> Seen
    ensures { result ≡ step Fraction b }
{
    if is_decimal(b) {
        return Seen::Fraction;
    }
    on_exponent(b)
}

/// This byte, or none.
fn on_byte(seen: Seen, want: u8, b: u8) -> Seen
    ensures { result ≡ byte_to seen want b }
{
    if b == want { seen } else { Seen::Never }
}

fn then_byte(seen: Seen, b: u8) -> Seen
    ensures { result ≡ step seen b }
{
    match seen {
        Seen::Nothing => after_nothing(b),
        Seen::Minus => if b == b'i' {
            Seen::I
        } else {
            on_digit(Seen::Whole, b)
        },
        Seen::Plus => on_digit(Seen::Whole, b),
        Seen::I => on_byte(Seen::In, b'n', b),
        Seen::In => on_byte(Seen::Inf, b'f', b),
        Seen::Inf => Seen::Never,
        Seen::N => on_byte(Seen::Na, b'a', b),
        Seen::Na => on_byte(Seen::Nan, b'n', b),
        Seen::Nan => Seen::Never,
        Seen::Whole => after_whole(b),
        Seen::Point => on_digit(Seen::Fraction, b),
        Seen::Fraction => after_fraction(b),
        Seen::Exponent => after_exponent(b),
        Seen::Sign => on_digit(Seen::Power, b),
        Seen::Power => on_digit(Seen::Power, b),
        Seen::Never => Seen::Never,
    }
}

/// What was read of a double, with these bytes more.
pub fn read_through(before: Seen, bytes: &[u8]) -> Seen
    ensures { result ≡ run before bytes.now }
{
    let mut seen = before;
    for b in bytes {
        seen = then_byte(seen, *b);
    }
    seen
}

fn read_all(line: &[u8]) -> Seen
    ensures { result ≡ run Nothing line.now }
{
    read_through(Seen::Nothing, line)
}

/// How many bytes are missing until the double is whole, if any can make it so.
fn bytes_missing(seen: Seen) -> Option<usize>
    ensures { result ≡ missing seen }
{
    match seen {
        Seen::Nothing => Some(1),
        Seen::Minus => Some(1),
        Seen::Plus => Some(1),
        Seen::I => Some(2),
        Seen::In => Some(1),
        Seen::Inf => Some(0),
        Seen::N => Some(2),
        Seen::Na => Some(1),
        Seen::Nan => Some(0),
        Seen::Whole => Some(0),
        Seen::Point => Some(1),
        Seen::Fraction => Some(0),
        Seen::Exponent => Some(1),
        Seen::Sign => Some(1),
        Seen::Power => Some(0),
        Seen::Never => None,
    }
}

pub fn is_whole_double(line: &[u8]) -> bool
    ensures { result ≡ is_double line.now }
{
    match bytes_missing(read_all(line)) {
        Some(n) => n == 0,
        None => false,
    }
}

/// Whether a line of that length, of which this was read, can become a double within the limit of a line.
pub fn can_be_double(limits: Limits, seen: Seen, size: usize) -> bool
    ensures { (front : List ℕ) → run Nothing front ≡ seen → length front ≡ size
        → result ≡ made_by (bounds limits) is_double double_tails front }
{
    match bytes_missing(seen) {
        Some(n) => {
            if size > limits.line {
                return false;
            }
            n <= limits.line - size
        }
        None => false,
    }
}
