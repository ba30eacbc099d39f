ghost use Rattle.std.specs.Prelude.{◌≡◌, ◌≤◌, ◌<◌, ◌+◌, ◌*◌, IfSome};
ghost use Rattle.std.specs.Option.{SomeIff};
ghost use Rattle.script_text.specs.Numbers.{number, max_u32, max_u64, time_limit, fraction, switch};

use crate::words::cut;

/// A number with one more digit, if it is one of at most that.
fn with_digit(n: u64, digit: u64, most: u64) -> Option<u64>
    requires { digit < 10 }
    ensures { SomeIff result (10 * n + digit ≤ most) (10 * n + digit) }
{
    if n <= most / 10 && digit <= most - 10 * n {
        Some(10 * n + digit)
    } else {
        None
    }
}

/// The number that a word is, if it is one of at most that.
fn number_within(word: &[u8], most: u64) -> Option<u64>
    ensures is { result ≡ number most word.now }
    ensures fits { IfSome result (λ n. n ≤ most) }
{
    let [first, rest @ ..] = word else {
        return None;
    };
    if *first == b'0' && !rest.is_empty() {
        return None;
    }
    let mut n = 0u64;
    for byte in word {
        if !byte.is_ascii_digit() {
            return None;
        }
        n = with_digit(n, u64::from(*byte - b'0'), most)?;
    }
    Some(n)
}

/// The number that a word is, of at most 32 bits.
pub fn number_u32(word: &[u8]) -> Option<u32>
    ensures { result ≡ number max_u32 word.now }
{
    let n = number_within(word, u64::from(u32::MAX))?;
    Some(n as u32)
}

/// The number that a word is, of at most 64 bits.
pub fn number_u64(word: &[u8]) -> Option<u64>
    ensures { result ≡ number max_u64 word.now }
{
    number_within(word, u64::MAX)
}

/// How long something may take: so many milliseconds, or `Some(None)`, any number.
pub fn time_limit(value: &[u8]) -> Option<Option<u64>>
    ensures { result ≡ time_limit value.now }
{
    if value == b"none".as_slice() {
        return Some(None);
    }
    let ms = number_u64(value)?;
    Some(Some(ms))
}

/// The fraction that a value is: a numerator and a denominator.
pub fn fraction(value: &[u8]) -> Option<(u32, u32)>
    ensures { result ≡ fraction value.now }
{
    let (above, below) = cut(value, b'/')?;
    let numerator = number_u32(above)?;
    let denominator = number_u32(below)?;
    Some((numerator, denominator))
}

/// Whether something is on, where the value is `on` or `off`.
pub fn switch(value: &[u8]) -> Option<bool>
    ensures { result ≡ switch value.now }
{
    if value == b"on".as_slice() {
        return Some(true);
    }
    if value == b"off".as_slice() {
        return Some(false);
    }
    None
}
