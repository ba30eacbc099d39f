ghost use Rattle.std.specs.Prelude.{◌≡◌, ◌≤◌, ◌||◌, [], ◌∷◌, length, is_some, Some, IfSome, bytes_eq};
ghost use Rattle.resp_read.specs.Grammar.{fits, natural, number, size, count, truth, is_end};
ghost use Rattle.resp_read.specs.Parser.{line, size_begun, no_array_begun};
ghost use Rattle.resp_read.specs.Limits.{bounds};
ghost use Rattle.resp_read.specs.Digits.{greatest};

use crate::digits::Digits;
use crate::limits::Limits;

pub fn is_within(limits: Limits, line: &[u8]) -> bool
    ensures { result ≡ fits (bounds limits) line.now }
{
    line.len() <= limits.line
}

/// The number of these decimal digits, one at least, if it is at most `most`.
fn read_natural(most: u64, digits: &[u8]) -> Option<u64>
    requires { most ≤ greatest }
    ensures is { result ≡ natural (Some most) digits.now }
    ensures fits { IfSome result (λ n. n ≤ most) }
{
    let read = Digits::Empty.through(digits);
    read.natural(most)
}

/// A number of 64 bits, with a sign or without.
pub fn read_number(line: &[u8]) -> Option<i64>
    ensures { result ≡ number line.now }
{
    let read = Digits::Empty.through(line);
    read.number()
}

/// A length that is at most `most`, or none for `-1`.
pub fn read_size(most: u64, line: &[u8]) -> Option<Option<u64>>
    requires { most ≤ greatest }
    ensures is { result ≡ size (Some most) line.now }
    ensures fits { IfSome result (λ s. IfSome s (λ n. n ≤ most)) }
{
    if line == b"-1".as_slice() {
        return Some(None);
    }
    match read_natural(most, line) {
        Some(n) => Some(Some(n)),
        None => None,
    }
}

/// Whether a line that starts so can become such a length.
pub fn is_size_begun(most: u64, front: &[u8]) -> bool
    requires { most ≤ greatest }
    ensures { result ≡ size_begun (Some most) front.now }
{
    match front {
        [] => true,
        [b'-'] => true,
        _ => read_size(most, front).is_some(),
    }
}

/// A length between these two.
pub fn read_count(least: u64, most: u64, line: &[u8]) -> Option<u64>
    requires { most ≤ greatest }
    ensures is { result ≡ count least (Some most) line.now }
    ensures fits { IfSome result (λ n. n ≤ most) }
    ensures enough { IfSome result (λ n. least ≤ n) }
{
    match read_natural(most, line) {
        Some(n) => {
            if n < least {
                return None;
            }
            Some(n)
        }
        None => None,
    }
}

/// `t` or `f`.
pub fn read_truth(line: &[u8]) -> Option<bool>
    ensures { result ≡ truth line.now }
{
    if line == b"t".as_slice() {
        return Some(true);
    }
    if line == b"f".as_slice() {
        return Some(false);
    }
    None
}

/// Nothing, or `t` or `f`.
pub fn is_truth_begun(front: &[u8]) -> bool
    ensures { result ≡ (is_end front.now || is_some (truth front.now)) }
{
    if front.is_empty() {
        return true;
    }
    read_truth(front).is_some()
}

/// Whether a line that starts so can become `-1`.
pub fn is_no_array_begun(front: &[u8]) -> bool
    ensures { result ≡ no_array_begun front.now }
{
    match front {
        [] => true,
        [b'-'] => true,
        _ => is_no_array(front),
    }
}

/// `-1`.
pub fn is_no_array(line: &[u8]) -> bool
    ensures { result ≡ bytes_eq line.now (45 ∷ 49 ∷ []) }
{
    line == b"-1".as_slice()
}
