ghost use Rattle.std.specs.Prelude.{◌≡◌, ◌≤◌, ◌<◌, ◌+◌, ◌*◌, length};
ghost use Rattle.std.specs.Option.{SomeIff};
ghost use Rattle.std.specs.Str.{is_utf8};
ghost use Rattle.slot_hash.specs.Address.{bare, end_of_last, port_of};

use std::str;

/// Whether some bytes are UTF-8.
#[tactic(auto, using(crate::proofs::Text::utf8_true, crate::proofs::Text::utf8_false))]
pub fn is_text(bytes: &[u8]) -> bool
    ensures { result ≡ is_utf8 bytes.now }
{
    match str::from_utf8(bytes) {
        Ok(_) => true,
        Err(_) => false,
    }
}

/// How many bytes stand up to the last occurrence of a byte, with it; 0 where it has none.
#[tactic(auto, using(crate::proofs::Text::one_more))]
pub fn end_of_last(bytes: &[u8], wanted: u8) -> usize
    ensures is { result ≡ end_of_last wanted bytes.now }
    ensures bound { result ≤ length bytes.now }
{
    let mut end = 0;
    for (i, byte) in bytes.iter().enumerate() {
        if *byte == wanted {
            end = i + 1;
        }
    }
    end
}

/// A host without the brackets round it, if it has them.
pub fn bare(host: &[u8]) -> &[u8]
    ensures { result.now ≡ bare host.now }
{
    let length = host.len();
    if length >= 2 && host[0] == b'[' && host[length - 1] == b']' {
        return &host[1..length - 1];
    }
    host
}

/// A number with one more digit, if it is one of 16 bits.
fn with_digit(n: u16, digit: u16) -> Option<u16>
    requires { digit < 10 }
    ensures { SomeIff result (10 * n + digit ≤ 65_535) (10 * n + digit) }
{
    let more = 10 * u32::from(n) + u32::from(digit);
    if more <= 65_535 {
        Some(more as u16)
    } else {
        None
    }
}

/// The port that some digits are.
pub fn port(digits: &[u8]) -> Option<u16>
    ensures { result ≡ port_of digits.now }
{
    if digits.is_empty() {
        return None;
    }
    let mut n = 0u16;
    for byte in digits {
        if !byte.is_ascii_digit() {
            return None;
        }
        n = with_digit(n, u16::from(*byte - b'0'))?;
    }
    Some(n)
}
