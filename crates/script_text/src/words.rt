ghost use Rattle.std.specs.Prelude.{◌≡◌, ◌+◌, ◌≤◌, ◌∷◌, false, length, MatchOption, Some, None, IfSome, IfOk, if◌then◌else◌};
ghost use Rattle.percent_encoding.specs.Percent.{percent_decode};
ghost use Rattle.script_text.specs.Words.{cut_at, is_well_escaped, begins_with_hex, unescaped};

use crate::word::Word;
use containers::Bytes;
use memchr::memchr;
use std::alloc::{AllocError, Global};

/// What stands before the first byte `at`, and what stands behind it.
pub fn cut(text: &[u8], at: u8) -> Option<(&[u8], &[u8])>
    ensures parts { MatchOption result (cut_at at text.now ≡ None)
        (λ c. cut_at at text.now ≡ Some (c.0.now, c.1.now)) }
    ensures lengths { IfSome result (λ c. length c.0.now + length c.1.now + 1 ≡ length text.now) }
{
    let place = memchr(at, text)?;
    Some((&text[..place], &text[place + 1..]))
}

/// Whether two hexadecimal digits stand in front.
fn has_hex_in_front(text: &[u8]) -> bool
    ensures { result ≡ begins_with_hex text.now }
{
    match text {
        [high, low, ..] => high.is_ascii_hexdigit() && low.is_ascii_hexdigit(),
        _ => false,
    }
}

/// Whether two hexadecimal digits stand behind each `%`.
pub fn is_escaped_well(raw: &[u8]) -> bool
    ensures { result ≡ is_well_escaped raw.now }
{
    for (i, b) in raw.iter().enumerate() {
        if *b == b'%' && !has_hex_in_front(&raw[i + 1..]) {
            return false;
        }
    }
    true
}

/// The byte that two hexadecimal digits in front are, and what stands behind them.
fn byte_in_front(text: &[u8]) -> Option<(u8, &[u8])>
    ensures read { MatchOption result (is_well_escaped (37 ∷ text.now) ≡ false)
        (λ b. (is_well_escaped (37 ∷ text.now) ≡ is_well_escaped b.1.now)
        × (percent_decode (37 ∷ text.now) ≡ b.0 ∷ percent_decode b.1.now)) }
    ensures less { IfSome result (λ b. length b.1.now ≤ length text.now) }
{
    let [high, low, rest @ ..] = text else {
        return None;
    };
    let high = char::from(*high).to_digit(16)?;
    let low = char::from(*low).to_digit(16)?;
    Some((high as u8 * 16 + low as u8, rest))
}

/// What a text of plain bytes and escapes stands for, if each escape is written well.
fn decoded(alloc: Global, raw: &[u8]) -> Result<Option<Bytes>, AllocError>
    ensures { IfOk result (λ w.
        w ≡ (if is_well_escaped raw.now then Some (percent_decode raw.now) else None)) }
{
    let mut bytes = Vec::with_capacity(alloc, raw.len())?;
    let mut left = raw;
    while let Some((run, behind)) = cut(left, b'%') {
        let Some((byte, rest)) = byte_in_front(behind) else {
            return Ok(None);
        };
        bytes.extend_from_slice(run)?;
        bytes.push(byte)?;
        left = rest;
    }
    bytes.extend_from_slice(left)?;
    Ok(Some(Bytes::from_vec(bytes)))
}

/// The word that a part between spaces is. Takes no memory where no byte is escaped.
#[tactic(auto, unfolding(crate::specs::Words::unescaped))]
pub fn word<'a>(alloc: Global, raw: &'a [u8]) -> Result<Option<Word<'a>>, AllocError>
    ensures { IfOk result (λ word. word ≡ unescaped raw.now) }
{
    if raw.is_empty() {
        return Ok(None);
    }
    if raw == b"%-".as_slice() {
        return Ok(Some(Word::plain(b"")));
    }
    let Some(_) = cut(raw, b'%') else {
        return Ok(Some(Word::plain(raw)));
    };
    match decoded(alloc, raw)? {
        Some(bytes) => Ok(Some(Word::unescaped(bytes))),
        None => Ok(None),
    }
}
