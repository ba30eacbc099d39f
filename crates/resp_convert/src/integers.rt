ghost use Rattle.std.specs.Prelude.{◌<◌, ◌^◌, ℕ, ℤ, MatchOption};
ghost use mir.Syntax.{w8, w16, w32, w64};
ghost use mir.Val.{SFits};
ghost use Rattle.resp_value.specs.View.{data_of};
ghost use Rattle.resp_convert.specs.Convert.{IsOfType};
ghost use Rattle.resp_convert.specs.Types.{IsCount, IsDecimal, IsInteger, IsNatural, IsNumber, IsPlainDecimal};

use crate::convert::{FromRedisValue, Look};
use crate::parts::bare;
use resp_value::Value;
use std::alloc::{AllocError, Global};

/// The number that a text is in decimal, with a plus or without.
fn plain_decimal(text: &[u8]) -> Option<u64>
    ensures { MatchOption result
        ((n : ℕ) → n < 2 ^ 64 → IsPlainDecimal text.now n → ⊥)
        (λ n. IsPlainDecimal text.now n) }
{
    fast_float::parse_u64(text).ok()
}

/// The number of 64 bits without a sign that a value is, if it is one.
fn count(value: &Value) -> Option<u64>
    ensures { MatchOption result
        ((n : ℕ) → n < 2 ^ 64 → IsCount (data_of value.now) n → ⊥)
        (λ n. IsCount (data_of value.now) n) }
{
    match value {
        Value::Int(number) => u64::try_from(*number).ok(),
        Value::BulkString(text) => plain_decimal(text.as_slice()),
        Value::SimpleString(text) => plain_decimal(text.as_slice()),
        Value::VerbatimString { format: _, text } => plain_decimal(text.as_slice()),
        _ => None,
    }
}

/// The number that a text is in decimal, with a sign or without.
fn decimal(text: &[u8]) -> Option<i64>
    ensures { MatchOption result
        ((n : ℤ) → SFits w64 n → IsDecimal text.now n → ⊥)
        (λ n. IsDecimal text.now n) }
{
    fast_float::parse_i64(text).ok()
}

/// The number of 64 bits that a value is, if it is one.
fn number(value: &Value) -> Option<i64>
    ensures { MatchOption result
        ((n : ℤ) → SFits w64 n → IsNumber (data_of value.now) n → ⊥)
        (λ n. IsNumber (data_of value.now) n) }
{
    match value {
        Value::Int(number) => Some(*number),
        Value::BulkString(text) => decimal(text.as_slice()),
        Value::SimpleString(text) => decimal(text.as_slice()),
        Value::VerbatimString { format: _, text } => decimal(text.as_slice()),
        _ => None,
    }
}

/// A number of 8 bits, or a text that is one in decimal.
impl FromRedisValue for i8 {
    ghost reads = { IsInteger w8 };

    ghost fits = { IsOfType (IsInteger w8) };

    ghost moves = { λ _. ⊥ };

    fn read_value(_alloc: Global, value: &Value) -> Result<Option<i8>, AllocError> {
        match number(bare(value)) {
            Some(number) => Ok(i8::try_from(number).ok()),
            None => Ok(None),
        }
    }

    fn look(_value: &Value) -> Look {
        Look::Untold
    }
}

/// A number of 16 bits, or a text that is one in decimal.
impl FromRedisValue for i16 {
    ghost reads = { IsInteger w16 };

    ghost fits = { IsOfType (IsInteger w16) };

    ghost moves = { λ _. ⊥ };

    fn read_value(_alloc: Global, value: &Value) -> Result<Option<i16>, AllocError> {
        match number(bare(value)) {
            Some(number) => Ok(i16::try_from(number).ok()),
            None => Ok(None),
        }
    }

    fn look(_value: &Value) -> Look {
        Look::Untold
    }
}

/// A number of 32 bits, or a text that is one in decimal.
impl FromRedisValue for i32 {
    ghost reads = { IsInteger w32 };

    ghost fits = { IsOfType (IsInteger w32) };

    ghost moves = { λ _. ⊥ };

    fn read_value(_alloc: Global, value: &Value) -> Result<Option<i32>, AllocError> {
        match number(bare(value)) {
            Some(number) => Ok(i32::try_from(number).ok()),
            None => Ok(None),
        }
    }

    fn look(_value: &Value) -> Look {
        Look::Untold
    }
}

/// A number of 64 bits, or a text that is one in decimal.
impl FromRedisValue for i64 {
    ghost reads = { IsInteger w64 };

    ghost fits = { IsOfType (IsInteger w64) };

    ghost moves = { λ _. ⊥ };

    fn read_value(_alloc: Global, value: &Value) -> Result<Option<i64>, AllocError> {
        Ok(number(bare(value)))
    }

    fn look(_value: &Value) -> Look {
        Look::Untold
    }
}

/// A number of 64 bits, or a text that is one in decimal.
impl FromRedisValue for isize {
    ghost reads = { IsInteger w64 };

    ghost fits = { IsOfType (IsInteger w64) };

    ghost moves = { λ _. ⊥ };

    fn read_value(_alloc: Global, value: &Value) -> Result<Option<isize>, AllocError> {
        match number(bare(value)) {
            Some(number) => Ok(isize::try_from(number).ok()),
            None => Ok(None),
        }
    }

    fn look(_value: &Value) -> Look {
        Look::Untold
    }
}

/// A number of 8 bits that is not below 0, or a text that is one in decimal.
impl FromRedisValue for u8 {
    ghost reads = { IsNatural 8 };

    ghost fits = { IsOfType (IsNatural 8) };

    ghost moves = { λ _. ⊥ };

    fn read_value(_alloc: Global, value: &Value) -> Result<Option<u8>, AllocError> {
        match count(bare(value)) {
            Some(number) => Ok(u8::try_from(number).ok()),
            None => Ok(None),
        }
    }

    fn look(_value: &Value) -> Look {
        Look::Untold
    }
}

/// A number of 16 bits that is not below 0, or a text that is one in decimal.
impl FromRedisValue for u16 {
    ghost reads = { IsNatural 16 };

    ghost fits = { IsOfType (IsNatural 16) };

    ghost moves = { λ _. ⊥ };

    fn read_value(_alloc: Global, value: &Value) -> Result<Option<u16>, AllocError> {
        match count(bare(value)) {
            Some(number) => Ok(u16::try_from(number).ok()),
            None => Ok(None),
        }
    }

    fn look(_value: &Value) -> Look {
        Look::Untold
    }
}

/// A number of 32 bits that is not below 0, or a text that is one in decimal.
impl FromRedisValue for u32 {
    ghost reads = { IsNatural 32 };

    ghost fits = { IsOfType (IsNatural 32) };

    ghost moves = { λ _. ⊥ };

    fn read_value(_alloc: Global, value: &Value) -> Result<Option<u32>, AllocError> {
        match count(bare(value)) {
            Some(number) => Ok(u32::try_from(number).ok()),
            None => Ok(None),
        }
    }

    fn look(_value: &Value) -> Look {
        Look::Untold
    }
}

/// A number of 64 bits that is not below 0, or a text that is one in decimal.
impl FromRedisValue for u64 {
    ghost reads = { IsNatural 64 };

    ghost fits = { IsOfType (IsNatural 64) };

    ghost moves = { λ _. ⊥ };

    fn read_value(_alloc: Global, value: &Value) -> Result<Option<u64>, AllocError> {
        Ok(count(bare(value)))
    }

    fn look(_value: &Value) -> Look {
        Look::Untold
    }
}

/// A number of 64 bits that is not below 0, or a text that is one in decimal.
impl FromRedisValue for usize {
    ghost reads = { IsNatural 64 };

    ghost fits = { IsOfType (IsNatural 64) };

    ghost moves = { λ _. ⊥ };

    fn read_value(_alloc: Global, value: &Value) -> Result<Option<usize>, AllocError> {
        match count(bare(value)) {
            Some(number) => Ok(usize::try_from(number).ok()),
            None => Ok(None),
        }
    }

    fn look(_value: &Value) -> Look {
        Look::Untold
    }
}
