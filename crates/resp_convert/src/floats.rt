ghost use Rattle.std.specs.Prelude.{◌≡◌, MatchOption, None, Some};
ghost use Rattle.std.specs.Float.{binary64};
ghost use Rattle.std.specs.Float.Parse.{parse_float};
ghost use Rattle.resp_convert.specs.Convert.{IsOfType};
ghost use Rattle.resp_convert.specs.Types.{IsFloat, bare};

use crate::convert::{FromRedisValue, Look};
use crate::parts;
use resp_value::Value;
use std::alloc::{AllocError, Global};
use std::num::nearest_i64_to_f64;

/// The float that a text writes.
fn float(text: &[u8]) -> Option<f64>
    ensures { MatchOption result
        (parse_float binary64 text.now ≡ None)
        (λ x. parse_float binary64 text.now ≡ Some x) }
{
    fast_float::parse(text).ok()
}

/// A double, an integer, or a text that is a number: the float that is nearest to it. `inf`, `-inf` and `nan` are floats,
/// in either case.
impl FromRedisValue for f64 {
    ghost reads = { λ d x. IsFloat (bare d) x };

    ghost fits = { IsOfType (λ d x. IsFloat (bare d) x) };

    ghost moves = { λ _. ⊥ };

    fn read_value(_alloc: Global, value: &Value) -> Result<Option<f64>, AllocError> {
        match parts::bare(value) {
            Value::Int(number) => Ok(Some(nearest_i64_to_f64(*number))),
            Value::Double(text) => Ok(float(text.as_slice())),
            Value::BulkString(text) => Ok(float(text.as_slice())),
            Value::SimpleString(text) => Ok(float(text.as_slice())),
            Value::VerbatimString { format: _, text } => Ok(float(text.as_slice())),
            _ => Ok(None),
        }
    }

    fn look(_value: &Value) -> Look {
        Look::Untold
    }
}
