ghost use Rattle.std.specs.Prelude.{◌≡◌, IfOk};
ghost use Rattle.resp_value.specs.View.{data_of};
ghost use Rattle.resp_convert.specs.Convert.{IsOfType};
ghost use Rattle.resp_convert.specs.Types.{IsDone, IsTruth, bare};

use crate::convert::{FromRedisValue, Look};
use crate::parts;
use resp_value::{Value, Values};
use std::alloc::{AllocError, Global};

/// Any value, with its attributes. It is moved, not copied, and so is a list of them.
impl FromRedisValue for Value {
    ghost reads = { λ d value. data_of value ≡ d };

    ghost fits = { λ _. Unit {0} };

    ghost moves = { λ _. Unit {0} };

    fn read_value(alloc: Global, value: &Value) -> Result<Option<Value>, AllocError> {
        Ok(Some(value.clone(alloc)?))
    }

    fn look(value: &Value) -> Look {
        Look::Fits
    }

    fn take_value(_alloc: Global, value: Value) -> Result<Value, AllocError> {
        Ok(value)
    }

    #[tactic(auto, using(crate::proofs::Each::each_itself))]
    fn take_values(_alloc: Global, values: Values) -> Result<Vec<Value>, AllocError> {
        Ok(values.into_vec())
    }
}

/// A truth value, or the number 0 or 1.
impl FromRedisValue for bool {
    ghost reads = { λ d on. IsTruth (bare d) on };

    ghost fits = { IsOfType (λ d on. IsTruth (bare d) on) };

    ghost moves = { λ _. ⊥ };

    fn read_value(_alloc: Global, value: &Value) -> Result<Option<bool>, AllocError> {
        match parts::bare(value) {
            Value::Boolean(on) => Ok(Some(*on)),
            Value::Int(0) => Ok(Some(false)),
            Value::Int(1) => Ok(Some(true)),
            _ => Ok(None),
        }
    }

    fn look(_value: &Value) -> Look {
        Look::Untold
    }
}

/// Anything but a server error.
impl FromRedisValue for () {
    ghost reads = { λ d done. IsDone (bare d) };

    ghost fits = { λ d. IsDone (bare d) };

    ghost moves = { λ _. ⊥ };

    fn read_value(_alloc: Global, value: &Value) -> Result<Option<()>, AllocError> {
        match parts::bare(value) {
            Value::ServerError(_) => Ok(None),
            _ => Ok(Some(())),
        }
    }

    fn look(_value: &Value) -> Look {
        Look::Untold
    }
}
