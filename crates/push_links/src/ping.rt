ghost use Rattle.std.specs.Prelude.{◌≡◌, true};
ghost use Rattle.resp_convert.specs.Convert.{IsConverted};
ghost use Rattle.push_links.specs.Links.{is_one, value_in};

use driver_model::Outcome;
use resp_convert::{ConvertError, FromRedisValue};
use resp_value::Value;
use std::alloc::Global;

/// What a ping was answered with, converted; the outcome is one value. `Convert` comes exactly where the value isn't of the type, and
/// gives it back.
pub fn ping_answer<T: FromRedisValue>(alloc: Global, outcome: &Outcome) -> Result<T, ConvertError>
    requires { is_one outcome.now ≡ true }
    ensures { IsConverted T.reads (value_in outcome.now) result }
{
    let value = match outcome {
        Outcome::One(value) => value.clone(alloc)?,
        Outcome::Many(_) => unreachable!(),
        Outcome::Done => unreachable!(),
        Outcome::Fault(_) => unreachable!(),
    };
    T::from_redis_value(alloc, value)
}
