ghost use Rattle.std.specs.Prelude.{◌≡◌, IfOk};

use resp_value::Value;
use std::alloc::{AllocError, Global};

/// A message of publish/subscribe: the pattern that its channel matched, if it came by one, its channel, and what was published.
#[derive(Drop)]
pub struct Msg {
    pub pattern: Option<Value>,
    pub channel: Value,
    pub payload: Value,
}

impl Msg {
    /// An equal value of its own.
    pub fn clone(&self, alloc: Global) -> Result<Msg, AllocError>
        ensures { IfOk result (λ m. m ≡ self.now) }
    {
        let pattern = clone_pattern(alloc, &self.pattern)?;
        match clone_both(alloc, &self.channel, &self.payload) {
            Ok((channel, payload)) => Ok(Msg {
                pattern,
                channel,
                payload,
            }),
            Err(error) => {
                drop(pattern);
                Err(error)
            }
        }
    }
}

/// Equal values of their own.
fn clone_both(alloc: Global, one: &Value, other: &Value) -> Result<(Value, Value), AllocError>
    ensures { IfOk result (λ both. (both.0 ≡ one.now) × (both.1 ≡ other.now)) }
{
    let copy = one.clone(alloc)?;
    match other.clone(alloc) {
        Ok(value) => Ok((copy, value)),
        Err(error) => {
            drop(copy);
            Err(error)
        }
    }
}

/// An equal pattern of its own, if there is one.
fn clone_pattern(alloc: Global, pattern: &Option<Value>) -> Result<Option<Value>, AllocError>
    ensures { IfOk result (λ p. p ≡ pattern.now) }
{
    match pattern {
        None => Ok(None),
        Some(pattern) => Ok(Some(pattern.clone(alloc)?)),
    }
}
