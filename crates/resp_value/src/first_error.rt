ghost use Rattle.std.specs.Prelude.{◌≡◌, None, Some, is_some, MatchResult};
ghost use Rattle.resp_value.specs.Data.{items_of, members_of};
ghost use Rattle.resp_value.specs.View.{data_of};
ghost use Rattle.resp_value.specs.FirstError.{first_error, error_among, error_in_pair, error_in_pairs};

use crate::server_error::ServerError;
use crate::value::{Pairs, Value, Values};
use containers::Queue;

impl Value {
    /// The value, where it is no server error and holds none; else the first server error that it is or holds: of an
    /// attribute its value stands before its attributes, of a pair the key before its value. Takes no memory.
    pub fn extract_error(self) -> Result<Value, ServerError>
        ensures { MatchResult result
            (λ v. (v ≡ self) × (first_error (data_of self) ≡ None))
            (λ e. first_error (data_of self) ≡ Some e) }
    {
        if !holds_error(&self) {
            return Ok(self);
        }
        match into_error(self) {
            Some(error) => Err(error),
            None => unreachable!(),
        }
    }
}

/// Whether a value is a server error, or holds one.
#[cycle(error)]
fn holds_error(value: &Value) -> bool
    ensures { result ≡ is_some (first_error (data_of value.now)) }
{
    match value {
        Value::ServerError(_) => true,
        Value::Array(items) => some_holds_error(items),
        Value::Set(items) => some_holds_error(items),
        Value::Push { kind: _, parts } => some_holds_error(parts),
        Value::Map(pairs) => pair_holds_error(pairs),
        Value::Attribute { inner, attributes } => {
            holds_error(inner.get()) || pair_holds_error(attributes)
        }
        _ => false,
    }
}

/// Whether one of these values is a server error, or holds one.
#[cycle(error)]
fn some_holds_error(values: &Values) -> bool
    ensures { result ≡ is_some (error_among (items_of values.now)) }
{
    for value in values.as_slice() {
        if holds_error(value) {
            return true;
        }
    }
    false
}

/// Whether one of these keys and values is a server error, or holds one.
#[cycle(error)]
fn pair_holds_error(pairs: &Pairs) -> bool
    ensures { result ≡ is_some (error_in_pairs (members_of pairs.now)) }
{
    for pair in pairs.as_slice() {
        if one_holds_error(&pair.0, &pair.1) {
            return true;
        }
    }
    false
}

/// Whether a key or its value is a server error, or holds one.
#[cycle(error)]
fn one_holds_error(key: &Value, value: &Value) -> bool
    ensures { result ≡ is_some (error_in_pair (data_of key.now) (data_of value.now)) }
{
    holds_error(key) || holds_error(value)
}

/// The first server error that a value is or holds.
#[cycle(taken)]
fn into_error(value: Value) -> Option<ServerError>
    ensures { result ≡ first_error (data_of value) }
{
    match value {
        Value::ServerError(error) => Some(error),
        Value::Array(items) => error_among(items),
        Value::Set(items) => error_among(items),
        Value::Push { kind: _, parts } => error_among(parts),
        Value::Map(pairs) => error_in_pairs(pairs),
        Value::Attribute { inner, attributes } => match into_error(inner.into_value()) {
            Some(error) => {
                drop(attributes);
                Some(error)
            }
            None => error_in_pairs(attributes),
        },
        _ => {
            drop(value);
            None
        }
    }
}

/// The first server error among these values.
#[cycle(taken)]
fn error_among(values: Values) -> Option<ServerError>
    ensures { result ≡ error_among (items_of values) }
{
    let mut rest = Queue::from_vec(values.into_vec());
    while let Some(value) = rest.pop_front() {
        if let Some(error) = into_error(value) {
            return Some(error);
        }
    }
    None
}

/// The first server error among these keys and values.
#[cycle(taken)]
fn error_in_pairs(pairs: Pairs) -> Option<ServerError>
    ensures { result ≡ error_in_pairs (members_of pairs) }
{
    let mut rest = Queue::from_vec(pairs.into_vec());
    while let Some((key, value)) = rest.pop_front() {
        if let Some(error) = into_error(key) {
            drop(value);
            return Some(error);
        }
        if let Some(error) = into_error(value) {
            return Some(error);
        }
    }
    None
}
