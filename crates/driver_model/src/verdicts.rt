ghost use Rattle.std.specs.Prelude.{◌≡◌, ◌<◌, ◌≤◌, ◌^◌, ◌∷◌, ◌++◌, length, take, drop, OnOk, IfOk};
ghost use Rattle.resp_value.specs.View.{data_of, value_of, list_view};
ghost use Rattle.driver_model.specs.Shape.{need_of, permits_for, verdict_of, pipeline};
ghost use Rattle.driver_model.specs.Shape.{verdict_of_transaction, confirmed};
ghost use Rattle.driver_model.specs.Shape.{first_of, error_at, errors_from, kept_unless_aborted};

use crate::outcome::{Shape, Verdict};
use connection_setup::permit_vec_capacity;
use redis_error::RedisError;
use resp_value::{Aborts, Value, Values};
use std::alloc::{AllocError, Global};

impl Shape {
    /// How many items a message of this shape takes.
    pub fn need(self) -> u64
        ensures { result ≡ need_of self }
    {
        match self {
            Shape::Single => 1,
            Shape::Pipeline {
                offset,
                count,
                transaction: _,
            } => u64::from(offset) + u64::from(count.max(1)),
            Shape::Confirmation => 1,
        }
    }

    /// The most permits that a message of this shape takes of so many.
    pub fn permits_for(self, limit: u32) -> u32
        ensures { result ≡ permits_for self limit }
    {
        match self {
            Shape::Single => 1,
            Shape::Pipeline {
                offset: _,
                count,
                transaction: _,
            } => permit_vec_capacity(count, limit),
            Shape::Confirmation => 1,
        }
    }

    /// What the items of a full message are.
    pub fn verdict(self, alloc: Global, got: Values) -> Result<Verdict, AllocError>
        ensures { IfOk result (λ v. v ≡ verdict_of self got) }
    {
        match self {
            Shape::Single => Ok(Verdict::One(first(got))),
            Shape::Pipeline {
                offset,
                count: _,
                transaction,
            } => pipeline_verdict(alloc, offset, transaction, got),
            Shape::Confirmation => Ok(confirmation(got)),
        }
    }
}

/// The first value, and nil where there is none.
fn first(values: Values) -> Value
    ensures { result ≡ value_of (first_of values) }
{
    let mut values = values;
    match values.pop_front() {
        Some(value) => value,
        None => Value::Nil,
    }
}

/// What the first value says as the reply to a subscription call.
#[tactic(auto, using(crate::proofs::Replies::of_first))]
fn confirmation(got: Values) -> Verdict
    ensures { result ≡ confirmed (first_of got) }
{
    Verdict::of_confirmation(first(got))
}

/// What is kept of a pipeline behind the first `offset` values, or why its transaction has no reply.
fn pipeline_verdict(
    alloc: Global,
    offset: u32,
    transaction: bool,
    got: Values,
) -> Result<Verdict, AllocError>
    ensures { IfOk result (λ v. v ≡ pipeline transaction (take offset got) (drop offset got)) }
{
    let mut skipped = got;
    let at = (offset as usize).min(skipped.len());
    let kept = skipped.split_off(at)?;
    if transaction {
        transaction_verdict(alloc, skipped, kept)
    } else {
        Ok(Verdict::Many(kept))
    }
}

/// What is kept of a transaction, or why there is none: `skipped` are the replies to MULTI and to its commands as they
/// were queued.
fn transaction_verdict(alloc: Global, skipped: Values, kept: Values) -> Result<Verdict, AllocError>
    requires { length skipped < 2 ^ 32 }
    ensures { IfOk result (λ v. v ≡ verdict_of_transaction skipped kept) }
{
    let mut queued = skipped;
    match queued.pop_front() {
        Some(reply) => verdict_behind(alloc, reply, queued.as_slice(), kept),
        None => Ok(Verdict::Many(kept)),
    }
}

/// What is kept of a transaction behind the reply to MULTI.
fn verdict_behind(
    alloc: Global,
    reply: Value,
    queued: &[Value],
    kept: Values,
) -> Result<Verdict, AllocError>
    requires { length queued.now < 2 ^ 32 }
    ensures { IfOk result (λ v.
        v ≡ verdict_of_transaction (data_of reply ∷ list_view queued.now) kept
        ) }
{
    match reply {
        Value::ServerError(error) => Ok(Verdict::Fault(RedisError::Server(error))),
        _ => {
            drop(reply);
            match errors_among(alloc, queued) {
                Ok(errors) => Ok(unless_aborted(errors, kept)),
                Err(error) => {
                    drop(kept);
                    Err(error)
                }
            }
        }
    }
}

/// The server errors among these values, each with its position.
fn errors_among(alloc: Global, values: &[Value]) -> Result<Aborts, AllocError>
    requires { length values.now < 2 ^ 32 }
    ensures { IfOk result (λ errors. errors ≡ errors_from 0 (list_view values.now)) }
{
    let mut errors = Aborts::new(alloc);
    let mut position: u32 = 0;
    for value in values {
        note_error(alloc, position, value, &mut errors)?;
        position += 1;
    }
    Ok(errors)
}

/// A value that is a server error is noted with its position.
fn note_error(
    alloc: Global,
    position: u32,
    value: &Value,
    errors: &mut Aborts,
) -> Result<(), AllocError>
    ensures { OnOk result (errors.new ≡ errors.old ++ error_at position (data_of value.now)) }
{
    match value {
        Value::ServerError(error) => {
            let error = error.clone(alloc)?;
            errors.push((position, error))
        }
        _ => Ok(()),
    }
}

/// What is kept of a transaction, unless commands of it were refused.
fn unless_aborted(errors: Aborts, kept: Values) -> Verdict
    ensures { result ≡ kept_unless_aborted errors kept }
{
    if errors.is_empty() {
        Verdict::Many(kept)
    } else {
        Verdict::Fault(RedisError::Aborted { errors })
    }
}
