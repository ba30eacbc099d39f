ghost use Rattle.std.specs.Prelude.{◌≡◌, IfOk};
ghost use Rattle.driver_model.specs.Shape.{outcome_of, confirmed};
ghost use Rattle.resp_value.specs.View.{data_of};

use redis_error::RedisError;
use resp_value::{Value, Values};
use std::alloc::{AllocError, Global};

/// How many items a message takes, and what they become.
#[derive(Clone, Copy, PartialEq, Eq)]
pub enum Shape {
    /// One command: it takes one item, which is its reply.
    Single,
    /// Commands that are sent together: the first `offset` items are skipped, and the next `count`, but one at least,
    /// are kept. Of a transaction the skipped items are the reply to MULTI, and then those to its commands as they were
    /// queued.
    Pipeline {
        offset: u32,
        count: u32,
        transaction: bool,
    },
    /// One subscription call: it takes one item, which confirms it or is a server error.
    Confirmation,
}

/// What a message of a link came to.
#[derive(Drop)]
pub enum Verdict {
    /// The reply of a single command, also where it is a server error.
    One(Value),
    /// The replies of a pipeline that are kept. Server errors among them are values.
    Many(Values),
    /// A subscription call was confirmed.
    Done,
    /// Why there is no reply, or the server error that a subscription call got instead of a confirmation.
    Fault(RedisError),
}

/// What a submission came to.
#[derive(Drop)]
pub enum Outcome {
    /// The reply of a single command, also where it is a server error. Nil, where nobody awaits the reply.
    One(Value),
    /// The replies of a pipeline that are kept. Server errors among them are values.
    Many(Values),
    /// The names of a subscription call are subscribed, or aren't any more: the server confirmed it.
    Done,
    /// Why there is no reply, or the server error that a subscription call got instead of a confirmation.
    Fault(RedisError),
}

impl Verdict {
    /// What the reply to a subscription call says: a server error, or that it is done.
    pub fn of_confirmation(reply: Value) -> Verdict
        ensures { result ≡ confirmed (data_of reply) }
    {
        match reply {
            Value::ServerError(error) => Verdict::Fault(RedisError::Server(error)),
            _ => {
                drop(reply);
                Verdict::Done
            }
        }
    }

    /// The outcome of the submission whose message came to it.
    pub fn into_outcome(self) -> Outcome
        ensures { result ≡ outcome_of self }
    {
        match self {
            Verdict::One(value) => Outcome::One(value),
            Verdict::Many(values) => Outcome::Many(values),
            Verdict::Done => Outcome::Done,
            Verdict::Fault(error) => Outcome::Fault(error),
        }
    }
}

impl Outcome {
    /// An equal value of its own.
    pub fn clone(&self, alloc: Global) -> Result<Outcome, AllocError>
        ensures { IfOk result (λ o. o ≡ self.now) }
    {
        match self {
            Outcome::One(value) => Ok(Outcome::One(value.clone(alloc)?)),
            Outcome::Many(values) => Ok(Outcome::Many(values.clone(alloc)?)),
            Outcome::Done => Ok(Outcome::Done),
            Outcome::Fault(error) => Ok(Outcome::Fault(error.clone(alloc)?)),
        }
    }
}
