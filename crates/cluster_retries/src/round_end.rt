ghost use Rattle.std.specs.Prelude.{◌≡◌, IfOk, MatchOption, None, Some};
ghost use Rattle.std.specs.Option.{option_map};
ghost use Rattle.resp_value.specs.View.{data_of, list_view};
ghost use Rattle.redis_error.specs.Errors.{error_method};
ghost use Rattle.redis_error.specs.Redirected.{IsNotRedirected, IsRedirected};
ghost use Rattle.cluster_retries.specs.Ends.{error_in, error_of, error_seen, first_error_in, is_retried};

use redis_error::RedisError;
use resp_value::{Redirection, RetryMethod, ServerError, Value, Values};
use slot_hash::NodeAddress;
use std::alloc::{AllocError, Global};

/// Where a round of a request went.
#[derive(Drop)]
pub enum OperationTarget {
    /// To this node.
    Node(NodeAddress),
    /// Nowhere, since no link served it.
    NotFound,
    /// To several nodes.
    FanOut,
}

/// How a round of a request ended.
#[derive(Drop)]
pub enum RoundEnd {
    /// By the value of a command.
    Value(Value),
    /// By the values of a pipeline.
    Many(Values),
    /// By an error.
    Error(RedisError),
}

/// The error that the end of a round counts as.
#[derive(Clone, Copy)]
pub enum EndError<'a> {
    /// An error of a server.
    Server(&'a ServerError),
    /// Any error of the driver.
    Other(&'a RedisError),
}

/// Whether a request is tried again.
fn is_retried(method: RetryMethod) -> bool
    ensures { result ≡ is_retried method }
{
    match method {
        RetryMethod::NoRetry => false,
        _ => true,
    }
}

/// The error that a value counts as.
fn error_in(value: &Value) -> Option<&ServerError>
    ensures { MatchOption result
        (error_in (data_of value.now) ≡ None)
        (λ e. error_in (data_of value.now) ≡ Some e.now) }
{
    match value {
        Value::ServerError(error) if is_retried(error.retry_method()) => Some(error),
        _ => None,
    }
}

/// The first error that one of these values counts as.
fn first_error_in(values: &[Value]) -> Option<&ServerError>
    ensures { MatchOption result
        (first_error_in (list_view values.now) ≡ None)
        (λ e. first_error_in (list_view values.now) ≡ Some e.now) }
{
    for value in values {
        if let Some(error) = error_in(value) {
            return Some(error);
        }
    }
    None
}

impl RoundEnd {
    /// The error that it counts as. A value counts as an error where it is one of a server whose command is tried again, and so do
    /// the values of a pipeline by the first such error among them.
    pub fn error(&self) -> Option<EndError<'_>>
        ensures { option_map error_seen result ≡ error_of self.now }
    {
        match self {
            RoundEnd::Value(value) => Some(EndError::Server(error_in(value)?)),
            RoundEnd::Many(values) => Some(EndError::Server(first_error_in(values.as_slice())?)),
            RoundEnd::Error(error) => Some(EndError::Other(error)),
        }
    }
}

impl<'a> EndError<'a> {
    /// The error that is answered, as a value of its own. Only want of memory is refused.
    pub fn to_error(self, alloc: Global) -> Result<RedisError, AllocError>
        ensures { IfOk result (λ e. e ≡ error_seen self.entry) }
    {
        match self {
            EndError::Server(error) => Ok(RedisError::Server(error.clone(alloc)?)),
            EndError::Other(error) => error.clone(alloc),
        }
    }

    /// How its request is tried again.
    pub fn retry_method(self) -> RetryMethod
        ensures { result ≡ error_method (error_seen self.entry) }
    {
        match self {
            EndError::Server(error) => error.retry_method(),
            EndError::Other(error) => error.retry_method(),
        }
    }

    /// Where it leads, if it is a redirect.
    pub fn redirect_node(self) -> Option<Redirection<'a>>
        ensures { MatchOption result
            (IsNotRedirected (error_seen self.entry))
            (λ r. IsRedirected (error_seen self.entry) r.slot r.address.now r.ask) }
    {
        match self {
            EndError::Server(error) => error.redirect_node(),
            EndError::Other(error) => error.redirect_node(),
        }
    }
}
