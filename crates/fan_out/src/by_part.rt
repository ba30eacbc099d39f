ghost use Rattle.std.specs.Prelude.{◌≡◌, ◌++◌, IfOk, OnOk, option_to_list};
ghost use Rattle.std.specs.Option.{option_copied, option_map, option_or};
ghost use Rattle.resp_value.specs.View.{data_of};
ghost use Rattle.fan_out.specs.ByPart.{address_text, addressed, failure_in, fault_in, first_in, found_in, last_in, replies, reply_in, told_of};
ghost use Rattle.fan_out.specs.Failures.{failure_now};

use crate::parts::PartResult;
use cluster_retries::RoundEnd;
use containers::Bytes;
use itoa::Buffer;
use redis_error::RedisError;
use resp_value::{Pairs, ServerError, Value};
use slot_hash::NodeAddress;
use std::alloc::{AllocError, Global};

/// The value of a part, if it is neither Nil nor a server error.
fn found_in(part: &PartResult) -> Option<&Value>
    ensures { option_copied result ≡ told_of found_in part.now }
{
    let Some(ended) = &part.ended else {
        return None;
    };
    let RoundEnd::Value(value) = &ended.end else {
        return None;
    };
    match value {
        Value::Nil => None,
        Value::ServerError(_) => None,
        _ => Some(value),
    }
}

/// The first part's value that is neither Nil nor a server error.
pub fn first_found(parts: &[PartResult]) -> Option<&Value>
    ensures { option_copied result ≡ first_in found_in parts.now }
{
    for part in parts {
        if let Some(value) = found_in(part) {
            return Some(value);
        }
    }
    None
}

/// Why a part failed.
#[derive(Clone, Copy)]
pub enum Failure<'a> {
    /// Its value is this server error.
    Refused(&'a ServerError),
    Ended(&'a RedisError),
}

impl Failure<'_> {
    /// The error, an equal one of its own.
    pub fn error(&self, alloc: Global) -> Result<RedisError, AllocError>
        ensures { IfOk result (λ e. e ≡ failure_now self.now) }
    {
        match self {
            Failure::Refused(error) => Ok(RedisError::Server(ServerError::clone(error, alloc)?)),
            Failure::Ended(error) => RedisError::clone(error, alloc),
        }
    }
}

/// Why a part failed, if it did.
fn failure_in(part: &PartResult) -> Option<Failure<'_>>
    ensures { option_map failure_now result ≡ told_of failure_in part.now }
{
    let Some(ended) = &part.ended else {
        return None;
    };
    match &ended.end {
        RoundEnd::Value(Value::ServerError(error)) => Some(Failure::Refused(error)),
        RoundEnd::Value(_) => None,
        RoundEnd::Many(_) => None,
        RoundEnd::Error(error) => Some(Failure::Ended(error)),
    }
}

/// The second, if there is one, and else the first.
fn following<'a>(first: Option<Failure<'a>>, next: Option<Failure<'a>>) -> Option<Failure<'a>>
    ensures { option_map failure_now result
        ≡ option_or (option_map failure_now next.entry) (option_map failure_now first.entry) }
{
    match next {
        Some(failure) => Some(failure),
        None => first,
    }
}

/// Why the last part failed of those that did.
pub fn last_failure(parts: &[PartResult]) -> Option<Failure<'_>>
    ensures { option_map failure_now result ≡ last_in failure_in parts.now }
{
    let mut last = None;
    for part in parts {
        last = following(last, failure_in(part));
    }
    last
}

/// The error of a part, if it is no server's.
fn fault_in(part: &PartResult) -> Option<&RedisError>
    ensures { option_copied result ≡ told_of fault_in part.now }
{
    let Some(ended) = &part.ended else {
        return None;
    };
    match &ended.end {
        RoundEnd::Error(RedisError::Server(_)) => None,
        RoundEnd::Error(error) => Some(error),
        RoundEnd::Value(_) => None,
        RoundEnd::Many(_) => None,
    }
}

/// The first part's error that is no server's.
pub fn first_fault(parts: &[PartResult]) -> Option<&RedisError>
    ensures { option_copied result ≡ first_in fault_in parts.now }
{
    for part in parts {
        if let Some(error) = fault_in(part) {
            return Some(error);
        }
    }
    None
}

/// What a server replied, a value or an error.
fn reply_in(alloc: Global, end: &RoundEnd) -> Result<Option<Value>, AllocError>
    ensures { IfOk result (λ r. option_map data_of r ≡ reply_in end.now) }
{
    match end {
        RoundEnd::Value(value) => Ok(Some(Value::clone(value, alloc)?)),
        RoundEnd::Many(_) => Ok(None),
        RoundEnd::Error(RedisError::Server(error)) => {
            Ok(Some(Value::ServerError(error.clone(alloc)?)))
        }
        RoundEnd::Error(_) => Ok(None),
    }
}

/// The text of an address: host, colon, port.
fn address_text(alloc: Global, address: &NodeAddress) -> Result<Bytes, AllocError>
    ensures { IfOk result (λ text. text ≡ address_text address.now) }
{
    let mut text = address.host.clone(alloc)?;
    text.push(b':')?;
    let mut digits = Buffer::new();
    text.extend_from_slice(digits.format(address.port).as_bytes())?;
    Ok(text)
}

/// A part's reply, if it has one, under the address of its node.
fn push_reply(alloc: Global, pairs: &mut Pairs, part: &PartResult) -> Result<(), AllocError>
    ensures { OnOk result (pairs.new ≡ pairs.old ++ option_to_list (addressed part.now)) }
{
    let Some(ended) = &part.ended else {
        return Ok(());
    };
    let address = address_text(alloc, &part.address)?;
    match reply_in(alloc, &ended.end)? {
        Some(reply) => pairs.push(Value::BulkString(address), reply),
        None => Ok(()),
    }
}

/// The replies of all parts, each under the address of its node.
pub fn replies(alloc: Global, parts: &[PartResult]) -> Result<Pairs, AllocError>
    ensures { IfOk result (λ pairs. pairs ≡ replies parts.now) }
{
    let mut pairs = Pairs::new(alloc);
    for part in parts {
        push_reply(alloc, &mut pairs, part)?;
    }
    Ok(pairs)
}
