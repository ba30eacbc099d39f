ghost use Rattle.std.specs.Prelude.{◌≡◌, ◌++◌, map, IfOk, OnOk};
ghost use Rattle.std.specs.Option.{option_copied, option_map};
ghost use Rattle.fan_out.specs.Came.{all_came, came_now, earlier, error_came, first_error, first_value, has_come, last_error, later, value_came, value_list, values};

use crate::parts::PartResult;
use cluster_retries::RoundEnd;
use redis_error::RedisError;
use resp_value::Value;
use std::alloc::{AllocError, Global};

/// The value of a part, with the number of its arrival.
fn value_came(part: &PartResult) -> Option<(u32, &Value)>
    ensures { came_now result ≡ value_came part.now }
{
    let Some(ended) = &part.ended else {
        return None;
    };
    match &ended.end {
        RoundEnd::Value(value) => Some((ended.arrival, value)),
        RoundEnd::Many(_) => None,
        RoundEnd::Error(_) => None,
    }
}

/// The error of a part, with the number of its arrival.
fn error_came(part: &PartResult) -> Option<(u32, &RedisError)>
    ensures { came_now result ≡ error_came part.now }
{
    let Some(ended) = &part.ended else {
        return None;
    };
    match &ended.end {
        RoundEnd::Value(_) => None,
        RoundEnd::Many(_) => None,
        RoundEnd::Error(error) => Some((ended.arrival, error)),
    }
}

/// Of two that came the earlier, and of two that came together the first.
fn earlier<'a, T>(first: Option<(u32, &'a T)>, next: Option<(u32, &'a T)>) -> Option<(u32, &'a T)>
    ensures { came_now result ≡ earlier (came_now first.entry) (came_now next.entry) }
{
    let Some(one) = first else {
        return next;
    };
    let Some(other) = next else {
        return first;
    };
    if other.0 < one.0 { next } else { first }
}

/// Of two that came the later, and of two that came together the second.
fn later<'a, T>(first: Option<(u32, &'a T)>, next: Option<(u32, &'a T)>) -> Option<(u32, &'a T)>
    ensures { came_now result ≡ later (came_now first.entry) (came_now next.entry) }
{
    let Some(one) = first else {
        return next;
    };
    let Some(other) = next else {
        return first;
    };
    if other.0 < one.0 { first } else { next }
}

/// What came, without the number of its arrival.
fn without_arrival<T>(came: Option<(u32, &T)>) -> Option<&T>
    ensures { option_copied result ≡ option_map (λ c. c.1) (came_now came.entry) }
{
    match came {
        Some((_, what)) => Some(what),
        None => None,
    }
}

/// The error that came first.
pub fn first_error(parts: &[PartResult]) -> Option<&RedisError>
    ensures { option_copied result ≡ first_error parts.now }
{
    let mut first = None;
    for part in parts {
        first = earlier(first, error_came(part));
    }
    without_arrival(first)
}

/// The value that came first.
pub fn first_value(parts: &[PartResult]) -> Option<&Value>
    ensures { option_copied result ≡ first_value parts.now }
{
    let mut first = None;
    for part in parts {
        first = earlier(first, value_came(part));
    }
    without_arrival(first)
}

/// The error that came last.
pub fn last_error(parts: &[PartResult]) -> Option<&RedisError>
    ensures { option_copied result ≡ last_error parts.now }
{
    let mut last = None;
    for part in parts {
        last = later(last, error_came(part));
    }
    without_arrival(last)
}

/// Whether a part's value or error came.
fn has_come(part: &PartResult) -> bool
    ensures { result ≡ has_come part.now }
{
    value_came(part).is_some() || error_came(part).is_some()
}

/// Whether each part's value or error came.
pub fn all_came(parts: &[PartResult]) -> bool
    ensures { result ≡ all_came parts.now }
{
    for part in parts {
        if !has_come(part) {
            return false;
        }
    }
    true
}

/// The value of a part at the end of others, if it has one.
fn push_value<'a>(values: &mut Vec<&'a Value>, part: &'a PartResult) -> Result<(), AllocError>
    ensures { OnOk result
        (map (λ v. v.now) values.new.items
        ≡ map (λ v. v.now) values.old.items ++ value_list part.now) }
{
    if let Some((_, value)) = value_came(part) {
        values.push(value)?;
    }
    Ok(())
}

/// The values of the parts that have one.
pub fn values(alloc: Global, parts: &[PartResult]) -> Result<Vec<&Value>, AllocError>
    ensures { IfOk result (λ list. map (λ v. v.now) list.items ≡ values parts.now) }
{
    let mut values = Vec::new(alloc);
    for part in parts {
        push_value(&mut values, part)?;
    }
    Ok(values)
}
