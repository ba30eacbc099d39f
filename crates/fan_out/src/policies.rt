ghost use Rattle.std.specs.Prelude.{◌≡◌, Some, IfOk};
ghost use Rattle.fan_out.specs.Fold.{by_address, convert, first_succeeded, fold, of_arrays, one_succeeded, together, values_now, when_all_succeed};

use crate::arrays::{in_key_order, misfit_of_keys, one_after_another};
use crate::by_part::{first_fault, first_found, last_failure, replies};
use crate::came::{all_came, first_error, first_value, last_error, values};
use crate::numbers::{all_above, least, sum, width};
use crate::parts::{FoldResult, PartResult, PartResults};
use crate::shape::{Shape, misfit};
use crate::tallies::summed;
use command_table::{MultipleNodeRoutingInfo, ResponsePolicy, SlotParts};
use redis_error::RedisError;
use resp_value::Value;
use std::alloc::{AllocError, Global};

/// A copy of a value, as the result.
fn with_value(alloc: Global, value: &Value) -> Result<FoldResult, AllocError>
    ensures { IfOk result (λ r. r ≡ FoldResult.Value value.now) }
{
    let value = Value::clone(value, alloc)?;
    Ok(FoldResult::Value(value))
}

/// A copy of an error, as the result.
fn with_error(alloc: Global, error: &RedisError) -> Result<FoldResult, AllocError>
    ensures { IfOk result (λ r. r ≡ FoldResult.Error error.now) }
{
    let error = RedisError::clone(error, alloc)?;
    Ok(FoldResult::Error(error))
}

/// That a value is of another shape, as the result.
fn converted(alloc: Global, value: &Value) -> Result<FoldResult, AllocError>
    ensures { IfOk result (λ r. r ≡ convert value.now) }
{
    let value = Value::clone(value, alloc)?;
    Ok(FoldResult::Error(RedisError::Convert { value }))
}

/// The elements of all parts' arrays.
fn of_arrays(
    alloc: Global,
    routing: &MultipleNodeRoutingInfo,
    values: &[&Value],
) -> Result<Option<FoldResult>, AllocError>
    ensures { IfOk result (λ r. r ≡ of_arrays routing.now (values_now values.entry.now)) }
{
    match routing {
        MultipleNodeRoutingInfo::AllNodes => in_part_order(alloc, values),
        MultipleNodeRoutingInfo::AllMasters => in_part_order(alloc, values),
        MultipleNodeRoutingInfo::MultiSlot(routes) => of_keys(alloc, routes, values),
    }
}

/// The elements of all parts' arrays, one array after another.
fn in_part_order(alloc: Global, values: &[&Value]) -> Result<Option<FoldResult>, AllocError>
    ensures { IfOk result (λ r. r ≡ of_arrays MultipleNodeRoutingInfo.AllNodes (values_now values.entry.now)) }
{
    if let Some(value) = misfit(values, Shape::Array) {
        return Ok(Some(converted(alloc, value)?));
    }
    let list = one_after_another(alloc, values)?;
    Ok(Some(FoldResult::Value(Value::Array(list))))
}

/// The elements of all parts' arrays, each at the place of its key.
fn of_keys(
    alloc: Global,
    routes: &SlotParts,
    values: &[&Value],
) -> Result<Option<FoldResult>, AllocError>
    ensures { IfOk result
        (λ r. r ≡ of_arrays (MultipleNodeRoutingInfo.MultiSlot routes.now) (values_now values.entry.now)) }
{
    let routes = routes.as_slice();
    if let Some(value) = misfit_of_keys(routes, values) {
        return Ok(Some(converted(alloc, value)?));
    }
    let list = in_key_order(alloc, routes, values)?;
    Ok(Some(FoldResult::Value(Value::Array(list))))
}

/// The sum of integers.
fn of_sum(alloc: Global, values: &[&Value]) -> Result<Option<FoldResult>, AllocError>
    ensures { IfOk result
        (λ r. r ≡ together ResponsePolicy.Sum MultipleNodeRoutingInfo.AllNodes (values_now values.entry.now)) }
{
    if let Some(value) = misfit(values, Shape::Integer) {
        return Ok(Some(converted(alloc, value)?));
    }
    Ok(Some(FoldResult::Value(Value::Int(sum(values)))))
}

/// The least of integers.
fn of_least(alloc: Global, values: &[&Value]) -> Result<Option<FoldResult>, AllocError>
    ensures { IfOk result
        (λ r. r ≡ together ResponsePolicy.Min MultipleNodeRoutingInfo.AllNodes (values_now values.entry.now)) }
{
    if let Some(value) = misfit(values, Shape::Integer) {
        return Ok(Some(converted(alloc, value)?));
    }
    match least(values) {
        Some(number) => Ok(Some(FoldResult::Value(Value::Int(number)))),
        None => Ok(None),
    }
}

/// At each place of arrays of integers, whether each of them is above 0.
fn of_rows(alloc: Global, values: &[&Value]) -> Result<Option<FoldResult>, AllocError>
    ensures { IfOk result
        (λ r. r ≡ together ResponsePolicy.And MultipleNodeRoutingInfo.AllNodes (values_now values.entry.now)) }
{
    let count = width(values);
    if let Some(value) = misfit(values, Shape::Integers { count }) {
        return Ok(Some(converted(alloc, value)?));
    }
    let row = all_above(alloc, values)?;
    Ok(Some(FoldResult::Value(Value::Array(row))))
}

/// The sums of what is counted under names.
fn of_counts(alloc: Global, values: &[&Value]) -> Result<Option<FoldResult>, AllocError>
    ensures { IfOk result
        (λ r. r ≡ together ResponsePolicy.CombineMaps MultipleNodeRoutingInfo.AllNodes (values_now values.entry.now)) }
{
    if let Some(value) = misfit(values, Shape::Counts) {
        return Ok(Some(converted(alloc, value)?));
    }
    let pairs = summed(alloc, values)?;
    Ok(Some(FoldResult::Value(Value::Map(pairs))))
}

/// The last value.
fn of_last(alloc: Global, values: &[&Value]) -> Result<Option<FoldResult>, AllocError>
    ensures { IfOk result
        (λ r. r ≡ together ResponsePolicy.AllSucceeded MultipleNodeRoutingInfo.AllNodes (values_now values.entry.now)) }
{
    match values.last() {
        Some(value) => Ok(Some(with_value(alloc, value)?)),
        None => Ok(None),
    }
}

/// The values of all parts together, for a policy that asks that all succeed.
fn together(
    alloc: Global,
    policy: ResponsePolicy,
    routing: &MultipleNodeRoutingInfo,
    values: &[&Value],
) -> Result<Option<FoldResult>, AllocError>
    ensures { IfOk result (λ r. r ≡ together policy routing.now (values_now values.entry.now)) }
{
    match policy {
        ResponsePolicy::AllSucceeded => of_last(alloc, values),
        ResponsePolicy::Sum => of_sum(alloc, values),
        ResponsePolicy::Min => of_least(alloc, values),
        ResponsePolicy::And => of_rows(alloc, values),
        ResponsePolicy::CombineArrays => of_arrays(alloc, routing, values),
        ResponsePolicy::CombineMaps => of_counts(alloc, values),
        ResponsePolicy::OneSucceeded => Ok(None),
        ResponsePolicy::FirstSucceededNonEmptyOrAllEmpty => Ok(None),
        ResponsePolicy::Special => Ok(None),
    }
}

/// By a policy that asks that all succeed: the first error to come, and else all values together.
fn when_all_succeed(
    alloc: Global,
    policy: ResponsePolicy,
    routing: &MultipleNodeRoutingInfo,
    parts: &[PartResult],
) -> Result<Option<FoldResult>, AllocError>
    ensures { IfOk result (λ r. r ≡ when_all_succeed (together policy routing.now) parts.now) }
{
    if let Some(error) = first_error(parts) {
        return Ok(Some(with_error(alloc, error)?));
    }
    if !all_came(parts) {
        return Ok(None);
    }
    let values = values(alloc, parts)?;
    let whole = together(alloc, policy, routing, values.as_slice())?;
    Ok(whole)
}

/// The first value to come, and else the last error.
fn one_succeeded(alloc: Global, parts: &[PartResult]) -> Result<Option<FoldResult>, AllocError>
    ensures { IfOk result (λ r. r ≡ one_succeeded parts.now) }
{
    if let Some(value) = first_value(parts) {
        return Ok(Some(with_value(alloc, value)?));
    }
    if !all_came(parts) {
        return Ok(None);
    }
    match last_error(parts) {
        Some(error) => Ok(Some(with_error(alloc, error)?)),
        None => Ok(None),
    }
}

/// The first part's value that says something, and else the last part's error, and else Nil.
fn first_succeeded(alloc: Global, parts: &[PartResult]) -> Result<Option<FoldResult>, AllocError>
    ensures { IfOk result (λ r. r ≡ first_succeeded parts.now) }
{
    if !all_came(parts) {
        return Ok(None);
    }
    if let Some(value) = first_found(parts) {
        return Ok(Some(with_value(alloc, value)?));
    }
    let Some(failure) = last_failure(parts) else {
        return Ok(Some(FoldResult::Value(Value::Nil)));
    };
    let error = failure.error(alloc)?;
    Ok(Some(FoldResult::Error(error)))
}

/// A map from addresses to replies, unless a part has none.
fn by_address(alloc: Global, parts: &[PartResult]) -> Result<Option<FoldResult>, AllocError>
    ensures { IfOk result (λ r. r ≡ by_address parts.now) }
{
    if !all_came(parts) {
        return Ok(None);
    }
    if let Some(error) = first_fault(parts) {
        return Ok(Some(with_error(alloc, error)?));
    }
    let pairs = replies(alloc, parts)?;
    Ok(Some(FoldResult::Value(Value::Map(pairs))))
}

/// The result of a command that went to several nodes, by the policy of its route; `None` where it can't be told from
/// the parts that came so far.
///
/// A part without an end, and one whose end is `Many`, hasn't come. Where the routing is to several slots, the parts are
/// those of its routes, in their order.
#[tactic(auto, unfolding(crate::specs::Fold::fold))]
pub fn fold_parts(
    alloc: Global,
    policy: Option<ResponsePolicy>,
    routing: &MultipleNodeRoutingInfo,
    parts: &PartResults,
) -> Result<Option<FoldResult>, AllocError>
    ensures { IfOk result (λ r. r ≡ fold policy routing.now parts.now) }
{
    let parts = parts.as_slice();
    let Some(policy) = policy else {
        return by_address(alloc, parts);
    };
    match policy {
        ResponsePolicy::Special => by_address(alloc, parts),
        ResponsePolicy::OneSucceeded => one_succeeded(alloc, parts),
        ResponsePolicy::FirstSucceededNonEmptyOrAllEmpty => first_succeeded(alloc, parts),
        ResponsePolicy::AllSucceeded => when_all_succeed(alloc, policy, routing, parts),
        ResponsePolicy::Sum => when_all_succeed(alloc, policy, routing, parts),
        ResponsePolicy::Min => when_all_succeed(alloc, policy, routing, parts),
        ResponsePolicy::And => when_all_succeed(alloc, policy, routing, parts),
        ResponsePolicy::CombineArrays => when_all_succeed(alloc, policy, routing, parts),
        ResponsePolicy::CombineMaps => when_all_succeed(alloc, policy, routing, parts),
    }
}
