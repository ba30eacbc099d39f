ghost use Rattle.std.specs.Prelude.{◌≡◌, IfOk, map, pos, if◌then◌else◌};
ghost use Rattle.std.specs.Int.{saturate_signed, w64};
ghost use Rattle.std.specs.List.{list_all};
ghost use Rattle.fan_out.specs.Numbers.{above_at, all_above, least, number, sum_of, width};

use crate::shape::elements;
use resp_value::{Value, Values};
use std::alloc::{AllocError, Global};

/// The number that a value is; of another value 0.
fn number(value: &Value) -> i64
    ensures { result ≡ number value.now }
{
    match value {
        Value::Int(number) => *number,
        _ => 0,
    }
}

/// The sum of the numbers that these values are.
fn total(values: &[&Value]) -> i128
    ensures { result ≡ sum_of (map number (map (λ v. v.now) values.entry.now)) }
{
    let mut total: i128 = 0;
    for value in values {
        total += i128::from(number(value));
    }
    total
}

/// The number of 64 bits that is nearest.
pub fn saturated(number: i128) -> i64
    ensures { result ≡ saturate_signed w64 number }
{
    if number > i128::from(i64::MAX) {
        return i64::MAX;
    }
    if number < i128::from(i64::MIN) {
        return i64::MIN;
    }
    number as i64
}

/// The sum of the numbers that these values are, as far as 64 bits reach.
pub fn sum(values: &[&Value]) -> i64
    ensures { result
        ≡ saturate_signed w64 (sum_of (map number (map (λ v. v.now) values.entry.now))) }
{
    saturated(total(values))
}

/// The least of the numbers that these values are.
pub fn least(values: &[&Value]) -> Option<i64>
    ensures { result ≡ least (map (λ v. v.now) values.entry.now) }
{
    let [first, others @ ..] = values else {
        return None;
    };
    let mut least = number(first);
    for value in others {
        least = least.min(number(value));
    }
    Some(least)
}

/// How many elements the first value has.
pub fn width(values: &[&Value]) -> usize
    ensures { result ≡ width (map (λ v. v.now) values.entry.now) }
{
    match values {
        [first, ..] => elements(first).len(),
        [] => 0,
    }
}

/// 1 for true, 0 for false.
fn answer(is_so: bool) -> i64
    ensures { result ≡ (if is_so then pos 1 else pos 0) }
{
    if is_so { 1 } else { 0 }
}

/// Whether the element at a place is above 0.
fn is_above_at(value: &Value, place: usize) -> bool
    ensures { result ≡ above_at place value.now }
{
    match elements(value).get(place) {
        Some(Value::Int(number)) => *number > 0,
        _ => false,
    }
}

/// Whether the element at a place is above 0 in each of these values.
fn each_is_above_at(values: &[&Value], place: usize) -> bool
    ensures { result ≡ list_all (above_at place) (map (λ v. v.now) values.entry.now) }
{
    for value in values {
        if !is_above_at(value, place) {
            return false;
        }
    }
    true
}

/// 1 at each place where each value has a number above 0, and else 0.
#[tactic(auto, using(crate::proofs::Placing::one_place_more))]
pub fn all_above(alloc: Global, values: &[&Value]) -> Result<Values, AllocError>
    ensures { IfOk result (λ row. row ≡ all_above (map (λ v. v.now) values.entry.now)) }
{
    let mut row = Values::new(alloc);
    for place in 0..width(values) {
        let is_above = each_is_above_at(values, place);
        row.push(Value::Int(answer(is_above)))?;
    }
    Ok(row)
}
