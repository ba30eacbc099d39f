ghost use Rattle.std.specs.Prelude.{◌≡◌, map};
ghost use Rattle.std.specs.Option.{option_copied};
ghost use Rattle.resp_value.specs.View.{data_of, list_view, pairs_view};
ghost use Rattle.fan_out.specs.Shapes.{are_by_turns, are_counts, are_integers, elements, fits, is_array, is_count, is_integer, misfit};
ghost use Rattle.std.specs.List.{list_all};

use resp_value::Value;

/// What the values of all parts have to be.
#[derive(Clone, Copy)]
pub enum Shape {
    Integer,
    /// An array of so many integers.
    Integers { count: usize },
    Array,
    /// A map from byte strings to integers, or an array that has such names and integers by turns.
    Counts,
}

/// The elements of an array; of another value none.
pub fn elements(value: &Value) -> &[Value]
    ensures { list_view result.now ≡ elements value.now }
{
    match value {
        Value::Array(items) => items.as_slice(),
        _ => &[],
    }
}

pub fn is_array(value: &Value) -> bool
    ensures { result ≡ is_array value.now }
{
    matches!(value, Value::Array(_))
}

fn is_integer(value: &Value) -> bool
    ensures { result ≡ is_integer (data_of value.now) }
{
    matches!(value, Value::Int(_))
}

/// Whether all these are integers.
fn all_integers(items: &[Value]) -> bool
    ensures { result ≡ list_all is_integer (list_view items.now) }
{
    for item in items {
        if !is_integer(item) {
            return false;
        }
    }
    true
}

/// Whether a value is an array of so many integers.
fn are_integers(value: &Value, count: usize) -> bool
    ensures { result ≡ are_integers count value.now }
{
    let items = elements(value);
    is_array(value) && items.len() == count && all_integers(items)
}

/// Whether these are a name and a number.
fn is_count(name: &Value, number: &Value) -> bool
    ensures { result ≡ is_count (data_of name.now) (data_of number.now) }
{
    matches!(name, Value::BulkString(_)) && is_integer(number)
}

/// Whether all these are names, each with a number.
fn all_counts(pairs: &[(Value, Value)]) -> bool
    ensures { result ≡ list_all (λ p. is_count p.0 p.1) (pairs_view pairs.now) }
{
    for pair in pairs {
        if !is_count(&pair.0, &pair.1) {
            return false;
        }
    }
    true
}

/// Whether these are names and numbers by turns.
fn are_by_turns(mut items: &[Value]) -> bool
    ensures { result ≡ are_by_turns (list_view items.entry.now) }
{
    while let [name, number, rest @ ..] = items {
        if !is_count(name, number) {
            return false;
        }
        items = rest;
    }
    items.is_empty()
}

fn are_counts(value: &Value) -> bool
    ensures { result ≡ are_counts value.now }
{
    match value {
        Value::Map(pairs) => all_counts(pairs.as_slice()),
        Value::Array(items) => are_by_turns(items.as_slice()),
        _ => false,
    }
}

impl Shape {
    fn fits(self, value: &Value) -> bool
        ensures { result ≡ fits self value.now }
    {
        match self {
            Shape::Integer => is_integer(value),
            Shape::Integers { count } => are_integers(value, count),
            Shape::Array => is_array(value),
            Shape::Counts => are_counts(value),
        }
    }
}

/// The first value that is of another shape.
pub fn misfit<'a>(values: &[&'a Value], shape: Shape) -> Option<&'a Value>
    ensures { option_copied result ≡ misfit shape (map (λ v. v.now) values.entry.now) }
{
    for value in values {
        if !shape.fits(value) {
            return Some(value);
        }
    }
    None
}
