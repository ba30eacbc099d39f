ghost use Rattle.std.specs.Prelude.{◌≡◌, None, Some, MatchOption};
ghost use Rattle.resp_value.specs.View.{data_of, list_view};
ghost use Rattle.resp_convert.specs.Types.{bare, items_in, members_in, text_of};

use resp_value::{Pairs, Value, Values};

/// The value without the attributes that stand before it.
pub fn bare(value: &Value) -> &Value
    ensures { data_of result.now ≡ bare (data_of value.now) }
{
    match value {
        Value::Attribute {
            inner,
            attributes: _,
        } => bare(inner.get()),
        _ => value,
    }
}

/// The same of a value that is handed over. Its attributes are let go.
pub fn into_bare(value: Value) -> Value
    ensures { data_of result ≡ bare (data_of value) }
{
    match value {
        Value::Attribute { inner, attributes } => {
            drop(attributes);
            into_bare(inner.into_value())
        }
        other => other,
    }
}

/// The text of a value that is one.
pub fn text(value: &Value) -> Option<&[u8]>
    ensures { MatchOption result
        (text_of (data_of value.now) ≡ None)
        (λ text. text_of (data_of value.now) ≡ Some text.now) }
{
    match value {
        Value::BulkString(text) => Some(text.as_slice()),
        Value::SimpleString(text) => Some(text.as_slice()),
        Value::VerbatimString { format: _, text } => Some(text.as_slice()),
        Value::Okay => Some(b"OK"),
        _ => None,
    }
}

/// The items of an array or a set.
#[tactic(auto, using(crate::proofs::Each::same_items))]
pub fn items(value: &Value) -> Option<&[Value]>
    ensures { MatchOption result
        (items_in (data_of value.now) ≡ None)
        (λ items. items_in (data_of value.now) ≡ Some (list_view items.now)) }
{
    match value {
        Value::Array(items) => Some(items.as_slice()),
        Value::Set(items) => Some(items.as_slice()),
        _ => None,
    }
}

/// The same of a value that is handed over.
#[tactic(auto, using(crate::proofs::Each::same_items))]
pub fn into_items(value: Value) -> Option<Values>
    ensures { MatchOption result
        (items_in (data_of value) ≡ None)
        (λ items. items_in (data_of value) ≡ Some items) }
{
    match value {
        Value::Array(items) => Some(items),
        Value::Set(items) => Some(items),
        other => {
            drop(other);
            None
        }
    }
}

/// The keys and values of a map that is handed over.
#[tactic(auto, using(crate::proofs::Each::same_pairs))]
pub fn into_members(value: Value) -> Option<Pairs>
    ensures { MatchOption result
        (members_in (data_of value) ≡ None)
        (λ members. members_in (data_of value) ≡ Some members) }
{
    match value {
        Value::Map(members) => Some(members),
        other => {
            drop(other);
            None
        }
    }
}
