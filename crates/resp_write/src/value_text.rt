ghost use Rattle.std.specs.Prelude.{◌≡◌, ◌++◌, ◌<◌, ◌^◌, suc, true, OnOk, OnErr, IfOk, length};
ghost use Rattle.std.specs.Str.{byte};
ghost use Rattle.resp_value.specs.Data.{array, items_of, list_of, members_of, pairs_of};
ghost use Rattle.resp_value.specs.Kinds.{kind_text};
ghost use Rattle.resp_value.specs.Single.{is_single};
ghost use Rattle.resp_value.specs.View.{data_of};
ghost use Rattle.resp_write.specs.Canonical.{canonical, each_item, each_member};
ghost use Rattle.resp_write.specs.Pack.{bulk_string, number_line};

use crate::lines::{push_bulk_string, push_number_line, push_text_line};
use crate::parts::{push_boolean, push_error, push_int, push_verbatim};
use containers::Bytes;
use resp_value::{Pairs, PushKind, Value, Values};
use std::alloc::{AllocError, Global};

/// How many values there are.
fn count_of(values: &Values) -> usize
    ensures count { result ≡ length (list_of (items_of values.now)) }
    ensures fits { result < 2 ^ 63 }
{
    values.as_slice().len()
}

/// How many pairs there are.
fn count_of_pairs(pairs: &Pairs) -> usize
    ensures { result ≡ length (pairs_of (members_of pairs.now)) }
{
    pairs.as_slice().len()
}

/// The canonical text of a value.
pub fn canonical_text(alloc: Global, value: &Value) -> Result<Bytes, AllocError>
    ensures { IfOk result (λ text. text ≡ canonical (data_of value.now)) }
{
    let mut text = Bytes::new(alloc);
    push_value(alloc, &mut text, value)?;
    Ok(text)
}

/// The canonical text of an array of these values.
pub fn list_text(alloc: Global, values: &Values) -> Result<Bytes, AllocError>
    ensures { IfOk result (λ text. text ≡ canonical (array (items_of values.now))) }
{
    let mut text = Bytes::new(alloc);
    push_list(alloc, &mut text, b'*', values)?;
    Ok(text)
}

/// Appends the canonical text of a value. An error leaves the bytes as they were.
pub fn write_value(alloc: Global, out: &mut Bytes, value: &Value) -> Result<(), AllocError>
    ensures ok { OnOk result (out.new ≡ out.old ++ canonical (data_of value.now)) }
    ensures err { OnErr result (out.new ≡ out.old) }
{
    let text = canonical_text(alloc, value)?;
    out.extend_from_slice(text.as_slice())
}

#[cycle(text)]
fn push_value(alloc: Global, out: &mut Bytes, value: &Value) -> Result<(), AllocError>
    ensures { OnOk result (out.new ≡ out.old ++ canonical (data_of value.now)) }
{
    match value {
        Value::Array(items) => push_list(alloc, out, b'*', items),
        Value::Map(pairs) => {
            push_number_line(out, b'%', count_of_pairs(pairs))?;
            push_pairs(alloc, out, pairs)
        }
        Value::Attribute { inner, attributes } => {
            push_number_line(out, b'|', count_of_pairs(attributes))?;
            push_pairs(alloc, out, attributes)?;
            push_value(alloc, out, inner.get())
        }
        Value::Set(items) => push_list(alloc, out, b'~', items),
        Value::Push { kind, parts } => {
            push_kind(out, kind, parts)?;
            push_values(alloc, out, parts)
        }
        _ => push_single(alloc, out, value),
    }
}

/// Appends a line of a first byte and how many values there are, and the values.
#[cycle(text)]
fn push_list(alloc: Global, out: &mut Bytes, first: u8, values: &Values) -> Result<(), AllocError>
    ensures { OnOk result
        (out.new ≡ out.old ++ number_line first (length (list_of (items_of values.now))) ++ each_item (items_of values.now)) }
{
    push_number_line(out, first, count_of(values))?;
    push_values(alloc, out, values)
}

/// Appends how many parts a push has, and its kind.
fn push_kind(out: &mut Bytes, kind: &PushKind, parts: &Values) -> Result<(), AllocError>
    ensures { OnOk result (out.new ≡ out.old
        ++ number_line (byte ">") (suc (length (list_of (items_of parts.now)))) ++ bulk_string (kind_text kind.now)) }
{
    push_number_line(out, b'>', count_of(parts) + 1)?;
    push_bulk_string(out, kind.name())
}

/// Appends the canonical text of a value that holds no other.
fn push_single(alloc: Global, out: &mut Bytes, value: &Value) -> Result<(), AllocError>
    requires { is_single value.now ≡ true }
    ensures { OnOk result (out.new ≡ out.old ++ canonical (data_of value.now)) }
{
    match value {
        Value::Nil => push_text_line(out, b'_', b""),
        Value::Int(number) => push_int(out, *number),
        Value::BulkString(text) => push_bulk_string(out, text.as_slice()),
        Value::SimpleString(text) => push_text_line(out, b'+', text.as_slice()),
        Value::Okay => push_text_line(out, b'+', b"OK"),
        Value::Double(text) => push_text_line(out, b',', text.as_slice()),
        Value::Boolean(on) => push_boolean(out, *on),
        Value::VerbatimString { format, text } => {
            push_verbatim(out, format.as_slice(), text.as_slice())
        }
        Value::BigNumber(text) => push_text_line(out, b'(', text.as_slice()),
        Value::ServerError(error) => push_error(alloc, out, error),
        _ => unreachable!(),
    }
}

/// Appends values one after another.
#[cycle(text)]
fn push_values(alloc: Global, out: &mut Bytes, values: &Values) -> Result<(), AllocError>
    ensures { OnOk result (out.new ≡ out.old ++ each_item (items_of values.now)) }
{
    for value in values.as_slice() {
        push_value(alloc, out, value)?;
    }
    Ok(())
}

/// Appends keys, each followed by its value.
#[cycle(text)]
fn push_pairs(alloc: Global, out: &mut Bytes, pairs: &Pairs) -> Result<(), AllocError>
    ensures { OnOk result (out.new ≡ out.old ++ each_member (members_of pairs.now)) }
{
    for pair in pairs.as_slice() {
        push_value(alloc, out, &pair.0)?;
        push_value(alloc, out, &pair.1)?;
    }
    Ok(())
}
