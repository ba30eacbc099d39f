use crate::value::{Pairs, Value, Values};
use containers::Bytes;
use std::fmt;

impl fmt::Debug for Value {
    fn fmt<W: fmt::Write>(&self, f: &mut fmt::Formatter<W>) -> fmt::Result {
        show(f, self)
    }
}

impl fmt::Debug for Values {
    fn fmt<W: fmt::Write>(&self, f: &mut fmt::Formatter<W>) -> fmt::Result {
        f.write_str("[")?;
        show_items(f, self, "]")
    }
}

impl fmt::Debug for Pairs {
    fn fmt<W: fmt::Write>(&self, f: &mut fmt::Formatter<W>) -> fmt::Result {
        f.write_str("{")?;
        show_members(f, self, "}")
    }
}

/// Shows a value as a programmer sees it.
#[cycle(shown)]
fn show<W: fmt::Write>(f: &mut fmt::Formatter<W>, value: &Value) -> fmt::Result {
    show_front(f, value)?;
    show_held(f, value)
}

/// Shows what a value holds, and closes it. Of a value that holds no other this is nothing.
#[cycle(shown)]
fn show_held<W: fmt::Write>(f: &mut fmt::Formatter<W>, value: &Value) -> fmt::Result {
    match value {
        Value::Array(items) => show_items(f, items, ")"),
        Value::Map(pairs) => show_members(f, pairs, ")"),
        Value::Attribute { inner, attributes } => {
            show(f, inner.get())?;
            f.write_str("; ")?;
            show_members(f, attributes, ")")
        }
        Value::Set(items) => show_items(f, items, ")"),
        Value::Push { kind: _, parts } => show_items(f, parts, ")"),
        _ => Ok(()),
    }
}

/// Shows all of a value that holds no other, and of another what stands before those that it holds.
fn show_front<W: fmt::Write>(f: &mut fmt::Formatter<W>, value: &Value) -> fmt::Result {
    match value {
        Value::Nil => f.write_str("nil"),
        Value::Array(_) => f.write_str("array("),
        Value::Okay => f.write_str("ok"),
        Value::Map(_) => f.write_str("map("),
        Value::Attribute { .. } => f.write_str("attribute("),
        Value::Set(_) => f.write_str("set("),
        Value::Push { kind, parts: _ } => write!(f, "push({kind:?}; "),
        _ => show_single(f, value),
    }
}

/// Shows a number, a text, a truth or an error, and of another value nothing.
fn show_single<W: fmt::Write>(f: &mut fmt::Formatter<W>, value: &Value) -> fmt::Result {
    match value {
        Value::Int(number) => show_plain(f, "int", number),
        Value::BulkString(text) => show_text(f, "bulk-string", text),
        Value::SimpleString(text) => show_text(f, "simple-string", text),
        Value::Double(text) => show_numeral(f, "double", text),
        Value::Boolean(on) => show_plain(f, "boolean", on),
        Value::VerbatimString { format, text } => show_verbatim(f, format, text),
        Value::BigNumber(text) => show_numeral(f, "big-number", text),
        Value::ServerError(error) => fmt::Debug::fmt(error, f),
        _ => Ok(()),
    }
}

/// Shows a number or a truth behind the name of its form.
fn show_plain<W: fmt::Write, T: fmt::Display>(
    f: &mut fmt::Formatter<W>,
    name: &str,
    value: &T,
) -> fmt::Result {
    write!(f, "{name}({value})")
}

/// Shows a text, in quotes, behind the name of its form.
fn show_text<W: fmt::Write>(f: &mut fmt::Formatter<W>, name: &str, text: &Bytes) -> fmt::Result {
    write!(f, "{name}({text:?})")
}

/// Shows a number that stands as a text, without quotes, behind the name of its form.
fn show_numeral<W: fmt::Write>(f: &mut fmt::Formatter<W>, name: &str, text: &Bytes) -> fmt::Result {
    write!(f, "{name}({})", text.as_slice().escape_ascii())
}

/// Shows a text with its format.
fn show_verbatim<W: fmt::Write>(
    f: &mut fmt::Formatter<W>,
    format: &Bytes,
    text: &Bytes,
) -> fmt::Result {
    write!(f, "verbatim-string({format:?}, {text:?})")
}

/// Shows values, separated by commas, and how they end.
#[cycle(shown)]
fn show_items<W: fmt::Write>(f: &mut fmt::Formatter<W>, values: &Values, end: &str) -> fmt::Result {
    for (index, value) in values.as_slice().iter().enumerate() {
        if index > 0 {
            f.write_str(", ")?;
        }
        show(f, value)?;
    }
    f.write_str(end)
}

/// Shows keys, each with its value, separated by commas, and how they end.
#[cycle(shown)]
fn show_members<W: fmt::Write>(f: &mut fmt::Formatter<W>, pairs: &Pairs, end: &str) -> fmt::Result {
    for (index, pair) in pairs.as_slice().iter().enumerate() {
        if index > 0 {
            f.write_str(", ")?;
        }
        show_pair(f, &pair.0, &pair.1)?;
    }
    f.write_str(end)
}

/// Shows a key and its value.
#[cycle(shown)]
fn show_pair<W: fmt::Write>(f: &mut fmt::Formatter<W>, key: &Value, value: &Value) -> fmt::Result {
    show(f, key)?;
    f.write_str(": ")?;
    show(f, value)
}
