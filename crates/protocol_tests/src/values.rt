use crate::making::{has_text, is_shown, value_of};
use containers::Bytes;
use resp_value::{PushKind, Value};
use resp_write::write_value;
use std::alloc::{AllocError, Global};

/// Whether a value has this text, where it is added behind another byte too.
fn is_written(alloc: Global, value: &Value, wanted: &[u8]) -> Result<bool, AllocError> {
    let mut all = Bytes::from_slice(alloc, b"=")?;
    write_value(alloc, &mut all, value)?;
    Ok(all.len() == wanted.len() + 1 && has_text(alloc, value, wanted)?)
}

/// Whether a copy is the same value, and is shown so.
fn is_same(alloc: Global, copy: &Value, value: &Value, wanted: &str) -> Result<bool, AllocError> {
    Ok(*copy == *value && is_shown(alloc, copy, wanted)?)
}

/// Whether the copy of a value is the same value, and is shown so.
fn is_copied(alloc: Global, value: &Value, wanted: &str) -> Result<bool, AllocError> {
    let copy = value.clone(alloc)?;
    let is_so = is_same(alloc, &copy, value, wanted);
    drop(copy);
    is_so
}

/// Whether the value of a text is shown so, itself and as a copy, and has that text.
fn is(alloc: Global, text: &[u8], shown: &str) -> Result<bool, AllocError> {
    let value = value_of(alloc, text)?;
    let written = is_written(alloc, &value, text);
    let copied = is_copied(alloc, &value, shown);
    drop(value);
    Ok(written? && copied?)
}

/// Texts of values, each with how a programmer sees the value.
const VALUES: [(&[u8], &str); 25] = [
    (b"_\r\n", "nil"),
    (b":0\r\n", "int(0)"),
    (b":-7\r\n", "int(-7)"),
    (b"#f\r\n", "boolean(false)"),
    (b"#t\r\n", "boolean(true)"),
    (b"+OK\r\n", "ok"),
    (b"+x\r\n", "simple-string(\"x\")"),
    (b"$0\r\n\r\n", "bulk-string(\"\")"),
    (b"$3\r\na b\r\n", "bulk-string(\"a b\")"),
    (b"$2\r\n\"\\\r\n", "bulk-string(\"\\\"\\\\\")"),
    (b"$4\r\n\r\n\0\xff\r\n", "bulk-string(\"\\r\\n\\x00\\xff\")"),
    (b",-1.50e3\r\n", "double(-1.50e3)"),
    (b"(+0012\r\n", "big-number(+0012)"),
    (b"=6\r\ntxt:ab\r\n", "verbatim-string(\"txt\", \"ab\")"),
    (b"-ERR\r\n", "server-error(\"ERR\")"),
    (b"-ERR no  such\r\n", "server-error(\"ERR\", \"no  such\")"),
    (b"!7\r\nERR a\nb\r\n", "server-error(\"ERR\", \"a\\nb\")"),
    (b"*0\r\n", "array()"),
    (
        b"*2\r\n:-7\r\n+x\r\n",
        "array(int(-7), simple-string(\"x\"))",
    ),
    (b"~2\r\n:-7\r\n_\r\n", "set(int(-7), nil)"),
    (
        b"%2\r\n#t\r\n_\r\n:1\r\n:2\r\n",
        "map(boolean(true): nil, int(1): int(2))",
    ),
    (
        b"|1\r\n+OK\r\n_\r\n*2\r\n:7\r\n-ERR no\r\n",
        "attribute(array(int(7), server-error(\"ERR\", \"no\")); ok: nil)",
    ),
    (
        b">3\r\n$8\r\npmessage\r\n:-7\r\n_\r\n",
        "push(pmessage; int(-7), nil)",
    ),
    (b">1\r\n$8\r\nsmessage\r\n", "push(smessage; )"),
    (b">1\r\n$2\r\nx\n\r\n", "push(other(\"x\\n\"); )"),
];

#[test]
fn values_are_written_copied_and_shown(rt: HostRuntime) -> Result<(), AllocError> {
    for (text, shown) in &VALUES {
        assert!(rt; is(rt.alloc(), text, shown)?, "{shown}");
    }
    Ok(())
}

/// How what is extracted of the value of a text is shown: its first error, or itself.
fn extracted(alloc: Global, text: &[u8]) -> Result<String, AllocError> {
    let value = value_of(alloc, text)?;
    let extracted = value.extract_error();
    let shown = format!(in alloc; "{extracted:?}");
    drop(extracted);
    shown
}

fn is_extracted(alloc: Global, text: &[u8], wanted: &str) -> Result<bool, AllocError> {
    let shown = extracted(alloc, text)?;
    Ok(shown.as_str() == wanted)
}

const EXTRACTED: [(&[u8], &str); 2] = [
    (
        b"|1\r\n+OK\r\n_\r\n*2\r\n:7\r\n-ERR no\r\n",
        "Err(server-error(\"ERR\", \"no\"))",
    ),
    (b"*1\r\n:7\r\n", "Ok(array(int(7)))"),
];

/// Whether kinds of pushes have names, and are told apart.
fn are_named() -> bool {
    PushKind::SMessage.name() == b"smessage".as_slice() && PushKind::SMessage != PushKind::Message
}

#[test]
fn errors_are_extracted(rt: HostRuntime) -> Result<(), AllocError> {
    for (text, wanted) in &EXTRACTED {
        assert!(rt; is_extracted(rt.alloc(), text, wanted)?, "{wanted}");
    }
    assert!(rt; are_named());
    Ok(())
}
