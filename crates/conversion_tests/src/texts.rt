use crate::rows::{Row, are, value_of};
use containers::Bytes;
use resp_convert::{ConvertError, FromRedisValue};
use resp_value::Value;
use std::alloc::{AllocError, Global};

/// Texts in each form.
const BYTES: [Row; 6] = [
    (b"$1\r\n\xff\r\n", "Ok(\"\\xff\")"),
    (b"+s\r\n", "Ok(\"s\")"),
    (b"=5\r\ntxt:v\r\n", "Ok(\"v\")"),
    (b"+OK\r\n", "Ok(\"OK\")"),
    (b"|1\r\n+OK\r\n:9\r\n$1\r\ne\r\n", "Ok(\"e\")"),
    (b":7\r\n", "Err(Convert { value: int(7) })"),
];

/// Texts in each form, and texts that are not UTF-8.
const STRINGS: [Row; 7] = [
    (b"$2\r\n\xc3\xa9\r\n", "Ok(\"\u{e9}\")"),
    (b"+s\r\n", "Ok(\"s\")"),
    (b"=5\r\ntxt:v\r\n", "Ok(\"v\")"),
    (b"+OK\r\n", "Ok(\"OK\")"),
    (b"|1\r\n+OK\r\n:9\r\n$1\r\ne\r\n", "Ok(\"e\")"),
    (
        b"$1\r\n\xff\r\n",
        "Err(Convert { value: bulk-string(\"\\xff\") })",
    ),
    (
        b"=5\r\ntxt:\xc3\r\n",
        "Err(Convert { value: verbatim-string(\"txt\", \"\\xc3\") })",
    ),
];

const OPTIONS: [Row; 3] = [
    (b"_\r\n", "Ok(None)"),
    (b":3\r\n", "Ok(Some(3))"),
    (b"$1\r\nx\r\n", "Err(Convert { value: bulk-string(\"x\") })"),
];

/// What is no error is nothing.
const NOTHING: [Row; 2] = [
    (b"_\r\n", "Ok(())"),
    (b"-ERR\r\n", "Err(Convert { value: server-error(\"ERR\") })"),
];

const ANYTHING: [Row; 2] = [
    (b":5\r\n", "Ok(int(5))"),
    (b"-ERR\r\n", "Ok(server-error(\"ERR\"))"),
];

fn are_texts_read(alloc: Global) -> Result<bool, AllocError> {
    Ok(are::<Bytes>(alloc, &BYTES)? && are::<String>(alloc, &STRINGS)?)
}

fn are_others_read(alloc: Global) -> Result<bool, AllocError> {
    Ok(
        are::<Option<i64>>(alloc, &OPTIONS)?
            && are::<()>(alloc, &NOTHING)?
            && are::<Value>(alloc, &ANYTHING)?,
    )
}

#[test]
fn texts_are_read(rt: HostRuntime) -> Result<(), AllocError> {
    let alloc = rt.alloc();
    assert!(rt; are_texts_read(alloc)?);
    assert!(rt; are_others_read(alloc)?);
    Ok(())
}

/// Whether a refusal is that of a server's error or not, and says this to people.
fn is_told(
    alloc: Global,
    error: &ConvertError,
    of_server: bool,
    wanted: &str,
) -> Result<bool, AllocError> {
    let text = format!(in alloc; "{error}")?;
    Ok(error.server_error().is_some() == of_server && text.as_str() == wanted)
}

/// Whether no number was read, and the refusal says this.
fn is_refusal_told(
    alloc: Global,
    read: &Result<i64, ConvertError>,
    of_server: bool,
    wanted: &str,
) -> Result<bool, AllocError> {
    match read {
        Ok(_) => Ok(false),
        Err(error) => is_told(alloc, error, of_server, wanted),
    }
}

/// Whether a text is refused as a number so.
fn is_refused(
    alloc: Global,
    text: &[u8],
    of_server: bool,
    wanted: &str,
) -> Result<bool, AllocError> {
    let value = value_of(alloc, text)?;
    let read = i64::from_redis_value(alloc, value);
    let refused = is_refusal_told(alloc, &read, of_server, wanted);
    drop(read);
    refused
}

/// Values that are no numbers, whether each is a server's error, and what people are told.
const REFUSALS: [(&[u8], bool, &str); 3] = [
    (b"-ERR\r\n", true, "the server answered an error: ERR"),
    (
        b"|1\r\n+OK\r\n:9\r\n-ERR\r\n",
        true,
        "the value is of another type: attribute(server-error(\"ERR\"); ok: int(9))",
    ),
    (b"_\r\n", false, "the value is of another type: nil"),
];

#[test]
fn refusals_tell_the_error(rt: HostRuntime) -> Result<(), AllocError> {
    for (text, of_server, wanted) in &REFUSALS {
        assert!(rt;
            is_refused(rt.alloc(), text, *of_server, wanted)?,
            "{wanted}"
        );
    }
    Ok(())
}
