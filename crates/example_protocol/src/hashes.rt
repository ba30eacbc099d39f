//! Converts replies to HGETALL, of either protocol, and prints the fields of the hash in order, or why there are none.

use mux_resp::{Bytes, ConvertError, FromRedisValue, Pairs, ServerError, Value, Values};
use std::alloc::{AllocError, Global};
use std::collections::BTreeMap;
use std::io;

/// The fields of a hash, each with its value.
type Fields = BTreeMap<String, String>;

fn bulk(alloc: Global, text: &[u8]) -> Result<Value, AllocError> {
    Ok(Value::BulkString(Bytes::from_slice(alloc, text)?))
}

/// A reply of RESP2: an array of fields and values in turn.
fn flat_reply(alloc: Global) -> Result<Value, AllocError> {
    let mut items = Values::new(alloc);
    for text in ["name", "Ada", "born", "1815"] {
        let item = bulk(alloc, text.as_bytes())?;
        items.push(item)?;
    }
    Ok(Value::Array(items))
}

/// A reply of RESP3: a map.
fn map_reply(alloc: Global) -> Result<Value, AllocError> {
    let mut pairs = Pairs::new(alloc);
    for (field, value) in [("name", "Grace"), ("born", "1906")] {
        let field = bulk(alloc, field.as_bytes())?;
        let value = bulk(alloc, value.as_bytes())?;
        pairs.push(field, value)?;
    }
    Ok(Value::Map(pairs))
}

/// A reply that lacks the value of its last field.
fn odd_reply(alloc: Global) -> Result<Value, AllocError> {
    let mut items = Values::new(alloc);
    let item = bulk(alloc, b"name")?;
    items.push(item)?;
    Ok(Value::Array(items))
}

/// The reply of a server that holds no hash at the key.
fn refusal(alloc: Global) -> Result<Value, AllocError> {
    let code = Bytes::from_slice(alloc, b"WRONGTYPE")?;
    let detail = Some(Bytes::from_slice(alloc, b"wrong kind of value")?);
    Ok(Value::ServerError(ServerError { code, detail }))
}

/// The fields, one a line.
fn lines_of(alloc: Global, fields: &Fields) -> Result<String, AllocError> {
    let mut text = String::new(alloc);
    for (field, value) in fields {
        let line = format!(in alloc; "{field}: {value}\n")?;
        text.push_str(line.as_str())?;
    }
    Ok(text)
}

/// What was read, or why nothing was.
fn shown(alloc: Global, read: &Result<Fields, ConvertError>) -> Result<String, AllocError> {
    match read {
        Ok(fields) => lines_of(alloc, fields),
        Err(ConvertError::NoMemory) => Err(AllocError),
        Err(refused) => format!(in alloc; "{refused}\n"),
    }
}

/// What a reply says.
fn told(alloc: Global, reply: Value) -> Result<String, AllocError> {
    let read = Fields::from_redis_value(alloc, reply);
    let text = shown(alloc, &read);
    drop(read);
    text
}

/// Prints what four replies say.
pub fn print_hashes(rt: &impl Print, alloc: Global) -> io::Result<()> {
    let text = told(alloc, flat_reply(alloc)?)?;
    print!(rt; "{text}")?;
    let text = told(alloc, map_reply(alloc)?)?;
    print!(rt; "{text}")?;
    let text = told(alloc, odd_reply(alloc)?)?;
    print!(rt; "{text}")?;
    let text = told(alloc, refusal(alloc)?)?;
    print!(rt; "{text}")
}
