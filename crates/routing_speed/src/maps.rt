ghost use Rattle.std.specs.Prelude.{◌≡◌, true, IfOk, IfSome};
ghost use Rattle.mux_routing.specs.Reply.{are_rows};

use containers::Bytes;
use itoa::Buffer;
use mux_routing::{NodeAddress, Route, SlotAddr, SlotMap, SlotRows, parse_slots};
use resp_value::{Value, Values};
use std::alloc::{AllocError, Global};

/// The host of a node: 10.0.0. and its number.
fn host(alloc: Global, number: u32) -> Result<Bytes, AllocError> {
    let mut host = Bytes::from_slice(alloc, b"10.0.0.")?;
    let mut digits = Buffer::new();
    host.extend_from_slice(digits.format(number).as_bytes())?;
    Ok(host)
}

fn node(alloc: Global, number: u32) -> Result<Value, AllocError> {
    let mut parts = Values::new(alloc);
    parts.push(Value::BulkString(host(alloc, number)?))?;
    parts.push(Value::Int(6379))?;
    Ok(Value::Array(parts))
}

/// One of so many equal parts of the slots, with a primary alone. The numbers of the primaries are mixed.
fn row(alloc: Global, part: u32, nodes: u32) -> Result<Value, AllocError> {
    let count = i64::from(nodes).max(1);
    let start = i64::from(part) * 16_384 / count;
    let end = (i64::from(part) + 1) * 16_384 / count - 1;
    let number = (u64::from(part) * 7919 % u64::from(nodes.max(1))) as u32;
    let mut parts = Values::new(alloc);
    parts.push(Value::Int(start))?;
    parts.push(Value::Int(end))?;
    parts.push(node(alloc, number)?)?;
    Ok(Value::Array(parts))
}

/// A reply to CLUSTER SLOTS of so many nodes.
fn reply(alloc: Global, nodes: u32) -> Result<Value, AllocError> {
    let mut rows = Values::new(alloc);
    for part in 0..nodes {
        rows.push(row(alloc, part, nodes)?)?;
    }
    Ok(Value::Array(rows))
}

/// The rows of so many nodes, if there are as many slots.
fn rows(alloc: Global, nodes: u32) -> Result<Option<SlotRows>, AllocError>
    ensures { IfOk result (λ found. IfSome found (λ rows. are_rows rows ≡ true)) }
{
    let reply = reply(alloc, nodes)?;
    match parse_slots(alloc, &reply, b"h") {
        Ok(rows) => Ok(Some(rows)),
        Err(_) => Ok(None),
    }
}

fn map(alloc: Global, nodes: u32) -> Result<Option<SlotMap>, AllocError> {
    let Some(rows) = rows(alloc, nodes)? else {
        return Ok(None);
    };
    Ok(Some(SlotMap::from_rows(alloc, &rows)?))
}

fn port(node: Option<&NodeAddress>) -> u64 {
    match node {
        Some(node) => u64::from(node.port),
        None => 0,
    }
}

/// The sum of the first ports of as many maps of so many nodes.
pub fn ports_of_maps(alloc: Global, nodes: u32, times: u32) -> Result<Option<u64>, AllocError> {
    let Some(rows) = rows(alloc, nodes)? else {
        return Ok(None);
    };
    let mut sum = 0u64;
    for _i in 0..times {
        let map = SlotMap::from_rows(alloc, &rows)?;
        sum = sum.wrapping_add(port(map.get(0)));
    }
    Ok(Some(sum))
}

/// The sum of the ports of so many slots' primaries.
pub fn ports_of_slots(alloc: Global, nodes: u32, times: u32) -> Result<Option<u64>, AllocError> {
    let Some(map) = map(alloc, nodes)? else {
        return Ok(None);
    };
    let mut sum = 0u64;
    for i in 0..times {
        let slot = (i % 16_384) as u16;
        let addr = SlotAddr::Master;
        sum = sum.wrapping_add(port(map.address_for_route(Route { slot, addr })));
    }
    Ok(Some(sum))
}

/// How many primaries so many fan-outs to all primaries ask.
pub fn count_of_primaries(
    alloc: Global,
    nodes: u32,
    times: u32,
) -> Result<Option<u64>, AllocError> {
    let Some(map) = map(alloc, nodes)? else {
        return Ok(None);
    };
    let mut sum = 0u64;
    for _i in 0..times {
        let primaries = map.primaries(alloc)?;
        sum = sum.wrapping_add(primaries.len() as u64);
    }
    Ok(Some(sum))
}
