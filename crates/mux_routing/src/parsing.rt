ghost use Rattle.std.specs.Prelude.{◌≡◌, ◌==◌, ◌||◌, nat_lt, true, length, codes};
ghost use Rattle.std.specs.Prelude.{IfOk, IsErrOf, Some, None, MatchOption};
ghost use Rattle.std.specs.Str.{bytes_eq};
ghost use Rattle.resp_value.specs.Data.{int};
ghost use Rattle.resp_value.specs.View.{data_of, list_view};
ghost use Rattle.mux_routing.specs.Reply.{elements, host_text, is_answering, number_to, text_of};
ghost use Rattle.mux_routing.specs.Reply.{all_told, are_rows, node_count, node_of, row_of, rows_of};

use crate::rows::{SlotRow, SlotRows, SlotsError};
use containers::{Bytes, Seq};
use resp_value::Value;
use slot_hash::{NodeAddress, is_text};
use std::alloc::Global;

/// The elements of an array.
#[tactic(auto, using(crate::proofs::Elements::of_array))]
fn elements(value: &Value) -> Option<&[Value]>
    ensures { MatchOption result (elements (data_of value.now) ≡ None)
        (λ xs. elements (data_of value.now) ≡ Some (list_view xs.now)) }
{
    match value {
        Value::Array(items) => Some(items.as_slice()),
        _ => None,
    }
}

/// A text, if it is UTF-8.
fn text_of(text: &[u8]) -> Option<&[u8]>
    ensures { MatchOption result (text_of text.now ≡ None)
        (λ t. text_of text.now ≡ Some t.now) }
{
    if is_text(text) { Some(text) } else { None }
}

/// The host that a node tells.
fn host_text(value: &Value) -> Option<&[u8]>
    ensures { MatchOption result (host_text (data_of value.now) ≡ None)
        (λ t. host_text (data_of value.now) ≡ Some t.now) }
{
    match value {
        Value::Nil => Some(b""),
        Value::BulkString(text) => text_of(text.as_slice()),
        Value::SimpleString(text) => text_of(text.as_slice()),
        Value::Okay => Some(b"OK"),
        _ => None,
    }
}

/// A number that is at most that.
fn number_to(value: &Value, most: u16) -> Option<u16>
    ensures { result ≡ number_to most (data_of value.now) }
{
    match value {
        Value::Int(n) => number_within(*n, most),
        _ => None,
    }
}

fn number_within(n: i64, most: u16) -> Option<u16>
    ensures { result ≡ number_to most (int n) }
{
    if n >= 0 && n <= i64::from(most) {
        Some(n as u16)
    } else {
        None
    }
}

/// Whether a text stands for the host of the node that answered.
fn is_answering(text: &[u8]) -> bool
    ensures { result ≡ is_answering text.now }
{
    text.is_empty() || text == b"0.0.0.0".as_slice() || text == b"::".as_slice()
}

/// Whether a text is the host of an unknown node.
fn is_unknown(text: &[u8]) -> bool
    ensures { result ≡ bytes_eq text.now (codes "?") }
{
    text == b"?".as_slice()
}

/// The address of a node, or that it is left out.
#[tactic(auto, unfolding(crate::specs::Reply::node_of))]
fn node(alloc: Global, host: &[u8], value: &Value) -> Result<Option<NodeAddress>, SlotsError>
    ensures ok { IfOk result (λ n. node_of host.now (data_of value.now) ≡ Some n) }
    ensures parse { IsErrOf result SlotsError.Parse
        → node_of host.now (data_of value.now) ≡ None }
{
    let Some([first, second, ..]) = elements(value) else {
        return Err(SlotsError::Parse);
    };
    let Some(text) = host_text(first) else {
        return Err(SlotsError::Parse);
    };
    let Some(port) = number_to(second, 65_535) else {
        return Err(SlotsError::Parse);
    };
    if is_unknown(text) {
        return Ok(None);
    }
    let shown = if is_answering(text) { host } else { text };
    let host = Bytes::from_slice(alloc, shown)?;
    Ok(Some(NodeAddress { host, port }))
}

/// The nodes that aren't left out.
#[tactic(auto, using(crate::proofs::Elements::one_more, crate::proofs::Elements::one_left_out))]
fn nodes(alloc: Global, host: &[u8], mut values: &[Value]) -> Result<Seq<NodeAddress>, SlotsError>
    ensures ok { IfOk result
        (λ ns. all_told (node_of host.now) (list_view values.entry.now) ≡ Some ns) }
    ensures parse { IsErrOf result SlotsError.Parse
        → all_told (node_of host.now) (list_view values.entry.now) ≡ None }
{
    let mut nodes = Seq::new(alloc);
    while let [value, rest @ ..] = values {
        match node(alloc, host, value) {
            Err(error) => return Err(error),
            Ok(None) => {}
            Ok(Some(address)) => nodes.push(address)?,
        }
        values = rest;
    }
    Ok(nodes)
}

/// A row, or that it is left out.
#[tactic(auto, unfolding(crate::specs::Reply::row_of))]
fn row(alloc: Global, host: &[u8], value: &Value) -> Result<Option<SlotRow>, SlotsError>
    ensures ok { IfOk result (λ r. row_of host.now (data_of value.now) ≡ Some r) }
    ensures parse { IsErrOf result SlotsError.Parse
        → row_of host.now (data_of value.now) ≡ None }
{
    let Some([first, last, primary, replicas @ ..]) = elements(value) else {
        return Err(SlotsError::Parse);
    };
    let Some(start) = number_to(first, 16_383) else {
        return Err(SlotsError::Parse);
    };
    let Some(end) = number_to(last, 16_383) else {
        return Err(SlotsError::Parse);
    };
    if start > end {
        return Err(SlotsError::Parse);
    }
    let primary = match node(alloc, host, primary) {
        Ok(primary) => primary,
        Err(error) => return Err(error),
    };
    let replicas = match nodes(alloc, host, replicas) {
        Ok(replicas) => replicas,
        Err(error) => return Err(error),
    };
    match primary {
        None => Ok(None),
        Some(primary) => Ok(Some(SlotRow {
            start,
            end,
            primary,
            replicas,
        })),
    }
}

/// The rows that aren't left out.
#[tactic(auto, using(crate::proofs::Elements::one_more, crate::proofs::Elements::one_left_out))]
fn rows(alloc: Global, host: &[u8], mut values: &[Value]) -> Result<SlotRows, SlotsError>
    ensures ok { IfOk result
        (λ rs. all_told (row_of host.now) (list_view values.entry.now) ≡ Some rs) }
    ensures parse { IsErrOf result SlotsError.Parse
        → all_told (row_of host.now) (list_view values.entry.now) ≡ None }
{
    let mut rows = Seq::new(alloc);
    while let [value, rest @ ..] = values {
        match row(alloc, host, value) {
            Err(error) => return Err(error),
            Ok(None) => {}
            Ok(Some(more)) => rows.push(more)?,
        }
        values = rest;
    }
    Ok(rows)
}

/// Whether the rows have fewer than 2^32 nodes.
fn are_few(rows: &[SlotRow]) -> bool
    ensures { result ≡ nat_lt (node_count rows.now) 4_294_967_296 }
{
    let mut count = 0u64;
    for row in rows {
        let replicas = row.replicas.len() as u64;
        if replicas >= 4_294_967_295 - count {
            return false;
        }
        count += 1 + replicas;
    }
    true
}

/// The rows in a reply to CLUSTER SLOTS, given by the node of that host.
#[tactic(auto, using(crate::proofs::Ranges::rows_in_range))]
pub fn parse_slots(alloc: Global, reply: &Value, host: &[u8]) -> Result<SlotRows, SlotsError>
    ensures ok { IfOk result (λ rows. rows_of host.now (data_of reply.now) ≡ Some rows) }
    ensures valid { IfOk result (λ rows. are_rows rows ≡ true) }
    ensures parse { IsErrOf result SlotsError.Parse
        → rows_of host.now (data_of reply.now) ≡ None }
{
    let Some(values) = elements(reply) else {
        return Err(SlotsError::Parse);
    };
    let rows = match rows(alloc, host, values) {
        Ok(rows) => rows,
        Err(error) => return Err(error),
    };
    if !are_few(rows.as_slice()) {
        return Err(SlotsError::Parse);
    }
    Ok(rows)
}
