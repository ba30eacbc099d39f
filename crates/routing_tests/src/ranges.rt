ghost use Rattle.std.specs.Prelude.{◌≡◌, ◌<◌};

use containers::Bytes;
use mux_routing::{RangeTable, SlotMap, SlotRange, SlotsError, Steps, parse_slots};
use resp_value::{Value, Values};
use std::alloc::{AllocError, Global};
use std::marker::Brand;
use std::sync::ledger::{Blank, Ledger};
use std::test::Fail;

/// A row of one node, on a host of one byte.
fn row(alloc: Global, start: i64, end: i64, host: u8) -> Result<Value, AllocError> {
    let mut node = Values::new(alloc);
    node.push(Value::BulkString(Bytes::from_slice(alloc, &[host])?))?;
    node.push(Value::Int(1))?;
    let mut parts = Values::new(alloc);
    parts.push(Value::Int(start))?;
    parts.push(Value::Int(end))?;
    parts.push(Value::Array(node))?;
    Ok(Value::Array(parts))
}

/// The first and the last slot of a row, and its host.
type Row = (i64, i64, u8);

/// A reply with these rows.
fn reply(alloc: Global, rows: &[Row]) -> Result<Value, AllocError> {
    let mut told = Values::new(alloc);
    for one in rows {
        told.push(row(alloc, one.0, one.1, one.2)?)?;
    }
    Ok(Value::Array(told))
}

/// A reply with a row for each slot.
fn reply_by_slots(alloc: Global) -> Result<Value, AllocError> {
    let mut told = Values::new(alloc);
    for slot in 0..16_384i64 {
        told.push(row(alloc, slot, slot, b'h')?)?;
    }
    Ok(Value::Array(told))
}

/// The map of a reply.
fn map_of(alloc: Global, reply: &Value) -> Result<SlotMap, SlotsError> {
    let rows = parse_slots(alloc, reply, b"h")?;
    let made = SlotMap::from_rows(alloc, &rows);
    drop(rows);
    Ok(made?)
}

fn map(alloc: Global, rows: &[Row]) -> Result<SlotMap, SlotsError> {
    let told = reply(alloc, rows)?;
    let made = map_of(alloc, &told);
    drop(told);
    made
}

/// The first and the last slot of a range, and the number of its row.
type Range = (u16, u16, u32);

/// Whether a table has these ranges and no others.
fn are_ranges<L: Ledger>(table: &RangeTable, wanted: &[Range], blank: Blank) -> bool
    requires name { blank.name ≡ L.name }
    requires parts { blank.parts ≡ L.parts }
    requires some { 0 < blank.parts }
{
    let mut steps = Steps::<L>::new(blank);
    let mut i = 0;
    for range in wanted {
        if i >= table.len() {
            return false;
        }
        let (start, end, row) = *range;
        if table.probe(i, &mut steps) != (SlotRange { start, end, row }) {
            return false;
        }
        i += 1;
    }
    i == table.len()
}

/// Whether the map of rows has these ranges.
fn has_ranges(alloc: Global, rows: &[Row], wanted: &[Range]) -> Result<bool, SlotsError> {
    let map = map(alloc, rows)?;
    Ok(are_ranges::<Brand>(map.ranges(), wanted, Blank::new(1)))
}

const ROWS: [&[Row]; 16] = [
    &[],
    &[(7, 7, b'a')],
    &[(0, 16_383, b'a')],
    &[(0, 100, b'a'), (50, 60, b'b')],
    &[(50, 60, b'b'), (0, 100, b'a')],
    &[(0, 100, b'a'), (0, 100, b'a')],
    &[(0, 9, b'a'), (10, 19, b'a')],
    &[(10, 19, b'a'), (0, 9, b'b')],
    &[(0, 10, b'a'), (5, 15, b'b')],
    &[(5, 15, b'b'), (0, 10, b'a')],
    &[(0, 10, b'a'), (0, 5, b'b')],
    &[(0, 10, b'a'), (5, 10, b'b')],
    &[(3, 3, b'a'), (2, 4, b'b'), (3, 3, b'c')],
    &[(0, 16_383, b'a'), (0, 0, b'b'), (16_383, 16_383, b'c')],
    &[(0, 9, b'a'), (20, 29, b'b'), (5, 24, b'c'), (12, 13, b'd')],
    &[(0, 9, b'a'), (3, 4, b'b'), (4, 5, b'c'), (2, 6, b'd')],
];

const RANGES: [&[Range]; 16] = [
    &[],
    &[(7, 7, 0)],
    &[(0, 16_383, 0)],
    &[(0, 49, 0), (50, 60, 1), (61, 100, 0)],
    &[(0, 100, 1)],
    &[(0, 100, 1)],
    &[(0, 9, 0), (10, 19, 1)],
    &[(0, 9, 1), (10, 19, 0)],
    &[(0, 4, 0), (5, 15, 1)],
    &[(0, 10, 1), (11, 15, 0)],
    &[(0, 5, 1), (6, 10, 0)],
    &[(0, 4, 0), (5, 10, 1)],
    &[(2, 2, 1), (3, 3, 2), (4, 4, 1)],
    &[(0, 0, 1), (1, 16_382, 0), (16_383, 16_383, 2)],
    &[(0, 4, 0), (5, 11, 2), (12, 13, 3), (14, 24, 2), (25, 29, 1)],
    &[(0, 1, 0), (2, 6, 3), (7, 9, 0)],
];

#[test]
fn later_rows_cut_earlier_ones(rt: HostRuntime) -> Result<(), Fail> {
    for i in 0..ROWS.len() {
        assert!(rt; has_ranges(rt.alloc(), ROWS[i], RANGES[i])?);
    }
    Ok(())
}

/// The primary of a slot, where the steps are not counted.
fn found<L: Ledger>(map: &SlotMap, slot: u16, blank: Blank) -> Option<u32>
    requires name { blank.name ≡ L.name }
    requires parts { blank.parts ≡ L.parts }
    requires some { 0 < blank.parts }
{
    let mut steps = Steps::<L>::new(blank);
    map.find(slot, &mut steps)
}

/// The first byte of the host of a slot's primary.
fn host(map: &SlotMap, slot: u16) -> Option<u8> {
    let place = found::<Brand>(map, slot, Blank::new(1))?;
    let node = map.get(place)?;
    node.host.as_slice().first().copied()
}

/// Whether the primary of a slot is on that host, for the rows 0 to 100 at a and 50 to 60 at b.
fn has_host(alloc: Global, slot: u16, wanted: Option<u8>) -> Result<bool, SlotsError> {
    let map = map(alloc, ROWS[3])?;
    Ok(host(&map, slot) == wanted)
}

const HOSTS: [(u16, Option<u8>); 8] = [
    (0, Some(b'a')),
    (49, Some(b'a')),
    (50, Some(b'b')),
    (60, Some(b'b')),
    (61, Some(b'a')),
    (100, Some(b'a')),
    (101, None),
    (16_383, None),
];

#[test]
fn slots_are_found_in_ranges(rt: HostRuntime) -> Result<(), Fail> {
    for row in &HOSTS {
        assert!(rt; has_host(rt.alloc(), row.0, row.1)?);
    }
    Ok(())
}

/// How many ranges there are where each slot has a row.
fn ranges_by_slots(alloc: Global) -> Result<u32, SlotsError> {
    let told = reply_by_slots(alloc)?;
    let made = map_of(alloc, &told);
    drop(told);
    let map = made?;
    Ok(map.ranges().len())
}

#[test]
fn each_slot_may_have_a_row(rt: HostRuntime) -> Result<(), Fail> {
    assert_eq!(rt; ranges_by_slots(rt.alloc())?, 16_384);
    Ok(())
}
