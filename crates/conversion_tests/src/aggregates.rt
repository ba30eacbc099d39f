use crate::rows::{Row, are, are_pairs};
use containers::Bytes;
use resp_value::Value;
use std::alloc::{AllocError, Global};
use std::collections::{BTreeMap, BTreeSet, HashMap, HashSet};

const NUMBERS: [Row; 5] = [
    (b"*2\r\n:1\r\n$1\r\n2\r\n", "Ok([1, 2])"),
    (b"~2\r\n:1\r\n$1\r\n2\r\n", "Ok([1, 2])"),
    (b"|1\r\n+OK\r\n:9\r\n*2\r\n:1\r\n$1\r\n2\r\n", "Ok([1, 2])"),
    (
        b"*2\r\n:1\r\n$1\r\nx\r\n",
        "Err(Convert { value: array(int(1), bulk-string(\"x\")) })",
    ),
    (
        b"*2\r\n+OK\r\n:1\r\n",
        "Err(Convert { value: array(ok, int(1)) })",
    ),
];

/// Texts of each form; a text that is not UTF-8, and what is no text, behind another.
const STRINGS: [Row; 3] = [
    (
        b"*5\r\n$1\r\na\r\n+b\r\n=5\r\ntxt:c\r\n+OK\r\n|1\r\n+OK\r\n:9\r\n$1\r\ne\r\n",
        "Ok([\"a\", \"b\", \"c\", \"OK\", \"e\"])",
    ),
    (
        b"*2\r\n$1\r\na\r\n$1\r\n\xff\r\n",
        "Err(Convert { value: array(bulk-string(\"a\"), bulk-string(\"\\xff\")) })",
    ),
    (
        b"*2\r\n$1\r\na\r\n_\r\n",
        "Err(Convert { value: array(bulk-string(\"a\"), nil) })",
    ),
];

const BYTES: [Row; 2] = [
    (
        b"~5\r\n$1\r\na\r\n+b\r\n=5\r\ntxt:c\r\n+OK\r\n|1\r\n+OK\r\n:9\r\n$1\r\ne\r\n",
        "Ok([\"a\", \"b\", \"c\", \"OK\", \"e\"])",
    ),
    (
        b"*2\r\n$1\r\na\r\n:1\r\n",
        "Err(Convert { value: array(bulk-string(\"a\"), int(1)) })",
    ),
];

const OPTIONS: [Row; 2] = [
    (
        b"*5\r\n$1\r\na\r\n+b\r\n+OK\r\n|1\r\n+OK\r\n:9\r\n$1\r\ne\r\n_\r\n",
        "Ok([Some(\"a\"), Some(\"b\"), Some(\"OK\"), Some(\"e\"), None])",
    ),
    (
        b"*2\r\n$1\r\na\r\n:1\r\n",
        "Err(Convert { value: array(bulk-string(\"a\"), int(1)) })",
    ),
];

const LISTS: [Row; 1] = [(
    b"*2\r\n*2\r\n$1\r\na\r\n+b\r\n|1\r\n+OK\r\n:9\r\n~1\r\n$1\r\nc\r\n",
    "Ok([[\"a\", \"b\"], [\"c\"]])",
)];

const VALUES: [Row; 5] = [
    (b"*2\r\n:1\r\n+OK\r\n", "Ok([int(1), ok])"),
    (b"~2\r\n:1\r\n+OK\r\n", "Ok([int(1), ok])"),
    (b":1\r\n", "Err(Convert { value: int(1) })"),
    (b"_\r\n", "Err(Convert { value: nil })"),
    (b"+OK\r\n", "Err(Convert { value: ok })"),
];

fn are_texts_read(alloc: Global) -> Result<bool, AllocError> {
    Ok(
        are::<Vec<String>>(alloc, &STRINGS)?
            && are::<Vec<Bytes>>(alloc, &BYTES)?
            && are::<Vec<Option<String>>>(alloc, &OPTIONS)?,
    )
}

fn are_lists_read(alloc: Global) -> Result<bool, AllocError> {
    Ok(
        are::<Vec<i64>>(alloc, &NUMBERS)?
            && are::<Vec<Vec<String>>>(alloc, &LISTS)?
            && are::<Vec<Value>>(alloc, &VALUES)?,
    )
}

#[test]
fn lists_are_read(rt: HostRuntime) -> Result<(), AllocError> {
    let alloc = rt.alloc();
    assert!(rt; are_texts_read(alloc)?);
    assert!(rt; are_lists_read(alloc)?);
    Ok(())
}

/// Numbers, some of which stand twice.
const ORDERED: [Row; 5] = [
    (b"*5\r\n:3\r\n:1\r\n:3\r\n:2\r\n:1\r\n", "Ok({1, 2, 3})"),
    (b"~5\r\n:3\r\n:1\r\n:3\r\n:2\r\n:1\r\n", "Ok({1, 2, 3})"),
    (b"|1\r\n+OK\r\n:9\r\n*2\r\n:3\r\n:1\r\n", "Ok({1, 3})"),
    (
        b"~2\r\n:3\r\n$1\r\nx\r\n",
        "Err(Convert { value: set(int(3), bulk-string(\"x\")) })",
    ),
    (b"_\r\n", "Err(Convert { value: nil })"),
];

/// The same without an order: one number, which stands twice.
const HASHED: [Row; 5] = [
    (b"*2\r\n:3\r\n$1\r\n3\r\n", "Ok({3})"),
    (b"~2\r\n:3\r\n:3\r\n", "Ok({3})"),
    (b"|1\r\n+OK\r\n:9\r\n*1\r\n:3\r\n", "Ok({3})"),
    (
        b"~2\r\n:3\r\n$1\r\nx\r\n",
        "Err(Convert { value: set(int(3), bulk-string(\"x\")) })",
    ),
    (b"_\r\n", "Err(Convert { value: nil })"),
];

/// A key that stands twice has its last value.
const HASH_MAPS: [Row; 5] = [
    (b"%2\r\n:1\r\n:10\r\n:1\r\n:11\r\n", "Ok({1: 11})"),
    (b"*4\r\n:1\r\n:10\r\n:1\r\n:11\r\n", "Ok({1: 11})"),
    (
        b"~2\r\n:1\r\n:10\r\n",
        "Err(Convert { value: set(int(1), int(10)) })",
    ),
    (
        b"*3\r\n:1\r\n:10\r\n:3\r\n",
        "Err(Convert { value: array(int(1), int(10), int(3)) })",
    ),
    (b"_\r\n", "Err(Convert { value: nil })"),
];

const MAPS: [Row; 6] = [
    (
        b"%2\r\n$1\r\nb\r\n:2\r\n$1\r\na\r\n:1\r\n",
        "Ok({\"a\": 1, \"b\": 2})",
    ),
    (
        b"|1\r\n+OK\r\n:9\r\n%2\r\n$1\r\nb\r\n:2\r\n$1\r\na\r\n:1\r\n",
        "Ok({\"a\": 1, \"b\": 2})",
    ),
    (
        b"*6\r\n$1\r\na\r\n:0\r\n$1\r\na\r\n:1\r\n$1\r\na\r\n:2\r\n",
        "Ok({\"a\": 2})",
    ),
    (b"*0\r\n", "Ok({})"),
    (
        b"*1\r\n$1\r\na\r\n",
        "Err(Convert { value: array(bulk-string(\"a\")) })",
    ),
    (
        b"*2\r\n$1\r\na\r\n_\r\n",
        "Err(Convert { value: array(bulk-string(\"a\"), nil) })",
    ),
];

fn are_sets_read(alloc: Global) -> Result<bool, AllocError> {
    Ok(are::<BTreeSet<i64>>(alloc, &ORDERED)? && are::<HashSet<i64>>(alloc, &HASHED)?)
}

fn are_maps_read(alloc: Global) -> Result<bool, AllocError> {
    Ok(are::<BTreeMap<String, i64>>(alloc, &MAPS)? && are::<HashMap<i64, i64>>(alloc, &HASH_MAPS)?)
}

/// Keys in their order, each with a number.
const PAIRS: [Row; 3] = [
    (
        b"%2\r\n$1\r\nb\r\n:2\r\n$1\r\na\r\n:1\r\n",
        "[(\"b\", 2), (\"a\", 1)]",
    ),
    (
        b"|1\r\n+OK\r\n:9\r\n%1\r\n$1\r\nb\r\n:2\r\n",
        "[(\"b\", 2)]",
    ),
    (
        b"*4\r\n$1\r\na\r\n:0\r\n$1\r\na\r\n:1\r\n",
        "[(\"a\", 0), (\"a\", 1)]",
    ),
];

/// A map of texts, of which one value is nil.
const MAP: &[u8] = b"%2\r\n$1\r\na\r\n|1\r\n+OK\r\n:9\r\n$1\r\nb\r\n+OK\r\n_\r\n";

/// Whether the map is read where its values may be nil, and given back where they may not.
fn is_map_read(alloc: Global) -> Result<bool, AllocError> {
    let pairs = "[(\"a\", Some(\"b\")), (\"OK\", None)]";
    let whole =
        "Convert { value: map(bulk-string(\"a\"): attribute(bulk-string(\"b\"); ok: int(9)), ok: nil) }";
    Ok(
        are_pairs::<String, Option<Bytes>>(alloc, MAP, pairs)?
            && are_pairs::<String, Bytes>(alloc, MAP, whole)?,
    )
}

#[test]
fn sets_and_maps_are_read(rt: HostRuntime) -> Result<(), AllocError> {
    let alloc = rt.alloc();
    assert!(rt; are_sets_read(alloc)?);
    assert!(rt; are_maps_read(alloc)?);
    Ok(())
}

#[test]
fn pairs_are_read(rt: HostRuntime) -> Result<(), AllocError> {
    assert!(rt; is_map_read(rt.alloc())?);
    for (text, wanted) in &PAIRS {
        assert!(rt;
            are_pairs::<Bytes, i64>(rt.alloc(), text, wanted)?,
            "{wanted}"
        );
    }
    Ok(())
}

const TWO: [Row; 3] = [
    (b"*2\r\n$1\r\na\r\n:0\r\n", "Ok((\"a\", 0))"),
    (
        b"*3\r\n$1\r\na\r\n:0\r\n:1\r\n",
        "Err(Convert { value: array(bulk-string(\"a\"), int(0), int(1)) })",
    ),
    (b"_\r\n", "Err(Convert { value: nil })"),
];

const THREE: [Row; 7] = [
    (b"*3\r\n:0\r\n:1\r\n:2\r\n", "Ok((0, 1, Some(2)))"),
    (b"~3\r\n:0\r\n:1\r\n:2\r\n", "Ok((0, 1, Some(2)))"),
    (
        b"|1\r\n+OK\r\n:9\r\n*3\r\n:0\r\n:1\r\n_\r\n",
        "Ok((0, 1, None))",
    ),
    (
        b"*2\r\n:0\r\n:1\r\n",
        "Err(Convert { value: array(int(0), int(1)) })",
    ),
    (
        b"*4\r\n:0\r\n:1\r\n:2\r\n:3\r\n",
        "Err(Convert { value: array(int(0), int(1), int(2), int(3)) })",
    ),
    (
        b"*3\r\n:0\r\n:1\r\n+x\r\n",
        "Err(Convert { value: array(int(0), int(1), simple-string(\"x\")) })",
    ),
    (b"_\r\n", "Err(Convert { value: nil })"),
];

const FOUR: [Row; 2] = [
    (b"*4\r\n:0\r\n:1\r\n:2\r\n:3\r\n", "Ok((0, 1, 2, 3))"),
    (
        b"*3\r\n:0\r\n:1\r\n:2\r\n",
        "Err(Convert { value: array(int(0), int(1), int(2)) })",
    ),
];

const FIVE: [Row; 2] = [
    (
        b"*5\r\n:0\r\n:1\r\n:2\r\n:3\r\n:4\r\n",
        "Ok((0, 1, 2, 3, 4))",
    ),
    (
        b"*6\r\n:0\r\n:1\r\n:2\r\n:3\r\n:4\r\n:5\r\n",
        "Err(Convert { value: array(int(0), int(1), int(2), int(3), int(4), int(5)) })",
    ),
];

const SIX: [Row; 2] = [
    (
        b"*6\r\n:0\r\n:1\r\n:2\r\n:3\r\n:4\r\n:5\r\n",
        "Ok((0, 1, 2, 3, 4, 5))",
    ),
    (
        b"*5\r\n:0\r\n:1\r\n:2\r\n:3\r\n:4\r\n",
        "Err(Convert { value: array(int(0), int(1), int(2), int(3), int(4)) })",
    ),
];

fn are_short_read(alloc: Global) -> Result<bool, AllocError> {
    Ok(
        are::<(Bytes, i64)>(alloc, &TWO)?
            && are::<(u8, i64, Option<i64>)>(alloc, &THREE)?
            && are::<(i64, i64, i64, i64)>(alloc, &FOUR)?,
    )
}

fn are_long_read(alloc: Global) -> Result<bool, AllocError> {
    Ok(
        are::<(i64, i64, i64, i64, i64)>(alloc, &FIVE)?
            && are::<(i64, i64, i64, i64, i64, i64)>(alloc, &SIX)?,
    )
}

#[test]
fn tuples_are_read(rt: HostRuntime) -> Result<(), AllocError> {
    let alloc = rt.alloc();
    assert!(rt; are_short_read(alloc)?);
    assert!(rt; are_long_read(alloc)?);
    Ok(())
}
