use crate::nodes::address;
use command_table::{
    KeyIndices, MultipleNodeRoutingInfo, ResponsePolicy, Route, SlotAddr, SlotParts,
};
use containers::Bytes;
use fan_out::{FoldResult, PartEnd, PartResult, PartResults, RoundEnd, fold_parts};
use redis_error::RedisError;
use resp_read::{ReadError, Reader};
use resp_value::Value;
use resp_write::canonical_text;
use std::alloc::{AllocError, Global};

/// The value that a text is, if it is a whole one.
fn value(alloc: Global, text: &[u8]) -> Result<Option<Value>, AllocError> {
    let mut reader = Reader::new(alloc);
    reader.feed(text)?;
    match reader.next_value(alloc) {
        Ok(value) => Ok(value),
        Err(ReadError::Parse) => Ok(None),
        Err(ReadError::NoMemory) => Err(AllocError),
    }
}

/// The end that a text is: the name of an error, or a value's bytes. No bytes are none.
fn end(alloc: Global, text: &[u8]) -> Result<Option<RoundEnd>, AllocError> {
    if text == b"closed".as_slice() {
        return Ok(Some(RoundEnd::Error(RedisError::Closed)));
    }
    if text == b"not-found".as_slice() {
        return Ok(Some(RoundEnd::Error(RedisError::NotFound)));
    }
    match value(alloc, text)? {
        Some(value) => Ok(Some(RoundEnd::Value(value))),
        None => Ok(None),
    }
}

/// A part of the node at this port, that ended as its text says.
fn part(alloc: Global, port: u16, arrival: u32, text: &[u8]) -> Result<PartResult, AllocError> {
    let address = address(alloc, b"h", port)?;
    match end(alloc, text)? {
        Some(end) => Ok(PartResult {
            address,
            ended: Some(PartEnd { arrival, end }),
        }),
        None => Ok(PartResult {
            address,
            ended: None,
        }),
    }
}

/// Parts of nodes at ports from 7000 on.
fn parts(alloc: Global, ends: &[(u32, &[u8])]) -> Result<PartResults, AllocError> {
    let mut parts = PartResults::new(alloc);
    let mut port: u16 = 7000;
    for end in ends {
        parts.push(part(alloc, port, end.0, end.1)?)?;
        port = port.wrapping_add(1);
    }
    Ok(parts)
}

/// To slots whose keys have these places; without any to all nodes.
fn routing(alloc: Global, places: &[&[u32]]) -> Result<MultipleNodeRoutingInfo, AllocError> {
    if places.is_empty() {
        return Ok(MultipleNodeRoutingInfo::AllNodes);
    }
    let mut slots = SlotParts::new(alloc);
    let mut slot: u16 = 0;
    for indices in places {
        let route = Route {
            slot,
            addr: SlotAddr::ReplicaOptional,
        };
        slots.push(
            route,
            KeyIndices::from_vec(Vec::from_slice(alloc, indices)?),
        )?;
        slot = slot.wrapping_add(1);
    }
    Ok(MultipleNodeRoutingInfo::MultiSlot(slots))
}

/// An error as a text.
fn error_text(alloc: Global, error: &RedisError) -> Result<Bytes, AllocError> {
    match error {
        RedisError::Closed => Bytes::from_slice(alloc, b"closed"),
        RedisError::NotFound => Bytes::from_slice(alloc, b"not-found"),
        RedisError::Convert { value } => {
            let mut text = Bytes::from_slice(alloc, b"convert ")?;
            text.extend_from_slice(canonical_text(alloc, value)?.as_slice())?;
            Ok(text)
        }
        RedisError::Server(error) => {
            let mut text = Bytes::from_slice(alloc, b"server ")?;
            text.extend_from_slice(error.code.as_slice())?;
            Ok(text)
        }
        _ => Bytes::from_slice(alloc, b"another error"),
    }
}

/// A result as a text.
fn result_text(alloc: Global, told: &Option<FoldResult>) -> Result<Bytes, AllocError> {
    match told {
        None => Bytes::from_slice(alloc, b"none"),
        Some(FoldResult::Value(value)) => canonical_text(alloc, value),
        Some(FoldResult::Error(error)) => error_text(alloc, error),
    }
}

/// A policy, the places of the keys of each part, the parts' ends, and what they are together.
#[derive(Clone, Copy)]
struct Case {
    policy: Option<ResponsePolicy>,
    places: &'static [&'static [u32]],
    ends: &'static [(u32, &'static [u8])],
    wanted: &'static [u8],
}

const CASES: [Case; 12] = [
    Case {
        policy: Some(ResponsePolicy::AllSucceeded),
        places: &[],
        ends: &[(0, b"")],
        wanted: b"none",
    },
    Case {
        policy: Some(ResponsePolicy::AllSucceeded),
        places: &[],
        ends: &[(2, b"+OK\r\n"), (1, b"+k\r\n")],
        wanted: b"+k\r\n",
    },
    Case {
        policy: Some(ResponsePolicy::AllSucceeded),
        places: &[],
        ends: &[(7, b"closed"), (0, b""), (4, b"not-found")],
        wanted: b"not-found",
    },
    Case {
        policy: Some(ResponsePolicy::OneSucceeded),
        places: &[],
        ends: &[(1, b"closed"), (3, b":1\r\n"), (2, b":2\r\n")],
        wanted: b":2\r\n",
    },
    Case {
        policy: Some(ResponsePolicy::FirstSucceededNonEmptyOrAllEmpty),
        places: &[],
        ends: &[(1, b"$-1\r\n"), (2, b"-ERR x\r\n")],
        wanted: b"server ERR",
    },
    Case {
        policy: Some(ResponsePolicy::Sum),
        places: &[],
        ends: &[(1, b":2\r\n"), (2, b":0\r\n"), (3, b":5\r\n")],
        wanted: b":7\r\n",
    },
    Case {
        policy: Some(ResponsePolicy::Min),
        places: &[],
        ends: &[(1, b":3\r\n"), (2, b":1\r\n")],
        wanted: b":1\r\n",
    },
    Case {
        policy: Some(ResponsePolicy::And),
        places: &[],
        ends: &[(1, b"*2\r\n:1\r\n:1\r\n"), (2, b"*2\r\n:1\r\n:0\r\n")],
        wanted: b"*2\r\n:1\r\n:0\r\n",
    },
    Case {
        policy: Some(ResponsePolicy::CombineArrays),
        places: &[&[0, 2], &[1]],
        ends: &[
            (2, b"*2\r\n$1\r\na\r\n$1\r\nc\r\n"),
            (1, b"*1\r\n$1\r\nb\r\n"),
        ],
        wanted: b"*3\r\n$1\r\na\r\n$1\r\nb\r\n$1\r\nc\r\n",
    },
    Case {
        policy: Some(ResponsePolicy::CombineArrays),
        places: &[],
        ends: &[(1, b"*1\r\n$1\r\na\r\n"), (2, b":1\r\n")],
        wanted: b"convert :1\r\n",
    },
    Case {
        policy: Some(ResponsePolicy::CombineMaps),
        places: &[],
        ends: &[
            (1, b"*4\r\n$1\r\na\r\n:1\r\n$1\r\nb\r\n:2\r\n"),
            (2, b"*2\r\n$1\r\nb\r\n:3\r\n"),
        ],
        wanted: b"%2\r\n$1\r\na\r\n:1\r\n$1\r\nb\r\n:5\r\n",
    },
    Case {
        policy: None,
        places: &[],
        ends: &[(1, b"+x\r\n"), (2, b"-ERR\r\n")],
        wanted: b"%2\r\n$6\r\nh:7000\r\n+x\r\n$6\r\nh:7001\r\n-ERR\r\n",
    },
];

/// What these parts are together, as a text.
fn folded(alloc: Global, case: &Case, parts: &PartResults) -> Result<Bytes, AllocError> {
    let routing = routing(alloc, case.places)?;
    let result = fold_parts(alloc, case.policy, &routing, parts);
    drop(routing);
    let result = result?;
    let text = result_text(alloc, &result);
    drop(result);
    text
}

/// What the parts of a case are together, as a text.
fn told(alloc: Global, case: &Case) -> Result<Bytes, AllocError> {
    let parts = parts(alloc, case.ends)?;
    let text = folded(alloc, case, &parts);
    drop(parts);
    text
}

fn is_told(alloc: Global, case: &Case) -> Result<bool, AllocError> {
    let text = told(alloc, case)?;
    Ok(text.as_slice() == case.wanted)
}

#[test]
fn parts_become_one(rt: HostRuntime) -> Result<(), AllocError> {
    for case in &CASES {
        assert!(rt; is_told(rt.alloc(), case)?);
    }
    Ok(())
}
