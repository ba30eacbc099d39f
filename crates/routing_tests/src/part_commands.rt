use crate::commands::{command, is_command, routing};
use command_table::{MultipleNodeRoutingInfo, RoutingInfo, SlotParts};
use resp_write::Cmd;
use std::alloc::{AllocError, Global};

/// Whether a command's part of place `k` is the wanted one; without a wanted one, whether there is none.
fn is_part(
    alloc: Global,
    cmd: &Cmd,
    parts: &SlotParts,
    k: usize,
    wanted: Option<&str>,
) -> Result<bool, AllocError> {
    match (parts.command(alloc, cmd, k)?, wanted) {
        (Some(part), Some(wanted)) => is_command(alloc, &part, wanted),
        (None, None) => Ok(true),
        _ => Ok(false),
    }
}

/// Whether these parts give that part of the command of a text.
fn give(
    alloc: Global,
    parts: &SlotParts,
    text: &str,
    k: usize,
    wanted: Option<&str>,
) -> Result<bool, AllocError> {
    let cmd = command(alloc, text)?;
    is_part(alloc, &cmd, parts, k, wanted)
}

/// Whether the parts of a route give that part of the command of a text.
fn route_gives(
    alloc: Global,
    routing: &Option<RoutingInfo>,
    text: &str,
    k: usize,
    wanted: Option<&str>,
) -> Result<bool, AllocError> {
    match routing {
        Some(RoutingInfo::MultiNode(MultipleNodeRoutingInfo::MultiSlot(parts), _)) => {
            give(alloc, parts, text, k, wanted)
        }
        _ => Ok(false),
    }
}

/// Whether the parts of one command's route give that part of another command.
fn gives(
    alloc: Global,
    text: &str,
    other: &str,
    k: usize,
    wanted: Option<&str>,
) -> Result<bool, AllocError> {
    let routing = routing(alloc, text)?;
    let gives = route_gives(alloc, &routing, other, k, wanted);
    drop(routing);
    gives
}

const MGET: &str = "MGET foo baz {foo}bar";

const MSET: &str = "MSET foo 1 baz 2 {foo}bar 3";

/// A command, the place of a part of its route, and the part.
const PARTS: [(&str, usize, &str); 4] = [
    (MGET, 0, "MGET foo {foo}bar"),
    (MGET, 1, "MGET baz"),
    (MSET, 0, "MSET foo 1 {foo}bar 3"),
    (MSET, 1, "MSET baz 2"),
];

#[test]
fn parts_have_commands(rt: HostRuntime) -> Result<(), AllocError> {
    for row in &PARTS {
        assert!(rt; gives(rt.alloc(), row.0, row.0, row.1, Some(row.2))?);
    }
    Ok(())
}

/// Other commands, the place of a part of the route of `MGET`, and the part.
const OTHERS: [(&str, usize, Option<&str>); 4] = [
    (MGET, 2, None),
    ("GET foo", 0, None),
    ("MGET foo baz", 0, None),
    ("MGET foo baz", 1, Some("MGET baz")),
];

#[test]
fn other_parts_have_none(rt: HostRuntime) -> Result<(), AllocError> {
    for row in &OTHERS {
        assert!(rt; gives(rt.alloc(), MGET, row.0, row.1, row.2)?);
    }
    Ok(())
}
