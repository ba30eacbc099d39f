//! Prints the slot of a key, and the parts of an MGET with the nodes that they go to.

use crate::commands::command_of;
use mux_resp::{Cmd, Reader, Value};
use mux_routing::{
    MultipleNodeRoutingInfo, NodeAddress, RoutingInfo, SlotMap, SlotParts, key_slot, parse_slots,
};
use std::alloc::{AllocError, Global};
use std::io;

/// What a node answers to CLUSTER SLOTS: two rows, each of one node.
const SLOTS: &[u8] = b"*2\r\n\
    *3\r\n:0\r\n:8191\r\n*2\r\n$6\r\nnode-a\r\n:6379\r\n\
    *3\r\n:8192\r\n:16383\r\n*2\r\n$6\r\nnode-b\r\n:6379\r\n";

/// The reply that some bytes are, if they are one.
fn reply(alloc: Global, bytes: &[u8]) -> Result<Option<Value>, AllocError> {
    let mut reader = Reader::new(alloc);
    reader.feed(bytes)?;
    match reader.next_value(alloc) {
        Ok(reply) => Ok(reply),
        Err(_) => Ok(None),
    }
}

/// The map of slots that a reply of `node-a` tells, if it tells one.
fn slot_map(alloc: Global, reply: &Value) -> Result<Option<SlotMap>, AllocError> {
    match parse_slots(alloc, reply, b"node-a") {
        Ok(rows) => Ok(Some(SlotMap::from_rows(alloc, &rows)?)),
        Err(_) => Ok(None),
    }
}

/// The map of slots that `SLOTS` tells.
fn known_slots(alloc: Global) -> Result<Option<SlotMap>, AllocError> {
    let Some(reply) = reply(alloc, SLOTS)? else {
        return Ok(None);
    };
    let map = slot_map(alloc, &reply);
    drop(reply);
    map
}

fn print_node(rt: &impl Print, slot: u16, node: &NodeAddress) -> io::Result<()> {
    print!(rt;
        "{slot} {}:{}",
        node.host.as_slice().escape_ascii(),
        node.port
    )
}

fn print_command(rt: &impl Print, cmd: &Cmd) -> io::Result<()> {
    for word in cmd.args() {
        print!(rt; " {}", word.as_slice().escape_ascii())?;
    }
    println!(rt)
}

/// Prints each part of a command: its slot, its node, and the command of its keys.
fn print_parts(
    rt: &impl Print,
    alloc: Global,
    map: &SlotMap,
    cmd: &Cmd,
    parts: &SlotParts,
) -> io::Result<()> {
    for (k, part) in parts.as_slice().iter().enumerate() {
        let Some(node) = map.address_for_route(part.0) else {
            continue;
        };
        let Some(cmd) = parts.command(alloc, cmd, k)? else {
            continue;
        };
        print_node(rt, part.0.slot, node)?;
        print_command(rt, &cmd)?;
    }
    Ok(())
}

/// Prints where a command goes.
fn print_route(rt: &impl Print, alloc: Global, map: &SlotMap, cmd: &Cmd) -> io::Result<()> {
    match RoutingInfo::for_routable(alloc, cmd)? {
        Some(RoutingInfo::MultiNode(MultipleNodeRoutingInfo::MultiSlot(parts), _)) => {
            print_parts(rt, alloc, map, cmd, &parts)
        }
        Some(RoutingInfo::MultiNode(_, _)) => println!(rt; "to all"),
        Some(RoutingInfo::SingleNode(_)) => println!(rt; "to one"),
        None => println!(rt; "no command"),
    }
}

/// Prints the slot of a key, and where an MGET goes.
pub fn print_slot_and_route(rt: &impl Print, alloc: Global) -> io::Result<()> {
    println!(rt; "slot {}", key_slot(b"user:{7}:name"))?;
    let Some(map) = known_slots(alloc)? else {
        return println!(rt; "no map of slots");
    };
    let mget = command_of(alloc, &[b"MGET", b"foo", b"baz", b"{foo}bar"])?;
    print_route(rt, alloc, &map, &mget)
}
