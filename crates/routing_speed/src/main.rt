//! Looks up slots, routes or nodes so many times, or builds a map of slots so many times, for bench/routing to measure,
//! and prints a number that depends on each answer.
#![tactic(auto)]

mod maps;

use mux_routing::{RoutingInfo, key_slot};
use resp_write::Cmd;
use std::alloc::{AllocError, Global};
use std::process::ExitCode;
use std::{env, io};

/// How long the key is whose slot is looked up.
const KEY_LENGTH: u32 = 4_096;

/// The commands whose routes are looked up.
const MIX: [&str; 30] = [
    "GET user:1000",
    "SET user:1000 value",
    "MGET a b c d",
    "MSET a 1 b 2 c 3",
    "DEL a",
    "EXISTS a b",
    "INCR counter",
    "EXPIRE user:1000 60",
    "TTL user:1000",
    "HGET user:1000 name",
    "HSET user:1000 name x",
    "HGETALL user:1000",
    "LPUSH list x",
    "LRANGE list 0 10",
    "RPOP list",
    "SADD set x",
    "SMEMBERS set",
    "SISMEMBER set x",
    "ZADD scores 1 x",
    "ZRANGE scores 0 10",
    "ZSCORE scores x",
    "XADD stream * f v",
    "XREAD COUNT 2 STREAMS stream 0",
    "XREADGROUP GROUP g c STREAMS stream 0",
    "EVAL script 1 {user}.x",
    "PUBLISH channel x",
    "SCRIPT LOAD x",
    "CONFIG GET x",
    "PING",
    "DBSIZE",
];

/// The sum of the slots of a long key, whose first byte changes.
fn sum_of_slots(alloc: Global, times: u32) -> Result<u64, AllocError> {
    let mut key = Vec::new(alloc);
    for i in 0..KEY_LENGTH {
        key.push((i % 97) as u8)?;
    }
    let mut sum = 0u64;
    for i in 0..times {
        if let Some(first) = key.first_mut() {
            *first = (i % 97) as u8;
        }
        sum = sum.wrapping_add(u64::from(key_slot(key.as_slice())));
    }
    Ok(sum)
}

fn command(alloc: Global, text: &str) -> Result<Cmd, AllocError> {
    let mut cmd = Cmd::new(alloc);
    for word in text.split_whitespace() {
        cmd.arg(alloc, word.as_bytes())?;
    }
    Ok(cmd)
}

/// How many of the mix go to one node.
fn single_routes(alloc: Global, mix: &[Cmd]) -> Result<u64, AllocError> {
    let mut count = 0u64;
    for cmd in mix {
        let routing = RoutingInfo::for_routable(alloc, cmd)?;
        if matches!(&routing, Some(RoutingInfo::SingleNode(_))) {
            count = count.wrapping_add(1);
        }
    }
    Ok(count)
}

/// How many commands of so many mixes go to one node.
fn count_of_routes(alloc: Global, times: u32) -> Result<u64, AllocError> {
    let mut mix = Vec::new(alloc);
    for text in &MIX {
        mix.push(command(alloc, *text)?)?;
    }
    let mut count = 0u64;
    for _i in 0..times {
        count = count.wrapping_add(single_routes(alloc, mix.as_slice())?);
    }
    Ok(count)
}

/// The number that depends on each answer, if something of this name is looked up.
fn looked_up(alloc: Global, what: &str, times: u32) -> Result<Option<u64>, AllocError> {
    if what == "slots" {
        return Ok(Some(sum_of_slots(alloc, times)?));
    }
    if what == "routes" {
        return Ok(Some(count_of_routes(alloc, times)?));
    }
    Ok(None)
}

/// The same of a map of so many nodes.
fn looked_up_in_map(
    alloc: Global,
    what: &str,
    nodes: u32,
    times: u32,
) -> Result<Option<u64>, AllocError> {
    if what == "maps" {
        return maps::ports_of_maps(alloc, nodes, times);
    }
    if what == "lookups" {
        return maps::ports_of_slots(alloc, nodes, times);
    }
    if what == "primaries" {
        return maps::count_of_primaries(alloc, nodes, times);
    }
    Ok(None)
}

fn number(word: &str) -> Option<u32> {
    match word.parse::<u32>() {
        Ok(number) => Some(number),
        Err(_) => None,
    }
}

/// What the words of the program ask for, if they ask for something.
fn answer(
    alloc: Global,
    what: &str,
    first: &str,
    second: Option<&str>,
) -> Result<Option<u64>, AllocError> {
    let Some(first) = number(first) else {
        return Ok(None);
    };
    let Some(second) = second else {
        return looked_up(alloc, what, first);
    };
    match number(second) {
        Some(times) => looked_up_in_map(alloc, what, first, times),
        None => Ok(None),
    }
}

/// The same of words of which there may be too few.
fn asked(
    alloc: Global,
    what: Option<&str>,
    first: Option<&str>,
    second: Option<&str>,
) -> Result<Option<u64>, AllocError> {
    let (Some(what), Some(first)) = (what, first) else {
        return Ok(None);
    };
    answer(alloc, what, first, second)
}

fn main(rt: HostRuntime) -> io::Result<ExitCode> {
    let alloc = rt.alloc();
    let mut words = env::args(&rt)?;
    words.next();
    let what = words.next();
    let first = words.next();
    let second = words.next();
    match asked(alloc, what.as_deref(), first.as_deref(), second.as_deref())? {
        Some(number) => {
            println!(rt; "{number}")?;
            Ok(ExitCode::SUCCESS)
        }
        None => {
            eprintln!(rt; "usage: routing_speed slots|routes TIMES")?;
            eprintln!(rt; "       routing_speed maps|lookups|primaries NODES TIMES")?;
            Ok(ExitCode::FAILURE)
        }
    }
}
