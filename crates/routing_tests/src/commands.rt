ghost use Rattle.std.specs.Prelude.{◌≡◌, true};
ghost use Rattle.command_table.specs.Selection.{is_several, key_count, may_be_several, width};
ghost use Rattle.command_table.specs.Splitting.{are_within};

use command_table::{
    Form, KeyIndices, MultipleNodeRoutingInfo, ResponsePolicy, Route, RoutingInfo,
    SingleNodeRoutingInfo, SlotAddr, SlotParts, command_for_multi_slot_indices, form_of,
};
use resp_write::Cmd;
use std::alloc::{AllocError, Global};

/// Where a command is wanted to go. `Foo` is the slot of the key `foo`.
#[derive(Clone, Copy)]
enum Want {
    Primaries(ResponsePolicy),
    Nodes(ResponsePolicy),
    Parts(ResponsePolicy),
    Foo(SlotAddr),
    Random,
    AnyPrimary,
}

const FOO: u16 = 12182;

/// Commands with where they go: each line of the table, and what each of its forms does without a key.
const ROWS: [(&str, Want); 137] = [
    ("FLUSHALL", Want::Primaries(ResponsePolicy::AllSucceeded)),
    (
        "FLUSHDB ASYNC",
        Want::Primaries(ResponsePolicy::AllSucceeded),
    ),
    ("PING", Want::Primaries(ResponsePolicy::AllSucceeded)),
    (
        "SCRIPT FLUSH",
        Want::Primaries(ResponsePolicy::AllSucceeded),
    ),
    (
        "script load x",
        Want::Primaries(ResponsePolicy::AllSucceeded),
    ),
    (
        "FUNCTION LOAD x",
        Want::Primaries(ResponsePolicy::AllSucceeded),
    ),
    (
        "FUNCTION DELETE x",
        Want::Primaries(ResponsePolicy::AllSucceeded),
    ),
    (
        "FUNCTION FLUSH",
        Want::Primaries(ResponsePolicy::AllSucceeded),
    ),
    ("DBSIZE", Want::Primaries(ResponsePolicy::Sum)),
    ("WAIT 1 2", Want::Primaries(ResponsePolicy::Min)),
    ("KEYS foo", Want::Primaries(ResponsePolicy::CombineArrays)),
    ("SCRIPT EXISTS x", Want::Primaries(ResponsePolicy::And)),
    ("SCRIPT KILL", Want::Primaries(ResponsePolicy::OneSucceeded)),
    (
        "FUNCTION KILL",
        Want::Primaries(ResponsePolicy::OneSucceeded),
    ),
    (
        "RANDOMKEY",
        Want::Primaries(ResponsePolicy::FirstSucceededNonEmptyOrAllEmpty),
    ),
    ("CONFIG SET a b", Want::Nodes(ResponsePolicy::AllSucceeded)),
    (
        "CONFIG RESETSTAT",
        Want::Nodes(ResponsePolicy::AllSucceeded),
    ),
    ("CONFIG REWRITE", Want::Nodes(ResponsePolicy::AllSucceeded)),
    (
        "CLIENT SETNAME x",
        Want::Nodes(ResponsePolicy::AllSucceeded),
    ),
    ("SLOWLOG RESET", Want::Nodes(ResponsePolicy::AllSucceeded)),
    ("SLOWLOG LEN", Want::Nodes(ResponsePolicy::Sum)),
    ("PUBSUB NUMPAT", Want::Nodes(ResponsePolicy::Sum)),
    (
        "PUBSUB CHANNELS",
        Want::Nodes(ResponsePolicy::CombineArrays),
    ),
    (
        "PUBSUB SHARDCHANNELS",
        Want::Nodes(ResponsePolicy::CombineArrays),
    ),
    ("PUBSUB NUMSUB x", Want::Nodes(ResponsePolicy::CombineMaps)),
    (
        "PUBSUB SHARDNUMSUB x",
        Want::Nodes(ResponsePolicy::CombineMaps),
    ),
    ("INFO", Want::Nodes(ResponsePolicy::Special)),
    ("LASTSAVE", Want::Nodes(ResponsePolicy::Special)),
    ("MEMORY STATS", Want::Nodes(ResponsePolicy::Special)),
    ("SLOWLOG GET", Want::Nodes(ResponsePolicy::Special)),
    ("MGET foo baz", Want::Parts(ResponsePolicy::CombineArrays)),
    ("EXISTS foo baz", Want::Parts(ResponsePolicy::Sum)),
    ("DEL foo baz", Want::Parts(ResponsePolicy::Sum)),
    ("UNLINK foo baz", Want::Parts(ResponsePolicy::Sum)),
    ("TOUCH foo baz", Want::Parts(ResponsePolicy::Sum)),
    (
        "MSET foo 1 baz 2",
        Want::Parts(ResponsePolicy::AllSucceeded),
    ),
    ("MGET foo {foo}bar", Want::Foo(SlotAddr::ReplicaOptional)),
    ("EXISTS foo", Want::Foo(SlotAddr::ReplicaOptional)),
    ("DEL foo {foo}bar", Want::Foo(SlotAddr::Master)),
    ("MSET foo 1 {foo}bar 2", Want::Foo(SlotAddr::Master)),
    ("MSET foo 1 baz", Want::Foo(SlotAddr::Master)),
    ("MSET foo", Want::Foo(SlotAddr::Master)),
    ("MGET", Want::Random),
    ("MSET", Want::Random),
    ("DEL", Want::Random),
    ("CONFIG GET x", Want::Random),
    ("client getname", Want::Random),
    ("CLIENT ID", Want::Random),
    ("ECHO foo", Want::Random),
    ("DEBUG foo", Want::Random),
    ("SUBSCRIBE foo", Want::Random),
    ("PSUBSCRIBE foo", Want::Random),
    ("UNSUBSCRIBE foo", Want::Random),
    ("PUNSUBSCRIBE foo", Want::Random),
    ("PUBLISH foo", Want::Random),
    ("CLUSTER foo", Want::Random),
    ("COMMAND foo", Want::Random),
    ("TIME foo", Want::Random),
    ("HELLO foo", Want::Random),
    ("AUTH foo", Want::Random),
    ("SELECT foo", Want::Random),
    ("ASKING foo", Want::Random),
    ("READONLY foo", Want::Random),
    ("READWRITE foo", Want::Random),
    ("MULTI foo", Want::Random),
    ("EXEC foo", Want::Random),
    ("DISCARD foo", Want::Random),
    ("UNWATCH foo", Want::Random),
    ("SCAN foo", Want::Random),
    ("MONITOR foo", Want::Random),
    ("ACL foo", Want::Random),
    ("LATENCY foo", Want::Random),
    ("EVAL x 1 foo a", Want::Foo(SlotAddr::Master)),
    ("EVALSHA x 1 foo a", Want::Foo(SlotAddr::Master)),
    ("FCALL x 1 foo a", Want::Foo(SlotAddr::Master)),
    ("EVAL_RO x 2 foo baz", Want::Foo(SlotAddr::ReplicaOptional)),
    (
        "EVALSHA_RO x 2 foo baz",
        Want::Foo(SlotAddr::ReplicaOptional),
    ),
    ("FCALL_RO x 2 foo baz", Want::Foo(SlotAddr::ReplicaOptional)),
    ("EVAL x 0 foo", Want::AnyPrimary),
    ("EVAL x 00", Want::AnyPrimary),
    ("EVAL_RO x 0", Want::AnyPrimary),
    ("EVAL x 1", Want::Random),
    ("EVAL x y foo", Want::Random),
    ("EVAL x +1 foo", Want::Random),
    ("EVAL x", Want::Random),
    ("EVAL", Want::Random),
    (
        "XREAD COUNT 2 STREAMS foo 0",
        Want::Foo(SlotAddr::ReplicaOptional),
    ),
    (
        "XREADGROUP GROUP streams foo STREAMS bar 0",
        Want::Foo(SlotAddr::Master),
    ),
    (
        "XREADGROUP GROUP a b streams foo 0",
        Want::Foo(SlotAddr::Master),
    ),
    ("XREAD COUNT 2", Want::Random),
    ("XREAD STREAMS", Want::Random),
    ("OBJECT ENCODING foo", Want::Foo(SlotAddr::ReplicaOptional)),
    ("MEMORY USAGE foo", Want::Foo(SlotAddr::ReplicaOptional)),
    ("XINFO STREAM foo", Want::Foo(SlotAddr::ReplicaOptional)),
    ("XGROUP CREATE foo a", Want::Foo(SlotAddr::Master)),
    ("BITOP AND foo baz", Want::Foo(SlotAddr::Master)),
    ("OBJECT ENCODING", Want::Random),
    ("GET foo x", Want::Foo(SlotAddr::ReplicaOptional)),
    ("STRLEN foo x", Want::Foo(SlotAddr::ReplicaOptional)),
    ("GETRANGE foo x", Want::Foo(SlotAddr::ReplicaOptional)),
    ("TTL foo x", Want::Foo(SlotAddr::ReplicaOptional)),
    ("PTTL foo x", Want::Foo(SlotAddr::ReplicaOptional)),
    ("TYPE foo x", Want::Foo(SlotAddr::ReplicaOptional)),
    ("HGET foo x", Want::Foo(SlotAddr::ReplicaOptional)),
    ("HGETALL foo x", Want::Foo(SlotAddr::ReplicaOptional)),
    ("HMGET foo x", Want::Foo(SlotAddr::ReplicaOptional)),
    ("HLEN foo x", Want::Foo(SlotAddr::ReplicaOptional)),
    ("HKEYS foo x", Want::Foo(SlotAddr::ReplicaOptional)),
    ("HVALS foo x", Want::Foo(SlotAddr::ReplicaOptional)),
    ("HEXISTS foo x", Want::Foo(SlotAddr::ReplicaOptional)),
    ("LRANGE foo x", Want::Foo(SlotAddr::ReplicaOptional)),
    ("LLEN foo x", Want::Foo(SlotAddr::ReplicaOptional)),
    ("LINDEX foo x", Want::Foo(SlotAddr::ReplicaOptional)),
    ("SCARD foo x", Want::Foo(SlotAddr::ReplicaOptional)),
    ("SMEMBERS foo x", Want::Foo(SlotAddr::ReplicaOptional)),
    ("SISMEMBER foo x", Want::Foo(SlotAddr::ReplicaOptional)),
    ("ZCARD foo x", Want::Foo(SlotAddr::ReplicaOptional)),
    ("ZSCORE foo x", Want::Foo(SlotAddr::ReplicaOptional)),
    ("ZRANGE foo x", Want::Foo(SlotAddr::ReplicaOptional)),
    ("ZRANK foo x", Want::Foo(SlotAddr::ReplicaOptional)),
    ("ZCOUNT foo x", Want::Foo(SlotAddr::ReplicaOptional)),
    ("XLEN foo x", Want::Foo(SlotAddr::ReplicaOptional)),
    ("XRANGE foo x", Want::Foo(SlotAddr::ReplicaOptional)),
    ("BITCOUNT foo x", Want::Foo(SlotAddr::ReplicaOptional)),
    ("GETBIT foo x", Want::Foo(SlotAddr::ReplicaOptional)),
    ("DUMP foo x", Want::Foo(SlotAddr::ReplicaOptional)),
    ("get foo", Want::Foo(SlotAddr::ReplicaOptional)),
    ("GeT foo", Want::Foo(SlotAddr::ReplicaOptional)),
    ("GET", Want::Random),
    ("SET foo bar", Want::Foo(SlotAddr::Master)),
    ("INCR foo", Want::Foo(SlotAddr::Master)),
    ("SPUBLISH foo x", Want::Foo(SlotAddr::Master)),
    ("SSUBSCRIBE foo", Want::Foo(SlotAddr::Master)),
    ("GETS foo", Want::Foo(SlotAddr::Master)),
    ("CONFIG", Want::Random),
    ("SCRIPT foo", Want::Foo(SlotAddr::Master)),
    ("CLIENT foo", Want::Foo(SlotAddr::Master)),
];

/// The command of the words of a text.
pub fn command(alloc: Global, text: &str) -> Result<Cmd, AllocError> {
    let mut cmd = Cmd::new(alloc);
    for word in text.split_whitespace() {
        cmd.arg(alloc, word.as_bytes())?;
    }
    Ok(cmd)
}

fn is_single(got: &SingleNodeRoutingInfo, want: Want) -> bool {
    match (got, want) {
        (SingleNodeRoutingInfo::Random, Want::Random) => true,
        (SingleNodeRoutingInfo::RandomPrimary, Want::AnyPrimary) => true,
        (SingleNodeRoutingInfo::SpecificNode(route), Want::Foo(addr)) => {
            route.slot == FOO && route.addr == addr
        }
        _ => false,
    }
}

fn is_multiple(got: &MultipleNodeRoutingInfo, policy: ResponsePolicy, want: Want) -> bool {
    match (got, want) {
        (MultipleNodeRoutingInfo::AllMasters, Want::Primaries(wanted)) => policy == wanted,
        (MultipleNodeRoutingInfo::AllNodes, Want::Nodes(wanted)) => policy == wanted,
        (MultipleNodeRoutingInfo::MultiSlot(_), Want::Parts(wanted)) => policy == wanted,
        _ => false,
    }
}

fn is_wanted(got: &Option<RoutingInfo>, want: Want) -> bool {
    match got {
        Some(RoutingInfo::SingleNode(single)) => is_single(single, want),
        Some(RoutingInfo::MultiNode(many, Some(policy))) => is_multiple(many, *policy, want),
        _ => false,
    }
}

/// Where the command of a text goes.
pub fn routing(alloc: Global, text: &str) -> Result<Option<RoutingInfo>, AllocError> {
    let cmd = command(alloc, text)?;
    RoutingInfo::for_routable(alloc, &cmd)
}

/// Whether the command of a text goes where it is wanted to go.
fn goes(alloc: Global, text: &str, want: Want) -> Result<bool, AllocError> {
    let got = routing(alloc, text)?;
    Ok(is_wanted(&got, want))
}

#[test]
fn each_line_of_the_table_has_its_route(rt: HostRuntime) -> Result<(), AllocError> {
    for row in &ROWS {
        assert!(rt; goes(rt.alloc(), row.0, row.1)?, "{}", row.0);
    }
    Ok(())
}

/// Whether a text has no route.
fn goes_nowhere(alloc: Global, text: &str) -> Result<bool, AllocError> {
    let got = routing(alloc, text)?;
    Ok(got.is_none())
}

#[test]
fn no_command_has_no_route(rt: HostRuntime) -> Result<(), AllocError> {
    assert!(rt; goes_nowhere(rt.alloc(), "")?);
    Ok(())
}

fn is_part(part: &(Route, KeyIndices), slot: u16, indices: &[u32]) -> bool {
    part.0.slot == slot && part.1.as_slice() == indices
}

fn are_parts(parts: &SlotParts) -> bool {
    match parts.as_slice() {
        [first, second] => is_part(first, FOO, &[0, 2]) && is_part(second, 4813, &[1, 3]),
        _ => false,
    }
}

fn is_split(got: &Option<RoutingInfo>) -> bool {
    match got {
        Some(RoutingInfo::MultiNode(MultipleNodeRoutingInfo::MultiSlot(parts), _)) => {
            are_parts(parts)
        }
        _ => false,
    }
}

/// Whether the keys of a command are split.
fn splits(alloc: Global, text: &str) -> Result<bool, AllocError> {
    let got = routing(alloc, text)?;
    Ok(is_split(&got))
}

#[test]
fn keys_are_split_by_their_slots(rt: HostRuntime) -> Result<(), AllocError> {
    assert!(rt; splits(rt.alloc(), "MGET foo baz {foo}bar {baz}x")?);
    assert!(rt; splits(rt.alloc(), "MSET foo 1 baz 2 {foo}bar 3 {baz}x 4")?);
    Ok(())
}

/// Commands with places of keys, and the command of these keys.
const SELECTIONS: [(&str, &[u32], &str); 10] = [
    ("MGET a b c", &[0], "MGET a"),
    ("MGET a b c", &[2, 0], "MGET c a"),
    ("EXISTS a b", &[1, 1], "EXISTS b b"),
    ("DEL foo bar baz {bar}vaz", &[1, 3], "DEL bar {bar}vaz"),
    ("UNLINK a b", &[], "UNLINK"),
    ("mset a 1", &[0], "mset a 1"),
    ("MSET a 1 b 2 c 3", &[0, 2], "MSET a 1 c 3"),
    ("MSET a 1 b 2 c 3", &[2, 1, 0], "MSET c 3 b 2 a 1"),
    ("MSET a 1 b 2 c", &[1, 0], "MSET b 2 a 1"),
    ("MSET a", &[], "MSET"),
];

fn is_several(form: Form) -> bool
    ensures { result ≡ is_several form }
{
    matches!(form, Form::EachKey(_, _) | Form::EachPair(_, _))
}

fn may_be_several(cmd: &Cmd) -> bool
    ensures { result ≡ may_be_several cmd.now.args }
{
    match cmd.args() {
        [name, args @ ..] => is_several(form_of(name.as_slice(), args)),
        [] => false,
    }
}

fn width(form: Form) -> usize
    ensures { result ≡ width form }
{
    if matches!(form, Form::EachPair(_, _)) {
        2
    } else {
        1
    }
}

fn key_count(cmd: &Cmd) -> usize
    ensures { result ≡ key_count cmd.now.args }
{
    match cmd.args() {
        [name, args @ ..] => args.len() / width(form_of(name.as_slice(), args)),
        [] => 0,
    }
}

fn are_within(count: usize, indices: &[u32]) -> bool
    ensures { result ≡ are_within count indices.now }
{
    indices.iter().all(|i| (*i as usize) < count)
}

/// Whether the command of a text has these bytes.
fn has_bytes(alloc: Global, text: &str, bytes: &[u8]) -> Result<bool, AllocError> {
    let wanted = command(alloc, text)?;
    Ok(wanted.get_packed_command(alloc)?.as_slice() == bytes)
}

/// Whether a command and the command of a text have the same bytes.
pub fn is_command(alloc: Global, cmd: &Cmd, text: &str) -> Result<bool, AllocError> {
    let packed = cmd.get_packed_command(alloc)?;
    has_bytes(alloc, text, packed.as_slice())
}

/// A copy of these places.
fn places(alloc: Global, indices: &[u32]) -> Result<KeyIndices, AllocError> {
    let indices = KeyIndices::from_vec(Vec::from_slice(alloc, indices)?);
    indices.clone(alloc)
}

/// Whether the command of the keys at these places is that one.
fn selects(
    alloc: Global,
    cmd: &Cmd,
    indices: &KeyIndices,
    wanted: &str,
) -> Result<bool, AllocError> {
    if !may_be_several(cmd) || !are_within(key_count(cmd), indices.as_slice()) {
        return Ok(false);
    }
    let part = command_for_multi_slot_indices(alloc, cmd, indices)?;
    is_command(alloc, &part, wanted)
}

/// Whether the command of the keys of a row is the row's.
fn is_selected(alloc: Global, row: &(&str, &[u32], &str)) -> Result<bool, AllocError> {
    let cmd = command(alloc, row.0)?;
    let indices = places(alloc, row.1)?;
    selects(alloc, &cmd, &indices, row.2)
}

#[test]
fn keys_go_into_a_part(rt: HostRuntime) -> Result<(), AllocError> {
    for row in &SELECTIONS {
        assert!(rt; is_selected(rt.alloc(), row)?, "{}", row.0);
    }
    Ok(())
}
