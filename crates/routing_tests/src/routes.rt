ghost use Rattle.std.specs.Prelude.{◌≡◌, ◌<◌, ◌^◌};

use crate::commands::command;
use containers::Bytes;
use mux_routing::{
    NodeAddress, ReadRoutingStrategy, ReadStrategy, Route, RouteError, SlotAddr, SlotMap, SlotRows,
    SlotsError, parse_slots, route_for_pipeline, route_with_draw,
};
use resp_value::{Value, Values};
use resp_write::Pipeline;
use std::alloc::{AllocError, Global};
use std::test::Fail;

/// How a node tells its host.
#[derive(Clone, Copy)]
enum Host {
    Nil,
    Number,
    Bulk(&'static [u8]),
    Simple(&'static [u8]),
}

/// What a reply with one row of one node gives.
#[derive(Clone, Copy)]
enum Told {
    Refused,
    NoRow,
    Primary,
}

/// A row of one node: the first and the last slot, the host and the port; and what is told where `answer.host` answered, with the
/// host of the primary.
type NodeRow = (i64, i64, Host, i64, Told, &'static [u8]);

const ROWS: [NodeRow; 9] = [
    (
        0,
        100,
        Host::Bulk(b"0.0.0.0"),
        7000,
        Told::Primary,
        b"answer.host",
    ),
    (
        0,
        100,
        Host::Simple(b"::"),
        7000,
        Told::Primary,
        b"answer.host",
    ),
    (0, 100, Host::Bulk(b""), 7000, Told::Primary, b"answer.host"),
    (0, 100, Host::Nil, 7000, Told::Primary, b"answer.host"),
    (
        0,
        100,
        Host::Bulk(b"10.0.0.1"),
        7000,
        Told::Primary,
        b"10.0.0.1",
    ),
    (0, 100, Host::Simple(b"h"), 7000, Told::Primary, b"h"),
    (5, 5, Host::Bulk(b"h"), 0, Told::Primary, b"h"),
    (0, 16_383, Host::Bulk(b"h"), 65_535, Told::Primary, b"h"),
    (0, 100, Host::Bulk(b"?"), 7000, Told::NoRow, b""),
];

const REFUSED: [NodeRow; 7] = [
    (2, 1, Host::Bulk(b"h"), 1, Told::Refused, b""),
    (-1, 1, Host::Bulk(b"h"), 1, Told::Refused, b""),
    (0, 16_384, Host::Bulk(b"h"), 1, Told::Refused, b""),
    (0, 1, Host::Bulk(b"h"), -1, Told::Refused, b""),
    (0, 1, Host::Bulk(b"h"), 65_536, Told::Refused, b""),
    (0, 1, Host::Bulk(b"\xFF"), 1, Told::Refused, b""),
    (0, 1, Host::Number, 1, Told::Refused, b""),
];

fn host_value(alloc: Global, host: Host) -> Result<Value, AllocError> {
    match host {
        Host::Nil => Ok(Value::Nil),
        Host::Number => Ok(Value::Int(1)),
        Host::Bulk(text) => Ok(Value::BulkString(Bytes::from_slice(alloc, text)?)),
        Host::Simple(text) => Ok(Value::SimpleString(Bytes::from_slice(alloc, text)?)),
    }
}

fn node(alloc: Global, host: Host, port: i64) -> Result<Value, AllocError> {
    let mut parts = Values::new(alloc);
    parts.push(host_value(alloc, host)?)?;
    parts.push(Value::Int(port))?;
    parts.push(Value::Nil)?;
    Ok(Value::Array(parts))
}

fn row(
    alloc: Global,
    start: i64,
    end: i64,
    hosts: &[Host],
    port: i64,
) -> Result<Value, AllocError> {
    let mut parts = Values::new(alloc);
    parts.push(Value::Int(start))?;
    parts.push(Value::Int(end))?;
    for host in hosts {
        parts.push(node(alloc, *host, port)?)?;
    }
    Ok(Value::Array(parts))
}

fn only(alloc: Global, part: Value) -> Result<Value, AllocError> {
    let mut parts = Values::new(alloc);
    parts.push(part)?;
    Ok(Value::Array(parts))
}

fn has_primary(rows: &SlotRows, host: &[u8], port: i64) -> bool {
    match rows.as_slice() {
        [row] => row.primary.host.as_slice() == host && i64::from(row.primary.port) == port,
        _ => false,
    }
}

fn is_told(got: &Result<SlotRows, SlotsError>, port: i64, want: Told, host: &[u8]) -> bool {
    match (got, want) {
        (Err(SlotsError::Parse), Told::Refused) => true,
        (Ok(rows), Told::NoRow) => rows.is_empty(),
        (Ok(rows), Told::Primary) => has_primary(rows, host, port),
        _ => false,
    }
}

/// A reply with one row of one node.
fn row_reply(
    alloc: Global,
    start: i64,
    end: i64,
    host: Host,
    port: i64,
) -> Result<Value, AllocError> {
    let row = row(alloc, start, end, &[host], port)?;
    only(alloc, row)
}

/// Whether the reply of a case tells what the case wants.
fn tells(alloc: Global, case: &NodeRow) -> Result<bool, AllocError> {
    let reply = row_reply(alloc, case.0, case.1, case.2, case.3)?;
    let got = parse_slots(alloc, &reply, b"answer.host");
    drop(reply);
    let told = is_told(&got, case.3, case.4, case.5);
    drop(got);
    Ok(told)
}

#[test]
fn rows_are_told(rt: HostRuntime) -> Result<(), AllocError> {
    for case in &ROWS {
        assert!(rt; tells(rt.alloc(), case)?);
    }
    Ok(())
}

#[test]
fn rows_are_refused(rt: HostRuntime) -> Result<(), AllocError> {
    for case in &REFUSED {
        assert!(rt; tells(rt.alloc(), case)?);
    }
    Ok(())
}

/// Replies of other shapes.
#[derive(Clone, Copy)]
enum Odd {
    Nil,
    Okay,
    ListOfNumber,
    RowAlone,
    RowWithoutNode,
}

fn odd_reply(alloc: Global, odd: Odd) -> Result<Value, AllocError> {
    match odd {
        Odd::Nil => Ok(Value::Nil),
        Odd::Okay => Ok(Value::Okay),
        Odd::ListOfNumber => only(alloc, Value::Int(0)),
        Odd::RowAlone => row(alloc, 0, 1, &[Host::Nil], 1),
        Odd::RowWithoutNode => only(alloc, row(alloc, 0, 1, &[], 1)?),
    }
}

/// Whether a reply of another shape is refused.
fn is_refused(alloc: Global, odd: Odd) -> Result<bool, AllocError> {
    let reply = odd_reply(alloc, odd)?;
    let got = parse_slots(alloc, &reply, b"h");
    drop(reply);
    let refused = matches!(&got, Err(SlotsError::Parse));
    drop(got);
    Ok(refused)
}

const ODD: [Odd; 5] = [
    Odd::Nil,
    Odd::Okay,
    Odd::ListOfNumber,
    Odd::RowAlone,
    Odd::RowWithoutNode,
];

#[test]
fn other_shapes_are_refused(rt: HostRuntime) -> Result<(), AllocError> {
    for odd in &ODD {
        assert!(rt; is_refused(rt.alloc(), *odd)?);
    }
    Ok(())
}

/// How many rows an empty list has.
fn rows_of_nothing(alloc: Global) -> Result<usize, SlotsError> {
    let reply = Value::Array(Values::new(alloc));
    let told = parse_slots(alloc, &reply, b"h");
    drop(reply);
    let rows = told?;
    let count = rows.len();
    drop(rows);
    Ok(count)
}

#[test]
fn an_empty_list_has_no_rows(rt: HostRuntime) -> Result<(), Fail> {
    assert_eq!(rt; rows_of_nothing(rt.alloc())?, 0);
    Ok(())
}

fn has_one_node(rows: &SlotRows) -> bool {
    match rows.as_slice() {
        [row] => row.replicas.is_empty(),
        _ => false,
    }
}

/// A reply with one row, whose replica is not known.
fn unknown_replica(alloc: Global) -> Result<Value, AllocError> {
    let row = row(alloc, 5, 5, &[Host::Bulk(b"h"), Host::Bulk(b"?")], 1)?;
    only(alloc, row)
}

/// Whether an unknown replica is left out.
fn leaves_out(alloc: Global) -> Result<bool, SlotsError> {
    let reply = unknown_replica(alloc)?;
    let told = parse_slots(alloc, &reply, b"answer.host");
    drop(reply);
    let rows = told?;
    let is_one = has_one_node(&rows);
    drop(rows);
    Ok(is_one)
}

#[test]
fn an_unknown_replica_is_left_out(rt: HostRuntime) -> Result<(), Fail> {
    assert!(rt; leaves_out(rt.alloc())?);
    Ok(())
}

/// Rows of slots with the hosts of their nodes.
const SHARDS: [(i64, i64, &[Host]); 3] = [
    (
        1002,
        2000,
        &[
            Host::Bulk(b"node2"),
            Host::Bulk(b"replica2"),
            Host::Bulk(b"replica3"),
        ],
    ),
    (0, 100, &[Host::Bulk(b"a")]),
    (50, 60, &[Host::Bulk(b"b")]),
];

fn map_reply(alloc: Global) -> Result<Value, AllocError> {
    let mut rows = Values::new(alloc);
    for shard in &SHARDS {
        rows.push(row(alloc, shard.0, shard.1, shard.2, 1)?)?;
    }
    Ok(Value::Array(rows))
}

fn map(alloc: Global) -> Result<SlotMap, SlotsError> {
    let reply = map_reply(alloc)?;
    let told = parse_slots(alloc, &reply, b"h");
    drop(reply);
    let rows = told?;
    let made = SlotMap::from_rows(alloc, &rows);
    drop(rows);
    Ok(made?)
}

/// Slots with the host of the primary.
const PRIMARIES: [(u16, Option<&[u8]>); 8] = [
    (49, Some(b"a")),
    (50, Some(b"b")),
    (60, Some(b"b")),
    (61, Some(b"a")),
    (101, None),
    (1001, None),
    (1002, Some(b"node2")),
    (2001, None),
];

/// The host of the primary of a slot.
fn primary_host(map: &SlotMap, slot: u16) -> Option<&[u8]>
    requires { slot < 2 ^ 14 }
{
    let addr = SlotAddr::Master;
    let i = map.slot_addr_for_route(Route { slot, addr }, &mut None::<ReadStrategy>, 7)?;
    Some(map.address(i).host.as_slice())
}

/// Whether a slot has that primary.
fn has_primary_host(alloc: Global, slot: u16, host: Option<&[u8]>) -> Result<bool, SlotsError>
    requires { slot < 2 ^ 14 }
{
    let map = map(alloc)?;
    Ok(primary_host(&map, slot) == host)
}

#[test]
fn slots_are_of_the_last_row(rt: HostRuntime) -> Result<(), Fail> {
    for row in &PRIMARIES {
        if row.0 < 16_384 {
            assert!(rt; has_primary_host(rt.alloc(), row.0, row.1)?);
        }
    }
    Ok(())
}

fn are_nodes(alloc: Global, map: &SlotMap, wanted: &[u32]) -> Result<bool, AllocError> {
    let nodes = map.nodes(alloc)?;
    Ok(nodes.as_slice() == wanted)
}

fn are_primaries(alloc: Global, map: &SlotMap, wanted: &[u32]) -> Result<bool, AllocError> {
    let primaries = map.primaries(alloc)?;
    Ok(primaries.as_slice() == wanted)
}

/// Whether the map has these nodes, and these primaries among them.
fn has_nodes(alloc: Global, nodes: &[u32], primaries: &[u32]) -> Result<bool, SlotsError> {
    let map = map(alloc)?;
    Ok(are_nodes(alloc, &map, nodes)? && are_primaries(alloc, &map, primaries)?)
}

#[test]
fn primaries_are_among_the_nodes(rt: HostRuntime) -> Result<(), Fail> {
    assert!(rt; has_nodes(rt.alloc(), &[0, 1, 2, 3, 4], &[0, 1, 2])?);
    Ok(())
}

/// Picks the first replica.
#[derive(Drop)]
struct FirstReplica;

impl ReadRoutingStrategy for FirstReplica {
    ghost use Rattle.std.specs.Prelude.{ℕ};

    ghost pick_of = { λ _ _ _. 0 };

    ghost picked = { λ s _ _. s };

    fn pick(&mut self, _replicas: u32, _draw: u64) -> u32 {
        0
    }
}

fn route(addr: SlotAddr) -> Route
    ensures { result.slot < 2 ^ 14 }
{
    Route { slot: 1500, addr }
}

/// Who picks.
#[derive(Clone, Copy)]
enum Picker {
    Nobody,
    First,
    Given(ReadStrategy),
}

/// The place to which a route leads with this draw. The places 2 to 4 are those of node2, replica2 and replica3.
fn place(map: &SlotMap, addr: SlotAddr, picker: Picker, draw: u64) -> Option<u32> {
    let route = route(addr);
    match picker {
        Picker::Nobody => map.slot_addr_for_route(route, &mut None::<ReadStrategy>, draw),
        Picker::First => map.slot_addr_for_route(route, &mut Some(FirstReplica), draw),
        Picker::Given(strategy) => map.slot_addr_for_route(route, &mut Some(strategy), draw),
    }
}

fn place_of(
    alloc: Global,
    addr: SlotAddr,
    picker: Picker,
    draw: u64,
) -> Result<Option<u32>, SlotsError> {
    let map = map(alloc)?;
    Ok(place(&map, addr, picker, draw))
}

const TURNS: Picker = Picker::Given(ReadStrategy::RoundRobin { next: 0 });

/// Who picks for a route with which draw, and the place.
const PICKS: [(SlotAddr, Picker, u64, u32); 6] = [
    (SlotAddr::ReplicaOptional, Picker::Nobody, 0, 2),
    (SlotAddr::ReplicaRequired, Picker::Nobody, 0, 3),
    (SlotAddr::ReplicaOptional, Picker::First, 1, 3),
    (
        SlotAddr::ReplicaOptional,
        Picker::Given(ReadStrategy::Random),
        7,
        4,
    ),
    (SlotAddr::ReplicaOptional, TURNS, 7, 3),
    (SlotAddr::Master, TURNS, 7, 2),
];

#[test]
fn replicas_are_picked(rt: HostRuntime) -> Result<(), Fail> {
    for row in &PICKS {
        assert!(rt; place_of(rt.alloc(), row.0, row.1, row.2)? == Some(row.3));
    }
    Ok(())
}

/// The places to which two routes lead, one after the other, where replicas are picked in turn from this one on.
fn turns(map: &SlotMap, next: u32, one: SlotAddr, two: SlotAddr) -> (Option<u32>, Option<u32>) {
    let mut turns = Some(ReadStrategy::RoundRobin { next });
    let first = map.slot_addr_for_route(route(one), &mut turns, 7);
    let second = map.slot_addr_for_route(route(two), &mut turns, 7);
    (first, second)
}

fn turns_of(
    alloc: Global,
    next: u32,
    one: SlotAddr,
    two: SlotAddr,
) -> Result<(Option<u32>, Option<u32>), SlotsError> {
    let map = map(alloc)?;
    Ok(turns(&map, next, one, two))
}

/// Whose turn it is, two routes, and their places: a route to the primary takes no turn.
const TAKEN: [(u32, SlotAddr, SlotAddr, u32, u32); 3] = [
    (
        0,
        SlotAddr::ReplicaOptional,
        SlotAddr::ReplicaRequired,
        3,
        4,
    ),
    (0, SlotAddr::Master, SlotAddr::ReplicaRequired, 2, 3),
    (
        1,
        SlotAddr::ReplicaRequired,
        SlotAddr::ReplicaRequired,
        4,
        3,
    ),
];

#[test]
fn replicas_take_turns(rt: HostRuntime) -> Result<(), Fail> {
    for row in &TAKEN {
        let found = turns_of(rt.alloc(), row.0, row.1, row.2)?;
        assert!(rt; found == (Some(row.3), Some(row.4)));
    }
    Ok(())
}

fn are_fallbacks(
    alloc: Global,
    map: &SlotMap,
    route: Route,
    wanted: &[u32],
) -> Result<bool, AllocError>
    requires { route.slot < 2 ^ 14 }
{
    let fallbacks = map.shard_fallback_addrs(alloc, route)?;
    Ok(fallbacks.as_slice() == wanted)
}

/// Whether these are the places that stand in for that of a route.
fn stand_in(alloc: Global, slot: u16, addr: SlotAddr, wanted: &[u32]) -> Result<bool, SlotsError>
    requires { slot < 2 ^ 14 }
{
    let map = map(alloc)?;
    Ok(are_fallbacks(alloc, &map, Route { slot, addr }, wanted)?)
}

#[test]
fn replicas_stand_in(rt: HostRuntime) -> Result<(), Fail> {
    assert!(rt; stand_in(rt.alloc(), 1500, SlotAddr::ReplicaOptional, &[3, 4, 2])?);
    assert!(rt; stand_in(rt.alloc(), 1500, SlotAddr::ReplicaRequired, &[3, 4])?);
    Ok(())
}

#[test]
fn nothing_stands_in_elsewhere(rt: HostRuntime) -> Result<(), Fail> {
    assert!(rt; stand_in(rt.alloc(), 1500, SlotAddr::Master, &[])?);
    assert!(rt; stand_in(rt.alloc(), 1001, SlotAddr::ReplicaOptional, &[])?);
    Ok(())
}

/// A pipeline of the commands between semicolons.
fn pipeline(alloc: Global, text: &str) -> Result<Pipeline, AllocError> {
    let mut pipeline = Pipeline::new(alloc);
    for part in text.split(';') {
        pipeline.add_command(command(alloc, part)?)?;
    }
    Ok(pipeline)
}

/// Pipelines with the slot and the node of their route where the draw is 16,389: two slots are those that differ.
const PIPELINES: [(&str, Agreed); 8] = [
    (
        "FLUSHALL; GET foo; EVAL",
        Agreed::On(12182, SlotAddr::ReplicaOptional),
    ),
    ("FLUSHALL; EVAL", Agreed::Nothing),
    (
        "GET foo; FLUSHALL; EVAL; CONFIG GET timeout; SET foo bar",
        Agreed::On(12182, SlotAddr::Master),
    ),
    ("SET foo bar; GET foo", Agreed::On(12182, SlotAddr::Master)),
    (
        "GET foo; GET {foo}x; GET baz; GET foo",
        Agreed::Crossed(12182, 4813),
    ),
    ("SET baz 1; EVAL x 0", Agreed::Crossed(4813, 5)),
    ("EVAL x 0; MGET foo baz", Agreed::On(5, SlotAddr::Master)),
    (
        "SUBSCRIBE foo; SSUBSCRIBE foo",
        Agreed::On(12182, SlotAddr::Master),
    ),
];

#[derive(Clone, Copy)]
enum Agreed {
    Nothing,
    On(u16, SlotAddr),
    Crossed(u16, u16),
}

fn is_agreed(got: &Result<Option<Route>, RouteError>, want: Agreed) -> bool {
    match (got, want) {
        (Ok(None), Agreed::Nothing) => true,
        (Ok(Some(route)), Agreed::On(slot, addr)) => route.slot == slot && route.addr == addr,
        (Err(RouteError::CrossSlot { first, second }), Agreed::Crossed(a, b)) => {
            *first == a && *second == b
        }
        _ => false,
    }
}

/// Whether the commands of a text agree on that.
fn agrees(alloc: Global, text: &str, want: Agreed) -> Result<bool, AllocError> {
    let pipeline = pipeline(alloc, text)?;
    let got = route_for_pipeline(alloc, &pipeline, 16_389);
    Ok(is_agreed(&got, want))
}

#[test]
fn pipelines_have_routes(rt: HostRuntime) -> Result<(), AllocError> {
    for row in &PIPELINES {
        assert!(rt; agrees(rt.alloc(), row.0, row.1)?, "{}", row.0);
    }
    Ok(())
}

/// Pipelines with whether the draw is used for their route.
const DRAWN: [(&str, bool); 3] = [
    ("GET foo; EVAL x 0 foo; FLUSHALL", true),
    ("EVAL x y foo; GET foo", false),
    ("ECHO foo", false),
];

/// Whether the draw is used for the route of a text's commands; nothing where they have none.
fn uses_draw(alloc: Global, text: &str) -> Result<Option<bool>, AllocError> {
    let pipeline = pipeline(alloc, text)?;
    match route_with_draw(alloc, &pipeline, 12_182) {
        Ok(found) => Ok(Some(found.used_draw)),
        Err(_) => Ok(None),
    }
}

#[test]
fn draws_are_told(rt: HostRuntime) -> Result<(), AllocError> {
    for row in &DRAWN {
        assert_eq!(rt; uses_draw(rt.alloc(), row.0)?, Some(row.1));
    }
    Ok(())
}

/// A pick through the trait alone.
fn picked<R: ReadRoutingStrategy>(strategy: &mut R, replicas: u32) -> u32
    requires { 0 < replicas }
{
    strategy.pick(replicas, 5)
}

#[test]
fn strategies_pick(rt: HostRuntime) {
    let mut strategy = ReadStrategy::RoundRobin { next: u32::MAX };
    assert_eq!(rt; picked(&mut strategy, 2), 1);
    assert_eq!(rt; strategy, ReadStrategy::RoundRobin { next: u32::MAX });
    assert_eq!(rt; picked(&mut ReadStrategy::Random, 3), 2);
}

/// The host of the node to which a route leads.
fn host_of(map: &SlotMap, slot: u16, addr: SlotAddr) -> Option<&[u8]> {
    let node = map.address_for_route(Route { slot, addr })?;
    Some(node.host.as_slice())
}

/// Whether a route leads to that host.
fn leads(
    alloc: Global,
    slot: u16,
    addr: SlotAddr,
    host: Option<&[u8]>,
) -> Result<bool, SlotsError> {
    let map = map(alloc)?;
    Ok(host_of(&map, slot, addr) == host)
}

#[test]
fn routes_to_primaries_have_addresses(rt: HostRuntime) -> Result<(), Fail> {
    for row in &PRIMARIES {
        assert!(rt; leads(rt.alloc(), row.0, SlotAddr::Master, row.1)?);
    }
    Ok(())
}

#[test]
fn other_routes_have_addresses(rt: HostRuntime) -> Result<(), Fail> {
    let alloc = rt.alloc();
    assert!(rt; leads(alloc, 1500, SlotAddr::ReplicaRequired, Some(b"replica2"))?);
    assert!(rt; leads(alloc, 16_384, SlotAddr::Master, None)?);
    Ok(())
}

/// Whether the map has an address of that number.
fn has_address(alloc: Global, number: u32) -> Result<bool, SlotsError> {
    let map = map(alloc)?;
    Ok(map.get(number).is_some())
}

#[test]
fn addresses_have_numbers(rt: HostRuntime) -> Result<(), Fail> {
    assert!(rt; has_address(rt.alloc(), 0)?);
    assert!(rt; !has_address(rt.alloc(), 5)?);
    Ok(())
}

/// The place of an address in the map.
fn place_in_map(alloc: Global, text: &[u8]) -> Result<Option<u32>, SlotsError> {
    let map = map(alloc)?;
    match NodeAddress::try_from(alloc, text) {
        Ok(address) => Ok(map.place(&address)),
        Err(_) => Ok(None),
    }
}

/// Addresses, and their places.
const PLACES: [(&[u8], Option<u32>); 3] = [
    (b"node2:1", Some(2)),
    (b"replica3:1", Some(4)),
    (b"node2:2", None),
];

#[test]
fn addresses_have_places(rt: HostRuntime) -> Result<(), Fail> {
    for row in &PLACES {
        assert!(rt; place_in_map(rt.alloc(), row.0)? == row.1);
    }
    Ok(())
}
