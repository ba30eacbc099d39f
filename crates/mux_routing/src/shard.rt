ghost use Rattle.std.specs.Prelude.{◌≡◌, ◌==◌, ◌||◌, ◌<◌, ℕ, true, false, length, map, IfOk, option_copied, Some};
ghost use Rattle.mux_routing.specs.Kept.{mark_at, numbered};
ghost use Rattle.mux_routing.specs.Shards.{first_numbers, in_order, leading_below, leads, place_of, shard_of};
ghost use Rattle.mux_routing.specs.Shards.{node_in, picking, reads_after};

use crate::addresses::place_of;
use crate::rows::SlotRow;
use crate::strategy::ReadRoutingStrategy;
use command_table::SlotAddr;
use containers::Seq;
use slot_hash::NodeAddress;
use std::alloc::{AllocError, Global};
use std::marker::Model;

/// A row with its nodes by their places among the addresses of a map, and how many replicas there are.
#[derive(Drop)]
pub struct ShardNodes {
    pub start: u16,
    pub end: u16,
    pub primary: u32,
    pub replicas: Seq<u32>,
    pub count: u32,
}

impl Model for ShardNodes {
    ghost use Rattle.std.specs.Prelude.{◌≡◌, length};
    ghost use Rattle.mux_routing.specs.Shards.{Shard};

    ghost Value = { Shard };

    ghost view = { λ s. record { start = s.start; end = s.end; primary = s.primary; replicas = s.replicas } };

    ghost invariant = { λ s. s.count ≡ length s.replicas };
}

/// The place of an address, as a number of 32 bits.
fn number_of(nodes: &[NodeAddress], address: &NodeAddress) -> Result<u32, AllocError>
    requires { in_order nodes.now ≡ true }
    ensures { IfOk result (λ n. n ≡ place_of nodes.now address.now) }
{
    match u32::try_from(place_of(nodes, address)) {
        Ok(number) => Ok(number),
        Err(_) => Err(AllocError),
    }
}

/// The places of addresses.
fn numbers_of(
    alloc: Global,
    nodes: &[NodeAddress],
    more: &[NodeAddress],
) -> Result<Seq<u32>, AllocError>
    requires { in_order nodes.now ≡ true }
    ensures { IfOk result (λ ns. ns ≡ map (place_of nodes.now) more.now) }
{
    let mut numbers = Seq::new(alloc);
    for address in more {
        let number = number_of(nodes, address)?;
        numbers.push(number)?;
    }
    Ok(numbers)
}

/// A row with its nodes by their places.
fn shard_of(alloc: Global, nodes: &[NodeAddress], row: &SlotRow) -> Result<ShardNodes, AllocError>
    requires { in_order nodes.now ≡ true }
    ensures { IfOk result (λ s. s ≡ shard_of nodes.now row.now) }
{
    let primary = number_of(nodes, &row.primary)?;
    let replicas = numbers_of(alloc, nodes, row.replicas.as_slice())?;
    let Ok(count) = u32::try_from(replicas.len()) else {
        return Err(AllocError);
    };
    Ok(ShardNodes {
        start: row.start,
        end: row.end,
        primary,
        replicas,
        count,
    })
}

/// Each row with its nodes by their places.
pub fn shards_of(
    alloc: Global,
    nodes: &[NodeAddress],
    rows: &[SlotRow],
) -> Result<Seq<ShardNodes>, AllocError>
    requires { in_order nodes.now ≡ true }
    ensures { IfOk result (λ ss. ss ≡ map (shard_of nodes.now) rows.now) }
{
    let mut shards = Seq::new(alloc);
    for row in rows {
        let shard = shard_of(alloc, nodes, row)?;
        shards.push(shard)?;
    }
    Ok(shards)
}

/// So many marks, none of them set.
fn no_marks(alloc: Global, count: usize) -> Result<Vec<bool>, AllocError>
    ensures count { IfOk result (λ marks. length marks.items ≡ count) }
    ensures each { IfOk result (λ marks. (i : ℕ) → i < count → mark_at marks.items i ≡ false) }
{
    let mut marks = Vec::new(alloc);
    while marks.len() < count {
        marks.push(false)?;
    }
    Ok(marks)
}

/// Sets the mark of a place, if there is one.
fn set_mark(marks: &mut [bool], place: usize)
    ensures count { length marks.new ≡ length marks.old }
    ensures each { (i : ℕ) → i < length marks.old
        → mark_at marks.new i ≡ (place == i || mark_at marks.old i) }
{
    if place < marks.len() {
        marks[place] = true;
    }
}

/// For each of so many nodes whether it is the primary of a row.
fn marks_of(alloc: Global, count: usize, shards: &[ShardNodes]) -> Result<Vec<bool>, AllocError>
    ensures count { IfOk result (λ marks. length marks.items ≡ count) }
    ensures each { IfOk result
        (λ marks. (i : ℕ) → i < count → mark_at marks.items i ≡ leads i shards.now) }
{
    let mut marks = no_marks(alloc, count)?;
    for shard in shards {
        set_mark(marks.as_mut_slice(), shard.primary as usize);
    }
    Ok(marks)
}

/// The first primaries of rows, in order. With n nodes and m rows it takes n + m steps.
pub fn leading(alloc: Global, count: usize, shards: &[ShardNodes]) -> Result<Vec<u32>, AllocError>
    ensures { IfOk result (λ v. v.items ≡ leading_below count shards.now) }
{
    let marks = marks_of(alloc, count, shards)?;
    let mut leading = Vec::new(alloc);
    for i in 0..count {
        if marks[i] {
            let Ok(number) = u32::try_from(i) else {
                return Err(AllocError);
            };
            leading.push(number)?;
        }
    }
    Ok(leading)
}

/// The first numbers.
pub fn first_numbers(alloc: Global, count: usize) -> Result<Vec<u32>, AllocError>
    ensures { IfOk result (λ v. v.items ≡ first_numbers count) }
{
    let mut numbers = Vec::new(alloc);
    for i in 0..count {
        let Ok(number) = u32::try_from(i) else {
            return Err(AllocError);
        };
        numbers.push(number)?;
    }
    Ok(numbers)
}

/// The nodes of a number, if there are such.
pub fn numbered(shards: &[ShardNodes], number: Option<u32>) -> Option<&ShardNodes>
    ensures { option_copied result ≡ numbered shards.now number }
{
    match number {
        Some(number) => shards.get(number as usize),
        None => None,
    }
}

/// The node of a shard.
pub fn node_in<R: ReadRoutingStrategy>(
    shard: &ShardNodes,
    addr: SlotAddr,
    reads: &mut Option<R>,
    draw: u64,
) -> u32
    ensures index { result ≡ node_in addr (picking R.pick_of reads.old draw) shard.now }
    ensures reads { reads.new ≡ reads_after R.picked addr (Some shard.now) draw reads.old }
{
    if addr == SlotAddr::Master || shard.count == 0 {
        return shard.primary;
    }
    match reads {
        Some(strategy) => {
            let at = strategy.pick(shard.count, draw);
            *shard.replicas.at(at as usize)
        }
        None => {
            if addr == SlotAddr::ReplicaOptional {
                shard.primary
            } else {
                *shard.replicas.at(0)
            }
        }
    }
}
