ghost use Rattle.std.specs.Prelude.{◌≡◌, ◌++◌, ◌+ℤ◌, [], map, IfOk, OnOk, FitsSigned};
ghost use Rattle.std.specs.Int.{w128};
ghost use Rattle.std.specs.BTreeMap.{insert_entry};
ghost use Rattle.std.specs.List.{flat_map};
ghost use Rattle.resp_value.specs.View.{data_of, list_view, pairs_view};
ghost use Rattle.fan_out.specs.Tallies.{byte_order, count_now, counts_by_turns, counts_in, counts_of, number_of, shown, summed, tally};

use crate::numbers::saturated;
use containers::Bytes;
use resp_value::{Pairs, Value};
use std::alloc::{AllocError, Global};
use std::collections::BTreeMap;
use std::marker::Model;

/// A name and its number at the end of some counts, if they are such.
fn push_count<'a>(
    counts: &mut Vec<(&'a Bytes, i64)>,
    name: &'a Value,
    number: &Value,
) -> Result<(), AllocError>
    ensures { OnOk result
        (map count_now counts.new.items
        ≡ map count_now counts.old.items ++ counts_of (data_of name.now) (data_of number.now)) }
{
    let Value::BulkString(name) = name else {
        return Ok(());
    };
    let Value::Int(number) = number else {
        return Ok(());
    };
    counts.push((name, *number))?;
    Ok(())
}

/// The counts of a map at the end of others.
fn push_pairs<'a>(
    counts: &mut Vec<(&'a Bytes, i64)>,
    pairs: &'a [(Value, Value)],
) -> Result<(), AllocError>
    ensures { OnOk result
        (map count_now counts.new.items
        ≡ map count_now counts.old.items
        ++ flat_map (λ p. counts_of p.0 p.1) (pairs_view pairs.now)) }
{
    for pair in pairs {
        push_count(counts, &pair.0, &pair.1)?;
    }
    Ok(())
}

/// The counts of an array at the end of others.
fn push_turns<'a>(
    counts: &mut Vec<(&'a Bytes, i64)>,
    mut items: &'a [Value],
) -> Result<(), AllocError>
    ensures { OnOk result
        (map count_now counts.new.items
        ≡ map count_now counts.old.items ++ counts_by_turns (list_view items.entry.now)) }
{
    while let [name, number, rest @ ..] = items {
        push_count(counts, name, number)?;
        items = rest;
    }
    Ok(())
}

/// The counts of a value at the end of others.
fn push_counts<'a>(counts: &mut Vec<(&'a Bytes, i64)>, value: &'a Value) -> Result<(), AllocError>
    ensures { OnOk result
        (map count_now counts.new.items
        ≡ map count_now counts.old.items ++ counts_in value.now) }
{
    match value {
        Value::Map(pairs) => push_pairs(counts, pairs.as_slice()),
        Value::Array(items) => push_turns(counts, items.as_slice()),
        _ => Ok(()),
    }
}

/// The counts of these values, one value after another.
fn counts<'a>(alloc: Global, values: &[&'a Value]) -> Result<Vec<(&'a Bytes, i64)>, AllocError>
    ensures { IfOk result
        (λ counts. map count_now counts.items
        ≡ flat_map counts_in (map (λ v. v.now) values.entry.now)) }
{
    let mut counts = Vec::new(alloc);
    for value in values {
        push_counts(&mut counts, value)?;
    }
    Ok(counts)
}

/// Names in byte order, each with the sum of its numbers.
#[derive(Drop)]
struct Totals {
    totals: BTreeMap<Vec<u8>, i128>,
}

impl Model for Totals {
    ghost use Rattle.std.specs.Prelude.{List, ℕ, ℤ, map};

    ghost Value = { List (List ℕ × ℤ) };

    ghost view = { λ t. map (λ e. (e.0.items, e.1)) t.totals.entries };
}

impl Totals {
    /// No names. Takes no memory.
    fn new(alloc: Global) -> Totals
        ensures { result ≡ [] }
    {
        Totals {
            totals: BTreeMap::new(alloc),
        }
    }

    /// One more number of a name.
    fn add(&mut self, alloc: Global, name: &[u8], number: i64) -> Result<(), AllocError>
        requires { FitsSigned w128 (number_of name.now self.old +ℤ number) }
        ensures { OnOk result
            (self.new
            ≡ insert_entry byte_order self.old name.now (number_of name.now self.old +ℤ number)) }
    {
        let had = self.totals.get(name).copied().unwrap_or(0);
        let copy = Vec::from_slice(alloc, name)?;
        self.totals.insert(copy, had + i128::from(number))?;
        Ok(())
    }

    /// The map of the names, each with its sum as far as 64 bits reach.
    fn shown(&self, alloc: Global) -> Result<Pairs, AllocError>
        ensures { IfOk result (λ pairs. pairs ≡ map shown self.now) }
    {
        let mut pairs = Pairs::new(alloc);
        for (name, total) in &self.totals {
            let name = Bytes::from_slice(alloc, name.as_slice())?;
            pairs.push(Value::BulkString(name), Value::Int(saturated(*total)))?;
        }
        Ok(pairs)
    }
}

/// The sums of these counts, by names.
fn tally(alloc: Global, counts: &[(&Bytes, i64)]) -> Result<Totals, AllocError>
    ensures { IfOk result (λ totals. totals ≡ tally (map count_now counts.entry.now)) }
{
    let mut totals = Totals::new(alloc);
    for count in counts {
        totals.add(alloc, count.0.as_slice(), count.1)?;
    }
    Ok(totals)
}

/// The sums of the counts of these values, by names in byte order.
pub fn summed(alloc: Global, values: &[&Value]) -> Result<Pairs, AllocError>
    ensures { IfOk result (λ pairs. pairs ≡ summed (map (λ v. v.now) values.entry.now)) }
{
    let counts = counts(alloc, values)?;
    let totals = tally(alloc, counts.as_slice())?;
    totals.shown(alloc)
}
