ghost use Rattle.std.specs.Prelude.{◌≡◌, IfOk, Some};
ghost use Rattle.std.specs.HashMap as hashed;
ghost use Rattle.std.specs.List.{AllByRecursion};
ghost use Rattle.resp_value.specs.View.{data_of, list_view, pairs_view};
ghost use Rattle.resp_convert.specs.Convert.{IsRead, IsReadEach, IsTold};
ghost use Rattle.resp_convert.specs.Types.{FitsList, FitsOption, FitsPair, FitsPairs, IsEach, IsHashMap, IsList, IsMap, IsOptional, IsPair, IsPairs, bare, entries_of, items_in, paired, pairs_in};

use crate::convert::{ConvertError, FromRedisValue, Look};
use crate::parts;
use containers::Queue;
use resp_value::{Pairs, Value};
use std::alloc::{AllocError, Global};
use std::collections::{BTreeMap, HashMap};
use std::hash::Hash;

/// Nil is none. Any other value is moved, not copied.
impl<T: FromRedisValue> FromRedisValue for Option<T> {
    ghost reads = { λ d o. IsOptional T.reads d o };

    ghost fits = { FitsOption T.fits };

    ghost moves = { FitsOption T.moves };

    fn read_value(alloc: Global, value: &Value) -> Result<Option<Option<T>>, AllocError> {
        match value {
            Value::Nil => Ok(Some(None)),
            _ => match T::read_value(alloc, value)? {
                Some(read) => Ok(Some(Some(read))),
                None => Ok(None),
            },
        }
    }

    fn look(value: &Value) -> Look {
        match value {
            Value::Nil => Look::Fits,
            _ => T::look(value),
        }
    }

    fn take_value(alloc: Global, value: Value) -> Result<Option<T>, AllocError> {
        match value {
            Value::Nil => Ok(None),
            other => Ok(Some(T::take_value(alloc, other)?)),
        }
    }

    fn from_redis_value(alloc: Global, value: Value) -> Result<Option<T>, ConvertError> {
        match value {
            Value::Nil => Ok(None),
            other => match T::from_redis_value(alloc, other) {
                Ok(read) => Ok(Some(read)),
                Err(error) => Err(error),
            },
        }
    }
}

/// What the items of an array or a set are, if each is of the type.
pub fn read_items<T: FromRedisValue + Drop>(
    alloc: Global,
    value: &Value,
) -> Result<Option<Vec<T>>, AllocError>
    ensures { IfOk result (λ read. IsReadEach T.reads (items_in (bare (data_of value.now))) read) }
{
    match parts::items(parts::bare(value)) {
        Some(items) => T::read_values(alloc, items),
        None => Ok(None),
    }
}

/// Whether the items of an array or a set can be moved.
pub fn look_at_items<T: FromRedisValue>(value: &Value) -> Look
    ensures { IsTold (FitsList T.moves) (FitsList T.fits) (IsList T.reads) (data_of value.now) result }
{
    match parts::items(parts::bare(value)) {
        Some(items) => T::look_at_values(items),
        None => Look::Unfit,
    }
}

/// The items of an array or a set, each moved.
pub fn take_items<T: FromRedisValue + Drop>(
    alloc: Global,
    value: Value,
) -> Result<Vec<T>, AllocError>
    requires { FitsList T.fits (data_of value) }
    ensures { IfOk result (λ taken. IsList T.reads (data_of value) taken.items) }
{
    match parts::into_items(parts::into_bare(value)) {
        Some(items) => T::take_values(alloc, items),
        None => unreachable!(),
    }
}

/// An array or a set. Its items are moved where their type moves them.
impl<T: FromRedisValue + Drop> FromRedisValue for Vec<T> {
    ghost reads = { λ d xs. IsList T.reads d xs.items };

    ghost fits = { FitsList T.fits };

    ghost moves = { FitsList T.moves };

    fn read_value(alloc: Global, value: &Value) -> Result<Option<Vec<T>>, AllocError> {
        read_items(alloc, value)
    }

    fn look(value: &Value) -> Look {
        look_at_items::<T>(value)
    }

    fn take_value(alloc: Global, value: Value) -> Result<Vec<T>, AllocError> {
        take_items(alloc, value)
    }
}

/// Keys with their values in order, read of a map, or of an array of even length.
#[derive(Drop)]
pub struct KeyValues<K, V> {
    pub pairs: Vec<(K, V)>,
}

/// A key and its value, if they are of the types.
fn read_pair<K: FromRedisValue + Drop, V: FromRedisValue + Drop>(
    alloc: Global,
    key: &Value,
    value: &Value,
) -> Result<Option<(K, V)>, AllocError>
    ensures { IfOk result (λ read.
        IsRead (IsPair K.reads V.reads) (data_of key.now, data_of value.now) read) }
{
    let Some(key) = K::read_value(alloc, key)? else {
        return Ok(None);
    };
    match V::read_value(alloc, value)? {
        Some(value) => Ok(Some((key, value))),
        None => Ok(None),
    }
}

/// What the pairs of a map are, if each is of the types.
fn read_members<K: FromRedisValue + Drop, V: FromRedisValue + Drop>(
    alloc: Global,
    members: &[(Value, Value)],
) -> Result<Option<Vec<(K, V)>>, AllocError>
    ensures { IfOk result (λ read.
        IsReadEach (IsPair K.reads V.reads) (Some (pairs_view members.now)) read) }
{
    let mut read = Vec::new(alloc);
    for member in members {
        match read_pair::<K, V>(alloc, &member.0, &member.1)? {
            Some(pair) => read.push(pair)?,
            None => return Ok(None),
        }
    }
    Ok(Some(read))
}

/// What the items of an array are by twos, if their number is even and each pair is of the types.
fn read_paired<K: FromRedisValue + Drop, V: FromRedisValue + Drop>(
    alloc: Global,
    mut items: &[Value],
) -> Result<Option<Vec<(K, V)>>, AllocError>
    ensures { IfOk result (λ read.
        IsReadEach (IsPair K.reads V.reads) (paired (list_view items.entry.now)) read) }
{
    let mut read = Vec::new(alloc);
    while let [key, value, rest @ ..] = items {
        match read_pair::<K, V>(alloc, key, value)? {
            Some(pair) => read.push(pair)?,
            None => return Ok(None),
        }
        items = rest;
    }
    if items.is_empty() {
        Ok(Some(read))
    } else {
        Ok(None)
    }
}

/// What the keys and values of a map are, or of an array of even length.
#[tactic(auto, using(crate::proofs::Each::same_items))]
fn read_pairs<K: FromRedisValue + Drop, V: FromRedisValue + Drop>(
    alloc: Global,
    value: &Value,
) -> Result<Option<Vec<(K, V)>>, AllocError>
    ensures { IfOk result (λ read.
        IsReadEach (IsPair K.reads V.reads) (pairs_in (data_of value.now)) read) }
{
    match value {
        Value::Map(pairs) => read_members(alloc, pairs.as_slice()),
        Value::Array(items) => read_paired(alloc, items.as_slice()),
        _ => Ok(None),
    }
}

/// Whether a key and its value can be moved.
fn look_at_pair<K: FromRedisValue, V: FromRedisValue>(key: &Value, value: &Value) -> Look
    ensures { IsTold (FitsPair K.moves V.moves) (FitsPair K.fits V.fits) (IsPair K.reads V.reads)
        (data_of key.now, data_of value.now) result }
{
    match K::look(key) {
        Look::Fits => V::look(value),
        Look::Unfit => Look::Unfit,
        Look::Untold => Look::Untold,
    }
}

/// Whether the keys and values of a map can be moved.
fn look_at_members<K: FromRedisValue, V: FromRedisValue>(members: &[(Value, Value)]) -> Look
    ensures { IsTold (AllByRecursion (FitsPair K.moves V.moves)) (AllByRecursion (FitsPair K.fits V.fits)) (IsEach (IsPair K.reads V.reads))
        (pairs_view members.now) result }
{
    for member in members {
        match look_at_pair::<K, V>(&member.0, &member.1) {
            Look::Fits => {}
            Look::Unfit => return Look::Unfit,
            Look::Untold => return Look::Untold,
        }
    }
    Look::Fits
}

/// The same of a value that is a map. An array of keys and values is read.
fn look_at_pairs<K: FromRedisValue, V: FromRedisValue>(value: &Value) -> Look
    ensures { IsTold (FitsPairs K.moves V.moves) (FitsPairs K.fits V.fits) (IsPairs K.reads V.reads)
        (data_of value.now) result }
{
    match parts::bare(value) {
        Value::Map(pairs) => look_at_members::<K, V>(pairs.as_slice()),
        _ => Look::Untold,
    }
}

/// A key and its value, each moved.
fn take_pair<K: FromRedisValue + Drop, V: FromRedisValue + Drop>(
    alloc: Global,
    key: Value,
    value: Value,
) -> Result<(K, V), AllocError>
    requires { FitsPair K.fits V.fits (data_of key, data_of value) }
    ensures { IfOk result (λ taken. IsPair K.reads V.reads (data_of key, data_of value) taken) }
{
    match K::take_value(alloc, key) {
        Ok(key) => {
            let value = V::take_value(alloc, value)?;
            Ok((key, value))
        }
        Err(error) => {
            drop(value);
            Err(error)
        }
    }
}

/// The keys and values of a map, each moved.
fn take_members<K: FromRedisValue + Drop, V: FromRedisValue + Drop>(
    alloc: Global,
    members: Pairs,
) -> Result<Vec<(K, V)>, AllocError>
    requires { AllByRecursion (FitsPair K.fits V.fits) members }
    ensures { IfOk result (λ taken. IsEach (IsPair K.reads V.reads) members taken.items) }
{
    let mut taken = Vec::new(alloc);
    let mut rest = Queue::from_vec(members.into_vec());
    while let Some((key, value)) = rest.pop_front() {
        taken.push(take_pair(alloc, key, value)?)?;
    }
    Ok(taken)
}

/// The same of a value that is a map.
fn take_pairs<K: FromRedisValue + Drop, V: FromRedisValue + Drop>(
    alloc: Global,
    value: Value,
) -> Result<Vec<(K, V)>, AllocError>
    requires { FitsPairs K.fits V.fits (data_of value) }
    ensures { IfOk result (λ taken. IsPairs K.reads V.reads (data_of value) taken.items) }
{
    match parts::into_members(parts::into_bare(value)) {
        Some(members) => take_members(alloc, members),
        None => unreachable!(),
    }
}

/// A map, or an array of even length: keys and values in turn. Those of a map are moved where their types move them.
impl<K: FromRedisValue + Drop, V: FromRedisValue + Drop> FromRedisValue for KeyValues<K, V> {
    ghost reads = { λ d xs. IsPairs K.reads V.reads d xs.pairs.items };

    ghost fits = { FitsPairs K.fits V.fits };

    ghost moves = { FitsPairs K.moves V.moves };

    fn read_value(alloc: Global, value: &Value) -> Result<Option<KeyValues<K, V>>, AllocError> {
        match read_pairs(alloc, parts::bare(value))? {
            Some(pairs) => Ok(Some(KeyValues { pairs })),
            None => Ok(None),
        }
    }

    fn look(value: &Value) -> Look {
        look_at_pairs::<K, V>(value)
    }

    fn take_value(alloc: Global, value: Value) -> Result<KeyValues<K, V>, AllocError> {
        Ok(KeyValues {
            pairs: take_pairs(alloc, value)?,
        })
    }
}

/// The map into which pairs are put in order.
fn map_of<K: Ord + Drop, V: Drop>(
    alloc: Global,
    pairs: Vec<(K, V)>,
) -> Result<BTreeMap<K, V>, AllocError>
    ensures { IfOk result (λ map. map.entries ≡ entries_of K.cmp pairs.items) }
{
    let mut map = BTreeMap::new(alloc);
    let mut rest = Queue::from_vec(pairs);
    while let Some((key, value)) = rest.pop_front() {
        map.insert(key, value)?;
    }
    Ok(map)
}

/// A map, or an array of even length: keys and values in turn. Of equal keys the last has the value.
impl<K: FromRedisValue + Ord + Drop, V: FromRedisValue + Drop> FromRedisValue for BTreeMap<K, V> {
    ghost reads = { IsMap K.cmp K.reads V.reads };

    ghost fits = { FitsPairs K.fits V.fits };

    ghost moves = { FitsPairs K.moves V.moves };

    fn read_value(alloc: Global, value: &Value) -> Result<Option<BTreeMap<K, V>>, AllocError> {
        match read_pairs(alloc, parts::bare(value))? {
            Some(pairs) => Ok(Some(map_of(alloc, pairs)?)),
            None => Ok(None),
        }
    }

    fn look(value: &Value) -> Look {
        look_at_pairs::<K, V>(value)
    }

    fn take_value(alloc: Global, value: Value) -> Result<BTreeMap<K, V>, AllocError> {
        map_of(alloc, take_pairs(alloc, value)?)
    }
}

/// The map into which pairs are put in order, without an order of its own.
fn hash_map_of<K: Eq + Hash + Drop, V: Drop>(
    alloc: Global,
    pairs: Vec<(K, V)>,
) -> Result<HashMap<K, V>, AllocError>
    ensures { IfOk result (hashed.IsFromIterResult K.eq pairs.items) }
{
    pairs.into_iter().collect(alloc)
}

/// A map, or an array of even length: keys and values in turn. Of equal keys the last has the value.
impl<K: FromRedisValue + Eq + Hash + Drop, V: FromRedisValue + Drop> FromRedisValue
    for HashMap<K, V> {
    ghost reads = { IsHashMap K.eq K.reads V.reads };

    ghost fits = { FitsPairs K.fits V.fits };

    ghost moves = { FitsPairs K.moves V.moves };

    fn read_value(alloc: Global, value: &Value) -> Result<Option<HashMap<K, V>>, AllocError> {
        match read_pairs(alloc, parts::bare(value))? {
            Some(pairs) => Ok(Some(hash_map_of(alloc, pairs)?)),
            None => Ok(None),
        }
    }

    fn look(value: &Value) -> Look {
        look_at_pairs::<K, V>(value)
    }

    fn take_value(alloc: Global, value: Value) -> Result<HashMap<K, V>, AllocError> {
        hash_map_of(alloc, take_pairs(alloc, value)?)
    }
}
