ghost use Rattle.std.specs.Prelude.{IfOk};
ghost use Rattle.std.specs.BTreeSet as ordered;
ghost use Rattle.std.specs.HashSet as hashed;
ghost use Rattle.resp_convert.specs.Types.{FitsList, IsHashSet, IsOrderedSet};

use crate::aggregates::{look_at_items, read_items, take_items};
use crate::convert::{FromRedisValue, Look};
use resp_value::Value;
use std::alloc::{AllocError, Global};
use std::collections::{BTreeSet, HashSet};
use std::hash::Hash;

/// The set of these items, in order.
fn ordered_set<T: Ord + Drop>(alloc: Global, items: Vec<T>) -> Result<BTreeSet<T>, AllocError>
    ensures { IfOk result (ordered.IsFromIterResult T.cmp items.items) }
{
    items.into_iter().collect(alloc)
}

/// The set of these items.
fn hash_set<T: Eq + Hash + Drop>(alloc: Global, items: Vec<T>) -> Result<HashSet<T>, AllocError>
    ensures { IfOk result (hashed.IsFromIterResult T.eq items.items) }
{
    items.into_iter().collect(alloc)
}

/// An array or a set. Items that are equal are one.
impl<T: FromRedisValue + Ord + Drop> FromRedisValue for BTreeSet<T> {
    ghost reads = { IsOrderedSet T.cmp T.reads };

    ghost fits = { FitsList T.fits };

    ghost moves = { FitsList T.moves };

    fn read_value(alloc: Global, value: &Value) -> Result<Option<BTreeSet<T>>, AllocError> {
        match read_items::<T>(alloc, value)? {
            Some(items) => Ok(Some(ordered_set(alloc, items)?)),
            None => Ok(None),
        }
    }

    fn look(value: &Value) -> Look {
        look_at_items::<T>(value)
    }

    fn take_value(alloc: Global, value: Value) -> Result<BTreeSet<T>, AllocError> {
        ordered_set(alloc, take_items(alloc, value)?)
    }
}

/// An array or a set. Items that are equal are one.
impl<T: FromRedisValue + Eq + Hash + Drop> FromRedisValue for HashSet<T> {
    ghost reads = { IsHashSet T.eq T.reads };

    ghost fits = { FitsList T.fits };

    ghost moves = { FitsList T.moves };

    fn read_value(alloc: Global, value: &Value) -> Result<Option<HashSet<T>>, AllocError> {
        match read_items::<T>(alloc, value)? {
            Some(items) => Ok(Some(hash_set(alloc, items)?)),
            None => Ok(None),
        }
    }

    fn look(value: &Value) -> Look {
        look_at_items::<T>(value)
    }

    fn take_value(alloc: Global, value: Value) -> Result<HashSet<T>, AllocError> {
        hash_set(alloc, take_items(alloc, value)?)
    }
}
