ghost use Rattle.std.specs.Prelude.{◌≡◌, ◌++◌, map, IfOk, OnOk, replicate, slice_set};
ghost use Rattle.std.specs.List.{flat_map, zip};
ghost use Rattle.std.specs.Option.{option_copied};
ghost use Rattle.resp_value.specs.Data.{nil};
ghost use Rattle.resp_value.specs.View.{data_of, list_view};
ghost use Rattle.fan_out.specs.Arrays.{each_put, element_now, has_its_elements, keyed, misfit_of_keys, of_keys};
ghost use Rattle.fan_out.specs.Shapes.{elements};

use crate::shape::{elements, is_array};
use command_table::{KeyIndices, Route};
use containers::Seq;
use resp_value::{Value, Values};
use std::alloc::{AllocError, Global};

/// Copies of these values at the end of a list.
fn push_copies(alloc: Global, list: &mut Values, items: &[Value]) -> Result<(), AllocError>
    ensures { OnOk result (list.new ≡ list.old ++ list_view items.now) }
{
    for item in items {
        let copy = item.clone(alloc)?;
        list.push(copy)?;
    }
    Ok(())
}

/// The elements of all these arrays, one array after another.
pub fn one_after_another(alloc: Global, values: &[&Value]) -> Result<Values, AllocError>
    ensures { IfOk result
        (λ list. list ≡ flat_map elements (map (λ v. v.now) values.entry.now)) }
{
    let mut list = Values::new(alloc);
    for value in values {
        push_copies(alloc, &mut list, elements(value))?;
    }
    Ok(list)
}

/// Whether a value is an array with an element for each key of its part.
fn has_its_elements(indices: &KeyIndices, value: &Value) -> bool
    ensures { result ≡ has_its_elements indices.now value.now }
{
    is_array(value) && elements(value).len() == indices.len()
}

/// The first value that isn't an array with an element for each key of its part.
pub fn misfit_of_keys<'a>(
    mut routes: &[(Route, KeyIndices)],
    mut values: &[&'a Value],
) -> Option<&'a Value>
    ensures { option_copied result
        ≡ misfit_of_keys (zip routes.entry.now (map (λ v. v.now) values.entry.now)) }
{
    while let [route, more @ ..] = routes {
        let [value, others @ ..] = values else {
            return None;
        };
        if !has_its_elements(&route.1, value) {
            return Some(value);
        }
        routes = more;
        values = others;
    }
    None
}

/// The elements of one part, each with the place of its key.
fn push_keyed<'a>(
    keyed: &mut Vec<(u32, &'a Value)>,
    mut indices: &[u32],
    mut items: &'a [Value],
) -> Result<(), AllocError>
    ensures { OnOk result
        (map element_now keyed.new.items
        ≡ map element_now keyed.old.items ++ zip indices.entry.now (list_view items.entry.now)) }
{
    while let [index, more @ ..] = indices {
        let [item, others @ ..] = items else {
            return Ok(());
        };
        keyed.push((*index, item))?;
        indices = more;
        items = others;
    }
    Ok(())
}

/// The elements of all parts, each with the place of its key.
fn keyed<'a>(
    alloc: Global,
    mut routes: &[(Route, KeyIndices)],
    mut values: &[&'a Value],
) -> Result<Vec<(u32, &'a Value)>, AllocError>
    ensures { IfOk result
        (λ k. map element_now k.items
        ≡ keyed (zip routes.entry.now (map (λ v. v.now) values.entry.now))) }
{
    let mut keyed = Vec::new(alloc);
    while let [route, more @ ..] = routes {
        let [value, others @ ..] = values else {
            return Ok(keyed);
        };
        push_keyed(&mut keyed, route.1.as_slice(), elements(value))?;
        routes = more;
        values = others;
    }
    Ok(keyed)
}

/// So many times Nil.
#[tactic(auto, using(crate::proofs::Placing::one_nil_more))]
fn nils(alloc: Global, count: usize) -> Result<Seq<Value>, AllocError>
    ensures { IfOk result (λ row. list_view row ≡ replicate count nil) }
{
    let mut row = Seq::new(alloc);
    for _ in 0..count {
        row.push(Value::Nil)?;
    }
    Ok(row)
}

/// Puts a value in its place, if there is such a place.
#[tactic(auto, using(crate::proofs::Placing::put_in, crate::proofs::Placing::put_past))]
fn put(row: &mut Seq<Value>, place: usize, value: Value)
    ensures { list_view row.new ≡ slice_set (list_view row.old) place (data_of value) }
{
    if place < row.len() {
        row.set(place, value);
    } else {
        drop(value);
    }
}

/// Puts a copy of each element in the place of its key.
fn put_each(alloc: Global, row: &mut Seq<Value>, keyed: &[(u32, &Value)]) -> Result<(), AllocError>
    ensures { OnOk result
        (list_view row.new ≡ each_put (list_view row.old) (map element_now keyed.entry.now)) }
{
    for element in keyed {
        let copy = element.1.clone(alloc)?;
        put(row, element.0 as usize, copy);
    }
    Ok(())
}

/// The elements of all parts, each at the place of its key.
pub fn in_key_order(
    alloc: Global,
    routes: &[(Route, KeyIndices)],
    values: &[&Value],
) -> Result<Values, AllocError>
    ensures { IfOk result
        (λ list. list ≡ of_keys (zip routes.now (map (λ v. v.now) values.entry.now))) }
{
    let keyed = keyed(alloc, routes, values)?;
    let mut row = nils(alloc, keyed.len())?;
    put_each(alloc, &mut row, keyed.as_slice())?;
    Ok(Values::from_vec(row.into_vec()))
}
