ghost use Rattle.std.specs.Prelude.{IfOk};
ghost use Rattle.resp_value.specs.View.{list_view};
ghost use Rattle.resp_convert.specs.Convert.{IsOfType, IsRead};
ghost use Rattle.resp_convert.specs.Types.{AreFive, AreFour, AreOne, AreSix, AreThree, AreTwo, HasItems};

use crate::convert::{FromRedisValue, Look};
use crate::parts;
use resp_value::Value;
use std::alloc::{AllocError, Global};

/// What one value is, if there is just one.
fn read_one<A: FromRedisValue + Drop>(
    alloc: Global,
    items: &[Value],
) -> Result<Option<A>, AllocError>
    ensures { IfOk result (λ read. IsRead (AreOne A.reads) (list_view items.now) read) }
{
    match items {
        [first] => A::read_value(alloc, first),
        _ => Ok(None),
    }
}

/// What two values are, each of its own type, if there are just so many.
fn read_two<A: FromRedisValue + Drop, B: FromRedisValue + Drop>(
    alloc: Global,
    items: &[Value],
) -> Result<Option<(A, B)>, AllocError>
    ensures { IfOk result (λ read. IsRead (AreTwo A.reads B.reads) (list_view items.now) read) }
{
    let [first, rest @ ..] = items else {
        return Ok(None);
    };
    let Some(a) = A::read_value(alloc, first)? else {
        return Ok(None);
    };
    match read_one(alloc, rest)? {
        Some(b) => Ok(Some((a, b))),
        None => Ok(None),
    }
}

/// What three values are, each of its own type, if there are just so many.
fn read_three<A: FromRedisValue + Drop, B: FromRedisValue + Drop, C: FromRedisValue + Drop>(
    alloc: Global,
    items: &[Value],
) -> Result<Option<(A, B, C)>, AllocError>
    ensures { IfOk result (λ read.
        IsRead (AreThree A.reads B.reads C.reads) (list_view items.now) read) }
{
    let [first, rest @ ..] = items else {
        return Ok(None);
    };
    let Some(a) = A::read_value(alloc, first)? else {
        return Ok(None);
    };
    match read_two(alloc, rest)? {
        Some((b, c)) => Ok(Some((a, b, c))),
        None => Ok(None),
    }
}

/// What four values are, each of its own type, if there are just so many.
fn read_four<
    A: FromRedisValue + Drop,
    B: FromRedisValue + Drop,
    C: FromRedisValue + Drop,
    D: FromRedisValue + Drop,
>(alloc: Global, items: &[Value]) -> Result<Option<(A, B, C, D)>, AllocError>
    ensures { IfOk result (λ read.
        IsRead (AreFour A.reads B.reads C.reads D.reads) (list_view items.now) read) }
{
    let [first, rest @ ..] = items else {
        return Ok(None);
    };
    let Some(a) = A::read_value(alloc, first)? else {
        return Ok(None);
    };
    match read_three(alloc, rest)? {
        Some((b, c, d)) => Ok(Some((a, b, c, d))),
        None => Ok(None),
    }
}

/// What five values are, each of its own type, if there are just so many.
fn read_five<
    A: FromRedisValue + Drop,
    B: FromRedisValue + Drop,
    C: FromRedisValue + Drop,
    D: FromRedisValue + Drop,
    E: FromRedisValue + Drop,
>(alloc: Global, items: &[Value]) -> Result<Option<(A, B, C, D, E)>, AllocError>
    ensures { IfOk result (λ read.
        IsRead (AreFive A.reads B.reads C.reads D.reads E.reads) (list_view items.now) read) }
{
    let [first, rest @ ..] = items else {
        return Ok(None);
    };
    let Some(a) = A::read_value(alloc, first)? else {
        return Ok(None);
    };
    match read_four(alloc, rest)? {
        Some((b, c, d, e)) => Ok(Some((a, b, c, d, e))),
        None => Ok(None),
    }
}

/// What six values are, each of its own type, if there are just so many.
fn read_six<
    A: FromRedisValue + Drop,
    B: FromRedisValue + Drop,
    C: FromRedisValue + Drop,
    D: FromRedisValue + Drop,
    E: FromRedisValue + Drop,
    F: FromRedisValue + Drop,
>(alloc: Global, items: &[Value]) -> Result<Option<(A, B, C, D, E, F)>, AllocError>
    ensures { IfOk result (λ read.
        IsRead (AreSix A.reads B.reads C.reads D.reads E.reads F.reads)
        (list_view items.now) read) }
{
    let [first, rest @ ..] = items else {
        return Ok(None);
    };
    let Some(a) = A::read_value(alloc, first)? else {
        return Ok(None);
    };
    match read_five(alloc, rest) {
        Ok(Some((b, c, d, e, f))) => Ok(Some((a, b, c, d, e, f))),
        Ok(None) => Ok(None),
        Err(error) => Err(error),
    }
}

/// An array or a set of two items.
impl<A: FromRedisValue + Drop, B: FromRedisValue + Drop> FromRedisValue for (A, B) {
    ghost reads = { HasItems (AreTwo A.reads B.reads) };

    ghost fits = { IsOfType (HasItems (AreTwo A.reads B.reads)) };

    ghost moves = { λ _. ⊥ };

    fn read_value(alloc: Global, value: &Value) -> Result<Option<(A, B)>, AllocError> {
        match parts::items(parts::bare(value)) {
            Some(items) => read_two(alloc, items),
            None => Ok(None),
        }
    }

    fn look(_value: &Value) -> Look {
        Look::Untold
    }
}

/// An array or a set of three items.
impl<A: FromRedisValue + Drop, B: FromRedisValue + Drop, C: FromRedisValue + Drop> FromRedisValue
    for (A, B, C) {
    ghost reads = { HasItems (AreThree A.reads B.reads C.reads) };

    ghost fits = { IsOfType (HasItems (AreThree A.reads B.reads C.reads)) };

    ghost moves = { λ _. ⊥ };

    fn read_value(alloc: Global, value: &Value) -> Result<Option<(A, B, C)>, AllocError> {
        match parts::items(parts::bare(value)) {
            Some(items) => read_three(alloc, items),
            None => Ok(None),
        }
    }

    fn look(_value: &Value) -> Look {
        Look::Untold
    }
}

/// An array or a set of four items.
impl<
    A: FromRedisValue + Drop,
    B: FromRedisValue + Drop,
    C: FromRedisValue + Drop,
    D: FromRedisValue + Drop,
> FromRedisValue for (A, B, C, D) {
    ghost reads = { HasItems (AreFour A.reads B.reads C.reads D.reads) };

    ghost fits = { IsOfType (HasItems (AreFour A.reads B.reads C.reads D.reads)) };

    ghost moves = { λ _. ⊥ };

    fn read_value(alloc: Global, value: &Value) -> Result<Option<(A, B, C, D)>, AllocError> {
        match parts::items(parts::bare(value)) {
            Some(items) => read_four(alloc, items),
            None => Ok(None),
        }
    }

    fn look(_value: &Value) -> Look {
        Look::Untold
    }
}

/// An array or a set of five items.
impl<
    A: FromRedisValue + Drop,
    B: FromRedisValue + Drop,
    C: FromRedisValue + Drop,
    D: FromRedisValue + Drop,
    E: FromRedisValue + Drop,
> FromRedisValue for (A, B, C, D, E) {
    ghost reads = { HasItems (AreFive A.reads B.reads C.reads D.reads E.reads) };

    ghost fits = { IsOfType (HasItems (AreFive A.reads B.reads C.reads D.reads E.reads)) };

    ghost moves = { λ _. ⊥ };

    fn read_value(alloc: Global, value: &Value) -> Result<Option<(A, B, C, D, E)>, AllocError> {
        match parts::items(parts::bare(value)) {
            Some(items) => read_five(alloc, items),
            None => Ok(None),
        }
    }

    fn look(_value: &Value) -> Look {
        Look::Untold
    }
}

/// An array or a set of six items.
impl<
    A: FromRedisValue + Drop,
    B: FromRedisValue + Drop,
    C: FromRedisValue + Drop,
    D: FromRedisValue + Drop,
    E: FromRedisValue + Drop,
    F: FromRedisValue + Drop,
> FromRedisValue for (A, B, C, D, E, F) {
    ghost reads = { HasItems (AreSix A.reads B.reads C.reads D.reads E.reads F.reads) };

    ghost fits = { IsOfType (HasItems (AreSix A.reads B.reads C.reads D.reads E.reads F.reads)) };

    ghost moves = { λ _. ⊥ };

    fn read_value(alloc: Global, value: &Value) -> Result<Option<(A, B, C, D, E, F)>, AllocError> {
        match parts::items(parts::bare(value)) {
            Some(items) => read_six(alloc, items),
            None => Ok(None),
        }
    }

    fn look(_value: &Value) -> Look {
        Look::Untold
    }
}
