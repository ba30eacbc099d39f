ghost use Rattle.std.specs.Prelude.{IfOk};
ghost use Rattle.resp_write.specs.Arguments.{IsWritten, and_then, of_each, of_part};
ghost use Rattle.resp_write.specs.Command.{Command};

use crate::arguments::ToRedisArgs;
use crate::command::Cmd;
use containers::{Bytes, Names};
use std::alloc::{AllocError, Global};

/// What becomes arguments by itself where several stand in a slice. All but a byte does: bytes in a slice are one argument.
pub trait SliceElement: ToRedisArgs {}

/// The arguments of each element, in order.
impl<'a, T: SliceElement> ToRedisArgs for &'a [T] {
    ghost args_of = { of_part (λ items. items.now) (of_each T.args_of) };

    fn write_redis_args(&self, alloc: Global, cmd: &mut Cmd) -> Result<(), AllocError> {
        let mut more = Cmd::new(alloc);
        for item in *self {
            item.write_redis_args(alloc, &mut more)?;
        }
        cmd.append(more)
    }
}

/// The arguments of each element, in order.
impl<T: SliceElement> ToRedisArgs for Vec<T> {
    ghost args_of = { of_part (λ items. items.items) (of_each T.args_of) };

    fn write_redis_args(&self, alloc: Global, cmd: &mut Cmd) -> Result<(), AllocError> {
        self.as_slice().write_redis_args(alloc, cmd)
    }
}

/// A command, with the arguments of a value behind its own.
fn behind<T: ToRedisArgs>(alloc: Global, mut more: Cmd, value: &T) -> Result<Cmd, AllocError>
    ensures { IfOk result (IsWritten T.args_of value.now more) }
{
    match value.write_redis_args(alloc, &mut more) {
        Ok(()) => Ok(more),
        Err(error) => {
            drop(more);
            Err(error)
        }
    }
}

/// A command, with the arguments of two values behind its own.
fn behind_both<T: ToRedisArgs, U: ToRedisArgs>(
    alloc: Global,
    more: Cmd,
    one: &T,
    other: &U,
) -> Result<Cmd, AllocError>
    ensures { IfOk result (λ both. (first : Command)
        × IsWritten T.args_of one.now more first × IsWritten U.args_of other.now first both) }
{
    let first = behind(alloc, more, one)?;
    let both = behind(alloc, first, other)?;
    Ok(both)
}

/// The arguments of each, in order.
impl<A: ToRedisArgs, B: ToRedisArgs> ToRedisArgs for (A, B) {
    ghost args_of = { and_then (of_part (λ t. t.0) A.args_of) (of_part (λ t. t.1) B.args_of) };

    fn write_redis_args(&self, alloc: Global, cmd: &mut Cmd) -> Result<(), AllocError> {
        let mut more = Cmd::new(alloc);
        self.0.write_redis_args(alloc, &mut more)?;
        self.1.write_redis_args(alloc, &mut more)?;
        cmd.append(more)
    }
}

impl<A: ToRedisArgs, B: ToRedisArgs> SliceElement for (A, B) {}

/// The arguments of each, in order.
impl<A: ToRedisArgs, B: ToRedisArgs, C: ToRedisArgs> ToRedisArgs for (A, B, C) {
    ghost args_of = { and_then (and_then (of_part (λ t. t.0) A.args_of) (of_part (λ t. t.1) B.args_of)) (of_part (λ t. t.2) C.args_of) };

    fn write_redis_args(&self, alloc: Global, cmd: &mut Cmd) -> Result<(), AllocError> {
        let more = Cmd::new(alloc);
        let one = behind(alloc, more, &self.0)?;
        let two = behind(alloc, one, &self.1)?;
        let three = behind(alloc, two, &self.2)?;
        cmd.append(three)
    }
}

impl<A: ToRedisArgs, B: ToRedisArgs, C: ToRedisArgs> SliceElement for (A, B, C) {}

/// The arguments of each, in order.
impl<A: ToRedisArgs, B: ToRedisArgs, C: ToRedisArgs, D: ToRedisArgs> ToRedisArgs for (A, B, C, D) {
    ghost args_of = { and_then (and_then (and_then (of_part (λ t. t.0) A.args_of) (of_part (λ t. t.1) B.args_of)) (of_part (λ t. t.2) C.args_of)) (of_part (λ t. t.3) D.args_of) };

    fn write_redis_args(&self, alloc: Global, cmd: &mut Cmd) -> Result<(), AllocError> {
        let more = Cmd::new(alloc);
        let one = behind(alloc, more, &self.0)?;
        let two = behind(alloc, one, &self.1)?;
        let three = behind(alloc, two, &self.2)?;
        let four = behind(alloc, three, &self.3)?;
        cmd.append(four)
    }
}

impl<A: ToRedisArgs, B: ToRedisArgs, C: ToRedisArgs, D: ToRedisArgs> SliceElement
    for (A, B, C, D) {}

/// The arguments of each, in order.
impl<A: ToRedisArgs, B: ToRedisArgs, C: ToRedisArgs, D: ToRedisArgs, E: ToRedisArgs> ToRedisArgs
    for (A, B, C, D, E) {
    ghost args_of = { and_then (and_then (and_then (and_then (of_part (λ t. t.0) A.args_of) (of_part (λ t. t.1) B.args_of)) (of_part (λ t. t.2) C.args_of)) (of_part (λ t. t.3) D.args_of)) (of_part (λ t. t.4) E.args_of) };

    fn write_redis_args(&self, alloc: Global, cmd: &mut Cmd) -> Result<(), AllocError> {
        let more = Cmd::new(alloc);
        let two = behind_both(alloc, more, &self.0, &self.1)?;
        let four = behind_both(alloc, two, &self.2, &self.3)?;
        let five = behind(alloc, four, &self.4)?;
        cmd.append(five)
    }
}

impl<A: ToRedisArgs, B: ToRedisArgs, C: ToRedisArgs, D: ToRedisArgs, E: ToRedisArgs> SliceElement
    for (A, B, C, D, E) {}

/// The arguments of each, in order.
impl<
    A: ToRedisArgs,
    B: ToRedisArgs,
    C: ToRedisArgs,
    D: ToRedisArgs,
    E: ToRedisArgs,
    F: ToRedisArgs,
> ToRedisArgs for (A, B, C, D, E, F) {
    ghost args_of = { and_then (and_then (and_then (and_then (and_then (of_part (λ t. t.0) A.args_of) (of_part (λ t. t.1) B.args_of)) (of_part (λ t. t.2) C.args_of)) (of_part (λ t. t.3) D.args_of)) (of_part (λ t. t.4) E.args_of)) (of_part (λ t. t.5) F.args_of) };

    fn write_redis_args(&self, alloc: Global, cmd: &mut Cmd) -> Result<(), AllocError> {
        let more = Cmd::new(alloc);
        let two = behind_both(alloc, more, &self.0, &self.1)?;
        let four = behind_both(alloc, two, &self.2, &self.3)?;
        let six = behind_both(alloc, four, &self.4, &self.5)?;
        cmd.append(six)
    }
}

impl<
    A: ToRedisArgs,
    B: ToRedisArgs,
    C: ToRedisArgs,
    D: ToRedisArgs,
    E: ToRedisArgs,
    F: ToRedisArgs,
> SliceElement for (A, B, C, D, E, F) {}

impl<'a, T: SliceElement> SliceElement for &'a [T] {}

impl<T: SliceElement> SliceElement for Vec<T> {}

impl<T: ToRedisArgs> SliceElement for Option<T> {}

impl<'a> SliceElement for &'a [u8] {}

impl<'a> SliceElement for &'a str {}

impl SliceElement for Bytes {}

impl SliceElement for Names {}

impl SliceElement for Vec<u8> {}

impl SliceElement for String {}

impl SliceElement for bool {}

impl SliceElement for f64 {}

impl SliceElement for i8 {}

impl SliceElement for i16 {}

impl SliceElement for i32 {}

impl SliceElement for i64 {}

impl SliceElement for isize {}

impl SliceElement for u16 {}

impl SliceElement for u32 {}

impl SliceElement for u64 {}

impl SliceElement for usize {}
