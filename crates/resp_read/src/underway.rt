ghost use Rattle.std.specs.Prelude.{◌≡◌, ◌∷◌, [], ◌++◌, OnOk};
ghost use Rattle.resp_read.specs.Frames.{IsPutInPlace, IsPut};
ghost use Rattle.resp_read.specs.Limits.{AreAllowed};
ghost use Rattle.resp_read.specs.Places.{IsPlace, ReadsFrom, StaysPlace, Costs};

use crate::forms::Refusal;
use crate::frames::{Begun, Frame};
use crate::limits::Limits;
use crate::place::{self, Place};
use crate::tape::{Steps, Tape};
use resp_value::Value;
use std::alloc::{AllocError, Global};
use std::sync::ledger::Ledger;

/// One more aggregate, the innermost.
fn hold(frames: &mut Vec<Frame>, frame: Frame) -> Result<(), AllocError>
    ensures { OnOk result (frames.new.items ≡ frames.old.items ++ frame ∷ []) }
{
    frames.push(frame)?;
    Ok(())
}

/// Puts a value into the innermost aggregate where that stays the innermost. Otherwise hands the value back.
fn put_in_place(frames: &mut Vec<Frame>, value: Value) -> Result<Option<Value>, AllocError>
    ensures { IsPutInPlace frames.old.items value result frames.new.items }
{
    match frames.last_mut() {
        Some(frame) => frame.add(value),
        None => Ok(Some(value)),
    }
}

/// Puts a value into the innermost aggregate, and each that is whole by it into the next one. The outermost value, if it
/// is whole.
fn put(alloc: Global, frames: &mut Vec<Frame>, value: Value) -> Result<Option<Value>, AllocError>
    ensures { IsPut frames.old.items value result frames.new.items }
{
    let mut value = value;
    loop {
        match put_in_place(frames, value)? {
            None => return Ok(None),
            Some(back) => value = back,
        }
        let frame = match frames.pop() {
            Some(frame) => frame,
            None => return Ok(Some(value)),
        };
        match frame.put(alloc, value)? {
            Begun::Whole(whole) => value = whole,
            Begun::Within(frame) => {
                hold(frames, frame)?;
                return Ok(None);
            }
        }
    }
}

/// Reads on from a place within these aggregates, the outermost first. `Short`: what was looked at is noted at the place.
pub fn read_from<L: Ledger>(
    alloc: Global,
    limits: Limits,
    frames: &mut Vec<Frame>,
    tape: &Tape,
    place: &mut Place,
    steps: &mut Steps<L>,
) -> Result<Value, Refusal>
    requires allowed { AreAllowed limits }
    requires place { IsPlace tape.now place.old }
    ensures reads { ReadsFrom limits tape.now frames.old.items place.old
        result frames.new.items place.new }
    ensures place { StaysPlace tape.now result place.new }
    ensures costs { Costs tape.now place.old steps.old result place.new steps.new }
{
    loop {
        let around = frames.as_slice().len();
        let begun = match place::advance(alloc, limits, around, tape, place, steps) {
            Ok(Some(begun)) => begun,
            Ok(None) => continue,
            Err(refusal) => return Err(refusal),
        };
        match begun {
            Begun::Whole(value) => match put(alloc, frames, value) {
                Ok(Some(outermost)) => return Ok(outermost),
                Ok(None) => {}
                Err(_) => return Err(Refusal::NoMemory),
            },
            Begun::Within(frame) => match hold(frames, frame) {
                Ok(()) => {}
                Err(_) => return Err(Refusal::NoMemory),
            },
        }
    }
}
