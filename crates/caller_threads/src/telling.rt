//! What the turns tell.
ghost use Rattle.std.specs.Prelude.{◌≡◌, ◌++◌, IfOk, OnOk, OnErr};
ghost use Rattle.caller_threads.specs.Submits.{numbers_of, actions_in, IsOrdered, IsTold};

use crate::job::Turn;
use containers::Queue;
use driver_model::Action;
use std::alloc::{AllocError, Global};

/// The numbers of the submissions, in order.
fn numbers(alloc: Global, mut turns: &[Turn]) -> Result<Vec<u32>, AllocError>
    ensures { IfOk result (λ v. v.items ≡ numbers_of turns.entry.now) }
{
    let mut all = Vec::new(alloc);
    while let [turn, rest @ ..] = turns {
        all.push(turn.number)?;
        turns = rest;
    }
    Ok(all)
}

/// The actions of the turns, one after another.
fn actions(alloc: Global, turns: Vec<Turn>) -> Result<Vec<Action>, AllocError>
    ensures { IfOk result (λ v. v.items ≡ actions_in turns.items) }
{
    let mut all = Vec::new(alloc);
    let mut rest = Queue::from_vec(turns);
    while let Some(turn) = rest.pop_front() {
        let Turn {
            place: _,
            number: _,
            actions,
        } = turn;
        let mut shown = actions;
        all.append(&mut shown)?;
    }
    Ok(all)
}

/// Puts the turns in turn order.
fn in_turn_order(turns: &mut Vec<Turn>)
    ensures { IsOrdered turns.old.items turns.new.items }
{
    turns.sort_unstable_by_key(|turn| turn.place);
}

/// `numbers` gains the numbers of the submissions, in this order, and `out` the actions, in turn order. After an error
/// both are as they were.
pub fn tell(
    alloc: Global,
    turns: Vec<Turn>,
    numbers: &mut Vec<u32>,
    out: &mut Vec<Action>,
) -> Result<(), AllocError>
    ensures numbers { OnOk result (
        numbers.new.items ≡ numbers.old.items ++ numbers_of turns.items
        ) }
    ensures out { OnOk result (IsTold turns.items out.old.items out.new.items) }
    ensures err { OnErr result (
        (numbers.new.items ≡ numbers.old.items) × (out.new.items ≡ out.old.items)
        ) }
{
    let before = numbers.len();
    let mut turns = turns;
    let mut given = self::numbers(alloc, turns.as_slice())?;
    in_turn_order(&mut turns);
    let mut shown = actions(alloc, turns)?;
    numbers.append(&mut given)?;
    if let Err(error) = out.append(&mut shown) {
        numbers.truncate(before);
        return Err(error);
    }
    Ok(())
}
