ghost use Rattle.std.specs.Prelude.{◌≡◌, ◌-◌, ◌≤◌, [], ◌∷◌, IfOk, OnOk, MatchOption};
ghost use Rattle.push_sender.specs.Sending.{Gained, GainedPart, pushes_of, push_of};

use crate::sender::{AsyncPushSender, SendError};
use driver_model::{Action, PushInfo};
use std::alloc::{AllocError, Global};

/// Hands the pushes of these actions to a sender, in order, each as a copy of its own. The answer is how many of them it
/// refused, by its own count. Where memory is wanted, for a copy or by the sender, it was handed those before.
pub fn deliver<S: AsyncPushSender>(
    alloc: Global,
    actions: &[Action],
    sender: &mut S,
) -> Result<u64, AllocError>
    ensures got { OnOk result (Gained (S.handed sender.old) (S.handed sender.new) (pushes_of actions.now)) }
    ensures refused { IfOk result (λ n. n ≡ S.refusals sender.new - S.refusals sender.old) }
    ensures part { GainedPart (S.handed sender.old) (S.handed sender.new) (pushes_of actions.now) }
{
    let before = sender.refused();
    for action in actions {
        hand_on(alloc, action, sender)?;
    }
    Ok(sender.refused() - before)
}

/// Hands an action on, where it is a push.
fn hand_on<S: AsyncPushSender>(
    alloc: Global,
    action: &Action,
    sender: &mut S,
) -> Result<(), AllocError>
    ensures got { OnOk result (Gained (S.handed sender.old) (S.handed sender.new) (push_of action.now)) }
    ensures part { GainedPart (S.handed sender.old) (S.handed sender.new) (push_of action.now) }
    ensures later { S.refusals sender.old ≤ S.refusals sender.new }
{
    match push_in(action) {
        Some(info) => {
            let info = info.clone(alloc)?;
            send_on(info, sender)?;
            Ok(())
        }
        None => Ok(()),
    }
}

/// The push that an action is, if it is one.
fn push_in(action: &Action) -> Option<&PushInfo>
    ensures { MatchOption result
        (push_of action.now ≡ [])
        (λ info. push_of action.now ≡ info.now ∷ []) }
{
    match action {
        Action::Push { link: _, info } => Some(info),
        _ => None,
    }
}

/// Hands a push to a sender, which may refuse it.
fn send_on<S: AsyncPushSender>(info: PushInfo, sender: &mut S) -> Result<(), AllocError>
    ensures got { Gained (S.handed sender.old) (S.handed sender.new) (info ∷ []) }
    ensures later { S.refusals sender.old ≤ S.refusals sender.new }
{
    match sender.send(info) {
        Ok(()) => Ok(()),
        Err(SendError::Refused) => Ok(()),
        Err(SendError::NoMemory) => Err(AllocError),
    }
}
