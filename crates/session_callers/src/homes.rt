//! One step of the session, and the count of its submissions.
ghost use Rattle.std.specs.Prelude.{◌≡◌, OnOk, OnErr, IfErr, IfOk, IsSome};
ghost use Rattle.single_session.specs.Replay.{trace_of, outcomes_in, outcome_at};
ghost use Rattle.session_callers.specs.Rule.{submits, submissions_in};
ghost use Rattle.session_callers.specs.Steps.{IsCounted, Stepped, HasTaken, HasRefused};

use crate::board::Home;
use driver_model::{Action, Event, EventKind, Outcome};
use shared_session::{Session, StepError};
use std::alloc::{AllocError, Global};

/// 1 for a submission, else 0.
fn count_of(kind: &EventKind) -> u32
    ensures { result ≡ submits kind.now }
{
    match kind {
        EventKind::Submit { submission: _ } => 1,
        _ => 0,
    }
}

/// The session makes one step. After an error `out` is as it was.
pub fn step_home(
    alloc: Global,
    home: &mut Home,
    event: Event,
    out: &mut Vec<Action>,
) -> Result<(), StepError>
    requires { IsCounted home.old }
    ensures stepped { Stepped home.old home.new }
    ensures ok { OnOk result (HasTaken home.old home.new event out.old.items out.new.items) }
    ensures err { IfErr result (λ error.
        HasRefused error home.old home.new event out.old.items out.new.items
        ) }
{
    let count = count_of(&event.kind);
    match home.session.step(alloc, event, out) {
        Ok(()) => {
            let taken = home.session.events_taken();
            home.submissions += count;
            let _ = taken;
            Ok(())
        }
        Err(error) => Err(error),
    }
}

/// A copy of the outcome of a submission. Memory can be refused only to a copy.
pub fn outcome_in(
    alloc: Global,
    session: &Session,
    submission: u32,
) -> Result<Option<Outcome>, AllocError>
    ensures ok { IfOk result (λ outcome.
        outcome
        ≡ outcome_at
        (outcomes_in (trace_of session.now.config session.now.word session.now.events))
        submission
        ) }
    ensures refused { OnErr result (IsSome (
        outcome_at
        (outcomes_in (trace_of session.now.config session.now.word session.now.events))
        submission
        )) }
{
    match session.outcome_of(submission) {
        Some(outcome) => match outcome.clone(alloc) {
            Ok(copy) => Ok(Some(copy)),
            Err(error) => Err(error),
        },
        None => Ok(None),
    }
}
