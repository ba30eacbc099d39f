//! The call.
ghost use Rattle.std.specs.Prelude.{◌≡◌, ◌<◌, length, IfOk, IfErr, OnOk, OnErr, vec_len};
ghost use Rattle.session_callers.specs.Rule.{Each};
ghost use Rattle.caller_threads.specs.Submits.{AreAllowed, HaveRun, HaveSubmitted, HaveStopped};
ghost use Rattle.caller_threads.specs.Jobs.{callers_of, IsNew, IsOfTable};

use crate::dealing::deal;
use crate::gate::Gate;
use crate::gathering::{first_error, gather};
use crate::job::{Job, Turn};
use crate::running::run_all;
use crate::seating::{seat, unseat};
use crate::telling::tell;
use driver_model::{Action, Submission};
use session_callers::{Caller, SharedSession};
use shared_session::StepError;
use std::alloc::Global;
use std::sync::Wait;
use std::thread::Threads;

/// Deals the lines to the jobs, runs them, and answers their turns in line order.
fn submit_all<R: Threads + Wait + Sync, G: Gate>(
    rt: &R,
    alloc: Global,
    shared: &SharedSession,
    gate: &G,
    jobs: &mut [Job],
    lines: Vec<(Submission, u64)>,
) -> Result<Vec<Turn>, StepError>
    requires some { 0 < length jobs.old }
    requires new { Each IsNew jobs.old }
    requires of { Each (IsOfTable shared.now.table.shared.table_id) jobs.old }
    requires allowed { Each (AreAllowed lines.items) (callers_of jobs.old) }
    ensures ok { IfOk result (λ turns.
        HaveRun (callers_of jobs.old) (callers_of jobs.new) lines.items turns.items
        ) }
    ensures err { IfErr result (λ error.
        HaveStopped error (callers_of jobs.old) (callers_of jobs.new) lines.items
        ) }
{
    let total = lines.len();
    let Ok(()) = deal(jobs, lines) else {
        return Err(StepError::NoMemory);
    };
    run_all(rt, alloc, shared, gate, jobs);
    if let Some(error) = first_error(jobs) {
        return Err(error);
    }
    match gather(alloc, jobs, total) {
        Ok(turns) => Ok(turns),
        Err(_) => Err(StepError::NoMemory),
    }
}

/// Submits line i, with its word, by the caller at the place i modulo their number, each caller on a thread of its own.
/// A caller that has a line enters the gate with its place, once, before its first submission. `numbers` gains the
/// number of each submission, in line order, and `out` the actions of their turns, in turn order.
///
/// `Spent` comes only where a turn of this call was answered so, and `BadEvent` never. After `Spent` or `NoMemory` all
/// callers are there, `numbers` and `out` are as they were, and some first lines of each caller may stand in the
/// history.
pub fn submit_lines<R: Threads + Wait + Sync, G: Gate>(
    rt: &R,
    alloc: Global,
    shared: &SharedSession,
    callers: &mut Vec<Caller>,
    lines: Vec<(Submission, u64)>,
    gate: &G,
    numbers: &mut Vec<u32>,
    out: &mut Vec<Action>,
) -> Result<(), StepError>
    requires some { 0 < vec_len callers.old }
    requires of { Each (λ caller. caller.table ≡ shared.now.table.shared.table_id)
        callers.old.items }
    requires allowed { Each (AreAllowed lines.items) callers.old.items }
    ensures ok { OnOk result (
        HaveSubmitted callers.old.items callers.new.items lines.items
        numbers.old.items numbers.new.items out.old.items out.new.items
        ) }
    ensures err { IfErr result (λ error.
        HaveStopped error callers.old.items callers.new.items lines.items
        ) }
    ensures unchanged { OnErr result (
        (numbers.new.items ≡ numbers.old.items) × (out.new.items ≡ out.old.items)
        ) }
{
    let Ok(seated) = seat(alloc, callers) else {
        return Err(StepError::NoMemory);
    };
    let mut jobs = seated;
    let answer = submit_all(rt, alloc, shared, gate, jobs.as_mut_slice(), lines);
    unseat(jobs, callers);
    match answer {
        Ok(turns) => match tell(alloc, turns, numbers, out) {
            Ok(()) => Ok(()),
            Err(_) => Err(StepError::NoMemory),
        },
        Err(error) => Err(error),
    }
}
