//! The turns of all jobs are put in line order.
ghost use Rattle.std.specs.Prelude.{◌≡◌, ◌<◌, length, IfOk, vec_len};
ghost use Rattle.caller_threads.specs.Each.{EachAt};
ghost use Rattle.caller_threads.specs.Lines.{share};
ghost use Rattle.caller_threads.specs.Jobs.{Took, HasTurns, first_error_of};

use crate::job::{Job, Turn};
use shared_session::StepError;
use std::alloc::{AllocError, Global};

/// The next turn of the job at this place, taken out.
fn next_turn(jobs: &mut [Job], at: usize) -> Option<Turn>
    requires { at < length jobs.old }
    ensures { EachAt (Took at result) 0 jobs.old jobs.new }
{
    let job = &mut jobs[at];
    job.turns.pop_front()
}

/// The turns in line order, where each job has one for each of its lines, of which there are so many in all.
pub fn gather(alloc: Global, jobs: &mut [Job], total: usize) -> Result<Vec<Turn>, AllocError>
    requires some { 0 < length jobs.old }
    requires turns { EachAt (HasTurns (length jobs.old) total) 0 jobs.old jobs.old }
    ensures count { IfOk result (λ turns. vec_len turns ≡ total) }
    ensures turns { IfOk result (λ turns.
        EachAt (λ c j k. j.turns ≡ share (length jobs.old) c turns.items) 0 jobs.old jobs.old
        ) }
    ensures callers { EachAt (λ c j k. k.caller ≡ j.caller) 0 jobs.old jobs.new }
{
    let count = jobs.len();
    let mut all = Vec::new(alloc);
    for i in 0..total {
        let Some(turn) = next_turn(jobs, i % count) else {
            unreachable!()
        };
        all.push(turn)?;
    }
    Ok(all)
}

/// An error of its own.
fn copy_of(error: &Option<StepError>) -> Option<StepError>
    ensures { result ≡ error.now }
{
    match error {
        Some(StepError::BadEvent) => Some(StepError::BadEvent),
        Some(StepError::Spent { events }) => Some(StepError::Spent { events: *events }),
        Some(StepError::NoMemory) => Some(StepError::NoMemory),
        None => None,
    }
}

/// The error of the first job that has one.
pub fn first_error(mut jobs: &[Job]) -> Option<StepError>
    ensures { result ≡ first_error_of jobs.entry.now }
{
    while let [job, rest @ ..] = jobs {
        if let Some(error) = copy_of(&job.error) {
            return Some(error);
        }
        jobs = rest;
    }
    None
}
