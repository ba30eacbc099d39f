//! Callers get their jobs, and come back from them.
ghost use Rattle.std.specs.Prelude.{◌≡◌, ◌≤◌, [], IfOk, OnOk, OnErr, vec_len, vec_capacity};
ghost use Rattle.session_callers.specs.Rule.{Each};
ghost use Rattle.caller_threads.specs.Jobs.{callers_of, IsNew};

use crate::job::Job;
use containers::Queue;
use session_callers::Caller;
use std::alloc::{AllocError, Global};
use std::mem;

/// A job for each caller, in their order, with no lines yet. Room for the callers stays. After an error they are where
/// they were.
pub fn seat(alloc: Global, callers: &mut Vec<Caller>) -> Result<Vec<Job>, AllocError>
    ensures callers { IfOk result (λ jobs. callers_of jobs.items ≡ callers.old.items) }
    ensures new { IfOk result (λ jobs. Each IsNew jobs.items) }
    ensures none { OnOk result (callers.new.items ≡ []) }
    ensures room { OnOk result (vec_len callers.old ≤ vec_capacity callers.new) }
    ensures err { OnErr result (callers.new.items ≡ callers.old.items) }
{
    let count = callers.len();
    let mut jobs = Vec::with_capacity(alloc, count)?;
    let spare = Vec::with_capacity(alloc, count)?;
    let mut rest = Queue::from_vec(mem::replace(callers, spare));
    let mut place: u32 = 0;
    while let Some(caller) = rest.pop_front() {
        jobs.push_reserved(Job {
            caller,
            place,
            lines: Queue::new(alloc),
            turns: Queue::new(alloc),
            error: None,
        });
        place = place.wrapping_add(1);
    }
    Ok(jobs)
}

/// The callers come back from their jobs, in their order.
pub fn unseat(jobs: Vec<Job>, callers: &mut Vec<Caller>)
    requires none { callers.old.items ≡ [] }
    requires room { vec_len jobs ≤ vec_capacity callers.old }
    ensures { callers.new.items ≡ callers_of jobs.items }
{
    let mut rest = Queue::from_vec(jobs);
    while let Some(job) = rest.pop_front() {
        let Job {
            caller,
            place: _,
            lines,
            turns,
            error,
        } = job;
        drop(lines);
        drop(turns);
        drop(error);
        callers.push_reserved(caller);
    }
}
