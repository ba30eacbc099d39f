//! All jobs, each on a thread of its own.
ghost use Rattle.std.specs.Prelude.{All};
ghost use Rattle.caller_threads.specs.Each.{EachAt};
ghost use Rattle.caller_threads.specs.Jobs.{IsReady, HasRun};

use crate::gate::Gate;
use crate::job::Job;
use session_callers::SharedSession;
use std::alloc::Global;
use std::sync::Wait;
use std::thread::{Threads, for_each_mut};

/// Runs the jobs side by side.
pub fn run_all<R: Threads + Wait + Sync, G: Gate>(
    rt: &R,
    alloc: Global,
    shared: &SharedSession,
    gate: &G,
    jobs: &mut [Job],
)
    requires { All (IsReady shared.now.table.shared.table_id) jobs.old }
    ensures { EachAt (λ place. HasRun) 0 jobs.old jobs.new }
{
    if jobs.is_empty() {
        return;
    }
    let threads = jobs.len();
    for_each_mut(
        rt,
        jobs,
        threads,
        &|_, job: &mut Job|
            requires { IsReady shared.now.table.shared.table_id job.old }
            ensures { HasRun job.old job.new }
        { job.run(rt, alloc, shared, gate) },
    );
}
