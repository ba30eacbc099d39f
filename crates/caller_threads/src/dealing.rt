//! Lines are dealt to the jobs.
ghost use Rattle.std.specs.Prelude.{◌<◌, ◌==◌, [], length, OnOk, OnErr};
ghost use Rattle.caller_threads.specs.Each.{EachAt};
ghost use Rattle.caller_threads.specs.Lines.{share, one_if};
ghost use Rattle.caller_threads.specs.Jobs.{Fed, WasFed};

use crate::job::Job;
use containers::Queue;
use driver_model::Submission;
use std::alloc::AllocError;

/// One more line for the job at this place.
fn give(jobs: &mut [Job], at: usize, line: (Submission, u64)) -> Result<(), AllocError>
    requires { at < length jobs.old }
    ensures ok { OnOk result (EachAt (λ c. Fed (one_if (at == c) line)) 0 jobs.old jobs.new) }
    ensures err { OnErr result (EachAt (λ c. Fed []) 0 jobs.old jobs.new) }
{
    let job = &mut jobs[at];
    job.lines.push_back(line)
}

/// Line i goes to job i modulo their number, in line order.
pub fn deal(jobs: &mut [Job], lines: Vec<(Submission, u64)>) -> Result<(), AllocError>
    requires { 0 < length jobs.old }
    ensures ok { OnOk result (
        EachAt (λ c. Fed (share (length jobs.old) c lines.items)) 0 jobs.old jobs.new
        ) }
    ensures err { OnErr result (EachAt (λ c. WasFed) 0 jobs.old jobs.new) }
{
    let count = jobs.len();
    let total = lines.len();
    let mut rest = Queue::from_vec(lines);
    for i in 0..total {
        let Some(line) = rest.pop_front() else {
            unreachable!()
        };
        give(jobs, i % count, line)?;
    }
    Ok(())
}
