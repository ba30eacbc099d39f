ghost use Rattle.std.specs.Prelude.{◌≡◌, ◌≤◌, ◌++◌, OnOk, OnErr, IsErrOf};
ghost use Rattle.outside.specs.Ends.{Gained, GainedPart, Rose};
ghost use Rattle.program_ends.specs.Sides.{side};
ghost use Rattle.program_ends.specs.Streaming.{Sent};
ghost use Rattle.live_lines.specs.Live.{Writes, flight_text};
ghost use Rattle.live_lines.specs.Outcomes.{outcome_line, outcome_lines, outcomes_of};

use crate::flying::Flight;
use containers::{Bytes, Queue};
use outside::Sink;
use program_ends::{PutError, Status, put, write_large};
use shared_session::Session;
use std::alloc::{AllocError, Global};
use trace_text::append_outcome;

/// Appends the line of a submission's outcome, where it has one. An error leaves the text as it was.
fn append_line(
    alloc: Global,
    text: &mut Bytes,
    session: &Session,
    submission: u32,
) -> Result<(), AllocError>
    ensures ok { OnOk result (
        text.new ≡ text.old ++ outcome_line (outcomes_of session.now) submission
        ) }
    ensures err { OnErr result (text.new ≡ text.old) }
{
    let Some(outcome) = session.outcome_of(submission) else {
        return Ok(());
    };
    append_outcome(alloc, text, submission, outcome)
}

/// Appends that line, and writes a text that is large.
fn write_one<K: Sink>(
    alloc: Global,
    text: &mut Bytes,
    session: &Session,
    submission: u32,
    sink: &mut K,
) -> Result<(), PutError>
    ensures ok { OnOk result (
        Sent (K.held sink.old) (K.held sink.new) text.new
        (text.old ++ outcome_line (outcomes_of session.now) submission)
        ) }
    ensures err { OnErr result (
        GainedPart (K.held sink.old) (K.held sink.new)
        (text.old ++ outcome_line (outcomes_of session.now) submission)
        ) }
    ensures later { K.fault_count sink.old ≤ K.fault_count sink.new }
    ensures cause { IsErrOf result PutError.WriteFault
        → Rose (K.fault_count sink.old) (K.fault_count sink.new) }
{
    append_line(alloc, text, session, submission)?;
    if write_large(sink, text) {
        Ok(())
    } else {
        Err(PutError::WriteFault)
    }
}

/// Writes the lines of these submissions' outcomes, in this order.
fn write_each<K: Sink>(
    alloc: Global,
    session: &Session,
    numbers: Vec<u32>,
    sink: &mut K,
) -> Result<(), PutError>
    ensures ok { OnOk result (
        Gained (K.held sink.old) (K.held sink.new)
        (outcome_lines (outcomes_of session.now) numbers.items)
        ) }
    ensures err { OnErr result (
        GainedPart (K.held sink.old) (K.held sink.new)
        (outcome_lines (outcomes_of session.now) numbers.items)
        ) }
    ensures cause { IsErrOf result PutError.WriteFault
        → Rose (K.fault_count sink.old) (K.fault_count sink.new) }
{
    let mut text = Bytes::new(alloc);
    let mut left = Queue::from_vec(numbers);
    while let Some(number) = left.pop_front() {
        match write_one(alloc, &mut text, session, number, sink) {
            Ok(()) => {}
            Err(error) => return Err(error),
        }
    }
    if put(&text, sink) {
        Ok(())
    } else {
        Err(PutError::WriteFault)
    }
}

/// Writes the outcome of each line of a live run, in the order of the lines, and ends with the status of that.
pub fn write_outcomes<K: Sink>(alloc: Global, flight: Flight, sink: &mut K) -> Status
    ensures { Writes Status.Done (flight_text flight) result
        (side (K.held sink.old) (K.fault_count sink.old))
        (side (K.held sink.new) (K.fault_count sink.new)) }
{
    let Flight {
        session,
        numbers,
        keeper: _,
        ending: _,
    } = flight;
    match write_each(alloc, &session, numbers, sink) {
        Ok(()) => Status::Done,
        Err(PutError::NoMemory) => Status::NoMemory,
        Err(PutError::WriteFault) => Status::WriteFault,
    }
}
