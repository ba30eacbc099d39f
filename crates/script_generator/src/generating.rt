ghost use Rattle.std.specs.Prelude.{◌≡◌, ◌+◌, ◌<◌, ◌≤◌, ◌++◌, ◌∷◌, [], false, OnOk, IfOk, length};
ghost use Rattle.resp_write.specs.Pack.{pack};
ghost use Rattle.single_session.specs.Turn.{actions_of};
ghost use Rattle.single_session.specs.Replay.{state_after, trace_of, is_bad_after, is_spent_after};
ghost use Rattle.shared_session.specs.declared.session.Failure.TheVariants.{Sound};
ghost use Rattle.script_generator.specs.Script.{generated_config, generated_word};
ghost use Rattle.script_generator.specs.Script.{generated_events, command};
ghost use Rattle.script_generator.specs.Fronts.{front, submitted, written, IsAt};
ghost use Rattle.script_generator.specs.Summary.{no_summary, counted_each};
ghost use Rattle.script_generator.specs.Summary.{summary_of, summary_line};

use crate::lines::{command_of, generated_config, is_cancelled, reply};
use crate::summary::Summary;
use containers::Bytes;
use driver_model::{Action, Event};
use shared_session::{MakeError, Session, StepError};
use std::alloc::{AllocError, Global};

/// One line of the script: the session takes its event, and its turn is counted.
fn take(
    alloc: Global,
    session: &mut Session,
    event: Event,
    actions: &mut Vec<Action>,
    counts: &mut Summary,
) -> Result<(), AllocError>
    requires sound { session.old.failure ≡ Sound }
    requires good { is_bad_after session.old.config session.old.word session.old.events event
        ≡ false }
    requires unspent { is_spent_after session.old.config session.old.word session.old.events event
        ≡ false }
    ensures taken { OnOk result (
        session.new ≡ record session.old { events = session.old.events ++ event ∷ [] }
        ) }
    ensures counted { OnOk result (
        counts.new
        ≡ counted_each counts.old
        (actions_of (state_after session.old.config session.old.word session.old.events) event)
        ) }
{
    actions.clear();
    match session.step(alloc, event, actions) {
        Ok(()) => {}
        Err(StepError::BadEvent) => unreachable!(),
        Err(StepError::Spent { events: _ }) => unreachable!(),
        Err(StepError::NoMemory) => return Err(AllocError),
    }
    counts.count_each(actions.as_slice());
    Ok(())
}

/// A session that has made its opening, which is counted.
fn open(
    alloc: Global,
    actions: &mut Vec<Action>,
    counts: &mut Summary,
) -> Result<Session, AllocError>
    requires { counts.old ≡ no_summary }
    ensures { IfOk result (λ session. IsAt [] session counts.new) }
{
    let config = generated_config(alloc)?;
    actions.clear();
    let session = match Session::new(alloc, config, 0, actions) {
        Ok(session) => session,
        Err(MakeError::Config { name: _ }) => unreachable!(),
        Err(MakeError::NoMemory) => return Err(AllocError),
    };
    counts.count_each(actions.as_slice());
    Ok(session)
}

/// The first line of a round. It answers how many bytes its command has.
fn take_submit(
    alloc: Global,
    session: &mut Session,
    round: u32,
    actions: &mut Vec<Action>,
    counts: &mut Summary,
) -> Result<u64, AllocError>
    requires few { round < 200000 }
    requires at { IsAt (front round) session.old counts.old }
    ensures at { OnOk result (IsAt (submitted round) session.new counts.new) }
    ensures len { IfOk result (λ len. len ≡ length (pack (command round))) }
{
    let submission = command_of(alloc, round)?;
    let packed = match submission.packed(alloc) {
        Ok(packed) => packed,
        Err(error) => {
            drop(submission);
            return Err(error);
        }
    };
    let len = packed.len() as u64;
    drop(packed);
    let event = Event::submit(submission);
    take(alloc, session, event, actions, counts)?;
    Ok(len)
}

/// The last lines of a round: the one by which its caller goes, if it does, and the reply.
fn take_reply(
    alloc: Global,
    session: &mut Session,
    round: u32,
    actions: &mut Vec<Action>,
    counts: &mut Summary,
) -> Result<(), AllocError>
    requires few { round < 200000 }
    requires at { IsAt (written round) session.old counts.old }
    ensures at { OnOk result (IsAt (front (round + 1)) session.new counts.new) }
{
    let event = reply(alloc)?;
    if is_cancelled(round) {
        let cancel = Event::cancel(round);
        match take(alloc, session, cancel, actions, counts) {
            Ok(()) => {}
            Err(error) => {
                drop(event);
                return Err(error);
            }
        }
        return take(alloc, session, event, actions, counts);
    }
    take(alloc, session, event, actions, counts)
}

/// One round.
fn take_round(
    alloc: Global,
    session: &mut Session,
    round: u32,
    actions: &mut Vec<Action>,
    counts: &mut Summary,
) -> Result<(), AllocError>
    requires few { round < 200000 }
    requires at { IsAt (front round) session.old counts.old }
    ensures at { OnOk result (IsAt (front (round + 1)) session.new counts.new) }
{
    let len = take_submit(alloc, session, round, actions, counts)?;
    let event = Event::wrote(0, len);
    take(alloc, session, event, actions, counts)?;
    take_reply(alloc, session, round, actions, counts)
}

/// The lines of so many rounds, with the first and the last: the session takes their events, one after another.
fn take_all(
    alloc: Global,
    session: &mut Session,
    rounds: u32,
    actions: &mut Vec<Action>,
    counts: &mut Summary,
) -> Result<(), AllocError>
    requires few { rounds ≤ 200000 }
    requires at { IsAt [] session.old counts.old }
    ensures { OnOk result (
        counts.new
        ≡ summary_of (trace_of generated_config generated_word (generated_events rounds))
        ) }
{
    let connected = Event::connected(0);
    take(alloc, session, connected, actions, counts)?;
    for round in 0..rounds {
        take_round(alloc, session, round, actions, counts)?;
    }
    let shutdown = Event::shutdown();
    take(alloc, session, shutdown, actions, counts)?;
    Ok(())
}

/// Makes the script of so many rounds, at most 200,000: one session takes its events, line by line. It answers the line of
/// what is counted in the script's trace, of which nothing is kept. An error is want of memory.
pub fn generate(alloc: Global, rounds: u32) -> Result<Bytes, AllocError>
    requires { rounds ≤ 200000 }
    ensures { IfOk result (λ line. line ≡ summary_line
        (summary_of (trace_of generated_config generated_word (generated_events rounds)))) }
{
    let mut actions = Vec::new(alloc);
    let mut counts = Summary::new();
    let mut session = open(alloc, &mut actions, &mut counts)?;
    take_all(alloc, &mut session, rounds, &mut actions, &mut counts)?;
    counts.line(alloc)
}
