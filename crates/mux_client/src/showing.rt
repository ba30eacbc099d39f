ghost use Rattle.std.specs.Prelude.{◌≡◌, ◌++◌, IfOk, OnOk};
ghost use Rattle.mux_client.specs.Shown.{answer_in, answers_among, pending, placed, placed_each, shown, shown_each};

use crate::act::{ConnectionAct, ConnectionTimer};
use containers::{Queue, Seq};
use driver_model::Outcome;
use mux_conn::{LinkAct, Pending};
use std::alloc::AllocError;

fn pending(number: u32) -> Pending
    ensures { result ≡ pending number }
{
    Pending { number }
}

/// The outcome of a request.
#[derive(Drop)]
pub struct Answer {
    pub request: u32,
    pub outcome: Outcome,
}

/// An outcome in its place, where there is one.
fn keep(outcomes: &mut Seq<Option<Outcome>>, answer: Answer)
    ensures { outcomes.new ≡ placed outcomes.old answer }
{
    let Answer { request, outcome } = answer;
    if (request as usize) < outcomes.len() {
        outcomes.set(request as usize, Some(outcome));
    } else {
        drop(outcome);
    }
}

/// Each of these outcomes is kept. Takes no memory.
pub(crate) fn keep_each(answers: Seq<Answer>, outcomes: &mut Seq<Option<Outcome>>)
    ensures { outcomes.new ≡ placed_each outcomes.old answers }
{
    let mut rest = Queue::from_vec(answers.into_vec());
    while let Some(answer) = rest.pop_front() {
        keep(outcomes, answer);
    }
}

/// A timer of a request is asked for.
fn response_timer(request: u32, ms: u64) -> ConnectionAct
    ensures { result ≡ ConnectionAct.Timer (ConnectionTimer.Response (pending request)) ms }
{
    ConnectionAct::Timer {
        timer: ConnectionTimer::Response {
            request: pending(request),
        },
        ms,
    }
}

/// What an act of the machine shows. Where it is an outcome, that is let go.
fn show(act: LinkAct) -> ConnectionAct
    ensures { result ≡ shown act }
{
    match act {
        LinkAct::Created { error } => ConnectionAct::Created { error },
        LinkAct::Round { request } => ConnectionAct::Round {
            request: pending(request),
        },
        LinkAct::Took { request, count } => ConnectionAct::Took {
            request: pending(request),
            count,
        },
        LinkAct::Timer { request, ms } => response_timer(request, ms),
        LinkAct::RenewalTimer { number, ms } => ConnectionAct::Timer {
            timer: ConnectionTimer::Renewal { number },
            ms,
        },
        LinkAct::RepeatTimer { ms } => ConnectionAct::Timer {
            timer: ConnectionTimer::Repeat,
            ms,
        },
        LinkAct::NeedCreds => ConnectionAct::NeedCreds,
        LinkAct::NeedRenewals => ConnectionAct::NeedCreds,
        LinkAct::Push { info } => ConnectionAct::Push { info },
        LinkAct::Message { msg } => ConnectionAct::Message { msg },
        LinkAct::Monitor { value } => ConnectionAct::Monitor { value },
        LinkAct::Close => ConnectionAct::Close,
        LinkAct::Write { bytes } => ConnectionAct::Write { bytes },
        LinkAct::Wait { request, wait } => ConnectionAct::Wait {
            request: pending(request),
            wait,
        },
        LinkAct::Start {
            message,
            request,
            need,
            len,
        } => ConnectionAct::Start {
            message,
            request: pending(request),
            need,
            len,
        },
        LinkAct::SetUp { message, need, len } => ConnectionAct::SetUp { message, need, len },
        LinkAct::Watch { message, need, len } => ConnectionAct::Watch { message, need, len },
        LinkAct::Renewed { message, need, len } => ConnectionAct::Renewed { message, need, len },
        LinkAct::Repeated { message, need, len } => ConnectionAct::Repeated { message, need, len },
        LinkAct::Outcome { request, outcome } => {
            drop(outcome);
            ConnectionAct::Answered {
                request: pending(request),
            }
        }
    }
}

/// What an act of the machine shows; where it is an outcome, `answers` gains that.
fn take(act: LinkAct, answers: &mut Seq<Answer>) -> Result<ConnectionAct, AllocError>
    ensures act { IfOk result (λ a. a ≡ shown act) }
    ensures answers { OnOk result (answers.new ≡ answers.old ++ answer_in act) }
{
    match act {
        LinkAct::Outcome { request, outcome } => {
            answers.push(Answer { request, outcome })?;
            Ok(ConnectionAct::Answered {
                request: pending(request),
            })
        }
        other => Ok(show(other)),
    }
}

/// What the acts of a turn show, and the outcomes among them.
pub(crate) fn show_each(
    acts: Vec<LinkAct>,
    answers: &mut Seq<Answer>,
    out: &mut Seq<ConnectionAct>,
) -> Result<(), AllocError>
    ensures acts { OnOk result (out.new ≡ out.old ++ shown_each acts.items) }
    ensures answers { OnOk result (answers.new ≡ answers.old ++ answers_among acts.items) }
{
    let mut rest = Queue::from_vec(acts);
    while let Some(act) = rest.pop_front() {
        let shown = take(act, answers)?;
        out.push(shown)?;
    }
    Ok(())
}
