ghost use Rattle.std.specs.Prelude.{ℕ, ◌≡◌, ◌<◌, ◌≤◌, ◌+◌, ◌^◌, ◌++◌, ◌∷◌, [], length, take, IfOk, OnOk, OnErr};
ghost use Rattle.single_session.specs.Turn.{shown, shown_each, timer_of, timers_of};
ghost use Rattle.single_session.specs.Turn.{source_of, sources_of};
ghost use Rattle.single_session.specs.Done.{done_by, done_each};

use driver_model::{Action, Outcome, Owner, Purpose};
use mux_conn::{LinkAct, Rest};
use std::alloc::{AllocError, Global};

/// A submission that was answered in this turn, and its outcome.
#[derive(Drop)]
pub struct Done {
    pub submission: u32,
    pub outcome: Outcome,
}

/// One try of a submission.
fn try_of(submission: u32) -> Owner
    ensures { result ≡ Owner.Try submission 0 }
{
    Owner::Try {
        submission,
        round: 0,
    }
}

/// A timer for one try of a submission.
fn response_of(submission: u32) -> Purpose
    ensures { result ≡ Purpose.Response (Owner.Try submission 0) }
{
    Purpose::Response {
        owner: try_of(submission),
    }
}

/// A timer is asked for, of that number.
fn timer_asked(timer: u64, ms: u64, purpose: Purpose) -> Action
    requires { timer < 2 ^ 32 }
    ensures { result ≡ Action.Timer timer ms purpose }
{
    Action::Timer {
        timer: timer as u32,
        ms,
        purpose,
    }
}

/// A source of credentials is asked for, of that number.
fn source_asked(source: u64, link: u32) -> Action
    requires { source < 2 ^ 32 }
    ensures { result ≡ Action.NeedCreds source link }
{
    Action::NeedCreds {
        source: source as u32,
        link,
    }
}

/// A message of the link starts.
fn started(link: u32, message: u32, owner: Owner, need: u64, len: u64) -> Action
    ensures { result ≡ Action.Start link message owner need len }
{
    Action::Start {
        link,
        message,
        owner,
        need,
        len,
    }
}

/// What an act of the connection of that link shows, where so many timers, and so many sources of credentials, were asked for
/// before.
fn action_of(link: u32, timer: u64, source: u64, act: LinkAct) -> Action
    requires timer { timer + length (timer_of link act) < 2 ^ 32 }
    requires source { source + length (source_of link act) < 2 ^ 32 }
    ensures { result ≡ shown link timer source act }
{
    match act {
        LinkAct::Created { error } => Action::Created { error },
        LinkAct::Round { request } => Action::Round {
            owner: try_of(request),
            link: Some(link),
        },
        LinkAct::Took { request, count } => Action::Took {
            owner: try_of(request),
            link,
            count,
        },
        LinkAct::Timer { request, ms } => timer_asked(timer, ms, response_of(request)),
        LinkAct::RenewalTimer { number, ms } => {
            timer_asked(timer, ms, Purpose::Renewal { link, number })
        }
        LinkAct::RepeatTimer { ms } => timer_asked(timer, ms, Purpose::Resubscription { link }),
        LinkAct::NeedCreds => source_asked(source, link),
        LinkAct::NeedRenewals => source_asked(source, link),
        LinkAct::Push { info } => Action::Push { link, info },
        LinkAct::Message { msg } => Action::Message { msg },
        LinkAct::Monitor { value } => Action::Monitor { value },
        LinkAct::Close => Action::Close { link },
        LinkAct::Write { bytes } => Action::Write { link, bytes },
        LinkAct::Wait { request, wait } => Action::Wait {
            owner: try_of(request),
            wait,
        },
        LinkAct::Start {
            message,
            request,
            need,
            len,
        } => started(link, message, try_of(request), need, len),
        LinkAct::SetUp { message, need, len } => started(link, message, Owner::Setup, need, len),
        LinkAct::Watch { message, need, len } => started(link, message, Owner::Monitor, need, len),
        LinkAct::Renewed { message, need, len } => started(link, message, Owner::Auth, need, len),
        LinkAct::Repeated { message, need, len } => started(link, message, Owner::Resub, need, len),
        LinkAct::Outcome { request, outcome } => Action::Outcome {
            submission: request,
            outcome,
        },
    }
}

/// How many timers an act asks for.
fn timers_in(act: &LinkAct) -> u64
    ensures { (link : ℕ) → result ≡ length (timer_of link act.now) }
{
    match act {
        LinkAct::Timer { request: _, ms: _ } => 1,
        LinkAct::RenewalTimer { number: _, ms: _ } => 1,
        LinkAct::RepeatTimer { ms: _ } => 1,
        _ => 0,
    }
}

/// How many sources of credentials an act asks for.
fn sources_in(act: &LinkAct) -> u64
    ensures { (link : ℕ) → result ≡ length (source_of link act.now) }
{
    match act {
        LinkAct::NeedCreds => 1,
        LinkAct::NeedRenewals => 1,
        _ => 0,
    }
}

/// The outcome that an act tells is kept.
fn note_done(alloc: Global, act: &LinkAct, done: &mut Vec<Done>) -> Result<(), AllocError>
    ensures { OnOk result (done.new.items ≡ done.old.items ++ done_by act.now) }
{
    match act {
        LinkAct::Outcome { request, outcome } => {
            let outcome = outcome.clone(alloc)?;
            done.push(Done {
                submission: *request,
                outcome,
            })?;
            Ok(())
        }
        _ => Ok(()),
    }
}

/// One more action. After an error `out` is as it was.
pub fn show(out: &mut Vec<Action>, action: Action) -> Result<(), AllocError>
    ensures ok { OnOk result (out.new.items ≡ out.old.items ++ action ∷ []) }
    ensures err { OnErr result (out.new.items ≡ out.old.items) }
{
    out.push(action)?;
    Ok(())
}

/// One act is shown, where so many timers, and so many sources of credentials, were asked for before, and the outcome that it
/// tells is kept.
fn show_one(
    alloc: Global,
    link: u32,
    timer: u64,
    source: u64,
    act: LinkAct,
    done: &mut Vec<Done>,
    out: &mut Vec<Action>,
) -> Result<(), AllocError>
    requires timer { timer + length (timer_of link act) < 2 ^ 32 }
    requires source { source + length (source_of link act) < 2 ^ 32 }
    ensures actions { OnOk result (out.new.items ≡ out.old.items ++ shown link timer source act ∷ []) }
    ensures done { OnOk result (done.new.items ≡ done.old.items ++ done_by act) }
    ensures err { OnErr result (out.new.items ≡ out.old.items) }
{
    match note_done(alloc, &act, done) {
        Ok(()) => show(out, action_of(link, timer, source, act)),
        Err(error) => {
            drop(act);
            Err(error)
        }
    }
}

/// The acts of a turn are shown, where so many timers, and so many sources of credentials, were asked for before it, and their
/// outcomes kept. The answer is the list of the acts, emptied. After an error `out` begins with what it held.
pub fn show_each(
    alloc: Global,
    link: u32,
    timers: u64,
    sources: u64,
    acts: Vec<LinkAct>,
    done: &mut Vec<Done>,
    out: &mut Vec<Action>,
) -> Result<Vec<LinkAct>, AllocError>
    requires timers { timers + length (timers_of link acts.items) < 2 ^ 32 }
    requires sources { sources + length (sources_of link acts.items) < 2 ^ 32 }
    ensures actions { OnOk result (
        out.new.items ≡ out.old.items ++ shown_each link timers sources acts.items
        ) }
    ensures done { OnOk result (done.new.items ≡ done.old.items ++ done_each acts.items) }
    ensures emptied { IfOk result (λ list. list.items ≡ []) }
    ensures err { OnErr result (take (length out.old.items) out.new.items ≡ out.old.items) }
{
    let mut timer = timers;
    let mut source = sources;
    let mut rest = Rest::of(acts);
    while let Some(act) = rest.pop_front() {
        let more_timers = timers_in(&act);
        let more_sources = sources_in(&act);
        show_one(alloc, link, timer, source, act, done, out)?;
        timer += more_timers;
        source += more_sources;
    }
    Ok(rest.into_list())
}
