ghost use Rattle.std.specs.Prelude.{◌≡◌, IfOk, OnOk};

use caller_tests::given::start;
use driver_model::{Outcome, Submission};
use futures::Future;
use futures::task::{Doorbell, Poll, Solo};
use resp_value::Value;
use session_callers::{Caller, PendingSend, SharedSession};
use session_tests::given::{Told, event, get};
use shared_session::StepError;
use std::alloc::{AllocError, Global};
use std::sync::Wait;
use std::test::*;

/// Whether the session takes this event.
pub fn takes<R: Wait>(
    rt: &R,
    alloc: Global,
    shared: &SharedSession,
    caller: &mut Caller,
    told: Told,
) -> Result<bool, AllocError>
    requires { caller.old.table ≡ shared.now.table.shared.table_id }
    ensures { caller.new.table ≡ caller.old.table }
{
    match shared.event_as(rt, alloc, caller, event(alloc, told)?) {
        Ok(_) => Ok(true),
        Err(StepError::BadEvent) => Ok(false),
        Err(_) => Err(AllocError),
    }
}

/// A connected session of two callers.
fn connected<R: Wait>(rt: &R, alloc: Global) -> Result<(SharedSession, Caller, Caller), AllocError>
    ensures first { IfOk result (λ made. made.1.table ≡ made.0.table.shared.table_id) }
    ensures second { IfOk result (λ made. made.2.table ≡ made.0.table.shared.table_id) }
{
    let mut out = Vec::new(alloc);
    let started = start(alloc, &mut out);
    drop(out);
    let (shared, mut a) = started?;
    let Ok(mut b) = shared.join(rt, &mut a) else {
        drop(shared);
        drop(a);
        return Err(AllocError);
    };
    match takes(rt, alloc, &shared, &mut b, Told::Connected(0)) {
        Ok(_) => Ok((shared, a, b)),
        Err(error) => {
            drop(shared);
            drop(a);
            drop(b);
            Err(error)
        }
    }
}

/// The first byte of a reply that is a simple string.
pub fn letter(outcome: &Outcome) -> u8 {
    match outcome {
        Outcome::One(Value::SimpleString(text)) => text.as_slice().first().copied().unwrap_or(0),
        _ => 0,
    }
}

/// The first byte of a reply that has come.
fn first_letter(outcome: Option<Outcome>) -> Option<u8> {
    let first = match &outcome {
        Some(outcome) => Some(letter(outcome)),
        None => None,
    };
    drop(outcome);
    first
}

/// What one poll of a send tells: the reply's first byte, or nothing yet.
fn told<R: Wait>(solo: &Solo, send: &mut PendingSend<'_, R>) -> Result<Option<u8>, AllocError>
    requires { send.old.caller.now.table ≡ send.old.shared.now.table.shared.table_id }
    ensures { send.new.caller.now.table ≡ send.new.shared.now.table.shared.table_id }
{
    let mut turn = solo.begin();
    let polled = send.poll(&mut turn);
    turn.end(&polled);
    let told = match &polled {
        Poll::Ready(Ok(outcome)) => Ok(Some(letter(outcome))),
        Poll::Ready(Err(_)) => Err(AllocError),
        Poll::Pending => Ok(None),
    };
    drop(polled);
    told
}

/// Whether a request is written, and its reply comes.
fn is_served<R: Wait>(
    rt: &R,
    alloc: Global,
    shared: &SharedSession,
    caller: &mut Caller,
) -> Result<bool, AllocError>
    requires { caller.old.table ≡ shared.now.table.shared.table_id }
    ensures { caller.new.table ≡ caller.old.table }
{
    let is_written = takes(rt, alloc, shared, caller, Told::Wrote(20))?;
    let is_replied = takes(rt, alloc, shared, caller, Told::Came("+x\r\n"))?;
    Ok(is_written && is_replied)
}

/// What three polls of a send tell, of which one comes before the reply.
fn told_by_turns<R: Wait>(
    rt: &R,
    alloc: Global,
    shared: &SharedSession,
    sender: &mut Caller,
    server: &mut Caller,
    solo: &Solo,
) -> Result<[Option<u8>; 3], AllocError>
    requires sender { sender.old.table ≡ shared.now.table.shared.table_id }
    requires server { server.old.table ≡ shared.now.table.shared.table_id }
{
    let what = get(alloc, "a")?;
    let mut out = Vec::new(alloc);
    let sent = shared.send_as(rt, alloc, sender, what, 0, &mut out);
    drop(out);
    let Ok(mut send) = sent else {
        return Err(AllocError);
    };
    let first = told(solo, &mut send)?;
    if !is_served(rt, alloc, shared, server)? {
        return Err(AllocError);
    }
    let second = told(solo, &mut send)?;
    let third = told(solo, &mut send)?;
    Ok([first, second, third])
}

/// What three polls of a send tell to its own caller, of which one comes before the reply.
fn polls<R: Wait>(rt: &R, alloc: Global, solo: &Solo) -> Result<[Option<u8>; 3], AllocError> {
    let (shared, mut a, mut b) = connected(rt, alloc)?;
    let polls = told_by_turns(rt, alloc, &shared, &mut a, &mut b, solo);
    drop(a);
    drop(b);
    drop(shared);
    polls
}

#[test]
fn a_send_is_pending_until_its_reply_comes(rt: HostRuntime) -> Result<(), Fail> {
    let solo = Solo::new(&rt, Doorbell::spinning())?;
    let polls = polls(&rt, rt.alloc(), &solo)?;
    assert_eq!(rt; polls, [None, Some(b'x'), Some(b'x')]);
    Ok(())
}

/// The number of a send that is dropped before any poll.
fn dropped<R: Wait>(
    rt: &R,
    alloc: Global,
    shared: &SharedSession,
    caller: &mut Caller,
) -> Result<u32, AllocError>
    requires { caller.old.table ≡ shared.now.table.shared.table_id }
    ensures { OnOk result (caller.new.table ≡ caller.old.table) }
{
    let mut out = Vec::new(alloc);
    let what = get(alloc, "a")?;
    match shared.send_as(rt, alloc, caller, what, 0, &mut out) {
        Ok(send) => Ok(send.number()),
        Err(_) => Err(AllocError),
    }
}

/// The first byte of the reply to a request once it is written and replied to.
fn served_reply<R: Wait>(
    rt: &R,
    alloc: Global,
    shared: &SharedSession,
    caller: &mut Caller,
    number: u32,
) -> Result<Option<u8>, AllocError>
    requires { caller.old.table ≡ shared.now.table.shared.table_id }
{
    if !is_served(rt, alloc, shared, caller)? {
        return Err(AllocError);
    }
    Ok(first_letter(shared.outcome_as(rt, alloc, caller, number)?))
}

/// The first byte of the reply to a send that was dropped, where it may be cancelled before.
fn reply_to_dropped<R: Wait>(
    rt: &R,
    alloc: Global,
    shared: &SharedSession,
    caller: &mut Caller,
    cancels: bool,
) -> Result<Option<u8>, AllocError>
    requires { caller.old.table ≡ shared.now.table.shared.table_id }
{
    let number = dropped(rt, alloc, shared, caller)?;
    if cancels && !takes(rt, alloc, shared, caller, Told::Cancel(number))? {
        return Err(AllocError);
    }
    served_reply(rt, alloc, shared, caller, number)
}

/// Whether the reply to a send that was dropped has this first byte, and how many turns its caller and the other have seen then.
fn goes_on<R: Wait>(
    rt: &R,
    alloc: Global,
    cancels: bool,
    wanted: Option<u8>,
    turns: (u32, u32),
) -> Result<bool, AllocError> {
    let (shared, mut a, b) = connected(rt, alloc)?;
    let reply = reply_to_dropped(rt, alloc, &shared, &mut a, cancels);
    let are_seen = (shared.front(&a), shared.front(&b)) == turns;
    drop(a);
    drop(b);
    drop(shared);
    Ok(reply? == wanted && are_seen)
}

#[test]
fn a_dropped_send_goes_on(rt: HostRuntime) -> Result<(), AllocError> {
    assert!(rt; goes_on(&rt, rt.alloc(), false, Some(b'x'), (4, 1))?);
    Ok(())
}

#[test]
fn a_dropped_send_is_cancelled_by_its_number(rt: HostRuntime) -> Result<(), AllocError> {
    assert!(rt; goes_on(&rt, rt.alloc(), true, None, (5, 1))?);
    Ok(())
}

/// Whether a request that such a session has no form for is refused.
fn is_refused<R: Wait>(rt: &R, alloc: Global, shared: &SharedSession, caller: &mut Caller) -> bool
    requires { caller.old.table ≡ shared.now.table.shared.table_id }
{
    let mut out = Vec::new(alloc);
    let ping = Submission::Ping { message: None };
    let is_refused = match shared.send_as(rt, alloc, caller, ping, 0, &mut out) {
        Ok(_) => false,
        Err(error) => matches!(error, StepError::BadEvent),
    };
    is_refused && out.is_empty()
}

#[test]
fn a_send_without_a_form_is_refused(rt: HostRuntime) -> Result<(), Fail> {
    let (shared, mut a, _b) = connected(&rt, rt.alloc())?;
    assert!(rt; is_refused(&rt, rt.alloc(), &shared, &mut a));
    Ok(())
}

/// The first byte of the reply to a send that was dropped, and for which its caller waits again.
fn reply_to_resumed<R: Wait>(
    rt: &R,
    alloc: Global,
    shared: &SharedSession,
    caller: &mut Caller,
    solo: &Solo,
) -> Result<Option<u8>, AllocError>
    requires { caller.old.table ≡ shared.now.table.shared.table_id }
{
    let number = dropped(rt, alloc, shared, caller)?;
    if !is_served(rt, alloc, shared, caller)? {
        return Err(AllocError);
    }
    let mut send = shared.wait_as(rt, alloc, caller, number);
    told(solo, &mut send)
}

/// The first byte of such a reply in a connected session.
fn resumed<R: Wait>(rt: &R, alloc: Global, solo: &Solo) -> Result<Option<u8>, AllocError> {
    let (shared, mut a, b) = connected(rt, alloc)?;
    let reply = reply_to_resumed(rt, alloc, &shared, &mut a, solo);
    drop(a);
    drop(b);
    drop(shared);
    reply
}

#[test]
fn a_dropped_send_is_waited_for_again(rt: HostRuntime) -> Result<(), Fail> {
    let solo = Solo::new(&rt, Doorbell::spinning())?;
    let reply = resumed(&rt, rt.alloc(), &solo)?;
    assert_eq!(rt; reply, Some(b'x'));
    Ok(())
}
