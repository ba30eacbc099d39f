ghost use Rattle.std.specs.Prelude.{◌≡◌, IfOk};
ghost use Rattle.session_callers.specs.Rule.{Each};

use crate::given::start;
use driver_model::{Action, Config, ConnectionWords, Outcome};
use resp_value::Value;
use session_callers::{Caller, Claim, JoinError, Keeper, SharedSession};
use session_tests::given::{Told, event, get, single};
use shared_session::{MakeError, Session};
use std::alloc::{AllocError, Global};
use std::sync::Wait;
use std::test::*;

/// A session of two callers.
fn pair<R: Wait>(rt: &R, alloc: Global) -> Result<(SharedSession, Caller, Caller), AllocError>
    ensures first { IfOk result (λ made. made.1.table ≡ made.0.table.shared.table_id) }
    ensures second { IfOk result (λ made. made.2.table ≡ made.0.table.shared.table_id) }
{
    let mut out = Vec::new(alloc);
    let (shared, mut a) = start(alloc, &mut out)?;
    let Ok(b) = shared.join(rt, &mut a) else {
        return Err(AllocError);
    };
    Ok((shared, a, b))
}

/// How many actions the turn of an event has.
fn tell<R: Wait>(
    rt: &R,
    alloc: Global,
    shared: &SharedSession,
    caller: &mut Caller,
    told: Told,
) -> Result<usize, AllocError>
    requires { caller.old.table ≡ shared.now.table.shared.table_id }
    ensures { caller.new.table ≡ caller.old.table }
{
    match shared.event_as(rt, alloc, caller, event(alloc, told)?) {
        Ok(actions) => Ok(actions.len()),
        Err(_) => Err(AllocError),
    }
}

/// The number of a request that a caller hands in.
fn submit<R: Wait>(
    rt: &R,
    alloc: Global,
    shared: &SharedSession,
    caller: &mut Caller,
    key: &str,
) -> Result<u32, AllocError>
    requires { caller.old.table ≡ shared.now.table.shared.table_id }
    ensures { caller.new.table ≡ caller.old.table }
{
    let mut out = Vec::new(alloc);
    let what = get(alloc, key)?;
    match shared.submit_as(rt, alloc, caller, what, 0, &mut out) {
        Ok(number) => Ok(number),
        Err(_) => Err(AllocError),
    }
}

fn word_of(outcome: &Option<Outcome>) -> &'static str {
    match outcome {
        Some(Outcome::One(Value::SimpleString(_))) => "text",
        Some(_) => "other",
        None => "none",
    }
}

/// What a caller sees of the outcome of a submission.
fn seen<R: Wait>(
    rt: &R,
    alloc: Global,
    shared: &SharedSession,
    caller: &mut Caller,
    submission: u32,
) -> Result<&'static str, AllocError>
    requires { caller.old.table ≡ shared.now.table.shared.table_id }
    ensures { caller.new.table ≡ caller.old.table }
{
    let outcome = shared.outcome_as(rt, alloc, caller, submission)?;
    let word = word_of(&outcome);
    drop(outcome);
    Ok(word)
}

/// Whether the requests of two callers have their numbers, and each caller has seen the turns up to its own.
fn hand_in<R: Wait>(
    rt: &R,
    alloc: Global,
    shared: &SharedSession,
    a: &mut Caller,
    b: &mut Caller,
) -> Result<bool, AllocError>
    requires first { a.old.table ≡ shared.now.table.shared.table_id }
    requires second { b.old.table ≡ shared.now.table.shared.table_id }
    ensures first { a.new.table ≡ a.old.table }
    ensures second { b.new.table ≡ b.old.table }
{
    let connected = tell(rt, alloc, shared, b, Told::Connected(0))?;
    let first = submit(rt, alloc, shared, a, "a")?;
    let second = submit(rt, alloc, shared, b, "b")?;
    let is_seen = (shared.front(a), shared.front(b)) == (2, 3);
    Ok(connected == 2 && (first, second) == (0, 1) && is_seen)
}

/// Whether the turns have so many actions in which both requests are written.
fn is_written<R: Wait>(
    rt: &R,
    alloc: Global,
    shared: &SharedSession,
    a: &mut Caller,
) -> Result<bool, AllocError>
    requires { a.old.table ≡ shared.now.table.shared.table_id }
    ensures { a.new.table ≡ a.old.table }
{
    let written = tell(rt, alloc, shared, a, Told::Wrote(20))?;
    let more = tell(rt, alloc, shared, a, Told::Wrote(20))?;
    Ok((written, more) == (2, 1))
}

/// Whether those have in which the first is cancelled, and both replies come.
fn is_told<R: Wait>(
    rt: &R,
    alloc: Global,
    shared: &SharedSession,
    a: &mut Caller,
) -> Result<bool, AllocError>
    requires { a.old.table ≡ shared.now.table.shared.table_id }
    ensures { a.new.table ≡ a.old.table }
{
    let cancelled = tell(rt, alloc, shared, a, Told::Cancel(0))?;
    let replied = tell(rt, alloc, shared, a, Told::Came("+x\r\n+y\r\n"))?;
    Ok((cancelled, replied) == (1, 2))
}

/// Whether the request that wasn't cancelled alone is answered, which the caller sees at the end of the seven turns.
fn is_answered<R: Wait>(
    rt: &R,
    alloc: Global,
    shared: &SharedSession,
    b: &mut Caller,
) -> Result<bool, AllocError>
    requires { b.old.table ≡ shared.now.table.shared.table_id }
    ensures { b.new.table ≡ b.old.table }
{
    let first = seen(rt, alloc, shared, b, 0)?;
    let second = seen(rt, alloc, shared, b, 1)?;
    Ok(first == "none" && second == "text" && shared.front(b) == 7)
}

/// Whether two callers take their turns so.
fn take_turns<R: Wait>(
    rt: &R,
    alloc: Global,
    shared: &SharedSession,
    a: &mut Caller,
    b: &mut Caller,
) -> Result<bool, AllocError>
    requires first { a.old.table ≡ shared.now.table.shared.table_id }
    requires second { b.old.table ≡ shared.now.table.shared.table_id }
    ensures first { a.new.table ≡ a.old.table }
    ensures second { b.new.table ≡ b.old.table }
{
    let handed_in = hand_in(rt, alloc, shared, a, b)?;
    let written = is_written(rt, alloc, shared, a)?;
    let told = is_told(rt, alloc, shared, a)?;
    let answered = is_answered(rt, alloc, shared, b)?;
    Ok(handed_in && written && told && answered)
}

/// These two callers of a session.
fn callers_of(
    alloc: Global,
    shared: &SharedSession,
    a: Caller,
    b: Caller,
) -> Result<Vec<Caller>, AllocError>
    requires first { a.table ≡ shared.now.table.shared.table_id }
    requires second { b.table ≡ shared.now.table.shared.table_id }
    ensures { IfOk result (λ callers.
        Each (λ caller. caller.table ≡ shared.now.table.shared.table_id) callers.items
        ) }
{
    let mut callers = Vec::new(alloc);
    callers.push(a)?;
    callers.push(b)?;
    Ok(callers)
}

/// How many events a session took, or nothing where it has other callers than these.
fn taken(shared: SharedSession, callers: Vec<Caller>) -> Option<u32>
    requires { Each (λ caller. caller.table ≡ shared.table.shared.table_id) callers.items }
{
    match shared.close(callers) {
        Ok(session) => Some(session.events_taken()),
        Err(_) => None,
    }
}

/// How many events a session took that these two callers close.
fn closed(
    alloc: Global,
    shared: SharedSession,
    a: Caller,
    b: Caller,
) -> Result<Option<u32>, AllocError>
    requires first { a.table ≡ shared.table.shared.table_id }
    requires second { b.table ≡ shared.table.shared.table_id }
{
    match callers_of(alloc, &shared, a, b) {
        Ok(callers) => Ok(taken(shared, callers)),
        Err(error) => {
            drop(shared);
            Err(error)
        }
    }
}

#[test]
fn two_callers_take_turns(rt: HostRuntime) -> Result<(), AllocError> {
    let (shared, mut a, mut b) = pair(&rt, rt.alloc())?;
    let are_told = take_turns(&rt, rt.alloc(), &shared, &mut a, &mut b);
    let count = closed(rt.alloc(), shared, a, b)?;
    assert!(rt; are_told? && count == Some(7));
    Ok(())
}

/// How many events a session took, or nothing where it has other callers than this one.
fn taken_by(alloc: Global, shared: SharedSession, caller: Caller) -> Result<Option<u32>, AllocError>
    requires { caller.table ≡ shared.table.shared.table_id }
{
    let mut callers = Vec::new(alloc);
    match callers.push(caller) {
        Ok(()) => Ok(taken(shared, callers)),
        Err(refused) => {
            drop(refused);
            drop(callers);
            drop(shared);
            Err(AllocError)
        }
    }
}

#[test]
fn a_missing_caller_hands_all_back(rt: HostRuntime) -> Result<(), AllocError> {
    let (shared, a, b) = pair(&rt, rt.alloc())?;
    drop(b);
    assert!(rt; taken_by(rt.alloc(), shared, a)? == None);
    Ok(())
}

/// A session that is made with two callers, and these.
fn made_with_two(alloc: Global) -> Result<(SharedSession, Caller, Caller), AllocError>
    ensures first { IfOk result (λ made. made.1.table ≡ made.0.table.shared.table_id) }
    ensures second { IfOk result (λ made. made.2.table ≡ made.0.table.shared.table_id) }
{
    let config = single(alloc, b"redis://h", ConnectionWords::new())?;
    let mut out = Vec::new(alloc);
    let (shared, mut callers) = match SharedSession::with_callers(alloc, config, 0, 2, &mut out) {
        Ok(made) => made,
        Err(_) => return Err(AllocError),
    };
    let Some(b) = callers.pop() else {
        return Err(AllocError);
    };
    let Some(a) = callers.pop() else {
        return Err(AllocError);
    };
    Ok((shared, a, b))
}

/// Whether nobody can join any more.
fn is_full<R: Wait>(rt: &R, shared: &SharedSession, caller: &mut Caller) -> bool
    requires { caller.old.table ≡ shared.now.table.shared.table_id }
    ensures { caller.new.table ≡ caller.old.table }
{
    match shared.join(rt, caller) {
        Ok(other) => {
            drop(other);
            false
        }
        Err(JoinError::Spent) => true,
    }
}

#[test]
fn no_more_callers_join_than_may_be(rt: HostRuntime) -> Result<(), AllocError> {
    let (shared, mut a, b) = made_with_two(rt.alloc())?;
    let is_refused = is_full(&rt, &shared, &mut a);
    let count = closed(rt.alloc(), shared, a, b)?;
    assert!(rt; is_refused && count == Some(0));
    Ok(())
}

/// Whether a number of the dial was claimed, and that number, or the one that the word held.
fn number_of(claim: Claim) -> (bool, u64) {
    match claim {
        Claim::Claimed(dial) => (true, dial.spend()),
        Claim::Newer(number) => (false, number),
    }
}

#[test]
fn the_dial_is_claimed_once(rt: HostRuntime) -> Result<(), AllocError> {
    let (shared, mut a, mut b) = pair(&rt, rt.alloc())?;
    let first = number_of(shared.claim_dial(&mut a, 0));
    let second = number_of(shared.claim_dial(&mut b, 0));
    drop(a);
    drop(b);
    drop(shared);
    assert!(rt; first == (true, 1) && second == (false, 1));
    Ok(())
}

/// Whether the first caller hands a request in, and the second claims a dial that the first doesn't know.
fn claims<R: Wait>(
    rt: &R,
    alloc: Global,
    shared: &SharedSession,
    a: &mut Caller,
    b: &mut Caller,
) -> Result<bool, AllocError>
    requires first { a.old.table ≡ shared.now.table.shared.table_id }
    requires second { b.old.table ≡ shared.now.table.shared.table_id }
    ensures first { a.new.table ≡ a.old.table }
    ensures second { b.new.table ≡ b.old.table }
{
    let number = submit(rt, alloc, shared, a, "a")?;
    let claimed = number_of(shared.claim_dial(b, 0));
    Ok(number == 0 && claimed == (true, 1) && (a.generation(), b.generation()) == (0, 1))
}

/// A session that is no longer shared, and what is left of its callers.
fn kept(shared: SharedSession, callers: Vec<Caller>) -> Result<(Session, Keeper), AllocError>
    requires { Each (λ caller. caller.table ≡ shared.table.shared.table_id) callers.items }
{
    match shared.keep(callers) {
        Ok(kept) => Ok(kept),
        Err(_) => Err(AllocError),
    }
}

/// Whether what is left of the callers claims the dial after the number that was claimed.
fn goes_on(keeper: &mut Keeper) -> bool {
    if keeper.generation() != 1 || number_of(keeper.claim_dial(0)) != (false, 1) {
        return false;
    }
    number_of(keeper.claim_dial(1)) == (true, 2)
}

/// How many events a session took, where what is left of its callers claims the dial so.
fn left(shared: SharedSession, callers: Vec<Caller>) -> Result<Option<u32>, AllocError>
    requires { Each (λ caller. caller.table ≡ shared.table.shared.table_id) callers.items }
{
    let (session, mut keeper) = kept(shared, callers)?;
    let count = session.events_taken();
    drop(session);
    let is_left = goes_on(&mut keeper);
    drop(keeper);
    if is_left { Ok(Some(count)) } else { Ok(None) }
}

/// The same, of these two callers.
fn left_of(
    alloc: Global,
    shared: SharedSession,
    a: Caller,
    b: Caller,
) -> Result<Option<u32>, AllocError>
    requires first { a.table ≡ shared.table.shared.table_id }
    requires second { b.table ≡ shared.table.shared.table_id }
{
    match callers_of(alloc, &shared, a, b) {
        Ok(callers) => left(shared, callers),
        Err(error) => {
            drop(shared);
            Err(error)
        }
    }
}

/// The same, of two callers of which one has claimed the first dial.
fn left_of_claimed<R: Wait>(rt: &R, alloc: Global) -> Result<Option<u32>, AllocError> {
    let (shared, mut a, mut b) = pair(rt, alloc)?;
    let is_claimed = claims(rt, alloc, &shared, &mut a, &mut b);
    let count = left_of(alloc, shared, a, b);
    if is_claimed? { count } else { Ok(None) }
}

#[test]
fn what_is_left_of_callers_claims_what_nobody_has(rt: HostRuntime) -> Result<(), AllocError> {
    let count = left_of_claimed(&rt, rt.alloc())?;
    assert_eq!(rt; count, Some(1));
    Ok(())
}

/// What is refused of a configuration.
fn refusal(alloc: Global, config: Config, out: &mut Vec<Action>) -> &'static str {
    match SharedSession::new(alloc, config, 0, out) {
        Ok(_) => "nothing",
        Err(MakeError::Config { name }) => name.name(),
        Err(MakeError::NoMemory) => "no memory",
    }
}

/// What is refused of a session whose queue holds nothing, and how many actions it shows.
fn refusal_of_nothing(alloc: Global) -> Result<(&'static str, usize), AllocError> {
    let nothing = ConnectionWords {
        buffer: Some(0),
        ..ConnectionWords::new()
    };
    let config = single(alloc, b"redis://h", nothing)?;
    let mut out = Vec::new(alloc);
    let name = refusal(alloc, config, &mut out);
    let count = out.len();
    drop(out);
    Ok((name, count))
}

#[test]
fn a_queue_that_holds_nothing_is_refused(rt: HostRuntime) -> Result<(), AllocError> {
    assert!(rt; refusal_of_nothing(rt.alloc())? == ("buffer", 0));
    Ok(())
}
