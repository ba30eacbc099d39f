use containers::Names;
use driver_model::{Cause, Event, EventKind, Outcome, Shape, Submission};
use resp_value::{Value, Values};
use resp_write::SubscriptionAction;
use std::alloc::{AllocError, Global};

fn get_event(alloc: Global) -> Result<Event, AllocError> {
    let args = Names::from_slices(alloc, &[b"GET", b"a"])?;
    let submission = Submission::Cmd { args };
    Ok(Event {
        word: 3,
        kind: EventKind::Submit { submission },
    })
}

fn is_get(event: &Event) -> bool {
    match &event.kind {
        EventKind::Submit { submission } => match submission {
            Submission::Cmd { args } => args.len() == 2 && event.word == 3,
            _ => false,
        },
        _ => false,
    }
}

/// That event, as the cause of a turn.
fn get_cause(alloc: Global) -> Result<Cause, AllocError> {
    let event = get_event(alloc)?;
    Ok(Cause::Event { event })
}

fn is_get_cause(cause: &Cause) -> bool {
    match cause {
        Cause::Event { event } => is_get(event),
        Cause::Opening { config: _, word: _ } => false,
    }
}

fn is_copied(alloc: Global, cause: &Cause) -> Result<bool, AllocError> {
    let copy = cause.clone(alloc)?;
    let is_same = is_get_cause(&copy);
    drop(copy);
    Ok(is_same)
}

/// Whether a copy of the cause of that turn is the same cause.
fn cause_is_copied(alloc: Global) -> Result<bool, AllocError> {
    let cause = get_cause(alloc)?;
    let is_same = is_copied(alloc, &cause);
    drop(cause);
    is_same
}

/// A reply and an error.
fn values(alloc: Global) -> Result<Values, AllocError> {
    let mut values = Values::new(alloc);
    values.push(Value::Okay)?;
    values.push(Value::Int(7))?;
    Ok(values)
}

/// Whether an outcome has both replies.
fn has_both(outcome: &Outcome) -> bool {
    match outcome {
        Outcome::Many(values) => matches!(values.as_slice(), [Value::Okay, Value::Int(7)]),
        _ => false,
    }
}

/// Whether a copy of an outcome has both replies.
fn copy_has_both(alloc: Global, outcome: &Outcome) -> Result<bool, AllocError> {
    let copy = outcome.clone(alloc)?;
    let both = has_both(&copy);
    drop(copy);
    Ok(both)
}

/// Whether a copy of two replies is these replies.
fn many_are_copied(alloc: Global) -> Result<bool, AllocError> {
    let outcome = Outcome::Many(values(alloc)?);
    let both = copy_has_both(alloc, &outcome);
    drop(outcome);
    both
}

/// The calls of sharded channels are no lines of a script.
const SHARDED: &[u8] = b"*2\r\n$10\r\nSSUBSCRIBE\r\n$1\r\na\r\n";

/// Whether a submission has these bytes and is to be confirmed.
fn is_confirmed(alloc: Global, submission: &Submission, bytes: &[u8]) -> Result<bool, AllocError> {
    let packed = submission.packed(alloc)?;
    let awaits = submission.shape() == Shape::Confirmation && submission.awaits_reply();
    Ok(awaits && packed.as_slice() == bytes)
}

/// Whether a copy of a submission has these bytes and is to be confirmed.
fn copy_is_confirmed(
    alloc: Global,
    submission: &Submission,
    bytes: &[u8],
) -> Result<bool, AllocError> {
    let copy = submission.clone(alloc)?;
    let confirmed = is_confirmed(alloc, &copy, bytes);
    drop(copy);
    confirmed
}

/// Whether a sharded subscription has its bytes.
fn is_sharded_packed(alloc: Global) -> Result<bool, AllocError> {
    let names = Names::from_slices(alloc, &[b"a"])?;
    let action = SubscriptionAction::SSubscribe;
    let submission = Submission::Subscription { action, names };
    let confirmed = copy_is_confirmed(alloc, &submission, SHARDED);
    drop(submission);
    confirmed
}

#[test]
fn requests_are_copied_whole(rt: HostRuntime) -> Result<(), AllocError> {
    assert!(rt; cause_is_copied(rt.alloc())?);
    assert!(rt; many_are_copied(rt.alloc())?);
    assert!(rt; is_sharded_packed(rt.alloc())?);
    Ok(())
}
