use crate::given::{Told, event, open, single, unbounded};
use driver_model::{Action, ConnectionWords, Event, Outcome};
use shared_session::{MakeError, ReplayError, Session, StepError};
use std::alloc::{AllocError, Global};

fn begin(alloc: Global, actions: &mut Vec<Action>) -> Result<Session, AllocError> {
    open(alloc, single(alloc, b"redis://h", unbounded())?, 0, actions)
}

/// Takes one event, and answers whether it was a good one.
fn takes(
    alloc: Global,
    session: &mut Session,
    told: Told,
    actions: &mut Vec<Action>,
) -> Result<bool, AllocError> {
    match session.step(alloc, event(alloc, told)?, actions) {
        Ok(()) => Ok(true),
        Err(StepError::BadEvent) => Ok(false),
        Err(_) => Err(AllocError),
    }
}

/// Events in their order, and whether each is good.
const HISTORY: [(Told, bool); 15] = [
    (Told::Get("a"), true),
    (Told::Connected(0), true),
    (Told::Wrote(20), true),
    (Told::Get("b"), true),
    (Told::Came("+OK\r\n:7"), true),
    (Told::Cancel(1), true),
    (Told::Came("\r\n"), true),
    (Told::Cancel(2), false),
    (Told::Wrote(99), false),
    (Told::Connected(1), false),
    (Told::Fired(0), true),
    (Told::Fired(9), false),
    (Told::Get(""), true),
    (Told::Ended, true),
    (Told::Get("c"), true),
];

/// Whether a session takes the good ones of these events alone.
fn takes_all(
    alloc: Global,
    session: &mut Session,
    actions: &mut Vec<Action>,
) -> Result<bool, AllocError> {
    for row in &HISTORY {
        if takes(alloc, session, row.0, actions)? != row.1 {
            return Ok(false);
        }
    }
    Ok(true)
}

/// The kind of an outcome: 1 of values, 2 of an error, 0 where there is none.
fn kind(session: &Session, submission: u32) -> u8 {
    match session.outcome_of(submission) {
        Some(Outcome::Fault(_)) => 2,
        Some(_) => 1,
        None => 0,
    }
}

/// Those of the four submissions of such a session.
const KINDS: [u8; 4] = [1, 0, 2, 2];

fn have_kinds(session: &Session) -> bool {
    for (submission, wanted) in (0u32..).zip(KINDS) {
        if kind(session, submission) != wanted {
            return false;
        }
    }
    true
}

fn history_is_taken(alloc: Global) -> Result<bool, AllocError> {
    let mut actions = Vec::new(alloc);
    let mut session = begin(alloc, &mut actions)?;
    let are_taken = takes_all(alloc, &mut session, &mut actions);
    drop(actions);
    let so = session.events_taken() == 11 && have_kinds(&session);
    drop(session);
    Ok(are_taken? && so)
}

#[test]
fn a_session_takes_events(rt: HostRuntime) -> Result<(), AllocError> {
    assert!(rt; history_is_taken(rt.alloc())?);
    Ok(())
}

/// A list of events with a bad one, the last but one.
const SPOILED: [Told; 4] = [
    Told::Connected(0),
    Told::Get("a"),
    Told::Cancel(1),
    Told::Shutdown,
];

fn events(alloc: Global, list: &[Told]) -> Result<Vec<Event>, AllocError> {
    let mut events = Vec::new(alloc);
    for told in list {
        events.push(event(alloc, *told)?)?;
    }
    Ok(events)
}

/// Which event of a list is bad, counted from 0.
fn first_bad(alloc: Global, list: &[Told]) -> Result<Option<u32>, AllocError> {
    let config = single(alloc, b"redis://h", ConnectionWords::new())?;
    let events = events(alloc, list)?;
    let mut actions = Vec::new(alloc);
    match Session::replay(alloc, config, 0, events.as_slice(), &mut actions) {
        Ok(()) => Ok(None),
        Err(ReplayError::BadEvent { index }) => Ok(Some(index)),
        Err(_) => Err(AllocError),
    }
}

#[test]
fn a_replay_ends_at_a_bad_event(rt: HostRuntime) -> Result<(), AllocError> {
    assert!(rt; first_bad(rt.alloc(), &SPOILED)? == Some(2));
    assert!(rt; first_bad(rt.alloc(), &SPOILED[..2])? == None);
    Ok(())
}

/// What a session and a replay refuse of a configuration. Neither shows anything then.
fn refusals(alloc: Global, url: &[u8], buffer: u32) -> Result<(&'static str, usize), AllocError> {
    let mut actions = Vec::new(alloc);
    let queue = ConnectionWords {
        buffer: Some(buffer),
        ..ConnectionWords::new()
    };
    let wanted = single(alloc, url, queue)?;
    match Session::new(alloc, wanted, 0, &mut actions) {
        Ok(_) => Ok(("nothing", actions.len())),
        Err(MakeError::Config { name }) => Ok((name.name(), actions.len())),
        Err(MakeError::NoMemory) => Err(AllocError),
    }
}

/// The address of a configuration, the size of its queue, what is refused of it, and how many actions come of it.
const CONFIGURATIONS: [(&[u8], u32, (&str, usize)); 3] = [
    (b"redis://h", 50, ("nothing", 3)),
    (b"redis://h\xFF", 50, ("url", 0)),
    (b"redis://h", 0, ("buffer", 0)),
];

fn is_refused(alloc: Global, row: &(&[u8], u32, (&str, usize))) -> Result<bool, AllocError> {
    let found = refusals(alloc, row.0, row.1)?;
    Ok(found.0 == row.2.0 && found.1 == row.2.1)
}

#[test]
fn configurations_are_refused(rt: HostRuntime) -> Result<(), AllocError> {
    for row in &CONFIGURATIONS {
        assert!(rt; is_refused(rt.alloc(), row)?);
    }
    Ok(())
}
