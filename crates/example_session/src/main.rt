//! Steps a session through events, and prints what it does and what its submission came to.
#![tactic(auto)]

use containers::{Bytes, Names};
use driver_model::{AddressWords, Config, ConnectionWords, Event, Outcome, Submission};
use resp_write::canonical_text;
use shared_session::{MakeError, Session, StepError};
use std::alloc::{AllocError, Global};
use std::io;
use std::io::Write;
use trace_text::show;

/// The number of the first link. Links and submissions are counted from 0.
const LINK: u32 = 0;

/// The number of the first submission.
const SUBMISSION: u32 = 0;

/// A session for one connection, whose opening `opening` gains.
fn open(alloc: Global, opening: &mut Vec<driver_model::Action>) -> Result<Session, MakeError> {
    let url = Bytes::from_slice(alloc, b"redis://localhost:6379")?;
    let config = Config::Single {
        address: AddressWords {
            url,
            lib: Some(false),
        },
        connection: ConnectionWords::new(),
    };
    Session::new(alloc, config, 0, opening)
}

/// A caller hands in GET of a key.
fn get(alloc: Global, key: &[u8]) -> Result<Event, AllocError> {
    let args = Names::from_slices(alloc, &[b"GET", key])?;
    Ok(Event::submit(Submission::Cmd { args }))
}

/// What a caller, the system and the peer tell.
fn events(alloc: Global) -> Result<Vec<Event>, AllocError> {
    let mut events = Vec::new(alloc);
    events.push(Event::connected(LINK))?;
    events.push(get(alloc, b"a")?)?;
    events.push(Event::wrote(LINK, 20))?;
    events.push(Event::bytes(alloc, LINK, b"$1\r\nx\r\n")?)?;
    Ok(events)
}

/// The text of the turn of one event.
fn turn(alloc: Global, session: &mut Session, event: Event) -> Result<Bytes, StepError> {
    let mut actions = Vec::new(alloc);
    session.step(alloc, event, &mut actions)?;
    match show(alloc, actions.as_slice()) {
        Ok(text) => Ok(text),
        Err(_) => Err(StepError::NoMemory),
    }
}

/// Prints the turns of some events, up to the first that is refused.
fn print_turns(
    rt: &impl Print,
    alloc: Global,
    session: &mut Session,
    events: Vec<Event>,
) -> io::Result<()> {
    for event in events {
        match turn(alloc, session, event) {
            Ok(text) => io::writer(rt).write_all(text.as_slice())?,
            Err(StepError::BadEvent) => println!(rt; "a bad event")?,
            Err(StepError::Spent { events }) => println!(rt; "spent after {events} events")?,
            Err(StepError::NoMemory) => println!(rt; "no memory")?,
        }
    }
    Ok(())
}

/// Prints what a submission came to.
fn print_outcome(rt: &impl Print, alloc: Global, outcome: Option<&Outcome>) -> io::Result<()> {
    match outcome {
        Some(Outcome::One(value)) => {
            let text = canonical_text(alloc, value)?;
            println!(rt; "answered {}", text.as_slice().escape_ascii())
        }
        Some(Outcome::Many(values)) => println!(rt; "answered with {} values", values.len()),
        Some(Outcome::Done) => println!(rt; "done"),
        Some(Outcome::Fault(_)) => println!(rt; "refused"),
        None => println!(rt; "open"),
    }
}

fn main(rt: HostRuntime) -> io::Result<()> {
    let alloc = rt.alloc();
    let mut opening = Vec::new(alloc);
    let mut session = match open(alloc, &mut opening) {
        Ok(session) => session,
        Err(MakeError::Config { name }) => return println!(rt; "refused for its {}", name.name()),
        Err(MakeError::NoMemory) => return println!(rt; "no memory"),
    };
    io::writer(&rt).write_all(show(alloc, opening.as_slice())?.as_slice())?;
    print_turns(&rt, alloc, &mut session, events(alloc)?)?;
    print_outcome(&rt, alloc, session.outcome_of(SUBMISSION))
}
