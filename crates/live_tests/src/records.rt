use crate::given::strings;
use containers::Bytes;
use driver_model::{Action, Event, EventKind};
use live_lines::flight_of;
use outside::{LinkGot, LinkPut};
use run_record::{RecordError, record};
use script_text::{Script, read_script};
use session_tests::given::{open, step};
use shared_session::Session;
use std::alloc::{AllocError, Global};
use std::sync::Wait;
use std::thread::Threads;
use world_tests::given::{Answers, SILENT, source, world};

/// A history as a script: words of draws, a list of commands, bytes of every kind and an end.
const HISTORY: &[u8] =
    b"@7 config single url=redis://h:6379 connect=none response=5 buffer=9 lib=off
connected 0
@18446744073709551615 submit cmd GET a
submit packed 1 2 GET a ; %3B ; %- %25%20%FF
submit multi
cancel 1
wrote 0 20
bytes 0 +x%0D%0A
fired 0
timeout none
timeout 250
read-fault 0 reset
shutdown
end
";

/// The history of a session whose credentials come of sources.
const CREDENTIALS: &[u8] = b"config single url=redis://h:6379 connect=none creds=on lib=off
connected 0
submit cmd GET a
creds 0 u p%20%FF
creds-err 0 none%20now
creds-end 0
bytes 0 +OK%0D%0A
creds 1 u q
end
";

/// The history of a session to which nothing has happened.
const OPENING: &[u8] = b"config single url=redis://h connect=none\nend\n";

/// How many bytes `bytes 0` and a piece of them may be, of which each is written as three: a line has at most 1,048,576.
const MOST: usize = 349_522;

fn step_each(
    alloc: Global,
    session: &mut Session,
    events: &[Event],
    actions: &mut Vec<Action>,
) -> Result<(), AllocError> {
    for event in events {
        step(alloc, session, event.clone(alloc)?, actions)?;
    }
    Ok(())
}

fn step_all(alloc: Global, session: &mut Session, events: &[Event]) -> Result<(), AllocError> {
    let mut actions = Vec::new(alloc);
    let done = step_each(alloc, session, events, &mut actions);
    drop(actions);
    done
}

fn read(alloc: Global, text: &[u8]) -> Result<Script, AllocError> {
    match read_script(alloc, text) {
        Ok(script) => Ok(script),
        Err(_) => Err(AllocError),
    }
}

/// The session that a script leads to.
fn replayed(alloc: Global, text: &[u8]) -> Result<Session, AllocError> {
    let Script {
        config,
        word,
        events,
    } = read(alloc, text)?;
    let mut actions = Vec::new(alloc);
    let made = open(alloc, config, word, &mut actions);
    drop(actions);
    let mut session = match made {
        Ok(session) => session,
        Err(error) => {
            drop(events);
            return Err(error);
        }
    };
    let done = step_all(alloc, &mut session, events.as_slice());
    drop(events);
    match done {
        Ok(()) => Ok(session),
        Err(error) => {
            drop(session);
            Err(error)
        }
    }
}

/// Whether the record of a session is this text.
fn has_record(alloc: Global, session: &Session, wanted: &[u8]) -> bool {
    match record(alloc, session) {
        Ok(text) => text.as_slice() == wanted,
        Err(_) => false,
    }
}

/// Whether the record of the session that a script leads to is the script.
fn is_own_record(alloc: Global, text: &[u8]) -> Result<bool, AllocError> {
    let session = replayed(alloc, text)?;
    let has_record = has_record(alloc, &session, text);
    drop(session);
    Ok(has_record)
}

#[test]
fn a_record_is_the_script_of_its_history(rt: HostRuntime) -> Result<(), AllocError> {
    for text in [HISTORY, CREDENTIALS] {
        assert!(rt; is_own_record(rt.alloc(), text)?);
    }
    Ok(())
}

const WORDS: [&str; 5] = [
    "single",
    "url=redis://h:6379",
    "connect=none",
    "response=none",
    "lib=off",
];

/// A world that connects, takes what it is offered, and answers +x.
const ANSWERS: Answers = Answers {
    reads: &[LinkGot::NotYet, LinkGot::Read(10)],
    incoming: b"+x\r\n",
    writes: &[LinkPut::Took(1000)],
    ..SILENT
};

/// What comes there of one request, as a script that can be replayed.
const RECORD: &[u8] = b"config single url=redis://h:6379 connect=none response=none lib=off
submit cmd GET a
connected 0
wrote 0 20
bytes 0 +x%0D%0A
shutdown
end
";

/// Whether a live run of one request has that record.
fn is_recorded<R: Threads + Wait + Sync>(rt: &R, alloc: Global) -> Result<bool, AllocError> {
    let words = strings(alloc, &WORDS)?;
    let mut source = source(alloc, b"submit cmd GET a\nend\n")?;
    let mut world = world(alloc, &ANSWERS)?;
    match flight_of(rt, alloc, words.as_slice(), &mut source, &mut world) {
        Ok(flight) => {
            let has_record = has_record(alloc, &flight.session, RECORD);
            drop(flight);
            Ok(has_record)
        }
        Err(_) => Ok(false),
    }
}

#[test]
fn a_run_is_recorded_as_a_script(rt: HostRuntime) -> Result<(), AllocError> {
    assert!(rt; is_recorded(&rt, rt.alloc())?);
    Ok(())
}

/// A piece of so many bytes.
fn piece(alloc: Global, length: usize) -> Result<Bytes, AllocError> {
    let mut piece = Bytes::new(alloc);
    for _ in 0..length {
        piece.push(0)?;
    }
    Ok(piece)
}

/// A piece of so many bytes comes.
fn hear(alloc: Global, session: &mut Session, length: usize) -> Result<(), AllocError> {
    let piece = piece(alloc, length)?;
    let kind = EventKind::Bytes { link: 0, piece };
    let mut actions = Vec::new(alloc);
    step(alloc, session, Event { word: 0, kind }, &mut actions)
}

/// What is refused of the record of a session, if anything is.
fn refused(alloc: Global, session: &Session) -> Option<RecordError> {
    match record(alloc, session) {
        Ok(_) => None,
        Err(error) => Some(error),
    }
}

/// What is refused of the record of a session that got so many bytes in one piece, if anything is.
fn refusal(alloc: Global, length: usize) -> Result<Option<RecordError>, AllocError> {
    let mut session = replayed(alloc, OPENING)?;
    let heard = hear(alloc, &mut session, length);
    let refused = refused(alloc, &session);
    drop(session);
    heard?;
    Ok(refused)
}

#[test]
fn a_line_beyond_the_limit_has_no_record(rt: HostRuntime) -> Result<(), AllocError> {
    for (length, wanted) in [(MOST, None), (MOST + 1, Some(RecordError::NoScript))] {
        assert!(rt; refusal(rt.alloc(), length)? == wanted);
    }
    Ok(())
}
