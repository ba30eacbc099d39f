use containers::Bytes;
use credentials::BasicAuth;
use driver_model::{Event, EventKind, Submission};
use redis_error::FaultKind;
use resp_write::{Cmd, cmd};
use std::alloc::{AllocError, Global};
use std::process::Abort;

/// Whether a submission is a command of two words, and whether its reply is awaited.
fn is_command(submission: &Submission, awaited: bool) -> bool {
    match submission {
        Submission::Cmd { args } => awaited && args.len() == 2,
        Submission::NoReply { args } => !awaited && args.len() == 2,
        _ => false,
    }
}

/// SET a.
fn set(alloc: Global, awaited: bool) -> Result<Cmd, AllocError> {
    let mut command = cmd(alloc, b"SET")?;
    command.arg(alloc, b"a")?;
    command.set_no_response(!awaited);
    Ok(command)
}

/// Whether a command of two words is a submission of that kind.
fn is_submitted(alloc: Global, command: &Cmd, awaited: bool) -> Result<bool, AllocError> {
    let submission = Submission::from_cmd(alloc, command)?;
    let is_one = is_command(&submission, awaited);
    drop(submission);
    Ok(is_one)
}

/// Whether SET a is a submission of that kind.
fn is_made(alloc: Global, awaited: bool) -> Result<bool, AllocError> {
    let command = set(alloc, awaited)?;
    is_submitted(alloc, &command, awaited)
}

/// Which kind of event it is, and of which link, submission, timer or source of credentials.
fn seen(event: &Event) -> (&'static str, u32) {
    match &event.kind {
        EventKind::Submit { submission: _ } => ("submit", 0),
        EventKind::Cancel { submission } => ("cancel", *submission),
        EventKind::Connected { link } => ("connected", *link),
        EventKind::Refused { link, fault: _ } => ("refused", *link),
        EventKind::Wrote { link, count: _ } => ("wrote", *link),
        EventKind::Bytes { link, piece: _ } => ("bytes", *link),
        EventKind::Ended { link } => ("ended", *link),
        EventKind::ReadFault { link, fault: _ } => ("read-fault", *link),
        EventKind::WriteFault { link, fault: _ } => ("write-fault", *link),
        EventKind::Fired { timer } => ("fired", *timer),
        EventKind::Creds { source, auth: _ } => ("creds", *source),
        EventKind::CredsError { source, text: _ } => ("creds-err", *source),
        EventKind::CredsEnd { source } => ("creds-end", *source),
        EventKind::Timeout { ms: Some(_) } => ("timeout", 1),
        EventKind::Timeout { ms: None } => ("timeout none", 0),
        EventKind::DropStream => ("drop-stream", 0),
        EventKind::Shutdown => ("shutdown", 0),
    }
}

/// An event that is to be made.
#[derive(Clone, Copy)]
enum Call {
    Cancel(u32),
    Connected(u32),
    Refused(u32),
    Wrote(u32, u64),
    Bytes(u32),
    Ended(u32),
    ReadFault(u32),
    WriteFault(u32),
    Fired(u32),
    Creds(u32),
    CredsError(u32),
    CredsEnd(u32),
    Timeout(Option<u64>),
    DropStream,
    Shutdown,
}

/// The event that this user name and this password came of a source.
fn creds(
    alloc: Global,
    source: u32,
    username: &[u8],
    password: &[u8],
) -> Result<Event, AllocError> {
    let username = Bytes::from_slice(alloc, username)?;
    let password = Bytes::from_slice(alloc, password)?;
    Ok(Event::creds(source, BasicAuth::new(username, password)))
}

/// The event that a source says why there are none.
fn creds_error(alloc: Global, source: u32, text: &[u8]) -> Result<Event, AllocError> {
    let text = Bytes::from_slice(alloc, text)?;
    Ok(Event::creds_error(source, text))
}

/// The event that a call makes.
fn event(alloc: Global, call: Call) -> Result<Event, AllocError> {
    match call {
        Call::Cancel(submission) => Ok(Event::cancel(submission)),
        Call::Connected(link) => Ok(Event::connected(link)),
        Call::Refused(link) => Ok(Event::refused(link, FaultKind::Refused)),
        Call::Wrote(link, count) => Ok(Event::wrote(link, count)),
        Call::Bytes(link) => Event::bytes(alloc, link, b"+x"),
        Call::Ended(link) => Ok(Event::ended(link)),
        Call::ReadFault(link) => Ok(Event::read_fault(link, FaultKind::Reset)),
        Call::WriteFault(link) => Ok(Event::write_fault(link, FaultKind::Reset)),
        Call::Fired(timer) => Ok(Event::fired(timer)),
        Call::Creds(source) => creds(alloc, source, b"u", b"p"),
        Call::CredsError(source) => creds_error(alloc, source, b"expired"),
        Call::CredsEnd(source) => Ok(Event::creds_end(source)),
        Call::Timeout(ms) => Ok(Event::timeout(ms)),
        Call::DropStream => Ok(Event::drop_stream()),
        Call::Shutdown => Ok(Event::shutdown()),
    }
}

/// Calls, each with the kind of the event and with its link, submission, timer or source of credentials.
const EVENTS: [(Call, &'static str, u32); 16] = [
    (Call::Cancel(4), "cancel", 4),
    (Call::Connected(1), "connected", 1),
    (Call::Refused(6), "refused", 6),
    (Call::Wrote(2, 20), "wrote", 2),
    (Call::Bytes(3), "bytes", 3),
    (Call::Ended(5), "ended", 5),
    (Call::ReadFault(6), "read-fault", 6),
    (Call::WriteFault(7), "write-fault", 7),
    (Call::Fired(8), "fired", 8),
    (Call::Creds(9), "creds", 9),
    (Call::CredsError(10), "creds-err", 10),
    (Call::CredsEnd(11), "creds-end", 11),
    (Call::Timeout(Some(9)), "timeout", 1),
    (Call::Timeout(None), "timeout none", 0),
    (Call::DropStream, "drop-stream", 0),
    (Call::Shutdown, "shutdown", 0),
];

/// Whether a call makes an event of that kind, with that number.
fn makes(alloc: Global, call: Call, kind: &'static str, place: u32) -> Result<bool, AllocError> {
    let event = event(alloc, call)?;
    let made = seen(&event);
    drop(event);
    Ok(made == (kind, place))
}

/// The word of an event that has been given one.
fn word_of_event(word: u64) -> u64 {
    let event = Event::shutdown().with_word(word);
    let given = event.word;
    drop(event);
    given
}

/// Each call makes its event.
fn make_all(
    rt: &impl Abort,
    alloc: Global,
    rows: &[(Call, &'static str, u32)],
) -> Result<(), AllocError> {
    for row in rows {
        assert!(rt; makes(alloc, row.0, row.1, row.2)?);
    }
    Ok(())
}

#[test]
fn events_are_made(rt: HostRuntime) -> Result<(), AllocError> {
    make_all(&rt, rt.alloc(), &EVENTS)
}

#[test]
fn commands_are_submitted(rt: HostRuntime) -> Result<(), AllocError> {
    for awaited in [true, false] {
        assert!(rt; is_made(rt.alloc(), awaited)?);
    }
    Ok(())
}

#[test]
fn an_event_keeps_its_word(rt: HostRuntime) {
    assert!(rt; word_of_event(9) == 9);
}
