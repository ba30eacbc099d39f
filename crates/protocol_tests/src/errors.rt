use crate::making::is_shown;
use containers::Bytes;
use redis_error::{ConfigName, ErrorKind, FaultKind, RedisError, RouteNumbers};
use resp_value::{Aborts, RetryMethod, ServerError, ServerErrorKind, Value};
use std::alloc::{AllocError, Global};
use std::fmt::InlineText;

/// An error that owns nothing.
#[derive(Clone, Copy)]
enum Plain {
    Closed,
    Client,
    Resp3Required,
    EmptyCommand,
    Parse,
    NotFound,
    Config,
    CrossSlot,
    TurnsSpent,
    Convert,
    Io(FaultKind),
}

fn plain_error(of: Plain) -> RedisError {
    match of {
        Plain::Closed => RedisError::Closed,
        Plain::Client => RedisError::Client,
        Plain::Resp3Required => RedisError::Resp3Required,
        Plain::EmptyCommand => RedisError::EmptyCommand,
        Plain::Parse => RedisError::Parse,
        Plain::NotFound => RedisError::NotFound,
        Plain::Config => {
            RedisError::Config {
                name: ConfigName::Database,
            }
        }
        Plain::CrossSlot => {
            RedisError::CrossSlot {
                first: 7,
                second: 12182,
            }
        }
        Plain::TurnsSpent => RedisError::TurnsSpent { turns: 2 },
        Plain::Convert => {
            RedisError::Convert {
                value: Value::Boolean(true),
            }
        }
        Plain::Io(fault) => RedisError::Io { fault },
    }
}

fn has_text(error: &RedisError, text: &str) -> bool {
    InlineText::<80>::of(error).as_str() == text
}

/// Whether people are told this of an error.
fn is_plain_told(of: Plain, text: &str) -> bool {
    let error = plain_error(of);
    let told = has_text(&error, text);
    drop(error);
    told
}

/// Errors that own nothing, and what people are told.
const PLAIN: [(Plain, &str); 20] = [
    (Plain::Closed, "the connection is closed"),
    (
        Plain::Client,
        "automatic resubscription needs a push sender",
    ),
    (Plain::Resp3Required, "subscriptions need RESP3"),
    (Plain::EmptyCommand, "the request has no command"),
    (Plain::Parse, "the reply can not be read"),
    (Plain::NotFound, "no link serves the request"),
    (Plain::Config, "the configuration is refused: database"),
    (Plain::CrossSlot, "the pipeline has the slots 7 and 12182"),
    (
        Plain::TurnsSpent,
        "the transaction had no answer in 2 turns",
    ),
    (
        Plain::Convert,
        "the value is of another type: boolean(true)",
    ),
    (Plain::Io(FaultKind::Refused), "the link failed: refused"),
    (Plain::Io(FaultKind::Reset), "the link failed: reset"),
    (Plain::Io(FaultKind::Aborted), "the link failed: aborted"),
    (
        Plain::Io(FaultKind::NotConnected),
        "the link failed: not-connected",
    ),
    (
        Plain::Io(FaultKind::BrokenPipe),
        "the link failed: broken-pipe",
    ),
    (Plain::Io(FaultKind::Eof), "the link failed: eof"),
    (
        Plain::Io(FaultKind::TimedOut),
        "the reply did not come in time",
    ),
    (
        Plain::Io(FaultKind::Interrupted),
        "the link failed: interrupted",
    ),
    (Plain::Io(FaultKind::Denied), "the link failed: denied"),
    (Plain::Io(FaultKind::Other), "the link failed: other"),
];

/// An error that owns a text, a server's error, or a list.
#[derive(Clone, Copy)]
enum Owning {
    Create,
    Authentication,
    Credentials,
    Server,
    Refusals,
    Routes,
}

fn server_error(alloc: Global, code: &[u8], detail: &[u8]) -> Result<ServerError, AllocError> {
    let code = Bytes::from_slice(alloc, code)?;
    let detail = Some(Bytes::from_slice(alloc, detail)?);
    Ok(ServerError { code, detail })
}

/// An error of one command that was refused.
fn aborted(alloc: Global) -> Result<RedisError, AllocError> {
    let mut errors = Aborts::new(alloc);
    let refusal = server_error(alloc, b"ERR", b"no")?;
    errors.push((1, refusal))?;
    Ok(RedisError::Aborted { errors })
}

/// An error of two routes.
fn without_links(alloc: Global) -> Result<RedisError, AllocError> {
    let mut routes = RouteNumbers::new(alloc);
    routes.push(3)?;
    routes.push(0)?;
    Ok(RedisError::RouteWithoutLink { routes })
}

fn owning_error(alloc: Global, of: Owning) -> Result<RedisError, AllocError> {
    let text = Bytes::from_slice(alloc, b"gone\n")?;
    match of {
        Owning::Create => Ok(RedisError::CreateFailed { last: text }),
        Owning::Authentication => Ok(RedisError::AuthFailed { text }),
        Owning::Credentials => Ok(RedisError::Credentials { text }),
        Owning::Server => Ok(RedisError::Server(server_error(alloc, b"MOVED", b"7 h:1")?)),
        Owning::Refusals => aborted(alloc),
        Owning::Routes => without_links(alloc),
    }
}

fn is_copy_told(alloc: Global, error: &RedisError, text: &str) -> Result<bool, AllocError> {
    let copy = error.clone(alloc)?;
    let told = has_text(&copy, text);
    drop(copy);
    Ok(told)
}

/// Whether people are told this of an error, and of a copy of it.
fn is_told(alloc: Global, of: Owning, text: &str) -> Result<bool, AllocError> {
    let error = owning_error(alloc, of)?;
    let told = has_text(&error, text);
    let copy_told = is_copy_told(alloc, &error, text);
    drop(error);
    Ok(told && copy_told?)
}

/// Errors that own something, and what people are told.
const OWNING: [(Owning, &str); 6] = [
    (Owning::Create, "no initial node could be reached: gone\\n"),
    (Owning::Authentication, "authentication failed: gone\\n"),
    (Owning::Credentials, "there are no credentials: gone\\n"),
    (Owning::Server, "MOVED 7 h:1"),
    (
        Owning::Refusals,
        "the transaction is aborted: command 1 was refused: ERR no",
    ),
    (Owning::Routes, "2 routes have no link"),
];

#[test]
fn people_are_told_of_errors(rt: HostRuntime) -> Result<(), AllocError> {
    for (of, text) in &PLAIN {
        assert!(rt; is_plain_told(*of, text), "{text}");
    }
    for (of, text) in &OWNING {
        assert!(rt; is_told(rt.alloc(), *of, text)?, "{text}");
    }
    Ok(())
}

/// What an error of a reply that didn't come in time is about, and how its request is tried again.
fn is_late(error: &RedisError) -> bool {
    error.kind() == ErrorKind::Io
        && error.retry_method() == RetryMethod::RetryImmediately
        && error.is_timeout()
}

/// Whether an error is one of the link, which wasn't dropped and can be used again.
fn keeps_link(error: &RedisError) -> bool {
    error.is_io_error() && !error.is_connection_dropped() && !error.is_unrecoverable_error()
}

/// What they say of a server's error that leads to another node.
fn has_moved(error: &RedisError) -> bool {
    error.kind() == ErrorKind::Server(ServerErrorKind::Moved)
        && error.code() == Some(b"MOVED".as_slice())
        && error.detail() == Some(b"7 h:1".as_slice())
}

/// Whether an error leads to this slot.
fn leads_to(error: &RedisError, slot: u16) -> bool {
    error.redirect_node().is_some_and(|to| to.slot == slot)
}

fn is_moved(alloc: Global) -> Result<bool, AllocError> {
    let error = owning_error(alloc, Owning::Server)?;
    let moved = has_moved(&error) && leads_to(&error, 7);
    drop(error);
    Ok(moved)
}

/// Whether a reply that didn't come in time is so, and is shown to programmers with its name.
fn is_late_shown(alloc: Global) -> Result<bool, AllocError> {
    let late = plain_error(Plain::Io(FaultKind::TimedOut));
    let told = is_late(&late) && keeps_link(&late);
    let shown = is_shown(alloc, &late, "Io(the reply did not come in time)");
    drop(late);
    Ok(told && shown?)
}

/// The slot and the address to which this detail of MOVED leads.
fn leads(alloc: Global, detail: &[u8], wanted: Option<(u16, &[u8])>) -> Result<bool, AllocError> {
    let error = server_error(alloc, b"MOVED", detail)?;
    let found = error.redirect_node().map(|to| (to.slot, to.address));
    Ok(found == wanted)
}

/// Details of MOVED, and where they lead.
const LEADS: [(&[u8], Option<(u16, &[u8])>); 4] = [
    (b"0016383  h:1", Some((16_383, b" h:1"))),
    (b"7x h:1", None),
    (b"+7 h:1", None),
    (b"99999999999999999999 h:1", None),
];

#[test]
fn details_lead_to_nodes(rt: HostRuntime) -> Result<(), AllocError> {
    for (detail, wanted) in &LEADS {
        assert!(rt; leads(rt.alloc(), detail, *wanted)?);
    }
    Ok(())
}

#[test]
fn errors_tell_their_parts(rt: HostRuntime) -> Result<(), AllocError> {
    assert!(rt; is_late_shown(rt.alloc())?);
    assert!(rt; is_moved(rt.alloc())?);
    Ok(())
}
