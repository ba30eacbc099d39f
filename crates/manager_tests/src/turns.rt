use crate::scripted::{Noted, Reply, Scripted};
use conn_manager::{CallError, Calls, transaction};
use containers::Names;
use redis_error::{ConfigName, RedisError};
use resp_value::Value;
use resp_write::Pipeline;
use std::alloc::{AllocError, Global};

/// What the closure of a case does in each of its turns: it answers nothing, or it answers with a value, it fails, or it makes
/// the call of its pipeline first and then answers so.
#[derive(Clone, Copy, PartialEq, Eq)]
enum Step {
    Nothing,
    Answers(u8),
    Fails,
    CallsAndAnswers(u8),
}

/// How a transaction ends.
#[derive(Clone, Copy, PartialEq, Eq)]
enum End {
    Value(u8),
    Keyless,
    Closed,
    Refused,
    Spent(u32),
    TurnsSpent(u32),
    NoMemory,
    Other,
}

fn end_of(answer: &Result<u8, CallError>) -> End {
    match answer {
        Ok(value) => End::Value(*value),
        Err(CallError::Redis(error)) => end_of_error(error),
        Err(CallError::Spent { events }) => End::Spent(*events),
        Err(CallError::NoMemory) => End::NoMemory,
    }
}

fn end_of_error(error: &RedisError) -> End {
    match error {
        RedisError::Config {
            name: ConfigName::Keys,
        } => End::Keyless,
        RedisError::Closed => End::Closed,
        RedisError::Convert {
            value: Value::ServerError(_),
        } => End::Refused,
        RedisError::TurnsSpent { turns } => End::TurnsSpent(*turns),
        _ => End::Other,
    }
}

/// The closure calls its pipeline.
fn call(alloc: Global, conn: &mut Scripted, pipeline: &mut Pipeline) -> Result<(), CallError> {
    pipeline.cmd(alloc, b"INCR")?.arg(alloc, b"k")?;
    let values = conn.call_pipeline(alloc, pipeline)?;
    drop(values);
    Ok(())
}

/// What the closure answers in its turn of this number, from 0.
fn answer(
    alloc: Global,
    conn: &mut Scripted,
    mut pipeline: Pipeline,
    step: Step,
) -> Result<Option<u8>, CallError> {
    match step {
        Step::Nothing => Ok(None),
        Step::Answers(value) => Ok(Some(value)),
        Step::Fails => Err(CallError::Redis(RedisError::Closed)),
        Step::CallsAndAnswers(value) => {
            call(alloc, conn, &mut pipeline)?;
            Ok(Some(value))
        }
    }
}

/// The replies to the calls, the steps of the closure, the turns, how it ends, and the first words of all calls.
type Row = (
    &'static [Reply],
    &'static [Step],
    u32,
    End,
    &'static [&'static [u8]],
);

/// Whether the calls begin with these words, one a call.
fn are_calls(noted: &[Noted], words: &[&[u8]]) -> bool {
    if noted.len() != words.len() {
        return false;
    }
    noted
        .iter()
        .zip(words)
        .all(|(call, word)| call.first_word() == Some(*word))
}

/// Whether a transaction of this row ends so.
fn holds(alloc: Global, keys: &[&[u8]], row: &Row) -> Result<bool, AllocError> {
    let turns = row.2;
    if turns == 0 {
        return Ok(false);
    }
    let keys = Names::from_slices(alloc, keys)?;
    let mut conn = Scripted::new(alloc, row.0)?;
    let mut steps = row.1;
    let closure = |conn: &mut Scripted, pipeline: Pipeline| match steps.split_first() {
        Some((step, rest)) => {
            steps = rest;
            answer(alloc, conn, pipeline, *step)
        }
        None => Ok(None),
    };
    let result = transaction(alloc, &mut conn, &keys, closure, turns);
    let end = end_of(&result);
    drop(result);
    Ok(end == row.3 && are_calls(conn.noted(), row.4))
}

const ALL_WELL: &[Reply] = &[
    Reply::Okay,
    Reply::Okay,
    Reply::Okay,
    Reply::Okay,
    Reply::Okay,
    Reply::Okay,
];

const ROWS: [Row; 9] = [
    (
        ALL_WELL,
        &[Step::Answers(7)],
        1,
        End::Value(7),
        &[b"WATCH", b"UNWATCH"],
    ),
    (
        ALL_WELL,
        &[Step::CallsAndAnswers(7)],
        5,
        End::Value(7),
        &[b"WATCH", b"INCR", b"UNWATCH"],
    ),
    (
        ALL_WELL,
        &[Step::Nothing, Step::Nothing, Step::Answers(9)],
        3,
        End::Value(9),
        &[
            b"WATCH", b"UNWATCH", b"WATCH", b"UNWATCH", b"WATCH", b"UNWATCH",
        ],
    ),
    (
        ALL_WELL,
        &[Step::Nothing, Step::Nothing, Step::Answers(9)],
        2,
        End::TurnsSpent(2),
        &[b"WATCH", b"UNWATCH", b"WATCH", b"UNWATCH"],
    ),
    (
        &[Reply::Closed],
        &[Step::Answers(7)],
        2,
        End::Closed,
        &[b"WATCH"],
    ),
    (
        &[Reply::Refused],
        &[Step::Answers(7)],
        2,
        End::Refused,
        &[b"WATCH"],
    ),
    (
        &[Reply::Spent],
        &[Step::Answers(7)],
        2,
        End::Spent(7),
        &[b"WATCH"],
    ),
    (
        ALL_WELL,
        &[Step::Fails],
        2,
        End::Closed,
        &[b"WATCH", b"UNWATCH"],
    ),
    // an answer of UNWATCH doesn't matter
    (
        &[Reply::Okay, Reply::Refused],
        &[Step::Answers(7)],
        2,
        End::Value(7),
        &[b"WATCH", b"UNWATCH"],
    ),
];

#[test]
fn transactions_end_so(rt: HostRuntime) -> Result<(), AllocError> {
    for row in &ROWS {
        assert!(rt; row.2 > 0 && holds(rt.alloc(), &[b"k", b"l"], row)?);
    }
    Ok(())
}

#[test]
fn without_keys_nothing_is_called(rt: HostRuntime) -> Result<(), AllocError> {
    let row: Row = (ALL_WELL, &[Step::Answers(7)], 2, End::Keyless, &[]);
    assert!(rt; holds(rt.alloc(), &[], &row)?);
    Ok(())
}
