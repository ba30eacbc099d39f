use crate::messages::{connect, dialing, shows};
use connection_tests::servers::must;
use containers::Bytes;
use driver_model::{LinkNews, Outcome};
use push_links::{Pending, PubSub, ping_answer};
use resp_convert::{ConvertError, FromRedisValue};
use resp_value::Value;
use std::alloc::{AllocError, Global};
use std::process::Abort;

const PING: &[u8] = b"*1\r\n$4\r\nPING\r\n";

const PING_X: &[u8] = b"*2\r\n$4\r\nPING\r\n$1\r\nx\r\n";

/// What a request was answered with, converted, where it has one value.
fn answer<T: FromRedisValue>(
    alloc: Global,
    pubsub: &PubSub,
    request: &Pending,
) -> Result<T, ConvertError> {
    match pubsub.poll(request) {
        Some(outcome) => converted(alloc, outcome),
        None => Err(ConvertError::NoMemory),
    }
}

fn converted<T: FromRedisValue>(alloc: Global, outcome: &Outcome) -> Result<T, ConvertError> {
    match outcome {
        Outcome::One(_) => ping_answer(alloc, outcome),
        _ => Err(ConvertError::NoMemory),
    }
}

/// Whether this is the text that is wanted.
fn is_text(answer: &Result<Bytes, ConvertError>, wanted: &[u8]) -> bool {
    match answer {
        Ok(text) => text.as_slice() == wanted,
        Err(_) => false,
    }
}

/// Whether a value isn't of the type, and is given back.
fn is_given_back(answer: &Result<i64, ConvertError>, wanted: &[u8]) -> bool {
    match answer {
        Err(
            ConvertError::Convert {
                value: Value::SimpleString(text),
            },
        ) => text.as_slice() == wanted,
        _ => false,
    }
}

/// Whether a request was answered with this text.
fn is_answered(alloc: Global, pubsub: &PubSub, request: &Pending, wanted: &[u8]) -> bool {
    let text = answer(alloc, pubsub, request);
    let so = is_text(&text, wanted);
    drop(text);
    so
}

/// Whether it was answered with this text, which is no number.
fn is_no_number(alloc: Global, pubsub: &PubSub, request: &Pending, wanted: &[u8]) -> bool {
    let number = answer(alloc, pubsub, request);
    let so = is_given_back(&number, wanted);
    drop(number);
    so
}

/// Whether it was answered with a list of texts.
fn is_list(alloc: Global, pubsub: &PubSub, request: &Pending) -> bool {
    let words: Result<Vec<Bytes>, ConvertError> = answer(alloc, pubsub, request);
    let so = words.is_ok();
    drop(words);
    so
}

/// A ping starts.
fn ask(rt: &impl Abort, alloc: Global, pubsub: &mut PubSub) -> Result<Pending, AllocError> {
    connect(rt, alloc, pubsub)?;
    let request = must(pubsub.ping(alloc))?;
    assert!(rt; shows(alloc, pubsub, LinkNews::Silence, &[b"start", PING])?);
    Ok(request)
}

/// A ping is answered with a simple string.
fn ping(rt: &impl Abort, alloc: Global, pubsub: &mut PubSub) -> Result<(), AllocError> {
    let request = ask(rt, alloc, pubsub)?;
    let piece = b"+PONG\r\n";
    assert!(rt; shows(alloc, pubsub, LinkNews::Came { piece }, &[b"answered"])?);
    assert!(rt; is_answered(alloc, pubsub, &request, b"PONG"));
    assert!(rt; is_no_number(alloc, pubsub, &request, b"PONG"));
    Ok(())
}

#[test]
fn a_ping_is_answered(rt: HostRuntime) -> Result<(), AllocError> {
    let mut pubsub = dialing(rt.alloc())?;
    ping(&rt, rt.alloc(), &mut pubsub)
}

/// A ping with a message starts.
fn ask_message(rt: &impl Abort, alloc: Global, pubsub: &mut PubSub) -> Result<Pending, AllocError> {
    connect(rt, alloc, pubsub)?;
    let request = must(pubsub.ping_message(alloc, b"x"))?;
    assert!(rt; shows(alloc, pubsub, LinkNews::Silence, &[b"start", PING_X])?);
    Ok(request)
}

/// A ping with a message is answered with an array.
fn ping_message(rt: &impl Abort, alloc: Global, pubsub: &mut PubSub) -> Result<(), AllocError> {
    let request = ask_message(rt, alloc, pubsub)?;
    let piece = b"*2\r\n$4\r\npong\r\n$1\r\nx\r\n";
    assert!(rt; shows(alloc, pubsub, LinkNews::Came { piece }, &[b"answered"])?);
    assert!(rt; is_list(alloc, pubsub, &request));
    Ok(())
}

#[test]
fn a_ping_with_a_message_is_answered(rt: HostRuntime) -> Result<(), AllocError> {
    let mut pubsub = dialing(rt.alloc())?;
    ping_message(&rt, rt.alloc(), &mut pubsub)
}
