ghost use Rattle.std.specs.Prelude.{◌≡◌, IfOk};
ghost use Rattle.resp_value.specs.View.{data_of, list_view};
ghost use Rattle.connection_setup.specs.Setup.{choices, first_meaning, opening_of, setup};
ghost use Rattle.connection_setup.specs.Judgement.{judged, judged_error, judged_first, judged_reply, text_of, unless_ready, Tells};

use crate::meaning::Meaning;
use crate::messages::username;
use crate::phrase::counts_arguments;
use connection_info::{ProtocolVersion, RedisConnectionInfo};
use containers::Bytes;
use redis_error::RedisError;
use resp_value::{ServerError, Value, Values};
use std::alloc::{AllocError, Global};

/// What the replies to a setup make of the connection.
#[derive(Drop)]
pub enum SetupResult {
    /// It takes requests.
    Ready,
    /// The server knows no user names: the setup is sent again without one.
    RepeatWithoutUser,
    /// It can't be used.
    Failed(RedisError),
    /// Memory was wanted to tell why it can't be used.
    NoMemory,
}

/// An error as the server wrote it.
fn text_of(alloc: Global, error: &ServerError) -> Result<Bytes, AllocError>
    ensures { IfOk result (λ text. text ≡ text_of error.now) }
{
    let mut text = error.code.clone(alloc)?;
    if let Some(detail) = &error.detail {
        text.push(b' ')?;
        text.extend_from_slice(detail.as_slice())?;
    }
    Ok(text)
}

/// The setup fails since the server refuses the credentials.
fn unauthenticated(alloc: Global, error: &ServerError) -> SetupResult
    ensures { Tells (judged_error Meaning.Password error.now) result }
{
    match text_of(alloc, error) {
        Ok(text) => SetupResult::Failed(RedisError::AuthFailed { text }),
        Err(AllocError) => SetupResult::NoMemory,
    }
}

/// The setup fails with the error of the server.
fn refused(alloc: Global, error: &ServerError) -> SetupResult
    ensures { Tells (judged_error Meaning.Choice error.now) result }
{
    match error.clone(alloc) {
        Ok(error) => SetupResult::Failed(RedisError::Server(error)),
        Err(AllocError) => SetupResult::NoMemory,
    }
}

/// What an error in the reply to a command makes of the setup.
fn judged_error(alloc: Global, meaning: Meaning, error: &ServerError) -> SetupResult
    ensures { Tells (judged_error meaning error.now) result }
{
    match meaning {
        Meaning::User => {
            if counts_arguments(&error.detail) {
                SetupResult::RepeatWithoutUser
            } else {
                unauthenticated(alloc, error)
            }
        }
        Meaning::Password => unauthenticated(alloc, error),
        Meaning::Choice => refused(alloc, error),
        Meaning::Library => SetupResult::Ready,
    }
}

/// What a reply to a command makes of the setup.
fn judged_reply(alloc: Global, meaning: Meaning, reply: &Value) -> SetupResult
    ensures { Tells (judged_reply meaning (data_of reply.now)) result }
{
    match reply {
        Value::ServerError(error) => judged_error(alloc, meaning, error),
        _ => SetupResult::Ready,
    }
}

/// What an error in the first reply is about, where the setup begins with HELLO or AUTH.
fn first_meaning(info: &RedisConnectionInfo, with_user: bool) -> Option<Meaning>
    ensures { result ≡ first_meaning (opening_of info.now with_user) }
{
    if info.password.is_none() {
        return match info.protocol {
            ProtocolVersion::RESP2 => None,
            ProtocolVersion::RESP3 => Some(Meaning::Choice),
        };
    }
    match username(info, with_user) {
        Some(_) => Some(Meaning::User),
        None => Some(Meaning::Password),
    }
}

/// What the replies behind the first make of the setup.
#[tactic(auto, using(crate::proofs::Steps::no_replies, crate::proofs::Steps::unchosen, crate::proofs::Steps::chosen))]
fn judged_choice(alloc: Global, info: &RedisConnectionInfo, replies: &[Value]) -> SetupResult
    ensures { Tells (judged (choices info.now) (list_view replies.now)) result }
{
    let [reply, _others @ ..] = replies else {
        return SetupResult::Ready;
    };
    if info.db == 0 {
        return SetupResult::Ready;
    }
    judged_reply(alloc, Meaning::Choice, reply)
}

/// What the first reply and those behind it make of a setup that begins with HELLO or AUTH.
#[tactic(auto, using(crate::proofs::Steps::well, crate::proofs::Steps::stays))]
fn judged_all(
    alloc: Global,
    meaning: Meaning,
    info: &RedisConnectionInfo,
    first: &Value,
    others: &[Value],
) -> SetupResult
    ensures { Tells
        (unless_ready (judged_reply meaning (data_of first.now))
        (judged (choices info.now) (list_view others.now))) result }
{
    match judged_reply(alloc, meaning, first) {
        SetupResult::Ready => judged_choice(alloc, info, others),
        result => result,
    }
}

/// What replies make of a setup, of which it is known what its first command is about.
#[tactic(auto, using(crate::proofs::Steps::no_replies))]
fn judged_first(
    alloc: Global,
    first: Option<Meaning>,
    info: &RedisConnectionInfo,
    replies: &[Value],
) -> SetupResult
    ensures { Tells (judged_first first (choices info.now) (list_view replies.now)) result }
{
    let Some(meaning) = first else {
        return judged_choice(alloc, info, replies);
    };
    let [reply, others @ ..] = replies else {
        return SetupResult::Ready;
    };
    judged_all(alloc, meaning, info, reply, others)
}

/// What the replies to a setup mean, one for each of its commands in order. The first that isn't well decides: an
/// error to authentication with a user name that is about the number of arguments asks for a setup without one, any
/// other error to authentication fails it with the error's text, and an error to a bare HELLO or to SELECT fails it
/// with that error. Other replies, and those to the library's name and version, are well.
#[tactic(auto, using(crate::proofs::Steps::told_opened))]
pub fn check_setup(
    alloc: Global,
    info: &RedisConnectionInfo,
    with_user: bool,
    replies: &Values,
) -> SetupResult
    ensures { Tells (judged (setup info.now with_user) replies.now) result }
{
    let first = first_meaning(info, with_user);
    judged_first(alloc, first, info, replies.as_slice())
}
