ghost use Rattle.std.specs.Prelude.{◌≡◌, ◌++◌, ◌∷◌, [], map, OnOk, OnErr};
ghost use Rattle.transactions.specs.Calls.Made.{command, together};
ghost use Rattle.manager_tests.specs.Scripted.{value_of, values_of, made_of};

use conn_manager::{CallError, Calls};
use containers::Bytes;
use redis_error::RedisError;
use resp_value::{ServerError, Value, Values};
use resp_write::{Cmd, Pipeline};
use std::alloc::{AllocError, Global};

/// What a call is answered with.
#[derive(Clone, Copy, PartialEq, Eq)]
pub enum Reply {
    Okay,
    /// A server's error as a value; for a pipeline no values.
    Refused,
    Closed,
    Spent,
    NoMemory,
}

/// A call that was made, with what it was answered.
#[derive(Drop)]
pub enum Noted {
    One(Cmd, Reply),
    Several(Pipeline, Reply),
}

impl Noted {
    /// The first word of its first command; none where it has none.
    pub fn first_word(&self) -> Option<&[u8]> {
        let words = match self {
            Noted::One(cmd, _) => cmd.args(),
            Noted::Several(pipeline, _) => pipeline.cmd_iter().next()?.args(),
        };
        Some(words.first()?.as_slice())
    }
}

/// Answers calls by a list, the first by its first item, and notes them. Behind the list's end all are closed.
#[derive(Drop)]
pub struct Scripted {
    replies: Vec<Reply>,
    next: usize,
    noted: Vec<Noted>,
    unlisted: u64,
}

impl Scripted {
    pub fn new(alloc: Global, replies: &[Reply]) -> Result<Scripted, AllocError> {
        let replies = Vec::from_slice(alloc, replies)?;
        Ok(Scripted {
            replies,
            next: 0,
            noted: Vec::new(alloc),
            unlisted: 0,
        })
    }

    /// The calls so far.
    pub fn noted(&self) -> &[Noted] {
        self.noted.as_slice()
    }

    /// What the next call is answered with.
    fn next_reply(&mut self) -> Reply
        ensures noted { self.new.noted ≡ self.old.noted }
        ensures unlisted { self.new.unlisted ≡ self.old.unlisted }
    {
        let reply = self.replies.get(self.next).copied();
        self.next = self.next.saturating_add(1);
        reply.unwrap_or(Reply::Closed)
    }
}

/// The value of a reply.
fn value(alloc: Global, reply: Reply) -> Result<Value, CallError>
    ensures { result ≡ value_of reply }
{
    match reply {
        Reply::Okay => Ok(Value::Okay),
        Reply::Refused => {
            let code = Bytes::new(alloc);
            let detail = None;
            Ok(Value::ServerError(ServerError { code, detail }))
        }
        Reply::Closed => Err(CallError::Redis(RedisError::Closed)),
        Reply::Spent => Err(CallError::Spent { events: 7 }),
        Reply::NoMemory => Err(CallError::NoMemory),
    }
}

/// The values of a reply to a pipeline.
fn values(alloc: Global, reply: Reply) -> Result<Values, CallError>
    ensures { result ≡ values_of reply }
{
    match reply {
        Reply::Okay | Reply::Refused => Ok(Values::new(alloc)),
        Reply::Closed => Err(CallError::Redis(RedisError::Closed)),
        Reply::Spent => Err(CallError::Spent { events: 7 }),
        Reply::NoMemory => Err(CallError::NoMemory),
    }
}

/// Notes the call of one command.
fn note(alloc: Global, noted: &mut Vec<Noted>, cmd: &Cmd, reply: Reply) -> Result<(), AllocError>
    ensures ok { OnOk result (map made_of noted.new.items ≡ map made_of noted.old.items ++ command cmd.now (value_of reply) ∷ []) }
    ensures err { OnErr result (noted.new.items ≡ noted.old.items) }
{
    let cmd = cmd.clone(alloc)?;
    noted.push(Noted::One(cmd, reply))?;
    Ok(())
}

/// Notes the call of several commands.
fn note_all(
    alloc: Global,
    noted: &mut Vec<Noted>,
    pipeline: &Pipeline,
    reply: Reply,
) -> Result<(), AllocError>
    ensures ok { OnOk result (map made_of noted.new.items ≡ map made_of noted.old.items ++ together pipeline.now (values_of reply) ∷ []) }
    ensures err { OnErr result (noted.new.items ≡ noted.old.items) }
{
    let pipeline = pipeline.clone(alloc)?;
    noted.push(Noted::Several(pipeline, reply))?;
    Ok(())
}

impl Calls for Scripted {
    ghost told = { λ it. record { made = map made_of it.noted.items; unlisted = it.unlisted } };

    fn call(&mut self, alloc: Global, cmd: &Cmd) -> Result<Value, CallError> {
        let reply = self.next_reply();
        match note(alloc, &mut self.noted, cmd, reply) {
            Ok(()) => value(alloc, reply),
            Err(AllocError) => {
                self.unlisted = self.unlisted.saturating_add(1);
                Err(CallError::NoMemory)
            }
        }
    }

    fn call_pipeline(&mut self, alloc: Global, pipeline: &Pipeline) -> Result<Values, CallError> {
        let reply = self.next_reply();
        match note_all(alloc, &mut self.noted, pipeline, reply) {
            Ok(()) => values(alloc, reply),
            Err(AllocError) => {
                self.unlisted = self.unlisted.saturating_add(1);
                Err(CallError::NoMemory)
            }
        }
    }
}
