ghost use Rattle.std.specs.Prelude.{◌≡◌, ◌∷◌, [], IfOk};
ghost use Rattle.resp_value.specs.View.{data_of};
ghost use Rattle.cluster_plan.specs.Asks.{error_of_reply, error_told, link_told, passes};
ghost use Rattle.cluster_plan.specs.Steps.{ask_of, begun_by, step_by};

use crate::asks::{Answer, Ask, Part, Request};
use containers::Seq;
use redis_error::RedisError;
use resp_value::Value;
use slot_hash::NodeAddress;
use std::alloc::{AllocError, Global};

/// How far the reaching of a node has come.
#[derive(Clone, Copy)]
pub enum Step {
    /// Its link of this number is checked.
    Checking(u32),
    /// It is connected.
    Connecting,
    /// It was reached, by the link of this number.
    Arrived(u32),
}

/// A node that is being reached.
#[derive(Drop)]
pub struct Arrival {
    pub address: NodeAddress,
    pub step: Step,
}

/// Whether a check was passed: any reply but a server's error passes it.
pub fn passes(told: &Answer) -> bool
    ensures { result ≡ passes told.now }
{
    match told {
        Answer::Value(Value::ServerError(_)) => false,
        Answer::Value(_) => true,
        Answer::Connected(_) => false,
        Answer::Failed(_) => false,
        Answer::Fired => false,
    }
}

/// The link that a connect brought.
pub fn link_told(told: &Answer) -> Option<u32>
    ensures { result ≡ link_told told.now }
{
    match told {
        Answer::Connected(link) => Some(*link),
        Answer::Value(_) => None,
        Answer::Failed(_) => None,
        Answer::Fired => None,
    }
}

/// The error of a reply that isn't what was asked for.
fn error_of_reply(reply: Value) -> RedisError
    ensures { result ≡ error_of_reply (data_of reply) }
{
    match reply {
        Value::ServerError(error) => RedisError::Server(error),
        other => {
            drop(other);
            RedisError::Parse
        }
    }
}

/// The error of an answer that isn't what was asked for.
pub fn error_told(told: Answer) -> RedisError
    ensures { result ≡ error_told told }
{
    match told {
        Answer::Failed(error) => error,
        Answer::Value(reply) => error_of_reply(reply),
        Answer::Connected(_) => RedisError::Parse,
        Answer::Fired => RedisError::Parse,
    }
}

/// One ask.
pub fn one_ask(
    alloc: Global,
    part: Part,
    address: &NodeAddress,
    request: Request,
) -> Result<Seq<Ask>, AllocError>
    ensures { IfOk result
        (λ asks. asks ≡ record { part = part; address = address.now; request = request } ∷ []) }
{
    let address = address.clone(alloc)?;
    let mut asks = Seq::new(alloc);
    asks.push(Ask {
        part,
        address,
        request,
    })?;
    Ok(asks)
}

impl Step {
    /// How the reaching of a node begins, by the link that there is to it.
    pub fn begun(link: Option<u32>) -> Step
        ensures { result ≡ begun_by link }
    {
        match link {
            Some(link) => Step::Checking(link),
            None => Step::Connecting,
        }
    }

    /// What the answer to its ask makes of it; nothing where the node failed.
    pub fn next(self, told: &Answer) -> Option<Step>
        ensures { result ≡ step_by told.now self }
    {
        match self {
            Step::Checking(link) => {
                if passes(told) {
                    Some(Step::Arrived(link))
                } else {
                    Some(Step::Connecting)
                }
            }
            Step::Connecting => match link_told(told) {
                Some(link) => Some(Step::Arrived(link)),
                None => None,
            },
            Step::Arrived(link) => Some(Step::Arrived(link)),
        }
    }

    /// What it asks; nothing where the node was reached.
    pub fn ask(
        self,
        alloc: Global,
        part: Part,
        address: &NodeAddress,
    ) -> Result<Option<Ask>, AllocError>
        ensures { IfOk result (λ x. x ≡ ask_of part address.now self) }
    {
        let request = match self {
            Step::Checking(link) => Request::Check(link),
            Step::Connecting => Request::Connect,
            Step::Arrived(_) => return Ok(None),
        };
        let address = address.clone(alloc)?;
        Ok(Some(Ask {
            part,
            address,
            request,
        }))
    }
}
