ghost use Rattle.std.specs.Prelude.{◌≡◌, ◌∷◌, ◌++◌, [], OnOk, OnErr};

use containers::Bytes;
use driver_model::{Msg, Outcome, PushInfo, WaitKind};
use redis_error::RedisError;
use resp_value::Value;
use std::alloc::AllocError;

/// What a connection asks of the outside, or tells it. A request goes by the name that its maker gave it.
#[derive(Drop)]
pub enum LinkAct {
    /// The link is ready, or its opening failed with this error.
    Created {
        error: Option<RedisError>,
    },
    /// The round of a request begins.
    Round {
        request: u32,
    },
    /// A request takes so many permits.
    Took {
        request: u32,
        count: u32,
    },
    /// A timer is to fire after so many milliseconds: by then the request is to be answered.
    Timer {
        request: u32,
        ms: u64,
    },
    /// A source of credentials is wanted for the setup.
    NeedCreds,
    /// A source of new credentials is wanted, once the link is set up.
    NeedRenewals,
    /// A timer is to fire after so many milliseconds: by then new credentials are to be answered, the first of which have the
    /// number 0.
    RenewalTimer {
        number: u32,
        ms: u64,
    },
    /// A timer is to fire after so many milliseconds: by then what is subscribed again is to be answered.
    RepeatTimer {
        ms: u64,
    },
    /// A push came, or tells that the link has ended.
    Push {
        info: PushInfo,
    },
    /// A message of publish/subscribe came.
    Message {
        msg: Msg,
    },
    /// A server in monitor mode tells this.
    Monitor {
        value: Value,
    },
    /// The link ended, or is to be closed.
    Close,
    /// All unwritten bytes of the link are offered.
    Write {
        bytes: Bytes,
    },
    /// A request waits.
    Wait {
        request: u32,
        wait: WaitKind,
    },
    /// A request's message starts: the messages of the link are numbered from 0; how many items it takes, and how many
    /// bytes it has.
    Start {
        message: u32,
        request: u32,
        need: u64,
        len: u64,
    },
    /// The setup starts: which message of the link it is, how many items it takes, and how many bytes it has.
    SetUp {
        message: u32,
        need: u64,
        len: u64,
    },
    /// MONITOR starts: which message of the link it is, how many items it takes, and how many bytes it has.
    Watch {
        message: u32,
        need: u64,
        len: u64,
    },
    /// New credentials are told to the server: which message of the link it is, how many items it takes, and how many bytes
    /// it has.
    Renewed {
        message: u32,
        need: u64,
        len: u64,
    },
    /// All that was subscribed is subscribed again: which message of the link it is, how many items it takes, and how many bytes
    /// it has.
    Repeated {
        message: u32,
        need: u64,
        len: u64,
    },
    /// A request is answered.
    Outcome {
        request: u32,
        outcome: Outcome,
    },
}

/// One more act is shown. An error leaves `out` as it was.
pub(crate) fn show(out: &mut Vec<LinkAct>, act: LinkAct) -> Result<(), AllocError>
    ensures ok { OnOk result (out.new.items ≡ out.old.items ++ act ∷ []) }
    ensures err { OnErr result (out.new.items ≡ out.old.items) }
{
    out.push(act)?;
    Ok(())
}
