use containers::Bytes;
use driver_model::{Msg, PushInfo, WaitKind};
use mux_conn::Pending;
use redis_error::RedisError;
use resp_value::Value;

/// What a timer of a connection is for.
#[derive(Clone, Copy, PartialEq, Eq)]
pub enum ConnectionTimer {
    /// The link is to be connected and set up. When it fires, the next step is told `LinkNews::Overdue`.
    Connect,
    /// A request is to be answered. When it fires, `time_out` is called.
    Response { request: Pending },
    /// New credentials are to be answered, the first of which have the number 0. When it fires, the next step is told
    /// `LinkNews::Late`.
    Renewal { number: u32 },
    /// What is subscribed again is to be answered, of a connection that comes back: others ask for none. When it fires, the next
    /// step is told `LinkNews::Unrepeated`.
    Repeat,
}

/// What a connection asks of the outside, or tells it.
#[derive(Drop)]
pub enum ConnectionAct {
    /// The link is ready, or its opening failed with this error.
    Created {
        error: Option<RedisError>,
    },
    /// A timer is to fire after so many milliseconds.
    Timer {
        timer: ConnectionTimer,
        ms: u64,
    },
    /// A source of credentials is wanted. The first is for the setup: what comes of it is told as `LinkNews::Authorized`,
    /// `Denied` or `Deserted`. Another is for the renewals: what comes of it is told as `LinkNews::Renewed` or `Unrenewed`, and
    /// its errors are passed over.
    NeedCreds,
    /// The round of a request begins, of a connection that comes back: others show none.
    Round {
        request: Pending,
    },
    /// A request takes so many permits.
    Took {
        request: Pending,
        count: u32,
    },
    /// A push came, or tells that the link has ended.
    Push {
        info: PushInfo,
    },
    /// A message of publish/subscribe came.
    Message {
        msg: Msg,
    },
    /// A server in monitor mode tells this.
    Monitor {
        value: Value,
    },
    /// The link ended, or is to be closed.
    Close,
    /// All unwritten bytes of the link are offered.
    Write {
        bytes: Bytes,
    },
    /// A request waits.
    Wait {
        request: Pending,
        wait: WaitKind,
    },
    /// A request's message starts: the messages of the link are numbered from 0; how many items it takes, and how many bytes
    /// it has.
    Start {
        message: u32,
        request: Pending,
        need: u64,
        len: u64,
    },
    /// The setup starts: which message of the link it is, how many items it takes, and how many bytes it has.
    SetUp {
        message: u32,
        need: u64,
        len: u64,
    },
    /// MONITOR starts: which message of the link it is, how many items it takes, and how many bytes it has.
    Watch {
        message: u32,
        need: u64,
        len: u64,
    },
    /// New credentials are told to the server: which message of the link it is, how many items it takes, and how many bytes it
    /// has.
    Renewed {
        message: u32,
        need: u64,
        len: u64,
    },
    /// All that was subscribed is subscribed again, of a connection that comes back: which message of the link it is, how many
    /// items it takes, and how many bytes it has.
    Repeated {
        message: u32,
        need: u64,
        len: u64,
    },
    /// A request is answered: `poll` gives its outcome.
    Answered {
        request: Pending,
    },
}
