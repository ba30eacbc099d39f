use containers::Bytes;
use driver_model::{PushInfo, WaitKind};
use mux_conn::Pending;
use redis_error::RedisError;

/// What a timer of a manager is for. Whoever keeps the timers tells the next step when it has fired.
#[derive(Clone, Copy, PartialEq, Eq)]
pub enum ManagerTimer {
    /// The link of this number is to be connected and set up: `ConnectionNews::Link` with `LinkNews::Overdue`.
    Connect { link: u32 },
    /// A request is to be answered: `ConnectionNews::Late`.
    Response { request: Pending },
    /// What was subscribed is to be subscribed again on the link of this number: `ConnectionNews::ResubscriptionLate`.
    Resubscription { link: u32 },
    /// New credentials are to be answered on the link of this number, the first of which have the number 0:
    /// `ConnectionNews::Link` with `LinkNews::Late`.
    Renewal { link: u32, number: u32 },
    /// A generation waits behind this attempt, counted from 0, before its next one: `ConnectionNews::Rested`.
    Backoff { generation: u32, attempt: u32 },
}

/// What a manager asks of the outside, or tells it. Links have the numbers in whose order they were asked for, from 0.
#[derive(Drop)]
pub enum ManagerAct {
    /// A generation begins, the first of which has the number 1.
    Generation {
        number: u32,
    },
    /// A link to the server is wanted.
    Connect {
        link: u32,
    },
    /// The manager is made: its first generation is ready, or has failed with this error. One that is lazy is made at once.
    Created {
        error: Option<RedisError>,
    },
    /// A timer is to fire after so many milliseconds.
    Timer {
        timer: ManagerTimer,
        ms: u64,
    },
    /// A source of credentials is wanted for this link: the first for its setup, and another for the renewals.
    NeedCreds {
        link: u32,
    },
    /// A request is handed to this link.
    Round {
        request: Pending,
        link: u32,
    },
    /// A request takes so many permits.
    Took {
        request: Pending,
        count: u32,
    },
    /// A push came on this link, or tells that it has ended.
    Push {
        link: u32,
        info: PushInfo,
    },
    /// This link ended, or is to be closed.
    Close {
        link: u32,
    },
    /// All unwritten bytes of this link are offered.
    Write {
        link: u32,
        bytes: Bytes,
    },
    /// A request waits.
    Wait {
        request: Pending,
        wait: WaitKind,
    },
    /// A request's message starts: the messages of the link are numbered from 0; how many items it takes, and how many bytes
    /// it has.
    Start {
        link: u32,
        message: u32,
        request: Pending,
        need: u64,
        len: u64,
    },
    /// The setup of this link starts: which message of it this is, how many items it takes, and how many bytes it has.
    SetUp {
        link: u32,
        message: u32,
        need: u64,
        len: u64,
    },
    /// What was subscribed is subscribed again on this link: which message of it this is, how many items it takes, and how many
    /// bytes it has.
    Resubscribe {
        link: u32,
        message: u32,
        need: u64,
        len: u64,
    },
    /// New credentials are told to the server: which message of the link it is, how many items it takes, and how many bytes it
    /// has.
    Renewed {
        link: u32,
        message: u32,
        need: u64,
        len: u64,
    },
    /// A request is answered: `poll` gives its outcome.
    Answered {
        request: Pending,
    },
}
