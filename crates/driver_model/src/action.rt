ghost use Rattle.std.specs.Prelude.{◌≡◌, IfOk};
ghost use Rattle.driver_model.specs.Waits.{wait_code};

use crate::config::Config;
use crate::event::Event;
use crate::msg::Msg;
use crate::outcome::Outcome;
use crate::push_info::PushInfo;
use containers::Bytes;
use redis_error::RedisError;
use resp_value::Value;
use std::alloc::{AllocError, Global};

/// What a turn is the turn of: the opening, or an event.
#[derive(Drop)]
pub enum Cause {
    Opening { config: Config, word: u64 },
    Event { event: Event },
}

/// Whose message or wait it is: one try of a submission, its rounds counted from 0.
#[derive(Clone, Copy, PartialEq, Eq)]
pub enum Owner {
    Try { submission: u32, round: u32 },
    /// What is said to the server before the first request.
    Setup,
    /// New credentials, told to the server of a link that is set up.
    Auth,
    /// What was subscribed, subscribed again on a new link.
    Resub,
    /// MONITOR, which puts the server of a link into monitor mode.
    Monitor,
}

/// What a request waits for.
#[derive(Clone, Copy, PartialEq, Eq)]
pub enum WaitKind {
    /// The connect of its link is not answered yet.
    Connect,
    /// The credentials for the setup of its link have not come.
    Creds,
    /// The setup of its link is not answered yet.
    Setup,
    /// What was subscribed is subscribed again on its link, and isn't answered yet.
    Resubscribe,
    /// The next attempt to connect hasn't begun.
    Backoff,
    /// All permits of its connection are held.
    Permit,
    /// The queue of its link holds its size.
    Place,
    /// It has its place, and so many bytes of its link are unwritten that no message starts.
    Room,
}

impl WaitKind {
    /// Its place in the list of waits.
    pub fn code(self) -> u8
        ensures { result ≡ wait_code self }
    {
        match self {
            WaitKind::Connect => 0,
            WaitKind::Creds => 1,
            WaitKind::Setup => 2,
            WaitKind::Resubscribe => 3,
            WaitKind::Backoff => 4,
            WaitKind::Permit => 5,
            WaitKind::Place => 6,
            WaitKind::Room => 7,
        }
    }
}

/// What a timer is asked for.
#[derive(Clone, Copy, PartialEq, Eq)]
pub enum Purpose {
    /// The link is to be connected by then.
    Connect { link: u32 },
    /// The request is to be answered by then.
    Response { owner: Owner },
    /// The link's new credentials, the first of which have the number 0, are to be answered by then.
    Renewal { link: u32, number: u32 },
    /// A generation waits behind a failed attempt before its next one.
    Backoff { generation: u32 },
    /// What was subscribed is to be subscribed again on the link by then.
    Resubscription { link: u32 },
}

/// What a source of credentials is asked for.
#[derive(Clone, Copy, PartialEq, Eq)]
pub enum SourceUse {
    /// The setup of the link: it waits for the first credentials.
    Setup { link: u32 },
    /// The link's renewals: each of its credentials is told to the server.
    Renewal { link: u32 },
}

/// What a turn asks of the outside, or tells it.
#[derive(Drop)]
pub enum Action {
    /// A turn begins. The opening is turn 0, the first event turn 1.
    Turn {
        number: u32,
        cause: Cause,
    },
    /// A link is to be connected.
    Connect {
        link: u32,
        host: Bytes,
        port: u16,
    },
    /// A timer is to fire after so many milliseconds. Timers are numbered from 0.
    Timer {
        timer: u32,
        ms: u64,
        purpose: Purpose,
    },
    /// A request takes so many permits of the link's connection.
    Took {
        owner: Owner,
        link: u32,
        count: u32,
    },
    /// A push came on the link, or tells that it has ended.
    Push {
        link: u32,
        info: PushInfo,
    },
    /// A message of publish/subscribe came.
    Message {
        msg: Msg,
    },
    /// A server in monitor mode tells this.
    Monitor {
        value: Value,
    },
    /// A source of credentials is wanted for the link. Sources are numbered from 0.
    NeedCreds {
        source: u32,
        link: u32,
    },
    /// A generation of a manager begins, the first of which has the number 1.
    Generation {
        number: u32,
    },
    /// A round of a request begins, on this link, if on one.
    Round {
        owner: Owner,
        link: Option<u32>,
    },
    /// The link ended, or is to be closed.
    Close {
        link: u32,
    },
    /// All unwritten bytes of the link are offered.
    Write {
        link: u32,
        bytes: Bytes,
    },
    /// A request waits.
    Wait {
        owner: Owner,
        wait: WaitKind,
    },
    /// A message starts: the messages of a link are numbered from 0; how many items it takes, and how many bytes it has.
    Start {
        link: u32,
        message: u32,
        owner: Owner,
        need: u64,
        len: u64,
    },
    /// The first link is ready, or its opening failed with this error.
    Created {
        error: Option<RedisError>,
    },
    /// A submission is answered.
    Outcome {
        submission: u32,
        outcome: Outcome,
    },
}

impl Cause {
    /// An equal value of its own.
    pub fn clone(&self, alloc: Global) -> Result<Cause, AllocError>
        ensures { IfOk result (λ c. c ≡ self.now) }
    {
        match self {
            Cause::Opening { config, word } => {
                let config = config.clone(alloc)?;
                Ok(Cause::Opening {
                    config,
                    word: *word,
                })
            }
            Cause::Event { event } => {
                let event = event.clone(alloc)?;
                Ok(Cause::Event { event })
            }
        }
    }
}
