ghost use Rattle.std.specs.Prelude.{◌≡◌, IfOk};

use crate::commands::Commands;
use containers::{Bytes, Names};
use credentials::BasicAuth;
use redis_error::FaultKind;
use resp_write::SubscriptionAction;
use std::alloc::{AllocError, Global};

/// What a caller hands in.
#[derive(Drop)]
pub enum Submission {
    /// One command: its name and its arguments.
    Cmd {
        args: Names,
    },
    /// One command whose reply nobody awaits.
    NoReply {
        args: Names,
    },
    /// Commands that are sent together. Each has its reply.
    Pipe {
        commands: Commands,
    },
    /// Commands that are sent together, as a transaction.
    Multi {
        commands: Commands,
    },
    /// Commands that are sent together. The first `offset` replies are skipped, and the next `count` are kept.
    Packed {
        offset: u32,
        count: u32,
        commands: Commands,
    },
    /// A subscription call: one command with all these names, also where there are none. A single connection has those of
    /// channels and of patterns.
    Subscription {
        action: SubscriptionAction,
        names: Names,
    },
    /// PING, with this message or without one, on a link of publish/subscribe.
    Ping {
        message: Option<Bytes>,
    },
}

/// What happened. Links, submissions, timers and sources of credentials go by their numbers, counted from 0.
#[derive(Drop)]
pub enum EventKind {
    /// A caller hands in a request.
    Submit { submission: Submission },
    /// The caller of a submission drops its request.
    Cancel { submission: u32 },
    /// A connect succeeded.
    Connected { link: u32 },
    /// A connect failed.
    Refused { link: u32, fault: FaultKind },
    /// So many of the offered bytes were taken.
    Wrote { link: u32, count: u64 },
    /// Bytes came from the peer.
    Bytes { link: u32, piece: Bytes },
    /// The peer closed the link.
    Ended { link: u32 },
    /// A read from the link failed.
    ReadFault { link: u32, fault: FaultKind },
    /// A write to the link failed.
    WriteFault { link: u32, fault: FaultKind },
    /// The time of a timer is over.
    Fired { timer: u32 },
    /// New credentials came of a source.
    Creds { source: u32, auth: BasicAuth },
    /// A source could not give new credentials, and says why.
    CredsError { source: u32, text: Bytes },
    /// No more credentials come of a source.
    CredsEnd { source: u32 },
    /// From now on a request that is handed in is to be answered within so many milliseconds, if within any.
    Timeout { ms: Option<u64> },
    /// The stream of messages is dropped: a link of publish/subscribe ends.
    DropStream,
    /// Everything is closed.
    Shutdown,
}

/// One event, with the word that its random draws come from.
#[derive(Drop)]
pub struct Event {
    pub word: u64,
    pub kind: EventKind,
}

/// An equal message of its own, if there is one.
fn clone_message(alloc: Global, message: &Option<Bytes>) -> Result<Option<Bytes>, AllocError>
    ensures { IfOk result (λ m. m ≡ message.now) }
{
    match message {
        None => Ok(None),
        Some(message) => Ok(Some(message.clone(alloc)?)),
    }
}

impl Submission {
    /// An equal value of its own.
    pub fn clone(&self, alloc: Global) -> Result<Submission, AllocError>
        ensures { IfOk result (λ s. s ≡ self.now) }
    {
        match self {
            Submission::Cmd { args } => args.clone(alloc).map(|args| Submission::Cmd { args }),
            Submission::NoReply { args } => {
                args.clone(alloc).map(|args| Submission::NoReply { args })
            }
            Submission::Pipe { commands } => commands
                .clone(alloc)
                .map(|commands| Submission::Pipe { commands }),
            Submission::Multi { commands } => commands
                .clone(alloc)
                .map(|commands| Submission::Multi { commands }),
            Submission::Packed {
                offset,
                count,
                commands,
            } => commands.clone(alloc).map(|commands| Submission::Packed {
                offset: *offset,
                count: *count,
                commands,
            }),
            Submission::Subscription { action, names } => {
                names.clone(alloc).map(|names| Submission::Subscription {
                    action: *action,
                    names,
                })
            }
            Submission::Ping { message } => {
                clone_message(alloc, message).map(|message| Submission::Ping { message })
            }
        }
    }
}

impl EventKind {
    /// An equal value of its own.
    pub fn clone(&self, alloc: Global) -> Result<EventKind, AllocError>
        ensures { IfOk result (λ k. k ≡ self.now) }
    {
        match self {
            EventKind::Submit { submission } => submission
                .clone(alloc)
                .map(|submission| EventKind::Submit { submission }),
            EventKind::Cancel { submission } => Ok(EventKind::Cancel {
                submission: *submission,
            }),
            EventKind::Connected { link } => Ok(EventKind::Connected { link: *link }),
            EventKind::Refused { link, fault } => Ok(EventKind::Refused {
                link: *link,
                fault: *fault,
            }),
            EventKind::Wrote { link, count } => Ok(EventKind::Wrote {
                link: *link,
                count: *count,
            }),
            EventKind::Bytes { link, piece } => piece
                .clone(alloc)
                .map(|piece| EventKind::Bytes { link: *link, piece }),
            EventKind::Ended { link } => Ok(EventKind::Ended { link: *link }),
            EventKind::ReadFault { link, fault } => Ok(EventKind::ReadFault {
                link: *link,
                fault: *fault,
            }),
            EventKind::WriteFault { link, fault } => Ok(EventKind::WriteFault {
                link: *link,
                fault: *fault,
            }),
            EventKind::Fired { timer } => Ok(EventKind::Fired { timer: *timer }),
            EventKind::Creds { source, auth } => auth.clone(alloc).map(|auth| EventKind::Creds {
                source: *source,
                auth,
            }),
            EventKind::CredsError { source, text } => {
                text.clone(alloc).map(|text| EventKind::CredsError {
                    source: *source,
                    text,
                })
            }
            EventKind::CredsEnd { source } => Ok(EventKind::CredsEnd { source: *source }),
            EventKind::Timeout { ms } => Ok(EventKind::Timeout { ms: *ms }),
            EventKind::DropStream => Ok(EventKind::DropStream),
            EventKind::Shutdown => Ok(EventKind::Shutdown),
        }
    }
}

impl Event {
    /// An equal value of its own.
    pub fn clone(&self, alloc: Global) -> Result<Event, AllocError>
        ensures { IfOk result (λ e. e ≡ self.now) }
    {
        let kind = self.kind.clone(alloc)?;
        Ok(Event {
            word: self.word,
            kind,
        })
    }
}
