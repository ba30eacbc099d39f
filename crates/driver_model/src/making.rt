ghost use Rattle.std.specs.Prelude.{◌≡◌, IfOk, if◌then◌else◌};

use crate::event::{Event, EventKind, Submission};
use containers::{Bytes, Names};
use credentials::BasicAuth;
use redis_error::FaultKind;
use resp_write::Cmd;
use std::alloc::{AllocError, Global};

impl Submission {
    /// A command as it is: one whose reply is left out is one whose reply nobody awaits.
    pub fn from_cmd(alloc: Global, cmd: &Cmd) -> Result<Submission, AllocError>
        ensures { IfOk result
            (λ s. s ≡ (if cmd.now.no_response
            then Submission.NoReply cmd.now.args
            else Submission.Cmd cmd.now.args)) }
    {
        let args = Names::from_clones(alloc, cmd.args())?;
        if cmd.is_no_response() {
            return Ok(Submission::NoReply { args });
        }
        Ok(Submission::Cmd { args })
    }
}

impl Event {
    /// An event with the word 0.
    fn of(kind: EventKind) -> Event
        ensures { result ≡ record { word = 0; kind = kind } }
    {
        Event { word: 0, kind }
    }

    /// The same event with this word.
    pub fn with_word(self, word: u64) -> Event
        ensures { result ≡ record { word = word; kind = self.kind } }
    {
        Event {
            word,
            kind: self.kind,
        }
    }

    /// A caller hands in a request. Its submission's number is how many were handed in before.
    pub fn submit(submission: Submission) -> Event
        ensures { result ≡ record { word = 0; kind = EventKind.Submit submission } }
    {
        Event::of(EventKind::Submit { submission })
    }

    /// The caller of this submission drops its request.
    pub fn cancel(submission: u32) -> Event
        ensures { result ≡ record { word = 0; kind = EventKind.Cancel submission } }
    {
        Event::of(EventKind::Cancel { submission })
    }

    /// The connect of this link succeeded.
    pub fn connected(link: u32) -> Event
        ensures { result ≡ record { word = 0; kind = EventKind.Connected link } }
    {
        Event::of(EventKind::Connected { link })
    }

    /// The connect of this link failed.
    pub fn refused(link: u32, fault: FaultKind) -> Event
        ensures { result ≡ record { word = 0; kind = EventKind.Refused link fault } }
    {
        Event::of(EventKind::Refused { link, fault })
    }

    /// So many of the bytes that this link offered were taken.
    pub fn wrote(link: u32, count: u64) -> Event
        ensures { result ≡ record { word = 0; kind = EventKind.Wrote link count } }
    {
        Event::of(EventKind::Wrote { link, count })
    }

    /// These bytes came from the peer of this link. They are copied.
    pub fn bytes(alloc: Global, link: u32, piece: &[u8]) -> Result<Event, AllocError>
        ensures { IfOk result
            (λ e. e ≡ record { word = 0; kind = EventKind.Bytes link piece.now }) }
    {
        let piece = Bytes::from_slice(alloc, piece)?;
        Ok(Event::of(EventKind::Bytes { link, piece }))
    }

    /// The peer closed this link.
    pub fn ended(link: u32) -> Event
        ensures { result ≡ record { word = 0; kind = EventKind.Ended link } }
    {
        Event::of(EventKind::Ended { link })
    }

    /// A read from this link failed.
    pub fn read_fault(link: u32, fault: FaultKind) -> Event
        ensures { result ≡ record { word = 0; kind = EventKind.ReadFault link fault } }
    {
        Event::of(EventKind::ReadFault { link, fault })
    }

    /// A write to this link failed.
    pub fn write_fault(link: u32, fault: FaultKind) -> Event
        ensures { result ≡ record { word = 0; kind = EventKind.WriteFault link fault } }
    {
        Event::of(EventKind::WriteFault { link, fault })
    }

    /// The time of this timer is over.
    pub fn fired(timer: u32) -> Event
        ensures { result ≡ record { word = 0; kind = EventKind.Fired timer } }
    {
        Event::of(EventKind::Fired { timer })
    }

    /// New credentials came of this source.
    pub fn creds(source: u32, auth: BasicAuth) -> Event
        ensures { result ≡ record { word = 0; kind = EventKind.Creds source auth } }
    {
        Event::of(EventKind::Creds { source, auth })
    }

    /// This source could not give new credentials, and says why.
    pub fn creds_error(source: u32, text: Bytes) -> Event
        ensures { result ≡ record { word = 0; kind = EventKind.CredsError source text } }
    {
        Event::of(EventKind::CredsError { source, text })
    }

    /// No more credentials come of this source.
    pub fn creds_end(source: u32) -> Event
        ensures { result ≡ record { word = 0; kind = EventKind.CredsEnd source } }
    {
        Event::of(EventKind::CredsEnd { source })
    }

    /// From now on a request that is handed in is to be answered within so many milliseconds, if within any.
    pub fn timeout(ms: Option<u64>) -> Event
        ensures { result ≡ record { word = 0; kind = EventKind.Timeout ms } }
    {
        Event::of(EventKind::Timeout { ms })
    }

    /// The stream of messages is dropped.
    pub fn drop_stream() -> Event
        ensures { result ≡ record { word = 0; kind = EventKind.DropStream } }
    {
        Event::of(EventKind::DropStream)
    }

    /// Everything is closed.
    pub fn shutdown() -> Event
        ensures { result ≡ record { word = 0; kind = EventKind.Shutdown } }
    {
        Event::of(EventKind::Shutdown)
    }
}
