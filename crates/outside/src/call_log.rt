ghost use Rattle.std.specs.Prelude.{◌≡◌, [], Some};
ghost use Rattle.outside.specs.World.{Adds};

use crate::world::{Call, Dialed, LinkGot, LinkPut};
use containers::{Bytes, Seq};
use std::alloc::Global;

/// All calls of a world so far. Where memory for a call is refused, none of them is kept any more.
#[derive(Drop)]
pub(crate) struct CallLog {
    pub(crate) calls: Option<Seq<Call>>,
}

impl CallLog {
    pub(crate) fn new(alloc: Global) -> CallLog
        ensures { result.calls ≡ Some [] }
    {
        CallLog {
            calls: Some(Seq::new(alloc)),
        }
    }

    /// Adds a call.
    pub(crate) fn note(&mut self, call: Call)
        ensures { Adds self.old.calls self.new.calls call }
    {
        let Some(mut calls) = self.calls.take() else {
            return;
        };
        if let Ok(()) = calls.push(call) {
            self.calls = Some(calls);
        }
    }

    pub(crate) fn note_dial(
        &mut self,
        alloc: Global,
        link: u32,
        host: &str,
        port: u16,
        answer: Dialed,
    )
        ensures { Adds self.old.calls self.new.calls (Call.Dial link host.now port answer) }
    {
        match Bytes::from_slice(alloc, host.as_bytes()) {
            Ok(host) => self.note(Call::Dial {
                link,
                host,
                port,
                answer,
            }),
            Err(_) => self.calls = None,
        }
    }

    pub(crate) fn note_read(
        &mut self,
        alloc: Global,
        link: u32,
        room: usize,
        answer: LinkGot,
        bytes: &[u8],
    )
        ensures { Adds self.old.calls self.new.calls (Call.Read link room answer bytes.now) }
    {
        match Bytes::from_slice(alloc, bytes) {
            Ok(bytes) => self.note(Call::Read {
                link,
                room,
                answer,
                bytes,
            }),
            Err(_) => self.calls = None,
        }
    }

    pub(crate) fn note_write(&mut self, alloc: Global, link: u32, piece: &[u8], answer: LinkPut)
        ensures { Adds self.old.calls self.new.calls (Call.Write link piece.now answer) }
    {
        match Bytes::from_slice(alloc, piece) {
            Ok(piece) => self.note(Call::Write {
                link,
                piece,
                answer,
            }),
            Err(_) => self.calls = None,
        }
    }
}
