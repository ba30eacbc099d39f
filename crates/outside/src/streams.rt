ghost use Rattle.std.specs.Prelude.{◌≡◌, ◌<◌, ℕ, true, false, length, OnOk, OnErr};
ghost use Rattle.outside.specs.NetWorld.{ChangesLink, SameLinks, has_stream};
ghost use Rattle.outside.specs.World.{LinkGotWithin, LinkPutWithin};

use crate::fault_of::fault_of;
use crate::world::{LinkGot, LinkPut};
use redis_error::FaultKind;
use std::alloc::{AllocError, Global};
use std::collections::BTreeMap;
use std::io::{ErrorKind, Read, Write};

/// Reads a stream once. A read that would wait, or was interrupted, gives nothing yet.
fn read_once<S: Read>(stream: &mut S, room: &mut [u8]) -> LinkGot
    requires { 0 < length room.old }
    ensures within { LinkGotWithin (length room.old) result }
{
    match stream.read(room) {
        Ok(0) => LinkGot::Ended,
        Ok(count) => LinkGot::Read(count),
        Err(error) => match error.kind() {
            ErrorKind::WouldBlock | ErrorKind::Interrupted => LinkGot::NotYet,
            kind => LinkGot::Failed(fault_of(kind)),
        },
    }
}

/// Writes to a stream once. A write that would wait, or was interrupted, takes nothing yet, and one that takes no bytes
/// is a fault.
fn write_once<S: Write>(stream: &mut S, piece: &[u8]) -> LinkPut
    ensures within { LinkPutWithin (length piece.now) result }
{
    match stream.write(piece) {
        Ok(0) => LinkPut::Failed(FaultKind::Other),
        Ok(count) => LinkPut::Took(count),
        Err(error) => match error.kind() {
            ErrorKind::WouldBlock | ErrorKind::Interrupted => LinkPut::NotYet,
            kind => LinkPut::Failed(fault_of(kind)),
        },
    }
}

/// The streams of links, by the links' numbers.
#[derive(Drop)]
pub(crate) struct Streams<S> {
    by_link: BTreeMap<u32, S>,
}

impl<S: Drop> Streams<S> {
    /// No streams.
    pub(crate) fn new(alloc: Global) -> Streams<S>
        ensures none { (link : ℕ) → has_stream result link ≡ false }
    {
        Streams {
            by_link: BTreeMap::new(alloc),
        }
    }

    /// Gives a link a stream, in the place of the one that it had.
    pub(crate) fn put(&mut self, link: u32, stream: S) -> Result<(), AllocError>
        ensures ok { OnOk result (ChangesLink self.old self.new link true) }
        ensures err { OnErr result (SameLinks self.old self.new) }
    {
        self.by_link.insert(link, stream)?;
        Ok(())
    }

    /// Drops a link's stream, if it has one.
    pub(crate) fn close(&mut self, link: u32)
        ensures closed { ChangesLink self.old self.new link false }
    {
        self.by_link.remove(&link);
    }
}

impl<S: Read> Streams<S> {
    /// Reads a link's stream once.
    pub(crate) fn read(&mut self, link: u32, room: &mut [u8]) -> LinkGot
        requires { 0 < length room.old }
        ensures within { LinkGotWithin (length room.old) result }
        ensures unconnected { has_stream self.old link ≡ false
            → result ≡ LinkGot.Failed FaultKind.NotConnected }
        ensures links { SameLinks self.old self.new }
    {
        match self.by_link.get_mut(&link) {
            Some(stream) => read_once(stream, room),
            None => LinkGot::Failed(FaultKind::NotConnected),
        }
    }
}

impl<S: Write> Streams<S> {
    /// Writes to a link's stream once.
    pub(crate) fn write(&mut self, link: u32, piece: &[u8]) -> LinkPut
        ensures within { LinkPutWithin (length piece.now) result }
        ensures unconnected { has_stream self.old link ≡ false
            → result ≡ LinkPut.Failed FaultKind.NotConnected }
        ensures links { SameLinks self.old self.new }
    {
        match self.by_link.get_mut(&link) {
            Some(stream) => write_once(stream, piece),
            None => LinkPut::Failed(FaultKind::NotConnected),
        }
    }
}
