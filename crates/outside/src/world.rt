ghost use Rattle.std.specs.Prelude.{◌≡◌, ◌<◌, ◌≤◌, ℕ, List, Option, length};
ghost use Rattle.outside.specs.Ends.{Rose};
ghost use Rattle.outside.specs.declared.world.Call.{Call};
ghost use Rattle.outside.specs.World.{Adds, DialFailed, GotFailed, LinkGotWithin, LinkPutWithin, PutFailed, link_given};

use containers::Bytes;
use redis_error::FaultKind;

/// What dialling a link came to.
#[derive(Clone, Copy, Debug, PartialEq, Eq)]
pub enum Dialed {
    Yes,
    Failed(FaultKind),
}

/// What a read of a link gave.
#[derive(Clone, Copy, Debug, PartialEq, Eq)]
pub enum LinkGot {
    /// So many bytes, at the front of the room.
    Read(usize),
    /// Nothing has come yet.
    NotYet,
    /// The peer closed the link.
    Ended,
    Failed(FaultKind),
}

/// What a write to a link took.
#[derive(Clone, Copy, Debug, PartialEq, Eq)]
pub enum LinkPut {
    /// So many bytes from the front of the piece.
    Took(usize),
    /// Nothing can be taken yet.
    NotYet,
    Failed(FaultKind),
}

/// A call of a world, with its answer.
#[derive(Drop)]
pub enum Call {
    Dial {
        link: u32,
        host: Bytes,
        port: u16,
        answer: Dialed,
    },
    /// A read into a room of so many bytes, and the bytes that it gave.
    Read {
        link: u32,
        room: usize,
        answer: LinkGot,
        bytes: Bytes,
    },
    Write {
        link: u32,
        piece: Bytes,
        answer: LinkPut,
    },
    Close {
        link: u32,
    },
    Now {
        answer: u64,
    },
    Word {
        answer: u64,
    },
    Wait {
        ms: u64,
    },
}

/// The links of a run, its clock and its random words. A world tells all its calls so far, with their answers, or tells
/// nothing, and one that has stopped telling does not tell again.
pub trait World {
    // All calls so far, where it tells.
    ghost told: { Self → Option (List Call) };

    // How often it has failed.
    ghost fault_count: { Self → ℕ };

    /// How often it has failed. At the end of its type the count stands.
    fn faults(&self) -> u64
        ensures { result ≡ fault_count self.now };

    /// Connects a link to a host.
    fn dial(&mut self, link: u32, host: &str, port: u16) -> Dialed
        ensures tells { Adds (told self.old) (told self.new) (Call.Dial link host.now port result) }
        ensures later { fault_count self.old ≤ fault_count self.new }
        ensures cause { DialFailed result → Rose (fault_count self.old) (fault_count self.new) };

    /// Reads a link once, into the front of a room that isn't empty, without waiting.
    fn read(&mut self, link: u32, room: &mut [u8]) -> LinkGot
        requires { 0 < length room.old }
        ensures within { LinkGotWithin (length room.old) result }
        ensures tells { Adds (told self.old) (told self.new)
            (Call.Read link (length room.old) result (link_given room.new result)) }
        ensures later { fault_count self.old ≤ fault_count self.new }
        ensures cause { GotFailed result → Rose (fault_count self.old) (fault_count self.new) };

    /// Writes to a link once, from the front of a piece that isn't empty, without waiting.
    fn write(&mut self, link: u32, piece: &[u8]) -> LinkPut
        requires { 0 < length piece.now }
        ensures within { LinkPutWithin (length piece.now) result }
        ensures tells { Adds (told self.old) (told self.new) (Call.Write link piece.now result) }
        ensures later { fault_count self.old ≤ fault_count self.new }
        ensures cause { PutFailed result → Rose (fault_count self.old) (fault_count self.new) };

    /// Closes a link.
    fn close(&mut self, link: u32)
        ensures tells { Adds (told self.old) (told self.new) (Call.Close link) }
        ensures later { fault_count self.old ≤ fault_count self.new };

    /// The moment now, in milliseconds.
    fn now(&mut self) -> u64
        ensures tells { Adds (told self.old) (told self.new) (Call.Now result) }
        ensures later { fault_count self.old ≤ fault_count self.new };

    /// A random word.
    fn word(&mut self) -> u64
        ensures tells { Adds (told self.old) (told self.new) (Call.Word result) }
        ensures later { fault_count self.old ≤ fault_count self.new };

    /// Waits so many milliseconds.
    fn wait(&mut self, ms: u64)
        ensures tells { Adds (told self.old) (told self.new) (Call.Wait ms) }
        ensures later { fault_count self.old ≤ fault_count self.new };
}
