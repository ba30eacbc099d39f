ghost use Rattle.std.specs.Prelude.{◌≡◌, ◌<◌, ◌≤◌, ℕ, false, None, length};
ghost use Rattle.outside.specs.declared.world.Call.{Call};
ghost use Rattle.outside.specs.Ends.{Rose};
ghost use Rattle.outside.specs.World.{Adds, DialFailed, GotFailed, LinkGotWithin, LinkPutWithin};
ghost use Rattle.outside.specs.World.{PutFailed, link_given};
ghost use Rattle.outside.specs.NetWorld.{ChangesLink, SameLinks, has_stream, is_yes};

use crate::dialing::connect;
use crate::fault_count::{after_dial, after_read, after_write};
use crate::fault_of::fault_of;
use crate::streams::Streams;
use crate::world::{Dialed, LinkGot, LinkPut, World};
use redis_error::FaultKind;
use std::alloc::Global;
use std::net::Net;
use std::random::RandomSource;
use std::thread;
use std::time::{Clock, Duration};

/// How long a dial may take at most, in milliseconds, where nothing else is said.
const DIAL_LIMIT_MS: u64 = 1_000;

/// A reading of the monotonic clock, and 0 where it can't be read.
fn reading<R: Clock>(rt: &R) -> Duration {
    match rt.monotonic() {
        Ok(time) => time,
        Err(_) => Duration::ZERO,
    }
}

/// The real world: each link is a TCP connection. It tells none of its calls.
///
/// A dial looks the host's name up and tries its addresses in order, all within its limit of time. How long the look-up
/// of a name takes isn't limited: that is the system's resolver's to say. A link that is dialled again loses the
/// connection that it had. Reads and writes never wait. Those of a link that isn't connected fail with
/// `FaultKind::NotConnected`, and its close does nothing.
#[derive(Drop)]
pub struct NetWorld<'a, R: Net> {
    rt: &'a R,
    streams: Streams<R::Stream>,
    /// The clock's reading as the world was made.
    start: Duration,
    /// The last moment that was told.
    moment: u64,
    dial_limit_ms: u64,
    faults: u64,
}

impl<'a, R: Net + Clock + RandomSource> NetWorld<'a, R> {
    /// A world without connections, whose dials take a second at most.
    pub fn new(rt: &'a R, alloc: Global) -> NetWorld<'a, R>
        ensures faults { ⟦<NetWorld<'a, R> as World>⟧.fault_count result ≡ 0 }
        ensures none { (link : ℕ) → has_stream result.streams link ≡ false }
    {
        NetWorld::with_dial_limit(rt, alloc, DIAL_LIMIT_MS)
    }

    /// A world without connections, whose dials take so many milliseconds at most.
    pub fn with_dial_limit(rt: &'a R, alloc: Global, dial_limit_ms: u64) -> NetWorld<'a, R>
        ensures faults { ⟦<NetWorld<'a, R> as World>⟧.fault_count result ≡ 0 }
        ensures none { (link : ℕ) → has_stream result.streams link ≡ false }
    {
        NetWorld {
            rt,
            streams: Streams::new(alloc),
            start: reading(rt),
            moment: 0,
            dial_limit_ms,
            faults: 0,
        }
    }

    fn connect_link(&mut self, link: u32, host: &str, port: u16) -> Dialed
        ensures links { ChangesLink self.old.streams self.new.streams link (is_yes result) }
        ensures faults { self.new.faults ≡ self.old.faults }
        ensures moment { self.new.moment ≡ self.old.moment }
    {
        self.streams.close(link);
        let limit = Duration::from_millis(self.dial_limit_ms);
        match connect(self.rt, host, port, limit) {
            Ok(stream) => match self.streams.put(link, stream) {
                Ok(()) => Dialed::Yes,
                Err(_) => Dialed::Failed(FaultKind::Other),
            },
            Err(error) => Dialed::Failed(fault_of(error.kind())),
        }
    }
}

impl<'a, R: Net + Clock + RandomSource> World for NetWorld<'a, R> {
    ghost told = { λ _. None };

    ghost fault_count = { λ w. w.faults };

    fn faults(&self) -> u64 {
        self.faults
    }

    fn dial(&mut self, link: u32, host: &str, port: u16) -> Dialed
        ensures tells { Adds None None (Call.Dial link host.now port result) }
        ensures later { self.old.faults ≤ self.new.faults }
        ensures cause { DialFailed result → Rose self.old.faults self.new.faults }

        ensures links { ChangesLink self.old.streams self.new.streams link (is_yes result) }
        ensures moment { self.new.moment ≡ self.old.moment }
    {
        let answer = self.connect_link(link, host, port);
        self.faults = after_dial(self.faults, answer);
        answer
    }

    fn read(&mut self, link: u32, room: &mut [u8]) -> LinkGot
        requires { 0 < length room.old }
        ensures within { LinkGotWithin (length room.old) result }
        ensures tells { Adds None None
            (Call.Read link (length room.old) result (link_given room.new result)) }
        ensures later { self.old.faults ≤ self.new.faults }
        ensures cause { GotFailed result → Rose self.old.faults self.new.faults }

        ensures unconnected { has_stream self.old.streams link ≡ false
            → result ≡ LinkGot.Failed FaultKind.NotConnected }
        ensures links { SameLinks self.old.streams self.new.streams }
        ensures moment { self.new.moment ≡ self.old.moment }
    {
        let answer = self.streams.read(link, room);
        self.faults = after_read(self.faults, answer);
        answer
    }

    fn write(&mut self, link: u32, piece: &[u8]) -> LinkPut
        requires { 0 < length piece.now }
        ensures within { LinkPutWithin (length piece.now) result }
        ensures tells { Adds None None (Call.Write link piece.now result) }
        ensures later { self.old.faults ≤ self.new.faults }
        ensures cause { PutFailed result → Rose self.old.faults self.new.faults }

        ensures unconnected { has_stream self.old.streams link ≡ false
            → result ≡ LinkPut.Failed FaultKind.NotConnected }
        ensures links { SameLinks self.old.streams self.new.streams }
        ensures moment { self.new.moment ≡ self.old.moment }
    {
        let answer = self.streams.write(link, piece);
        self.faults = after_write(self.faults, answer);
        answer
    }

    fn close(&mut self, link: u32)
        ensures tells { Adds None None (Call.Close link) }
        ensures later { self.old.faults ≤ self.new.faults }

        ensures links { ChangesLink self.old.streams self.new.streams link false }
        ensures moment { self.new.moment ≡ self.old.moment }
    {
        self.streams.close(link);
    }

    /// Milliseconds of the monotonic clock since the world was made. It never goes back, and stands while the clock
    /// can't be read.
    fn now(&mut self) -> u64
        ensures tells { Adds None None (Call.Now result) }
        ensures later { self.old.faults ≤ self.new.faults }

        ensures later_moment { self.old.moment ≤ result }
        ensures moment { self.new.moment ≡ result }
        ensures links { SameLinks self.old.streams self.new.streams }
    {
        let since = reading(self.rt).saturating_sub(self.start).as_millis();
        self.moment = self.moment.max(u64::try_from(since).unwrap_or(u64::MAX));
        self.moment
    }

    /// Random bits of the system, and 0 where it has none.
    fn word(&mut self) -> u64
        ensures tells { Adds None None (Call.Word result) }
        ensures later { self.old.faults ≤ self.new.faults }

        ensures links { SameLinks self.old.streams self.new.streams }
        ensures moment { self.new.moment ≡ self.old.moment }
    {
        let mut bytes = [0u8; 8];
        match self.rt.fill_bytes(&mut bytes) {
            Ok(()) => u64::from_ne_bytes(bytes),
            Err(_) => 0,
        }
    }

    fn wait(&mut self, ms: u64)
        ensures tells { Adds None None (Call.Wait ms) }
        ensures later { self.old.faults ≤ self.new.faults }

        ensures links { SameLinks self.old.streams self.new.streams }
        ensures moment { self.new.moment ≡ self.old.moment }
    {
        thread::sleep(self.rt, Duration::from_millis(ms));
    }
}
