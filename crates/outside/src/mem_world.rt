ghost use Rattle.std.specs.Prelude.{◌≡◌, ◌<◌, ◌≤◌, ◌++◌, [], Some, length, min, option_map};
ghost use Rattle.outside.specs.Ends.{Rose};
ghost use Rattle.outside.specs.World.{Adds, DialFailed, GotFailed, LinkGotWithin, LinkPutWithin, PutFailed, link_given};
ghost use Rattle.outside.specs.MemWorld.{calls_told, rest_of, script_of, world_faults};
ghost use Rattle.outside.specs.MemWorld.{dial_answer, number_answer, read_answer, read_some, write_answer};
ghost use Rattle.outside.specs.MemWorld.{dial_answered, moment_told, read_answered, word_told, write_answered};

use crate::call_log::CallLog;
use crate::fault_count::{after_dial, after_read, after_write};
use crate::world::{Call, Dialed, LinkGot, LinkPut, World};
use containers::{Bytes, Queue};
use redis_error::FaultKind;
use std::alloc::Global;

/// What a world in memory is to answer, each kind of call by its own list. A list that is used up answers `Refused` to
/// dials, `NotYet` to reads and writes, and 0.
#[derive(Drop)]
pub struct WorldScript {
    pub dials: Queue<Dialed>,
    /// `Read(n)` gives at most n of the bytes that are to come.
    pub reads: Queue<LinkGot>,
    /// The bytes that are to come.
    pub incoming: Bytes,
    /// `Took(n)` takes at most n bytes.
    pub writes: Queue<LinkPut>,
    pub moments: Queue<u64>,
    pub words: Queue<u64>,
}

impl WorldScript {
    /// All lists empty.
    pub fn new(alloc: Global) -> WorldScript
        ensures dials { result.dials ≡ [] }
        ensures reads { result.reads ≡ [] }
        ensures incoming { result.incoming ≡ [] }
        ensures writes { result.writes ≡ [] }
        ensures moments { result.moments ≡ [] }
        ensures words { result.words ≡ [] }
    {
        WorldScript {
            dials: Queue::new(alloc),
            reads: Queue::new(alloc),
            incoming: Bytes::new(alloc),
            writes: Queue::new(alloc),
            moments: Queue::new(alloc),
            words: Queue::new(alloc),
        }
    }
}

fn next_dial(dials: &mut Queue<Dialed>) -> Dialed
    ensures answer { result ≡ dial_answer dials.old }
    ensures rest { dials.new ≡ rest_of dials.old }
{
    match dials.pop_front() {
        Some(answer) => answer,
        None => Dialed::Failed(FaultKind::Refused),
    }
}

fn next_number(numbers: &mut Queue<u64>) -> u64
    ensures answer { result ≡ number_answer numbers.old }
    ensures rest { numbers.new ≡ rest_of numbers.old }
{
    match numbers.pop_front() {
        Some(answer) => answer,
        None => 0,
    }
}

fn next_write(writes: &mut Queue<LinkPut>, len: usize) -> LinkPut
    ensures answer { result ≡ write_answer writes.old len }
    ensures rest { writes.new ≡ rest_of writes.old }
{
    match writes.pop_front() {
        Some(LinkPut::Took(most)) => match most.min(len) {
            0 => LinkPut::NotYet,
            count => LinkPut::Took(count),
        },
        Some(answer) => answer,
        None => LinkPut::NotYet,
    }
}

/// Moves bytes that are to come into a room.
fn give(incoming: &mut Bytes, most: usize, room: &mut [u8]) -> LinkGot
    ensures answer { result ≡ read_some (min (min most (length room.old)) (length incoming.old)) }
    ensures given { link_given room.new result ++ incoming.new ≡ incoming.old }
{
    let count = most.min(room.len()).min(incoming.len());
    if count == 0 {
        return LinkGot::NotYet;
    }
    room[..count].copy_from_slice(&incoming.as_slice()[..count]);
    incoming.drop_front(count);
    LinkGot::Read(count)
}

fn next_read(reads: &mut Queue<LinkGot>, incoming: &mut Bytes, room: &mut [u8]) -> LinkGot
    ensures answer { result ≡ read_answer reads.old (length incoming.old) (length room.old) }
    ensures rest { reads.new ≡ rest_of reads.old }
    ensures given { link_given room.new result ++ incoming.new ≡ incoming.old }
{
    match reads.pop_front() {
        Some(LinkGot::Read(most)) => give(incoming, most, room),
        Some(answer) => answer,
        None => LinkGot::NotYet,
    }
}

/// The bytes that a read gave.
fn given(room: &[u8], answer: LinkGot) -> &[u8]
    requires { LinkGotWithin (length room.now) answer }
    ensures { result.now ≡ link_given room.now answer }
{
    match answer {
        LinkGot::Read(count) => &room[..count],
        LinkGot::NotYet | LinkGot::Ended | LinkGot::Failed(_) => &[],
    }
}

/// A world in memory, which answers by a script. It tells its calls as long as there is memory for them.
#[derive(Drop)]
pub struct MemWorld {
    alloc: Global,
    script: WorldScript,
    log: CallLog,
    faults: u64,
}

impl MemWorld {
    /// A world that has had no calls.
    pub fn new(alloc: Global, script: WorldScript) -> MemWorld
        ensures script { script_of result ≡ script }
        ensures told { calls_told result ≡ Some [] }
        ensures faults { world_faults result ≡ 0 }
    {
        MemWorld {
            alloc,
            script,
            log: CallLog::new(alloc),
            faults: 0,
        }
    }

    /// What it is still to answer.
    pub fn script(&self) -> &WorldScript
        ensures { result.now ≡ script_of self.now }
    {
        &self.script
    }

    /// All calls so far, if it tells them.
    pub fn calls(&self) -> Option<&[Call]>
        ensures { option_map (λ calls. calls.now) result ≡ calls_told self.now }
    {
        match &self.log.calls {
            Some(calls) => Some(calls.as_slice()),
            None => None,
        }
    }
}

impl World for MemWorld {
    ghost told = { λ w. calls_told w };

    ghost fault_count = { λ w. world_faults w };

    fn faults(&self) -> u64 {
        self.faults
    }

    fn dial(&mut self, link: u32, host: &str, port: u16) -> Dialed
        ensures tells { Adds (calls_told self.old) (calls_told self.new)
            (Call.Dial link host.now port result) }
        ensures later { world_faults self.old ≤ world_faults self.new }
        ensures cause { DialFailed result → Rose (world_faults self.old) (world_faults self.new) }

        ensures answer { result ≡ dial_answer (script_of self.old).dials }
        ensures script { script_of self.new ≡ dial_answered (script_of self.old) }
    {
        let answer = next_dial(&mut self.script.dials);
        self.faults = after_dial(self.faults, answer);
        self.log.note_dial(self.alloc, link, host, port, answer);
        answer
    }

    fn read(&mut self, link: u32, room: &mut [u8]) -> LinkGot
        requires { 0 < length room.old }
        ensures within { LinkGotWithin (length room.old) result }
        ensures tells { Adds (calls_told self.old) (calls_told self.new)
            (Call.Read link (length room.old) result (link_given room.new result)) }
        ensures later { world_faults self.old ≤ world_faults self.new }
        ensures cause { GotFailed result → Rose (world_faults self.old) (world_faults self.new) }

        ensures answer { result
            ≡ read_answer (script_of self.old).reads (length (script_of self.old).incoming)
            (length room.old) }
        ensures given { link_given room.new result ++ (script_of self.new).incoming
            ≡ (script_of self.old).incoming }
        ensures script { script_of self.new
            ≡ read_answered (script_of self.old) (script_of self.new).incoming }
    {
        let answer = next_read(&mut self.script.reads, &mut self.script.incoming, room);
        self.faults = after_read(self.faults, answer);
        self.log
            .note_read(self.alloc, link, room.len(), answer, given(room, answer));
        answer
    }

    fn write(&mut self, link: u32, piece: &[u8]) -> LinkPut
        requires { 0 < length piece.now }
        ensures within { LinkPutWithin (length piece.now) result }
        ensures tells { Adds (calls_told self.old) (calls_told self.new)
            (Call.Write link piece.now result) }
        ensures later { world_faults self.old ≤ world_faults self.new }
        ensures cause { PutFailed result → Rose (world_faults self.old) (world_faults self.new) }

        ensures answer { result ≡ write_answer (script_of self.old).writes (length piece.now) }
        ensures script { script_of self.new ≡ write_answered (script_of self.old) }
    {
        let answer = next_write(&mut self.script.writes, piece.len());
        self.faults = after_write(self.faults, answer);
        self.log.note_write(self.alloc, link, piece, answer);
        answer
    }

    fn close(&mut self, link: u32)
        ensures tells { Adds (calls_told self.old) (calls_told self.new) (Call.Close link) }
        ensures later { world_faults self.old ≤ world_faults self.new }

        ensures script { script_of self.new ≡ script_of self.old }
    {
        self.log.note(Call::Close { link });
    }

    fn now(&mut self) -> u64
        ensures tells { Adds (calls_told self.old) (calls_told self.new) (Call.Now result) }
        ensures later { world_faults self.old ≤ world_faults self.new }

        ensures answer { result ≡ number_answer (script_of self.old).moments }
        ensures script { script_of self.new ≡ moment_told (script_of self.old) }
    {
        let answer = next_number(&mut self.script.moments);
        self.log.note(Call::Now { answer });
        answer
    }

    fn word(&mut self) -> u64
        ensures tells { Adds (calls_told self.old) (calls_told self.new) (Call.Word result) }
        ensures later { world_faults self.old ≤ world_faults self.new }

        ensures answer { result ≡ number_answer (script_of self.old).words }
        ensures script { script_of self.new ≡ word_told (script_of self.old) }
    {
        let answer = next_number(&mut self.script.words);
        self.log.note(Call::Word { answer });
        answer
    }

    fn wait(&mut self, ms: u64)
        ensures tells { Adds (calls_told self.old) (calls_told self.new) (Call.Wait ms) }
        ensures later { world_faults self.old ≤ world_faults self.new }

        ensures script { script_of self.new ≡ script_of self.old }
    {
        self.log.note(Call::Wait { ms });
    }
}
