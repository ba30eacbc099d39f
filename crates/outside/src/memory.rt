ghost use Rattle.std.specs.Prelude.{◌≡◌, ◌<◌, ◌≤◌, ◌+◌, ◌-◌, ◌^◌, ◌↔◌, [], min, max, length, Some, Contains};
ghost use Rattle.outside.specs.Ends.{Rose, Gave, Gained, GotWithin, IsAtEnd, PutWithin, given, taken};
ghost use Rattle.outside.specs.Memory.{failing_reads, most_given, read_faults, reads_done, unread};
ghost use Rattle.outside.specs.Memory.{failing_writes, held_bytes, most_taken, write_faults, writes_done};

use crate::sink::{Put, Sink};
use crate::source::{Got, Source};
use crate::unread::Unread;
use containers::{Bytes, Seq};
use std::alloc::Global;

/// A source in memory. Some of its reads fail, by their numbers, counted from 0.
#[derive(Drop)]
pub struct MemSource {
    left: Unread,
    most: usize,
    failing: Seq<u64>,
    reads: u64,
    faults: u64,
}

impl MemSource {
    /// A source of these bytes. A read gives `most` bytes at most (1 for 0).
    pub fn new(bytes: Bytes, most: usize, failing: Seq<u64>) -> MemSource
        ensures left { unread result ≡ bytes }
        ensures most { most_given result ≡ max most 1 }
        ensures done { reads_done result ≡ 0 }
        ensures failing { failing_reads result ≡ failing }
        ensures faults { read_faults result ≡ 0 }
    {
        MemSource {
            left: Unread::new(bytes),
            most,
            failing,
            reads: 0,
            faults: 0,
        }
    }
}

impl Source for MemSource {
    ghost left = { λ s. Some (unread s) };

    ghost fault_count = { λ s. read_faults s };

    fn faults(&self) -> u64 {
        self.faults
    }

    fn read(&mut self, room: &mut [u8]) -> Got
        requires { 0 < length room.old }
        ensures within { GotWithin (length room.old) result }
        ensures gives { Gave (Some (unread self.old)) (Some (unread self.new))
            (given room.new result) }
        ensures ends { result ≡ Got.End → IsAtEnd (Some (unread self.new)) }
        ensures later { read_faults self.old ≤ read_faults self.new }
        ensures cause { result ≡ Got.Failed
            → Rose (read_faults self.old) (read_faults self.new) }

        // It fails exactly at the reads that are to fail.
        ensures fails { (result ≡ Got.Failed)
            ↔ Contains (failing_reads self.old) (reads_done self.old) }
        ensures most { GotWithin (most_given self.old) result }
        ensures done { reads_done self.new ≡ min (reads_done self.old + 1) (2 ^ 64 - 1) }
        ensures failing { failing_reads self.new ≡ failing_reads self.old }
        ensures same { most_given self.new ≡ most_given self.old }
    {
        let fails = self.failing.as_slice().contains(&self.reads);
        self.reads = self.reads.saturating_add(1);
        if fails {
            self.faults = self.faults.saturating_add(1);
            return Got::Failed;
        }
        match self.left.read(self.most.max(1), room) {
            0 => Got::End,
            count => Got::Read(count),
        }
    }
}

/// A sink in memory. Some of its writes fail, by their numbers, counted from 0, and each for which memory is refused.
#[derive(Drop)]
pub struct MemSink {
    held: Bytes,
    most: usize,
    failing: Seq<u64>,
    writes: u64,
    faults: u64,
}

impl MemSink {
    /// A sink that holds nothing. A write takes `most` bytes at most (1 for 0).
    pub fn new(alloc: Global, most: usize, failing: Seq<u64>) -> MemSink
        ensures held { held_bytes result ≡ [] }
        ensures most { most_taken result ≡ max most 1 }
        ensures done { writes_done result ≡ 0 }
        ensures failing { failing_writes result ≡ failing }
        ensures faults { write_faults result ≡ 0 }
    {
        MemSink {
            held: Bytes::new(alloc),
            most,
            failing,
            writes: 0,
            faults: 0,
        }
    }

    /// What it holds.
    pub fn as_slice(&self) -> &[u8]
        ensures { result.now ≡ held_bytes self.now }
    {
        self.held.as_slice()
    }

    fn fail(&mut self) -> Put
        ensures failed { result ≡ Put.Failed }
        ensures held { self.new.held ≡ self.old.held }
        ensures most { self.new.most ≡ self.old.most }
        ensures failing { self.new.failing ≡ self.old.failing }
        ensures writes { self.new.writes ≡ self.old.writes }
        ensures later { self.old.faults ≤ self.new.faults }
        ensures rose { Rose self.old.faults self.new.faults }
    {
        self.faults = self.faults.saturating_add(1);
        Put::Failed
    }
}

impl Sink for MemSink {
    ghost held = { λ s. Some (held_bytes s) };

    ghost fault_count = { λ s. write_faults s };

    fn faults(&self) -> u64 {
        self.faults
    }

    fn write(&mut self, piece: &[u8]) -> Put
        requires { 0 < length piece.now }
        ensures within { PutWithin (length piece.now) result }
        ensures takes { Gained (Some (held_bytes self.old)) (Some (held_bytes self.new))
            (taken piece.now result) }
        ensures later { write_faults self.old ≤ write_faults self.new }
        ensures cause { result ≡ Put.Failed
            → Rose (write_faults self.old) (write_faults self.new) }

        // It fails at the writes that are to fail.
        ensures fails { Contains (failing_writes self.old) (writes_done self.old)
            → result ≡ Put.Failed }
        ensures most { PutWithin (most_taken self.old) result }
        ensures done { writes_done self.new ≡ min (writes_done self.old + 1) (2 ^ 64 - 1) }
        ensures failing { failing_writes self.new ≡ failing_writes self.old }
        ensures same { most_taken self.new ≡ most_taken self.old }
    {
        let fails = self.failing.as_slice().contains(&self.writes);
        self.writes = self.writes.saturating_add(1);
        if fails {
            return self.fail();
        }
        let count = piece.len().min(self.most.max(1));
        match self.held.extend_from_slice(&piece[..count]) {
            Ok(()) => Put::Took(count),
            Err(_) => self.fail(),
        }
    }
}
