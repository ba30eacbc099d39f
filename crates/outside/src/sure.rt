ghost use Rattle.std.specs.Prelude.{◌≡◌, Some, None};

use crate::sink::{Put, Sink};
use crate::source::{Got, Source};
use crate::unread::Unread;
use containers::Bytes;

/// A source in memory that never fails.
#[derive(Drop)]
pub struct SureSource {
    left: Unread,
}

impl SureSource {
    /// A source that has these bytes left.
    pub fn new(bytes: Bytes) -> SureSource
        ensures { ⟦<SureSource as Source>⟧.left result ≡ Some bytes }
    {
        SureSource {
            left: Unread::new(bytes),
        }
    }
}

impl Source for SureSource {
    ghost left = { λ s. Some s.left };

    ghost fault_count = { λ _. 0 };

    fn faults(&self) -> u64 {
        0
    }

    fn read(&mut self, room: &mut [u8]) -> Got {
        match self.left.read(usize::MAX, room) {
            0 => Got::End,
            count => Got::Read(count),
        }
    }
}

/// A sink that takes every piece whole, never fails, and tells nothing.
#[derive(Drop)]
pub struct SureSink {}

impl SureSink {
    /// A sink that has taken nothing yet.
    pub fn new() -> SureSink
        ensures { ⟦<SureSink as Sink>⟧.held result ≡ None }
    {
        SureSink {}
    }
}

impl Sink for SureSink {
    ghost held = { λ _. None };

    ghost fault_count = { λ _. 0 };

    fn faults(&self) -> u64 {
        0
    }

    fn write(&mut self, piece: &[u8]) -> Put {
        Put::Took(piece.len())
    }
}
