ghost use Rattle.std.specs.Prelude.{◌≡◌, ◌≤◌, length, nat_lt, OnOk, IfOk, IsErrOf};
ghost use Rattle.outside.specs.Ends.{Rose, Gave, GaveSome, IsAtEnd};
ghost use Rattle.outside.specs.Feeding.{HasMore};

use crate::feeding::{Fed, Feed, FeedError, feed_all};
use crate::source::Source;
use containers::Bytes;
use std::alloc::{AllocError, Global};

/// Why a source was not read to its end.
#[derive(Clone, Copy, Debug, PartialEq, Eq)]
pub enum ReadAllError {
    /// The source failed.
    Fault,
    /// The source has more bytes than are wanted.
    TooLong,
    NoMemory,
}

/// All bytes of a source, up to a limit.
#[derive(Drop)]
struct Whole {
    bytes: Bytes,
    most: usize,
}

impl Feed for Whole {
    ghost kept = { λ w. w.bytes };

    ghost enough = { λ w. nat_lt w.most (length w.bytes) };

    ghost most = { λ w. w.most };

    fn push(&mut self, piece: &[u8]) -> Result<bool, AllocError> {
        self.bytes.extend_from_slice(piece)?;
        Ok(self.bytes.len() <= self.most)
    }
}

/// All bytes of a source that has no more than `most`.
pub fn read_all<S: Source>(
    alloc: Global,
    source: &mut S,
    most: usize,
) -> Result<Bytes, ReadAllError>
    ensures all { IfOk result (Gave (S.left source.old) (S.left source.new)) }
    ensures ended { OnOk result (IsAtEnd (S.left source.new)) }
    ensures within { IfOk result (λ bytes. length bytes ≤ most) }
    ensures long { IsErrOf result ReadAllError.TooLong → HasMore most (S.left source.old) }
    ensures rest { GaveSome (S.left source.old) (S.left source.new) }
    ensures later { S.fault_count source.old ≤ S.fault_count source.new }
    ensures cause { IsErrOf result ReadAllError.Fault
        → Rose (S.fault_count source.old) (S.fault_count source.new) }
{
    let mut whole = Whole {
        bytes: Bytes::new(alloc),
        most,
    };
    match feed_all(alloc, source, &mut whole) {
        Ok(Fed::Ended) => Ok(whole.bytes),
        Ok(Fed::Enough) => Err(ReadAllError::TooLong),
        Err(FeedError::Fault) => Err(ReadAllError::Fault),
        Err(FeedError::NoMemory) => Err(ReadAllError::NoMemory),
    }
}
