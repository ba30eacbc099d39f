ghost use Rattle.std.specs.Prelude.{◌≡◌, ◌<◌, ◌≤◌, ◌++◌, ◌-◌, ℕ, Bool, List, length, not, true, false};
ghost use Rattle.std.specs.Prelude.{Some, None, Ok, OnOk, IfOk, IsErrOf};
ghost use Rattle.outside.specs.Ends.{Rose, GaveSome, IsAtEnd};
ghost use Rattle.outside.specs.Feeding.{Passed, has_enough, is_enough};

use crate::source::{Got, Source};
use containers::Bytes;
use std::alloc::{AllocError, Global};

/// How many bytes are read at a time.
const ROOM: usize = 65_536;

/// Takes bytes piece by piece, and says when it has enough.
pub trait Feed {
    // The bytes that it has taken.
    ghost kept: { Self → List ℕ };

    // It has enough.
    ghost enough: { Self → Bool };

    // With more bytes than this it has enough.
    ghost most: { Self → ℕ };

    /// Takes a piece that isn't empty. `true`: it wants more. After an error nothing is known of what it has taken.
    fn push(&mut self, piece: &[u8]) -> Result<bool, AllocError>
        requires { 0 < length piece.now }
        ensures gains { OnOk result (kept self.new ≡ kept self.old ++ piece.now) }
        ensures answers { IfOk result (λ more. enough self.new ≡ not more) }
        ensures bounded { result ≡ Ok true → length (kept self.new) ≤ most self.new }
        ensures same { most self.new ≡ most self.old };
}

/// Why feeding ended well.
#[derive(Clone, Copy, Debug, PartialEq, Eq)]
pub enum Fed {
    /// The source ended.
    Ended,
    /// The feed has enough.
    Enough,
}

/// Why feeding failed.
#[derive(Clone, Copy, Debug, PartialEq, Eq)]
pub enum FeedError {
    /// The source failed.
    Fault,
    NoMemory,
}

impl From<AllocError> for FeedError {
    ghost use Rattle.std.specs.Prelude.{◌≡◌};
    ghost use Rattle.outside.specs.declared.feeding.FeedError.TheVariants.{NoMemory};

    ghost from_gives = { λ _ e. e ≡ NoMemory };

    fn from(_error: AllocError) -> Self {
        FeedError::NoMemory
    }
}

/// Where bytes are read into.
fn new_room(alloc: Global) -> Result<Vec<u8>, AllocError>
    ensures { IfOk result (λ room. length room.items ≡ ROOM) }
{
    vec![in alloc; 0u8; ROOM]
}

/// Reads once and hands on what was read. `None`: neither the source nor the feed is at its end.
fn feed_once<S: Source, F: Feed>(
    source: &mut S,
    feed: &mut F,
    room: &mut [u8],
) -> Result<Option<Fed>, FeedError>
    requires room { 0 < length room.old }
    requires wants { F.enough feed.old ≡ false }
    ensures fed { OnOk result
        (Passed (S.left source.old) (S.left source.new) (F.kept feed.old) (F.kept feed.new)) }
    ensures ended { result ≡ Ok (Some Fed.Ended) → IsAtEnd (S.left source.new) }
    ensures enough { IfOk result (λ fed. F.enough feed.new ≡ has_enough fed) }
    ensures falls { result ≡ Ok None
        → F.most feed.new - length (F.kept feed.new)
        < F.most feed.old - length (F.kept feed.old) }
    ensures same { F.most feed.new ≡ F.most feed.old }
    ensures rest { GaveSome (S.left source.old) (S.left source.new) }
    ensures later { S.fault_count source.old ≤ S.fault_count source.new }
    ensures cause { IsErrOf result FeedError.Fault
        → Rose (S.fault_count source.old) (S.fault_count source.new) }
{
    match source.read(room) {
        Got::Read(count) => {
            if feed.push(&room[..count])? {
                Ok(None)
            } else {
                Ok(Some(Fed::Enough))
            }
        }
        Got::End => Ok(Some(Fed::Ended)),
        Got::Failed => Err(FeedError::Fault),
    }
}

/// Reads a source to its end, or until the feed has enough.
pub fn feed_all<S: Source, F: Feed>(
    alloc: Global,
    source: &mut S,
    feed: &mut F,
) -> Result<Fed, FeedError>
    requires { F.enough feed.old ≡ false }
    ensures fed { OnOk result
        (Passed (S.left source.old) (S.left source.new) (F.kept feed.old) (F.kept feed.new)) }
    ensures ended { result ≡ Ok Fed.Ended → IsAtEnd (S.left source.new) }
    ensures enough { IfOk result (λ fed. F.enough feed.new ≡ is_enough fed) }
    ensures same { F.most feed.new ≡ F.most feed.old }
    ensures rest { GaveSome (S.left source.old) (S.left source.new) }
    ensures later { S.fault_count source.old ≤ S.fault_count source.new }
    ensures cause { IsErrOf result FeedError.Fault
        → Rose (S.fault_count source.old) (S.fault_count source.new) }
{
    let mut room = new_room(alloc)?;
    let room = room.as_mut_slice();
    'reads: loop {
        match feed_once(source, feed, room)? {
            Some(fed) => return Ok(fed),
            None => {}
        }
    }
}
