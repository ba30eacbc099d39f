ghost use Rattle.std.specs.Prelude.{◌≡◌, ◌≤◌, ◌++◌, min, length, take};

use containers::Bytes;
use std::marker::Model;

/// Bytes that are still to be read. Contracts see the list of them.
#[derive(Drop)]
pub(crate) struct Unread {
    bytes: Bytes,
    at: usize,
    ghost within: { at ≤ length bytes },
}

impl Model for Unread {
    ghost use Rattle.std.specs.Prelude.{List, ℕ, drop};

    ghost Value = { List ℕ };

    ghost view = { λ u. drop u.at u.bytes };
}

impl Unread {
    pub(crate) fn new(bytes: Bytes) -> Unread
        ensures { result ≡ bytes }
    {
        Unread { bytes, at: 0 }
    }

    /// Takes bytes off the front, into the front of a room: as many as there are, as the room has and as `most` says.
    pub(crate) fn read(&mut self, most: usize, room: &mut [u8]) -> usize
        ensures count { result ≡ min (min (length self.old) (length room.old)) most }
        ensures taken { take result room.new ++ self.new ≡ self.old }
    {
        let left = &self.bytes.as_slice()[self.at..];
        let count = left.len().min(room.len()).min(most);
        room[..count].copy_from_slice(&left[..count]);
        self.at += count;
        count
    }
}
