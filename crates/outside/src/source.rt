ghost use Rattle.std.specs.Prelude.{◌≡◌, ◌<◌, ◌≤◌, ℕ, List, Option, length};
ghost use Rattle.outside.specs.Ends.{Rose, Gave, GotWithin, IsAtEnd, given};

/// What a read gave.
#[derive(Clone, Copy, Debug, PartialEq, Eq)]
pub enum Got {
    /// So many bytes, at the front of the room.
    Read(usize),
    /// Nothing is left.
    End,
    /// Nothing, since the source failed.
    Failed,
}

/// Where bytes come from. A source tells what it has left, or tells nothing.
pub trait Source {
    // The bytes that it has left, where it tells.
    ghost left: { Self → Option (List ℕ) };

    // How often it has failed.
    ghost fault_count: { Self → ℕ };

    /// How often it has failed. At the end of its type the count stands.
    fn faults(&self) -> u64
        ensures { result ≡ fault_count self.now };

    /// Reads once, into the front of a room that isn't empty.
    fn read(&mut self, room: &mut [u8]) -> Got
        requires { 0 < length room.old }
        ensures within { GotWithin (length room.old) result }
        ensures gives { Gave (left self.old) (left self.new) (given room.new result) }
        ensures ends { result ≡ Got.End → IsAtEnd (left self.new) }
        ensures later { fault_count self.old ≤ fault_count self.new }
        ensures cause { result ≡ Got.Failed
            → Rose (fault_count self.old) (fault_count self.new) };
}
