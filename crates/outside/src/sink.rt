ghost use Rattle.std.specs.Prelude.{◌≡◌, ◌<◌, ◌≤◌, ℕ, List, Option, length, true, false};
ghost use Rattle.outside.specs.Ends.{Rose, Gained, GainedPart, PutWithin, taken};

/// What a write took.
#[derive(Clone, Copy, Debug, PartialEq, Eq)]
pub enum Put {
    /// So many bytes from the front of the piece.
    Took(usize),
    /// Nothing, since the sink failed.
    Failed,
}

/// Where bytes go. A sink tells what it holds, or tells nothing.
pub trait Sink {
    // The bytes that it holds, where it tells.
    ghost held: { Self → Option (List ℕ) };

    // How often it has failed.
    ghost fault_count: { Self → ℕ };

    /// How often it has failed. At the end of its type the count stands.
    fn faults(&self) -> u64
        ensures { result ≡ fault_count self.now };

    /// Writes once, from the front of a piece that isn't empty.
    fn write(&mut self, piece: &[u8]) -> Put
        requires { 0 < length piece.now }
        ensures within { PutWithin (length piece.now) result }
        ensures takes { Gained (held self.old) (held self.new) (taken piece.now result) }
        ensures later { fault_count self.old ≤ fault_count self.new }
        ensures cause { result ≡ Put.Failed
            → Rose (fault_count self.old) (fault_count self.new) };
}

/// Writes all bytes, in as many writes as it takes. `false`: the sink failed, and took a part of them.
pub fn write_all<K: Sink>(sink: &mut K, bytes: &[u8]) -> bool
    ensures all { result ≡ true → Gained (K.held sink.old) (K.held sink.new) bytes.now }
    ensures part { GainedPart (K.held sink.old) (K.held sink.new) bytes.now }
    ensures later { K.fault_count sink.old ≤ K.fault_count sink.new }
    ensures cause { result ≡ false → Rose (K.fault_count sink.old) (K.fault_count sink.new) }
{
    let mut at = 0;
    while at < bytes.len() {
        match sink.write(&bytes[at..]) {
            Put::Took(count) => at += count,
            Put::Failed => return false,
        }
    }
    true
}
