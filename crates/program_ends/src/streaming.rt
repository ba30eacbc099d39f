ghost use Rattle.std.specs.Prelude.{◌≡◌, ◌≤◌, true, false};
ghost use Rattle.outside.specs.Ends.{Rose, GainedPart};
ghost use Rattle.program_ends.specs.Streaming.{Sent};

use containers::Bytes;
use outside::{Sink, write_all};

/// From how many bytes on a text is written.
const LARGE: usize = 65_536;

/// Writes a text that is large, and empties it. `false`: the sink failed.
pub fn write_large<K: Sink>(sink: &mut K, text: &mut Bytes) -> bool
    ensures sent { result ≡ true → Sent (K.held sink.old) (K.held sink.new) text.new text.old }
    ensures part { result ≡ false → GainedPart (K.held sink.old) (K.held sink.new) text.old }
    ensures later { K.fault_count sink.old ≤ K.fault_count sink.new }
    ensures cause { result ≡ false → Rose (K.fault_count sink.old) (K.fault_count sink.new) }
{
    if text.len() < LARGE {
        return true;
    }
    if !write_all(sink, text.as_slice()) {
        return false;
    }
    text.clear();
    true
}
