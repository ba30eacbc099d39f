ghost use Rattle.std.specs.Prelude.{◌≡◌, ◌≤◌, [], true, false, codes, OnOk, IsErrOf};
ghost use Rattle.outside.specs.Ends.{Rose, Gained, GainedPart};
ghost use Rattle.program_ends.specs.Lines.{numbered_line};
ghost use Rattle.program_ends.specs.Prints.{Prints};
ghost use Rattle.program_ends.specs.Sides.{side};

use crate::lines::push_line;
use crate::status::Status;
use containers::Bytes;
use outside::{Sink, write_all};
use std::alloc::{AllocError, Global};

/// Why a line was not written.
#[derive(Clone, Copy, Debug, PartialEq, Eq)]
pub enum PutError {
    NoMemory,
    /// The sink failed.
    WriteFault,
}

impl From<AllocError> for PutError {
    ghost use Rattle.std.specs.Prelude.{◌≡◌};
    ghost use Rattle.program_ends.specs.declared.printing.PutError.TheVariants.{NoMemory};

    ghost from_gives = { λ _ e. e ≡ NoMemory };

    fn from(_error: AllocError) -> Self {
        PutError::NoMemory
    }
}

/// Writes a text. `false`: the sink failed.
pub fn put<K: Sink>(text: &Bytes, sink: &mut K) -> bool
    ensures all { result ≡ true → Gained (K.held sink.old) (K.held sink.new) text.now }
    ensures part { GainedPart (K.held sink.old) (K.held sink.new) text.now }
    ensures later { K.fault_count sink.old ≤ K.fault_count sink.new }
    ensures cause { result ≡ false → Rose (K.fault_count sink.old) (K.fault_count sink.new) }
{
    write_all(sink, text.as_slice())
}

/// Writes a line, and ends with this status, or for the sink's fault.
pub fn print<K: Sink>(line: &[u8], its: Status, sink: &mut K) -> Status
    ensures { Prints its line.now result
        (side (K.held sink.old) (K.fault_count sink.old))
        (side (K.held sink.new) (K.fault_count sink.new)) }
{
    if write_all(sink, line) {
        its
    } else {
        Status::WriteFault
    }
}

/// Writes the line of a script that is at fault.
pub fn refuse_script<K: Sink>(alloc: Global, line: u32, sink: &mut K) -> Result<(), PutError>
    ensures told { OnOk result (
        Gained (K.held sink.old) (K.held sink.new) (numbered_line (codes "script line") line)
        ) }
    ensures none { IsErrOf result PutError.NoMemory
        → Gained (K.held sink.old) (K.held sink.new) [] }
    ensures cut { IsErrOf result PutError.WriteFault
        → GainedPart (K.held sink.old) (K.held sink.new)
        (numbered_line (codes "script line") line) }
    ensures cause { IsErrOf result PutError.WriteFault
        → Rose (K.fault_count sink.old) (K.fault_count sink.new) }
{
    let mut text = Bytes::new(alloc);
    push_line(alloc, &mut text, b"script line", u64::from(line))?;
    if put(&text, sink) {
        Ok(())
    } else {
        Err(PutError::WriteFault)
    }
}
