ghost use Rattle.std.specs.Prelude.{◌≡◌, ◌++◌, OnOk, IfOk};
ghost use Rattle.program_ends.specs.Sides.{side};
ghost use Rattle.live_lines.specs.Live.{Writes, refusal_line, refusal_status};

use crate::reading::Refusal;
use containers::Bytes;
use outside::Sink;
use program_ends::{READ_FAULT, Status, print, push_config_line, push_line};
use std::alloc::{AllocError, Global};

/// Appends the line that tells a refusal, where this one tells words that are no plan.
fn push_refusal(
    alloc: Global,
    line: &mut Bytes,
    refusal: Refusal,
    usage: &[u8],
) -> Result<(), AllocError>
    ensures { OnOk result (line.new ≡ line.old ++ refusal_line usage.now refusal) }
{
    match refusal {
        Refusal::Usage => line.extend_from_slice(usage),
        Refusal::Line(number) => push_line(alloc, line, b"script line", u64::from(number)),
        Refusal::Config(name) => push_config_line(alloc, line, name),
        Refusal::ReadFault => line.extend_from_slice(READ_FAULT),
        Refusal::NoMemory => Ok(()),
    }
}

/// The line that tells a refusal, where this one tells words that are no plan.
fn refusal_line(alloc: Global, refusal: Refusal, usage: &[u8]) -> Result<Bytes, AllocError>
    ensures { IfOk result (λ line. line ≡ refusal_line usage.now refusal) }
{
    let mut line = Bytes::new(alloc);
    push_refusal(alloc, &mut line, refusal, usage)?;
    Ok(line)
}

/// The status of a refusal.
fn refusal_status(refusal: Refusal) -> Status
    ensures { result ≡ refusal_status refusal }
{
    match refusal {
        Refusal::Usage => Status::Usage,
        Refusal::Line(_) => Status::Script,
        Refusal::Config(_) => Status::Config,
        Refusal::ReadFault => Status::ReadFault,
        Refusal::NoMemory => Status::NoMemory,
    }
}

/// Writes the line that tells why there was no live run, where `usage` tells words that are no plan, and ends with its
/// status.
pub fn refuse<K: Sink>(alloc: Global, refusal: Refusal, usage: &[u8], sink: &mut K) -> Status
    ensures { Writes (refusal_status refusal) (refusal_line usage.now refusal) result
        (side (K.held sink.old) (K.fault_count sink.old))
        (side (K.held sink.new) (K.fault_count sink.new)) }
{
    match refusal_line(alloc, refusal, usage) {
        Ok(line) => print(line.as_slice(), refusal_status(refusal), sink),
        Err(_) => Status::NoMemory,
    }
}
