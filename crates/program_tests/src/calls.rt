ghost use Rattle.outside.specs.Memory.{held_bytes, read_faults, unread, write_faults};
ghost use Rattle.std.specs.Prelude.{Some};

use crate::given::{sink, source, strings};
use crate::rows::ANSWERED;
use outside::{Got, MemSink, MemSource, Put, Sink, Source, SureSink};
use program_ends::Status;
use session_program::run_alone;
use std::alloc::{AllocError, Global};
use std::process::ExitCode;
use std::test::Fail;

/// A source in memory that counts its reads.
#[derive(Drop)]
struct CountedSource {
    source: MemSource,
    reads: u64,
}

impl Source for CountedSource {
    ghost left = { λ s. Some (unread s.source) };

    ghost fault_count = { λ s. read_faults s.source };

    fn faults(&self) -> u64 {
        self.source.faults()
    }

    fn read(&mut self, room: &mut [u8]) -> Got {
        self.reads = self.reads.saturating_add(1);
        self.source.read(room)
    }
}

/// A sink in memory that counts its writes.
#[derive(Drop)]
struct CountedSink {
    sink: MemSink,
    writes: u64,
}

impl Sink for CountedSink {
    ghost held = { λ s. Some (held_bytes s.sink) };

    ghost fault_count = { λ s. write_faults s.sink };

    fn faults(&self) -> u64 {
        self.sink.faults()
    }

    fn write(&mut self, piece: &[u8]) -> Put {
        self.writes = self.writes.saturating_add(1);
        self.sink.write(piece)
    }
}

/// A read and a write that fail, counted from 0, and the status, the reads and the writes of a replay then. Ten bytes are
/// read at a time, and twenty written.
type Counted = (Option<u64>, Option<u64>, Status, u64, u64);

/// The script of an answered request has 129 bytes: thirteen reads, and one more meets its end.
const COUNTED: [Counted; 6] = [
    (Some(0), None, Status::ReadFault, 1, 1),
    (Some(1), None, Status::ReadFault, 2, 1),
    (Some(13), None, Status::ReadFault, 14, 1),
    (None, Some(0), Status::WriteFault, 14, 1),
    (None, Some(2), Status::WriteFault, 14, 3),
    (Some(1), Some(0), Status::WriteFault, 2, 1),
];

/// The status of a replay of the script, and how many reads and writes it made.
fn calls(
    alloc: Global,
    read: Option<u64>,
    write: Option<u64>,
) -> Result<(Status, u64, u64), AllocError> {
    let words = strings(alloc, &["replay"])?;
    let mut source = CountedSource {
        source: source(alloc, ANSWERED.script, read)?,
        reads: 0,
    };
    let mut sink = CountedSink {
        sink: sink(alloc, write)?,
        writes: 0,
    };
    let mut notes = SureSink::new();
    let status = run_alone(alloc, words.as_slice(), &mut source, &mut sink, &mut notes);
    Ok((status, source.reads, sink.writes))
}

#[test]
fn no_call_comes_after_one_that_failed(rt: HostRuntime) -> Result<(), Fail> {
    for (read, write, status, reads, writes) in COUNTED {
        let (answered, read_calls, write_calls) = calls(rt.alloc(), read, write)?;
        assert_eq!(rt; answered, status);
        assert_eq!(rt; read_calls, reads);
        assert_eq!(rt; write_calls, writes);
    }
    Ok(())
}

const NUMBERS: [(Status, u8); 9] = [
    (Status::Done, 0),
    (Status::Usage, 1),
    (Status::Script, 2),
    (Status::Config, 3),
    (Status::BadEvent, 4),
    (Status::NoMemory, 5),
    (Status::ReadFault, 6),
    (Status::WriteFault, 7),
    (Status::Spent, 8),
];

#[test]
fn each_status_has_its_number(rt: HostRuntime) -> Result<(), Fail> {
    for (status, number) in NUMBERS {
        assert_eq!(rt; status.number(), number);
        assert_eq!(rt; status.code(), ExitCode::from(number));
    }
    Ok(())
}
