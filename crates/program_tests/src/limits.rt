use crate::given::replayed;
use containers::{Bytes, Seq};
use outside::{MemSink, MemSource};
use session_program::read_text;
use std::alloc::{AllocError, Global};
use std::test::Fail;

/// A script of so many shutdowns, and of lines of bytes, `longs` of them as long as `long`, and one as long as `last`.
#[derive(Clone, Copy)]
struct Large {
    shutdowns: u32,
    longs: u32,
    long: u32,
    last: u32,
}

/// A line of bytes of this length, its LF not counted.
fn bytes_line(alloc: Global, length: u32) -> Result<Bytes, AllocError> {
    let mut line = Bytes::from_slice(alloc, b"bytes 0 ")?;
    for _ in 8..length {
        line.push(b'a')?;
    }
    line.push(b'\n')?;
    Ok(line)
}

fn text_of(alloc: Global, large: Large) -> Result<Bytes, AllocError> {
    let mut text = Bytes::from_slice(
        alloc,
        b"config single url=redis://h:6379 connect=none response=none lib=off\n",
    )?;
    for _ in 0..large.shutdowns {
        text.extend_from_slice(b"shutdown\n")?;
    }
    let long = bytes_line(alloc, large.long)?;
    for _ in 0..large.longs {
        text.extend_from_slice(long.as_slice())?;
    }
    let last = bytes_line(alloc, large.last)?;
    text.extend_from_slice(last.as_slice())?;
    text.extend_from_slice(b"end\n")?;
    Ok(text)
}

/// How many bytes at a time come of a script.
const PIECE: usize = 4_093;

/// How many bytes are kept of a script.
fn kept(alloc: Global, large: Large) -> Result<usize, AllocError> {
    let mut source = MemSource::new(text_of(alloc, large)?, PIECE, Seq::new(alloc));
    match read_text(alloc, &mut source) {
        Ok(intake) => Ok(intake.text().len()),
        Err(_) => Err(AllocError),
    }
}

/// The status of a replay of a script.
fn status(alloc: Global, large: Large, sink: &mut MemSink) -> Result<u8, AllocError> {
    let mut notes = MemSink::new(alloc, 65_536, Seq::new(alloc));
    replayed(alloc, text_of(alloc, large)?, PIECE, sink, &mut notes)
}

/// Scripts at a limit: 1,000,000 lines, a line of 1,048,576 bytes, and 67,108,864 bytes in all.
const AT_A_LIMIT: [Large; 3] = [
    Large {
        shutdowns: 999_997,
        longs: 0,
        long: 8,
        last: 9,
    },
    Large {
        shutdowns: 0,
        longs: 0,
        long: 8,
        last: 1_048_576,
    },
    Large {
        shutdowns: 0,
        longs: 63,
        long: 1_048_575,
        last: 1_048_503,
    },
];

#[test]
fn a_script_may_be_as_large_as_its_limits(rt: HostRuntime) -> Result<(), Fail> {
    for large in AT_A_LIMIT {
        let mut sink = MemSink::new(rt.alloc(), 65_536, Seq::new(rt.alloc()));
        assert_eq!(rt; status(rt.alloc(), large, &mut sink)?, 0);
    }
    Ok(())
}

/// Scripts one past a limit, the lines at which they are refused, and how many of their bytes are kept.
const PAST_A_LIMIT: [(Large, &[u8], usize); 3] = [
    (
        Large {
            shutdowns: 999_998,
            longs: 0,
            long: 8,
            last: 9,
        },
        b"script line 1000001\n",
        9_000_061,
    ),
    (
        Large {
            shutdowns: 0,
            longs: 0,
            long: 8,
            last: 1_048_577,
        },
        b"script line 2\n",
        1_048_645,
    ),
    (
        Large {
            shutdowns: 0,
            longs: 63,
            long: 1_048_575,
            last: 1_048_504,
        },
        b"script line 66\n",
        67_108_865,
    ),
];

/// Whether a script is refused with this line, and so many of its bytes are kept.
fn is_refused(alloc: Global, row: &(Large, &[u8], usize)) -> Result<bool, AllocError> {
    let mut sink = MemSink::new(alloc, 65_536, Seq::new(alloc));
    let is_told = status(alloc, row.0, &mut sink)? == 2 && sink.as_slice() == row.1;
    Ok(is_told && kept(alloc, row.0)? == row.2)
}

#[test]
fn a_script_past_a_limit_is_refused_at_its_line(rt: HostRuntime) -> Result<(), Fail> {
    for row in &PAST_A_LIMIT {
        assert!(rt; is_refused(rt.alloc(), row)?);
    }
    Ok(())
}
