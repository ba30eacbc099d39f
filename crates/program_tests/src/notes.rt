use crate::given::{replayed, sink, source, status};
use containers::{Bytes, Seq};
use outside::MemSink;
use std::alloc::{AllocError, Global};
use std::test::Fail;

const CONFIG: &[u8] = b"config single url=redis://h:6379 connect=none response=none lib=off\n";

/// A script with a line of so many bytes, its LF not counted.
fn script(alloc: Global, length: u32) -> Result<Bytes, AllocError> {
    let mut text = Bytes::from_slice(alloc, CONFIG)?;
    for _ in 0..length {
        text.push(b'a')?;
    }
    text.extend_from_slice(b"\nend\n")?;
    Ok(text)
}

/// The status of a replay of such a script. Its notes take twenty bytes at a time.
fn noted(alloc: Global, length: u32, notes: &mut MemSink) -> Result<u8, AllocError> {
    let text = script(alloc, length)?;
    let mut sink = MemSink::new(alloc, 65_536, Seq::new(alloc));
    replayed(alloc, text, 4_093, &mut sink, notes)
}

/// Lines of `a` alone, by their lengths, and the notes on them.
const LONG: [(u32, &[u8]); 3] = [
    (
        60,
        b"line 2: aaaaaaaaaaaaaaaaaaaaaaaaaaaaaaaaaaaaaaaaaaaaaaaaaaaaaaaaaaaa: an event is submit, cancel, connected, refused, wrote, bytes, ended, read-fault, write-fault, fired, creds, creds-err, creds-end, timeout, drop-stream or shutdown, and the last line is end\n",
    ),
    (
        61,
        b"line 2: ..aaaaaaaaaaaaaaaaaaaaaaaaaaaaaaaaaaaaaaaaaaaaaaaaaaaaaaaaaaaa: an event is submit, cancel, connected, refused, wrote, bytes, ended, read-fault, write-fault, fired, creds, creds-err, creds-end, timeout, drop-stream or shutdown, and the last line is end\n",
    ),
    (
        1_048_577,
        b"line 2: ..aaaaaaaaaaaaaaaaaaaaaaaaaaaaaaaaaaaaaaaaaaaaaaaaaaaaaaaaaaaa: a line has at most 1048576 bytes, its LF not counted\n",
    ),
];

#[test]
fn a_long_line_is_cut_in_its_note(rt: HostRuntime) -> Result<(), Fail> {
    for (length, note) in LONG {
        let mut notes = sink(rt.alloc(), None)?;
        assert_eq!(rt; noted(rt.alloc(), length, &mut notes)?, 2);
        assert_eq!(rt; notes.as_slice(), note);
    }
    Ok(())
}

/// Words, a read, a write and a write of a note that fail, the status, and what the notes hold.
type Failing = (
    &'static str,
    Option<u64>,
    Option<u64>,
    Option<u64>,
    u8,
    &'static [u8],
);

const FAILING: [Failing; 8] = [
    (
        "live",
        None,
        None,
        None,
        1,
        b"the words are replay, gen N, live CONFIG, --help or --version, and N is a number from 1 to 200000\n",
    ),
    ("--help", None, None, None, 0, b""),
    ("--version", None, None, None, 0, b""),
    (
        "replay",
        Some(0),
        None,
        None,
        6,
        b"standard input could not be read to its end\n",
    ),
    (
        "replay",
        None,
        Some(0),
        None,
        7,
        b"standard output took no more: what it has is a front of the output\n",
    ),
    ("replay", None, None, Some(0), 2, b""),
    ("replay", None, None, Some(1), 2, b"line 1: end: the fir"),
    ("gen", None, None, Some(0), 1, b""),
];

/// Whether a run over a script that is at fault has this status and this note.
fn is_noted(alloc: Global, row: &Failing) -> Result<bool, AllocError> {
    let (word, read, write, noting, wanted, note) = *row;
    let mut source = source(alloc, b"end\n", read)?;
    let mut output = sink(alloc, write)?;
    let mut notes = sink(alloc, noting)?;
    let answered = status(alloc, &[word], &mut source, &mut output, &mut notes)?;
    Ok(answered == wanted && notes.as_slice() == note)
}

#[test]
fn each_status_has_its_note(rt: HostRuntime) -> Result<(), Fail> {
    for row in &FAILING {
        assert!(rt; is_noted(rt.alloc(), row)?);
    }
    Ok(())
}
