ghost use Rattle.std.specs.Prelude.{◌≡◌, ◌⊎◌, ℕ, List, Some};
ghost use Rattle.session_program.specs.Runs.{IsSoundScript};
ghost use Rattle.session_program.specs.Words.{command_of};

use crate::given::{sink, source, status, strings};
use crate::rows::{
    ANSWERED, BAD_EVENT, CANCELLED, EMPTY_COMMAND, NO_ADDRESS, OPENING, Row, SHUT_DOWN, WITHOUT_END,
};
use containers::Bytes;
use outside::{MemWorld, Source, SureSink, SureSource, WorldScript};
use program_ends::Status;
use session_program::{Command, help_text, run, run_alone};
use std::alloc::{AllocError, Global};
use std::test::Fail;

/// Whether a run of these words has this status, and its sink holds this then. A read and a write may fail.
fn gives(
    alloc: Global,
    words: &[&str],
    script: &[u8],
    faults: (Option<u64>, Option<u64>),
    wanted: (u8, &[u8]),
) -> Result<bool, AllocError> {
    let mut source = source(alloc, script, faults.0)?;
    let mut output = sink(alloc, faults.1)?;
    let mut notes = sink(alloc, None)?;
    let answered = status(alloc, words, &mut source, &mut output, &mut notes)?;
    Ok(answered == wanted.0 && output.as_slice() == wanted.1)
}

/// A run over a source and a sink that never fail. The replay of a script of which nothing is refused, without a bad event
/// or a spent step, ends well, or for want of memory.
fn run_surely(
    alloc: Global,
    words: &[String],
    source: &mut SureSource,
    sink: &mut SureSink,
) -> Status
    ensures { command_of words.now ≡ Command.Replay → (bytes : List ℕ)
        → ⟦<SureSource as Source>⟧.left source.old ≡ Some bytes → IsSoundScript bytes
        → (result ≡ Status.Done) ⊎ (result ≡ Status.NoMemory) }
{
    let mut notes = SureSink::new();
    run_alone(alloc, words, source, sink, &mut notes)
}

#[test]
fn ends_that_never_fail_end_no_run(rt: HostRuntime) -> Result<(), Fail> {
    for row in [OPENING, ANSWERED, CANCELLED, EMPTY_COMMAND, SHUT_DOWN] {
        let words = strings(rt.alloc(), &["replay"])?;
        let mut source = SureSource::new(Bytes::from_slice(rt.alloc(), row.script)?);
        let mut sink = SureSink::new();
        let status = run_surely(rt.alloc(), words.as_slice(), &mut source, &mut sink);
        assert_eq!(rt; status.number(), 0);
    }
    Ok(())
}

#[test]
fn scripts_are_replayed(rt: HostRuntime) -> Result<(), Fail> {
    for row in [
        OPENING,
        ANSWERED,
        CANCELLED,
        BAD_EVENT,
        WITHOUT_END,
        EMPTY_COMMAND,
        SHUT_DOWN,
        NO_ADDRESS,
    ] {
        let wanted = (row.status, row.output);
        assert!(rt; gives(rt.alloc(), &["replay"], row.script, (None, None), wanted)?);
    }
    Ok(())
}

/// A script, its read and its write that fail, counted from 0, the status, and what the sink holds then.
type Failing = (Row, Option<u64>, Option<u64>, u8, &'static [u8]);

const FAILING: [Failing; 7] = [
    (ANSWERED, Some(0), None, 6, b"read fault\n"),
    (ANSWERED, Some(1), None, 6, b"read fault\n"),
    (
        ANSWERED,
        None,
        Some(2),
        7,
        b"turn 0 config single url=redis://h:6379 ",
    ),
    (ANSWERED, None, Some(0), 7, b""),
    (ANSWERED, Some(1), Some(0), 7, b""),
    (WITHOUT_END, None, Some(0), 7, b""),
    (BAD_EVENT, None, Some(0), 7, b""),
];

#[test]
fn ends_may_fail(rt: HostRuntime) -> Result<(), Fail> {
    for (row, read, write, status, output) in FAILING {
        let wanted = (status, output);
        assert!(rt; gives(rt.alloc(), &["replay"], row.script, (read, write), wanted)?);
    }
    Ok(())
}

#[test]
fn a_refusal_is_written_or_the_sink_failed(rt: HostRuntime) -> Result<(), Fail> {
    let wanted = (7, b"".as_slice());
    assert!(rt;
        gives(
            rt.alloc(),
            &["replay"],
            NO_ADDRESS.script,
            (None, Some(0)),
            wanted
        )?
    );
    Ok(())
}

#[test]
fn words_are_commands(rt: HostRuntime) -> Result<(), Fail> {
    let usage = b"usage: session_tool replay or gen N or live CONFIG\n".as_slice();
    let cases: [(&[&str], u8, &[u8]); 12] = [
        (&[], 1, usage),
        (&["gen"], 1, usage),
        (&["gen", "0"], 1, usage),
        (&["gen", "200001"], 1, usage),
        (&["gen", "x"], 1, usage),
        (&["gen", "01"], 1, usage),
        (&["gen", "1", "1"], 1, usage),
        (&["live"], 1, usage),
        (&["replay", "replay"], 1, usage),
        (&["Replay"], 1, usage),
        (&["--help"], 0, help_text()),
        (&["--version"], 0, b"session_tool 0.1.0\n"),
    ];
    for (words, status, output) in cases {
        assert!(rt; gives(rt.alloc(), words, b"", (None, None), (status, output))?);
    }
    Ok(())
}

/// A number of rounds, the write that fails, counted from 0, the status, and what the sink holds then.
type Made = (&'static str, Option<u64>, u8, &'static [u8]);

const MADE: [Made; 4] = [
    (
        "1",
        None,
        0,
        b"turns 6 starts 1 items 1 outcomes 1 cancelled 0\n",
    ),
    (
        "16",
        None,
        0,
        b"turns 52 starts 16 items 16 outcomes 15 cancelled 1\n",
    ),
    ("16", Some(1), 7, b"turns 52 starts 16 i"),
    ("1", Some(0), 7, b""),
];

#[test]
fn scripts_are_made(rt: HostRuntime) -> Result<(), Fail> {
    for (rounds, write, status, output) in MADE {
        assert!(rt;
            gives(
                rt.alloc(),
                &["gen", rounds],
                b"",
                (Some(0), write),
                (status, output)
            )?
        );
    }
    Ok(())
}

#[test]
fn a_run_does_what_one_alone_does(rt: HostRuntime) -> Result<(), Fail> {
    let alloc = rt.alloc();
    let words = strings(alloc, &["replay"])?;
    let mut source = source(alloc, ANSWERED.script, None)?;
    let mut sink = sink(alloc, None)?;
    let mut notes = SureSink::new();
    let mut world = MemWorld::new(alloc, WorldScript::new(alloc));
    let status = run(
        &rt,
        alloc,
        words.as_slice(),
        &mut source,
        &mut sink,
        &mut notes,
        &mut world,
    );
    assert_eq!(rt; status.number(), 0);
    assert_eq!(rt; sink.as_slice(), ANSWERED.output);
    Ok(())
}
