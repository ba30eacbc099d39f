use crate::given::strings;
use containers::{Bytes, Seq};
use live_lines::{live, plan_of};
use outside::{Dialed, LinkGot, LinkPut, MemSink, MemWorld};
use redis_error::FaultKind;
use std::alloc::{AllocError, Global};
use std::sync::Wait;
use std::thread::Threads;
use world_tests::given::{Answers, source, world};

const USAGE: &[u8] = b"usage\n";

/// Two requests.
const LINES: &[u8] = b"submit cmd GET a\nsubmit cmd GET b\nend\n";

const URL: &str = "url=redis://h:6379";

/// How many callers words set, 0 where they are no plan.
fn callers(alloc: Global, words: &[&str]) -> Result<u32, AllocError> {
    let words = strings(alloc, words)?;
    match plan_of(alloc, words.as_slice())? {
        Some(plan) => Ok(plan.callers),
        None => Ok(0),
    }
}

/// Words, and how many callers they set, 0 where they are no plan.
const PLANS: [(&[&str], u32); 10] = [
    (&["single", URL], 1),
    (&["callers=8", "single", URL, "lib=off"], 8),
    (&["callers=9", "single", URL], 0),
    (&["callers=08", "single", URL], 0),
    (&["callers=2", "callers=2", "single", URL], 0),
    (&["callers=2"], 0),
    (&[], 0),
    (&["pubsub", URL], 1),
    (&["callers=2", "monitor", URL, "lib=off"], 2),
    (&["pubsub", URL, "creds=on"], 0),
];

#[test]
fn words_are_plans(rt: HostRuntime) -> Result<(), AllocError> {
    for row in &PLANS {
        assert!(rt; callers(rt.alloc(), row.0)? == row.1);
    }
    Ok(())
}

/// The status of a live run of these words and lines over that world. Its output goes to `sink`.
fn run<R: Threads + Wait + Sync>(
    rt: &R,
    alloc: Global,
    words: &[&str],
    lines: &[u8],
    world: &mut MemWorld,
    sink: &mut MemSink,
) -> Result<u8, AllocError> {
    let words = strings(alloc, words)?;
    let mut source = source(alloc, lines)?;
    let status = live(rt, alloc, words.as_slice(), USAGE, &mut source, sink, world);
    Ok(status.number())
}

/// Whether a live run has this status and writes this text.
fn gives<R: Threads + Wait + Sync>(
    rt: &R,
    alloc: Global,
    words: &[&str],
    lines: &[u8],
    answers: &Answers,
    wanted: (u8, &[u8]),
) -> Result<bool, AllocError> {
    let mut world = world(alloc, answers)?;
    let mut sink = MemSink::new(alloc, 1000, Seq::new(alloc));
    let status = run(rt, alloc, words, lines, &mut world, &mut sink)?;
    Ok(status == wanted.0 && sink.as_slice() == wanted.1)
}

/// Words of a plan of one caller, and of three.
const ONE: &[&str] = &[
    "callers=1",
    "single",
    URL,
    "connect=none",
    "response=none",
    "lib=off",
];

const THREE: &[&str] = &[
    "callers=3",
    "single",
    URL,
    "connect=none",
    "response=none",
    "lib=off",
];

/// Whatever is offered is taken.
const ALL: &[LinkPut] = &[LinkPut::Took(1000); 8];

const LATE: &[LinkGot] = &[
    LinkGot::NotYet,
    LinkGot::NotYet,
    LinkGot::NotYet,
    LinkGot::Read(1000),
];

/// Both requests are answered late.
const BOTH: Answers = Answers {
    dials: &[Dialed::Yes],
    reads: LATE,
    incoming: b"+x\r\n+y\r\n",
    writes: ALL,
    moments: &[],
    words: &[],
};

/// How the world answers, and the lines that are written then.
const WORLDS: [(Answers, &[u8]); 5] = [
    (BOTH, b"outcome s0 ok +x%0D%0A\noutcome s1 ok +y%0D%0A\n"),
    (
        Answers {
            dials: &[Dialed::Failed(FaultKind::Refused)],
            ..BOTH
        },
        b"outcome s0 err io refused\noutcome s1 err io refused\n",
    ),
    (
        Answers {
            writes: &[LinkPut::Failed(FaultKind::BrokenPipe); 8],
            ..BOTH
        },
        b"outcome s0 err io broken-pipe\noutcome s1 err closed\n",
    ),
    (
        Answers {
            reads: &[LinkGot::NotYet, LinkGot::Read(4), LinkGot::Ended],
            ..BOTH
        },
        b"outcome s0 ok +x%0D%0A\noutcome s1 err closed\n",
    ),
    (
        Answers {
            reads: &[],
            writes: &[],
            ..BOTH
        },
        b"outcome s0 err closed\noutcome s1 err closed\n",
    ),
];

#[test]
fn each_world_gives_its_outcomes(rt: HostRuntime) -> Result<(), AllocError> {
    for row in &WORLDS {
        assert!(rt; gives(&rt, rt.alloc(), ONE, LINES, &row.0, (0, row.1))?);
    }
    Ok(())
}

/// Words and lines that are refused, the status, and the line of their refusal.
const FAULTS: [(&[&str], &[u8], u8, &[u8]); 13] = [
    (THREE, b"submit cmd GET a\n", 2, b"script line 2\n"),
    (
        THREE,
        b"submit cmd GET a\nconnected 0\nend\n",
        2,
        b"script line 2\n",
    ),
    (THREE, b"end\nsubmit cmd GET a\n", 2, b"script line 2\n"),
    (THREE, b"", 2, b"script line 1\n"),
    (&["callers=9", "single", URL], LINES, 1, USAGE),
    (
        &["pubsub", URL, "lib=off"],
        b"submit ping\nsubmit cmd GET a\nend\n",
        2,
        b"script line 2\n",
    ),
    (
        &["monitor", URL, "lib=off"],
        b"submit ping\nend\n",
        2,
        b"script line 1\n",
    ),
    (
        &["single", URL, "creds=on", "lib=off", "connect=none"],
        LINES,
        3,
        b"config creds\n",
    ),
    (
        &["single", URL, "lib=off", "creds=on", "limit=0"],
        LINES,
        3,
        b"config limit\n",
    ),
    (
        &["single", URL, "creds=on", "creds=on", "lib=off"],
        LINES,
        1,
        USAGE,
    ),
    (
        &["single", URL, "creds=yes", "lib=off", "connect=none"],
        LINES,
        1,
        USAGE,
    ),
    (
        &["manager", URL, "lib=off", "base=2/0"],
        LINES,
        3,
        b"config base\n",
    ),
    (&["lazy", URL, "creds=on"], LINES, 3, b"config creds\n"),
];

#[test]
fn what_is_refused_is_told(rt: HostRuntime) -> Result<(), AllocError> {
    for row in &FAULTS {
        assert!(rt; gives(&rt, rt.alloc(), row.0, row.1, &BOTH, (row.2, row.3))?);
    }
    Ok(())
}

/// So many lines of a MiB each, and the last one.
fn long_lines(alloc: Global, count: u32) -> Result<Bytes, AllocError> {
    let mut line = Bytes::from_slice(alloc, b"submit cmd ")?;
    for _ in 11..1_048_575u32 {
        line.push(b'a')?;
    }
    line.push(b'\n')?;
    let mut text = Bytes::new(alloc);
    for _ in 0..count {
        text.extend_from_slice(line.as_slice())?;
    }
    text.extend_from_slice(b"end\n")?;
    Ok(text)
}

#[test]
fn more_bytes_than_lines_may_have_are_refused_at_their_line(
    rt: HostRuntime,
) -> Result<(), AllocError> {
    for count in [64, 129] {
        let text = long_lines(rt.alloc(), count)?;
        let wanted = b"script line 65\n".as_slice();
        assert!(rt; gives(&rt, rt.alloc(), ONE, text.as_slice(), &BOTH, (2, wanted))?);
    }
    Ok(())
}

#[test]
fn a_link_of_publish_and_subscribe_is_pinged(rt: HostRuntime) -> Result<(), AllocError> {
    let words = ["pubsub", URL, "lib=off"];
    let lines = b"submit ping\nsubmit ping a\nend\n".as_slice();
    let wanted = b"outcome s0 ok +x%0D%0A\noutcome s1 ok +y%0D%0A\n".as_slice();
    assert!(rt; gives(&rt, rt.alloc(), &words, lines, &BOTH, (0, wanted))?);
    Ok(())
}

#[test]
fn a_session_that_comes_back_is_answered(rt: HostRuntime) -> Result<(), AllocError> {
    for kind in ["manager", "lazy"] {
        let words = [kind, URL, "response=none", "lib=off", "connect=none"];
        let wanted = b"outcome s0 ok +x%0D%0A\noutcome s1 ok +y%0D%0A\n".as_slice();
        assert!(rt; gives(&rt, rt.alloc(), &words, LINES, &BOTH, (0, wanted))?);
    }
    Ok(())
}

#[test]
fn no_credentials_are_no_refusal(rt: HostRuntime) -> Result<(), AllocError> {
    let words = [
        "single",
        URL,
        "response=none",
        "lib=off",
        "connect=none",
        "creds=off",
    ];
    let wanted = b"outcome s0 ok +x%0D%0A\noutcome s1 ok +y%0D%0A\n".as_slice();
    assert!(rt; gives(&rt, rt.alloc(), &words, LINES, &BOTH, (0, wanted))?);
    Ok(())
}
