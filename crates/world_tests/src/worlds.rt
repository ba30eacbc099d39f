ghost use Rattle.std.specs.Prelude.{◌≡◌, true, IsErrOf};

use crate::given::{Answers, world};
use containers::{Bytes, Seq};
use outside::*;
use redis_error::FaultKind;
use std::alloc::{AllocError, Global};
use std::io;
use std::io::{ErrorKind, Read, Write};

/// A writer that takes nothing.
#[derive(Drop)]
struct Full;

impl Write for Full {
    fn write(&mut self, _piece: &[u8]) -> io::Result<usize> {
        Ok(0)
    }

    fn flush(&mut self) -> io::Result<()> {
        Ok(())
    }
}

/// A reader that fails.
#[derive(Drop)]
struct Broken;

impl Read for Broken {
    fn read(&mut self, _room: &mut [u8]) -> io::Result<usize> {
        Err(ErrorKind::TimedOut.into())
    }
}

/// A feed that has enough once it has five bytes or more.
#[derive(Drop)]
struct Five {
    bytes: Bytes,
}

impl Feed for Five {
    ghost use Rattle.std.specs.Prelude.{length, nat_lt};

    ghost kept = { λ f. f.bytes };

    ghost enough = { λ f. nat_lt 4 (length f.bytes) };

    ghost most = { λ _. 4 };

    fn push(&mut self, piece: &[u8]) -> Result<bool, AllocError> {
        self.bytes.extend_from_slice(piece)?;
        Ok(self.bytes.len() <= 4)
    }
}

/// A sure source gives no fault.
fn read_surely(alloc: Global, source: &mut SureSource, most: usize) -> Result<Bytes, ReadAllError>
    ensures { IsErrOf result ReadAllError.Fault → ⊥ }
{
    read_all(alloc, source, most)
}

/// A sure sink takes all.
fn write_surely(sink: &mut SureSink, bytes: &[u8]) -> bool
    ensures { result ≡ true }
{
    write_all(sink, bytes)
}

fn numbers(alloc: Global, number: Option<u64>) -> Result<Seq<u64>, AllocError> {
    let mut numbers = Seq::new(alloc);
    if let Some(number) = number {
        numbers.push(number)?;
    }
    Ok(numbers)
}

fn mem_source(alloc: Global, fails: Option<u64>) -> Result<MemSource, AllocError> {
    let bytes = Bytes::from_slice(alloc, b"hello world")?;
    Ok(MemSource::new(bytes, 4, numbers(alloc, fails)?))
}

/// Whether a source answers its next read so, with these four bytes in the room after it.
fn reads(source: &mut MemSource, room: &mut [u8; 8], got: Got, front: &[u8], faults: u64) -> bool {
    if source.read(room) != got {
        return false;
    }
    room[..4] == front[..] && source.faults() == faults
}

/// What each read of `hello world` gives where the second is to fail, the four bytes in the room, and the faults so far.
const READS: [(Got, &[u8], u64); 5] = [
    (Got::Read(4), b"hell", 0),
    (Got::Failed, b"hell", 1),
    (Got::Read(4), b"o wo", 1),
    (Got::Read(3), b"rldo", 1),
    (Got::End, b"rldo", 1),
];

/// Whether the reads of a source give that.
fn gives_all(source: &mut MemSource) -> bool {
    let mut room = [0u8; 8];
    for (got, front, faults) in READS {
        if !reads(source, &mut room, got, front, faults) {
            return false;
        }
    }
    true
}

#[test]
fn a_source_gives_its_bytes_in_order_and_fails_where_it_is_to(
    rt: HostRuntime,
) -> Result<(), AllocError> {
    let mut source = mem_source(rt.alloc(), Some(1))?;
    let is_given = gives_all(&mut source);
    drop(source);
    assert!(rt; is_given);
    Ok(())
}

/// Whether what was read is this.
fn is(read: Result<Bytes, ReadAllError>, wanted: Result<&[u8], ReadAllError>) -> bool {
    match (read, wanted) {
        (Ok(bytes), Ok(text)) => bytes.as_slice() == text,
        (Err(error), Err(other)) => error == other,
        _ => false,
    }
}

/// Whether a whole source, of which a read may fail, is read so.
fn is_read(
    alloc: Global,
    fails: Option<u64>,
    most: usize,
    wanted: Result<&[u8], ReadAllError>,
) -> Result<bool, AllocError> {
    let mut source = mem_source(alloc, fails)?;
    Ok(is(read_all(alloc, &mut source, most), wanted))
}

#[test]
fn a_whole_source_is_read_unless_it_fails_or_is_too_long(
    rt: HostRuntime,
) -> Result<(), AllocError> {
    for (fails, most, wanted) in [
        (None, 11, Ok(b"hello world".as_slice())),
        (None, 10, Err(ReadAllError::TooLong)),
        (Some(1), 11, Err(ReadAllError::Fault)),
    ] {
        assert!(rt; is_read(rt.alloc(), fails, most, wanted)?);
    }
    Ok(())
}

/// Whether a feed that has enough ends the reading of `hello world`.
fn ends_early(alloc: Global) -> Result<bool, AllocError> {
    let mut source = mem_source(alloc, None)?;
    let mut feed = Five {
        bytes: Bytes::new(alloc),
    };
    let fed = feed_all(alloc, &mut source, &mut feed);
    Ok(fed == Ok(Fed::Enough) && feed.bytes.as_slice() == b"hello wo".as_slice())
}

#[test]
fn a_feed_ends_the_reading_when_it_has_enough(rt: HostRuntime) -> Result<(), AllocError> {
    assert!(rt; ends_early(rt.alloc())?);
    Ok(())
}

/// Whether a sink of which a write may fail takes so much of `abcdefgh`.
fn takes(
    alloc: Global,
    fails: Option<u64>,
    done: bool,
    held: &[u8],
    faults: u64,
) -> Result<bool, AllocError> {
    let mut sink = MemSink::new(alloc, 3, numbers(alloc, fails)?);
    let all = write_all(&mut sink, b"abcdefgh");
    Ok(all == done && sink.as_slice() == held && sink.faults() == faults)
}

#[test]
fn a_sink_takes_bytes_until_a_write_fails(rt: HostRuntime) -> Result<(), AllocError> {
    assert!(rt; takes(rt.alloc(), Some(2), false, b"abcdef", 1)?);
    assert!(rt; takes(rt.alloc(), None, true, b"abcdefgh", 0)?);
    Ok(())
}

/// Whether a sure source gives all its bytes.
fn gives_surely(alloc: Global) -> Result<bool, AllocError> {
    let mut source = SureSource::new(Bytes::from_slice(alloc, b"hello world")?);
    let read = read_surely(alloc, &mut source, 11);
    Ok(is(read, Ok(b"hello world".as_slice())) && source.faults() == 0)
}

#[test]
fn sure_ends_never_fail(rt: HostRuntime) -> Result<(), AllocError> {
    assert!(rt; gives_surely(rt.alloc())?);
    let mut sink = SureSink::new();
    assert!(rt; write_surely(&mut sink, b"abc"));
    assert!(rt; sink.faults() == 0);
    Ok(())
}

/// Whether a reader of std is a source.
fn reader_gives(alloc: Global) -> bool {
    let mut source = StdSource::new(b"hello world".as_slice());
    is(
        read_all(alloc, &mut source, 11),
        Ok(b"hello world".as_slice()),
    )
}

/// Whether a reader that fails is a source that fails.
fn reader_fails() -> bool {
    let mut broken = StdSource::new(Broken);
    broken.read(&mut [0u8; 4]) == Got::Failed && broken.faults() == 1
}

/// Whether a writer of std is a sink.
fn writer_takes(alloc: Global) -> bool {
    let mut held = Vec::new(alloc);
    let all = write_all(&mut StdSink::new(&mut held), b"abc");
    all && held.as_slice() == b"abc".as_slice()
}

/// Whether a writer that takes nothing is a sink that fails.
fn writer_fails() -> bool {
    let mut full = StdSink::new(Full);
    full.write(b"abc") == Put::Failed && full.faults() == 1
}

#[test]
fn readers_and_writers_of_std_are_ends(rt: HostRuntime) {
    assert!(rt; reader_gives(rt.alloc()));
    assert!(rt; reader_fails());
    assert!(rt; writer_takes(rt.alloc()));
    assert!(rt; writer_fails());
}

#[test]
fn the_program_has_its_own_ends(rt: HostRuntime) {
    assert!(rt; standard_input(&rt).faults() == 0);
    assert!(rt; write_all(&mut standard_output(&rt), b"written\n"));
}

const CUT: LinkPut = LinkPut::Failed(FaultKind::Reset);

/// What the world answers that is tried.
const ANSWERS: Answers = Answers {
    dials: &[Dialed::Yes],
    reads: &[LinkGot::Read(9), LinkGot::NotYet, LinkGot::Ended],
    incoming: b"+OK",
    writes: &[LinkPut::Took(2), CUT],
    moments: &[5],
    words: &[7],
};

fn dials<W: World>(world: &mut W, wanted: Dialed) -> bool {
    world.dial(0, "localhost", 6379) == wanted
}

/// Whether a read answers so, and leaves the bytes that came in the room.
fn got<W: World>(world: &mut W, room: &mut [u8; 4], wanted: LinkGot) -> bool {
    world.read(0, room) == wanted && room[..3] == b"+OK"[..]
}

/// Whether the moment, the word and the faults are these.
fn tells<W: World>(world: &mut W, moment: u64, word: u64) -> bool {
    world.now() == moment && world.word() == word && world.faults() == 2
}

/// What the reads of the script and one more give.
const GOT: [LinkGot; 4] = [
    LinkGot::Read(3),
    LinkGot::NotYet,
    LinkGot::Ended,
    LinkGot::NotYet,
];

/// Makes nine calls; whether a world answers them by its script.
fn answers<W: World>(world: &mut W) -> bool {
    if !dials(world, Dialed::Yes) || !dials(world, Dialed::Failed(FaultKind::Refused)) {
        return false;
    }
    let mut room = [0u8; 4];
    for wanted in GOT {
        if !got(world, &mut room, wanted) {
            return false;
        }
    }
    for wanted in [LinkPut::Took(2), CUT, LinkPut::NotYet] {
        if world.write(0, b"PING") != wanted {
            return false;
        }
    }
    true
}

/// Makes the calls that no answer is checked of, and tells whether there were so many in all and no read is left.
fn has_calls(world: &mut MemWorld, count: usize) -> bool {
    world.close(0);
    world.wait(10);
    world.script().reads.is_empty() && world.calls().map(|calls| calls.len()) == Some(count)
}

/// Whether a world answers by its script, and tells fifteen calls in all.
fn is_by_script(world: &mut MemWorld) -> bool {
    answers(world) && tells(world, 5, 7) && tells(world, 0, 0) && has_calls(world, 15)
}

#[test]
fn a_world_in_memory_answers_by_its_script(rt: HostRuntime) -> Result<(), AllocError> {
    let mut world = world(rt.alloc(), &ANSWERS)?;
    let is_as_told = is_by_script(&mut world);
    drop(world);
    assert!(rt; is_as_told);
    Ok(())
}
