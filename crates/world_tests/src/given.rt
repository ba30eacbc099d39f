use containers::{Bytes, Queue, Seq};
use outside::{Dialed, LinkGot, LinkPut, MemSource, MemWorld, WorldScript};
use std::alloc::{AllocError, Global};

/// What a world answers: its dials, reads and writes, the bytes that come, its moments and its words.
#[derive(Clone, Copy)]
pub struct Answers {
    pub dials: &'static [Dialed],
    pub reads: &'static [LinkGot],
    pub incoming: &'static [u8],
    pub writes: &'static [LinkPut],
    pub moments: &'static [u64],
    pub words: &'static [u64],
}

/// A world that connects, and says nothing more.
pub const SILENT: Answers = Answers {
    dials: &[Dialed::Yes],
    reads: &[],
    incoming: b"",
    writes: &[],
    moments: &[],
    words: &[],
};

fn fill<T: Copy + Drop>(queue: &mut Queue<T>, items: &[T]) -> Result<(), AllocError> {
    for item in items {
        queue.push_back(*item)?;
    }
    Ok(())
}

fn fill_script(script: &mut WorldScript, answers: &Answers) -> Result<(), AllocError> {
    fill(&mut script.dials, answers.dials)?;
    fill(&mut script.reads, answers.reads)?;
    fill(&mut script.writes, answers.writes)?;
    fill(&mut script.moments, answers.moments)?;
    fill(&mut script.words, answers.words)?;
    script.incoming.extend_from_slice(answers.incoming)
}

pub fn world(alloc: Global, answers: &Answers) -> Result<MemWorld, AllocError> {
    let mut script = WorldScript::new(alloc);
    fill_script(&mut script, answers)?;
    Ok(MemWorld::new(alloc, script))
}

/// A source of these lines, which gives a thousand bytes at a time.
pub fn source(alloc: Global, lines: &[u8]) -> Result<MemSource, AllocError> {
    let text = Bytes::from_slice(alloc, lines)?;
    Ok(MemSource::new(text, 1000, Seq::new(alloc)))
}
