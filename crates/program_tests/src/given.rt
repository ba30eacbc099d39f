use containers::{Bytes, Seq};
use outside::{MemSink, MemSource};
use session_program::run_alone;
use std::alloc::{AllocError, Global};

pub fn strings(alloc: Global, words: &[&str]) -> Result<Vec<String>, AllocError> {
    let mut all = Vec::new(alloc);
    for word in words {
        all.push(String::from_str(alloc, word)?)?;
    }
    Ok(all)
}

fn numbers(alloc: Global, number: Option<u64>) -> Result<Seq<u64>, AllocError> {
    let mut all = Seq::new(alloc);
    if let Some(number) = number {
        all.push(number)?;
    }
    Ok(all)
}

/// A source of this text, of which ten bytes are read at a time, and this read fails, counted from 0.
pub fn source(alloc: Global, text: &[u8], read: Option<u64>) -> Result<MemSource, AllocError> {
    let text = Bytes::from_slice(alloc, text)?;
    Ok(MemSource::new(text, 10, numbers(alloc, read)?))
}

/// A sink that takes twenty bytes at a time, of which this write fails, counted from 0.
pub fn sink(alloc: Global, write: Option<u64>) -> Result<MemSink, AllocError> {
    Ok(MemSink::new(alloc, 20, numbers(alloc, write)?))
}

/// The status of a run of these words.
pub fn status(
    alloc: Global,
    words: &[&str],
    source: &mut MemSource,
    sink: &mut MemSink,
    notes: &mut MemSink,
) -> Result<u8, AllocError> {
    let words = strings(alloc, words)?;
    let status = run_alone(alloc, words.as_slice(), source, sink, notes);
    Ok(status.number())
}

/// The status of a replay of a text that comes in pieces of this size.
pub fn replayed(
    alloc: Global,
    text: Bytes,
    size: usize,
    sink: &mut MemSink,
    notes: &mut MemSink,
) -> Result<u8, AllocError> {
    let mut source = MemSource::new(text, size, Seq::new(alloc));
    status(alloc, &["replay"], &mut source, sink, notes)
}
