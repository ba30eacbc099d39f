ghost use Rattle.std.specs.Prelude.{◌≡◌};

use crate::sink::{Put, Sink};
use crate::source::{Got, Source};
use std::io;
use std::io::{Input, Print, Printer, Read, Write};

/// A source over a reader of std: each read reads it once. It tells what the reader tells, which for standard input is
/// nothing.
#[derive(Drop)]
pub struct StdSource<R> {
    reader: R,
    faults: u64,
}

impl<R: Read> StdSource<R> {
    /// A source over this reader. It has not failed yet.
    pub fn new(reader: R) -> StdSource<R>
        ensures left { ⟦<StdSource<R> as Source>⟧.left result ≡ R.remaining reader }
        ensures faults { ⟦<StdSource<R> as Source>⟧.fault_count result ≡ 0 }
    {
        StdSource { reader, faults: 0 }
    }
}

impl<R: Read> Source for StdSource<R> {
    ghost left = { λ s. R.remaining s.reader };

    ghost fault_count = { λ s. s.faults };

    fn faults(&self) -> u64 {
        self.faults
    }

    fn read(&mut self, room: &mut [u8]) -> Got {
        match self.reader.read(room) {
            Ok(0) => Got::End,
            Ok(count) => Got::Read(count),
            Err(_) => {
                self.faults = self.faults.saturating_add(1);
                Got::Failed
            }
        }
    }
}

/// A sink over a writer of std: each write writes to it once, and a write of no bytes is a fault. It tells what the
/// writer tells, which for standard output is nothing.
#[derive(Drop)]
pub struct StdSink<W> {
    writer: W,
    faults: u64,
}

impl<W: Write> StdSink<W> {
    /// A sink over this writer. It has not failed yet.
    pub fn new(writer: W) -> StdSink<W>
        ensures held { ⟦<StdSink<W> as Sink>⟧.held result ≡ W.contents writer }
        ensures faults { ⟦<StdSink<W> as Sink>⟧.fault_count result ≡ 0 }
    {
        StdSink { writer, faults: 0 }
    }
}

impl<W: Write> Sink for StdSink<W> {
    ghost held = { λ s. W.contents s.writer };

    ghost fault_count = { λ s. s.faults };

    fn faults(&self) -> u64 {
        self.faults
    }

    fn write(&mut self, piece: &[u8]) -> Put {
        match self.writer.write(piece) {
            Ok(0) | Err(_) => {
                self.faults = self.faults.saturating_add(1);
                Put::Failed
            }
            Ok(count) => Put::Took(count),
        }
    }
}

/// The runtime's standard input, as a source.
pub fn standard_input<R: Input>(rt: &R) -> StdSource<R::Reader>
    ensures { ⟦<StdSource<R::Reader> as Source>⟧.fault_count result ≡ 0 }
{
    StdSource::new(rt.reader())
}

/// The runtime's standard output, as a sink. Nothing is kept back in a buffer.
pub fn standard_output<'a, P: Print>(rt: &'a P) -> StdSink<Printer<'a, P>>
    ensures { ⟦<StdSink<Printer<'a, P>> as Sink>⟧.fault_count result ≡ 0 }
{
    StdSink::new(io::writer(rt))
}
