ghost use Rattle.std.specs.Prelude.{◌≡◌, ◌++◌, [], OnOk};
ghost use Rattle.trace_text.specs.Writer.{Added};

use containers::Bytes;
use std::alloc::AllocError;
use std::marker::Model;

/// A text whose last line is being written.
#[derive(Drop)]
pub struct Writer {
    text: Bytes,
    start: usize,
}

impl Model for Writer {
    ghost use Rattle.std.specs.Prelude.{◌≤◌, take, drop, length};
    ghost use Rattle.trace_text.specs.Writer.{Written};

    ghost Value = { Written };

    ghost view = { λ w. record { before = take w.start w.text; line = drop w.start w.text } };

    ghost invariant = { λ w. w.start ≤ length w.text };
}

impl Writer {
    /// A new line behind a text.
    pub fn new(text: Bytes) -> Writer
        ensures { result ≡ record { before = text; line = [] } }
    {
        let start = text.len();
        Writer { text, start }
    }

    /// The text with the line.
    pub fn finish(self) -> Bytes
        ensures { result ≡ self.before ++ self.line }
    {
        self.text
    }

    /// The text without the line.
    pub fn give_up(self) -> Bytes
        ensures { result ≡ self.before }
    {
        let mut text = self.text;
        text.truncate(self.start);
        text
    }

    /// Bytes of the line as they are.
    pub fn push(&mut self, bytes: &[u8]) -> Result<(), AllocError>
        ensures before { self.new.before ≡ self.old.before }
        ensures ok { OnOk result (Added self.old self.new bytes.now) }
    {
        self.text.extend_from_slice(bytes)
    }
}
