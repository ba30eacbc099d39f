ghost use Rattle.std.specs.Prelude.{◌≡◌, ◌∷◌, ◌++◌, [], OnOk, codes, decimal, true};
ghost use Rattle.std.specs.Str.{byte};
ghost use Rattle.percent_encoding.specs.Percent as percent;
ghost use Rattle.trace_text.specs.Plain.{is_literal};
ghost use Rattle.trace_text.specs.Show.{fraction_word};
ghost use Rattle.trace_text.specs.Words.{escaped, following, is_plain, is_separator};
ghost use Rattle.trace_text.specs.Writer.{Added, AddedEscaped, AddedWords};

use crate::writer::Writer;
use itoa::Buffer;
use percent_encoding::percent_encode_byte;
use std::alloc::AllocError;

/// Whether the byte stands for itself.
fn is_plain(byte: u8) -> bool
    ensures { result ≡ is_plain byte }
{
    0x20 < byte && byte < 0x7F && byte != b'%'
}

/// Whether the word is the one that separates commands.
fn is_separator(word: &[u8]) -> bool
    ensures { result ≡ is_separator word.now }
{
    word.len() == 1 && word[0] == b';'
}

impl Writer {
    /// Bytes that stand for themselves, and the escape of the one behind them.
    fn run_and_escape(&mut self, run: &[u8], byte: u8) -> Result<(), AllocError>
        ensures before { self.new.before ≡ self.old.before }
        ensures ok { OnOk result
            (Added self.old self.new (run.now ++ percent.percent_encode_byte byte)) }
    {
        self.push(run)?;
        self.push(percent_encode_byte(byte).as_bytes())
    }

    /// Bytes of a word, each as itself or as its escape.
    pub fn escaped_bytes(&mut self, bytes: &[u8]) -> Result<(), AllocError>
        ensures before { self.new.before ≡ self.old.before }
        ensures ok { OnOk result (AddedEscaped self.old self.new bytes.now) }
    {
        let mut start = 0;
        for (i, byte) in bytes.iter().enumerate() {
            if is_plain(*byte) {
                continue;
            }
            self.run_and_escape(&bytes[start..i], *byte)?;
            start = i + 1;
        }
        self.push(&bytes[start..])
    }

    #[tactic(auto, unfolding(crate::specs::Words::escaped))]
    fn escaped(&mut self, word: &[u8]) -> Result<(), AllocError>
        ensures before { self.new.before ≡ self.old.before }
        ensures ok { OnOk result (Added self.old self.new (escaped word.now)) }
    {
        if word.is_empty() {
            return self.push(b"%-");
        }
        if is_separator(word) {
            return self.push(b"%3B");
        }
        self.escaped_bytes(word)
    }

    /// The first word of the line, which is written as it is.
    #[tactic(auto, using(crate::proofs::Plain::escaped_literal))]
    pub fn first(&mut self, word: &[u8]) -> Result<(), AllocError>
        requires { is_literal word.now ≡ true }
        ensures before { self.new.before ≡ self.old.before }
        ensures ok { OnOk result (Added self.old self.new (escaped word.now)) }
    {
        self.push(word)
    }

    /// One more word.
    pub fn word(&mut self, word: &[u8]) -> Result<(), AllocError>
        ensures before { self.new.before ≡ self.old.before }
        ensures ok { OnOk result (AddedWords self.old self.new (word.now ∷ [])) }
    {
        self.push(b" ")?;
        self.escaped(word)
    }

    /// One more word, which is written as it is.
    pub fn literal(&mut self, word: &[u8]) -> Result<(), AllocError>
        requires { is_literal word.now ≡ true }
        ensures before { self.new.before ≡ self.old.before }
        ensures ok { OnOk result (AddedWords self.old self.new (word.now ∷ [])) }
    {
        self.push(b" ")?;
        self.first(word)
    }

    /// The digits of a number.
    pub fn digits(&mut self, number: u64) -> Result<(), AllocError>
        ensures before { self.new.before ≡ self.old.before }
        ensures ok { OnOk result (Added self.old self.new (decimal number)) }
    {
        let mut digits = Buffer::new();
        self.push(digits.format(number).as_bytes())
    }

    /// One more word, a number.
    pub fn number(&mut self, number: u64) -> Result<(), AllocError>
        ensures before { self.new.before ≡ self.old.before }
        ensures ok { OnOk result (AddedWords self.old self.new (decimal number ∷ [])) }
    {
        self.push(b" ")?;
        self.digits(number)
    }

    /// One more word, a number behind what is written as it is.
    pub fn number_behind(&mut self, front: &[u8], number: u64) -> Result<(), AllocError>
        requires { is_literal front.now ≡ true }
        ensures before { self.new.before ≡ self.old.before }
        ensures ok { OnOk result
            (AddedWords self.old self.new ((front.now ++ decimal number) ∷ [])) }
    {
        self.push(b" ")?;
        self.push(front)?;
        self.digits(number)
    }

    /// One more word, a fraction behind what is written as it is.
    pub fn fraction_behind(
        &mut self,
        front: &[u8],
        numerator: u32,
        denominator: u32,
    ) -> Result<(), AllocError>
        requires { is_literal front.now ≡ true }
        ensures before { self.new.before ≡ self.old.before }
        ensures ok { OnOk result (AddedWords self.old self.new
            ((front.now ++ fraction_word (numerator, denominator)) ∷ [])) }
    {
        self.push(b" ")?;
        self.push(front)?;
        self.digits(u64::from(numerator))?;
        self.push(b"/")?;
        self.digits(u64::from(denominator))
    }

    /// One more word, any bytes behind what is written as it is.
    pub fn word_behind(&mut self, front: &[u8], bytes: &[u8]) -> Result<(), AllocError>
        requires { is_literal front.now ≡ true }
        ensures before { self.new.before ≡ self.old.before }
        ensures ok { OnOk result
            (AddedWords self.old self.new ((front.now ++ bytes.now) ∷ [])) }
    {
        self.push(b" ")?;
        self.push(front)?;
        self.escaped_bytes(bytes)
    }

    /// The end of the line.
    pub fn end_line(&mut self) -> Result<(), AllocError>
        ensures before { self.new.before ≡ self.old.before }
        ensures ok { OnOk result (Added self.old self.new (codes "\n")) }
    {
        self.push(b"\n")
    }
}
