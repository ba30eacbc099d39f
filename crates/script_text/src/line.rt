ghost use Rattle.std.specs.Prelude.{◌≡◌, [], OnOk, IfOk, option_map, Some, None, if◌then◌else◌};
ghost use Rattle.script_text.specs.Pieces.{joined, one_word, separator, piece_of};
ghost use Rattle.script_text.specs.Words.{words_of_line};

use crate::word::Word;
use crate::words::{cut, word};
use containers::Seq;
use std::alloc::{AllocError, Global};
use std::marker::Model;
use std::mem;

/// The words of a line: those before the first separator, and those behind each. Lines are read into it one after the
/// other, and their words stand in the same memory.
#[derive(Drop)]
pub struct Line<'a> {
    words: Vec<Word<'a>>,
    more: Vec<Seq<Word<'a>>>,
}

impl<'a> Model for Line<'a> {
    ghost use Rattle.script_text.specs.Words.{LineWords};

    ghost Value = { LineWords };

    ghost view = { λ l. record { words = l.words.items; more = l.more.items } };
}

impl<'a> Line<'a> {
    /// No words. Takes no memory.
    pub fn new(alloc: Global) -> Line<'a>
        ensures { result ≡ record { words = []; more = [] } }
    {
        Line {
            words: Vec::new(alloc),
            more: Vec::new(alloc),
        }
    }

    /// The words before the first separator.
    pub fn words(&self) -> &[Word<'a>]
        ensures { result.now ≡ self.now.words }
    {
        self.words.as_slice()
    }

    /// The words before the first separator, of which any may be taken.
    pub fn words_mut(&mut self) -> &mut [Word<'a>]
        ensures { result.now ≡ self.old.words }
    {
        self.words.as_mut_slice()
    }

    /// The words behind each separator.
    pub fn more(&self) -> &[Seq<Word<'a>>]
        ensures { result.now ≡ self.now.more }
    {
        self.more.as_slice()
    }

    /// The words behind each separator, taken out.
    pub fn take_more(&mut self, alloc: Global) -> Vec<Seq<Word<'a>>>
        ensures more { result.items ≡ self.old.more }
        ensures left { self.new ≡ record { words = self.old.words; more = [] } }
    {
        mem::replace(&mut self.more, Vec::new(alloc))
    }

    /// One more word.
    fn push(&mut self, word: Word<'a>) -> Result<(), AllocError>
        ensures { OnOk result (self.new ≡ joined self.old (one_word word.entry)) }
    {
        match self.more.pop() {
            None => self.words.push(word)?,
            Some(mut last) => {
                last.push(word)?;
                self.more.push(last)?;
            }
        }
        Ok(())
    }

    /// One more separator.
    fn separate(&mut self, alloc: Global) -> Result<(), AllocError>
        ensures { OnOk result (self.new ≡ joined self.old separator) }
    {
        self.more.push(Seq::new(alloc))?;
        Ok(())
    }

    /// Whether a part behind a space is a separator or a word. If so, the line has it behind what it had.
    pub fn put(&mut self, alloc: Global, raw: &'a [u8]) -> Result<bool, AllocError>
        ensures { IfOk result (λ is. (if is then Some self.new else None)
            ≡ option_map (joined self.old) (piece_of raw.now)) }
    {
        if raw == b";".as_slice() {
            self.separate(alloc)?;
            return Ok(true);
        }
        let Some(word) = word(alloc, raw)? else {
            return Ok(false);
        };
        self.push(word)?;
        Ok(true)
    }

    /// Forgets all words.
    fn clear(&mut self)
        ensures { self.new ≡ record { words = []; more = [] } }
    {
        self.words.clear();
        self.more.clear();
    }

    /// Whether the bytes of a line are words. If so, the line has these and no others, whatever it had before.
    pub fn read(&mut self, alloc: Global, bytes: &'a [u8]) -> Result<bool, AllocError>
        ensures { IfOk result (λ is. (if is then Some self.new else None)
            ≡ words_of_line bytes.now) }
    {
        self.clear();
        let mut left = bytes;
        while let Some((raw, rest)) = cut(left, b' ') {
            if !self.put(alloc, raw)? {
                return Ok(false);
            }
            left = rest;
        }
        self.put(alloc, left)
    }
}
