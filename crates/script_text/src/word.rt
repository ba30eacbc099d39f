ghost use Rattle.std.specs.Prelude.{◌≡◌, IfOk};

use containers::{Bytes, Names};
use std::alloc::{AllocError, Global};
use std::marker::Model;
use std::mem;

/// Where the bytes of a word are.
#[derive(Drop)]
enum Held<'a> {
    /// In the line, as they are.
    There(&'a [u8]),
    /// Apart from the line, where they are escaped.
    Here(Bytes),
}

/// A word of a line. Contracts see the list of its bytes.
#[derive(Drop)]
pub struct Word<'a> {
    held: Held<'a>,
}

impl<'a> Model for Word<'a> {
    ghost use Rattle.std.specs.Prelude.{List, ℕ};

    ghost Value = { List ℕ };

    ghost use Rattle.script_text.specs.Held.{bytes_of};

    ghost view = { λ w. bytes_of w.held };
}

impl<'a> Word<'a> {
    /// A word whose bytes stand in its line as they are. Takes no memory.
    pub fn plain(bytes: &'a [u8]) -> Word<'a>
        ensures { result ≡ bytes.now }
    {
        Word {
            held: Held::There(bytes),
        }
    }

    /// A word whose bytes are escaped in its line.
    pub fn unescaped(bytes: Bytes) -> Word<'a>
        ensures { result ≡ bytes }
    {
        Word {
            held: Held::Here(bytes),
        }
    }

    pub fn as_slice(&self) -> &[u8]
        ensures { result.now ≡ self.now }
    {
        match &self.held {
            Held::There(bytes) => bytes,
            Held::Here(bytes) => bytes.as_slice(),
        }
    }

    /// The bytes, copied where they stand in the line, and else moved out of the word, which is then used no more.
    pub fn take(&mut self, alloc: Global) -> Result<Bytes, AllocError>
        ensures { IfOk result (λ bytes. bytes ≡ self.old) }
    {
        match mem::replace(&mut self.held, Held::There(b"")) {
            Held::There(bytes) => Bytes::from_slice(alloc, bytes),
            Held::Here(bytes) => Ok(bytes),
        }
    }
}

/// The bytes of all these words, which are then used no more.
pub fn take_all(alloc: Global, words: &mut [Word<'_>]) -> Result<Names, AllocError>
    ensures { IfOk result (λ names. names ≡ words.old) }
{
    let mut names = Vec::with_capacity(alloc, words.len())?;
    for word in words {
        names.push(word.take(alloc)?)?;
    }
    Ok(Names::from_vec(names))
}
