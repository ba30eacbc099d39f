ghost use Rattle.std.specs.Prelude.{◌≡◌, ◌+◌, ◌≤◌, ◌<◌, [], ◌++◌, length, take, drop, get_or, OnOk, OnErr};

use containers::Bytes;
use std::alloc::{AllocError, Global};
use std::marker::Model;
use std::sync::ledger::{Blank, Book, Ledger, Share};

/// How many steps were taken. It takes no bytes, and `L` names its ledger. Contracts see the number.
#[derive(Drop)]
pub struct Steps<L: Ledger> {
    book: Book<L>,
    share: Share<L>,
}

impl<L: Ledger> Model for Steps<L> {
    ghost use Rattle.std.specs.Prelude.{ℕ, ◌<◌};

    ghost Value = { ℕ };

    ghost view = { λ s. s.book.total };

    ghost invariant = { λ s. 0 < s.share.parts };
}

impl<L: Ledger> Steps<L> {
    /// No steps yet, of the ledger that `blank` is to be.
    pub fn new(blank: Blank) -> Steps<L>
        requires name { blank.name ≡ L.name }
        requires parts { blank.parts ≡ L.parts }
        requires some { 0 < blank.parts }
        ensures { result ≡ 0 }
    {
        let (book, share) = blank.open::<L>();
        Steps { book, share }
    }

    /// One step more.
    pub fn tick(&mut self)
        ensures { self.new ≡ self.old + 1 }
    {
        self.tick_times(1);
    }

    /// So many steps more.
    fn tick_times(&mut self, n: u64)
        ensures { self.new ≡ self.old + n }
    {
        self.book.add(&mut self.share, n);
    }
}

/// The bytes that a reader was fed and still holds. Contracts see the list of them. `at` and `copy` alone read them.
#[derive(Drop)]
pub struct Tape {
    bytes: Bytes,
}

impl Model for Tape {
    ghost use Rattle.std.specs.Prelude.{List, ℕ};

    ghost Value = { List ℕ };

    ghost view = { λ t. t.bytes };
}

impl Tape {
    /// No bytes. Takes no memory.
    pub fn new(alloc: Global) -> Tape
        ensures { result ≡ [] }
    {
        Tape {
            bytes: Bytes::new(alloc),
        }
    }

    pub fn len(&self) -> usize
        ensures { result ≡ length self.now }
    {
        self.bytes.len()
    }

    /// The byte at a place: one step.
    pub fn at<L: Ledger>(&self, i: u64, steps: &mut Steps<L>) -> u8
        requires { i < length self.now }
        ensures byte { result ≡ get_or self.now i 0 }
        ensures steps { steps.new ≡ steps.old + 1 }
    {
        steps.tick();
        self.bytes.as_slice()[i as usize]
    }

    /// Appends the `n` bytes behind a place to `out`: so many steps. An error leaves `out` as it was.
    pub fn copy<L: Ledger>(
        &self,
        from: u64,
        n: u64,
        out: &mut Vec<u8>,
        steps: &mut Steps<L>,
    ) -> Result<(), AllocError>
        requires { from + n ≤ length self.now }
        ensures ok { OnOk result (out.new.items ≡ out.old.items ++ take n (drop from self.now)) }
        ensures err { OnErr result (out.new.items ≡ out.old.items) }
        ensures steps { steps.new ≡ steps.old + n }
    {
        steps.tick_times(n);
        let behind = &self.bytes.as_slice()[from as usize..];
        out.extend_from_slice(&behind[..n as usize])?;
        Ok(())
    }

    /// Adds bytes at the end. An error leaves the tape as it was.
    pub fn feed(&mut self, piece: &[u8]) -> Result<(), AllocError>
        ensures ok { OnOk result (self.new ≡ self.old ++ piece.now) }
        ensures err { OnErr result (self.new ≡ self.old) }
    {
        self.bytes.extend_from_slice(piece)
    }

    /// Lets the first `count` bytes go.
    pub fn forget(&mut self, count: usize)
        requires { count ≤ length self.old }
        ensures { self.new ≡ drop count self.old }
    {
        self.bytes.drop_front(count);
    }

    /// Lets the first `count` bytes go, and gives back the room that the others don't use. An error leaves the tape as it was.
    pub fn forget_and_shrink(&mut self, alloc: Global, count: usize) -> Result<(), AllocError>
        requires { count ≤ length self.old }
        ensures ok { OnOk result (self.new ≡ drop count self.old) }
        ensures err { OnErr result (self.new ≡ self.old) }
    {
        self.bytes = Bytes::from_slice(alloc, &self.bytes.as_slice()[count..])?;
        Ok(())
    }
}
