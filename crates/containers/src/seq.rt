ghost use Rattle.std.specs.Prelude.{◌≡◌, ◌==◌, ◌<◌, [], ◌∷◌, ◌++◌, length, take, OnOk, OnErr, IfOk, Some, slice_get, slice_set};

use crate::try_clone::TryClone;
use std::alloc::{AllocError, Global};
use std::marker::Model;

/// A sequence. Contracts see the list of its items.
#[derive(Drop)]
pub struct Seq<T> {
    items: Vec<T>,
}

impl<T> Model for Seq<T> {
    ghost use Rattle.std.specs.Prelude.{List};

    ghost Value = { List T };

    ghost view = { λ s. s.items.items };
}

impl<T> Seq<T> {
    /// No items. Takes no memory.
    pub fn new(alloc: Global) -> Seq<T>
        ensures { result ≡ [] }
    {
        Seq {
            items: Vec::new(alloc),
        }
    }

    /// The items of a vector, not copied.
    pub fn from_vec(items: Vec<T>) -> Seq<T>
        ensures { result ≡ items.items }
    {
        Seq { items }
    }

    /// The vector, not copied.
    pub fn into_vec(self) -> Vec<T>
        ensures { result.items ≡ self }
    {
        self.items
    }

    pub fn len(&self) -> usize
        ensures { result ≡ length self.now }
    {
        self.items.len()
    }

    pub fn is_empty(&self) -> bool
        ensures { result ≡ (length self.now == 0) }
    {
        self.items.is_empty()
    }

    pub fn as_slice(&self) -> &[T]
        ensures { result.now ≡ self.now }
    {
        self.items.as_slice()
    }

    /// The item at `index`.
    pub fn at(&self, index: usize) -> &T
        requires { index < length self.now }
        ensures { slice_get self.now index ≡ Some result.now }
    {
        &self.items[index]
    }
}

impl<T: Drop> Seq<T> {
    /// One more item at the end. An error leaves the sequence as it was.
    pub fn push(&mut self, item: T) -> Result<(), AllocError>
        ensures ok { OnOk result (self.new ≡ self.old ++ item ∷ []) }
        ensures err { OnErr result (self.new ≡ self.old) }
    {
        self.items.push(item)?;
        Ok(())
    }

    /// Puts `item` in place of the one at `index`.
    pub fn set(&mut self, index: usize, item: T)
        requires { index < length self.old }
        ensures { self.new ≡ slice_set self.old index item }
    {
        self.items[index] = item;
    }

    /// Keeps the first `count` items.
    pub fn truncate(&mut self, count: usize)
        ensures { self.new ≡ take count self.old }
    {
        self.items.truncate(count);
    }

    /// Moves all items of `more` behind these. An error leaves both as they were.
    pub fn append(&mut self, more: &mut Seq<T>) -> Result<(), AllocError>
        ensures ok { OnOk result (self.new ≡ self.old ++ more.old) }
        ensures emptied { OnOk result (more.new ≡ []) }
        ensures err { OnErr result (self.new ≡ self.old) }
        ensures kept { OnErr result (more.new ≡ more.old) }
    {
        self.items.append(&mut more.items)?;
        Ok(())
    }

    /// Moves all items behind those of a vector. An error leaves both as they were.
    pub fn move_into(&mut self, out: &mut Vec<T>) -> Result<(), AllocError>
        ensures ok { OnOk result (out.new.items ≡ out.old.items ++ self.old) }
        ensures emptied { OnOk result (self.new ≡ []) }
        ensures err { OnErr result (out.new.items ≡ out.old.items) }
        ensures kept { OnErr result (self.new ≡ self.old) }
    {
        out.append(&mut self.items)
    }
}

impl<T: TryClone> Seq<T> {
    /// A copy of each of these items, in their order.
    pub fn from_clones(alloc: Global, items: &[T]) -> Result<Seq<T>, AllocError>
        ensures { IfOk result (λ copies. copies ≡ items.now) }
    {
        let mut copies = Seq::new(alloc);
        for item in items {
            let copy = item.try_clone(alloc)?;
            copies.push(copy)?;
        }
        Ok(copies)
    }

    /// An equal value of its own.
    pub fn clone(&self, alloc: Global) -> Result<Seq<T>, AllocError>
        ensures { IfOk result (λ copy. copy ≡ self.now) }
    {
        Seq::from_clones(alloc, self.as_slice())
    }
}

impl<T: TryClone> TryClone for Seq<T> {
    fn try_clone(&self, alloc: Global) -> Result<Seq<T>, AllocError> {
        self.clone(alloc)
    }
}
