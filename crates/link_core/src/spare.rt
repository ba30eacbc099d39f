ghost use Rattle.std.specs.Prelude.{◌≡◌, [], ◌∷◌, MatchOption};

use std::alloc::Global;
use std::collections::VecDeque;
use std::marker::Model;

/// The room of a list that is used again. Contracts see nothing of it.
#[derive(Drop)]
pub struct Spare<T> {
    list: Vec<T>,
}

impl<T> Model for Spare<T> {
    ghost Value = { Unit {0} };

    ghost view = { λ _. tt };

    ghost invariant = { λ s. s.list.items ≡ [] };
}

impl<T: Drop> Spare<T> {
    /// No room. Takes no memory.
    pub fn new(alloc: Global) -> Spare<T> {
        Spare {
            list: Vec::new(alloc),
        }
    }

    /// A list without items, in the room that was given last. Takes no memory.
    pub fn take(&mut self, alloc: Global) -> Vec<T>
        ensures { result.items ≡ [] }
    {
        std::mem::replace(&mut self.list, Vec::new(alloc))
    }

    /// The room of this list is for the next one. Its items are let go. Takes no memory.
    pub fn give(&mut self, list: Vec<T>) {
        let mut list = list;
        list.clear();
        self.list = list;
    }
}

/// A list that is worked off from its front. Contracts see the list of the items that are left.
#[derive(Drop)]
pub struct Rest<T> {
    items: VecDeque<T>,
}

impl<T> Model for Rest<T> {
    ghost use Rattle.std.specs.Prelude.{List};

    ghost Value = { List T };

    ghost view = { λ r. r.items.items };
}

impl<T> Rest<T> {
    /// All of these items are left. Takes no memory.
    pub fn of(list: Vec<T>) -> Rest<T>
        ensures { result ≡ list.items }
    {
        Rest {
            items: VecDeque::from_vec(list),
        }
    }

    /// The front item, taken out. Takes no memory.
    pub fn pop_front(&mut self) -> Option<T>
        ensures { MatchOption result
            ((self.old ≡ []) × (self.new ≡ []))
            (λ x. self.old ≡ x ∷ self.new) }
    {
        self.items.pop_front()
    }

    /// The list of the items that are left, in the room that it had. Takes no memory.
    pub fn into_list(self) -> Vec<T>
        ensures { result.items ≡ self }
    {
        self.items.into_vec()
    }
}
