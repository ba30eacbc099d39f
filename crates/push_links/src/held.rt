ghost use Rattle.std.specs.Prelude.{◌≡◌, ◌<◌, ◌+◌, ℕ, [], ◌∷◌, true, false, length, take, OnOk, OnErr};
ghost use Rattle.push_links.specs.Held.{put, finished};

use containers::Queue;
use std::alloc::{AllocError, Global};
use std::marker::Model;

/// The items that a stream is to give, in order, and whether its link has ended behind them.
#[derive(Drop)]
pub struct Held<T> {
    items: Queue<T>,
    ended: bool,
}

/// What a stream gives next.
pub enum Next<T> {
    /// The item that it held longest.
    Item(T),
    /// Its end: it holds nothing, and its link has ended.
    End,
    /// Nothing yet: it holds nothing, and its link goes on.
    Nothing,
}

impl<T> Model for Held<T> {
    ghost use Rattle.push_links.specs.Held.{Holding};

    ghost Value = { Holding T };

    ghost view = { λ h. record { items = h.items; ended = h.ended } };
}

/// The last item is let go. Takes no memory.
#[tactic(auto, using(crate::proofs::Gains::last_cut, crate::proofs::Gains::one_fewer))]
fn drop_last<T: Drop>(items: &mut Queue<T>)
    requires { 0 < length items.old }
    ensures fewer { length items.new + 1 ≡ length items.old }
    ensures others { (n : ℕ) → n < length items.old → take n items.new ≡ take n items.old }
{
    let last = items.len() - 1;
    items.remove(last);
}

/// The first so many items stay, and the others are let go. Takes no memory.
#[tactic(auto, using(crate::proofs::Gains::all_cut))]
fn keep_first<T: Drop>(items: &mut Queue<T>, count: usize)
    ensures { items.new ≡ take count items.old }
{
    while items.len() > count {
        drop_last(items);
    }
}

impl<T: Drop> Held<T> {
    /// Nothing, of a link that goes on. Takes no memory.
    pub fn new(alloc: Global) -> Held<T>
        ensures { result ≡ record { items = []; ended = false } }
    {
        Held {
            items: Queue::new(alloc),
            ended: false,
        }
    }

    /// One more item. An error leaves what is held as it was.
    pub fn put(&mut self, item: T) -> Result<(), AllocError>
        ensures ok { OnOk result (self.new ≡ put self.old item) }
        ensures err { OnErr result (self.new ≡ self.old) }
    {
        self.items.push_back(item)
    }

    /// How many items are held.
    pub(crate) fn len(&self) -> usize
        ensures { result ≡ length self.now.items }
    {
        self.items.len()
    }

    /// Whether the link has ended behind them.
    pub(crate) fn is_ended(&self) -> bool
        ensures { result ≡ self.now.ended }
    {
        self.ended
    }

    /// The first so many items stay, and whether the link has ended behind them is this. Takes no memory.
    pub(crate) fn go_back(&mut self, count: usize, ended: bool)
        ensures { self.new ≡ record { items = take count self.old.items; ended = ended } }
    {
        keep_first(&mut self.items, count);
        self.ended = ended;
    }

    /// The link has ended. Takes no memory.
    pub fn finish(&mut self)
        ensures { self.new ≡ finished self.old }
    {
        self.ended = true;
    }

    /// What is given next: the end exactly where nothing is held and the link has ended. Takes no memory.
    pub fn next(&mut self) -> Next<T>
        ensures item { (x : T) → result ≡ Next.Item x
            → (self.old.items ≡ x ∷ self.new.items) × (self.new.ended ≡ self.old.ended) }
        ensures end { result ≡ Next.End
            → (self.old.items ≡ []) × (self.old.ended ≡ true) × (self.new ≡ self.old) }
        ensures nothing { result ≡ Next.Nothing
            → (self.old.items ≡ []) × (self.old.ended ≡ false) × (self.new ≡ self.old) }
    {
        match self.items.pop_front() {
            Some(item) => Next::Item(item),
            None if self.ended => Next::End,
            None => Next::Nothing,
        }
    }
}
