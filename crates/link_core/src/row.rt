ghost use Rattle.std.specs.Prelude.{◌≡◌, ◌<◌, [], ◌∷◌, ◌++◌, length, take, MatchOption, IfSome, IfOk, OnOk, OnErr};
ghost use Rattle.link_core.specs.Dealing.{settled_by, with_item};
ghost use Rattle.link_core.specs.Ends.{failed_by, error_of, hit_by};
ghost use Rattle.driver_model.specs.Shape.{need_of, verdict_of};
ghost use Rattle.resp_value.specs.View.{data_of};

use crate::message::{Entry, Queued, Settled};
use driver_model::{LinkFault, Shape, Verdict};
use redis_error::RedisError;
use resp_value::{Value, Values};
use std::alloc::{AllocError, Global};
use std::collections::VecDeque;
use std::marker::Model;

/// A started message that takes more items.
#[derive(Drop)]
pub struct Taker {
    pub entry: Entry,
    /// How many items were dealt on its link once it is full.
    pub end: u128,
}

/// The started messages that take more items, in the order of their starts. Dealing compares one count: the oldest message
/// is full where as many items were dealt as its end says.
#[derive(Drop)]
pub struct Row {
    takers: VecDeque<Taker>,
    /// How many items were dealt. Those that a message lacked when it was taken out are counted too.
    dealt: u128,
    /// How many items were dealt once all messages are full.
    end: u128,
}

impl Model for Row {
    ghost use Rattle.std.specs.Prelude.{List};
    ghost use Rattle.link_core.specs.declared.message.Entry.{Entry};
    ghost use Rattle.std.specs.Coded.{codes};
    ghost use Rattle.resp_value.specs.Code.{data_code};
    ghost use Rattle.link_core.specs.Ring.{entries_of, IsRing};

    ghost Value = { List Entry };

    ghost coded = { Prim.hlevel (codes, data_code) };

    ghost view = { λ r. entries_of r.takers.items };

    ghost invariant = { λ r. IsRing r.dealt r.takers.items r.end };
}

impl Row {
    ghost use Rattle.link_core.specs.Link.{entry_of};
    ghost use Rattle.link_core.specs.Row.{silenced, lack_of_row};
    ghost use Rattle.link_core.specs.Ring.{lack_of_first, with_first};
    ghost use Rattle.link_core.specs.Dealing.{dealing_with, dealt, is_awaiting};

    /// No messages. Takes no memory.
    pub fn new(alloc: Global) -> Row
        ensures { result ≡ [] }
    {
        Row {
            takers: VecDeque::new(alloc),
            dealt: 0,
            end: 0,
        }
    }

    /// How many messages there are.
    pub fn len(&self) -> usize
        ensures { result ≡ length self.now }
    {
        self.takers.len()
    }

    /// A message starts: it is the last, and has no items yet. An error leaves the row as it was. It comes for want of memory,
    /// and where the count of items would pass 2^128, to which no link comes.
    #[tactic(auto, using(crate::proofs::RingLemmas::one_more))]
    pub fn start(&mut self, alloc: Global, message: &Queued) -> Result<(), AllocError>
        ensures ok { OnOk result (self.new ≡ self.old ++ entry_of message.now ∷ []) }
        ensures err { OnErr result (self.new ≡ self.old) }
    {
        let need = u128::from(message.shape.need());
        let end = match self.end.checked_add(need) {
            Some(end) => end,
            None => return Err(AllocError),
        };
        let entry = Entry {
            id: message.id,
            shape: message.shape,
            awaited: message.awaited,
            got: Values::new(alloc),
        };
        self.takers.push_back(Taker { entry, end })?;
        self.end = end;
        Ok(())
    }

    /// Whether some message takes items: each does that is here.
    pub fn is_awaiting(&self) -> bool
        ensures { result ≡ is_awaiting self.now }
    {
        !self.takers.is_empty()
    }

    /// The oldest message, taken out. It is not full.
    pub fn pop_front(&mut self) -> Option<Entry>
        ensures cases { MatchOption result ((self.old ≡ []) × (self.new ≡ []))
            (λ e. self.old ≡ e ∷ self.new) }
        ensures open { IfSome result (λ e. length e.got < need_of e.shape) }
    {
        match self.takers.pop_front() {
            Some(taker) => {
                self.dealt = taker.end;
                Some(taker.entry)
            }
            None => None,
        }
    }

    /// How many more items these messages take.
    #[tactic(auto, using(crate::proofs::RingLemmas::ring_end))]
    pub fn lacks(&self) -> u128
        ensures { result ≡ lack_of_row self.now }
    {
        self.end - self.dealt
    }

    /// How many more items the oldest message takes, and 0 where there is none.
    fn first_lack(&self) -> u128
        ensures { result ≡ lack_of_first self.now }
    {
        match self.takers.front() {
            Some(taker) => taker.end - self.dealt,
            None => 0,
        }
    }

    /// The verdict of this message is not wanted any more. It still takes its items.
    pub fn silence(&mut self, id: u64)
        ensures { self.new ≡ silenced self.old id }
    {
        let len = self.takers.len();
        for index in 0..len {
            if self.takers[index].entry.id == id {
                self.takers[index].entry.awaited = false;
                return;
            }
        }
    }

    /// The oldest message has one item more, and takes further ones.
    fn put(&mut self, item: Value) -> Result<(), AllocError>
        requires { 1 < lack_of_first self.old }
        ensures { OnOk result (self.new ≡ with_first self.old (data_of item)) }
    {
        self.takers[0].entry.got.push(item)?;
        self.dealt += 1;
        Ok(())
    }

    /// Deals an item: it goes to the oldest message, and one that finds none is dropped. An error leaves `out` as it was.
    pub fn deal(
        &mut self,
        alloc: Global,
        item: Value,
        out: &mut Vec<Settled>,
    ) -> Result<(), AllocError>
        ensures row { OnOk result (
            self.new ≡ (dealt (dealing_with self.old) (data_of item)).row
            ) }
        ensures out { OnOk result (
            out.new.items ≡ out.old.items ++ (dealt (dealing_with self.old) (data_of item)).out
            ) }
        ensures err { OnErr result (out.new.items ≡ out.old.items) }
    {
        if self.first_lack() > 1 {
            return self.put(item);
        }
        match self.pop_front() {
            Some(entry) => settle(alloc, entry, item, out),
            None => {
                drop(item);
                Ok(())
            }
        }
    }
}

impl Row {
    ghost use Rattle.link_core.specs.Ends.{row_closed, row_hit};

    /// Each message, in order, ends with the closed connection. After an error `out` may have gained some of them.
    pub fn close(&mut self, out: &mut Vec<Settled>) -> Result<(), AllocError>
        ensures emptied { OnOk result (self.new ≡ []) }
        ensures settled { OnOk result (out.new.items ≡ out.old.items ++ row_closed self.old) }
        ensures err { OnErr result (take (length out.old.items) out.new.items ≡ out.old.items) }
    {
        while let Some(entry) = self.pop_front() {
            fail(entry.awaited, entry.id, RedisError::Closed, out)?;
        }
        Ok(())
    }

    /// The oldest message ends with the fault if it is a single command, and each other with the closed connection. After an
    /// error `out` may have gained some of them.
    pub fn hit(&mut self, fault: LinkFault, out: &mut Vec<Settled>) -> Result<(), AllocError>
        ensures emptied { OnOk result (self.new ≡ []) }
        ensures settled { OnOk result (out.new.items ≡ out.old.items ++ row_hit fault self.old) }
        ensures err { OnErr result (take (length out.old.items) out.new.items ≡ out.old.items) }
    {
        match self.pop_front() {
            Some(entry) => {
                fail(entry.awaited, entry.id, error_by(fault, entry.shape), out)?;
                self.close(out)
            }
            None => Ok(()),
        }
    }
}

/// The error that a fault is.
pub fn error_of(fault: LinkFault) -> RedisError
    ensures { result ≡ error_of fault }
{
    match fault {
        LinkFault::Ended => RedisError::Closed,
        LinkFault::Io { fault } => RedisError::Io { fault },
        LinkFault::Parse => RedisError::Parse,
    }
}

/// The error of the message that a fault hits.
fn error_by(fault: LinkFault, shape: Shape) -> RedisError
    ensures { result ≡ hit_by fault shape }
{
    match shape {
        Shape::Single => error_of(fault),
        Shape::Pipeline {
            offset: _,
            count: _,
            transaction: _,
        } => RedisError::Closed,
        Shape::Confirmation => error_of(fault),
    }
}

/// One more message is settled, by this verdict. An error leaves `out` as it was.
fn add_verdict(id: u64, verdict: Verdict, out: &mut Vec<Settled>) -> Result<(), AllocError>
    ensures ok { OnOk result (
        out.new.items ≡ out.old.items ++ record { id = id; verdict = verdict } ∷ []
        ) }
    ensures err { OnErr result (out.new.items ≡ out.old.items) }
{
    out.push(Settled { id, verdict })?;
    Ok(())
}

/// A message without verdict ends with an error, if it is awaited. Want of memory leaves `out` as it was.
pub fn fail(
    awaited: bool,
    id: u64,
    error: RedisError,
    out: &mut Vec<Settled>,
) -> Result<(), AllocError>
    ensures ok { OnOk result (out.new.items ≡ out.old.items ++ failed_by awaited id error) }
    ensures err { OnErr result (out.new.items ≡ out.old.items) }
{
    if !awaited {
        drop(error);
        return Ok(());
    }
    add_verdict(id, Verdict::Fault(error), out)
}

/// The verdict of a message that this item fills, if it is awaited. An error leaves `out` as it was.
fn settle(
    alloc: Global,
    entry: Entry,
    item: Value,
    out: &mut Vec<Settled>,
) -> Result<(), AllocError>
    requires { length entry.got < need_of entry.shape }
    ensures ok { OnOk result (
        out.new.items ≡ out.old.items ++ settled_by (with_item entry (data_of item))
        ) }
    ensures err { OnErr result (out.new.items ≡ out.old.items) }
{
    if !entry.awaited {
        drop(entry);
        drop(item);
        return Ok(());
    }
    let id = entry.id;
    let verdict = verdict_with(alloc, entry.shape, entry.got, item)?;
    add_verdict(id, verdict, out)
}

/// What the items of a message are that this one fills: the one item of a single command or of a subscription call is its
/// reply, and no list is made for it.
#[tactic(auto, using(crate::proofs::RingLemmas::only_reply, crate::proofs::RingLemmas::only_answer))]
fn verdict_with(
    alloc: Global,
    shape: Shape,
    got: Values,
    item: Value,
) -> Result<Verdict, AllocError>
    requires { length got < need_of shape }
    ensures { IfOk result (λ v. v ≡ verdict_of shape (got ++ data_of item ∷ [])) }
{
    match shape {
        Shape::Single => Ok(Verdict::One(item)),
        Shape::Pipeline {
            offset: _,
            count: _,
            transaction: _,
        } => {
            let mut items = got;
            items.push(item)?;
            shape.verdict(alloc, items)
        }
        Shape::Confirmation => Ok(Verdict::of_confirmation(item)),
    }
}
