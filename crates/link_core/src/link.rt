ghost use Rattle.std.specs.Prelude.{◌≡◌, ◌≢◌, ◌<◌, ◌≤◌, true, false, [], ◌++◌, length, take};
ghost use Rattle.std.specs.Prelude.{if◌then◌else◌, OnOk, OnErr, IfOk, IsErr, IsErrOf, ◌↔◌, not};
ghost use Rattle.link_core.specs.Waiting.{without, is_wanted};
ghost use Rattle.link_core.specs.Ends.{queue_closed};
ghost use Rattle.link_core.specs.Link.{pushes_among};

use crate::dealing::{read_piece, take_into};
use crate::errors::EnqueueError;
use crate::message::{NoticeAt, PushAt, Queued, Settled};
use crate::outbox::Outbox;
use crate::row::{Row, fail};
use crate::spare::{Rest, Spare};
use containers::{Bytes, Queue};
use driver_model::{Hearing, LinkFault, Notice, Shape};
use redis_error::RedisError;
use resp_read::{ReadError, Reader};
use resp_value::Value;
use std::alloc::{AllocError, Global};
use std::marker::{Brand, Model};
use std::sync::ledger::Blank;

/// A link. Messages take a place in its queue, start in that order, and each item that comes goes to the oldest started
/// message that takes more.
pub struct LinkCore {
    size: u32,
    pub(crate) boundary: u64,
    pub(crate) queue: Queue<Queued>,
    pub(crate) row: Row,
    pub(crate) started: u32,
    pub(crate) outbox: Outbox,
    reader: Reader,
    /// The list into which values are read.
    came: Spare<Value>,
    broken: bool,
    pub(crate) failed: bool,
}

impl Drop for LinkCore {
    fn drop(self) {
        let LinkCore {
            size: _,
            boundary: _,
            queue,
            row,
            started: _,
            outbox,
            reader,
            came,
            broken: _,
            failed: _,
        } = self;
        drop(queue);
        drop(row);
        drop(outbox);
        drop(reader);
        drop(came);
    }
}

impl Model for LinkCore {
    ghost use Rattle.std.specs.Coded.{codes};
    ghost use Rattle.resp_value.specs.Code.{data_code};
    ghost use Rattle.link_core.specs.Link.{LinkState};

    ghost Value = { LinkState };

    ghost coded = { Prim.hlevel (codes, data_code) };

    ghost view = { λ s. record {
      size = s.size;
      boundary = s.boundary;
      queue = s.queue;
      row = s.row;
      started = s.started;
      outbox = s.outbox;
      rest = s.reader.rest;
      broken = s.broken;
      failed = s.failed;
    } };

    ghost use Rattle.link_core.specs.Inside.{IsSound};

    ghost invariant = { λ s. IsSound s.outbox s.reader s.broken s.failed };
}

impl LinkCore {
    ghost use Rattle.link_core.specs.Link.{fresh, is_full, is_full_beside, first_in, enqueued};
    ghost use Rattle.link_core.specs.Link.{last_in, offered_of, wrote_of, cancelled};
    ghost use Rattle.link_core.specs.Link.{settling_with, closed_all, faulted};
    ghost use Rattle.link_core.specs.Link.{piece_read, came_all};
    ghost use Rattle.link_core.specs.Dealing.{is_awaiting};
    ghost use Rattle.driver_model.specs.declared.hearing.Hearing.TheVariants.{Pushes};
    ghost use Rattle.link_core.specs.Outbox.{can_offer};
    ghost use Rattle.link_core.specs.Row.{lack_of_row};

    /// A link whose queue holds `size` messages, at least one, and on which no message starts while `boundary` bytes or
    /// more, and at least one, are unwritten. Takes no memory.
    pub fn new(alloc: Global, size: u32, boundary: u64) -> LinkCore
        ensures { result ≡ fresh size boundary }
    {
        LinkCore {
            size,
            boundary,
            queue: Queue::new(alloc),
            row: Row::new(alloc),
            started: 0,
            outbox: Outbox {
                unwritten: Bytes::new(alloc),
                offered: 0,
            },
            reader: Reader::new(alloc),
            came: Spare::new(alloc),
            broken: false,
            failed: false,
        }
    }

    /// A message takes the last place of the queue. `id` names it: no earlier message of this link had it. Its bytes
    /// `packed` are taken over, and not copied; after an error they are left. Where `answered`, its verdict is not wanted.
    /// `Full`: the queue holds its size, and nothing changed.
    pub fn enqueue(
        &mut self,
        alloc: Global,
        id: u64,
        packed: &mut Bytes,
        shape: Shape,
        answered: bool,
    ) -> Result<(), EnqueueError>
        ensures ok { OnOk result (
            self.new
            ≡ enqueued self.old
            (record { id = id; packed = packed.old; shape = shape; awaited = not answered })
            ) }
        ensures taken { OnOk result (packed.new ≡ []) }
        ensures left { OnErr result (packed.new ≡ packed.old) }
        ensures full { IsErrOf result EnqueueError.Full
            ↔ ((self.old.failed ≡ false) × (is_full self.old ≡ true)) }
        ensures full_same { IsErrOf result EnqueueError.Full → self.new ≡ self.old }
        ensures no_memory { IsErrOf result EnqueueError.NoMemory → self.new.failed ≡ true }
        ensures failed { self.old.failed ≡ true → IsErrOf result EnqueueError.NoMemory }
    {
        if self.failed {
            return Err(EnqueueError::NoMemory);
        }
        if self.queue.len() >= self.size as usize {
            return Err(EnqueueError::Full);
        }
        match self.try_enqueue(alloc, id, packed, shape, answered) {
            Ok(()) => Ok(()),
            Err(_) => {
                self.failed = true;
                Err(EnqueueError::NoMemory)
            }
        }
    }

    /// A message whose verdict is wanted takes the last place of the queue, also where the queue holds its size. Its bytes
    /// `packed` are taken over, and not copied; after an error they are left.
    pub fn enqueue_beyond(
        &mut self,
        alloc: Global,
        id: u64,
        packed: &mut Bytes,
        shape: Shape,
    ) -> Result<(), AllocError>
        ensures ok { OnOk result (
            self.new
            ≡ enqueued self.old
            (record { id = id; packed = packed.old; shape = shape; awaited = true })
            ) }
        ensures taken { OnOk result (packed.new ≡ []) }
        ensures left { OnErr result (packed.new ≡ packed.old) }
        ensures no_memory { OnErr result (self.new.failed ≡ true) }
        ensures failed { self.old.failed ≡ true → IsErr result }
    {
        if self.failed {
            return Err(AllocError);
        }
        match self.try_enqueue(alloc, id, packed, shape, false) {
            Ok(()) => Ok(()),
            Err(error) => {
                self.failed = true;
                Err(error)
            }
        }
    }

    /// Whether the queue holds its size.
    pub fn is_full(&self) -> bool
        ensures { result ≡ is_full self.now }
    {
        self.queue.len() >= self.size as usize
    }

    /// Whether the queue holds its size, where so many messages that are not in it are counted too.
    pub fn is_full_beside(&self, others: u32) -> bool
        ensures { result ≡ is_full_beside self.now others }
    {
        u128::from(others) + self.queue.len() as u128 >= u128::from(self.size)
    }

    /// The message that starts next, if one is in the queue.
    pub fn first_queued(&self) -> Option<u64>
        ensures { result ≡ first_in self.now.queue }
    {
        if self.queue.is_empty() {
            return None;
        }
        Some(self.queue.at(0).id)
    }

    /// The message that starts last of those that are in the queue, if one is.
    pub fn last_queued(&self) -> Option<u64>
        ensures { result ≡ last_in self.now.queue }
    {
        if self.queue.is_empty() {
            return None;
        }
        Some(self.queue.at(self.queue.len() - 1).id)
    }

    /// The place is taken first, so that the bytes are left where memory is refused.
    #[tactic(auto, using(crate::proofs::StartLemmas::last_set))]
    fn try_enqueue(
        &mut self,
        alloc: Global,
        id: u64,
        packed: &mut Bytes,
        shape: Shape,
        answered: bool,
    ) -> Result<(), AllocError>
        ensures ok { OnOk result (
            self.new
            ≡ enqueued self.old
            (record { id = id; packed = packed.old; shape = shape; awaited = not answered })
            ) }
        ensures taken { OnOk result (packed.new ≡ []) }
        ensures err { OnErr result (self.new ≡ self.old) }
        ensures left { OnErr result (packed.new ≡ packed.old) }
    {
        let place = self.queue.len();
        let awaited = !answered;
        self.queue.push_back(Queued {
            id,
            packed: Bytes::new(alloc),
            shape,
            awaited,
        })?;
        let packed = std::mem::replace(packed, Bytes::new(alloc));
        self.queue.set(
            place,
            Queued {
                id,
                packed,
                shape,
                awaited,
            },
        );
        Ok(())
    }

    /// Whether there were unwritten bytes and no unanswered offer. Then all of them are appended to `out`, and offered.
    pub fn offer(&mut self, out: &mut Vec<u8>) -> Result<bool, AllocError>
        ensures answer { IfOk result (λ offers. offers ≡ can_offer self.old.outbox) }
        ensures link { IfOk result (λ offers.
            self.new ≡ (if offers then offered_of self.old else self.old)
            ) }
        ensures bytes { IfOk result (λ offers.
            out.new.items
            ≡ (if offers then out.old.items ++ self.old.outbox.unwritten else out.old.items)
            ) }
        ensures err { OnErr result (out.new.items ≡ out.old.items) }
        ensures no_memory { OnErr result (self.new.failed ≡ true) }
        ensures failed { self.old.failed ≡ true → IsErr result }
    {
        if self.failed {
            return Err(AllocError);
        }
        match self.outbox.offer(out) {
            Ok(offers) => Ok(offers),
            Err(error) => {
                self.failed = true;
                Err(error)
            }
        }
    }

    /// How many bytes the unanswered offer holds, 0 if there is none.
    pub fn offered_len(&self) -> u64
        ensures value { result ≡ self.now.outbox.offered }
        ensures bound { result ≤ length self.now.outbox.unwritten }
    {
        self.outbox.offered
    }

    /// How many bytes of started messages are not written yet.
    pub fn unwritten(&self) -> u64
        ensures { result ≡ length self.now.outbox.unwritten }
    {
        self.outbox.unwritten.len() as u64
    }

    /// How many messages have started.
    pub fn started(&self) -> u32
        ensures { result ≡ self.now.started }
    {
        self.started
    }

    /// How many more items the started messages take. Takes no memory.
    pub fn open_needs(&self) -> u128
        ensures { result ≡ lack_of_row self.now.row }
    {
        self.row.lacks()
    }

    /// The offer is answered: its first `count` bytes were taken.
    pub fn wrote(&mut self, count: u64)
        requires { count ≤ self.old.outbox.offered }
        ensures { self.new ≡ wrote_of self.old count }
    {
        self.outbox.take(count);
    }

    /// The caller of a message has gone. Before its start it leaves the queue; a started message stays, and takes its
    /// items.
    pub fn cancel(&mut self, id: u64)
        ensures { self.new ≡ cancelled self.old id }
    {
        withdraw(&mut self.queue, id);
        self.row.silence(id);
    }

    /// The link ends by a fault: the oldest message that takes items gets it if it is a single command, every other one the
    /// closed connection, and `out` gains those that are awaited. After an error `out` is as it was, and the link has failed.
    pub fn fault(&mut self, fault: LinkFault, out: &mut Vec<Settled>) -> Result<(), AllocError>
        ensures ok { OnOk result (
            settling_with self.new out.new.items
            ≡ faulted (settling_with self.old out.old.items) fault
            ) }
        ensures err { OnErr result (out.new.items ≡ out.old.items) }
        ensures no_memory { OnErr result (self.new.failed ≡ true) }
        ensures failed { self.old.failed ≡ true → IsErr result }
    {
        if self.failed {
            return Err(AllocError);
        }
        let before = out.len();
        match self.try_fault(fault, out) {
            Ok(()) => Ok(()),
            Err(error) => {
                self.failed = true;
                out.truncate(before);
                Err(error)
            }
        }
    }

    fn try_fault(&mut self, fault: LinkFault, out: &mut Vec<Settled>) -> Result<(), AllocError>
        ensures ok { OnOk result (
            settling_with self.new out.new.items
            ≡ faulted (settling_with self.old out.old.items) fault
            ) }
        ensures err { OnErr result (take (length out.old.items) out.new.items ≡ out.old.items) }
    {
        self.row.hit(fault, out)?;
        close_queue(&mut self.queue, out)
    }

    /// The link is closed: every message that it has gets the closed connection, and `out` gains those that are awaited.
    /// After an error `out` is as it was, and the link has failed.
    pub fn close(&mut self, out: &mut Vec<Settled>) -> Result<(), AllocError>
        ensures ok { OnOk result (
            settling_with self.new out.new.items
            ≡ closed_all (settling_with self.old out.old.items)
            ) }
        ensures err { OnErr result (out.new.items ≡ out.old.items) }
        ensures no_memory { OnErr result (self.new.failed ≡ true) }
        ensures failed { self.old.failed ≡ true → IsErr result }
    {
        if self.failed {
            return Err(AllocError);
        }
        let before = out.len();
        match self.try_close(out) {
            Ok(()) => Ok(()),
            Err(error) => {
                self.failed = true;
                out.truncate(before);
                Err(error)
            }
        }
    }

    fn try_close(&mut self, out: &mut Vec<Settled>) -> Result<(), AllocError>
        ensures ok { OnOk result (
            settling_with self.new out.new.items
            ≡ closed_all (settling_with self.old out.old.items)
            ) }
        ensures err { OnErr result (take (length out.old.items) out.new.items ≡ out.old.items) }
    {
        self.row.close(out)?;
        close_queue(&mut self.queue, out)
    }

    /// Bytes came, on a link on which this is heard, and which was set up before the call where it is `ready`; else it is from
    /// the first message on that the call settles. `out` gains the messages that are settled and awaited, and `notices` what
    /// is told, each with how many messages this call had settled before it. The answer is whether a value came that ends the
    /// link: none behind it is taken. A link that is broken reads nothing. After an error `out` and `notices` are as they
    /// were, and the link has failed.
    pub fn read(
        &mut self,
        alloc: Global,
        piece: &[u8],
        hearing: Hearing,
        ready: bool,
        out: &mut Vec<Settled>,
        notices: &mut Vec<NoticeAt>,
    ) -> Result<bool, AllocError>
        ensures link { OnOk result (
            self.new ≡ (piece_read hearing ready self.old piece.now).link
            ) }
        ensures settled { OnOk result (
            out.new.items ≡ out.old.items ++ (piece_read hearing ready self.old piece.now).out
            ) }
        ensures told { OnOk result (
            notices.new.items
            ≡ notices.old.items ++ (piece_read hearing ready self.old piece.now).notices
            ) }
        ensures strange { IfOk result (λ strange.
            strange ≡ (piece_read hearing ready self.old piece.now).strange
            ) }
        ensures err { OnErr result (out.new.items ≡ out.old.items) }
        ensures notices_err { OnErr result (notices.new.items ≡ notices.old.items) }
        ensures no_memory { OnErr result (self.new.failed ≡ true) }
        ensures failed { self.old.failed ≡ true → IsErr result }
    {
        if self.failed {
            return Err(AllocError);
        }
        if self.broken {
            return Ok(false);
        }
        self.try_read(alloc, piece, hearing, ready, out, notices)
    }

    fn try_read(
        &mut self,
        alloc: Global,
        piece: &[u8],
        hearing: Hearing,
        ready: bool,
        out: &mut Vec<Settled>,
        notices: &mut Vec<NoticeAt>,
    ) -> Result<bool, AllocError>
        requires sound { self.old.failed ≡ false }
        requires whole { self.old.broken ≡ false }
        ensures link { OnOk result (
            self.new ≡ (came_all hearing ready self.old (self.old.rest ++ piece.now)).link
            ) }
        ensures settled { OnOk result (
            out.new.items
            ≡ out.old.items ++ (came_all hearing ready self.old (self.old.rest ++ piece.now)).out
            ) }
        ensures told { OnOk result (
            notices.new.items
            ≡ notices.old.items
            ++ (came_all hearing ready self.old (self.old.rest ++ piece.now)).notices
            ) }
        ensures strange { IfOk result (λ strange.
            strange ≡ (came_all hearing ready self.old (self.old.rest ++ piece.now)).strange
            ) }
        ensures err { OnErr result (out.new.items ≡ out.old.items) }
        ensures notices_err { OnErr result (notices.new.items ≡ notices.old.items) }
        ensures no_memory { OnErr result (self.new.failed ≡ true) }
    {
        self.failed = true;
        let mut came = self.came.take(alloc);
        let reader = &mut self.reader;
        let broken = read_piece::<Brand>(alloc, reader, piece, &mut came, Blank::new(1))?;
        let mut came = Rest::of(came);
        let strange = take_into(
            alloc,
            hearing,
            ready,
            &mut came,
            &mut self.row,
            out,
            notices,
        )?;
        self.came.give(came.into_list());
        self.broken = broken;
        self.failed = false;
        Ok(strange)
    }

    /// Bytes came, on a link that is set up, where pushes are heard. Each item in them is dealt, and `out` gains the messages
    /// that are settled and awaited; `pushes` gains the pushes in them, with a reply or without, each with how many messages
    /// this call had settled before it. `Parse`: the bytes begin no value, after what came before was dealt; from then on
    /// always. After `NoMemory` `out` and `pushes` are as they were, and the link has failed.
    pub fn bytes(
        &mut self,
        alloc: Global,
        piece: &[u8],
        out: &mut Vec<Settled>,
        pushes: &mut Vec<PushAt>,
    ) -> Result<(), ReadError>
        ensures link { OnOk result (self.new ≡ (piece_read Pushes true self.old piece.now).link) }
        ensures link_parse { IsErrOf result ReadError.Parse
            → self.new ≡ (piece_read Pushes true self.old piece.now).link }
        ensures settled { OnOk result (
            out.new.items ≡ out.old.items ++ (piece_read Pushes true self.old piece.now).out
            ) }
        ensures settled_parse { IsErrOf result ReadError.Parse
            → out.new.items ≡ out.old.items ++ (piece_read Pushes true self.old piece.now).out }
        ensures pushed { OnOk result (
            pushes.new.items
            ≡ pushes.old.items
            ++ pushes_among (piece_read Pushes true self.old piece.now).notices
            ) }
        ensures pushed_parse { IsErrOf result ReadError.Parse
            → pushes.new.items
            ≡ pushes.old.items
            ++ pushes_among (piece_read Pushes true self.old piece.now).notices }
        ensures sound { OnOk result (self.new.broken ≡ false) }
        ensures broken { IsErrOf result ReadError.Parse → self.new.broken ≡ true }
        ensures err { IsErrOf result ReadError.NoMemory → out.new.items ≡ out.old.items }
        ensures pushes_err { IsErrOf result ReadError.NoMemory
            → pushes.new.items ≡ pushes.old.items }
        ensures no_memory { IsErrOf result ReadError.NoMemory → self.new.failed ≡ true }
        ensures failed { self.old.failed ≡ true → IsErrOf result ReadError.NoMemory }
    {
        match self.try_bytes(alloc, piece, out, pushes) {
            Ok(()) => {}
            Err(_) => return Err(ReadError::NoMemory),
        }
        if self.broken {
            Err(ReadError::Parse)
        } else {
            Ok(())
        }
    }

    fn try_bytes(
        &mut self,
        alloc: Global,
        piece: &[u8],
        out: &mut Vec<Settled>,
        pushes: &mut Vec<PushAt>,
    ) -> Result<(), AllocError>
        ensures link { OnOk result (self.new ≡ (piece_read Pushes true self.old piece.now).link) }
        ensures settled { OnOk result (
            out.new.items ≡ out.old.items ++ (piece_read Pushes true self.old piece.now).out
            ) }
        ensures pushed { OnOk result (
            pushes.new.items
            ≡ pushes.old.items
            ++ pushes_among (piece_read Pushes true self.old piece.now).notices
            ) }
        ensures err { OnErr result (out.new.items ≡ out.old.items) }
        ensures pushes_err { OnErr result (pushes.new.items ≡ pushes.old.items) }
        ensures no_memory { OnErr result (self.new.failed ≡ true) }
        ensures failed { self.old.failed ≡ true → IsErr result }
    {
        let settled = out.len();
        let noted = pushes.len();
        let mut notices = Vec::new(alloc);
        self.read(alloc, piece, Hearing::Pushes, true, out, &mut notices)?;
        match take_pushes(notices, pushes) {
            Ok(()) => Ok(()),
            Err(error) => {
                self.failed = true;
                out.truncate(settled);
                pushes.truncate(noted);
                Err(error)
            }
        }
    }

    /// Whether some started message takes items.
    pub fn is_awaiting(&self) -> bool
        ensures { result ≡ is_awaiting self.now.row }
    {
        self.row.is_awaiting()
    }

    /// Whether bytes came that begin no value.
    pub fn is_broken(&self) -> bool
        ensures { result ≡ self.now.broken }
    {
        self.broken
    }
}

/// `pushes` gains the pushes among what is told. After an error it may have gained some of them.
fn take_pushes(notices: Vec<NoticeAt>, pushes: &mut Vec<PushAt>) -> Result<(), AllocError>
    ensures ok { OnOk result (
        pushes.new.items ≡ pushes.old.items ++ pushes_among notices.items
        ) }
    ensures err { OnErr result (
        take (length pushes.old.items) pushes.new.items ≡ pushes.old.items
        ) }
{
    let mut rest = Rest::of(notices);
    while let Some(told) = rest.pop_front() {
        let NoticeAt { settled, notice } = told;
        match notice {
            Notice::Push(info) => pushes.push(PushAt { settled, info })?,
            Notice::Message(msg) => drop(msg),
            Notice::Monitor(value) => drop(value),
        }
    }
    Ok(())
}

/// Each message of the queue, in order, ends with the closed connection. After an error `out` may have gained some of them.
fn close_queue(queue: &mut Queue<Queued>, out: &mut Vec<Settled>) -> Result<(), AllocError>
    ensures emptied { OnOk result (queue.new ≡ []) }
    ensures settled { OnOk result (out.new.items ≡ out.old.items ++ queue_closed queue.old) }
    ensures err { OnErr result (take (length out.old.items) out.new.items ≡ out.old.items) }
{
    while let Some(message) = queue.pop_front() {
        fail(message.awaited, message.id, RedisError::Closed, out)?;
    }
    Ok(())
}

/// The message of this name, if its verdict is wanted, leaves the queue.
fn withdraw(queue: &mut Queue<Queued>, id: u64)
    ensures { queue.new ≡ without queue.old id }
{
    let len = queue.len();
    for index in 0..len {
        if awaits(queue.at(index), id) {
            queue.remove(index);
            return;
        }
    }
}

fn awaits(message: &Queued, id: u64) -> bool
    ensures { result ≡ is_wanted id message.now }
{
    message.id == id && message.awaited
}
