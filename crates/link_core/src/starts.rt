ghost use Rattle.std.specs.Prelude.{◌≡◌, true, false, length, take, OnOk, OnErr, IfOk, IsErrOf, ◌&&◌, not};
ghost use Rattle.link_core.specs.Link.{holds_back};

use crate::errors::StartError;
use crate::link::LinkCore;
use crate::message::{Queued, Started};
use containers::Bytes;
use driver_model::Shape;
use std::alloc::{AllocError, Global};

impl LinkCore {
    ghost use Rattle.link_core.specs.Link.{starting_with, started_all, started_to, is_first_up_to};
    ghost use Rattle.link_core.specs.Link.{begun, start_of, started_one, is_spent};

    /// Starts messages in the order of the queue, as long as nothing holds them back, and appends the starts to `out`.
    /// After an error `out` is as it was, and the link has failed.
    pub fn start_ready(&mut self, alloc: Global, out: &mut Vec<Started>) -> Result<(), StartError>
        ensures ok { OnOk result (
            starting_with self.new out.new.items
            ≡ started_all (starting_with self.old out.old.items)
            ) }
        ensures err { OnErr result (out.new.items ≡ out.old.items) }
        ensures spent { IsErrOf result StartError.Spent
            → is_spent (started_all (starting_with self.old out.old.items)).link ≡ true }
        ensures unspent { OnOk result (is_spent self.new ≡ false) }
        ensures no_memory { OnErr result (self.new.failed ≡ true) }
        ensures failed { self.old.failed ≡ true → IsErrOf result StartError.NoMemory }
    {
        if self.failed {
            return Err(StartError::NoMemory);
        }
        let before = out.len();
        match self.start_each(alloc, out) {
            Ok(()) => Ok(()),
            Err(error) => {
                self.failed = true;
                out.truncate(before);
                Err(error)
            }
        }
    }

    /// Starts messages in the order of the queue, as long as the first has a number up to `last` and nothing holds them back, and
    /// appends the starts to `out`. None starts where there is no such number. After an error `out` is as it was, and the link
    /// has failed.
    pub fn start_ready_to(
        &mut self,
        alloc: Global,
        last: Option<u64>,
        out: &mut Vec<Started>,
    ) -> Result<(), StartError>
        ensures ok { OnOk result (
            starting_with self.new out.new.items
            ≡ started_to last (starting_with self.old out.old.items)
            ) }
        ensures err { OnErr result (out.new.items ≡ out.old.items) }
        ensures spent { IsErrOf result StartError.Spent
            → is_spent (started_to last (starting_with self.old out.old.items)).link ≡ true }
        ensures unspent { OnOk result (is_spent self.new ≡ false) }
        ensures no_memory { OnErr result (self.new.failed ≡ true) }
        ensures failed { self.old.failed ≡ true → IsErrOf result StartError.NoMemory }
    {
        if self.failed {
            return Err(StartError::NoMemory);
        }
        let before = out.len();
        match self.start_each_to(alloc, last, out) {
            Ok(()) => Ok(()),
            Err(error) => {
                self.failed = true;
                out.truncate(before);
                Err(error)
            }
        }
    }

    /// A message starts at once, before all that wait in the queue. `id` names it: no other message of this link that takes
    /// items has it. Its verdict is wanted. After an error the link has failed.
    pub fn start_first(
        &mut self,
        alloc: Global,
        id: u64,
        packed: Bytes,
        shape: Shape,
    ) -> Result<Started, StartError>
        ensures ok { OnOk result (
            self.new ≡ begun self.old
            (record { id = id; packed = packed; shape = shape; awaited = true })
            ) }
        ensures start { IfOk result (λ start.
            start ≡ start_of self.old.started
            (record { id = id; packed = packed; shape = shape; awaited = true })
            ) }
        ensures spent { IsErrOf result StartError.Spent
            → is_spent (begun self.old
            (record { id = id; packed = packed; shape = shape; awaited = true })) ≡ true }
        ensures unspent { OnOk result (is_spent self.new ≡ false) }
        ensures no_memory { OnErr result (self.new.failed ≡ true) }
        ensures failed { self.old.failed ≡ true → IsErrOf result StartError.NoMemory }
    {
        if self.failed {
            return Err(StartError::NoMemory);
        }
        let message = Queued {
            id,
            packed,
            shape,
            awaited: true,
        };
        match self.begin(alloc, message) {
            Ok(start) => Ok(start),
            Err(error) => {
                self.failed = true;
                Err(error)
            }
        }
    }

    /// Whether no message starts: bytes are unwritten, and as many as the boundary.
    pub fn is_held_back(&self) -> bool
        ensures { result ≡ holds_back self.now }
    {
        let unwritten = self.outbox.unwritten.len() as u64;
        unwritten > 0 && unwritten >= self.boundary
    }

    /// Whether a message starts, where only those with a number up to this one do.
    fn goes_to(&self, last: Option<u64>) -> bool
        ensures { result ≡ (not (holds_back self.now) && is_first_up_to last self.now.queue) }
    {
        !self.is_held_back() && self.is_first_up_to(last)
    }

    /// Whether the message that starts next, if one is in the queue, has a number up to this one.
    fn is_first_up_to(&self, last: Option<u64>) -> bool
        ensures { result ≡ is_first_up_to last self.now.queue }
    {
        match last {
            Some(last) => !self.queue.is_empty() && self.queue.at(0).id <= last,
            None => false,
        }
    }

    fn start_each(&mut self, alloc: Global, out: &mut Vec<Started>) -> Result<(), StartError>
        ensures ok { OnOk result (
            starting_with self.new out.new.items
            ≡ started_all (starting_with self.old out.old.items)
            ) }
        ensures err { OnErr result (take (length out.old.items) out.new.items ≡ out.old.items) }
        ensures spent { IsErrOf result StartError.Spent
            → is_spent (started_all (starting_with self.old out.old.items)).link ≡ true }
    {
        'starts: while !self.is_held_back() {
            match self.queue.pop_front() {
                Some(message) => match self.start_one(alloc, message, out) {
                    Ok(()) => {}
                    Err(error) => return Err(error),
                },
                None => return Ok(()),
            }
        }
        Ok(())
    }

    fn start_each_to(
        &mut self,
        alloc: Global,
        last: Option<u64>,
        out: &mut Vec<Started>,
    ) -> Result<(), StartError>
        ensures ok { OnOk result (
            starting_with self.new out.new.items
            ≡ started_to last (starting_with self.old out.old.items)
            ) }
        ensures err { OnErr result (take (length out.old.items) out.new.items ≡ out.old.items) }
        ensures spent { IsErrOf result StartError.Spent
            → is_spent (started_to last (starting_with self.old out.old.items)).link ≡ true }
    {
        'starts: while self.goes_to(last) {
            match self.queue.pop_front() {
                Some(message) => match self.start_one(alloc, message, out) {
                    Ok(()) => {}
                    Err(error) => return Err(error),
                },
                None => return Ok(()),
            }
        }
        Ok(())
    }

    fn start_one(
        &mut self,
        alloc: Global,
        message: Queued,
        out: &mut Vec<Started>,
    ) -> Result<(), StartError>
        ensures ok { OnOk result (
            starting_with self.new out.new.items
            ≡ started_one (starting_with self.old out.old.items) message
            ) }
        ensures err { OnErr result (out.new.items ≡ out.old.items) }
        ensures spent { IsErrOf result StartError.Spent
            → is_spent (started_one (starting_with self.old out.old.items) message).link
            ≡ true }
    {
        let start = match self.begin(alloc, message) {
            Ok(start) => start,
            Err(error) => return Err(error),
        };
        out.push(start).map_err(AllocError::from)?;
        Ok(())
    }

    /// A message takes the next number, and takes items behind the others.
    fn begin(&mut self, alloc: Global, message: Queued) -> Result<Started, StartError>
        ensures ok { OnOk result (self.new ≡ begun self.old message) }
        ensures start { IfOk result (λ start. start ≡ start_of self.old.started message) }
        ensures spent { IsErrOf result StartError.Spent → is_spent (begun self.old message) ≡ true }
    {
        if self.started == u32::MAX {
            return Err(StartError::Spent);
        }
        let len = message.packed.len() as u64;
        self.outbox.add(message.packed.as_slice())?;
        self.row.start(alloc, &message)?;
        let start = Started {
            msg: self.started,
            id: message.id,
            need: message.shape.need(),
            len,
        };
        self.started += 1;
        Ok(start)
    }
}
