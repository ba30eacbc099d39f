ghost use Rattle.std.specs.Prelude.{◌≡◌, [], length, Some, OnOk, IfOk};
ghost use Rattle.mux_conn.specs.Effects.{numbers_of};

use crate::act::{LinkAct, show};
use crate::again::Again;
use crate::connection::MultiplexedConnection;
use crate::life::Life;
use crate::renewal::Renewal;
use crate::request::Waiting;
use containers::Queue;
use link_core::LinkCore;
use redis_error::RedisError;
use std::alloc::{AllocError, Global};

impl MultiplexedConnection {
    ghost use Rattle.mux_conn.specs.Connection.{work_with, acted};
    ghost use Rattle.mux_conn.specs.Effects.{all_fresh, afresh, dialled};
    ghost use Rattle.mux_conn.specs.Effects.{creation_told, given_up, opening_failed, made_ready};

    /// The waits of all that have no place are to be shown anew.
    pub(crate) fn refresh(&mut self, alloc: Global) -> Result<(), AllocError>
        ensures conn { OnOk result (self.new ≡ (all_fresh (work_with self.old [])).conn) }
        ensures count { length self.new.requests ≡ length self.old.requests }
        ensures failure { self.new.failure ≡ self.old.failure }
    {
        self.fresh = numbers(alloc, &self.waiting)?;
        Ok(())
    }

    /// The connection is without a link, behind one that is over: nothing of that stays but the requests, and those that wait. It
    /// stays so until `dial`.
    pub fn start_afresh(&mut self, alloc: Global) -> Result<(), AllocError>
        ensures conn { OnOk result (self.new ≡ afresh self.old) }
        ensures count { length self.new.requests ≡ length self.old.requests }
        ensures failure { self.new.failure ≡ self.old.failure }
    {
        let info = self.address.clone(alloc)?;
        self.free = self.limit.unwrap_or(0);
        self.info = info;
        let renewal = Renewal::new(alloc, self.renewal.wanted, self.renewal.within);
        drop(std::mem::replace(&mut self.renewal, renewal));
        drop(std::mem::replace(&mut self.again, Again::Nothing));
        self.come_to(Life::Resting);
        self.opened = false;
        self.admitted = Queue::new(alloc);
        self.moved = Queue::new(alloc);
        self.refresh(alloc)?;
        Ok(())
    }

    /// The connect of the next link is asked for, and this is the last attempt, or another one follows where its opening fails.
    /// That is subscribed `again` on the link. Those that wait for the connection wait for it now.
    pub fn dial(&mut self, alloc: Global, last: bool, again: Again) -> Result<(), AllocError>
        ensures conn { OnOk result (self.new ≡ dialled self.old last again) }
        ensures count { length self.new.requests ≡ length self.old.requests }
        ensures failure { self.new.failure ≡ self.old.failure }
    {
        self.refresh(alloc)?;
        self.last = last;
        self.again = again;
        self.come_to(Life::Dialing);
        Ok(())
    }

    /// That the connection is ready, or that its opening failed with this error, is shown, unless it was before.
    fn tell_creation(
        &mut self,
        error: Option<RedisError>,
        out: &mut Vec<LinkAct>,
    ) -> Result<(), AllocError>
        ensures work { OnOk result (
            work_with self.new out.new.items
            ≡ creation_told (work_with self.old out.old.items) error
            ) }
        ensures count { length self.new.requests ≡ length self.old.requests }
        ensures failure { self.new.failure ≡ self.old.failure }
    {
        if std::mem::replace(&mut self.told, true) {
            drop(error);
            return Ok(());
        }
        show(out, LinkAct::Created { error })?;
        Ok(())
    }

    /// That the opening failed with this error is shown, unless it was before.
    fn tell_failure(
        &mut self,
        alloc: Global,
        error: &RedisError,
        out: &mut Vec<LinkAct>,
    ) -> Result<(), AllocError>
        ensures work { OnOk result (
            work_with self.new out.new.items
            ≡ creation_told (work_with self.old out.old.items) (Some error.now)
            ) }
        ensures count { length self.new.requests ≡ length self.old.requests }
        ensures failure { self.new.failure ≡ self.old.failure }
    {
        let shown = error.clone(alloc)?;
        self.tell_creation(Some(shown), out)
    }

    /// Its link has ended, and every later request gets this error.
    fn end_with(&mut self, alloc: Global, error: &RedisError) -> Result<(), AllocError>
        ensures conn { OnOk result (
            self.new ≡ record self.old { life = Life.Ended error.now }
            ) }
        ensures count { length self.new.requests ≡ length self.old.requests }
        ensures failure { self.new.failure ≡ self.old.failure }
    {
        let error = error.clone(alloc)?;
        self.come_to(Life::Ended { error });
        Ok(())
    }

    /// The last attempt fails with this error, which is shown, and what has no place is answered.
    fn give_up(
        &mut self,
        alloc: Global,
        error: &RedisError,
        out: &mut Vec<LinkAct>,
    ) -> Result<(), AllocError>
        ensures work { OnOk result (
            work_with self.new out.new.items
            ≡ given_up (work_with self.old out.old.items) error.now
            ) }
        ensures count { length self.new.requests ≡ length self.old.requests }
        ensures failure { self.new.failure ≡ self.old.failure }
    {
        self.end_with(alloc, error)?;
        self.tell_failure(alloc, error, out)?;
        self.fail_waiting(alloc, error, out)
    }

    /// An attempt to open the connection fails with this error: it is given up, or another attempt follows.
    pub(crate) fn fail_opening(
        &mut self,
        alloc: Global,
        error: RedisError,
        out: &mut Vec<LinkAct>,
    ) -> Result<(), AllocError>
        ensures work { OnOk result (
            work_with self.new out.new.items
            ≡ opening_failed (work_with self.old out.old.items) error
            ) }
        ensures count { length self.new.requests ≡ length self.old.requests }
        ensures failure { self.new.failure ≡ self.old.failure }
    {
        if !self.last {
            drop(error);
            self.start_afresh(alloc)?;
            return Ok(());
        }
        let ended = self.give_up(alloc, &error, out);
        drop(error);
        ended?;
        Ok(())
    }

    /// The link is closed, and its opening fails with this error.
    pub(crate) fn close_opening(
        &mut self,
        alloc: Global,
        error: RedisError,
        out: &mut Vec<LinkAct>,
    ) -> Result<(), AllocError>
        ensures work { OnOk result (
            work_with self.new out.new.items
            ≡ opening_failed (acted (work_with self.old out.old.items) LinkAct.Close) error
            ) }
        ensures count { length self.new.requests ≡ length self.old.requests }
        ensures failure { self.new.failure ≡ self.old.failure }
    {
        match show(out, LinkAct::Close) {
            Ok(()) => self.fail_opening(alloc, error, out),
            Err(refused) => {
                drop(error);
                Err(refused)
            }
        }
    }

    /// This link is set up, which is shown, and a source is asked for new credentials, where they come of sources. The waits of
    /// all that waited for it are to be shown anew.
    pub(crate) fn make_ready(
        &mut self,
        alloc: Global,
        link: LinkCore,
        out: &mut Vec<LinkAct>,
    ) -> Result<(), AllocError>
        ensures work { OnOk result (
            work_with self.new out.new.items
            ≡ made_ready (work_with self.old out.old.items) link
            ) }
        ensures count { length self.new.requests ≡ length self.old.requests }
        ensures failure { self.new.failure ≡ self.old.failure }
    {
        self.refresh(alloc)?;
        self.come_to(Life::Ready { link });
        self.opened = true;
        self.tell_creation(None, out)?;
        self.ask_source(out)
    }
}

/// The numbers of requests that have no place.
fn numbers(alloc: Global, waiting: &Queue<Waiting>) -> Result<Queue<u32>, AllocError>
    ensures { IfOk result (λ numbers. numbers ≡ numbers_of waiting.now) }
{
    let mut numbers = Queue::new(alloc);
    let len = waiting.len();
    for index in 0..len {
        numbers.push_back(waiting.at(index).number)?;
    }
    Ok(numbers)
}
