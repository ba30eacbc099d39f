ghost use Rattle.std.specs.Prelude.{◌≡◌, length, true, OnOk};
ghost use Rattle.mux_conn.specs.Turn.{is_from};

use crate::act::{LinkAct, show};
use crate::connection::MultiplexedConnection;
use crate::life::Life;
use containers::{Bytes, Queue};
use driver_model::WaitKind;
use std::alloc::{AllocError, Global};

impl MultiplexedConnection {
    ghost use Rattle.mux_conn.specs.Connection.{work_with, is_setting_up};
    ghost use Rattle.mux_conn.specs.Turn.{written, moved_wait, waits_for, fresh_wait, wait_shown};
    ghost use Rattle.mux_conn.specs.Turn.{moved_shown, fresh_shown, flushed};

    /// All unwritten bytes of a link that is set up are offered, unless an offer is unanswered.
    fn offer_setup(&mut self, alloc: Global, out: &mut Vec<LinkAct>) -> Result<(), AllocError>
        requires { is_setting_up self.old.life ≡ true }
        ensures work { OnOk result (
            work_with self.new out.new.items ≡ written (work_with self.old out.old.items)
            ) }
        ensures count { length self.new.requests ≡ length self.old.requests }
        ensures failure { self.new.failure ≡ self.old.failure }
    {
        let mut bytes = Vec::new(alloc);
        let offers = match &mut self.life {
            Life::SettingUp { link, greeting: _ } => link.offer(&mut bytes)?,
            Life::Ready { link: _ } => unreachable!(),
            Life::Resting => unreachable!(),
            Life::Dialing => unreachable!(),
            Life::Wanting { link: _ } => unreachable!(),
            Life::Ended { error: _ } => unreachable!(),
        };
        if offers {
            show(
                out,
                LinkAct::Write {
                    bytes: Bytes::from_vec(bytes),
                },
            )?;
        }
        Ok(())
    }

    /// All unwritten bytes are offered, unless an offer is unanswered.
    fn offer(&mut self, alloc: Global, out: &mut Vec<LinkAct>) -> Result<(), AllocError>
        ensures work { OnOk result (
            work_with self.new out.new.items ≡ written (work_with self.old out.old.items)
            ) }
        ensures count { length self.new.requests ≡ length self.old.requests }
        ensures failure { self.new.failure ≡ self.old.failure }
    {
        if self.life.is_setting_up() {
            return self.offer_setup(alloc, out);
        }
        let link = match &mut self.life {
            Life::Ready { link } => link,
            Life::SettingUp {
                link: _,
                greeting: _,
            } => unreachable!(),
            Life::Resting => return Ok(()),
            Life::Dialing => return Ok(()),
            Life::Wanting { link: _ } => return Ok(()),
            Life::Ended { error: _ } => return Ok(()),
        };
        let mut bytes = Vec::new(alloc);
        if link.offer(&mut bytes)? {
            show(
                out,
                LinkAct::Write {
                    bytes: Bytes::from_vec(bytes),
                },
            )?;
        }
        Ok(())
    }

    /// What a request that was moved in this turn waits for, if it waits: a place, or, where it is in the queue, room.
    fn moved_wait(&self, number: u32) -> Option<WaitKind>
        ensures { result ≡ moved_wait self.now number }
    {
        if self.is_admitted(number) {
            return Some(WaitKind::Place);
        }
        if self.is_placed(number) && is_from(self.life.first_queued(), u64::from(number)) {
            return Some(WaitKind::Room);
        }
        None
    }

    /// What a request waits for that waits for its connection: on a link that is set up what is subscribed again there, as long as
    /// that isn't answered.
    fn waits_for(&self) -> WaitKind
        ensures { result ≡ waits_for self.now }
    {
        if self.is_repeating() {
            return WaitKind::Resubscribe;
        }
        self.life.early_wait()
    }

    /// What a request waits for that has come into this turn without permits, if it waits.
    fn fresh_wait(&self, number: u32) -> Option<WaitKind>
        ensures { result ≡ fresh_wait self.now number }
    {
        if !self.is_waiting(number) {
            return None;
        }
        Some(self.waits_for())
    }

    /// The wait of a request is shown, if it waits.
    fn show_wait(
        &self,
        number: u32,
        kind: Option<WaitKind>,
        out: &mut Vec<LinkAct>,
    ) -> Result<(), AllocError>
        ensures { OnOk result (
            work_with self.now out.new.items
            ≡ wait_shown (work_with self.now out.old.items) number kind
            ) }
    {
        match kind {
            Some(wait) => {
                let request = self.name(u64::from(number));
                show(out, LinkAct::Wait { request, wait })?;
                Ok(())
            }
            None => Ok(()),
        }
    }

    /// The waits of requests that were moved in this turn are shown.
    fn show_moved(&mut self, alloc: Global, out: &mut Vec<LinkAct>) -> Result<(), AllocError>
        ensures work { OnOk result (
            work_with self.new out.new.items ≡ moved_shown (work_with self.old out.old.items)
            ) }
        ensures count { length self.new.requests ≡ length self.old.requests }
        ensures failure { self.new.failure ≡ self.old.failure }
    {
        let mut rest = std::mem::replace(&mut self.moved, Queue::new(alloc));
        while let Some(number) = rest.pop_front() {
            let kind = self.moved_wait(number);
            self.show_wait(number, kind, out)?;
        }
        self.moved = rest;
        Ok(())
    }

    /// The waits of requests that came in this turn, or whose connect was answered, are shown.
    fn show_fresh(&mut self, alloc: Global, out: &mut Vec<LinkAct>) -> Result<(), AllocError>
        ensures work { OnOk result (
            work_with self.new out.new.items ≡ fresh_shown (work_with self.old out.old.items)
            ) }
        ensures count { length self.new.requests ≡ length self.old.requests }
        ensures failure { self.new.failure ≡ self.old.failure }
    {
        let mut rest = std::mem::replace(&mut self.fresh, Queue::new(alloc));
        while let Some(number) = rest.pop_front() {
            let kind = self.fresh_wait(number);
            self.show_wait(number, kind, out)?;
        }
        self.fresh = rest;
        Ok(())
    }

    /// What a turn ends with: the link's one write, and the waits that began.
    pub(crate) fn end_turn(
        &mut self,
        alloc: Global,
        out: &mut Vec<LinkAct>,
    ) -> Result<(), AllocError>
        ensures work { OnOk result (
            work_with self.new out.new.items ≡ flushed (work_with self.old out.old.items)
            ) }
        ensures count { length self.new.requests ≡ length self.old.requests }
        ensures failure { self.new.failure ≡ self.old.failure }
    {
        self.offer(alloc, out)?;
        self.show_moved(alloc, out)?;
        self.show_fresh(alloc, out)
    }
}

/// Whether this message is that one, or stands behind it.
fn is_from(first: Option<u64>, number: u64) -> bool
    ensures { result ≡ is_from first number }
{
    match first {
        Some(first) => first <= number,
        None => false,
    }
}
