ghost use Rattle.std.specs.Prelude.{◌≡◌, ◌++◌, ◌∷◌, [], length, true, OnOk, IfOk, IsErrOf};
ghost use Rattle.mux_conn.specs.Repeats.{repeat_id, repeat_act};

use crate::act::{LinkAct, show};
use crate::connection::MultiplexedConnection;
use crate::errors::ConnectionError;
use crate::life::Life;
use containers::Bytes;
use driver_model::Shape;
use link_core::{StartError, Started};
use std::alloc::{AllocError, Global};

/// What is subscribed again on a link once that is set up, before any request goes on.
#[derive(Drop)]
pub enum Again {
    /// Nothing is: nothing was subscribed, or what was is answered, or the time for that is over.
    Nothing,
    /// All that was subscribed, by this message, which is to start, and takes its items by this shape; and whether its timer was
    /// asked for, if it is to be answered within a time.
    Due {
        packed: Bytes,
        shape: Shape,
        timed: bool,
    },
    /// Its message has started, and isn't answered.
    Sent,
}

impl Again {
    ghost use Rattle.mux_conn.specs.Connection.{is_outstanding};
    ghost use Rattle.mux_conn.specs.Repeats.{is_to_start, is_untimed, with_timer};

    /// Whether something is to be subscribed again, and isn't answered.
    pub fn is_outstanding(&self) -> bool
        ensures { result ≡ is_outstanding self.now }
    {
        match self {
            Again::Nothing => false,
            Again::Due {
                packed: _,
                shape: _,
                timed: _,
            } => true,
            Again::Sent => true,
        }
    }

    /// Whether its message is to start.
    fn is_to_start(&self) -> bool
        ensures { result ≡ is_to_start self.now }
    {
        match self {
            Again::Nothing => false,
            Again::Due {
                packed: _,
                shape: _,
                timed: _,
            } => true,
            Again::Sent => false,
        }
    }

    /// Whether its message is to start, and no timer was asked for it. From now on one was.
    fn note_timer(&mut self) -> bool
        ensures value { result ≡ is_untimed self.old }
        ensures timed { self.new ≡ with_timer self.old }
    {
        match self {
            Again::Nothing => false,
            Again::Due {
                packed: _,
                shape: _,
                timed,
            } => !std::mem::replace(timed, true),
            Again::Sent => false,
        }
    }
}

impl MultiplexedConnection {
    ghost use Rattle.link_core.specs.Link.{start_of};
    ghost use Rattle.mux_conn.specs.Connection.{work_with, is_ready, is_repeating, is_serving, started_in, is_spent_in, runs_out};
    ghost use Rattle.mux_conn.specs.Effects.{served};
    ghost use Rattle.mux_conn.specs.Renewals.{begun_in};
    ghost use Rattle.mux_conn.specs.Repeats.{repeat_queued, repeat_timed, repeat_asked, repeat_moved, repeated};

    /// Whether it is set up, and what is subscribed again isn't answered.
    pub fn is_repeating(&self) -> bool
        ensures { result ≡ is_repeating self.now }
    {
        self.life.is_ready() && self.again.is_outstanding()
    }

    /// Whether it is set up, and takes requests: what is subscribed again is answered, if anything is.
    pub fn is_serving(&self) -> bool
        ensures { result ≡ is_serving self.now }
    {
        self.life.is_ready() && !self.again.is_outstanding()
    }

    /// What is subscribed again is answered, whatever that is, or the time for it is over: where the link is up, requests go on,
    /// and the waits of all that waited for it are to be shown anew.
    pub(crate) fn serve(&mut self, alloc: Global) -> Result<(), AllocError>
        ensures conn { OnOk result (self.new ≡ (served (work_with self.old [])).conn) }
        ensures count { length self.new.requests ≡ length self.old.requests }
        ensures failure { self.new.failure ≡ self.old.failure }
    {
        if !self.is_repeating() {
            return Ok(());
        }
        self.again = Again::Nothing;
        self.refresh(alloc)?;
        Ok(())
    }

    /// The timer of what is subscribed again is asked for, once, where it is to be answered within a time.
    fn ask_repeat(&mut self, out: &mut Vec<LinkAct>) -> Result<(), AllocError>
        ensures work { OnOk result (
            work_with self.new out.new.items ≡ repeat_asked (work_with self.old out.old.items)
            ) }
        ensures count { length self.new.requests ≡ length self.old.requests }
        ensures failure { self.new.failure ≡ self.old.failure }
    {
        if !self.again.note_timer() {
            return Ok(());
        }
        self.time_repeat(out)
    }

    /// Its timer is asked for, where it is to be answered within a time.
    fn time_repeat(&self, out: &mut Vec<LinkAct>) -> Result<(), AllocError>
        ensures { OnOk result (
            work_with self.now out.new.items
            ≡ repeat_timed (work_with self.now out.old.items) self.now.renewal.within
            ) }
    {
        if let Some(ms) = self.renewal.within {
            show(out, LinkAct::RepeatTimer { ms })?;
        }
        Ok(())
    }

    /// What is to be subscribed again is, once the link is set up. On a link that is held back it waits, before all else.
    pub(crate) fn repeat(
        &mut self,
        alloc: Global,
        out: &mut Vec<LinkAct>,
    ) -> Result<(), ConnectionError>
        ensures work { OnOk result (
            work_with self.new out.new.items ≡ repeated (work_with self.old out.old.items)
            ) }
        ensures spent { IsErrOf result ConnectionError.Spent
            → runs_out (repeated (work_with self.old out.old.items)) ≡ true }
        ensures count { length self.new.requests ≡ length self.old.requests }
        ensures failure { self.new.failure ≡ self.old.failure }
    {
        if !self.life.is_ready() || !self.again.is_to_start() {
            return Ok(());
        }
        self.ask_repeat(out)?;
        self.tell_repeat(alloc, out)
    }

    /// It is subscribed again, unless the link is held back: its message starts before those in the queue.
    fn tell_repeat(&mut self, alloc: Global, out: &mut Vec<LinkAct>) -> Result<(), ConnectionError>
        requires { is_ready self.old.life ≡ true }
        ensures work { OnOk result (
            work_with self.new out.new.items
            ≡ repeat_moved (work_with self.old out.old.items) self.old.life self.old.again
            ) }
        ensures spent { IsErrOf result ConnectionError.Spent
            → runs_out (repeat_moved (work_with self.old out.old.items) self.old.life
            self.old.again) ≡ true }
        ensures count { length self.new.requests ≡ length self.old.requests }
        ensures failure { self.new.failure ≡ self.old.failure }
    {
        if self.life.is_held_back() || !self.again.is_to_start() {
            return Ok(());
        }
        match std::mem::replace(&mut self.again, Again::Sent) {
            Again::Due {
                packed,
                shape,
                timed: _,
            } => {
                let start = match self.start_repeat(alloc, packed, shape) {
                    Ok(start) => start,
                    Err(error) => return Err(error),
                };
                show_repeat(start, out)?;
                Ok(())
            }
            Again::Nothing => unreachable!(),
            Again::Sent => unreachable!(),
        }
    }

    /// The message that subscribes again starts.
    fn start_repeat(
        &mut self,
        alloc: Global,
        packed: Bytes,
        shape: Shape,
    ) -> Result<Started, ConnectionError>
        requires { is_ready self.old.life ≡ true }
        ensures conn { OnOk result (
            self.new ≡ record self.old { life = begun_in self.old.life (repeat_queued packed shape) }
            ) }
        ensures start { IfOk result (λ start.
            start ≡ start_of (started_in self.old.life) (repeat_queued packed shape)
            ) }
        ensures spent { IsErrOf result ConnectionError.Spent
            → is_spent_in (begun_in self.old.life (repeat_queued packed shape)) ≡ true }
        ensures count { length self.new.requests ≡ length self.old.requests }
        ensures failure { self.new.failure ≡ self.old.failure }
    {
        let id = repeat_id();
        let started = match &mut self.life {
            Life::Ready { link } => link.start_first(alloc, id, packed, shape),
            Life::Resting => unreachable!(),
            Life::Dialing => unreachable!(),
            Life::Wanting { link: _ } => unreachable!(),
            Life::SettingUp {
                link: _,
                greeting: _,
            } => unreachable!(),
            Life::Ended { error: _ } => unreachable!(),
        };
        match started {
            Ok(start) => Ok(start),
            Err(StartError::Spent) => Err(ConnectionError::Spent),
            Err(StartError::NoMemory) => Err(ConnectionError::NoMemory),
        }
    }
}

/// That all is subscribed again is shown.
fn show_repeat(start: Started, out: &mut Vec<LinkAct>) -> Result<(), AllocError>
    ensures { OnOk result (out.new.items ≡ out.old.items ++ repeat_act start ∷ []) }
{
    show(
        out,
        LinkAct::Repeated {
            message: start.msg,
            need: start.need,
            len: start.len,
        },
    )?;
    Ok(())
}

/// The number of the message that subscribes again: no request has it.
pub(crate) fn repeat_id() -> u64
    ensures { result ≡ repeat_id }
{
    (1 << 32) + 4
}
