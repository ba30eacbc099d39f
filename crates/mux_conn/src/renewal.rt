ghost use Rattle.std.specs.Prelude.{◌≡◌, ◌++◌, ◌∷◌, [], length, true, OnOk, IfOk, IsErrOf};
ghost use Rattle.mux_conn.specs.Renewals.{renewal_id, renewal_act, is_done};
ghost use Rattle.link_core.specs.Link.{is_spent, starting_with, started_to};

use crate::act::{LinkAct, show};
use crate::again::repeat_id;
use crate::connection::MultiplexedConnection;
use crate::errors::ConnectionError;
use crate::life::Life;
use containers::Queue;
use credentials::{BasicAuth, auth_message};
use driver_model::{Shape, Verdict};
use link_core::{LinkCore, Settled, StartError, Started};
use std::alloc::{AllocError, Global};

/// The credentials of a connection that come of sources. The first are for its setup, and the others are new ones, which are
/// told to the server one after another, each behind the requests that took their places before it.
#[derive(Drop)]
pub struct Renewal {
    /// Whether credentials come of sources.
    pub wanted: bool,
    /// Within how many milliseconds new ones are to be answered, if within any.
    pub within: Option<u64>,
    /// New ones that came and were not told.
    pub waiting: Queue<BasicAuth>,
    /// How many new ones were to be told so far. Their timers were asked for, if any are.
    pub asked: u32,
    /// Whether the last of these aren't told, since the link is held back.
    pub pending: bool,
    /// The last request that was in the queue when the last of these were to be told, if one was: those up to it start before
    /// them.
    pub last: Option<u64>,
    /// Whether the last that were told aren't answered.
    pub unanswered: bool,
    /// Whether no more of them come.
    pub over: bool,
    /// Whether the server didn't take some of them, or not in time: then no others are told.
    pub lost: bool,
}

impl Renewal {
    ghost use Rattle.mux_conn.specs.Renewals.{no_renewal, takes_more, replied, is_unanswered};
    ghost use Rattle.mux_conn.specs.Connection.{is_due, in_front};

    /// No credentials came. Where they are `wanted`, sources are asked for them, and new ones are to be answered within so many
    /// milliseconds, if within any. Takes no memory.
    pub fn new(alloc: Global, wanted: bool, within: Option<u64>) -> Renewal
        ensures { result ≡ no_renewal wanted within }
    {
        Renewal {
            wanted,
            within,
            waiting: Queue::new(alloc),
            asked: 0,
            pending: false,
            last: None,
            unanswered: false,
            over: false,
            lost: false,
        }
    }

    /// Whether more of them may come.
    fn takes_more(&self) -> bool
        ensures { result ≡ takes_more self.now }
    {
        self.wanted && !self.over
    }

    /// Those that were told last are answered: where the server doesn't take them, no others are told.
    fn reply(&mut self, done: bool)
        ensures { self.new ≡ replied self.old done }
    {
        self.unanswered = false;
        self.lost = self.lost || !done;
    }

    /// Whether those of this number are to be told, or were told last, and aren't answered.
    fn is_unanswered(&self, number: u32) -> bool
        ensures { result ≡ is_unanswered self.now number }
    {
        u64::from(number) + 1 == u64::from(self.asked) && (self.unanswered || self.pending)
    }

    /// Whether new credentials are to be told next.
    fn is_due(&self) -> bool
        ensures { result ≡ is_due self.now }
    {
        !(self.unanswered || self.lost) && !self.waiting.is_empty()
    }

    /// How many messages count beside the queue: new credentials do that are to be told.
    pub fn in_front(&self) -> u32
        ensures { result ≡ in_front self.now }
    {
        u32::from(self.is_due())
    }
}

impl MultiplexedConnection {
    ghost use Rattle.mux_conn.specs.Connection.{work_with};
    ghost use Rattle.mux_conn.specs.Renewals.{source_asked, expecting, none_follow, late_for};
    ghost use Rattle.mux_conn.specs.Effects.{settled_other, settled_one};

    /// A source is asked for, where credentials come of sources.
    pub(crate) fn ask_source(&self, out: &mut Vec<LinkAct>) -> Result<(), AllocError>
        ensures { OnOk result (
            work_with self.now out.new.items ≡ source_asked (work_with self.now out.old.items)
            ) }
    {
        if self.renewal.wanted {
            show(out, LinkAct::NeedRenewals)?;
        }
        Ok(())
    }

    /// New credentials came, which wait until those before them are answered.
    pub(crate) fn expect_renewal(
        &mut self,
        alloc: Global,
        auth: &BasicAuth,
    ) -> Result<(), AllocError>
        ensures conn { OnOk result (self.new ≡ expecting self.old auth.now) }
        ensures count { length self.new.requests ≡ length self.old.requests }
        ensures failure { self.new.failure ≡ self.old.failure }
    {
        if self.life.is_ready() && self.renewal.takes_more() {
            let auth = auth.clone(alloc)?;
            self.renewal.waiting.push_back(auth)?;
        }
        Ok(())
    }

    /// No more of them come.
    pub(crate) fn end_renewals(&mut self)
        ensures conn { self.new ≡ none_follow self.old }
        ensures count { length self.new.requests ≡ length self.old.requests }
        ensures failure { self.new.failure ≡ self.old.failure }
    {
        self.renewal.over = true;
    }

    /// The time for new credentials of this number is over: where they aren't answered, no others are told.
    pub(crate) fn renew_late(&mut self, number: u32)
        ensures conn { self.new ≡ late_for self.old number }
        ensures count { length self.new.requests ≡ length self.old.requests }
        ensures failure { self.new.failure ≡ self.old.failure }
    {
        if self.renewal.is_unanswered(number) {
            self.renewal.lost = true;
        }
    }

    /// A message of a request, or the one that subscribes again, is settled.
    #[tactic(auto, using(crate::proofs::Served::served_with))]
    fn settle_other(
        &mut self,
        alloc: Global,
        message: Settled,
        out: &mut Vec<LinkAct>,
    ) -> Result<(), AllocError>
        ensures work { OnOk result (
            work_with self.new out.new.items
            ≡ settled_other (work_with self.old out.old.items) message
            ) }
        ensures count { length self.new.requests ≡ length self.old.requests }
        ensures failure { self.new.failure ≡ self.old.failure }
    {
        if message.id == repeat_id() {
            drop(message);
            return self.serve(alloc);
        }
        self.answer(message.id, message.verdict.into_outcome(), out)
    }

    /// A message that the link has settled: its request is answered, or new credentials are, or what is subscribed again.
    pub(crate) fn settle_one(
        &mut self,
        alloc: Global,
        message: Settled,
        out: &mut Vec<LinkAct>,
    ) -> Result<(), AllocError>
        ensures work { OnOk result (
            work_with self.new out.new.items
            ≡ settled_one (work_with self.old out.old.items) message
            ) }
        ensures count { length self.new.requests ≡ length self.old.requests }
        ensures failure { self.new.failure ≡ self.old.failure }
    {
        if message.id == renewal_id() {
            self.renewal.reply(is_done(&message.verdict));
            drop(message);
            return Ok(());
        }
        self.settle_other(alloc, message, out)
    }
}

impl MultiplexedConnection {
    ghost use Rattle.link_core.specs.Link.{start_of};
    ghost use Rattle.mux_conn.specs.Connection.{work_with, is_ready, started_in, is_spent_in, runs_out};
    ghost use Rattle.mux_conn.specs.Connection.{uses_up};
    ghost use Rattle.mux_conn.specs.Renewals.{renewal_timed, renewal_asked, started_ahead, renewal_moved};
    ghost use Rattle.mux_conn.specs.Renewals.{renewal_queued, renewed};
    ghost use Rattle.mux_conn.specs.Renewals.{begun_in};

    /// The timer of new credentials of this number is asked for, where they are to be answered within a time.
    fn time_renewal(&self, number: u32, out: &mut Vec<LinkAct>) -> Result<(), AllocError>
        ensures { OnOk result (
            work_with self.now out.new.items
            ≡ renewal_timed (work_with self.now out.old.items) number self.now.renewal.within
            ) }
    {
        if let Some(ms) = self.renewal.within {
            show(out, LinkAct::RenewalTimer { number, ms })?;
        }
        Ok(())
    }

    /// The timer of the new credentials that are next is asked for, once, where they are to be answered within a time.
    fn ask_renewal(&mut self, out: &mut Vec<LinkAct>) -> Result<(), ConnectionError>
        ensures work { OnOk result (
            work_with self.new out.new.items ≡ renewal_asked (work_with self.old out.old.items)
            ) }
        ensures spent { IsErrOf result ConnectionError.Spent
            → uses_up (renewal_asked (work_with self.old out.old.items)) ≡ true }
        ensures count { length self.new.requests ≡ length self.old.requests }
        ensures failure { self.new.failure ≡ self.old.failure }
    {
        if self.renewal.pending {
            return Ok(());
        }
        let number = self.renewal.asked;
        if number == u32::MAX {
            return Err(ConnectionError::Spent);
        }
        self.renewal.asked = number + 1;
        self.renewal.pending = true;
        self.renewal.last = self.life.last_queued();
        self.time_renewal(number, out)?;
        Ok(())
    }

    /// The new credentials that are next are told, where the link is set up, once those before them were answered, and the
    /// requests have started that were in the queue before them. On a link that is held back they wait.
    pub(crate) fn renew(
        &mut self,
        alloc: Global,
        out: &mut Vec<LinkAct>,
    ) -> Result<(), ConnectionError>
        ensures work { OnOk result (
            work_with self.new out.new.items ≡ renewed (work_with self.old out.old.items)
            ) }
        ensures spent { IsErrOf result ConnectionError.Spent
            → uses_up (renewed (work_with self.old out.old.items)) ≡ true }
        ensures count { length self.new.requests ≡ length self.old.requests }
        ensures failure { self.new.failure ≡ self.old.failure }
    {
        if !self.life.is_ready() || !self.renewal.is_due() {
            return Ok(());
        }
        match self.ask_renewal(out) {
            Ok(()) => {}
            Err(error) => return Err(error),
        }
        match self.start_ahead(alloc, out) {
            Ok(()) => {}
            Err(error) => return Err(error),
        }
        self.tell_renewal(alloc, out)
    }

    /// Of the requests in the queue those start, as far as they can, that took their places before the new credentials that are
    /// to be told.
    fn start_ahead(&mut self, alloc: Global, out: &mut Vec<LinkAct>) -> Result<(), ConnectionError>
        ensures work { OnOk result (
            work_with self.new out.new.items ≡ started_ahead (work_with self.old out.old.items)
            ) }
        ensures spent { IsErrOf result ConnectionError.Spent
            → runs_out (started_ahead (work_with self.old out.old.items)) ≡ true }
        ensures count { length self.new.requests ≡ length self.old.requests }
        ensures failure { self.new.failure ≡ self.old.failure }
    {
        let last = self.renewal.last;
        let link = match &mut self.life {
            Life::Ready { link } => link,
            Life::SettingUp {
                link: _,
                greeting: _,
            } => return Ok(()),
            Life::Resting => return Ok(()),
            Life::Dialing => return Ok(()),
            Life::Wanting { link: _ } => return Ok(()),
            Life::Ended { error: _ } => return Ok(()),
        };
        let mut starts = self.starts.take(alloc);
        let ready = start_ready_to(alloc, link, last, &mut starts);
        match ready {
            Ok(()) => {}
            Err(error) => return Err(error),
        }
        self.show_starts(starts, out)?;
        Ok(())
    }

    /// They are told, unless the link is held back: their message starts before those that are left in the queue.
    fn tell_renewal(&mut self, alloc: Global, out: &mut Vec<LinkAct>) -> Result<(), ConnectionError>
        requires { is_ready self.old.life ≡ true }
        ensures work { OnOk result (
            work_with self.new out.new.items
            ≡ renewal_moved (work_with self.old out.old.items) self.old.life self.old.renewal.waiting
            ) }
        ensures spent { IsErrOf result ConnectionError.Spent
            → runs_out (renewal_moved (work_with self.old out.old.items) self.old.life
            self.old.renewal.waiting) ≡ true }
        ensures count { length self.new.requests ≡ length self.old.requests }
        ensures failure { self.new.failure ≡ self.old.failure }
    {
        if self.life.is_held_back() {
            return Ok(());
        }
        let Some(auth) = self.renewal.waiting.pop_front() else {
            return Ok(());
        };
        self.renewal.pending = false;
        self.renewal.unanswered = true;
        let started = self.start_renewal(alloc, &auth);
        drop(auth);
        let start = match started {
            Ok(start) => start,
            Err(error) => return Err(error),
        };
        show_renewal(start, out)?;
        Ok(())
    }

    /// The message that tells these credentials starts.
    fn start_renewal(&mut self, alloc: Global, auth: &BasicAuth) -> Result<Started, ConnectionError>
        requires { is_ready self.old.life ≡ true }
        ensures conn { OnOk result (
            self.new ≡ record self.old { life = begun_in self.old.life (renewal_queued auth.now) }
            ) }
        ensures start { IfOk result (λ start.
            start ≡ start_of (started_in self.old.life) (renewal_queued auth.now)
            ) }
        ensures spent { IsErrOf result ConnectionError.Spent
            → is_spent_in (begun_in self.old.life (renewal_queued auth.now)) ≡ true }
        ensures count { length self.new.requests ≡ length self.old.requests }
        ensures failure { self.new.failure ≡ self.old.failure }
    {
        let packed = auth_message(alloc, auth)?;
        let id = renewal_id();
        let started = match &mut self.life {
            Life::Ready { link } => link.start_first(alloc, id, packed, Shape::Confirmation),
            Life::Resting => unreachable!(),
            Life::Dialing => unreachable!(),
            Life::Wanting { link: _ } => unreachable!(),
            Life::SettingUp {
                link: _,
                greeting: _,
            } => unreachable!(),
            Life::Ended { error: _ } => unreachable!(),
        };
        match started {
            Ok(start) => Ok(start),
            Err(StartError::Spent) => Err(ConnectionError::Spent),
            Err(StartError::NoMemory) => Err(ConnectionError::NoMemory),
        }
    }
}

/// Starts what may start on a link, up to the message of this number.
fn start_ready_to(
    alloc: Global,
    link: &mut LinkCore,
    last: Option<u64>,
    starts: &mut Vec<Started>,
) -> Result<(), ConnectionError>
    ensures ok { OnOk result (
        starting_with link.new starts.new.items
        ≡ started_to last (starting_with link.old starts.old.items)
        ) }
    ensures spent { IsErrOf result ConnectionError.Spent
        → is_spent (started_to last (starting_with link.old starts.old.items)).link ≡ true }
{
    match link.start_ready_to(alloc, last, starts) {
        Ok(()) => Ok(()),
        Err(StartError::Spent) => Err(ConnectionError::Spent),
        Err(StartError::NoMemory) => Err(ConnectionError::NoMemory),
    }
}

/// That new credentials are told is shown.
fn show_renewal(start: Started, out: &mut Vec<LinkAct>) -> Result<(), AllocError>
    ensures { OnOk result (out.new.items ≡ out.old.items ++ renewal_act start ∷ []) }
{
    show(
        out,
        LinkAct::Renewed {
            message: start.msg,
            need: start.need,
            len: start.len,
        },
    )?;
    Ok(())
}

/// The number of the message that tells new credentials: no request has it.
pub(crate) fn renewal_id() -> u64
    ensures { result ≡ renewal_id }
{
    (1 << 32) + 2
}

/// Whether a server takes credentials to which this is its reply.
fn is_done(verdict: &Verdict) -> bool
    ensures { result ≡ is_done verdict.now }
{
    match verdict {
        Verdict::Done => true,
        Verdict::One(_) => false,
        Verdict::Many(_) => false,
        Verdict::Fault(_) => false,
    }
}
