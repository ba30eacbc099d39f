ghost use Rattle.std.specs.Prelude.{◌≡◌, ◌<◌, ◌≤◌, ◌+◌, ◌++◌, ◌∷◌, ◌^◌, [], length, slice_get};
ghost use Rattle.std.specs.Prelude.{true, false, None, Some, OnOk, OnErr, IfErr, IfOk, IsErrOf};
ghost use Rattle.std.specs.Prelude.{nat_le, is_some};
ghost use Rattle.mux_conn.specs.Connection.{is_used_up};
ghost use Rattle.single_session.specs.Turn.{timer_of, timers_of, source_of, sources_of};

use crate::generations::{Comeback, Generations, has_ended};
use containers::{Bytes, Seq};
use driver_model::{EventKind, Outcome, Owner, Purpose, SessionKind, SourceUse, Submission};
use mux_conn::{ConnectionError, Life, LinkAct, MultiplexedConnection, Pending};
use redis_error::RedisError;
use std::alloc::{AllocError, Global};

/// The numbers of one sort are 0 to 2^32 - 2: so many given out are one too many.
const TOO_MANY: u64 = 1 << 32;

/// One connection, and the number of its link.
pub struct Single {
    pub link: u32,
    pub connection: MultiplexedConnection,
}

impl Drop for Single {
    fn drop(self) {
        let Single {
            link: _,
            connection,
        } = self;
        drop(connection);
    }
}

/// The state of a session: its generations, where it comes back, how many turns it has made, the opening among them, how many links
/// were asked for, whether everything was shut down, what each timer and each source of credentials was asked for, the request of
/// each submission, where it has one, and its connection.
pub struct Core {
    /// What the session is.
    pub kind: SessionKind,
    pub manager: Option<Generations>,
    pub turns: u64,
    pub links: u64,
    pub shut: bool,
    /// Within how many milliseconds a request that is handed in now is to be answered, if within any.
    pub timeout: Option<u64>,
    pub timers: Seq<Purpose>,
    pub sources: Seq<SourceUse>,
    pub table: Seq<Option<Pending>>,
    pub single: Single,
}

impl Drop for Core {
    fn drop(self) {
        let Core {
            kind: _,
            manager,
            turns: _,
            links: _,
            shut: _,
            timeout: _,
            timers,
            sources,
            table,
            single,
        } = self;
        drop(manager);
        drop(timers);
        drop(sources);
        drop(table);
        drop(single);
    }
}

impl Core {
    ghost use Rattle.driver_model.specs.Request.{packed_bytes, lacks_resp3};
    ghost use Rattle.driver_model.specs.News.{told, news_of};
    ghost use Rattle.mux_conn.specs.Effects.{IsWithin};
    ghost use Rattle.single_session.specs.Turn.{turning_with, heard, refused_with, asked_for};
    ghost use Rattle.single_session.specs.Turn.{submitted, left_by, late_by, fired_by, timed_by};
    ghost use Rattle.single_session.specs.Turn.{requested, effect, timers_of, sources_of};
    ghost use Rattle.single_session.specs.Turn.{passed_by, flushed_on, flushed_apart, own_part, numbered};
    ghost use Rattle.single_session.specs.Turn.{come_back_behind, ended_apart, ended_as, comeback_as, last_as};
    ghost use Rattle.single_session.specs.Turn.{next_turn, comeback_by, last_acts, is_bad, has_run_out};
    ghost use Rattle.single_session.specs.Generations.{bound_of, IsCounted, IsShowable};
    ghost use Rattle.single_session.specs.Turn.{exceeds_offer, is_no_link, IsFewer, IsKnown};

    /// The connection hears its link's news.
    fn hear(
        &mut self,
        alloc: Global,
        event: &EventKind,
        acts: &mut Vec<LinkAct>,
    ) -> Result<(), ConnectionError>
        requires { IsWithin self.old.single.connection.life
            (news_of self.old.timers self.old.sources self.old.single.link event.now) }
        ensures turning { OnOk result (
            turning_with self.new acts.new.items
            ≡ heard (turning_with self.old acts.old.items) event.now
            ) }
        ensures count { length self.new.table ≡ length self.old.table }
        ensures requests { length self.new.single.connection.requests
            ≡ length self.old.single.connection.requests }
        ensures spent { IsErrOf result ConnectionError.Spent
            → self.old.single.connection.failure ≡ Some ConnectionError.Spent }
        ensures sound { OnOk result (self.new.single.connection.failure ≡ None) }
    {
        let shutdown = match event {
            EventKind::Shutdown => true,
            _ => false,
        };
        self.shut = self.shut || shutdown;
        let timers = self.timers.as_slice();
        let news = event.news(timers, self.sources.as_slice(), self.single.link);
        self.single.connection.apply(alloc, news, acts)
    }

    /// The next submission has no request: it is answered at once.
    fn refuse(&mut self, error: RedisError, acts: &mut Vec<LinkAct>) -> Result<(), AllocError>
        requires { length self.old.table < 2 ^ 32 }
        ensures turning { OnOk result (
            turning_with self.new acts.new.items
            ≡ refused_with (turning_with self.old acts.old.items) error
            ) }
        ensures count { OnOk result (length self.new.table ≡ length self.old.table + 1) }
        ensures requests { self.new.single.connection ≡ self.old.single.connection }
    {
        let request = self.table.len() as u32;
        let outcome = Outcome::Fault(error);
        acts.push(LinkAct::Outcome { request, outcome })?;
        self.table.push(None)
    }

    /// The next submission is a request of the connection, named by its number.
    fn ask(&mut self, submission: &Submission, packed: Bytes) -> Result<(), AllocError>
        requires few { length self.old.table < 2 ^ 32 }
        requires fewer { length self.old.single.connection.requests < 2 ^ 32 }
        requires packs { packed ≡ packed_bytes submission.now }
        ensures turning { OnOk result (
            turning_with self.new [] ≡ asked_for (turning_with self.old []) submission.now
            ) }
        ensures count { OnOk result (length self.new.table ≡ length self.old.table + 1) }
        ensures requests { OnOk result (
            length self.new.single.connection.requests
            ≡ length self.old.single.connection.requests + 1
            ) }
        ensures failure { OnOk result (
            self.new.single.connection.failure ≡ self.old.single.connection.failure
            ) }
    {
        let name = self.table.len() as u32;
        let shape = submission.shape();
        let awaited = submission.awaits_reply();
        let pending = self
            .single
            .connection
            .ask(name, packed, shape, awaited, self.timeout)?;
        self.table.push(Some(pending))
    }

    /// Whether a request needs RESP3 on the connection, whose server is told another protocol.
    fn is_unspoken(&self, submission: &Submission) -> bool
        ensures { result ≡ lacks_resp3 self.now.single.connection.hears self.now.single.connection.info.protocol submission.now }
    {
        let connection = &self.single.connection;
        submission.lacks_resp3(connection.hears, connection.info.protocol)
    }

    /// A caller hands in a request, which is refused after the shutdown, where it needs RESP3 and the server is told another
    /// protocol, and where it has no bytes.
    fn submit(
        &mut self,
        alloc: Global,
        submission: &Submission,
        acts: &mut Vec<LinkAct>,
    ) -> Result<(), AllocError>
        requires few { length self.old.table < 2 ^ 32 }
        requires fewer { IsFewer self.old }
        ensures turning { OnOk result (
            turning_with self.new acts.new.items
            ≡ submitted (turning_with self.old acts.old.items) submission.now
            ) }
        ensures fewer { OnOk result (IsFewer self.new) }
        ensures failure { OnOk result (
            self.new.single.connection.failure ≡ self.old.single.connection.failure
            ) }
    {
        if self.shut {
            return self.refuse(RedisError::Closed, acts);
        }
        if self.is_unspoken(submission) {
            return self.refuse(RedisError::Resp3Required, acts);
        }
        let packed = submission.packed(alloc)?;
        if packed.is_empty() {
            return self.refuse(RedisError::EmptyCommand, acts);
        }
        self.ask(submission, packed)
    }

    /// The caller of a submission has gone.
    fn leave(&mut self, submission: u32)
        requires { submission < length self.old.table }
        ensures turning { turning_with self.new []
            ≡ left_by (turning_with self.old []) (slice_get self.old.table submission) }
        ensures fewer { IsFewer self.old → IsFewer self.new }
        ensures failure { self.new.single.connection.failure
            ≡ self.old.single.connection.failure }
    {
        let request = *self.table.at(submission as usize);
        match request {
            Some(pending) => self.single.connection.cancel(pending),
            None => {}
        }
    }

    /// The time of the request of a submission is over, where it has one.
    fn run_late(&mut self, submission: u32, acts: &mut Vec<LinkAct>) -> Result<(), AllocError>
        ensures turning { OnOk result (
            turning_with self.new acts.new.items
            ≡ late_by (turning_with self.old acts.old.items)
            (slice_get self.old.table submission)
            ) }
        ensures fewer { IsFewer self.old → IsFewer self.new }
        ensures failure { self.new.single.connection.failure
            ≡ self.old.single.connection.failure }
    {
        if submission as usize >= self.table.len() {
            return Ok(());
        }
        let request = *self.table.at(submission as usize);
        match request {
            Some(pending) => self.single.connection.time_out(pending, acts),
            None => Ok(()),
        }
    }

    /// A timer fires: the time of a request is over, where it was asked for that. What it is to the connection alone was heard.
    fn fire(&mut self, timer: u32, acts: &mut Vec<LinkAct>) -> Result<(), AllocError>
        ensures turning { OnOk result (
            turning_with self.new acts.new.items
            ≡ fired_by (turning_with self.old acts.old.items) (slice_get self.old.timers timer)
            ) }
        ensures fewer { IsFewer self.old → IsFewer self.new }
        ensures failure { self.new.single.connection.failure
            ≡ self.old.single.connection.failure }
    {
        if timer as usize >= self.timers.len() {
            return Ok(());
        }
        let purpose = *self.timers.at(timer as usize);
        match purpose {
            Purpose::Connect { link: _ } => Ok(()),
            Purpose::Response {
                owner: Owner::Setup,
            } => Ok(()),
            Purpose::Response { owner: Owner::Auth } => Ok(()),
            Purpose::Response {
                owner: Owner::Resub,
            } => Ok(()),
            Purpose::Response {
                owner: Owner::Monitor,
            } => Ok(()),
            Purpose::Renewal { link: _, number: _ } => Ok(()),
            Purpose::Backoff { generation: _ } => Ok(()),
            Purpose::Resubscription { link: _ } => Ok(()),
            Purpose::Response {
                owner: Owner::Try {
                    submission,
                    round: _,
                },
            } => self.run_late(submission, acts),
        }
    }

    /// A new time for the requests that are handed in from now on: those of one multiplexed connection have one.
    fn set_timeout(&mut self, ms: Option<u64>)
        ensures { self.new ≡ timed_by self.old ms }
    {
        if self.kind.has_timeouts() {
            self.timeout = ms;
        }
    }

    /// What an event is to the submissions.
    fn take_requests(
        &mut self,
        alloc: Global,
        event: &EventKind,
        acts: &mut Vec<LinkAct>,
    ) -> Result<(), AllocError>
        requires known { IsKnown (length self.old.table) event.now }
        requires few { length self.old.table < 2 ^ 32 }
        requires fewer { IsFewer self.old }
        ensures turning { OnOk result (
            turning_with self.new acts.new.items
            ≡ requested (turning_with self.old acts.old.items) event.now
            ) }
        ensures fewer { OnOk result (IsFewer self.new) }
        ensures failure { OnOk result (
            self.new.single.connection.failure ≡ self.old.single.connection.failure
            ) }
    {
        match event {
            EventKind::Submit { submission } => self.submit(alloc, submission, acts),
            EventKind::Cancel { submission } => {
                self.leave(*submission);
                Ok(())
            }
            EventKind::Fired { timer } => self.fire(*timer, acts),
            EventKind::Timeout { ms } => {
                self.set_timeout(*ms);
                Ok(())
            }
            _ => Ok(()),
        }
    }

    /// Whether the event hands in a submission that the session has no form for, names what was never given out, or says that more was
    /// written than was offered.
    #[tactic(auto, unfolding(crate::specs::Turn::is_bad))]
    pub fn is_bad_event(&self, event: &EventKind) -> bool
        ensures { result ≡ is_bad self.now event.now }
    {
        match event {
            EventKind::Submit { submission } => submission.has_no_form(self.kind),
            EventKind::Cancel { submission } => *submission as usize >= self.table.len(),
            EventKind::Connected { link } => self.is_no_link(*link),
            EventKind::Refused { link, fault: _ } => self.is_no_link(*link),
            EventKind::Fired { timer } => *timer as usize >= self.timers.len(),
            EventKind::Wrote { link, count } => {
                self.is_no_link(*link) || (*link == self.single.link && self.takes_too_much(*count))
            }
            EventKind::Bytes { link, piece: _ } => self.is_no_link(*link),
            EventKind::Ended { link } => self.is_no_link(*link),
            EventKind::ReadFault { link, fault: _ } => self.is_no_link(*link),
            EventKind::WriteFault { link, fault: _ } => self.is_no_link(*link),
            EventKind::Creds { source, auth: _ } => self.is_no_source(*source),
            EventKind::CredsError { source, text: _ } => self.is_no_source(*source),
            EventKind::CredsEnd { source } => self.is_no_source(*source),
            EventKind::Timeout { ms: _ } => false,
            EventKind::DropStream => false,
            EventKind::Shutdown => false,
        }
    }

    /// Whether no link of this number was asked for.
    fn is_no_link(&self, link: u32) -> bool
        ensures { result ≡ is_no_link self.now link }
    {
        u64::from(link) >= self.links
    }

    /// Whether no source of credentials of this number was asked for.
    fn is_no_source(&self, source: u32) -> bool
        ensures { result ≡ nat_le (length self.now.sources) source }
    {
        source as usize >= self.sources.len()
    }

    /// Whether more bytes were taken than are offered.
    fn takes_too_much(&self, count: u64) -> bool
        ensures { result ≡ exceeds_offer self.now.single.connection.life count }
    {
        match &self.single.connection.life {
            Life::Resting => count > 0,
            Life::Dialing => count > 0,
            Life::Wanting { link } => count > link.offered_len(),
            Life::SettingUp { link, greeting: _ } => count > link.offered_len(),
            Life::Ready { link } => count > link.offered_len(),
            Life::Ended { error: _ } => false,
        }
    }

    /// Whether the number 2^32 - 1 was given to a link, to a message, to new credentials, a submission, a timer or a source of
    /// credentials.
    #[tactic(auto, unfolding(crate::specs::Turn::has_run_out))]
    fn is_spent(&self) -> bool
        ensures { result ≡ has_run_out self.now }
    {
        self.links >= TOO_MANY
            || self.single.connection.is_used_up()
            || self.table.len() as u64 >= TOO_MANY
            || self.timers.len() as u64 >= TOO_MANY
            || self.sources.len() as u64 >= TOO_MANY
    }

    /// The event's own effect, and then requests are moved.
    fn run(
        &mut self,
        alloc: Global,
        event: &EventKind,
        acts: &mut Vec<LinkAct>,
    ) -> Result<(), ConnectionError>
        requires good { is_bad self.old event.now ≡ false }
        requires few { length self.old.table < 2 ^ 32 }
        requires fewer { IsFewer self.old }
        requires sound { self.old.single.connection.failure ≡ None }
        ensures turning { OnOk result (
            turning_with self.new acts.new.items
            ≡ passed_by (turning_with self.old acts.old.items) event.now
            ) }
        ensures spent { IsErrOf result ConnectionError.Spent
            → is_used_up (passed_by (turning_with self.old acts.old.items) event.now).core.single.connection
            ≡ true }
        ensures fewer { OnOk result (IsFewer self.new) }
        ensures sound { OnOk result (self.new.single.connection.failure ≡ None) }
    {
        match self.hear(alloc, event, acts) {
            Ok(()) => {}
            Err(error) => return Err(error),
        }
        self.take_requests(alloc, event, acts)?;
        self.single.connection.advance_all(alloc, acts)
    }

    /// The timers and the sources of credentials of these acts get their numbers.
    fn number(&mut self, acts: &[LinkAct]) -> Result<(), AllocError>
        ensures { OnOk result (
            turning_with self.new acts.now ≡ numbered (turning_with self.old acts.now)
            ) }
    {
        let link = self.single.link;
        note_timers(link, acts, &mut self.timers)?;
        note_sources(link, acts, &mut self.sources)
    }

    /// What a turn of a session ends with that doesn't come back: bytes and waits are shown behind its acts.
    fn end(&mut self, alloc: Global, acts: &mut Vec<LinkAct>) -> Result<(), ConnectionError>
        requires fewer { IsFewer self.old }
        requires sound { self.old.single.connection.failure ≡ None }
        ensures turning { OnOk result (
            turning_with self.new acts.new.items
            ≡ numbered (flushed_on (turning_with self.old acts.old.items))
            ) }
        ensures unspent { IsErrOf result ConnectionError.Spent → ⊥ }
        ensures fewer { OnOk result (IsFewer self.new) }
        ensures sound { OnOk result (self.new.single.connection.failure ≡ None) }
    {
        match self.single.connection.flush(alloc, acts) {
            Ok(()) => {}
            Err(error) => return Err(error),
        }
        self.number(acts.as_slice())?;
        Ok(())
    }

    /// What a turn of a manager ends with, whose link was over before the event or not: it does something of its own behind its
    /// acts, and then bytes and waits are shown.
    fn end_managed(
        &mut self,
        alloc: Global,
        event: &EventKind,
        over: bool,
        acts: &[LinkAct],
        rest: &mut Vec<LinkAct>,
    ) -> Result<Comeback, ConnectionError>
        requires counted { IsCounted self.old }
        requires links { self.old.links < 2 ^ 32 }
        requires fewer { IsFewer self.old }
        requires sound { self.old.single.connection.failure ≡ None }
        requires none { rest.old.items ≡ [] }
        ensures turning { OnOk result (
            turning_with self.new acts.now
            ≡ ended_apart (numbered (turning_with self.old acts.now)) over event.now
            ) }
        ensures comeback { IfOk result (λ comeback.
            comeback ≡ own_part (numbered (turning_with self.old acts.now)) over event.now
            ) }
        ensures rest { OnOk result (
            rest.new.items
            ≡ (flushed_apart (come_back_behind (numbered (turning_with self.old acts.now)) over event.now)).acts
            ) }
        ensures unspent { IsErrOf result ConnectionError.Spent → ⊥ }
        ensures fewer { OnOk result (IsFewer self.new) }
        ensures sound { OnOk result (self.new.single.connection.failure ≡ None) }
    {
        self.number(acts)?;
        let comeback = self.choose(alloc, event, over, acts)?;
        self.come_back(alloc, comeback)?;
        match self.single.connection.flush(alloc, rest) {
            Ok(()) => Ok(comeback),
            Err(error) => Err(error),
        }
    }

    /// What a turn ends with, behind its acts. `rest` gains the acts behind what a manager does of its own.
    fn end_either(
        &mut self,
        alloc: Global,
        event: &EventKind,
        over: bool,
        acts: &mut Vec<LinkAct>,
        rest: &mut Vec<LinkAct>,
    ) -> Result<Comeback, ConnectionError>
        requires counted { IsCounted self.old }
        requires links { self.old.links < 2 ^ 32 }
        requires fewer { IsFewer self.old }
        requires sound { self.old.single.connection.failure ≡ None }
        requires none { rest.old.items ≡ [] }
        ensures turning { OnOk result (
            turning_with self.new acts.new.items
            ≡ ended_as (is_some self.old.manager) (turning_with self.old acts.old.items) over event.now
            ) }
        ensures comeback { IfOk result (λ comeback.
            comeback ≡ comeback_as (is_some self.old.manager) (turning_with self.old acts.old.items) over event.now
            ) }
        ensures rest { OnOk result (
            rest.new.items ≡ last_as (is_some self.old.manager) (turning_with self.old acts.old.items) over event.now
            ) }
        ensures unspent { IsErrOf result ConnectionError.Spent → ⊥ }
        ensures fewer { OnOk result (IsFewer self.new) }
        ensures sound { OnOk result (self.new.single.connection.failure ≡ None) }
    {
        if self.manager.is_some() {
            return self.end_managed(alloc, event, over, acts.as_slice(), rest);
        }
        match self.end(alloc, acts) {
            Ok(()) => Ok(Comeback::Stays),
            Err(error) => Err(error),
        }
    }

    /// One turn, whose acts `acts` gains, and `rest` those behind what a manager does of its own, which is the answer. Its timers and
    /// its sources of credentials get their numbers.
    #[tactic(auto, unfolding(crate::specs::Turn::next_turn, crate::specs::Turn::comeback_by, crate::specs::Turn::last_acts))]
    pub fn turn(
        &mut self,
        alloc: Global,
        event: &EventKind,
        acts: &mut Vec<LinkAct>,
        rest: &mut Vec<LinkAct>,
    ) -> Result<Comeback, ConnectionError>
        requires good { is_bad self.old event.now ≡ false }
        requires room { has_run_out self.old ≡ false }
        requires turns { self.old.turns < 2 ^ 32 }
        requires fewer { IsFewer self.old }
        requires counted { IsCounted self.old }
        requires sound { self.old.single.connection.failure ≡ None }
        requires none { acts.old.items ≡ [] }
        requires no_rest { rest.old.items ≡ [] }
        ensures turning { OnOk result (
            turning_with self.new acts.new.items ≡ next_turn self.old event.now
            ) }
        ensures comeback { IfOk result (λ comeback. comeback ≡ comeback_by self.old event.now) }
        ensures rest { OnOk result (rest.new.items ≡ last_acts self.old event.now) }
        ensures unspent { OnOk result (has_run_out self.new ≡ false) }
        ensures timers { OnOk result (
            length self.old.timers + length (timers_of self.old.single.link acts.new.items)
            < 2 ^ 32
            ) }
        ensures sources { OnOk result (
            length self.old.sources + length (sources_of self.old.single.link acts.new.items)
            < 2 ^ 32
            ) }
        ensures showable { IfOk result (λ comeback. IsShowable (bound_of self.new.manager) comeback) }
        ensures spent { IsErrOf result ConnectionError.Spent
            → has_run_out (next_turn self.old event.now).core ≡ true }
        ensures fewer { OnOk result (IsFewer self.new) }
        ensures counted { OnOk result (IsCounted self.new) }
        ensures sound { OnOk result (self.new.single.connection.failure ≡ None) }
    {
        self.turns += 1;
        let over = has_ended(&self.single.connection.life);
        match self.run(alloc, event, acts) {
            Ok(()) => {}
            Err(error) => return Err(error),
        }
        let comeback = match self.end_either(alloc, event, over, acts, rest) {
            Ok(comeback) => comeback,
            Err(error) => return Err(error),
        };
        if self.is_spent() {
            return Err(ConnectionError::Spent);
        }
        Ok(comeback)
    }
}

/// What the timers of acts of the connection of that link are for is kept, in order.
fn note_timers(link: u32, acts: &[LinkAct], timers: &mut Seq<Purpose>) -> Result<(), AllocError>
    ensures { OnOk result (timers.new ≡ timers.old ++ timers_of link acts.now) }
{
    for act in acts {
        note_timer(link, act, timers)?;
    }
    Ok(())
}

/// What the timer of an act is for is kept, if it asks for one.
fn note_timer(link: u32, act: &LinkAct, timers: &mut Seq<Purpose>) -> Result<(), AllocError>
    ensures { OnOk result (timers.new ≡ timers.old ++ timer_of link act.now) }
{
    match act {
        LinkAct::Timer { request, ms: _ } => timers.push(Purpose::Response {
            owner: Owner::Try {
                submission: *request,
                round: 0,
            },
        }),
        LinkAct::RenewalTimer { number, ms: _ } => timers.push(Purpose::Renewal {
            link,
            number: *number,
        }),
        LinkAct::RepeatTimer { ms: _ } => timers.push(Purpose::Resubscription { link }),
        _ => Ok(()),
    }
}

/// What the sources of acts of the connection of that link are for is kept, in order.
fn note_sources(link: u32, acts: &[LinkAct], sources: &mut Seq<SourceUse>) -> Result<(), AllocError>
    ensures { OnOk result (sources.new ≡ sources.old ++ sources_of link acts.now) }
{
    for act in acts {
        note_source(link, act, sources)?;
    }
    Ok(())
}

/// What the source of an act is for is kept, if it asks for one.
fn note_source(link: u32, act: &LinkAct, sources: &mut Seq<SourceUse>) -> Result<(), AllocError>
    ensures { OnOk result (sources.new ≡ sources.old ++ source_of link act.now) }
{
    match act {
        LinkAct::NeedCreds => sources.push(SourceUse::Setup { link }),
        LinkAct::NeedRenewals => sources.push(SourceUse::Renewal { link }),
        _ => Ok(()),
    }
}
