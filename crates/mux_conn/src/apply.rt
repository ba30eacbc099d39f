ghost use Rattle.std.specs.Prelude.{◌≡◌, ◌≤◌, [], true, length, OnOk};

use crate::act::{LinkAct, show};
use crate::connection::MultiplexedConnection;
use crate::life::{Greeting, Life};
use crate::request::{Pending, Waiting};
use containers::{Bytes, Queue};
use credentials::BasicAuth;
use driver_model::{LinkFault, LinkNews, Outcome, PushInfo, says_nothing};
use link_core::{LinkCore, Rest, Settled};
use redis_error::{FaultKind, RedisError};
use std::alloc::{AllocError, Global};

impl MultiplexedConnection {
    ghost use Rattle.driver_model.specs.News.{told};
    ghost use Rattle.mux_conn.specs.Connection.{work_with, is_ready};
    ghost use Rattle.mux_conn.specs.Effects.{come_up, dropped_by};
    ghost use Rattle.mux_conn.specs.Effects.{settled_each, failed_each, waiting_failed, all_answered};
    ghost use Rattle.mux_conn.specs.Effects.{cut_short, parted, ended, opening_failed, refused_at, overdue_at};
    ghost use Rattle.mux_conn.specs.Effects.{connected_at, taken_at, failed_at, shut_at, comes_to_want};
    ghost use Rattle.mux_conn.specs.Effects.{with_credentials, authorized_at, unauthorized_at};
    ghost use Rattle.mux_conn.specs.Effects.{is_of_credentials, applied, cancelled_in, left, timed_out};
    ghost use Rattle.mux_conn.specs.Effects.{CanTake, IsWithin};

    /// What the link has settled is answered, in order, and the room of its list is kept.
    fn settle(
        &mut self,
        alloc: Global,
        settled: Vec<Settled>,
        out: &mut Vec<LinkAct>,
    ) -> Result<(), AllocError>
        ensures work { OnOk result (
            work_with self.new out.new.items
            ≡ settled_each (work_with self.old out.old.items) settled.items
            ) }
        ensures count { length self.new.requests ≡ length self.old.requests }
        ensures failure { self.new.failure ≡ self.old.failure }
    {
        let mut rest = Rest::of(settled);
        self.settle_rest(alloc, &mut rest, out)?;
        self.settled.give(rest.into_list());
        Ok(())
    }

    /// What is left of what the link has settled is answered, in order.
    pub(crate) fn settle_rest(
        &mut self,
        alloc: Global,
        rest: &mut Rest<Settled>,
        out: &mut Vec<LinkAct>,
    ) -> Result<(), AllocError>
        ensures work { OnOk result (
            work_with self.new out.new.items
            ≡ settled_each (work_with self.old out.old.items) rest.old
            ) }
        ensures count { length self.new.requests ≡ length self.old.requests }
        ensures failure { self.new.failure ≡ self.old.failure }
    {
        while let Some(message) = rest.pop_front() {
            self.settle_one(alloc, message, out)?;
        }
        Ok(())
    }

    /// Each of these requests is answered with this error.
    fn fail_each(
        &mut self,
        alloc: Global,
        error: &RedisError,
        requests: Queue<Waiting>,
        out: &mut Vec<LinkAct>,
    ) -> Result<(), AllocError>
        ensures work { OnOk result (
            work_with self.new out.new.items
            ≡ failed_each (work_with self.old out.old.items) error.now requests
            ) }
        ensures count { length self.new.requests ≡ length self.old.requests }
        ensures failure { self.new.failure ≡ self.old.failure }
    {
        let mut rest = requests;
        while let Some(request) = rest.pop_front() {
            let error = error.clone(alloc)?;
            self.answer(u64::from(request.number), Outcome::Fault(error), out)?;
        }
        Ok(())
    }

    /// Those that wait for a place are answered with this error, and then those that wait for the connection.
    pub(crate) fn fail_waiting(
        &mut self,
        alloc: Global,
        error: &RedisError,
        out: &mut Vec<LinkAct>,
    ) -> Result<(), AllocError>
        ensures work { OnOk result (
            work_with self.new out.new.items
            ≡ waiting_failed (work_with self.old out.old.items) error.now
            ) }
        ensures count { length self.new.requests ≡ length self.old.requests }
        ensures failure { self.new.failure ≡ self.old.failure }
    {
        let admitted = std::mem::replace(&mut self.admitted, Queue::new(alloc));
        let waiting = std::mem::replace(&mut self.waiting, Queue::new(alloc));
        self.fail_each(alloc, error, admitted, out)?;
        self.fail_each(alloc, error, waiting, out)
    }

    /// The link is closed.
    fn cut_short(&mut self, out: &mut Vec<LinkAct>) -> Result<(), AllocError>
        ensures work { OnOk result (
            work_with self.new out.new.items ≡ cut_short (work_with self.old out.old.items)
            ) }
        ensures count { length self.new.requests ≡ length self.old.requests }
        ensures failure { self.new.failure ≡ self.old.failure }
    {
        self.come_to(Life::Ended {
            error: RedisError::Closed,
        });
        show(out, LinkAct::Close)?;
        Ok(())
    }

    /// That the link has ended is told as a push, where somebody hears pushes.
    fn part(&self, alloc: Global, out: &mut Vec<LinkAct>) -> Result<(), AllocError>
        ensures { OnOk result (
            work_with self.now out.new.items ≡ parted (work_with self.now out.old.items)
            ) }
    {
        if self.hears.hears_pushes() {
            show(
                out,
                LinkAct::Push {
                    info: PushInfo::disconnection(alloc),
                },
            )?;
        }
        Ok(())
    }

    /// What the link has settled is answered, and then what has no place.
    fn answer_all(
        &mut self,
        alloc: Global,
        settled: Vec<Settled>,
        out: &mut Vec<LinkAct>,
    ) -> Result<(), AllocError>
        ensures work { OnOk result (
            work_with self.new out.new.items
            ≡ all_answered (work_with self.old out.old.items) settled.items
            ) }
        ensures count { length self.new.requests ≡ length self.old.requests }
        ensures failure { self.new.failure ≡ self.old.failure }
    {
        self.settle(alloc, settled, out)?;
        self.fail_waiting(alloc, &RedisError::Closed, out)
    }

    /// The link ends: it is closed, what it has settled is answered, and then what has no place.
    fn end(
        &mut self,
        alloc: Global,
        settled: Vec<Settled>,
        out: &mut Vec<LinkAct>,
    ) -> Result<(), AllocError>
        ensures work { OnOk result (
            work_with self.new out.new.items
            ≡ ended (work_with self.old out.old.items) settled.items
            ) }
        ensures count { length self.new.requests ≡ length self.old.requests }
        ensures failure { self.new.failure ≡ self.old.failure }
    {
        self.cut_short(out)?;
        self.answer_all(alloc, settled, out)
    }

    /// A link that was set up ends by a fault: it is closed, which is told, what it has settled is answered, and then what has no
    /// place.
    fn end_by_fault(
        &mut self,
        alloc: Global,
        settled: Vec<Settled>,
        out: &mut Vec<LinkAct>,
    ) -> Result<(), AllocError>
        ensures work { OnOk result (
            work_with self.new out.new.items
            ≡ all_answered (parted (cut_short (work_with self.old out.old.items))) settled.items
            ) }
        ensures count { length self.new.requests ≡ length self.old.requests }
        ensures failure { self.new.failure ≡ self.old.failure }
    {
        self.cut_short(out)?;
        self.part(alloc, out)?;
        self.answer_all(alloc, settled, out)
    }

    /// The connect failed.
    fn refuse_connect(
        &mut self,
        alloc: Global,
        fault: FaultKind,
        out: &mut Vec<LinkAct>,
    ) -> Result<(), AllocError>
        ensures work { OnOk result (
            work_with self.new out.new.items
            ≡ refused_at (work_with self.old out.old.items) fault self.old.life
            ) }
        ensures count { length self.new.requests ≡ length self.old.requests }
        ensures failure { self.new.failure ≡ self.old.failure }
    {
        if self.life.is_dialing() {
            self.fail_opening(alloc, RedisError::Io { fault }, out)?;
        }
        Ok(())
    }

    /// The time for the connect, and for the setup, is over.
    fn run_late(&mut self, alloc: Global, out: &mut Vec<LinkAct>) -> Result<(), AllocError>
        ensures work { OnOk result (
            work_with self.new out.new.items
            ≡ overdue_at (work_with self.old out.old.items) self.old.life
            ) }
        ensures count { length self.new.requests ≡ length self.old.requests }
        ensures failure { self.new.failure ≡ self.old.failure }
    {
        if self.life.is_dialing() || self.life.is_wanting() || self.life.is_setting_up() {
            let fault = FaultKind::TimedOut;
            self.close_opening(alloc, RedisError::Io { fault }, out)?;
        }
        Ok(())
    }

    /// This link is up: it is set up, or nothing is to be said for it.
    fn come_up(
        &mut self,
        alloc: Global,
        link: LinkCore,
        out: &mut Vec<LinkAct>,
    ) -> Result<(), AllocError>
        ensures work { OnOk result (
            work_with self.new out.new.items ≡ come_up (work_with self.old out.old.items) link
            ) }
        ensures count { length self.new.requests ≡ length self.old.requests }
        ensures failure { self.new.failure ≡ self.old.failure }
    {
        if says_nothing(&self.info, true) {
            self.greet(alloc, link, out)?;
        } else {
            self.refresh(alloc)?;
            self.set_up(alloc, link, Greeting::WithUser)?;
        }
        Ok(())
    }

    /// This link is up, and its setup waits for credentials, for which a source is asked.
    fn come_to_want(
        &mut self,
        alloc: Global,
        link: LinkCore,
        out: &mut Vec<LinkAct>,
    ) -> Result<(), AllocError>
        ensures work { OnOk result (
            work_with self.new out.new.items
            ≡ comes_to_want (work_with self.old out.old.items) link
            ) }
        ensures count { length self.new.requests ≡ length self.old.requests }
        ensures failure { self.new.failure ≡ self.old.failure }
    {
        self.refresh(alloc)?;
        self.come_to(Life::Wanting { link });
        show(out, LinkAct::NeedCreds)?;
        Ok(())
    }

    /// The connect is answered.
    fn connect(&mut self, alloc: Global, out: &mut Vec<LinkAct>) -> Result<(), AllocError>
        ensures work { OnOk result (
            work_with self.new out.new.items
            ≡ connected_at (work_with self.old out.old.items) self.old.life
            ) }
        ensures count { length self.new.requests ≡ length self.old.requests }
        ensures failure { self.new.failure ≡ self.old.failure }
    {
        if !self.life.is_dialing() {
            return Ok(());
        }
        let link = LinkCore::new(alloc, self.size, self.boundary);
        if self.renewal.wanted {
            return self.come_to_want(alloc, link, out);
        }
        self.come_up(alloc, link, out)
    }

    /// These credentials are said to the server.
    fn take_credentials(&mut self, alloc: Global, auth: &BasicAuth) -> Result<(), AllocError>
        ensures conn { OnOk result (
            self.new ≡ (with_credentials (work_with self.old []) auth.now).conn
            ) }
        ensures count { length self.new.requests ≡ length self.old.requests }
        ensures failure { self.new.failure ≡ self.old.failure }
    {
        let username = Bytes::from_slice(alloc, auth.username())?;
        let password = Bytes::from_slice(alloc, auth.password())?;
        self.info.username = Some(username);
        self.info.password = Some(password);
        Ok(())
    }

    /// The first credentials came: the link is set up by them.
    fn authorize(
        &mut self,
        alloc: Global,
        auth: &BasicAuth,
        out: &mut Vec<LinkAct>,
    ) -> Result<(), AllocError>
        ensures work { OnOk result (
            work_with self.new out.new.items
            ≡ authorized_at (work_with self.old out.old.items) auth.now self.old.life
            ) }
        ensures count { length self.new.requests ≡ length self.old.requests }
        ensures failure { self.new.failure ≡ self.old.failure }
    {
        if !self.life.is_wanting() {
            return Ok(());
        }
        self.take_credentials(alloc, auth)?;
        let life = std::mem::replace(&mut self.life, Life::Dialing);
        match life {
            Life::Wanting { link } => {
                self.come_up(alloc, link, out)?;
                Ok(())
            }
            Life::Resting => unreachable!(),
            Life::Dialing => unreachable!(),
            Life::SettingUp {
                link: _,
                greeting: _,
            } => unreachable!(),
            Life::Ready { link: _ } => unreachable!(),
            Life::Ended { error: _ } => unreachable!(),
        }
    }

    /// There are no credentials: where the setup waits for them, the link is closed, and its opening fails with this error.
    fn go_without(
        &mut self,
        alloc: Global,
        error: RedisError,
        out: &mut Vec<LinkAct>,
    ) -> Result<(), AllocError>
        ensures work { OnOk result (
            work_with self.new out.new.items
            ≡ unauthorized_at (work_with self.old out.old.items) error self.old.life
            ) }
        ensures count { length self.new.requests ≡ length self.old.requests }
        ensures failure { self.new.failure ≡ self.old.failure }
    {
        if self.life.is_wanting() {
            self.close_opening(alloc, error, out)?;
            return Ok(());
        }
        drop(error);
        Ok(())
    }

    /// The source of the credentials answered with this error text.
    fn deny(&mut self, alloc: Global, text: &[u8], out: &mut Vec<LinkAct>) -> Result<(), AllocError>
        ensures work { OnOk result (
            work_with self.new out.new.items
            ≡ unauthorized_at (work_with self.old out.old.items)
            (RedisError.Credentials text.now) self.old.life
            ) }
        ensures count { length self.new.requests ≡ length self.old.requests }
        ensures failure { self.new.failure ≡ self.old.failure }
    {
        let text = Bytes::from_slice(alloc, text)?;
        self.go_without(alloc, RedisError::Credentials { text }, out)
    }

    /// The source of the credentials ended without any.
    fn desert(&mut self, alloc: Global, out: &mut Vec<LinkAct>) -> Result<(), AllocError>
        ensures work { OnOk result (
            work_with self.new out.new.items
            ≡ unauthorized_at (work_with self.old out.old.items) (RedisError.AuthFailed [])
            self.old.life
            ) }
        ensures count { length self.new.requests ≡ length self.old.requests }
        ensures failure { self.new.failure ≡ self.old.failure }
    {
        let text = Bytes::new(alloc);
        self.go_without(alloc, RedisError::AuthFailed { text }, out)
    }

    /// Offered bytes were taken.
    fn take(&mut self, count: u64)
        requires { CanTake self.old.life count }
        ensures { work_with self.new [] ≡ taken_at (work_with self.old []) count self.old.life }
    {
        match &mut self.life {
            Life::Ready { link } => link.wrote(count),
            Life::SettingUp { link, greeting: _ } => link.wrote(count),
            Life::Wanting { link } => link.wrote(count),
            Life::Resting => {}
            Life::Dialing => {}
            Life::Ended { error: _ } => {}
        }
    }

    /// The link ends by a fault, where it is up. Before it is set up its opening fails.
    pub(crate) fn fail(
        &mut self,
        alloc: Global,
        fault: LinkFault,
        out: &mut Vec<LinkAct>,
    ) -> Result<(), AllocError>
        ensures work { OnOk result (
            work_with self.new out.new.items
            ≡ failed_at (work_with self.old out.old.items) fault self.old.life
            ) }
        ensures count { length self.new.requests ≡ length self.old.requests }
        ensures failure { self.new.failure ≡ self.old.failure }
    {
        if self.life.is_ready() {
            return self.fail_ready(alloc, fault, out);
        }
        let error = match &self.life {
            Life::Wanting { link: _ } => RedisError::Closed,
            Life::SettingUp { link, greeting } => greeting.error(link, fault),
            Life::Ready { link: _ } => unreachable!(),
            Life::Resting => return Ok(()),
            Life::Dialing => return Ok(()),
            Life::Ended { error: _ } => return Ok(()),
        };
        self.close_opening(alloc, error, out)
    }

    /// A link that is set up ends by a fault.
    fn fail_ready(
        &mut self,
        alloc: Global,
        fault: LinkFault,
        out: &mut Vec<LinkAct>,
    ) -> Result<(), AllocError>
        requires { is_ready self.old.life ≡ true }
        ensures work { OnOk result (
            work_with self.new out.new.items
            ≡ failed_at (work_with self.old out.old.items) fault self.old.life
            ) }
        ensures count { length self.new.requests ≡ length self.old.requests }
        ensures failure { self.new.failure ≡ self.old.failure }
    {
        let felt = self.hears.felt(fault);
        let mut settled = Vec::new(alloc);
        match &mut self.life {
            Life::Ready { link } => link.fault(felt, &mut settled)?,
            Life::SettingUp {
                link: _,
                greeting: _,
            } => unreachable!(),
            Life::Wanting { link: _ } => unreachable!(),
            Life::Resting => unreachable!(),
            Life::Dialing => unreachable!(),
            Life::Ended { error: _ } => unreachable!(),
        }
        self.end_by_fault(alloc, settled, out)
    }

    /// The stream of messages is dropped: a link of messages ends.
    fn drop_stream(&mut self, alloc: Global, out: &mut Vec<LinkAct>) -> Result<(), AllocError>
        ensures work { OnOk result (
            work_with self.new out.new.items ≡ dropped_by (work_with self.old out.old.items)
            ) }
        ensures count { length self.new.requests ≡ length self.old.requests }
        ensures failure { self.new.failure ≡ self.old.failure }
    {
        if !self.hears.hears_messages() {
            return Ok(());
        }
        if self.life.is_dialing() {
            self.close_opening(alloc, RedisError::Closed, out)?;
            return Ok(());
        }
        self.fail(alloc, LinkFault::Ended, out)?;
        Ok(())
    }

    /// Everything is closed: without a link those that wait are answered.
    fn shut(&mut self, alloc: Global, out: &mut Vec<LinkAct>) -> Result<(), AllocError>
        ensures work { OnOk result (
            work_with self.new out.new.items
            ≡ shut_at (work_with self.old out.old.items) self.old.life
            ) }
        ensures count { length self.new.requests ≡ length self.old.requests }
        ensures failure { self.new.failure ≡ self.old.failure }
    {
        if self.life.is_resting() {
            self.fail_waiting(alloc, &RedisError::Closed, out)?;
            return Ok(());
        }
        let mut settled = Vec::new(alloc);
        match &mut self.life {
            Life::Ready { link } => link.close(&mut settled)?,
            Life::SettingUp {
                link: _,
                greeting: _,
            } => {}
            Life::Wanting { link: _ } => {}
            Life::Resting => unreachable!(),
            Life::Dialing => {}
            Life::Ended { error: _ } => return Ok(()),
        }
        self.end(alloc, settled, out)
    }

    /// The effect of news of its link. No request is moved.
    #[tactic(auto, using(crate::proofs::Served::served_with))]
    pub(crate) fn hear(
        &mut self,
        alloc: Global,
        news: LinkNews<'_>,
        out: &mut Vec<LinkAct>,
    ) -> Result<(), AllocError>
        requires { IsWithin self.old.life (told news) }
        ensures work { OnOk result (
            work_with self.new out.new.items
            ≡ applied (work_with self.old out.old.items) (told news.entry)
            ) }
        ensures count { length self.new.requests ≡ length self.old.requests }
        ensures failure { self.new.failure ≡ self.old.failure }
    {
        match news {
            LinkNews::Silence => Ok(()),
            LinkNews::Connected => self.connect(alloc, out),
            LinkNews::Refused { fault } => self.refuse_connect(alloc, fault, out),
            LinkNews::Overdue => self.run_late(alloc, out),
            LinkNews::Took { count } => {
                self.take(count);
                Ok(())
            }
            LinkNews::Came { piece } => self.read(alloc, piece, out),
            LinkNews::Failed { fault } => self.fail(alloc, fault, out),
            LinkNews::Unrepeated => self.serve(alloc),
            LinkNews::Dropped => self.drop_stream(alloc, out),
            LinkNews::Shut => self.shut(alloc, out),
            _ => self.hear_of_credentials(alloc, news, out),
        }
    }

    /// The effect of news of credentials.
    fn hear_of_credentials(
        &mut self,
        alloc: Global,
        news: LinkNews<'_>,
        out: &mut Vec<LinkAct>,
    ) -> Result<(), AllocError>
        requires { is_of_credentials (told news) ≡ true }
        ensures work { OnOk result (
            work_with self.new out.new.items
            ≡ applied (work_with self.old out.old.items) (told news.entry)
            ) }
        ensures count { length self.new.requests ≡ length self.old.requests }
        ensures failure { self.new.failure ≡ self.old.failure }
    {
        match news {
            LinkNews::Authorized { auth } => self.authorize(alloc, auth, out),
            LinkNews::Denied { text } => self.deny(alloc, text, out),
            LinkNews::Deserted => self.desert(alloc, out),
            LinkNews::Renewed { auth } => self.expect_renewal(alloc, auth),
            LinkNews::Unrenewed => {
                self.end_renewals();
                Ok(())
            }
            LinkNews::Late { number } => {
                self.renew_late(number);
                Ok(())
            }
            _ => unreachable!(),
        }
    }

    /// The message of that number leaves the queue, or is answered to nobody.
    pub(crate) fn take_back(&mut self, number: u64)
        ensures { self.new ≡ record self.old { life = cancelled_in self.old.life number } }
    {
        match &mut self.life {
            Life::Ready { link } => link.cancel(number),
            Life::SettingUp {
                link: _,
                greeting: _,
            } => {}
            Life::Wanting { link: _ } => {}
            Life::Resting => {}
            Life::Dialing => {}
            Life::Ended { error: _ } => {}
        }
    }

    /// The caller of a request has gone. Takes no memory.
    pub fn cancel(&mut self, request: Pending)
        ensures conn { self.new ≡ left self.old request.number }
        ensures count { length self.new.requests ≡ length self.old.requests }
        ensures failure { self.new.failure ≡ self.old.failure }
    {
        let number = u64::from(request.number);
        if !self.is_open(number) {
            return;
        }
        self.close(number);
        self.take_back(number);
    }

    /// The time in which a request was to be answered is over: where it is open, it is answered with that, and its message
    /// leaves the queue, or is answered to nobody.
    pub fn time_out(&mut self, request: Pending, out: &mut Vec<LinkAct>) -> Result<(), AllocError>
        ensures work { OnOk result (
            work_with self.new out.new.items
            ≡ timed_out (work_with self.old out.old.items) request.number
            ) }
        ensures count { length self.new.requests ≡ length self.old.requests }
        ensures failure { self.new.failure ≡ self.old.failure }
    {
        let number = u64::from(request.number);
        if !self.is_open(number) {
            return Ok(());
        }
        self.take_back(number);
        let fault = FaultKind::TimedOut;
        self.answer(number, Outcome::Fault(RedisError::Io { fault }), out)
    }
}
