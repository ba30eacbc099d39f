ghost use Rattle.std.specs.Prelude.{◌≡◌, true, Some, IfOk, OnOk, IsErrOf};
ghost use Rattle.conn_manager.specs.Hearing.{is_said};
ghost use Rattle.conn_manager.specs.Manager.{pending};

use crate::manager::ConnectionManager;
use containers::Queue;
use driver_model::{LinkNews, Outcome, WaitKind};
use manager_generations::{ManagerAct, ManagerTimer};
use mux_conn::{ConnectionError, LinkAct, Pending};
use redis_error::RedisError;
use std::alloc::{AllocError, Global};

/// The name of the request that subscribes again: no other has it.
pub(crate) const RESUBSCRIPTION: u32 = u32::MAX;

/// A timer of a request is asked for.
fn response_timer(request: u32, ms: u64) -> ManagerAct
    ensures { result ≡ ManagerAct.Timer (ManagerTimer.Response (pending request)) ms }
{
    ManagerAct::Timer {
        timer: ManagerTimer::Response {
            request: Pending { number: request },
        },
        ms,
    }
}

/// Whether the manager says an act of its connection as its own.
fn is_said(act: &LinkAct) -> bool
    ensures { result ≡ is_said act.now }
{
    match act {
        LinkAct::Took {
            request: _,
            count: _,
        } => true,
        LinkAct::Timer { request: _, ms: _ } => true,
        LinkAct::RenewalTimer { number: _, ms: _ } => true,
        LinkAct::NeedCreds => true,
        LinkAct::NeedRenewals => true,
        LinkAct::Push { info: _ } => true,
        LinkAct::Write { bytes: _ } => true,
        LinkAct::SetUp {
            message: _,
            need: _,
            len: _,
        } => true,
        LinkAct::Renewed {
            message: _,
            need: _,
            len: _,
        } => true,
        _ => false,
    }
}

impl ConnectionManager {
    ghost use Rattle.driver_model.specs.News.{told};
    ghost use Rattle.mux_conn.specs.Effects.{IsWithin};
    ghost use Rattle.conn_manager.specs.Hearing.{has_names, set_up, opening_failed, opened, resubscribed};
    ghost use Rattle.conn_manager.specs.Hearing.{closed, came_to, waits, starts, noted, noted_each};
    ghost use Rattle.conn_manager.specs.Hearing.{is_passed_on, is_said};
    ghost use Rattle.conn_manager.specs.Hearing.{affected, timed_out};
    ghost use Rattle.conn_manager.specs.Manager.{standing};

    /// Whether some name is subscribed.
    fn has_names(&self, alloc: Global) -> Result<bool, AllocError>
        ensures { IfOk result (λ some. some ≡ has_names self.now.tracker.held) }
    {
        let pipeline = self.tracker.get_subscription_pipeline(alloc)?;
        let some = pipeline.len() != 0;
        Ok(some)
    }

    /// The link is set up.
    fn set_up(&mut self, alloc: Global) -> Result<(), AllocError>
        ensures done { OnOk result (self.new ≡ set_up self.old) }
        ensures stands { standing self.new ≡ standing self.old }
    {
        let subscribed = self.has_names(alloc)?;
        self.generations.set_up(subscribed)
    }

    /// The opening of the link fails; where it was the last attempt, those that wait are answered.
    fn fail_opening(
        &mut self,
        alloc: Global,
        error: &RedisError,
        draw: u64,
    ) -> Result<(), AllocError>
        ensures done { OnOk result (self.new ≡ opening_failed self.old error.now draw) }
        ensures stands { standing self.new ≡ standing self.old }
    {
        self.generations.fail(alloc, error, draw)?;
        self.answer_failure(alloc)
    }

    /// The link is set up, or its opening fails.
    fn open(
        &mut self,
        alloc: Global,
        draw: u64,
        error: Option<RedisError>,
    ) -> Result<(), AllocError>
        ensures done { OnOk result (self.new ≡ opened self.old draw error) }
        ensures stands { standing self.new ≡ standing self.old }
    {
        match error {
            None => self.set_up(alloc),
            Some(error) => {
                let failed = self.fail_opening(alloc, &error, draw);
                drop(error);
                failed
            }
        }
    }

    /// The link is closed.
    fn close(&mut self) -> Result<(), AllocError>
        ensures done { OnOk result (self.new ≡ closed self.old) }
        ensures stands { standing self.new ≡ standing self.old }
    {
        let link = self.link();
        self.say(ManagerAct::Close { link })?;
        self.generations.lose()
    }

    /// A request of the connection is answered.
    fn come_to(&mut self, alloc: Global, request: u32, outcome: Outcome) -> Result<(), AllocError>
        ensures done { OnOk result (self.new ≡ came_to self.old request outcome) }
        ensures stands { standing self.new ≡ standing self.old }
    {
        if request == RESUBSCRIPTION {
            drop(outcome);
            return self.generations.resubscribed();
        }
        self.answer(alloc, request, outcome)
    }

    /// A request of the connection waits.
    fn show_wait_of(&mut self, request: u32, wait: WaitKind) -> Result<(), AllocError>
        ensures done { OnOk result (self.new ≡ waits self.old request wait) }
        ensures stands { standing self.new ≡ standing self.old }
    {
        if request == RESUBSCRIPTION {
            return Ok(());
        }
        self.say(ManagerAct::Wait {
            request: Pending { number: request },
            wait,
        })
    }

    /// The message of a request of the connection starts.
    fn show_start(
        &mut self,
        message: u32,
        request: u32,
        need: u64,
        len: u64,
    ) -> Result<(), AllocError>
        ensures done { OnOk result (self.new ≡ starts self.old message request need len) }
        ensures stands { standing self.new ≡ standing self.old }
    {
        let link = self.link();
        if request == RESUBSCRIPTION {
            return self.say(ManagerAct::Resubscribe {
                link,
                message,
                need,
                len,
            });
        }
        self.say(ManagerAct::Start {
            link,
            message,
            request: Pending { number: request },
            need,
            len,
        })
    }

    /// An act of the connection that the manager says as its own is said.
    fn say_of_link(&mut self, draw: u64, act: LinkAct) -> Result<(), AllocError>
        requires { is_said act ≡ true }
        ensures done { OnOk result (self.new ≡ noted self.old draw act) }
        ensures stands { standing self.new ≡ standing self.old }
    {
        let link = self.link();
        match act {
            LinkAct::Took { request, count } => self.say(ManagerAct::Took {
                request: Pending { number: request },
                count,
            }),
            LinkAct::Timer { request, ms } => self.say(response_timer(request, ms)),
            LinkAct::RenewalTimer { number, ms } => self.say(ManagerAct::Timer {
                timer: ManagerTimer::Renewal { link, number },
                ms,
            }),
            LinkAct::NeedCreds => self.say(ManagerAct::NeedCreds { link }),
            LinkAct::NeedRenewals => self.say(ManagerAct::NeedCreds { link }),
            LinkAct::Push { info } => self.say(ManagerAct::Push { link, info }),
            LinkAct::Write { bytes } => self.say(ManagerAct::Write { link, bytes }),
            LinkAct::SetUp { message, need, len } => self.say(ManagerAct::SetUp {
                link,
                message,
                need,
                len,
            }),
            LinkAct::Renewed { message, need, len } => self.say(ManagerAct::Renewed {
                link,
                message,
                need,
                len,
            }),
            _ => unreachable!(),
        }
    }

    /// An act of the connection that changes nothing of the manager's own is passed on, or let go.
    #[tactic(auto, using(crate::proofs::Said::unsaid))]
    fn pass_on(&mut self, draw: u64, act: LinkAct) -> Result<(), AllocError>
        requires { is_passed_on act ≡ true }
        ensures done { OnOk result (self.new ≡ noted self.old draw act) }
        ensures stands { standing self.new ≡ standing self.old }
    {
        if is_said(&act) {
            return self.say_of_link(draw, act);
        }
        drop(act);
        Ok(())
    }

    /// An act of the connection.
    fn note(&mut self, alloc: Global, draw: u64, act: LinkAct) -> Result<(), AllocError>
        ensures done { OnOk result (self.new ≡ noted self.old draw act) }
        ensures stands { standing self.new ≡ standing self.old }
    {
        match act {
            LinkAct::Created { error } => self.open(alloc, draw, error),
            LinkAct::Close => self.close(),
            LinkAct::Wait { request, wait } => self.show_wait_of(request, wait),
            LinkAct::Start {
                message,
                request,
                need,
                len,
            } => self.show_start(message, request, need, len),
            LinkAct::Outcome { request, outcome } => self.come_to(alloc, request, outcome),
            other => self.pass_on(draw, other),
        }
    }

    /// Acts of the connection, in order.
    pub(crate) fn note_each(
        &mut self,
        alloc: Global,
        draw: u64,
        acts: Vec<LinkAct>,
    ) -> Result<(), AllocError>
        ensures done { OnOk result (self.new ≡ noted_each self.old draw acts.items) }
        ensures stands { standing self.new ≡ standing self.old }
    {
        let mut rest = Queue::from_vec(acts);
        while let Some(act) = rest.pop_front() {
            self.note(alloc, draw, act)?;
        }
        Ok(())
    }

    /// News of its link has its effect on the connection.
    pub(crate) fn affect(
        &mut self,
        alloc: Global,
        draw: u64,
        news: LinkNews<'_>,
    ) -> Result<(), ConnectionError>
        requires { IsWithin self.old.conn.life (told news) }
        ensures done { OnOk result (self.new ≡ affected self.old draw (told news.entry)) }
        ensures spent { IsErrOf result ConnectionError.Spent
            → self.old.conn.failure ≡ Some ConnectionError.Spent }
        ensures stands { standing self.new ≡ standing self.old }
    {
        let mut acts = Vec::new(alloc);
        match self.conn.apply(alloc, news, &mut acts) {
            Ok(()) => {}
            Err(error) => return Err(error),
        }
        self.note_each(alloc, draw, acts)?;
        Ok(())
    }

    /// The time of a request of the connection is over.
    pub(crate) fn time_out(
        &mut self,
        alloc: Global,
        draw: u64,
        number: u32,
    ) -> Result<(), AllocError>
        ensures done { OnOk result (self.new ≡ timed_out self.old draw number) }
        ensures stands { standing self.new ≡ standing self.old }
    {
        let mut acts = Vec::new(alloc);
        self.conn.time_out(Pending { number }, &mut acts)?;
        self.note_each(alloc, draw, acts)
    }
}
