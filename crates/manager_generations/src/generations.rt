ghost use Rattle.std.specs.Prelude.{◌≡◌, ◌<◌, true, None, OnOk, IsErrOf};

use crate::act::{ManagerAct, ManagerTimer};
use crate::phase::Phase;
use crate::settings::Settings;
use containers::Seq;
use manager_config::backoff_ms;
use mux_conn::ConnectionError;
use redis_error::RedisError;
use std::alloc::{AllocError, Global};

/// The generations of a manager: each is some attempts to connect, one after another, until a link is set up or all have
/// failed; and one follows another where a cause for that came. Beside them stands what is to be shown.
pub struct Generations {
    pub settings: Settings,
    /// Whether the connections speak RESP3.
    pub resp3: bool,
    /// Whether it was shown that the manager is made.
    pub created: bool,
    /// Whether its creation has failed, or everything was shut down: nothing begins any more.
    pub halted: bool,
    /// The number of the current generation; 0 while none has begun.
    pub number: u32,
    /// Its attempt, counted from 0.
    pub attempt: u32,
    /// How many links were asked for.
    pub links: u32,
    pub phase: Phase,
    /// Whether a cause for the next generation came in this turn.
    pub due: bool,
    /// What is to be shown with this step, or the next.
    pub acts: Seq<ManagerAct>,
}

impl Drop for Generations {
    fn drop(self) {
        let Generations {
            settings: _,
            resp3: _,
            created: _,
            halted: _,
            number: _,
            attempt: _,
            links: _,
            phase,
            due: _,
            acts,
        } = self;
        drop(phase);
        drop(acts);
    }
}

impl Generations {
    ghost use Rattle.manager_generations.specs.Generations.{shown, at_phase, unbegun, bounded, connect_within};
    ghost use Rattle.manager_generations.specs.Generations.{dialed, begun, creation_shown, made_ready, goes_on};
    ghost use Rattle.manager_generations.specs.Generations.{set_up, resubscribed, runs_out};

    /// None has begun. `created` says whether it was shown that the manager is made.
    pub fn new(alloc: Global, settings: Settings, resp3: bool, created: bool) -> Generations
        ensures { result ≡ unbegun settings resp3 created }
    {
        Generations {
            settings,
            resp3,
            created,
            halted: false,
            number: 0,
            attempt: 0,
            links: 0,
            phase: Phase::Idle,
            due: false,
            acts: Seq::new(alloc),
        }
    }

    /// One more act.
    pub fn show(&mut self, act: ManagerAct) -> Result<(), AllocError>
        ensures { OnOk result (self.new ≡ shown self.old act) }
    {
        self.acts.push(act)
    }

    /// The current generation has come so far.
    fn enter(&mut self, phase: Phase)
        ensures { self.new ≡ at_phase self.old phase }
    {
        let before = std::mem::replace(&mut self.phase, phase);
        drop(before);
    }

    /// The timer of a connect that is bounded.
    fn bound(&mut self, link: u32) -> Result<(), AllocError>
        ensures { OnOk result (self.new ≡ bounded self.old link (connect_within self.old)) }
    {
        match self.settings.config.connection_timeout() {
            None => Ok(()),
            Some(ms) => self.show(ManagerAct::Timer {
                timer: ManagerTimer::Connect { link },
                ms,
            }),
        }
    }

    /// The next link is asked for.
    fn dial(&mut self) -> Result<(), ConnectionError>
        ensures done { OnOk result (self.new ≡ dialed self.old) }
        ensures spent { IsErrOf result ConnectionError.Spent → runs_out (dialed self.old) ≡ true }
    {
        let link = self.links;
        if link == u32::MAX {
            return Err(ConnectionError::Spent);
        }
        self.links = link + 1;
        self.enter(Phase::Opening);
        self.show(ManagerAct::Connect { link })?;
        self.bound(link)?;
        Ok(())
    }

    /// The next generation begins with its first attempt.
    pub fn begin(&mut self) -> Result<(), ConnectionError>
        ensures done { OnOk result (self.new ≡ begun self.old) }
        ensures spent { IsErrOf result ConnectionError.Spent → runs_out (begun self.old) ≡ true }
    {
        let last = self.number;
        if last == u32::MAX {
            return Err(ConnectionError::Spent);
        }
        self.number = last + 1;
        self.attempt = 0;
        self.due = false;
        self.show(ManagerAct::Generation { number: last + 1 })?;
        self.dial()
    }

    /// That the manager is made is shown once.
    fn show_creation(&mut self) -> Result<(), AllocError>
        ensures { OnOk result (self.new ≡ creation_shown self.old) }
    {
        if self.created {
            return Ok(());
        }
        self.created = true;
        self.show(ManagerAct::Created { error: None })
    }

    /// The generation is ready.
    fn make_ready(&mut self) -> Result<(), AllocError>
        ensures { OnOk result (self.new ≡ made_ready self.old) }
    {
        self.enter(Phase::Ready);
        self.show_creation()
    }

    /// The generation is ready, or subscribes again first, where it is to and there are names to subscribe.
    fn go_on(&mut self, subscribed: bool) -> Result<(), AllocError>
        ensures { OnOk result (self.new ≡ goes_on self.old subscribed) }
    {
        if self.settings.config.automatic_resubscription() && subscribed {
            self.enter(Phase::Resubscribing);
            return Ok(());
        }
        self.make_ready()
    }

    /// The link of an attempt is set up: the generation is ready, or subscribes again first, where it is to, and `subscribed`
    /// says that there are names to subscribe.
    pub fn set_up(&mut self, subscribed: bool) -> Result<(), AllocError>
        ensures { OnOk result (self.new ≡ set_up self.old subscribed) }
    {
        match &self.phase {
            Phase::Opening => self.go_on(subscribed),
            Phase::Idle => Ok(()),
            Phase::Resting => Ok(()),
            Phase::Resubscribing => Ok(()),
            Phase::Ready => Ok(()),
            Phase::Lost => Ok(()),
            Phase::Failed { error: _ } => Ok(()),
        }
    }

    /// What was subscribed is subscribed again, or can't be.
    pub fn resubscribed(&mut self) -> Result<(), AllocError>
        ensures { OnOk result (self.new ≡ resubscribed self.old) }
    {
        match &self.phase {
            Phase::Resubscribing => self.make_ready(),
            Phase::Idle => Ok(()),
            Phase::Opening => Ok(()),
            Phase::Resting => Ok(()),
            Phase::Ready => Ok(()),
            Phase::Lost => Ok(()),
            Phase::Failed { error: _ } => Ok(()),
        }
    }
}

impl Generations {
    ghost use Rattle.manager_generations.specs.Generations.{rests, creation_failed, retries, has_attempts};
    ghost use Rattle.manager_generations.specs.Generations.{attempt_failed, rested, rests_behind, tried_again};
    ghost use Rattle.manager_generations.specs.Generations.{lost, is_cause_at, answered_with, begins_next};
    ghost use Rattle.manager_generations.specs.Generations.{outcomes_done, shut_down, at_phase, made_ready, runs_out};

    /// Whether another attempt is left.
    fn has_attempts(&self) -> bool
        ensures value { result ≡ has_attempts self.now }
        ensures left { result ≡ true → self.now.attempt < self.now.settings.config.number_of_retries }
    {
        self.attempt < self.settings.config.number_of_retries()
    }

    /// A wait before the next attempt, of a length that this word draws.
    fn rest(&mut self, draw: u64) -> Result<(), AllocError>
        ensures { OnOk result (self.new ≡ rests self.old draw) }
    {
        let settings = self.settings;
        let ms = backoff_ms(&settings.config, self.attempt, draw);
        let generation = self.number;
        let attempt = self.attempt;
        self.enter(Phase::Resting);
        self.show(ManagerAct::Timer {
            timer: ManagerTimer::Backoff {
                generation,
                attempt,
            },
            ms,
        })
    }

    /// Where the manager isn't made yet its creation fails, and nothing begins any more.
    fn fail_creation(&mut self, alloc: Global, error: &RedisError) -> Result<(), AllocError>
        ensures { OnOk result (self.new ≡ creation_failed self.old error.now) }
    {
        if self.created {
            return Ok(());
        }
        let copy = error.clone(alloc)?;
        self.halted = true;
        self.show(ManagerAct::Created { error: Some(copy) })
    }

    /// Another attempt follows after a wait, or the generation has failed with this error.
    fn retry(&mut self, alloc: Global, error: &RedisError, draw: u64) -> Result<(), AllocError>
        ensures { OnOk result (self.new ≡ retries self.old error.now draw) }
    {
        if self.has_attempts() {
            return self.rest(draw);
        }
        let kept = error.clone(alloc)?;
        self.enter(Phase::Failed { error: kept });
        self.fail_creation(alloc, error)
    }

    /// An attempt fails: another follows after a wait of a length that this word draws, or the generation has failed with this
    /// error.
    pub fn fail(&mut self, alloc: Global, error: &RedisError, draw: u64) -> Result<(), AllocError>
        ensures { OnOk result (self.new ≡ attempt_failed self.old error.now draw) }
    {
        match &self.phase {
            Phase::Opening => self.retry(alloc, error, draw),
            Phase::Idle => Ok(()),
            Phase::Resting => Ok(()),
            Phase::Resubscribing => Ok(()),
            Phase::Ready => Ok(()),
            Phase::Lost => Ok(()),
            Phase::Failed { error: _ } => Ok(()),
        }
    }

    /// Whether another attempt is left, before which it waits behind this one of this generation.
    pub fn rests_behind(&self, generation: u32, attempt: u32) -> bool
        ensures value { result ≡ rests_behind self.now generation attempt }
        ensures left { result ≡ true → self.now.attempt < self.now.settings.config.number_of_retries }
    {
        self.phase.is_resting()
            && self.number == generation
            && self.attempt == attempt
            && self.has_attempts()
    }

    /// The next attempt begins.
    fn try_again(&mut self) -> Result<(), ConnectionError>
        requires { self.old.attempt < self.old.settings.config.number_of_retries }
        ensures done { OnOk result (self.new ≡ tried_again self.old) }
        ensures spent { IsErrOf result ConnectionError.Spent → runs_out (tried_again self.old) ≡ true }
    {
        let _retries = self.settings.config.number_of_retries();
        self.attempt += 1;
        self.dial()
    }

    /// The wait behind this attempt of this generation is over: the next attempt begins.
    pub fn rested(&mut self, generation: u32, attempt: u32) -> Result<(), ConnectionError>
        ensures done { OnOk result (self.new ≡ rested self.old generation attempt) }
        ensures spent { IsErrOf result ConnectionError.Spent
            → runs_out (rested self.old generation attempt) ≡ true }
    {
        if !self.rests_behind(generation, attempt) {
            return Ok(());
        }
        self.try_again()
    }

    /// The link of the generation has ended before it was ready.
    fn lose_early(&mut self) -> Result<(), AllocError>
        ensures { OnOk result (self.new ≡ at_phase (made_ready self.old) Phase.Lost) }
    {
        self.make_ready()?;
        self.enter(Phase::Lost);
        Ok(())
    }

    /// The link of the generation has ended.
    pub fn lose(&mut self) -> Result<(), AllocError>
        ensures { OnOk result (self.new ≡ lost self.old) }
    {
        match &self.phase {
            Phase::Ready => {
                self.enter(Phase::Lost);
                self.due = self.due || self.resp3;
                Ok(())
            }
            Phase::Resubscribing => self.lose_early(),
            Phase::Idle => Ok(()),
            Phase::Opening => Ok(()),
            Phase::Resting => Ok(()),
            Phase::Lost => Ok(()),
            Phase::Failed { error: _ } => Ok(()),
        }
    }

    /// Whether it is a cause for the next generation that a request of this one is answered with this error.
    fn is_cause(&self, error: &RedisError) -> bool
        ensures { result ≡ is_cause_at self.now.phase error.now }
    {
        match &self.phase {
            Phase::Failed { error: _ } => error.is_io_error(),
            Phase::Idle => error.is_unrecoverable_error(),
            Phase::Opening => error.is_unrecoverable_error(),
            Phase::Resting => error.is_unrecoverable_error(),
            Phase::Resubscribing => error.is_unrecoverable_error(),
            Phase::Ready => error.is_unrecoverable_error(),
            Phase::Lost => error.is_unrecoverable_error(),
        }
    }

    /// A request of the generation is answered with this error.
    pub fn answer(&mut self, error: &RedisError)
        ensures { self.new ≡ answered_with self.old error.now }
    {
        let cause = self.is_cause(error);
        self.due = self.due || cause;
    }

    /// Whether the next generation is to begin.
    pub fn begins_next(&self) -> bool
        ensures { result ≡ begins_next self.now }
    {
        self.due && !self.halted
    }

    /// All outcomes of the turn's event came: the next generation begins, where a cause came.
    pub fn finish_outcomes(&mut self) -> Result<(), ConnectionError>
        ensures done { OnOk result (self.new ≡ outcomes_done self.old) }
        ensures spent { IsErrOf result ConnectionError.Spent → runs_out (outcomes_done self.old) ≡ true }
    {
        if !self.begins_next() {
            return Ok(());
        }
        self.begin()
    }

    /// Everything is shut down: requests are answered with the closed connection, and nothing begins any more.
    pub fn shut_down(&mut self)
        ensures { self.new ≡ shut_down self.old }
    {
        self.enter(Phase::Failed {
            error: RedisError::Closed,
        });
        self.halted = true;
    }
}
