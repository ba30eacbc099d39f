ghost use Rattle.std.specs.Prelude.{◌≡◌, ◌<◌, ◌-◌, ◌^◌, ◌++◌, OnOk, IfOk, option_map};
ghost use Rattle.single_session.specs.Generations.{fails_creation, creation_fails, has_ended};
ghost use Rattle.single_session.specs.Generations.{is_cause, is_cause_in, shows_cause, has_cause};
ghost use Rattle.single_session.specs.Generations.{took_requests, bound_of, is_last_of, repeat_in, connect_purposes};

use crate::core_state::Core;
use crate::subscriptions::Subscriptions;
use connection_info::ConnectionInfo;
use containers::Seq;
use driver_model::{EventKind, Outcome, Purpose};
use manager_config::ConnectionManagerConfig;
use mux_conn::{Again, Life, LinkAct, MultiplexedConnection};
use redis_error::RedisError;
use std::alloc::{AllocError, Global};

/// The generations of a manager: each is some attempts to connect, one after another, until a link is set up or all of them have
/// failed; and one follows another where there is a cause for it.
#[derive(Drop)]
pub struct Generations {
    /// How the manager behaves.
    pub settings: ConnectionManagerConfig,
    /// Where it connects.
    pub info: ConnectionInfo,
    /// How many began.
    pub number: u64,
    /// How many attempts of the current one failed.
    pub attempt: u32,
    /// The timer of the wait behind a failed attempt, while that goes on.
    pub rest: Option<u64>,
    /// Whether the creation failed, so that no generation begins any more.
    pub halted: bool,
    /// What is subscribed, which a new link subscribes again where the manager does so.
    pub subscribed: Subscriptions,
}

/// What a manager does of its own in a turn, once the event has had its effect. What timer it asks for has the number `timer`.
#[derive(Clone, Copy, PartialEq, Eq)]
pub enum Comeback {
    /// Nothing.
    Stays,
    /// This attempt of this generation failed, counted from 0: another one follows behind a wait.
    Rests {
        generation: u32,
        attempt: u32,
        timer: u64,
    },
    /// This link is asked for, by the next attempt, or by the first of this generation.
    Dials {
        link: u32,
        generation: Option<u64>,
        timer: u64,
    },
}

impl Generations {
    ghost use Rattle.single_session.specs.Generations.{generations_at, is_last, is_timer, wakes, heeded};
    ghost use Rattle.single_session.specs.Generations.{failed_behind, begun_with, repeat_for};

    /// So many generations began of a manager that behaves so, and connects there. No attempt has failed, and nothing is subscribed.
    pub(crate) fn new(
        alloc: Global,
        settings: ConnectionManagerConfig,
        info: ConnectionInfo,
        number: u64,
    ) -> Generations
        ensures { result ≡ generations_at settings info number }
    {
        Generations {
            settings,
            info,
            number,
            attempt: 0,
            rest: None,
            halted: false,
            subscribed: Subscriptions::new(alloc),
        }
    }

    /// Whether no other attempt of its generation follows the one that begins.
    pub(crate) fn is_last(&self) -> bool
        ensures { result ≡ is_last self.now.settings self.now.attempt }
    {
        self.settings.number_of_retries() <= self.attempt
    }

    /// Whether it is the timer of the wait.
    fn is_timer(&self, timer: u32) -> bool
        ensures { result ≡ is_timer self.now.rest timer }
    {
        match self.rest {
            Some(rest) => rest == u64::from(timer),
            None => false,
        }
    }

    /// Whether the wait behind a failed attempt is over.
    fn wakes(&self, event: &EventKind) -> bool
        ensures { result ≡ wakes self.now event.now }
    {
        match event {
            EventKind::Fired { timer } => self.is_timer(*timer),
            _ => false,
        }
    }

    /// An event came, which showed these acts: a wait may be over, or the creation have failed; and subscription calls may be
    /// handed in, or confirmed.
    fn heed(&mut self, alloc: Global, event: &EventKind, acts: &[LinkAct]) -> Result<(), AllocError>
        ensures { OnOk result (self.new ≡ heeded self.old event.now acts.now) }
    {
        let woken = self.wakes(event);
        let failed = creation_fails(acts);
        self.rest = if woken { None } else { self.rest };
        self.halted = self.halted || failed;
        self.subscribed.inform(alloc, event, acts)
    }

    /// What is subscribed again on the next link: all that is subscribed, where the manager does so.
    fn again(&self, alloc: Global) -> Result<Again, AllocError>
        ensures { IfOk result (λ again. again ≡ repeat_for self.now) }
    {
        if !self.settings.automatic_resubscription() {
            return Ok(Again::Nothing);
        }
        self.subscribed.again(alloc)
    }

    /// This attempt failed, and that timer is asked for behind it.
    fn fail(&mut self, attempt: u32, timer: u64)
        requires { attempt < 2 ^ 32 - 1 }
        ensures { self.new ≡ failed_behind self.old attempt timer }
    {
        self.attempt = attempt + 1;
        self.rest = Some(timer);
    }

    /// That generation begins.
    fn begin(&mut self, number: u64)
        ensures { self.new ≡ begun_with self.old number }
    {
        self.number = number;
        self.attempt = 0;
        self.rest = None;
    }
}

impl Core {
    ghost use Rattle.mux_conn.specs.Effects.{afresh};
    ghost use Rattle.single_session.specs.Generations.{wakes_in, heeding, is_caused, is_due, rests};
    ghost use Rattle.single_session.specs.Generations.{comeback_of, comeback_in, failed_behind, rested};
    ghost use Rattle.single_session.specs.Generations.{begun_with, begun, dialling, came_back};
    ghost use Rattle.single_session.specs.Generations.{AreFew, IsCounted, IsRestable};

    /// Whether there is a cause for the next generation, where the link was over before the event or not.
    fn is_caused(&self, over: bool, acts: &[LinkAct]) -> bool
        ensures { result ≡ is_caused over self.now.single.connection acts.now }
    {
        let connection = &self.single.connection;
        let resp3 = connection.info.protocol.supports_resp3();
        let caused = has_cause(connection.opened, acts);
        let lost = !over && took_requests(connection) && resp3;
        has_ended(&connection.life) && (lost || caused)
    }

    /// Whether the next generation is to begin.
    fn is_due(&self, generations: &Generations, over: bool, acts: &[LinkAct]) -> bool
        ensures { result ≡ is_due generations.now over self.now.single.connection acts.now }
    {
        if generations.halted {
            return false;
        }
        if generations.number == 0 {
            return !self.single.connection.waiting.is_empty();
        }
        self.is_caused(over, acts)
    }

    /// Whether an attempt failed that another one follows.
    fn rests(&self) -> bool
        ensures { result ≡ rests self.now }
    {
        self.single.connection.life.is_resting() && u64::from(self.single.link) < self.links
    }

    /// What a manager does of its own.
    fn comeback_of(
        &self,
        generations: &Generations,
        woken: bool,
        over: bool,
        acts: &[LinkAct],
    ) -> Comeback
        requires generations { generations.now.number < 2 ^ 32 }
        requires links { self.now.links < 2 ^ 32 }
        ensures { result ≡ comeback_of generations.now woken over self.now acts.now }
    {
        let timer = self.timers.len() as u64;
        if self.single.connection.is_used_up() {
            return Comeback::Stays;
        }
        if self.rests() {
            return Comeback::Rests {
                generation: generations.number as u32,
                attempt: generations.attempt,
                timer,
            };
        }
        if self.shut {
            return Comeback::Stays;
        }
        let link = self.links as u32;
        if woken {
            return Comeback::Dials {
                link,
                generation: None,
                timer,
            };
        }
        if !self.is_due(generations, over, acts) {
            return Comeback::Stays;
        }
        Comeback::Dials {
            link,
            generation: Some(generations.number + 1),
            timer,
        }
    }

    /// What it does of its own, where it is a manager.
    fn comeback(&self, woken: bool, over: bool, acts: &[LinkAct]) -> Comeback
        requires counted { IsCounted self.now }
        requires links { self.now.links < 2 ^ 32 }
        ensures { result ≡ comeback_in self.now.manager woken over self.now acts.now }
    {
        match &self.manager {
            Some(generations) => self.comeback_of(generations, woken, over, acts),
            None => Comeback::Stays,
        }
    }

    /// Whether the wait behind a failed attempt is over.
    fn wakes(&self, event: &EventKind) -> bool
        ensures { result ≡ wakes_in self.now.manager event.now }
    {
        match &self.manager {
            Some(generations) => generations.wakes(event),
            None => false,
        }
    }

    /// An event came, which showed these acts.
    fn heed(&mut self, alloc: Global, event: &EventKind, acts: &[LinkAct]) -> Result<(), AllocError>
        ensures { OnOk result (self.new ≡ heeding self.old event.now acts.now) }
    {
        match &mut self.manager {
            Some(generations) => generations.heed(alloc, event, acts),
            None => Ok(()),
        }
    }

    /// This attempt failed, and that timer is asked for behind it.
    fn note_failure(&mut self, attempt: u32, timer: u64)
        requires { attempt < 2 ^ 32 - 1 }
        ensures { self.new
            ≡ record self.old { manager = option_map (λ g. failed_behind g attempt timer) self.old.manager } }
    {
        match &mut self.manager {
            Some(generations) => generations.fail(attempt, timer),
            None => {}
        }
    }

    /// Behind this attempt a timer is asked for, and requests wait for the next link.
    fn rest(&mut self, generation: u32, attempt: u32, timer: u64) -> Result<(), AllocError>
        requires attempts { attempt < 2 ^ 32 - 1 }
        requires links { self.old.links < 2 ^ 32 }
        ensures { OnOk result (self.new ≡ rested self.old generation attempt timer) }
    {
        self.timers.push(Purpose::Backoff { generation })?;
        self.single.link = self.links as u32;
        self.note_failure(attempt, timer);
        Ok(())
    }

    /// That generation begins.
    fn note_generation(&mut self, number: u64)
        ensures { self.new
            ≡ record self.old { manager = option_map (λ g. begun_with g number) self.old.manager } }
    {
        match &mut self.manager {
            Some(generations) => generations.begin(number),
            None => {}
        }
    }

    /// That generation begins: of the link before it nothing stays but the requests that wait.
    fn begin(&mut self, alloc: Global, number: u64) -> Result<(), AllocError>
        ensures { OnOk result (self.new ≡ begun self.old number) }
    {
        self.note_generation(number);
        self.single.connection.start_afresh(alloc)
    }

    /// That link is asked for.
    fn dial(&mut self, alloc: Global, link: u32) -> Result<(), AllocError>
        requires { self.old.links < 2 ^ 32 }
        ensures { OnOk result (self.new ≡ dialling self.old link) }
    {
        let last = is_last(&self.manager);
        let again = again(alloc, &self.manager)?;
        note_connect(link, connect_bound(&self.manager), &mut self.timers)?;
        self.links += 1;
        self.single.link = link;
        self.single.connection.dial(alloc, last, again)
    }

    /// What the manager does of its own is done.
    pub(crate) fn come_back(&mut self, alloc: Global, comeback: Comeback) -> Result<(), AllocError>
        requires attempts { IsRestable comeback }
        requires links { self.old.links < 2 ^ 32 }
        ensures { OnOk result (self.new ≡ came_back self.old comeback) }
    {
        match comeback {
            Comeback::Stays => Ok(()),
            Comeback::Rests {
                generation,
                attempt,
                timer,
            } => self.rest(generation, attempt, timer),
            Comeback::Dials {
                link,
                generation: None,
                timer: _,
            } => self.dial(alloc, link),
            Comeback::Dials {
                link,
                generation: Some(number),
                timer: _,
            } => {
                self.begin(alloc, number)?;
                self.dial(alloc, link)
            }
        }
    }

    /// What the manager does of its own behind an event that showed these acts, where its link was over before or not.
    pub(crate) fn choose(
        &mut self,
        alloc: Global,
        event: &EventKind,
        over: bool,
        acts: &[LinkAct],
    ) -> Result<Comeback, AllocError>
        requires counted { IsCounted self.old }
        requires links { self.old.links < 2 ^ 32 }
        ensures core { OnOk result (self.new ≡ heeding self.old event.now acts.now) }
        ensures comeback { IfOk result (λ comeback.
            comeback
            ≡ comeback_in self.new.manager (wakes_in self.old.manager event.now) over self.new acts.now
            ) }
        ensures attempts { IfOk result IsRestable }
    {
        let woken = self.wakes(event);
        self.heed(alloc, event, acts)?;
        Ok(self.comeback(woken, over, acts))
    }
}

/// Whether the link has ended.
pub(crate) fn has_ended(life: &Life) -> bool
    ensures { result ≡ has_ended life.now }
{
    match life {
        Life::Resting => false,
        Life::Dialing => false,
        Life::Wanting { link: _ } => false,
        Life::SettingUp {
            link: _,
            greeting: _,
        } => false,
        Life::Ready { link: _ } => false,
        Life::Ended { error: _ } => true,
    }
}

/// Whether a connection whose link has ended took requests until then.
fn took_requests(connection: &MultiplexedConnection) -> bool
    ensures { result ≡ took_requests connection.now }
{
    connection.opened && !connection.again.is_outstanding()
}

/// Whether an act shows that the creation failed.
fn fails_creation(act: &LinkAct) -> bool
    ensures { result ≡ fails_creation act.now }
{
    match act {
        LinkAct::Created { error } => error.is_some(),
        _ => false,
    }
}

/// Whether one of these does.
fn creation_fails(acts: &[LinkAct]) -> bool
    ensures { result ≡ creation_fails acts.now }
{
    for act in acts {
        if fails_creation(act) {
            return true;
        }
    }
    false
}

/// Whether the error of a request is a cause for the next generation, where its link has ended, and was set up or not.
fn is_cause(opened: bool, error: &RedisError) -> bool
    ensures { result ≡ is_cause opened error.now }
{
    if opened {
        error.is_unrecoverable_error()
    } else {
        error.is_io_error()
    }
}

/// Whether an outcome is one.
fn is_cause_in(opened: bool, outcome: &Outcome) -> bool
    ensures { result ≡ is_cause_in opened outcome.now }
{
    match outcome {
        Outcome::Fault(error) => is_cause(opened, error),
        Outcome::One(_) => false,
        Outcome::Many(_) => false,
        Outcome::Done => false,
    }
}

/// Whether an act shows one.
fn shows_cause(opened: bool, act: &LinkAct) -> bool
    ensures { result ≡ shows_cause opened act.now }
{
    match act {
        LinkAct::Outcome {
            request: _,
            outcome,
        } => is_cause_in(opened, outcome),
        _ => false,
    }
}

/// Whether one of these does.
fn has_cause(opened: bool, acts: &[LinkAct]) -> bool
    ensures { result ≡ has_cause opened acts.now }
{
    for act in acts {
        if shows_cause(opened, act) {
            return true;
        }
    }
    false
}

/// Whether no other attempt of its generation follows the one that begins.
fn is_last(manager: &Option<Generations>) -> bool
    ensures { result ≡ is_last_of manager.now }
{
    match manager {
        Some(generations) => generations.is_last(),
        None => true,
    }
}

/// How many milliseconds a connect may take, if that is bounded.
pub(crate) fn connect_bound(manager: &Option<Generations>) -> Option<u64>
    ensures { result ≡ bound_of manager.now }
{
    match manager {
        Some(generations) => generations.settings.connection_timeout(),
        None => None,
    }
}

/// What is subscribed again on the next link.
fn again(alloc: Global, manager: &Option<Generations>) -> Result<Again, AllocError>
    ensures { IfOk result (λ again. again ≡ repeat_in manager.now) }
{
    match manager {
        Some(generations) => generations.again(alloc),
        None => Ok(Again::Nothing),
    }
}

/// What the timer of the connect of a link is for is kept, where connects are bounded.
fn note_connect(link: u32, bound: Option<u64>, timers: &mut Seq<Purpose>) -> Result<(), AllocError>
    ensures { OnOk result (timers.new ≡ timers.old ++ connect_purposes link bound) }
{
    match bound {
        Some(_) => timers.push(Purpose::Connect { link }),
        None => Ok(()),
    }
}
