ghost use Rattle.std.specs.Prelude.{◌≡◌, ◌↔◌, None, OnOk, IfOk, IfErr, IsTrue, option_copied};
ghost use Rattle.manager_config.specs.Config.{default_manager};
ghost use Rattle.manager_config.specs.Refused.{first_fault, RefusesManager};
ghost use Rattle.mux_client.specs.Connection.{heard_by};
ghost use Rattle.conn_manager.specs.Manager.{connection_of};
ghost use Rattle.conn_manager.specs.Calls.{blank, eager, lazy, left_on, RefusesMaking};

use crate::manager::ConnectionManager;
use crate::request::Stage;
use connection_info::{
    AsyncConnectionConfig, Client, OpenError, ProtocolVersion, RedisConnectionInfo,
};
use containers::{Queue, Seq};
use driver_model::{Hearing, Outcome};
use manager_config::{ConnectionManagerConfig, a_config_is_taken_where_no_check_fails};
use manager_generations::{Generations, ManagerAct, Settings};
use mux_conn::{Life, MultiplexedConnection as Core, Pending, Renewal};
use std::alloc::{AllocError, Global};
use sub_tracker::SubscriptionTracker;

/// How a manager behaves whose connections speak this protocol, where nothing of that is refused.
fn settings(
    config: &ConnectionManagerConfig,
    protocol: ProtocolVersion,
) -> Result<Settings, OpenError>
    ensures ok { IfOk result (λ s. s.config ≡ config.now) }
    ensures sound { OnOk result (first_fault protocol config.now ≡ None) }
    ensures err { IfErr result (RefusesManager protocol config.now) }
{
    match config.check(protocol) {
        Ok(()) => {}
        Err(error) => return Err(error),
    }
    a_config_is_taken_where_no_check_fails();
    Ok(Settings { config: *config })
}

/// What is heard where pushes are sent on, or aren't.
fn heard_by(pushes: bool) -> Hearing
    ensures { result ≡ heard_by pushes }
{
    if pushes {
        Hearing::Pushes
    } else {
        Hearing::Nothing
    }
}

/// A connection over a link whose connect isn't answered, where `told` is said to the server before the first request.
pub(crate) fn connection(
    alloc: Global,
    config: AsyncConnectionConfig,
    told: RedisConnectionInfo,
) -> Result<Core, AllocError>
    ensures { IfOk result (λ conn. conn ≡ connection_of config told) }
{
    let renewal = Renewal::new(alloc, config.credentials_provider, config.response_timeout);
    Core::new(
        alloc,
        config.pipeline_buffer_size,
        config.write_backpressure_boundary,
        config.concurrency_limit,
        heard_by(config.push_sender),
        told,
        renewal,
    )
}

/// A manager of which nothing is known but how it behaves, and what is said to its server.
fn blank(
    alloc: Global,
    info: &RedisConnectionInfo,
    settings: Settings,
    created: bool,
) -> Result<ConnectionManager, AllocError>
    ensures { IfOk result (λ m. m ≡ blank info.now settings created) }
{
    let kept = info.clone(alloc)?;
    let told = info.clone(alloc)?;
    let conn = connection(alloc, settings.config.connection, told)?;
    let resp3 = info.protocol.supports_resp3();
    Ok(ConnectionManager {
        info: kept,
        generations: Generations::new(alloc, settings, resp3, created),
        conn,
        stages: Seq::new(alloc),
        outcomes: Seq::new(alloc),
        calls: Seq::new(alloc),
        held: Queue::new(alloc),
        fresh: Queue::new(alloc),
        recent: Queue::new(alloc),
        wait: None,
        tracker: SubscriptionTracker::new(alloc),
        failure: None,
    })
}

impl ConnectionManager {
    ghost use Rattle.driver_model.specs.News.{took};
    ghost use Rattle.mux_client.specs.Events.{on_link};
    ghost use Rattle.conn_manager.specs.Fitting.{IsFitting};
    ghost use Rattle.conn_manager.specs.Calls.{cancelled, outcome_of};

    /// A manager of connections to the client's server, that behaves as `ConnectionManagerConfig::new` says.
    pub fn new(alloc: Global, client: &Client) -> Result<ConnectionManager, OpenError>
        ensures ok { IfOk result (λ m. m ≡ eager client.now.redis m.generations.settings) }
        ensures config { IfOk result (λ m. m.generations.settings.config ≡ default_manager) }
        ensures err { IfErr result (RefusesMaking client.now.redis.protocol default_manager) }
    {
        ConnectionManager::new_with_config(alloc, client, &ConnectionManagerConfig::new())
    }

    /// A manager of connections to the client's server, which begins its first generation: the first step shows that, and the
    /// link that is wanted. `Client` comes exactly where it is to subscribe again without a push sender, and else `Config` with
    /// the name of what is refused first.
    pub fn new_with_config(
        alloc: Global,
        client: &Client,
        config: &ConnectionManagerConfig,
    ) -> Result<ConnectionManager, OpenError>
        ensures ok { IfOk result (λ m. m ≡ eager client.now.redis m.generations.settings) }
        ensures config { IfOk result (λ m. m.generations.settings.config ≡ config.now) }
        ensures sound { OnOk result (first_fault client.now.redis.protocol config.now ≡ None) }
        ensures err { IfErr result (RefusesMaking client.now.redis.protocol config.now) }
    {
        let info = client.get_connection_info();
        match settings(config, info.redis.protocol) {
            Ok(settings) => make_eager(alloc, &info.redis, settings),
            Err(error) => Err(error),
        }
    }

    /// The same, but made at once: it begins its first generation with its first request.
    pub fn new_lazy_with_config(
        alloc: Global,
        client: &Client,
        config: &ConnectionManagerConfig,
    ) -> Result<ConnectionManager, OpenError>
        ensures ok { IfOk result (λ m. m ≡ lazy client.now.redis m.generations.settings) }
        ensures config { IfOk result (λ m. m.generations.settings.config ≡ config.now) }
        ensures sound { OnOk result (first_fault client.now.redis.protocol config.now ≡ None) }
        ensures err { IfErr result (RefusesMaking client.now.redis.protocol config.now) }
    {
        let info = client.get_connection_info();
        match settings(config, info.redis.protocol) {
            Ok(settings) => make_lazy(alloc, &info.redis, settings),
            Err(error) => Err(error),
        }
    }

    /// Whether the link of this number may take so many bytes: no more than were offered. One that was asked for before the last
    /// one has ended. Takes no memory.
    pub fn can_take(&self, link: u32, count: u64) -> bool
        ensures { IsTrue result ↔ IsFitting self.now (on_link link (took count)) }
    {
        if !self.is_current(link) {
            return true;
        }
        match &self.conn.life {
            Life::Ready { link } => count <= link.offered_len(),
            Life::SettingUp { link, greeting: _ } => count <= link.offered_len(),
            Life::Wanting { link } => count <= link.offered_len(),
            Life::Resting => true,
            Life::Dialing => true,
            Life::Ended { error: _ } => true,
        }
    }

    /// The outcome of a request: none while it is pending. Takes no memory. A manager that has failed answers as before.
    pub fn poll(&self, request: &Pending) -> Option<&Outcome>
        ensures { option_copied result ≡ outcome_of self.now request.now.number }
    {
        if request.number as usize >= self.outcomes.len() {
            return None;
        }
        self.outcomes.at(request.number as usize).as_ref()
    }

    /// The caller of a request has gone: a request that is pending gets no outcome. Its message leaves the queue, or, where it
    /// has started, keeps its place in the line of replies. Takes no memory.
    pub fn cancel(&mut self, request: Pending)
        ensures { self.new ≡ cancelled self.old request.number }
    {
        if !self.is_open(request.number) {
            return;
        }
        let place = request.number as usize;
        let stage = *self.stages.at(place);
        self.stages.set(place, Stage::Closed);
        match stage {
            Stage::Held => {}
            Stage::Sent { link, number } => self.leave(link, number),
            Stage::Closed => {}
        }
    }

    /// The caller of a request has gone that was handed to the link of this number.
    fn leave(&mut self, link: u32, number: u32)
        ensures { self.new ≡ left_on self.old link number }
    {
        if !self.is_current(link) {
            return;
        }
        self.conn.cancel(Pending { number });
    }
}

/// A manager whose first generation begins at once.
fn make_eager(
    alloc: Global,
    info: &RedisConnectionInfo,
    settings: Settings,
) -> Result<ConnectionManager, OpenError>
    ensures ok { IfOk result (λ m. m ≡ eager info.now settings) }
    ensures err { IfErr result (λ e. e ≡ OpenError.NoMemory) }
{
    let mut manager = blank(alloc, info, settings, false)?;
    match manager.begin(alloc) {
        Ok(()) => Ok(manager),
        Err(_) => Err(OpenError::NoMemory),
    }
}

/// A manager that is made at once.
fn make_lazy(
    alloc: Global,
    info: &RedisConnectionInfo,
    settings: Settings,
) -> Result<ConnectionManager, OpenError>
    ensures ok { IfOk result (λ m. m ≡ lazy info.now settings) }
    ensures err { IfErr result (λ e. e ≡ OpenError.NoMemory) }
{
    let mut manager = blank(alloc, info, settings, true)?;
    manager.say(ManagerAct::Created { error: None })?;
    Ok(manager)
}
