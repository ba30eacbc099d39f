ghost use Rattle.std.specs.Prelude.{◌≡◌, Some, None, OnOk, IfOk, IfErr};
ghost use Rattle.std.specs.Prelude.{option_copied, IsTrue, ◌↔◌};
ghost use Rattle.mux_client.specs.Connection.{opened, attached, heard_by, fault_of, outcome_of};
ghost use Rattle.mux_client.specs.Connection.{core_of, connect_timer, RefusesConnection};
ghost use Rattle.mux_client.specs.Calls.{cancelled};
ghost use Rattle.mux_conn.specs.Connection.{is_ready};
ghost use Rattle.mux_conn.specs.Effects.{CanTake};
ghost use Rattle.connection_info.specs.Config.{default_config};

use crate::act::{ConnectionAct, ConnectionTimer};
use connection_info::{AsyncConnectionConfig, OpenError, RedisConnectionInfo};
use containers::Seq;
use driver_model::{Hearing, Outcome};
use mux_conn::{Life, MultiplexedConnection as Core, Pending, Renewal};
use redis_error::ConfigName;
use std::alloc::{AllocError, Global};

/// One connection that many callers share. It opens nothing itself: each `step` is told what happened to its link, and shows
/// what is to be done. A request is sent, polled until it has its outcome, and may be cancelled. Its fields
/// are for contracts: calls alone change them.
pub struct MultiplexedConnection {
    /// The number of its link.
    pub link: u32,
    /// Its requests, and how far they have come.
    pub core: Core,
    /// Within how many milliseconds a request that is sent now is to be answered, if within any.
    pub timeout: Option<u64>,
    /// The outcome of each request that has one, by its number.
    pub outcomes: Seq<Option<Outcome>>,
    /// What is to be shown with the next step.
    pub early: Seq<ConnectionAct>,
}

impl Drop for MultiplexedConnection {
    fn drop(self) {
        let MultiplexedConnection {
            link: _,
            core,
            timeout: _,
            outcomes,
            early,
        } = self;
        drop(core);
        drop(outcomes);
        drop(early);
    }
}

/// What is refused first of a connection's configuration, where this is said to its server, if anything is.
fn fault(info: &RedisConnectionInfo, config: &AsyncConnectionConfig) -> Option<ConfigName>
    ensures { result ≡ fault_of info.now config.now }
{
    if config.push_sender && !info.protocol.supports_resp3() {
        return Some(ConfigName::Push);
    }
    if config.concurrency_limit == Some(0) {
        return Some(ConfigName::Limit);
    }
    if config.pipeline_buffer_size == 0 {
        return Some(ConfigName::Buffer);
    }
    None
}

/// What is heard where pushes are sent on, or aren't.
fn heard_by(pushes: bool) -> Hearing
    ensures { result ≡ heard_by pushes }
{
    if pushes {
        Hearing::Pushes
    } else {
        Hearing::Nothing
    }
}

/// A connection by this configuration, whose connect isn't answered, as its link has it.
fn core_of(
    alloc: Global,
    info: &RedisConnectionInfo,
    config: &AsyncConnectionConfig,
) -> Result<Core, AllocError>
    ensures { IfOk result (λ c. c ≡ core_of info.now config.now) }
{
    let told = info.clone(alloc)?;
    let renewal = Renewal::new(alloc, config.credentials_provider, config.response_timeout);
    Core::new(
        alloc,
        config.pipeline_buffer_size,
        config.write_backpressure_boundary,
        config.concurrency_limit,
        heard_by(config.push_sender),
        told,
        renewal,
    )
}

/// The timer of a connect that is bounded.
fn timer(alloc: Global, timeout: Option<u64>) -> Result<Seq<ConnectionAct>, AllocError>
    ensures { IfOk result (λ acts. acts ≡ connect_timer timeout) }
{
    let mut acts = Seq::new(alloc);
    if let Some(ms) = timeout {
        acts.push(ConnectionAct::Timer {
            timer: ConnectionTimer::Connect,
            ms,
        })?;
    }
    Ok(acts)
}

impl MultiplexedConnection {
    /// A connection over the link of this number, with the default configuration: a second to connect, half a second for a
    /// reply, 50 places, no limit of permits, and a boundary of 8,192 bytes. `info` is what is said to the server before the
    /// first request.
    pub fn new(
        alloc: Global,
        info: &RedisConnectionInfo,
        link: u32,
    ) -> Result<MultiplexedConnection, OpenError>
        ensures ok { IfOk result (λ c. c ≡ opened info.now link default_config) }
        ensures err { IfErr result (RefusesConnection info.now default_config) }
    {
        MultiplexedConnection::new_with_config(alloc, info, link, &AsyncConnectionConfig::new())
    }

    /// A connection over the link of this number, whose connect isn't answered. Whoever makes it asks for the connect; the
    /// timer of the connect stands in the acts of the first step. Where the configuration has a provider of credentials, the
    /// connection asks for a source of them once it is connected, and for another once it is set up. `Config` tells what of its
    /// configuration is refused first: a sender of pushes on RESP2, a limit of no permits and a queue that holds nothing make no
    /// connection.
    pub fn new_with_config(
        alloc: Global,
        info: &RedisConnectionInfo,
        link: u32,
        config: &AsyncConnectionConfig,
    ) -> Result<MultiplexedConnection, OpenError>
        ensures ok { IfOk result (λ c. c ≡ opened info.now link config.now) }
        ensures sound { OnOk result (fault_of info.now config.now ≡ None) }
        ensures err { IfErr result (RefusesConnection info.now config.now) }
    {
        if let Some(name) = fault(info, config) {
            return Err(OpenError::Config(name));
        }
        let early = timer(alloc, config.connection_timeout)?;
        let core = core_of(alloc, info, config)?;
        Ok(MultiplexedConnection {
            link,
            core,
            timeout: config.response_timeout,
            outcomes: Seq::new(alloc),
            early,
        })
    }

    /// A link of publish/subscribe or of monitor mode, by what it `hears`: it has no timers and no permits, and its queue holds
    /// whatever comes. Its connect isn't answered, and whoever makes it asks for it. `info` is what is said to the server first.
    pub fn attach(
        alloc: Global,
        info: &RedisConnectionInfo,
        link: u32,
        hears: Hearing,
    ) -> Result<MultiplexedConnection, AllocError>
        ensures { IfOk result (λ c. c ≡ attached info.now link hears) }
    {
        let told = info.clone(alloc)?;
        let boundary = AsyncConnectionConfig::new().write_backpressure_boundary;
        let renewal = Renewal::new(alloc, false, None);
        let core = Core::new(alloc, u32::MAX, boundary, None, hears, told, renewal)?;
        Ok(MultiplexedConnection {
            link,
            core,
            timeout: None,
            outcomes: Seq::new(alloc),
            early: Seq::new(alloc),
        })
    }

    /// Whether the link may take so many bytes: no more than were offered. Takes no memory.
    pub fn can_take(&self, count: u64) -> bool
        ensures { IsTrue result ↔ CanTake self.now.core.life count }
    {
        match &self.core.life {
            Life::Ready { link } => count <= link.offered_len(),
            Life::SettingUp { link, greeting: _ } => count <= link.offered_len(),
            Life::Wanting { link } => count <= link.offered_len(),
            Life::Resting => true,
            Life::Dialing => true,
            Life::Ended { error: _ } => true,
        }
    }

    /// Whether its link is up and set up. Takes no memory.
    pub fn is_ready(&self) -> bool
        ensures { result ≡ is_ready self.now.core.life }
    {
        match &self.core.life {
            Life::Ready { link: _ } => true,
            Life::SettingUp {
                link: _,
                greeting: _,
            } => false,
            Life::Wanting { link: _ } => false,
            Life::Resting => false,
            Life::Dialing => false,
            Life::Ended { error: _ } => false,
        }
    }

    /// The number of its link. Takes no memory.
    pub fn link(&self) -> u32
        ensures { result ≡ self.now.link }
    {
        self.link
    }

    /// The database that its setup chooses. Takes no memory.
    pub fn get_db(&self) -> i64
        ensures { result ≡ self.now.core.info.db }
    {
        self.core.info.db
    }

    /// A request that is sent from now on is to be answered within so many milliseconds from when it holds its permits. Takes
    /// no memory.
    pub fn set_response_timeout(&mut self, ms: u64)
        ensures { self.new ≡ record self.old { timeout = Some ms } }
    {
        self.timeout = Some(ms);
    }

    /// The outcome of a request: none while it is pending. Takes no memory. A connection that has failed answers as before.
    pub fn poll(&self, request: &Pending) -> Option<&Outcome>
        ensures { option_copied result ≡ outcome_of self.now request.now.number }
    {
        if request.number as usize >= self.outcomes.len() {
            return None;
        }
        self.outcomes.at(request.number as usize).as_ref()
    }

    /// The caller of a request has gone: a request that is pending gets no outcome. Its message leaves the queue, or, where it
    /// has started, keeps its place in the line of replies. Takes no memory.
    pub fn cancel(&mut self, request: Pending)
        ensures { self.new ≡ cancelled self.old request.number }
    {
        self.core.cancel(request);
    }
}
