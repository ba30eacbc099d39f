ghost use Rattle.std.specs.Prelude.{◌≡◌, ℕ, [], ◌∷◌, ◌++◌, true, false, Some, None, OnOk, OnErr, IfOk};
ghost use Rattle.driver_model.specs.Config.{address, told_info, manager_of, is_lazy, connect_timeout};
ghost use Rattle.single_session.specs.Generations.{generations_at};
ghost use Rattle.single_session.specs.Replay.{first_link, single_core, first_dialled, unused, as_managed};
ghost use Rattle.single_session.specs.Replay.{opening_core, opening_actions, begun_as, connect_asked};
ghost use Rattle.single_session.specs.Replay.{connect_timers, timer_asked};

use crate::core_state::{Core, Single};
use crate::generations::Generations;
use crate::showing::show;
use connection_info::{ConnectionInfo, RedisConnectionInfo};
use containers::Seq;
use driver_model::{Action, Cause, Config, Purpose};
use manager_config::ConnectionManagerConfig;
use mux_conn::{Again, MultiplexedConnection, Renewal};
use std::alloc::{AllocError, Global};

/// The number of the first link.
const FIRST_LINK: u32 = 0;

/// What the timer of the opening is asked for, where the connect is bounded.
fn opening_timers(alloc: Global, timeout: Option<u64>) -> Result<Seq<Purpose>, AllocError>
    ensures { IfOk result (λ timers. timers ≡ connect_timers timeout) }
{
    let mut timers = Seq::new(alloc);
    match timeout {
        Some(_) => timers.push(Purpose::Connect { link: FIRST_LINK })?,
        None => {}
    }
    Ok(timers)
}

/// The state after the opening of what doesn't come back, where this is what is said to the server.
fn single(alloc: Global, config: &Config, info: RedisConnectionInfo) -> Result<Core, AllocError>
    requires { info ≡ told_info config.now }
    ensures { IfOk result (λ core. core ≡ single_core config.now) }
{
    let timers = opening_timers(alloc, config.connect_timeout())?;
    let renewal = Renewal::new(alloc, config.wants_credentials(), config.response_timeout());
    let connection = MultiplexedConnection::new(
        alloc,
        config.buffer_size(),
        config.boundary(),
        config.permits(),
        config.hearing(),
        info,
        renewal,
    )?;
    Ok(Core {
        kind: config.kind(),
        manager: None,
        turns: 1,
        links: u64::from(FIRST_LINK) + 1,
        shut: false,
        timeout: config.response_timeout(),
        timers,
        sources: Seq::new(alloc),
        table: Seq::new(alloc),
        single: Single {
            link: FIRST_LINK,
            connection,
        },
    })
}

impl Core {
    /// Its first generation has begun, of a manager that behaves so, and connects there.
    fn begin_first(
        &mut self,
        alloc: Global,
        settings: ConnectionManagerConfig,
        info: ConnectionInfo,
    ) -> Result<(), AllocError>
        ensures { OnOk result (
            self.new ≡ as_managed (Some settings) (Some info) false self.old
            ) }
    {
        let generations = Generations::new(alloc, settings, info, 1);
        let last = generations.is_last();
        self.manager = Some(generations);
        self.single.connection.rounds = true;
        self.single.connection.dial(alloc, last, Again::Nothing)
    }

    /// It is such a manager, and its first generation begins with the first request.
    fn wait_for_use(
        &mut self,
        alloc: Global,
        settings: ConnectionManagerConfig,
        info: ConnectionInfo,
    ) -> Result<(), AllocError>
        ensures { OnOk result (
            self.new ≡ as_managed (Some settings) (Some info) true self.old
            ) }
    {
        self.manager = Some(Generations::new(alloc, settings, info, 0));
        self.links = u64::from(FIRST_LINK);
        self.timers = Seq::new(alloc);
        self.single.connection.start_afresh(alloc)?;
        self.single.connection.rounds = true;
        self.single.connection.told = true;
        Ok(())
    }

    /// It is such a manager, if it is one: its first generation has begun, or waits for the first request.
    fn manage(
        &mut self,
        alloc: Global,
        manager: Option<ConnectionManagerConfig>,
        lazy: bool,
        info: &ConnectionInfo,
    ) -> Result<(), AllocError>
        ensures { OnOk result (self.new ≡ as_managed manager (Some info.now) lazy self.old) }
    {
        let Some(settings) = manager else {
            return Ok(());
        };
        let info = info.clone(alloc)?;
        if lazy {
            return self.wait_for_use(alloc, settings, info);
        }
        self.begin_first(alloc, settings, info)
    }
}

/// The state after the opening, where this is the address, and what is said to the server.
pub fn opened(
    alloc: Global,
    config: &Config,
    info: &ConnectionInfo,
    told: RedisConnectionInfo,
) -> Result<Core, AllocError>
    requires configured { address config.now ≡ Some info.now }
    requires told { told ≡ told_info config.now }
    ensures { IfOk result (λ core. (word : ℕ) → core ≡ opening_core config.now word) }
{
    let mut core = single(alloc, config, told)?;
    core.manage(alloc, config.manager_settings(), config.is_lazy(), info)?;
    Ok(core)
}

/// The timer of the opening is asked for, where the connect is bounded.
fn show_timer(timeout: Option<u64>, out: &mut Vec<Action>) -> Result<(), AllocError>
    ensures { OnOk result (out.new.items ≡ out.old.items ++ timer_asked timeout) }
{
    match timeout {
        Some(ms) => show(
            out,
            Action::Timer {
                timer: 0,
                ms,
                purpose: Purpose::Connect { link: FIRST_LINK },
            },
        ),
        None => Ok(()),
    }
}

/// The connect to this address, and its timer.
fn show_connect(
    info: ConnectionInfo,
    timeout: Option<u64>,
    out: &mut Vec<Action>,
) -> Result<(), AllocError>
    ensures { OnOk result (out.new.items ≡ out.old.items ++ connect_asked (Some info) timeout) }
{
    let ConnectionInfo { host, port, redis } = info;
    drop(redis);
    show(
        out,
        Action::Connect {
            link: FIRST_LINK,
            host,
            port,
        },
    )?;
    show_timer(timeout, out)
}

/// What the opening shows behind its first action, where this is the address: the connect, behind the beginning of a generation
/// where the session comes back; or at once that it is created, where it waits for its first request.
fn show_beginning(
    config: &Config,
    info: ConnectionInfo,
    out: &mut Vec<Action>,
) -> Result<(), AllocError>
    ensures { OnOk result (
        out.new.items
        ≡ out.old.items
        ++ begun_as (manager_of config.now) (is_lazy config.now) (connect_asked (Some info) (connect_timeout config.now))
        ) }
{
    let timeout = config.connect_timeout();
    let Some(_) = config.manager_settings() else {
        return show_connect(info, timeout, out);
    };
    if config.is_lazy() {
        return show(out, Action::Created { error: None });
    }
    show(out, Action::Generation { number: 1 })?;
    show_connect(info, timeout, out)
}

/// The first action of the opening.
fn show_cause(
    alloc: Global,
    config: &Config,
    word: u64,
    out: &mut Vec<Action>,
) -> Result<(), AllocError>
    ensures { OnOk result (
        out.new.items ≡ out.old.items ++ Action.Turn 0 (Cause.Opening config.now word) ∷ []
        ) }
{
    let config = config.clone(alloc)?;
    let cause = Cause::Opening { config, word };
    show(out, Action::Turn { number: 0, cause })
}

/// The actions of the opening. After an error `out` is as it was.
pub fn show_opening(
    alloc: Global,
    config: &Config,
    info: ConnectionInfo,
    word: u64,
    out: &mut Vec<Action>,
) -> Result<(), AllocError>
    requires { address config.now ≡ Some info }
    ensures actions { OnOk result (
        out.new.items ≡ out.old.items ++ opening_actions config.now word
        ) }
    ensures err { OnErr result (out.new.items ≡ out.old.items) }
{
    let mut actions = Vec::new(alloc);
    match show_cause(alloc, config, word, &mut actions) {
        Ok(()) => {}
        Err(error) => {
            drop(info);
            return Err(error);
        }
    }
    show_beginning(config, info, &mut actions)?;
    out.append(&mut actions)
}
