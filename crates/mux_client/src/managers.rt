ghost use Rattle.std.specs.Prelude.{◌≡◌, false, true, IfOk, IfErr, OnOk};
ghost use Rattle.connection_info.specs.Written.{ReadsBack};
ghost use Rattle.manager_config.specs.Config.{default_manager};
ghost use Rattle.mux_client.specs.Makers.{RefusesMaking};
ghost use Rattle.mux_client.specs.Managers.{again_given, fraction_given, manager_given, managed_of, KeepsManager};

use crate::makers::{address_words, connection_words, places, room, time};
use connection_info::{Client, OpenError};
use driver_model::{Config, ManagerWords};
use manager_config::ConnectionManagerConfig;
use std::alloc::Global;

/// A fraction is given where it isn't the default.
fn fraction(default: (u32, u32), value: (u32, u32)) -> Option<(u32, u32)>
    ensures { result ≡ fraction_given default value }
{
    if value == default { None } else { Some(value) }
}

/// That what was subscribed is subscribed again is given where it is.
fn again(resubscribes: bool) -> Option<bool>
    ensures { result ≡ again_given resubscribes }
{
    if resubscribes { Some(true) } else { None }
}

/// The words of how a connection comes back that behaves as this configuration says.
fn manager_words(config: &ConnectionManagerConfig) -> ManagerWords
    ensures { result ≡ manager_given config.now }
{
    let default = ConnectionManagerConfig::new();
    ManagerWords {
        retries: places(default.number_of_retries, config.number_of_retries),
        min: room(default.min_delay, config.min_delay),
        max: time(default.max_delay, config.max_delay),
        base: fraction(default.exponent_base, config.exponent_base),
        resub: again(config.automatic_resubscription),
    }
}

/// The words of a session's configuration at the client's address, over a manager that behaves so.
fn managed_words(
    alloc: Global,
    lazy: bool,
    client: &Client,
    config: &ConnectionManagerConfig,
) -> Result<Config, OpenError>
    ensures value { IfOk result (λ words. words ≡ managed_of lazy client.now config.now) }
    ensures keeps { IfOk result (KeepsManager lazy client.now config.now) }
    ensures read { OnOk result (ReadsBack client.now) }
    ensures err { IfErr result (RefusesMaking client.now) }
{
    let info = client.get_connection_info();
    let address = address_words(alloc, info)?;
    Ok(Config::Manager {
        lazy,
        address,
        connection: connection_words(&config.connection),
        manager: manager_words(config),
    })
}

/// What makes the configuration of a session over a connection that comes back: its words are the address as a URL, and what
/// isn't the default. `Config(Url)` comes exactly where no URL says the address. What stands against a configuration itself is
/// asked when the session is made.
pub trait ManagerGetters {
    ghost use Rattle.connection_info.specs.declared.address.ConnectionInfo.{ConnectionInfo};

    ghost info: { Self → ConnectionInfo };

    /// The configuration of a session over a manager that behaves as `config` says, and connects as it begins.
    fn get_connection_manager_with_config(
        &self,
        alloc: Global,
        config: &ConnectionManagerConfig,
    ) -> Result<Config, OpenError>
        ensures value { IfOk result (λ words. words ≡ managed_of false (info self.now) config.now) }
        ensures keeps { IfOk result (KeepsManager false (info self.now) config.now) }
        ensures read { OnOk result (ReadsBack (info self.now)) }
        ensures err { IfErr result (RefusesMaking (info self.now)) };

    /// The same with the default configuration.
    fn get_connection_manager(&self, alloc: Global) -> Result<Config, OpenError>
        ensures value { IfOk result (λ words. words ≡ managed_of false (info self.now) default_manager) }
        ensures keeps { IfOk result (KeepsManager false (info self.now) default_manager) }
        ensures read { OnOk result (ReadsBack (info self.now)) }
        ensures err { IfErr result (RefusesMaking (info self.now)) };

    /// The same of a session that connects for its first request.
    fn get_connection_manager_lazy(
        &self,
        alloc: Global,
        config: &ConnectionManagerConfig,
    ) -> Result<Config, OpenError>
        ensures value { IfOk result (λ words. words ≡ managed_of true (info self.now) config.now) }
        ensures keeps { IfOk result (KeepsManager true (info self.now) config.now) }
        ensures read { OnOk result (ReadsBack (info self.now)) }
        ensures err { IfErr result (RefusesMaking (info self.now)) };
}

impl ManagerGetters for Client {
    ghost info = { λ client. client };

    fn get_connection_manager_with_config(
        &self,
        alloc: Global,
        config: &ConnectionManagerConfig,
    ) -> Result<Config, OpenError> {
        managed_words(alloc, false, self, config)
    }

    fn get_connection_manager(&self, alloc: Global) -> Result<Config, OpenError> {
        self.get_connection_manager_with_config(alloc, &ConnectionManagerConfig::new())
    }

    fn get_connection_manager_lazy(
        &self,
        alloc: Global,
        config: &ConnectionManagerConfig,
    ) -> Result<Config, OpenError> {
        managed_words(alloc, true, self, config)
    }
}
