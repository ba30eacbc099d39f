ghost use Rattle.std.specs.Prelude.{◌≡◌, IfOk, IfErr, OnOk};
ghost use Rattle.connection_info.specs.Config.{default_config};
ghost use Rattle.connection_info.specs.Written.{ReadsBack};
ghost use Rattle.driver_model.specs.declared.kind.SessionKind.TheVariants as kind;
ghost use Rattle.mux_client.specs.Makers.{config_of, time_given, number_given, push_given};
ghost use Rattle.mux_client.specs.Makers.{creds_given, library_given};
ghost use Rattle.mux_client.specs.Makers.{address_given, connection_given, pubsub_of, monitor_of};
ghost use Rattle.mux_client.specs.Makers.{Keeps, KeepsLink, RefusesMaking};

use connection_info::{AsyncConnectionConfig, Client, ConnectionInfo, OpenError};
use driver_model::{AddressWords, Config, ConnectionWords};
use std::alloc::Global;

/// A time is given where it isn't the default.
pub fn time(default: Option<u64>, value: Option<u64>) -> Option<Option<u64>>
    ensures { result ≡ time_given default value }
{
    if value == default { None } else { Some(value) }
}

/// A number of places is given where it isn't the default.
pub fn places(default: u32, value: u32) -> Option<u32>
    ensures { result ≡ number_given default value }
{
    if value == default { None } else { Some(value) }
}

/// A number of bytes is given where it isn't the default.
pub fn room(default: u64, value: u64) -> Option<u64>
    ensures { result ≡ number_given default value }
{
    if value == default { None } else { Some(value) }
}

/// That somebody hears pushes is given where somebody does.
fn pushes(hears: bool) -> Option<bool>
    ensures { result ≡ push_given hears }
{
    if hears { Some(true) } else { None }
}

/// That credentials come of sources is given where they do.
fn sources(provided: bool) -> Option<bool>
    ensures { result ≡ creds_given provided }
{
    if provided { Some(true) } else { None }
}

/// The library is left out where the address leaves it out.
fn library(skips: bool) -> Option<bool>
    ensures { result ≡ library_given skips }
{
    if skips { Some(false) } else { None }
}

/// The words of this address.
pub fn address_words(alloc: Global, info: &ConnectionInfo) -> Result<AddressWords, OpenError>
    ensures value { IfOk result (λ words. words ≡ address_given info.now) }
    ensures read { OnOk result (ReadsBack info.now) }
    ensures err { IfErr result (RefusesMaking info.now) }
{
    let url = info.to_url(alloc)?;
    Ok(AddressWords {
        url,
        lib: library(info.redis.skip_set_lib_name),
    })
}

/// The words of a connection that behaves as this configuration says.
pub fn connection_words(config: &AsyncConnectionConfig) -> ConnectionWords
    ensures { result ≡ connection_given config.now }
{
    let default = AsyncConnectionConfig::new();
    ConnectionWords {
        connect: time(default.connection_timeout, config.connection_timeout),
        response: time(default.response_timeout, config.response_timeout),
        limit: config.concurrency_limit,
        buffer: places(default.pipeline_buffer_size, config.pipeline_buffer_size),
        boundary: room(
            default.write_backpressure_boundary,
            config.write_backpressure_boundary,
        ),
        push: pushes(config.push_sender),
        creds: sources(config.credentials_provider),
    }
}

/// The words of a session's configuration for this address.
fn words(
    alloc: Global,
    info: &ConnectionInfo,
    config: &AsyncConnectionConfig,
) -> Result<Config, OpenError>
    ensures value { IfOk result (λ words. words ≡ config_of info.now config.now) }
    ensures read { OnOk result (ReadsBack info.now) }
    ensures err { IfErr result (RefusesMaking info.now) }
{
    let address = address_words(alloc, info)?;
    let connection = connection_words(config);
    Ok(Config::Single {
        address,
        connection,
    })
}

/// The words of a session over one link of publish/subscribe, for this address.
fn pubsub_words(alloc: Global, info: &ConnectionInfo) -> Result<Config, OpenError>
    ensures value { IfOk result (λ words. words ≡ pubsub_of info.now) }
    ensures read { OnOk result (ReadsBack info.now) }
    ensures err { IfErr result (RefusesMaking info.now) }
{
    let address = address_words(alloc, info)?;
    Ok(Config::PubSub { address })
}

/// The words of a session over one link in monitor mode, for this address.
fn monitor_words(alloc: Global, info: &ConnectionInfo) -> Result<Config, OpenError>
    ensures value { IfOk result (λ words. words ≡ monitor_of info.now) }
    ensures read { OnOk result (ReadsBack info.now) }
    ensures err { IfErr result (RefusesMaking info.now) }
{
    let address = address_words(alloc, info)?;
    Ok(Config::Monitor { address })
}

/// What makes the configuration of a session over one link.
pub trait ConnectionGetters {
    ghost use Rattle.connection_info.specs.declared.address.ConnectionInfo.{ConnectionInfo};

    ghost info: { Self → ConnectionInfo };

    /// The configuration of a session over one connection that behaves as `config` says: its words are the address as a URL
    /// and what isn't the default. `Config(Url)` comes exactly where no URL says the address. Whether a sender of pushes has
    /// RESP3 is asked when the session is made.
    fn get_multiplexed_async_connection_with_config(
        &self,
        alloc: Global,
        config: &AsyncConnectionConfig,
    ) -> Result<Config, OpenError>
        ensures value { IfOk result (λ words. words ≡ config_of (info self.now) config.now) }
        ensures keeps { IfOk result (Keeps (info self.now) config.now) }
        ensures read { OnOk result (ReadsBack (info self.now)) }
        ensures err { IfErr result (RefusesMaking (info self.now)) };

    /// The same with the default configuration.
    fn get_multiplexed_async_connection(&self, alloc: Global) -> Result<Config, OpenError>
        ensures value { IfOk result (λ words. words ≡ config_of (info self.now) default_config) }
        ensures keeps { IfOk result (Keeps (info self.now) default_config) }
        ensures read { OnOk result (ReadsBack (info self.now)) }
        ensures err { IfErr result (RefusesMaking (info self.now)) };

    /// The configuration of a session over one link of publish/subscribe: its words are the address as a URL. `Config(Url)` comes
    /// exactly where no URL says the address.
    fn get_async_pubsub(&self, alloc: Global) -> Result<Config, OpenError>
        ensures value { IfOk result (λ words. words ≡ pubsub_of (info self.now)) }
        ensures keeps { IfOk result (KeepsLink kind.PubSub (info self.now)) }
        ensures read { OnOk result (ReadsBack (info self.now)) }
        ensures err { IfErr result (RefusesMaking (info self.now)) };

    /// The same of a session over one link in monitor mode.
    fn get_async_monitor(&self, alloc: Global) -> Result<Config, OpenError>
        ensures value { IfOk result (λ words. words ≡ monitor_of (info self.now)) }
        ensures keeps { IfOk result (KeepsLink kind.Monitor (info self.now)) }
        ensures read { OnOk result (ReadsBack (info self.now)) }
        ensures err { IfErr result (RefusesMaking (info self.now)) };
}

impl ConnectionGetters for Client {
    ghost info = { λ client. client };

    fn get_multiplexed_async_connection_with_config(
        &self,
        alloc: Global,
        config: &AsyncConnectionConfig,
    ) -> Result<Config, OpenError> {
        words(alloc, self.get_connection_info(), config)
    }

    fn get_multiplexed_async_connection(&self, alloc: Global) -> Result<Config, OpenError> {
        words(
            alloc,
            self.get_connection_info(),
            &AsyncConnectionConfig::new(),
        )
    }

    fn get_async_pubsub(&self, alloc: Global) -> Result<Config, OpenError> {
        pubsub_words(alloc, self.get_connection_info())
    }

    fn get_async_monitor(&self, alloc: Global) -> Result<Config, OpenError> {
        monitor_words(alloc, self.get_connection_info())
    }
}
