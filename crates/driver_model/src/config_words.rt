ghost use Rattle.std.specs.Prelude.{◌≡◌, Some, None, IfOk, IfErr};
ghost use Rattle.driver_model.specs.Config.{address_at, address_in, no_words, no_manager_words};
ghost use Rattle.driver_model.specs.Config.{connection_settings, manager_settings};
ghost use Rattle.connection_info.specs.Refusal.{RefusesUrl};

use connection_info::{AsyncConnectionConfig, ConnectionInfo, IntoConnectionInfo, OpenError};
use containers::Bytes;
use manager_config::ConnectionManagerConfig;
use redis_error::ConfigName;
use std::alloc::{AllocError, Global};

/// Where the server is, and whether it is told which library speaks.
#[derive(Drop)]
pub struct AddressWords {
    /// The server's address, a URL as it was given.
    pub url: Bytes,
    /// Whether the server is told which library speaks. It is where nothing is given.
    pub lib: Option<bool>,
}

impl AddressWords {
    /// This URL, and nothing beside it.
    pub fn new(url: Bytes) -> AddressWords
        ensures { result ≡ address_at url }
    {
        AddressWords { url, lib: None }
    }

    /// An equal value of its own.
    pub fn clone(&self, alloc: Global) -> Result<AddressWords, AllocError>
        ensures { IfOk result (λ a. a ≡ self.now) }
    {
        let url = self.url.clone(alloc)?;
        Ok(AddressWords { url, lib: self.lib })
    }

    /// The server's address. A URL that isn't one is refused.
    #[tactic(auto, using(crate::proofs::Text::utf8_true, crate::proofs::Text::utf8_false))]
    pub(crate) fn read(&self, alloc: Global) -> Result<ConnectionInfo, OpenError>
        ensures ok { IfOk result (λ info. address_in self.now ≡ Some info) }
        ensures err { IfErr result (RefusesUrl (address_in self.now ≡ None)) }
    {
        match str::from_utf8(self.url.as_slice()) {
            Ok(text) => text.into_connection_info(alloc),
            Err(_) => Err(OpenError::Config(ConfigName::Url)),
        }
    }
}

/// How a multiplexed connection behaves: each of these where it was given.
#[derive(Clone, Copy, PartialEq, Eq)]
pub struct ConnectionWords {
    /// How many milliseconds the connect may take, `Some(None)` for any number. 1,000 where nothing is given.
    pub connect: Option<Option<u64>>,
    /// Within how many milliseconds a request is to be answered, `Some(None)` for any number. 500 where nothing is given.
    pub response: Option<Option<u64>>,
    /// How many permits the connection has, at least one: a request holds one or more. Any number where nothing is given.
    pub limit: Option<u32>,
    /// How many messages the queue of the link holds, at least one. 50 where nothing is given.
    pub buffer: Option<u32>,
    /// No message starts while bytes of the link are unwritten, and as many as these. 8,192 where nothing is given.
    pub boundary: Option<u64>,
    /// Whether somebody hears the pushes that come. Nobody does where nothing is given. It needs RESP3.
    pub push: Option<bool>,
    /// Whether credentials come of a source, as the connection is set up and later. They don't where nothing is given.
    pub creds: Option<bool>,
}

impl ConnectionWords {
    /// Nothing is given.
    pub fn new() -> ConnectionWords
        ensures { result ≡ no_words }
    {
        ConnectionWords {
            connect: None,
            response: None,
            limit: None,
            buffer: None,
            boundary: None,
            push: None,
            creds: None,
        }
    }

    /// How a connection of these words behaves: by what is given, and else by the defaults.
    fn settings(&self) -> AsyncConnectionConfig
        ensures { result ≡ connection_settings self.now }
    {
        let default = AsyncConnectionConfig::new();
        AsyncConnectionConfig {
            connection_timeout: self.connect.unwrap_or(default.connection_timeout),
            response_timeout: self.response.unwrap_or(default.response_timeout),
            push_sender: self.push.unwrap_or(default.push_sender),
            credentials_provider: self.creds.unwrap_or(default.credentials_provider),
            pipeline_buffer_size: self.buffer.unwrap_or(default.pipeline_buffer_size),
            concurrency_limit: self.limit,
            write_backpressure_boundary: self
                .boundary
                .unwrap_or(default.write_backpressure_boundary),
        }
    }
}

/// How a connection comes back: each of these where it was given.
#[derive(Clone, Copy, PartialEq, Eq)]
pub struct ManagerWords {
    /// How many attempts to connect there are after the first. 6 where nothing is given.
    pub retries: Option<u32>,
    /// Below how many milliseconds the delay before the second attempt lies. 100 where nothing is given.
    pub min: Option<u64>,
    /// How many milliseconds a delay has at most, `Some(None)` for any number. Any number where nothing is given.
    pub max: Option<Option<u64>>,
    /// By what the delays grow from one attempt to the next: a numerator and a denominator of at least one. 2 and 1 where
    /// nothing is given.
    pub base: Option<(u32, u32)>,
    /// Whether a new link subscribes again what was subscribed on the one before. It doesn't where nothing is given. It needs
    /// `push`.
    pub resub: Option<bool>,
}

impl ManagerWords {
    /// Nothing is given.
    pub fn new() -> ManagerWords
        ensures { result ≡ no_manager_words }
    {
        ManagerWords {
            retries: None,
            min: None,
            max: None,
            base: None,
            resub: None,
        }
    }

    /// How a manager of these words behaves, whose connections are of those: by what is given, and else by the defaults.
    pub(crate) fn settings(&self, connection: &ConnectionWords) -> ConnectionManagerConfig
        ensures { result ≡ manager_settings connection.now self.now }
    {
        let default = ConnectionManagerConfig::new();
        ConnectionManagerConfig {
            connection: connection.settings(),
            min_delay: self.min.unwrap_or(default.min_delay),
            max_delay: self.max.unwrap_or(default.max_delay),
            exponent_base: self.base.unwrap_or(default.exponent_base),
            number_of_retries: self.retries.unwrap_or(default.number_of_retries),
            automatic_resubscription: self.resub.unwrap_or(default.automatic_resubscription),
        }
    }
}
