ghost use Rattle.std.specs.Prelude.{◌≡◌, Some, None, OnOk, IfOk, IfErr};
ghost use Rattle.driver_model.specs.Config.{config_of, kind_of, address_words, connection_words};
ghost use Rattle.driver_model.specs.Config.{address, told_info, connect_timeout, response_timeout};
ghost use Rattle.driver_model.specs.Config.{permits, buffer_size, boundary, wants_pushes};
ghost use Rattle.driver_model.specs.Config.{hearing_of, wants_credentials};
ghost use Rattle.driver_model.specs.Config.{manager_of, is_lazy, heard_on};
ghost use Rattle.driver_model.specs.Config.{fault_in, fault_of, first_fault, RefusesConfig};
ghost use Rattle.driver_model.specs.Hearing.{hears_pushes};

use crate::config_words::{AddressWords, ConnectionWords, ManagerWords};
use crate::hearing::Hearing;
use crate::kind::SessionKind;
use connection_info::{ConnectionInfo, OpenError, RedisConnectionInfo};
use containers::Bytes;
use manager_config::ConnectionManagerConfig;
use redis_error::ConfigName;
use std::alloc::{AllocError, Global};

/// What a session is made from: the words of the line `config`, each where it was given, by what the session is.
#[derive(Drop)]
pub enum Config {
    /// One multiplexed connection.
    Single {
        address: AddressWords,
        connection: ConnectionWords,
    },
    /// A multiplexed connection that comes back. A lazy one asks for its first link with its first request.
    Manager {
        lazy: bool,
        address: AddressWords,
        connection: ConnectionWords,
        manager: ManagerWords,
    },
    /// One link of publish/subscribe: it has no timers, no permits and no credentials of sources, and its queue holds whatever
    /// comes.
    PubSub {
        address: AddressWords,
    },
    /// One link in monitor mode, which has none of these either.
    Monitor {
        address: AddressWords,
    },
}

impl Config {
    /// One multiplexed connection, of which nothing but the address is given.
    pub fn new(url: Bytes) -> Config
        ensures { result ≡ config_of SessionKind.Single url }
    {
        Config::Single {
            address: AddressWords::new(url),
            connection: ConnectionWords::new(),
        }
    }

    /// A connection that comes back, of which nothing but the address is given.
    pub fn manager(lazy: bool, url: Bytes) -> Config
        ensures { result ≡ config_of (SessionKind.Manager lazy) url }
    {
        Config::Manager {
            lazy,
            address: AddressWords::new(url),
            connection: ConnectionWords::new(),
            manager: ManagerWords::new(),
        }
    }

    /// A link of publish/subscribe.
    pub fn pubsub(url: Bytes) -> Config
        ensures { result ≡ config_of SessionKind.PubSub url }
    {
        Config::PubSub {
            address: AddressWords::new(url),
        }
    }

    /// A link in monitor mode.
    pub fn monitor(url: Bytes) -> Config
        ensures { result ≡ config_of SessionKind.Monitor url }
    {
        Config::Monitor {
            address: AddressWords::new(url),
        }
    }

    /// An equal value of its own.
    pub fn clone(&self, alloc: Global) -> Result<Config, AllocError>
        ensures { IfOk result (λ c. c ≡ self.now) }
    {
        match self {
            Config::Single {
                address,
                connection,
            } => {
                let address = address.clone(alloc)?;
                Ok(Config::Single {
                    address,
                    connection: *connection,
                })
            }
            Config::Manager {
                lazy,
                address,
                connection,
                manager,
            } => {
                let address = address.clone(alloc)?;
                Ok(Config::Manager {
                    lazy: *lazy,
                    address,
                    connection: *connection,
                    manager: *manager,
                })
            }
            Config::PubSub { address } => {
                let address = address.clone(alloc)?;
                Ok(Config::PubSub { address })
            }
            Config::Monitor { address } => {
                let address = address.clone(alloc)?;
                Ok(Config::Monitor { address })
            }
        }
    }

    /// What the session is.
    pub fn kind(&self) -> SessionKind
        ensures { result ≡ kind_of self.now }
    {
        match self {
            Config::Single {
                address: _,
                connection: _,
            } => SessionKind::Single,
            Config::Manager {
                lazy,
                address: _,
                connection: _,
                manager: _,
            } => SessionKind::Manager { lazy: *lazy },
            Config::PubSub { address: _ } => SessionKind::PubSub,
            Config::Monitor { address: _ } => SessionKind::Monitor,
        }
    }

    /// Where the server is.
    pub fn address(&self) -> &AddressWords
        ensures { result.now ≡ address_words self.now }
    {
        match self {
            Config::Single {
                address,
                connection: _,
            } => address,
            Config::Manager {
                lazy: _,
                address,
                connection: _,
                manager: _,
            } => address,
            Config::PubSub { address } => address,
            Config::Monitor { address } => address,
        }
    }

    /// How its connection behaves, where it is a multiplexed one.
    pub fn connection(&self) -> Option<ConnectionWords>
        ensures { result ≡ connection_words self.now }
    {
        match self {
            Config::Single {
                address: _,
                connection,
            } => Some(*connection),
            Config::Manager {
                lazy: _,
                address: _,
                connection,
                manager: _,
            } => Some(*connection),
            Config::PubSub { address: _ } => None,
            Config::Monitor { address: _ } => None,
        }
    }

    /// How it comes back, where it is a connection that does: by what is given, and else by the defaults.
    pub fn manager_settings(&self) -> Option<ConnectionManagerConfig>
        ensures { result ≡ manager_of self.now }
    {
        match self {
            Config::Single {
                address: _,
                connection: _,
            } => None,
            Config::Manager {
                lazy: _,
                address: _,
                connection,
                manager,
            } => Some(manager.settings(connection)),
            Config::PubSub { address: _ } => None,
            Config::Monitor { address: _ } => None,
        }
    }

    /// Whether it asks for its first link with its first request.
    pub fn is_lazy(&self) -> bool
        ensures { result ≡ is_lazy self.now }
    {
        match self {
            Config::Single {
                address: _,
                connection: _,
            } => false,
            Config::Manager {
                lazy,
                address: _,
                connection: _,
                manager: _,
            } => *lazy,
            Config::PubSub { address: _ } => false,
            Config::Monitor { address: _ } => false,
        }
    }

    /// How many milliseconds the connect may take, if that is bounded.
    pub fn connect_timeout(&self) -> Option<u64>
        ensures { result ≡ connect_timeout self.now }
    {
        match self.connection() {
            Some(words) => words.connect.unwrap_or(Some(1000)),
            None => None,
        }
    }

    /// Within how many milliseconds a request is to be answered, if within any.
    pub fn response_timeout(&self) -> Option<u64>
        ensures { result ≡ response_timeout self.now }
    {
        match self.connection() {
            Some(words) => words.response.unwrap_or(Some(500)),
            None => None,
        }
    }

    /// How many permits the connection has, if they are counted.
    pub fn permits(&self) -> Option<u32>
        ensures { result ≡ permits self.now }
    {
        match self.connection() {
            Some(words) => words.limit,
            None => None,
        }
    }

    /// How many messages the queue of the link holds: where it is unbounded, more than there are numbers for submissions.
    pub fn buffer_size(&self) -> u32
        ensures { result ≡ buffer_size self.now }
    {
        match self.connection() {
            Some(words) => words.buffer.unwrap_or(50),
            None => u32::MAX,
        }
    }

    /// At how many unwritten bytes no message of the link starts.
    pub fn boundary(&self) -> u64
        ensures { result ≡ boundary self.now }
    {
        match self.connection() {
            Some(words) => words.boundary.unwrap_or(8192),
            None => 8192,
        }
    }

    /// Whether somebody hears the pushes of a multiplexed connection.
    fn wants_pushes(&self) -> bool
        ensures { result ≡ wants_pushes self.now }
    {
        match self.connection() {
            Some(words) => words.push.unwrap_or(false),
            None => false,
        }
    }

    /// What is heard on a multiplexed connection, beside the replies to requests.
    fn heard_on_connection(&self) -> Hearing
        ensures { result ≡ heard_on (wants_pushes self.now) }
    {
        if self.wants_pushes() {
            Hearing::Pushes
        } else {
            Hearing::Nothing
        }
    }

    /// What is heard, beside the replies to requests.
    pub fn hearing(&self) -> Hearing
        ensures { result ≡ hearing_of self.now }
    {
        match self.kind() {
            SessionKind::Single => self.heard_on_connection(),
            SessionKind::Manager { lazy: _ } => self.heard_on_connection(),
            SessionKind::PubSub => Hearing::Messages,
            SessionKind::Monitor => Hearing::Monitor,
        }
    }

    /// Whether somebody hears the pushes that come.
    pub fn hears_pushes(&self) -> bool
        ensures { result ≡ hears_pushes (hearing_of self.now) }
    {
        self.hearing().hears_pushes()
    }

    /// Whether credentials come of a source.
    pub fn wants_credentials(&self) -> bool
        ensures { result ≡ wants_credentials self.now }
    {
        match self.connection() {
            Some(words) => words.creds.unwrap_or(false),
            None => false,
        }
    }

    /// What is said to the server before the first request, where this is its address.
    #[tactic(auto, using(crate::proofs::Text::told_at))]
    pub fn told_info(
        &self,
        alloc: Global,
        info: &ConnectionInfo,
    ) -> Result<RedisConnectionInfo, AllocError>
        requires { address self.now ≡ Some info.now }
        ensures { IfOk result (λ told. told ≡ told_info self.now) }
    {
        let redis = info.redis.clone(alloc)?;
        Ok(RedisConnectionInfo {
            db: redis.db,
            username: redis.username,
            password: redis.password,
            protocol: redis.protocol,
            skip_set_lib_name: !self.address().lib.unwrap_or(true),
        })
    }

    /// The name of what is refused first where its address is this one, and nothing comes back: pushes that somebody hears on a
    /// connection of RESP2, a limit of no permits, and a queue that holds nothing.
    fn connection_fault(&self, info: &ConnectionInfo) -> Option<ConfigName>
        ensures { result ≡ fault_in (Some info.now) (hears_pushes (hearing_of self.now)) (permits self.now) (buffer_size self.now) }
    {
        if self.hears_pushes() && !info.redis.protocol.supports_resp3() {
            return Some(ConfigName::Push);
        }
        if self.permits() == Some(0) {
            return Some(ConfigName::Limit);
        }
        if self.buffer_size() == 0 {
            return Some(ConfigName::Buffer);
        }
        None
    }

    /// The name of what is refused first where its address is this one.
    fn fault_at(&self, info: &ConnectionInfo) -> Option<ConfigName>
        ensures { result ≡ fault_of (manager_of self.now) (Some info.now) self.now }
    {
        match self.manager_settings() {
            Some(settings) => settings.first_fault(info.redis.protocol),
            None => self.connection_fault(info),
        }
    }

    /// The server's address, where nothing of the configuration is refused. Else the name of what is refused first: a URL that
    /// isn't an address; what is subscribed again where nobody hears pushes, and delays that grow by a fraction without a
    /// denominator; pushes that somebody hears on a connection of RESP2, a limit of no permits, and a queue that holds nothing.
    pub fn info(&self, alloc: Global) -> Result<ConnectionInfo, OpenError>
        ensures ok { IfOk result (λ info. address self.now ≡ Some info) }
        ensures sound { OnOk result (first_fault self.now ≡ None) }
        ensures err { IfErr result (RefusesConfig self.now) }
    {
        let info = self.address().read(alloc)?;
        match self.fault_at(&info) {
            Some(fault) => Err(OpenError::Config(fault)),
            None => Ok(info),
        }
    }
}
