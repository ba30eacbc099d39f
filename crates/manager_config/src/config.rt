ghost use Rattle.std.specs.Prelude.{◌≡◌, Some, true};
ghost use Rattle.manager_config.specs.Config.{default_manager};

use connection_info::AsyncConnectionConfig;

/// How a connection manager behaves. Each time that it loses its connection it makes a new one, in several attempts if need
/// be.
#[derive(Clone, Copy, Debug, PartialEq, Eq)]
pub struct ConnectionManagerConfig {
    /// How each of its connections behaves.
    pub connection: AsyncConnectionConfig,
    /// Below how many milliseconds the delay before the second attempt lies.
    pub min_delay: u64,
    /// How many milliseconds a delay has at most; none is no limit.
    pub max_delay: Option<u64>,
    /// By what the delays grow from one attempt to the next: a numerator and a denominator.
    pub exponent_base: (u32, u32),
    /// How many attempts there are after the first.
    pub number_of_retries: u32,
    /// Whether a new connection subscribes again what was subscribed on the one before.
    pub automatic_resubscription: bool,
}

impl Default for ConnectionManagerConfig {
    ghost use Rattle.std.specs.Prelude.{◌≡◌};
    ghost use Rattle.manager_config.specs.Config.{default_manager};

    ghost is_default = { λ config. config ≡ default_manager };

    fn default() -> Self {
        ConnectionManagerConfig {
            connection: AsyncConnectionConfig::default(),
            min_delay: 100,
            max_delay: None,
            exponent_base: (2, 1),
            number_of_retries: 6,
            automatic_resubscription: false,
        }
    }
}

impl ConnectionManagerConfig {
    /// Six attempts after the first, the delays below 100 milliseconds at first, doubled each time and without limit, nothing
    /// subscribed again, and connections that behave as `AsyncConnectionConfig::new` says.
    pub fn new() -> Self
        ensures { result ≡ default_manager }
    {
        ConnectionManagerConfig::default()
    }

    /// Below how many milliseconds the delay before the second attempt lies.
    pub fn min_delay(&self) -> u64
        ensures { result ≡ self.now.min_delay }
    {
        self.min_delay
    }

    /// How many milliseconds a delay has at most; none is no limit.
    pub fn max_delay(&self) -> Option<u64>
        ensures { result ≡ self.now.max_delay }
    {
        self.max_delay
    }

    /// By what the delays grow from one attempt to the next: a numerator and a denominator.
    pub fn exponent_base(&self) -> (u32, u32)
        ensures { result ≡ self.now.exponent_base }
    {
        self.exponent_base
    }

    /// How many attempts there are after the first.
    pub fn number_of_retries(&self) -> u32
        ensures { result ≡ self.now.number_of_retries }
    {
        self.number_of_retries
    }

    /// Within how many milliseconds a request is to be answered; none is no limit.
    pub fn response_timeout(&self) -> Option<u64>
        ensures { result ≡ self.now.connection.response_timeout }
    {
        self.connection.response_timeout
    }

    /// How many milliseconds connecting and setup may take; none is no limit.
    pub fn connection_timeout(&self) -> Option<u64>
        ensures { result ≡ self.now.connection.connection_timeout }
    {
        self.connection.connection_timeout
    }

    /// Whether a new connection subscribes again what was subscribed on the one before.
    pub fn automatic_resubscription(&self) -> bool
        ensures { result ≡ self.now.automatic_resubscription }
    {
        self.automatic_resubscription
    }

    /// Below how many milliseconds the delay before the second attempt lies.
    pub fn set_min_delay(self, milliseconds: u64) -> Self
        ensures { result ≡ record self { min_delay = milliseconds } }
    {
        ConnectionManagerConfig {
            min_delay: milliseconds,
            ..self
        }
    }

    /// How many milliseconds a delay has at most.
    pub fn set_max_delay(self, milliseconds: u64) -> Self
        ensures { result ≡ record self { max_delay = Some milliseconds } }
    {
        ConnectionManagerConfig {
            max_delay: Some(milliseconds),
            ..self
        }
    }

    /// By what the delays grow from one attempt to the next. A denominator of 0 is taken here, and refused where a manager is
    /// made.
    pub fn set_exponent_base(self, numerator: u32, denominator: u32) -> Self
        ensures { result ≡ record self { exponent_base = (numerator, denominator) } }
    {
        ConnectionManagerConfig {
            exponent_base: (numerator, denominator),
            ..self
        }
    }

    /// How many attempts there are after the first.
    pub fn set_number_of_retries(self, retries: u32) -> Self
        ensures { result ≡ record self { number_of_retries = retries } }
    {
        ConnectionManagerConfig {
            number_of_retries: retries,
            ..self
        }
    }

    /// A new connection subscribes again what was subscribed on the one before.
    pub fn set_automatic_resubscription(self) -> Self
        ensures { result ≡ record self { automatic_resubscription = true } }
    {
        ConnectionManagerConfig {
            automatic_resubscription: true,
            ..self
        }
    }
}
