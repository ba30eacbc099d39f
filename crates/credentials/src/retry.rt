ghost use Rattle.std.specs.Prelude.{◌≡◌, ◌<◌};

/// How a renewal that failed is tried again: after a delay that grows by a factor with each try, between a least and a
/// greatest delay.
#[derive(Clone, Copy, Debug, PartialEq, Eq)]
pub struct RetryConfig {
    /// How often it is tried again.
    pub number_of_retries: u32,
    /// The first delay, in milliseconds.
    pub min_delay: u64,
    /// The longest delay, in milliseconds.
    pub max_delay: u64,
    /// By what the delay grows with each try: a numerator and a denominator.
    pub exponent_base: (u32, u32),
}

impl Default for RetryConfig {
    ghost use Rattle.std.specs.Prelude.{◌≡◌};
    ghost use Rattle.credentials.specs.Refresh.{default_retries};

    ghost is_default = { λ config. config ≡ default_retries };

    /// 3 retries, the first after 100 milliseconds, each after twice the delay of the one before, and none after more than
    /// 30,000 milliseconds.
    fn default() -> Self {
        RetryConfig {
            number_of_retries: 3,
            min_delay: 100,
            max_delay: 30_000,
            exponent_base: (2, 1),
        }
    }
}

impl RetryConfig {
    /// How often a renewal is tried again.
    pub fn set_number_of_retries(self, retries: u32) -> Self
        ensures { result ≡ record self { number_of_retries = retries } }
    {
        RetryConfig {
            number_of_retries: retries,
            ..self
        }
    }

    /// The first delay, in milliseconds.
    pub fn set_min_delay(self, milliseconds: u64) -> Self
        ensures { result ≡ record self { min_delay = milliseconds } }
    {
        RetryConfig {
            min_delay: milliseconds,
            ..self
        }
    }

    /// The longest delay, in milliseconds.
    pub fn set_max_delay(self, milliseconds: u64) -> Self
        ensures { result ≡ record self { max_delay = milliseconds } }
    {
        RetryConfig {
            max_delay: milliseconds,
            ..self
        }
    }

    /// By what the delay grows with each try.
    pub fn set_exponent_base(self, numerator: u32, denominator: u32) -> Self
        requires { 0 < denominator }
        ensures { result ≡ record self { exponent_base = (numerator, denominator) } }
    {
        RetryConfig {
            exponent_base: (numerator, denominator),
            ..self
        }
    }
}
