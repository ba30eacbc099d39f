ghost use Rattle.std.specs.Prelude.{◌≡◌, ◌<◌};

use crate::retry::RetryConfig;

/// When credentials that expire are renewed, and how a renewal that failed is tried again.
#[derive(Clone, Copy, Debug, PartialEq, Eq)]
pub struct TokenRefreshConfig {
    /// After which part of their lifetime they are renewed: a numerator and a denominator, as `refresh_threshold` takes them.
    pub expiration_refresh_ratio: (u32, u32),
    /// How a renewal that failed is tried again.
    pub retry_config: RetryConfig,
}

impl Default for TokenRefreshConfig {
    ghost use Rattle.std.specs.Prelude.{◌≡◌};
    ghost use Rattle.credentials.specs.Refresh.{default_refresh};

    ghost is_default = { λ config. config ≡ default_refresh };

    /// After four fifths of the lifetime, with the default retries.
    fn default() -> Self {
        TokenRefreshConfig {
            expiration_refresh_ratio: (4, 5),
            retry_config: RetryConfig::default(),
        }
    }
}

impl TokenRefreshConfig {
    /// After which part of their lifetime credentials are renewed.
    pub fn set_expiration_refresh_ratio(self, numerator: u32, denominator: u32) -> Self
        requires { 0 < denominator }
        ensures { result ≡ record self { expiration_refresh_ratio = (numerator, denominator) } }
    {
        TokenRefreshConfig {
            expiration_refresh_ratio: (numerator, denominator),
            ..self
        }
    }

    /// How a renewal that failed is tried again.
    pub fn set_retry_config(self, retry_config: RetryConfig) -> Self
        ensures { result ≡ record self { retry_config = retry_config } }
    {
        TokenRefreshConfig {
            retry_config,
            ..self
        }
    }
}
