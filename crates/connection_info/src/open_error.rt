use redis_error::ConfigName;
use std::alloc::AllocError;
use std::fmt;
use thiserror::Error;

/// Why nothing is opened.
#[derive(Clone, Copy, PartialEq, Eq, Error)]
pub enum OpenError {
    /// The configuration is refused, for what it says of this name.
    #[error("the configuration is refused: {}", .0.name())]
    Config(ConfigName),
    /// Automatic resubscription was asked for without a push sender.
    #[error("automatic resubscription needs a push sender")]
    Client,
    #[error("out of memory")]
    NoMemory,
}

impl fmt::Debug for OpenError {
    fn fmt<W: fmt::Write>(&self, f: &mut fmt::Formatter<W>) -> fmt::Result {
        fmt::Display::fmt(self, f)
    }
}

impl OpenError {
    /// The refusal of a text that is no address.
    pub(crate) const URL: OpenError = OpenError::Config(ConfigName::Url);
}

impl From<AllocError> for OpenError {
    ghost use Rattle.std.specs.Prelude.{◌≡◌};
    ghost use Rattle.connection_info.specs.declared.open_error.OpenError.TheVariants.{NoMemory};

    ghost from_gives = { λ _ e. e ≡ NoMemory };

    fn from(_error: AllocError) -> Self {
        OpenError::NoMemory
    }
}
