use std::alloc::AllocError;

/// Why a call of a connection failed. The connection has failed then, and every later call that can fail answers the same.
#[derive(Clone, Copy, Debug, PartialEq, Eq)]
pub enum ConnectionError {
    /// The number 2^32 - 1 would have been given to a message.
    Spent,
    NoMemory,
}

impl From<AllocError> for ConnectionError {
    ghost use Rattle.std.specs.Prelude.{◌≡◌};
    ghost use Rattle.mux_conn.specs.declared.errors.ConnectionError.TheVariants.{NoMemory};

    ghost from_gives = { λ _ e. e ≡ NoMemory };

    fn from(_error: AllocError) -> Self {
        ConnectionError::NoMemory
    }
}
