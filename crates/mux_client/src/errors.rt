use mux_conn::ConnectionError;
use redis_error::RedisError;
use std::alloc::AllocError;

/// Why nothing was sent.
#[derive(Drop)]
pub enum SendError {
    /// The request is refused, with this error: it is a subscription call on a connection that doesn't speak RESP3, or it
    /// packs to no bytes.
    Refused(RedisError),
    /// The number 2^32 - 1 would be given to it.
    Spent,
    /// Memory was refused, now or in an earlier call.
    NoMemory,
}

impl From<AllocError> for SendError {
    ghost use Rattle.std.specs.Prelude.{◌≡◌};
    ghost use Rattle.mux_client.specs.declared.errors.SendError.TheVariants.{NoMemory};

    ghost from_gives = { λ _ e. e ≡ NoMemory };

    fn from(_error: AllocError) -> Self {
        SendError::NoMemory
    }
}

impl From<ConnectionError> for SendError {
    ghost use Rattle.std.specs.Prelude.{◌≡◌};
    ghost use Rattle.mux_client.specs.Errors.{send_error};

    ghost from_gives = { λ error e. e ≡ send_error error };

    fn from(error: ConnectionError) -> Self {
        match error {
            ConnectionError::Spent => SendError::Spent,
            ConnectionError::NoMemory => SendError::NoMemory,
        }
    }
}
