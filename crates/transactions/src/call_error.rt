use redis_error::RedisError;
use std::alloc::AllocError;
use std::fmt;
use thiserror::Error;

/// Why a call has no value.
#[derive(Drop, Error)]
pub enum CallError {
    /// The request failed.
    #[error(transparent)]
    Redis(RedisError),
    /// Whoever makes the calls takes no more: it was told this many events.
    #[error("no more calls can be made after {events} events")]
    Spent { events: u32 },
    #[error("out of memory")]
    NoMemory,
}

impl fmt::Debug for CallError {
    fn fmt<W: fmt::Write>(&self, f: &mut fmt::Formatter<W>) -> fmt::Result {
        fmt::Display::fmt(self, f)
    }
}

impl From<AllocError> for CallError {
    ghost use Rattle.std.specs.Prelude.{◌≡◌};
    ghost use Rattle.transactions.specs.declared.call_error.CallError.TheVariants.{NoMemory};

    ghost from_gives = { λ _ e. e ≡ NoMemory };

    fn from(_error: AllocError) -> Self {
        CallError::NoMemory
    }
}
