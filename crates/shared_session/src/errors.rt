use redis_error::ConfigName;
use std::alloc::AllocError;

/// Why a session was not made.
#[derive(Drop)]
pub enum MakeError {
    /// The configuration is refused, for what it says of this name.
    Config { name: ConfigName },
    NoMemory,
}

/// Why a session took no event.
#[derive(Drop)]
pub enum StepError {
    /// The event names what was never given out, or says that more bytes were written than were offered. Nothing
    /// changed.
    BadEvent,
    /// A number has run out. The session has failed, after so many events.
    Spent { events: u32 },
    /// Memory was refused. The session has failed.
    NoMemory,
}

/// Why a replay ended before its last event. The finished turns are kept.
#[derive(Drop)]
pub enum ReplayError {
    /// The configuration is refused, for what it says of this name. Nothing was shown.
    Config { name: ConfigName },
    /// The event at this index is the first bad one.
    BadEvent { index: u32 },
    /// A number has run out, after so many events.
    Spent { events: u32 },
    NoMemory,
}

impl From<AllocError> for MakeError {
    ghost use Rattle.std.specs.Prelude.{◌≡◌};
    ghost use Rattle.shared_session.specs.declared.errors.MakeError.TheVariants.{NoMemory};

    ghost from_gives = { λ _ e. e ≡ NoMemory };

    fn from(_error: AllocError) -> Self {
        MakeError::NoMemory
    }
}
