use std::alloc::AllocError;

/// Why a message took no place in the queue.
#[derive(Drop)]
pub enum EnqueueError {
    /// The queue holds its size.
    Full,
    NoMemory,
}

/// Why no message was started.
#[derive(Drop)]
pub enum StartError {
    /// The number 2^32 - 1 would have been given to a message.
    Spent,
    NoMemory,
}

impl From<AllocError> for EnqueueError {
    ghost use Rattle.std.specs.Prelude.{◌≡◌};
    ghost use Rattle.link_core.specs.declared.errors.EnqueueError.TheVariants.{NoMemory};

    ghost from_gives = { λ _ e. e ≡ NoMemory };

    fn from(_error: AllocError) -> Self {
        EnqueueError::NoMemory
    }
}

impl From<AllocError> for StartError {
    ghost use Rattle.std.specs.Prelude.{◌≡◌};
    ghost use Rattle.link_core.specs.declared.errors.StartError.TheVariants.{NoMemory};

    ghost from_gives = { λ _ e. e ≡ NoMemory };

    fn from(_error: AllocError) -> Self {
        StartError::NoMemory
    }
}
