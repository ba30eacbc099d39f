ghost use Rattle.std.specs.Prelude.{◌≡◌, ◌≤◌, ◌∷◌, [], ℕ, List, Option, IsErrOf};
ghost use Rattle.driver_model.specs.declared.push_info.PushInfo.{PushInfo};
ghost use Rattle.push_sender.specs.Sending.{Gained, Rose};

use driver_model::PushInfo;
use std::alloc::AllocError;

/// Why a sender didn't take a push.
#[derive(Clone, Copy, Debug, PartialEq, Eq)]
pub enum SendError {
    /// It refused the push: its count of refusals has risen.
    Refused,
    /// Memory was refused.
    NoMemory,
}

impl From<AllocError> for SendError {
    ghost use Rattle.std.specs.Prelude.{◌≡◌};
    ghost use Rattle.push_sender.specs.declared.sender.SendError.TheVariants.{NoMemory};

    ghost from_gives = { λ _ e. e ≡ NoMemory };

    fn from(_error: AllocError) -> Self {
        SendError::NoMemory
    }
}

/// Where pushes go. A sender tells what it was handed, or tells nothing.
pub trait AsyncPushSender: Drop {
    // The pushes that it was handed, in order, where it tells.
    ghost handed: { Self → Option (List PushInfo) };

    // How many it has refused.
    ghost refusals: { Self → ℕ };

    /// How many pushes it has refused. At the end of its type the count stands.
    fn refused(&self) -> u64
        ensures { result ≡ refusals self.now };

    /// Takes a push, or refuses it.
    fn send(&mut self, info: PushInfo) -> Result<(), SendError>
        ensures handed { Gained (handed self.old) (handed self.new) (info ∷ []) }
        ensures later { refusals self.old ≤ refusals self.new }
        ensures refused { IsErrOf result SendError.Refused
            → Rose (refusals self.old) (refusals self.new) };
}

// What a box tells is what its sender tells.
impl AsyncPushSender for Box<dyn AsyncPushSender> {
    ghost handed = { λ it. (AsyncPushSender-box it).handed it.value };

    ghost refusals = { λ it. (AsyncPushSender-box it).refusals it.value };

    fn refused(&self) -> u64 {
        (**self).refused()
    }

    fn send(&mut self, info: PushInfo) -> Result<(), SendError> {
        (**self).send(info)
    }
}
