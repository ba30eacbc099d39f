ghost use Rattle.std.specs.Prelude.{◌≡◌, ◌≤◌, ◌∷◌, [], None, IsErrOf};
ghost use Rattle.push_sender.specs.Sending.{Gained, Rose};

use crate::sender::{AsyncPushSender, SendError};
use driver_model::PushInfo;

/// A closure that takes pushes, or refuses them.
pub type Taker = Box<dyn FnMut(PushInfo) -> Result<(), SendError>>;

/// A sender that hands each push to a closure, and counts what that refuses.
#[derive(Drop)]
pub struct PushFn {
    send: Taker,
    refused: u64,
    ghost callable: { Taker.IsAlwaysCallable send },
}

impl PushFn {
    /// A sender over this closure, which has refused nothing.
    pub fn new(send: Taker) -> PushFn
        requires { Taker.IsAlwaysCallable send }
        ensures kept { result.send ≡ send }
        ensures refused { result.refused ≡ 0 }
    {
        PushFn { send, refused: 0 }
    }
}

impl AsyncPushSender for PushFn {
    // It tells nothing of what it was handed: its closure has it.
    ghost handed = { λ _. None };

    ghost refusals = { λ it. it.refused };

    fn refused(&self) -> u64 {
        self.refused
    }

    fn send(&mut self, info: PushInfo) -> Result<(), SendError>
        ensures handed { Gained None None (info ∷ []) }
        ensures later { self.old.refused ≤ self.new.refused }
        ensures refused { IsErrOf result SendError.Refused
            → Rose self.old.refused self.new.refused }

        // The closure was called with this push, and what it answered is the answer.
        ensures called { Taker.step self.old.send info result self.new.send }
    {
        match (self.send)(info) {
            Ok(()) => Ok(()),
            Err(SendError::Refused) => {
                self.refused = self.refused.saturating_add(1);
                Err(SendError::Refused)
            }
            Err(SendError::NoMemory) => Err(SendError::NoMemory),
        }
    }
}
