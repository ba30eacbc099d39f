ghost use Rattle.std.specs.Prelude.{◌≡◌, [], IfOk};
ghost use Rattle.resp_value.specs.declared.push_kind.PushKind.TheVariants.{Disconnection};
ghost use Rattle.driver_model.specs.Push.{is_disconnection};

use resp_value::{PushKind, Values};
use std::alloc::{AllocError, Global};

/// A push: what it is about, and its other parts. One of the kind `Disconnection` has no parts, and tells that a link has ended.
#[derive(Drop)]
pub struct PushInfo {
    pub kind: PushKind,
    pub parts: Values,
}

impl PushInfo {
    /// What tells that a link has ended. Takes no memory.
    pub fn disconnection(alloc: Global) -> PushInfo
        ensures { result ≡ record { kind = Disconnection; parts = [] } }
    {
        PushInfo {
            kind: PushKind::Disconnection,
            parts: Values::new(alloc),
        }
    }

    /// Whether it tells that a link has ended.
    pub fn is_disconnection(&self) -> bool
        ensures { result ≡ is_disconnection self.now.kind }
    {
        matches!(self.kind, PushKind::Disconnection)
    }

    /// An equal value of its own.
    pub fn clone(&self, alloc: Global) -> Result<PushInfo, AllocError>
        ensures { IfOk result (λ p. p ≡ self.now) }
    {
        let kind = self.kind.clone(alloc)?;
        let parts = self.parts.clone(alloc)?;
        Ok(PushInfo { kind, parts })
    }
}
