ghost use Rattle.std.specs.Prelude.{◌≡◌, IfOk};

use containers::{Seq, TryClone};
use slot_hash::NodeAddress;
use std::alloc::{AllocError, Global};
use thiserror::Error;

/// A row of a server's slots: the first and the last slot, and the nodes that have them.
#[derive(Drop)]
pub struct SlotRow {
    pub start: u16,
    pub end: u16,
    pub primary: NodeAddress,
    pub replicas: Seq<NodeAddress>,
}

/// The rows of a server's slots, in order. Of two rows that hold a slot the later one counts.
pub type SlotRows = Seq<SlotRow>;

/// Why a reply gives no rows.
#[derive(Clone, Copy, Debug, PartialEq, Eq, Error)]
pub enum SlotsError {
    /// The reply isn't of the shape of slot rows.
    #[error("the reply has no rows of slots")]
    Parse,
    #[error("out of memory")]
    NoMemory,
}

impl From<AllocError> for SlotsError {
    ghost use Rattle.std.specs.Prelude.{◌≡◌};
    ghost use Rattle.mux_routing.specs.declared.rows.SlotsError.TheVariants.{NoMemory};

    ghost from_gives = { λ _ e. e ≡ NoMemory };

    fn from(_error: AllocError) -> Self {
        SlotsError::NoMemory
    }
}

impl SlotRow {
    /// An equal value of its own.
    pub fn clone(&self, alloc: Global) -> Result<SlotRow, AllocError>
        ensures { IfOk result (λ r. r ≡ self.now) }
    {
        let primary = self.primary.clone(alloc)?;
        let replicas = self.replicas.clone(alloc)?;
        Ok(SlotRow {
            start: self.start,
            end: self.end,
            primary,
            replicas,
        })
    }
}

impl TryClone for SlotRow {
    fn try_clone(&self, alloc: Global) -> Result<SlotRow, AllocError> {
        self.clone(alloc)
    }
}
