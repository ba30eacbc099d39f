//! A caller, between two calls.
ghost use Rattle.std.specs.Prelude.{◌≡◌};

use crate::board::Place;
use std::marker::Model;

/// A caller, seen as the table that it is of and what it knows. It holds no ticket.
#[derive(Drop)]
pub struct Caller {
    pub(crate) seat: Place,
    pub(crate) front: u32,
    pub(crate) generation: u64,
    pub(crate) number: u64,
    pub(crate) made: u64,
    pub(crate) most: u64,
}

impl Model for Caller {
    ghost use Rattle.std.specs.Prelude.{◌≡◌, ◌<◌, ◌≤◌, length, [], ◌∷◌};
    ghost use Rattle.session_callers.specs.Calls.{IsIdle, Known};

    ghost Value = { Known };

    ghost view = { λ c. record { table = c.seat.table_id; view = c.seat.me.0 } };

    ghost invariant = { λ c. IsIdle c.seat × (c.front ≡ length c.seat.me.0.seen)
        × (c.generation ≡ c.seat.me.0.dial) × (c.seat.me.0.number ≡ c.number ∷ [])
        × (c.seat.me.0.made ≡ c.made) × (c.seat.me.0.most ≡ c.most) × (c.number < c.most) × (c.made ≤ c.most) };
}

impl Caller {
    /// The greatest number of the dial that it has read.
    pub fn generation(&self) -> u64
        ensures { result ≡ self.now.view.dial }
    {
        self.generation
    }
}
