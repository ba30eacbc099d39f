//! Claims of the dial.
ghost use Rattle.std.specs.Prelude.{◌≡◌};

use crate::board::Place;
use std::snapshot::Snapshot;

/// The right to dial, which one caller of a table has for each number. It must be spent.
pub struct Dial {
    pub(crate) number: u64,
    /// A seat of the table, as it was once.
    pub(crate) seat: Snapshot<Snapshot<Place>>,
}

impl Dial {
    /// The number that was claimed.
    pub fn spend(self) -> u64
        ensures { result ≡ self.number }
    {
        let Dial { number, seat } = self;
        drop(seat);
        number
    }
}

/// What a caller is told that asks for the dial.
pub enum Claim {
    /// The next number is its own.
    Claimed(Dial),
    /// Another has claimed it: the number that the word held.
    Newer(u64),
}
