//! What is left of callers that gave their session up.
ghost use Rattle.std.specs.Prelude.{◌≡◌, ◌+◌, ◌^◌, ◌<◌, ◌≤◌};
ghost use Rattle.session_callers.specs.Claims.{IsDialOf, MatchClaim};

use crate::board::Place;
use crate::dial::{Claim, Dial};
use std::marker::Model;
use std::snapshot::Snapshot;

/// What is left of all callers of a session: nobody else can claim the dial of their table any more. It holds neither a ticket
/// nor the session. Contracts see the table and the greatest number that was claimed.
#[derive(Drop)]
pub struct Keeper {
    pub(crate) place: Snapshot<Place>,
    pub(crate) generation: u64,
}

impl Model for Keeper {
    ghost use Rattle.session_callers.specs.Calls.{Kept};

    ghost Value = { Kept };

    ghost view = { λ k. record { table = k.place.value.table_id; dial = k.generation } };
}

impl Keeper {
    /// The greatest number of the dial that was claimed.
    pub fn generation(&self) -> u64
        ensures { result ≡ self.now.dial }
    {
        self.generation
    }

    /// Claims the dial after `g`, where that is the greatest number that was claimed. Waits for nobody.
    pub fn claim_dial(&mut self, g: u64) -> Claim
        requires known { (g ≤ self.old.dial) × (g + 1 < 2 ^ 64) }
        ensures table { self.new.table ≡ self.old.table }
        ensures claimed { MatchClaim result
            (λ dial. (self.old.dial ≡ g) × IsDialOf self.old.table (g + 1) dial × (self.new.dial ≡ g + 1))
            (λ n. (g < n) × (n ≡ self.old.dial) × (self.new.dial ≡ self.old.dial)) }
    {
        if self.generation != g {
            return Claim::Newer(self.generation);
        }
        self.generation = g + 1;
        let seat = Snapshot::of(&self.place);
        Claim::Claimed(Dial {
            number: g + 1,
            seat,
        })
    }
}
