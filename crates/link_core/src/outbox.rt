ghost use Rattle.std.specs.Prelude.{◌≡◌, ◌≤◌, ◌++◌, length, OnOk, OnErr};

use containers::Bytes;
use std::alloc::AllocError;

/// The bytes of started messages that are not written yet, and how many of them are offered: 0 where no offer is
/// unanswered.
#[derive(Drop)]
pub struct Outbox {
    pub unwritten: Bytes,
    pub offered: u64,
}

impl Outbox {
    ghost use Rattle.std.specs.Prelude.{if◌then◌else◌, IfOk};
    ghost use Rattle.link_core.specs.Outbox.{added, can_offer, all_offered, taken};

    /// The bytes of one more message.
    pub fn add(&mut self, packed: &[u8]) -> Result<(), AllocError>
        ensures ok { OnOk result (self.new ≡ added self.old packed.now) }
        ensures err { OnErr result (self.new ≡ self.old) }
    {
        self.unwritten.extend_from_slice(packed)
    }

    /// Offers all bytes by appending them to `out`, and tells whether it did: where there are none, or an offer is
    /// unanswered, nothing changes.
    pub fn offer(&mut self, out: &mut Vec<u8>) -> Result<bool, AllocError>
        ensures answer { IfOk result (λ offers. offers ≡ can_offer self.old) }
        ensures outbox { IfOk result (λ offers.
            self.new ≡ (if offers then all_offered self.old else self.old)
            ) }
        ensures bytes { IfOk result (λ offers.
            out.new.items
            ≡ (if offers then out.old.items ++ self.old.unwritten else out.old.items)
            ) }
        ensures err { OnErr result (self.new ≡ self.old) }
        ensures err_out { OnErr result (out.new.items ≡ out.old.items) }
    {
        if self.unwritten.is_empty() || self.offered != 0 {
            return Ok(false);
        }
        out.extend_from_slice(self.unwritten.as_slice())?;
        self.offered = self.unwritten.len() as u64;
        Ok(true)
    }

    /// The first `count` of the offered bytes were taken. Where all were, nothing moves, and their room is kept.
    pub fn take(&mut self, count: u64)
        requires { count ≤ length self.old.unwritten }
        ensures { self.new ≡ taken self.old count }
    {
        let count = count as usize;
        if count == self.unwritten.len() {
            self.unwritten.clear();
        } else {
            self.unwritten.drop_front(count);
        }
        self.offered = 0;
    }
}
