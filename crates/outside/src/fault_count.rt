ghost use Rattle.std.specs.Prelude.{◌≤◌};
ghost use Rattle.outside.specs.Ends.{Rose};
ghost use Rattle.outside.specs.World.{DialFailed, GotFailed, PutFailed};

use crate::world::{Dialed, LinkGot, LinkPut};

/// A count of faults after a dial.
pub(crate) fn after_dial(faults: u64, answer: Dialed) -> u64
    ensures later { faults ≤ result }
    ensures rose { DialFailed answer → Rose faults result }
{
    match answer {
        Dialed::Failed(_) => faults.saturating_add(1),
        Dialed::Yes => faults,
    }
}

/// A count of faults after a read of a link.
pub(crate) fn after_read(faults: u64, answer: LinkGot) -> u64
    ensures later { faults ≤ result }
    ensures rose { GotFailed answer → Rose faults result }
{
    match answer {
        LinkGot::Failed(_) => faults.saturating_add(1),
        LinkGot::Read(_) | LinkGot::NotYet | LinkGot::Ended => faults,
    }
}

/// A count of faults after a write to a link.
pub(crate) fn after_write(faults: u64, answer: LinkPut) -> u64
    ensures later { faults ≤ result }
    ensures rose { PutFailed answer → Rose faults result }
{
    match answer {
        LinkPut::Failed(_) => faults.saturating_add(1),
        LinkPut::Took(_) | LinkPut::NotYet => faults,
    }
}
