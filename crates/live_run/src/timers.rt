ghost use Rattle.std.specs.Prelude.{◌≡◌, ◌⊎◌, ◌≤◌, true, false, length, MatchOption, OnOk};
ghost use Rattle.live_run.specs.Agenda.{due_in, timed};
ghost use Rattle.live_run.specs.Places.{IsBefore};

use containers::Queue;
use std::alloc::AllocError;

/// A timer that is to fire.
#[derive(Clone, Copy, PartialEq, Eq)]
pub(crate) struct Pending {
    pub(crate) timer: u32,
    /// The moment from which on it is due.
    pub(crate) due: u64,
}

/// The timer in front of a place, if it is due later than at this moment.
fn later_before(timers: &Queue<Pending>, place: usize, due: u64) -> Option<Pending>
    requires { place ≤ length timers.now }
    ensures { MatchOption result
        ((place ≡ 0) ⊎ ((item : Pending) × IsBefore timers.now place due item false))
        (λ item. IsBefore timers.now place due item true) }
{
    if place == 0 {
        return None;
    }
    let before = *timers.at(place - 1);
    if before.due <= due {
        return None;
    }
    Some(before)
}

/// One more timer, behind the last that is not due later. Its place is looked for from the back.
pub(crate) fn add_timer(timers: &mut Queue<Pending>, next: Pending) -> Result<(), AllocError>
    ensures { OnOk result (timers.new ≡ timed next timers.old) }
{
    timers.push_back(next)?;
    let mut place = timers.len() - 1;
    while let Some(before) = later_before(timers, place, next.due) {
        timers.set(place, before);
        place -= 1;
    }
    timers.set(place, next);
    Ok(())
}

/// The timer in front, if it is due by this moment.
pub(crate) fn due_by(timers: &Queue<Pending>, moment: u64) -> Option<u32>
    ensures { result ≡ due_in moment timers.now }
{
    if timers.is_empty() {
        return None;
    }
    let first = *timers.at(0);
    if first.due <= moment {
        Some(first.timer)
    } else {
        None
    }
}
