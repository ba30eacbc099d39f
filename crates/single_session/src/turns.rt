ghost use Rattle.std.specs.Prelude.{◌≡◌, ◌<◌, ◌+◌, ◌^◌, ◌++◌, [], length, take, true, false, None, OnOk, OnErr, IfOk, IsErrOf};
ghost use Rattle.single_session.specs.Done.{done_each};
ghost use Rattle.single_session.specs.Generations.{IsCounted, HasFraction};
ghost use Rattle.single_session.specs.Turn.{next_turn, effects_of, is_bad, has_run_out, IsFewer};

use crate::core_state::Core;
use crate::returning::show_return;
use crate::showing::{Done, show_each};
use driver_model::{Action, Event};
use mux_conn::{ConnectionError, LinkAct, Spare};
use std::alloc::Global;

/// Room for the acts of a turn, and for those behind what a manager does of its own in it.
#[derive(Drop)]
pub struct Rooms {
    acts: Spare<LinkAct>,
    last: Spare<LinkAct>,
}

impl Rooms {
    /// No room yet.
    pub fn new(alloc: Global) -> Rooms {
        Rooms {
            acts: Spare::new(alloc),
            last: Spare::new(alloc),
        }
    }
}

/// One turn of a session, whose effects `out` gains, and `done` its outcomes. After an error `out` begins with what it held.
pub fn make_turn(
    alloc: Global,
    core: &mut Core,
    event: &Event,
    rooms: &mut Rooms,
    done: &mut Vec<Done>,
    out: &mut Vec<Action>,
) -> Result<(), ConnectionError>
    requires good { is_bad core.old event.now.kind ≡ false }
    requires room { has_run_out core.old ≡ false }
    requires turns { core.old.turns < 2 ^ 32 }
    requires fewer { IsFewer core.old }
    requires counted { IsCounted core.old }
    requires sound { core.old.single.connection.failure ≡ None }
    requires grows { HasFraction core.old.manager }
    ensures core { OnOk result (core.new ≡ (next_turn core.old event.now.kind).core) }
    ensures actions { OnOk result (
        out.new.items ≡ out.old.items ++ effects_of core.old event.now
        ) }
    ensures done { OnOk result (
        done.new.items ≡ done.old.items ++ done_each (next_turn core.old event.now.kind).acts
        ) }
    ensures unspent { OnOk result (has_run_out core.new ≡ false) }
    ensures spent { IsErrOf result ConnectionError.Spent
        → has_run_out (next_turn core.old event.now.kind).core ≡ true }
    ensures fewer { OnOk result (IsFewer core.new) }
    ensures counted { OnOk result (IsCounted core.new) }
    ensures sound { OnOk result (core.new.single.connection.failure ≡ None) }
    ensures front { OnErr result (take (length out.old.items) out.new.items ≡ out.old.items) }
{
    let link = core.single.link;
    let timers = core.timers.len() as u64;
    let sources = core.sources.len() as u64;
    let mut acts = rooms.acts.take(alloc);
    let mut last = rooms.last.take(alloc);
    let comeback = match core.turn(alloc, &event.kind, &mut acts, &mut last) {
        Ok(comeback) => comeback,
        Err(error) => return Err(error),
    };
    let acts = show_each(alloc, link, timers, sources, acts, done, out)?;
    rooms.acts.give(acts);
    let last = show_return(alloc, core, event.word, comeback, last, done, out)?;
    rooms.last.give(last);
    Ok(())
}
