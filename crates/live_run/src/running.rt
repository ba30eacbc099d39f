ghost use Rattle.std.specs.Prelude.{◌≡◌, ◌≤◌, ◌<◌, ◌++◌, List, length, IfOk, IfErr, OnOk};
ghost use Rattle.driver_model.specs.declared.action.Action.{Action};
ghost use Rattle.live_run.specs.Agenda.{agenda_of};
ghost use Rattle.live_run.specs.Claims.{HasClaimed};
ghost use Rattle.live_run.specs.Deeds.{Broke, Does};
ghost use Rattle.live_run.specs.Driven.{DrivenWith, Ran};
ghost use Rattle.live_run.specs.Endings.{Goes, StaysWithin};
ghost use Rattle.live_run.specs.Rounds.{IsNext, IsOverNext};
ghost use Rattle.live_run.specs.Steps.{IsEnd};

use crate::deeds::{close_each, step};
use crate::driver::Driver;
use crate::ending::Ending;
use crate::rooms::{ROOM, new_room};
use driver_model::{Action, EventKind};
use outside::World;
use session_callers::Keeper;
use shared_session::{Session, StepError};
use std::alloc::Global;

/// After so many idle passes in a row a run is over.
const IDLE_PASSES: u32 = 6_000;

/// How long an idle pass waits, in milliseconds.
const IDLE_MS: u64 = 10;

/// What a pass comes to.
#[derive(Clone, Copy)]
pub(crate) enum Next {
    /// The run is over.
    Over(Ending),
    /// So many passes in a row are idle now.
    Idle(u32),
}

/// One pass, after so many idle ones in a row, and a wait where it is idle.
fn round<W: World>(
    driver: &mut Driver,
    session: &mut Session,
    keeper: &mut Keeper,
    world: &mut W,
    room: &mut [u8],
    idle: u32,
) -> Result<Next, StepError>
    requires room { length room.old ≡ ROOM }
    requires few { idle < 6_000 }
    requires claimed { HasClaimed driver.old.agenda.claimed keeper.old }
    ensures claims { OnOk result (HasClaimed driver.new.agenda.claimed keeper.new) }
    ensures did { IfOk result (λ next.
        Does (W.told world.old) (W.told world.new) session.old session.new
        driver.old.agenda driver.new.agenda
        (IsNext next idle session.old session.new driver.old.agenda)) }
    ensures goes { OnOk result (
        Goes session.old session.new driver.old.verdict.submissions
        ) }
    ensures over { IfOk result (λ next.
        IsOverNext next session.new driver.old.verdict.submissions) }
    ensures same { OnOk result (
        driver.new.verdict.submissions ≡ driver.old.verdict.submissions
        ) }
    ensures err { IfErr result (λ error.
        Broke error (W.told world.old) (W.told world.new) session.old session.new driver.old.agenda) }
    ensures few { IfErr result (λ _. StaysWithin session.old session.new) }
{
    let before = session.events_taken();
    match driver.pass(session, keeper, world, room) {
        Ok(None) => {}
        Ok(Some(ending)) => return Ok(Next::Over(ending)),
        Err(error) => return Err(error),
    }
    if session.events_taken() != before {
        return Ok(Next::Idle(0));
    }
    world.wait(IDLE_MS);
    Ok(Next::Idle(idle + 1))
}

/// Makes passes until the run is over.
fn run<W: World>(
    driver: &mut Driver,
    session: &mut Session,
    keeper: &mut Keeper,
    world: &mut W,
    room: &mut [u8],
) -> Result<Ending, StepError>
    requires room { length room.old ≡ ROOM }
    requires claimed { HasClaimed driver.old.agenda.claimed keeper.old }
    ensures claims { OnOk result (HasClaimed driver.new.agenda.claimed keeper.new) }
    ensures did { IfOk result (λ ending.
        Does (W.told world.old) (W.told world.new) session.old session.new
        driver.old.agenda driver.new.agenda
        (Ran ending session.new driver.old.verdict.submissions driver.old.agenda)) }
    ensures goes { OnOk result (
        Goes session.old session.new driver.old.verdict.submissions
        ) }
    ensures err { IfErr result (λ error.
        Broke error (W.told world.old) (W.told world.new) session.old session.new driver.old.agenda) }
    ensures few { IfErr result (λ _. StaysWithin session.old session.new) }
{
    let mut idle = 0u32;
    'passes: while idle < IDLE_PASSES {
        if let Some(ending) = driver.verdict.ending(session) {
            return Ok(ending);
        }
        match round(driver, session, keeper, world, room, idle) {
            Ok(Next::Idle(count)) => idle = count,
            Ok(Next::Over(ending)) => return Ok(ending),
            Err(error) => return Err(error),
        }
    }
    Ok(Ending::Idle)
}

/// Shuts the session down, and closes the links that the world has connected and not closed.
fn end<W: World>(driver: &mut Driver, session: &mut Session, world: &mut W) -> Result<(), StepError>
    ensures did { OnOk result (
        IsEnd (W.told world.old) (W.told world.new) session.old session.new
        (driver.old.agenda.closes ++ driver.old.agenda.unclosed)) }
    ensures err { IfErr result (λ error.
        Broke error (W.told world.old) (W.told world.new) session.old session.new driver.old.agenda) }
    ensures few { IfErr result (λ _. StaysWithin session.old session.new) }
{
    match step(driver.alloc, session, world, EventKind::Shutdown) {
        Ok(gained) => drop(gained),
        Err(error) => return Err(error),
    }
    close_each(&mut driver.agenda.closes, world);
    close_each(&mut driver.agenda.unclosed, world);
    Ok(())
}

/// Makes passes until the run is over, and ends it.
fn run_out<W: World>(
    driver: &mut Driver,
    session: &mut Session,
    keeper: &mut Keeper,
    world: &mut W,
    room: &mut [u8],
) -> Result<Ending, StepError>
    requires room { length room.old ≡ ROOM }
    requires claimed { HasClaimed driver.old.agenda.claimed keeper.old }
    ensures driven { IfOk result (λ ending.
        (early : List Action) → driver.old.agenda ≡ agenda_of early
        → DrivenWith keeper.new early (W.told world.old) (W.told world.new) session.old session.new
        driver.old.verdict.submissions ending
        ) }
    ensures err { IfErr result (λ error.
        Broke error (W.told world.old) (W.told world.new) session.old session.new driver.old.agenda) }
    ensures few { IfErr result (λ _. StaysWithin session.old session.new) }
{
    let ending = match run(driver, session, keeper, world, room) {
        Ok(ending) => ending,
        Err(error) => return Err(error),
    };
    match end(driver, session, world) {
        Ok(()) => Ok(ending),
        Err(error) => Err(error),
    }
}

/// Drives a session over a world, until every submission has its outcome, 6,000 passes in a row were idle, or the history
/// holds 9,999,999 events. Then the session is shut down, and the links are closed.
///
/// `actions` are those of the turns so far, in order, and `submissions` is how many submissions were handed in. No more
/// come. `keeper`, of whose dial nothing was claimed yet, claims the number of each generation before that is dialled.
/// After an error the session keeps the events that it has taken, and has no more than it had, or that many.
pub fn drive<W: World>(
    alloc: Global,
    session: &mut Session,
    keeper: &mut Keeper,
    actions: Vec<Action>,
    submissions: u32,
    world: &mut W,
) -> Result<Ending, StepError>
    requires { HasClaimed 0 keeper.old }
    ensures driven { IfOk result (λ ending.
        DrivenWith keeper.new actions.items (W.told world.old) (W.told world.new) session.old session.new
        submissions ending
        ) }
    ensures err { IfErr result (λ error.
        Broke error (W.told world.old) (W.told world.new) session.old session.new
        (agenda_of actions.items)) }
    ensures few { IfErr result (λ _. StaysWithin session.old session.new) }
{
    let mut room = match new_room(alloc) {
        Ok(room) => room,
        Err(_) => {
            drop(actions);
            return Err(StepError::NoMemory);
        }
    };
    let mut driver = Driver::new(alloc, actions, submissions);
    let ended = run_out(&mut driver, session, keeper, world, room.as_mut_slice());
    drop(driver);
    ended
}
