ghost use Rattle.std.specs.Prelude.{◌≡◌, length, is_none, IfOk, IfErr, OnOk};
ghost use Rattle.live_run.specs.Agenda.{agenda_of};
ghost use Rattle.live_run.specs.Claims.{HasClaimed};
ghost use Rattle.live_run.specs.Deeds.{Broke, Does};
ghost use Rattle.live_run.specs.Endings.{Goes, Over, StaysWithin};
ghost use Rattle.live_run.specs.Passes.{Dialing, Firing, Pass, Reading, Then, Writing};

use crate::agenda::Agenda;
use crate::deeds::{close_each, dial_link, fire_timer, read_link, write_link};
use crate::ending::Ending;
use crate::links::numbers_up;
use crate::rooms::ROOM;
use crate::verdict::Verdict;
use driver_model::Action;
use outside::World;
use session_callers::Keeper;
use shared_session::{Session, StepError};
use std::alloc::Global;

/// What a session asks of the world, and when its run is over.
#[derive(Drop)]
pub(crate) struct Driver {
    pub(crate) alloc: Global,
    pub(crate) agenda: Agenda,
    pub(crate) verdict: Verdict,
}

impl Driver {
    pub(crate) fn new(alloc: Global, early: Vec<Action>, submissions: u32) -> Driver
        ensures agenda { result.agenda ≡ agenda_of early.items }
        ensures count { result.verdict.submissions ≡ submissions }
    {
        Driver {
            alloc,
            agenda: Agenda::new(alloc, early),
            verdict: Verdict::new(submissions),
        }
    }

    /// Dials as many links as are to be dialled, until the run is over. What is asked meanwhile is left to the next pass.
    fn dial_all<W: World>(
        &mut self,
        session: &mut Session,
        keeper: &mut Keeper,
        world: &mut W,
    ) -> Result<Option<Ending>, StepError>
        requires { HasClaimed self.old.agenda.claimed keeper.old }
        ensures claims { OnOk result (HasClaimed self.new.agenda.claimed keeper.new) }
        ensures did { IfOk result (λ ending.
            Does (W.told world.old) (W.told world.new) session.old session.new
            self.old.agenda self.new.agenda (Dialing (is_none ending) self.old.agenda)) }
        ensures goes { OnOk result (Goes session.old session.new self.old.verdict.submissions) }
        ensures over { IfOk result (λ ending. Over ending session.new self.old.verdict.submissions) }
        ensures same { OnOk result (self.new.verdict.submissions ≡ self.old.verdict.submissions) }
        ensures err { IfErr result (λ error.
            Broke error (W.told world.old) (W.told world.new) session.old session.new self.old.agenda) }
        ensures few { IfErr result (λ _. StaysWithin session.old session.new) }
    {
        let mut left = self.agenda.dials.len();
        'dials: while left > 0 {
            if let Some(ending) = self.verdict.ending(session) {
                return Ok(Some(ending));
            }
            let Some(target) = self.agenda.dials.pop_front() else {
                return Ok(None);
            };
            let dialled = dial_link(
                self.alloc,
                &mut self.agenda,
                session,
                keeper,
                world,
                &target,
            );
            drop(target);
            match dialled {
                Ok(()) => left -= 1,
                Err(error) => return Err(error),
            }
        }
        Ok(None)
    }

    /// Reads each link that is up once, until the run is over.
    fn read_all<W: World>(
        &mut self,
        session: &mut Session,
        world: &mut W,
        room: &mut [u8],
    ) -> Result<Option<Ending>, StepError>
        requires { length room.old ≡ ROOM }
        ensures claims { OnOk result (self.new.agenda.claimed ≡ self.old.agenda.claimed) }
        ensures did { IfOk result (λ ending.
            Does (W.told world.old) (W.told world.new) session.old session.new
            self.old.agenda self.new.agenda (Reading (is_none ending) self.old.agenda)) }
        ensures goes { OnOk result (Goes session.old session.new self.old.verdict.submissions) }
        ensures over { IfOk result (λ ending. Over ending session.new self.old.verdict.submissions) }
        ensures same { OnOk result (self.new.verdict.submissions ≡ self.old.verdict.submissions) }
        ensures err { IfErr result (λ error.
            Broke error (W.told world.old) (W.told world.new) session.old session.new self.old.agenda) }
        ensures few { IfErr result (λ _. StaysWithin session.old session.new) }
    {
        let mut left = match numbers_up(self.alloc, &self.agenda.links) {
            Ok(left) => left,
            Err(_) => return Err(StepError::NoMemory),
        };
        while let Some(link) = left.pop_front() {
            if let Some(ending) = self.verdict.ending(session) {
                return Ok(Some(ending));
            }
            match read_link(self.alloc, &mut self.agenda, session, world, room, link) {
                Ok(()) => {}
                Err(error) => return Err(error),
            }
        }
        Ok(None)
    }

    /// Writes each offer that is unanswered, whole and once, until the run is over.
    fn write_all<W: World>(
        &mut self,
        session: &mut Session,
        world: &mut W,
    ) -> Result<Option<Ending>, StepError>
        ensures claims { OnOk result (self.new.agenda.claimed ≡ self.old.agenda.claimed) }
        ensures did { IfOk result (λ ending.
            Does (W.told world.old) (W.told world.new) session.old session.new
            self.old.agenda self.new.agenda (Writing (is_none ending) self.old.agenda)) }
        ensures goes { OnOk result (Goes session.old session.new self.old.verdict.submissions) }
        ensures over { IfOk result (λ ending. Over ending session.new self.old.verdict.submissions) }
        ensures same { OnOk result (self.new.verdict.submissions ≡ self.old.verdict.submissions) }
        ensures err { IfErr result (λ error.
            Broke error (W.told world.old) (W.told world.new) session.old session.new self.old.agenda) }
        ensures few { IfErr result (λ _. StaysWithin session.old session.new) }
    {
        let mut left = match numbers_up(self.alloc, &self.agenda.links) {
            Ok(left) => left,
            Err(_) => return Err(StepError::NoMemory),
        };
        while let Some(link) = left.pop_front() {
            if let Some(ending) = self.verdict.ending(session) {
                return Ok(Some(ending));
            }
            match write_link(self.alloc, &mut self.agenda, session, world, link) {
                Ok(()) => {}
                Err(error) => return Err(error),
            }
        }
        Ok(None)
    }

    /// Fires the timers that are due, until the run is over.
    fn fire_all<W: World>(
        &mut self,
        session: &mut Session,
        world: &mut W,
    ) -> Result<Option<Ending>, StepError>
        ensures claims { OnOk result (self.new.agenda.claimed ≡ self.old.agenda.claimed) }
        ensures did { IfOk result (λ ending.
            Does (W.told world.old) (W.told world.new) session.old session.new
            self.old.agenda self.new.agenda (Firing (is_none ending) self.old.agenda)) }
        ensures goes { OnOk result (Goes session.old session.new self.old.verdict.submissions) }
        ensures over { IfOk result (λ ending. Over ending session.new self.old.verdict.submissions) }
        ensures same { OnOk result (self.new.verdict.submissions ≡ self.old.verdict.submissions) }
        ensures err { IfErr result (λ error.
            Broke error (W.told world.old) (W.told world.new) session.old session.new self.old.agenda) }
        ensures few { IfErr result (λ _. StaysWithin session.old session.new) }
    {
        'fires: while let Some(timer) = self.agenda.first_due() {
            if let Some(ending) = self.verdict.ending(session) {
                return Ok(Some(ending));
            }
            match fire_timer(self.alloc, &mut self.agenda, session, world, timer) {
                Ok(()) => {}
                Err(error) => return Err(error),
            }
        }
        Ok(None)
    }

    /// What a pass does behind its dials, until the run is over: it reads and writes, and then timers fire.
    fn after_dials<W: World>(
        &mut self,
        session: &mut Session,
        world: &mut W,
        room: &mut [u8],
    ) -> Result<Option<Ending>, StepError>
        requires { length room.old ≡ ROOM }
        ensures claims { OnOk result (self.new.agenda.claimed ≡ self.old.agenda.claimed) }
        ensures did { IfOk result (λ ending.
            Does (W.told world.old) (W.told world.new) session.old session.new
            self.old.agenda self.new.agenda
            (Then Reading (Then Writing Firing) (is_none ending) self.old.agenda)) }
        ensures goes { OnOk result (Goes session.old session.new self.old.verdict.submissions) }
        ensures over { IfOk result (λ ending. Over ending session.new self.old.verdict.submissions) }
        ensures same { OnOk result (self.new.verdict.submissions ≡ self.old.verdict.submissions) }
        ensures err { IfErr result (λ error.
            Broke error (W.told world.old) (W.told world.new) session.old session.new self.old.agenda) }
        ensures few { IfErr result (λ _. StaysWithin session.old session.new) }
    {
        match self.read_all(session, world, room) {
            Ok(None) => {}
            Ok(Some(ending)) => return Ok(Some(ending)),
            Err(error) => return Err(error),
        }
        match self.write_all(session, world) {
            Ok(None) => {}
            Ok(Some(ending)) => return Ok(Some(ending)),
            Err(error) => return Err(error),
        }
        match self.fire_all(session, world) {
            Ok(ending) => Ok(ending),
            Err(error) => Err(error),
        }
    }

    /// One pass, until the run is over: it closes, dials, reads and writes, and then timers fire.
    pub(crate) fn pass<W: World>(
        &mut self,
        session: &mut Session,
        keeper: &mut Keeper,
        world: &mut W,
        room: &mut [u8],
    ) -> Result<Option<Ending>, StepError>
        requires room { length room.old ≡ ROOM }
        requires claimed { HasClaimed self.old.agenda.claimed keeper.old }
        ensures claims { OnOk result (HasClaimed self.new.agenda.claimed keeper.new) }
        ensures did { IfOk result (λ ending.
            Does (W.told world.old) (W.told world.new) session.old session.new
            self.old.agenda self.new.agenda (Pass (is_none ending) self.old.agenda)) }
        ensures goes { OnOk result (Goes session.old session.new self.old.verdict.submissions) }
        ensures over { IfOk result (λ ending. Over ending session.new self.old.verdict.submissions) }
        ensures same { OnOk result (self.new.verdict.submissions ≡ self.old.verdict.submissions) }
        ensures err { IfErr result (λ error.
            Broke error (W.told world.old) (W.told world.new) session.old session.new self.old.agenda) }
        ensures few { IfErr result (λ _. StaysWithin session.old session.new) }
    {
        let moment = world.now();
        match self.agenda.begin(self.alloc, moment) {
            Ok(()) => {}
            Err(_) => return Err(StepError::NoMemory),
        }
        close_each(&mut self.agenda.closes, world);
        match self.dial_all(session, keeper, world) {
            Ok(None) => {}
            Ok(Some(ending)) => return Ok(Some(ending)),
            Err(error) => return Err(error),
        }
        match self.after_dials(session, world, room) {
            Ok(ending) => Ok(ending),
            Err(error) => Err(error),
        }
    }
}
