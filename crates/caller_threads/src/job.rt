//! A caller with its lines.
ghost use Rattle.std.specs.Prelude.{◌≡◌, IfOk, IfErr, OnOk, [], ◌∷◌};
ghost use Rattle.driver_model.specs.Config.{kind_of};
ghost use Rattle.caller_threads.specs.Submits.{IsAllowed, AreAllowed, HasSubmitted, HasTried};
ghost use Rattle.caller_threads.specs.Submits.{HasLooked, IsCause};
ghost use Rattle.caller_threads.specs.Jobs.{IsReady, HasRun};

use crate::gate::Gate;
use containers::Queue;
use driver_model::{Action, Submission};
use session_callers::{Caller, SharedSession};
use shared_session::StepError;
use std::alloc::Global;
use std::sync::Wait;

/// The turn in which a line was submitted.
#[derive(Drop)]
pub struct Turn {
    /// The place of its event in the history, which counts from 0.
    pub place: u32,
    /// The number of its submission.
    pub number: u32,
    /// What it showed.
    pub actions: Vec<Action>,
}

/// A caller with the lines that it is to submit, and then with the turns in which it did.
#[derive(Drop)]
pub struct Job {
    pub caller: Caller,
    /// Its place among the callers. A session has fewer than 2^32 of them.
    pub place: u32,
    pub lines: Queue<(Submission, u64)>,
    pub turns: Queue<Turn>,
    /// Why it submitted no more.
    pub error: Option<StepError>,
}

/// Submits one line.
fn submit_line<R: Wait>(
    rt: &R,
    alloc: Global,
    shared: &SharedSession,
    caller: &mut Caller,
    line: (Submission, u64),
) -> Result<Turn, StepError>
    requires of { caller.old.table ≡ shared.now.table.shared.table_id }
    requires allowed { IsAllowed (kind_of caller.old.view.config) line }
    ensures ok { IfOk result (λ turn. HasSubmitted caller.old caller.new (line ∷ []) (turn ∷ [])) }
    ensures err { IfErr result (λ error. HasLooked caller.old caller.new × IsCause error caller.old caller.new) }
{
    let (what, word) = line;
    let mut actions = Vec::new(alloc);
    match shared.submit_as(rt, alloc, caller, what, word, &mut actions) {
        Ok(number) => {
            let place = shared.front(caller) - 1;
            Ok(Turn {
                place,
                number,
                actions,
            })
        }
        Err(error) => Err(error),
    }
}

/// Submits the lines one after another, till one isn't taken.
fn submit_each<R: Wait>(
    rt: &R,
    alloc: Global,
    shared: &SharedSession,
    caller: &mut Caller,
    lines: &mut Queue<(Submission, u64)>,
    turns: &mut Queue<Turn>,
) -> Result<(), StepError>
    requires of { caller.old.table ≡ shared.now.table.shared.table_id }
    requires allowed { AreAllowed lines.old caller.old }
    requires none { turns.old ≡ [] }
    ensures ok { OnOk result (HasSubmitted caller.old caller.new lines.old turns.new) }
    ensures err { IfErr result (λ error.
        HasTried caller.old caller.new lines.old × IsCause error caller.old caller.new
        ) }
{
    while let Some(line) = lines.pop_front() {
        let turn = match submit_line(rt, alloc, shared, caller, line) {
            Ok(turn) => turn,
            Err(error) => return Err(error),
        };
        let Ok(()) = turns.push_back(turn) else {
            return Err(StepError::NoMemory);
        };
    }
    Ok(())
}

impl Job {
    /// Enters the gate, where it has a line, and submits its lines.
    pub fn run<R: Wait, G: Gate>(&mut self, rt: &R, alloc: Global, shared: &SharedSession, gate: &G)
        requires { IsReady shared.now.table.shared.table_id self.old }
        ensures { HasRun self.old self.new }
    {
        if self.lines.is_empty() {
            return;
        }
        gate.enter(self.place);
        let caller = &mut self.caller;
        let lines = &mut self.lines;
        let turns = &mut self.turns;
        if let Err(error) = submit_each(rt, alloc, shared, caller, lines, turns) {
            self.error = Some(error);
        }
    }
}
