ghost use Rattle.std.specs.Prelude.{◌≡◌, ℕ, ◌≤◌, ◌++◌, List, [], false, length, Option, None};
ghost use Rattle.std.specs.Prelude.{IfOk, IfErr, IsErrOf};
ghost use Rattle.caller_threads.specs.Submits.{IsAllowed, Line};
ghost use Rattle.driver_model.specs.Config.{kind_of, wants_credentials};
ghost use Rattle.driver_model.specs.declared.event.Event.{Event};
ghost use Rattle.redis_error.specs.declared.config_name.ConfigName.{ConfigName};
ghost use Rattle.session_callers.specs.Closes.{AreEnough};
ghost use Rattle.session_callers.specs.Rule.{Each};
ghost use Rattle.live_run.specs.Claims.{HasClaimed};
ghost use Rattle.single_session.specs.Replay.{IsSound, trace_of};
ghost use Rattle.live_lines.specs.Flights.{AreOf, AreSubmitted, AskedWord, HasManyLines};
ghost use Rattle.live_lines.specs.Flights.{IsFlight, IsNoFlight};
ghost use Rattle.live_lines.specs.Flights.{RanOut, StoppedBy};
ghost use Rattle.live_lines.specs.Plans.{refused_of};
ghost use Rattle.outside.specs.declared.world.Call.{Call};

use crate::planning::Plan;
use caller_threads::{OpenGate, submit_lines};
use driver_model::{Action, Submission};
use live_run::{Ending, drive};
use outside::World;
use redis_error::ConfigName;
use session_callers::{Caller, Keeper, SharedSession};
use shared_session::{MakeError, Session, StepError};
use std::alloc::Global;
use std::sync::Wait;
use std::thread::Threads;

/// A live run that came to its end.
#[derive(Drop)]
pub struct Flight {
    /// The session, which was shut down.
    pub session: Session,
    /// The number of each line's submission, in the order of the lines.
    pub numbers: Vec<u32>,
    /// What was left of the callers, which claimed the number of each generation that was dialled.
    pub keeper: Keeper,
    pub ending: Ending,
}

/// Why a live run did not come to its end.
#[derive(Clone, Copy, PartialEq, Eq)]
pub enum FlightError {
    /// The plan is refused for this.
    Config(ConfigName),
    /// Numbers ran out: behind so many events the step of some event would be spent.
    Spent(u32),
    NoMemory,
}

/// Why the step of a live run was refused. Its events are never bad.
fn refused(error: StepError) -> FlightError
    requires { error ≡ StepError.BadEvent → ⊥ }
    ensures { (plan : Plan) (lines : List Line) (old new : Option (List Call))
        → refused_of plan ≡ None
        → ((n : ℕ) → error ≡ StepError.Spent n → RanOut plan.config n)
        → StoppedBy plan lines old new error
        → ((n : ℕ) → error ≡ StepError.Spent n → HasManyLines lines)
        → IsNoFlight plan lines old new result }
{
    match error {
        StepError::BadEvent => unreachable!(),
        StepError::Spent { events } => FlightError::Spent(events),
        StepError::NoMemory => FlightError::NoMemory,
    }
}

/// Why lines were not submitted. Where numbers have run out, the callers give their session back first.
fn stopped(shared: SharedSession, callers: Vec<Caller>, error: StepError) -> FlightError
    requires good { error ≡ StepError.BadEvent → ⊥ }
    requires of { Each (λ caller. caller.table ≡ shared.table.shared.table_id) callers.items }
    requires enough { AreEnough callers.items }
    ensures sound { (name : ConfigName) → result ≡ FlightError.Config name → ⊥ }
    ensures spent { (n : ℕ) → result ≡ FlightError.Spent n
        → (error ≡ StepError.Spent n) × ((log : List Event) × AreOf log callers.items) }
{
    match error {
        StepError::BadEvent => unreachable!(),
        StepError::Spent { events } => match shared.keep(callers) {
            Ok(kept) => {
                drop(kept);
                FlightError::Spent(events)
            }
            Err(_) => unreachable!(),
        },
        StepError::NoMemory => FlightError::NoMemory,
    }
}

/// The session of a plan, whose callers submitted these lines, the numbers of the submissions, and what is left of the callers.
/// `actions` gains all that was asked so far.
fn submitted<R: Threads + Wait + Sync>(
    rt: &R,
    alloc: Global,
    plan: Plan,
    word: u64,
    lines: Vec<(Submission, u64)>,
    actions: &mut Vec<Action>,
) -> Result<(Session, Vec<u32>, Keeper), FlightError>
    requires none { actions.old.items ≡ [] }
    requires allowed { Each (IsAllowed (kind_of plan.config)) lines.items }
    ensures sound { IfOk result (λ _. IsSound plan.config) }
    ensures bare { IfOk result (λ _. wants_credentials plan.config ≡ false) }
    ensures submitted { IfOk result (λ made.
        AreSubmitted plan word lines.items made.1.items made.0
        ) }
    ensures undialled { IfOk result (λ made. HasClaimed 0 made.2) }
    ensures asked { IfOk result (λ made.
        actions.new.items ≡ trace_of plan.config word made.0.events
        ) }
    ensures err { IfErr result (λ error. (old new : Option (List Call))
        → AskedWord old new → IsNoFlight plan lines.items old new error) }
{
    let Plan { callers, config } = plan;
    let wanted = config.wants_credentials();
    let (shared, made) = match SharedSession::with_callers(alloc, config, word, callers, actions) {
        Ok(made) => made,
        Err(MakeError::Config { name }) => {
            drop(lines);
            return Err(FlightError::Config(name));
        }
        Err(MakeError::NoMemory) => {
            drop(lines);
            return Err(FlightError::NoMemory);
        }
    };
    if wanted {
        drop(shared);
        drop(made);
        drop(lines);
        return Err(FlightError::Config(ConfigName::Creds));
    }
    let mut callers = made;
    let mut numbers = Vec::new(alloc);
    let gate = OpenGate;
    match submit_lines(
        rt,
        alloc,
        &shared,
        &mut callers,
        lines,
        &gate,
        &mut numbers,
        actions,
    ) {
        Ok(()) => {}
        Err(error) => {
            drop(numbers);
            return Err(stopped(shared, callers, error));
        }
    }
    match shared.keep(callers) {
        Ok((session, keeper)) => Ok((session, numbers, keeper)),
        Err(_) => unreachable!(),
    }
}

/// A live run: the callers of the plan submit the lines, each on a thread of its own, line i by caller i modulo their number;
/// then the session is driven over the world until it ends.
pub fn fly<R: Threads + Wait + Sync, W: World>(
    rt: &R,
    alloc: Global,
    plan: Plan,
    lines: Vec<(Submission, u64)>,
    world: &mut W,
) -> Result<Flight, FlightError>
    requires { Each (IsAllowed (kind_of plan.config)) lines.items }
    ensures flight { IfOk result (
        IsFlight plan lines.items (W.told world.old) (W.told world.new)
        ) }
    ensures err { IfErr result (
        IsNoFlight plan lines.items (W.told world.old) (W.told world.new)
        ) }
{
    let mut actions = Vec::new(alloc);
    let word = world.word();
    let (session, numbers, keeper) = match submitted(rt, alloc, plan, word, lines, &mut actions) {
        Ok(made) => made,
        Err(error) => return Err(error),
    };
    let mut session = session;
    let mut keeper = keeper;
    let count = session.events_taken();
    match drive(alloc, &mut session, &mut keeper, actions, count, world) {
        Ok(ending) => Ok(Flight {
            session,
            numbers,
            keeper,
            ending,
        }),
        Err(error) => {
            drop(session);
            drop(numbers);
            drop(keeper);
            Err(refused(error))
        }
    }
}
