ghost use Rattle.std.specs.Prelude.{◌≡◌, IfOk};
ghost use Rattle.live_run.specs.Claims.{HasClaimed};
ghost use Rattle.session_callers.specs.Closes.{IsUndialled};

use driver_model::{Action, AddressWords, Config, ConnectionWords, ManagerWords, Outcome};
use live_run::{Ending, drive};
use outside::{Dialed, LinkGot, LinkPut, MemWorld};
use redis_error::FaultKind;
use session_callers::{Caller, Keeper, SharedSession};
use session_tests::given::{address, get, unbounded};
use shared_session::Session;
use std::alloc::{AllocError, Global};
use std::sync::Wait;
use world_tests::given::{Answers, SILENT, world};

/// What a session is.
#[derive(Clone, Copy)]
enum Kind {
    Single,
    /// One that comes back, with so many attempts after the first.
    Manager(u32),
    Lazy(u32),
}

/// A connection whose requests are to be answered within so many milliseconds.
fn connection(response: Option<u64>) -> ConnectionWords {
    ConnectionWords {
        response: Some(response),
        ..unbounded()
    }
}

fn managed(lazy: bool, address: AddressWords, response: Option<u64>, retries: u32) -> Config {
    Config::Manager {
        lazy,
        address,
        connection: connection(response),
        manager: ManagerWords {
            retries: Some(retries),
            ..ManagerWords::new()
        },
    }
}

/// The configuration of a session of a kind.
fn config(alloc: Global, kind: Kind, response: Option<u64>) -> Result<Config, AllocError> {
    let address = address(alloc, b"redis://h:6379")?;
    match kind {
        Kind::Single => Ok(Config::Single {
            address,
            connection: connection(response),
        }),
        Kind::Manager(retries) => Ok(managed(false, address, response, retries)),
        Kind::Lazy(retries) => Ok(managed(true, address, response, retries)),
    }
}

/// A caller hands in a request.
fn submit<R: Wait>(
    rt: &R,
    alloc: Global,
    shared: &SharedSession,
    caller: &mut Caller,
    key: &str,
    actions: &mut Vec<Action>,
) -> Result<(), AllocError>
    requires { caller.old.table ≡ shared.now.table.shared.table_id }
    ensures table { caller.new.table ≡ caller.old.table }
    ensures undialled { IsUndialled caller.old → IsUndialled caller.new }
{
    let what = get(alloc, key)?;
    match shared.submit_as(rt, alloc, caller, what, 0, actions) {
        Ok(_) => Ok(()),
        Err(_) => Err(AllocError),
    }
}

/// A run: its session, within what time a request is to be answered, whether the first link ends before its dial, and what its
/// world answers.
#[derive(Clone, Copy)]
struct Run {
    kind: Kind,
    response: Option<u64>,
    ends: bool,
    world: Answers,
}

/// A caller hands two requests in, and may see the first link end.
fn hand_in<R: Wait>(
    rt: &R,
    alloc: Global,
    run: &Run,
    shared: &SharedSession,
    caller: &mut Caller,
    actions: &mut Vec<Action>,
) -> Result<(), AllocError>
    requires { caller.old.table ≡ shared.now.table.shared.table_id }
    ensures table { caller.new.table ≡ caller.old.table }
    ensures undialled { IsUndialled caller.old → IsUndialled caller.new }
{
    submit(rt, alloc, shared, caller, "a", actions)?;
    submit(rt, alloc, shared, caller, "b", actions)?;
    if run.ends {
        actions.push(Action::Close { link: 0 })?;
    }
    Ok(())
}

/// A session to which one caller alone handed in its requests, and what is left of that caller.
fn kept(
    alloc: Global,
    shared: SharedSession,
    caller: Caller,
) -> Result<(Session, Keeper), AllocError>
    requires of { caller.table ≡ shared.table.shared.table_id }
    requires undialled { IsUndialled caller }
    ensures { IfOk result (λ kept. HasClaimed 0 kept.1) }
{
    let mut callers = Vec::new(alloc);
    match callers.push(caller) {
        Ok(()) => {}
        Err(refused) => {
            drop(refused);
            drop(callers);
            drop(shared);
            return Err(AllocError);
        }
    }
    match shared.keep(callers) {
        Ok(kept) => Ok(kept),
        Err(_) => Err(AllocError),
    }
}

/// A session to which two requests were handed in, and what is left of its caller.
fn opened<R: Wait>(
    rt: &R,
    alloc: Global,
    run: &Run,
    actions: &mut Vec<Action>,
) -> Result<(Session, Keeper), AllocError>
    ensures { IfOk result (λ kept. HasClaimed 0 kept.1) }
{
    let config = config(alloc, run.kind, run.response)?;
    let (shared, mut caller) = match SharedSession::new(alloc, config, 0, actions) {
        Ok(made) => made,
        Err(_) => return Err(AllocError),
    };
    match hand_in(rt, alloc, run, &shared, &mut caller, actions) {
        Ok(()) => kept(alloc, shared, caller),
        Err(error) => {
            drop(shared);
            drop(caller);
            Err(error)
        }
    }
}

/// What an outcome is, in words of a byte.
fn told(outcome: Option<&Outcome>) -> u8 {
    match outcome {
        None => b'-',
        Some(Outcome::One(_)) => b'v',
        Some(Outcome::Many(_)) => b'm',
        Some(Outcome::Done) => b'd',
        Some(Outcome::Fault(_)) => b'f',
    }
}

/// How a run ended, what became of its two requests, how many events its history holds, how many calls its world had, and how
/// many generations were dialled.
type End = (Ending, u8, u8, u32, usize, u64);

fn end(ending: Ending, session: &Session, keeper: &Keeper, world: &MemWorld) -> End {
    let calls = match world.calls() {
        Some(calls) => calls.len(),
        None => 0,
    };
    let first = told(session.outcome_of(0));
    let second = told(session.outcome_of(1));
    let dialled = keeper.generation();
    (
        ending,
        first,
        second,
        session.events_taken(),
        calls,
        dialled,
    )
}

/// Drives two requests over a world.
fn driven_over<R: Wait>(
    rt: &R,
    alloc: Global,
    run: &Run,
    world: &mut MemWorld,
) -> Result<End, AllocError> {
    let mut actions = Vec::new(alloc);
    let (session, keeper) = match opened(rt, alloc, run, &mut actions) {
        Ok(opened) => opened,
        Err(error) => {
            drop(actions);
            return Err(error);
        }
    };
    let mut session = session;
    let mut keeper = keeper;
    let done = match drive(alloc, &mut session, &mut keeper, actions, 2, world) {
        Ok(ending) => Ok(end(ending, &session, &keeper, world)),
        Err(_) => Err(AllocError),
    };
    drop(session);
    drop(keeper);
    done
}

/// Drives them over a new world.
fn driven<R: Wait>(rt: &R, alloc: Global, run: &Run) -> Result<End, AllocError> {
    let mut world = world(alloc, &run.world)?;
    let end = driven_over(rt, alloc, run, &mut world);
    drop(world);
    end
}

/// Runs, and how each ends.
const RUNS: [(Run, End); 12] = [
    // both are answered
    (
        Run {
            kind: Kind::Single,
            response: None,
            ends: false,
            world: Answers {
                reads: &[
                    LinkGot::NotYet,
                    LinkGot::NotYet,
                    LinkGot::NotYet,
                    LinkGot::Read(8),
                ],
                incoming: b"+x\r\n+y\r\n",
                writes: &[LinkPut::Took(1_000), LinkPut::Took(1_000)],
                ..SILENT
            },
        },
        (Ending::Answered, b'v', b'v', 6, 17, 0),
    ),
    // a refused dial answers all
    (
        Run {
            kind: Kind::Single,
            response: None,
            ends: false,
            world: Answers {
                dials: &[Dialed::Failed(FaultKind::Refused)],
                ..SILENT
            },
        },
        (Ending::Answered, b'f', b'f', 4, 4, 0),
    ),
    // a silent world ends the run
    (
        Run {
            kind: Kind::Single,
            response: None,
            ends: false,
            world: SILENT,
        },
        (Ending::Idle, b'f', b'f', 4, 24_007, 0),
    ),
    // a link ends in the middle
    (
        Run {
            kind: Kind::Single,
            response: None,
            ends: false,
            world: Answers {
                reads: &[LinkGot::NotYet, LinkGot::Read(4), LinkGot::Ended],
                incoming: b"+x\r\n",
                writes: &[LinkPut::Took(1_000), LinkPut::Took(1_000)],
                ..SILENT
            },
        },
        (Ending::Answered, b'v', b'f', 7, 14, 0),
    ),
    // a timer fires when it is due
    (
        Run {
            kind: Kind::Single,
            response: Some(500),
            ends: false,
            world: Answers {
                writes: &[LinkPut::Took(1_000)],
                moments: &[10, 509, 510],
                ..SILENT
            },
        },
        (Ending::Answered, b'f', b'f', 7, 15, 0),
    ),
    // a timer that is not due does not fire
    (
        Run {
            kind: Kind::Single,
            response: Some(500),
            ends: false,
            world: Answers {
                writes: &[LinkPut::Took(1_000)],
                moments: &[10, 509],
                ..SILENT
            },
        },
        (Ending::Idle, b'f', b'f', 5, 18_008, 0),
    ),
    // a link that ended is not dialled
    (
        Run {
            kind: Kind::Single,
            response: None,
            ends: true,
            world: SILENT,
        },
        (Ending::Idle, b'f', b'f', 3, 12_001, 0),
    ),
    // a manager is dialled anew until a dial is answered
    (
        Run {
            kind: Kind::Manager(6),
            response: None,
            ends: false,
            world: Answers {
                dials: &[
                    Dialed::Failed(FaultKind::Refused),
                    Dialed::Failed(FaultKind::Refused),
                    Dialed::Yes,
                ],
                reads: &[LinkGot::Read(8)],
                incoming: b"+x\r\n+y\r\n",
                writes: &[LinkPut::Took(1_000), LinkPut::Took(1_000)],
                ..SILENT
            },
        },
        (Ending::Answered, b'v', b'v', 9, 15, 1),
    ),
    // its last attempt answers all
    (
        Run {
            kind: Kind::Manager(1),
            response: None,
            ends: false,
            world: Answers {
                dials: &[
                    Dialed::Failed(FaultKind::Refused),
                    Dialed::Failed(FaultKind::Refused),
                ],
                ..SILENT
            },
        },
        (Ending::Answered, b'f', b'f', 6, 8, 1),
    ),
    // its lost link answers all, and no other is dialled
    (
        Run {
            kind: Kind::Manager(6),
            response: None,
            ends: false,
            world: Answers {
                reads: &[LinkGot::NotYet, LinkGot::Read(4), LinkGot::Ended],
                incoming: b"+x\r\n",
                writes: &[LinkPut::Took(1_000), LinkPut::Took(1_000)],
                ..SILENT
            },
        },
        (Ending::Answered, b'v', b'f', 7, 14, 1),
    ),
    // a lazy one is dialled by its requests
    (
        Run {
            kind: Kind::Lazy(6),
            response: None,
            ends: false,
            world: Answers {
                dials: &[Dialed::Failed(FaultKind::Reset), Dialed::Yes],
                reads: &[LinkGot::Read(8)],
                incoming: b"+x\r\n+y\r\n",
                writes: &[LinkPut::Took(1_000), LinkPut::Took(1_000)],
                ..SILENT
            },
        },
        (Ending::Answered, b'v', b'v', 7, 11, 1),
    ),
    // a silent world ends a manager's run
    (
        Run {
            kind: Kind::Manager(0),
            response: None,
            ends: false,
            world: SILENT,
        },
        (Ending::Idle, b'f', b'f', 4, 24_007, 1),
    ),
];

#[test]
fn each_world_ends_its_run(rt: HostRuntime) -> Result<(), AllocError> {
    for row in &RUNS {
        assert!(rt; driven(&rt, rt.alloc(), &row.0)? == row.1);
    }
    Ok(())
}
