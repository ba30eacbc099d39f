ghost use Rattle.std.specs.Prelude.{◌≡◌};
ghost use Rattle.mux_client.specs.Events.{happened};
ghost use Rattle.conn_manager.specs.Fitting.{IsFitting};

use crate::acts::are;
use conn_manager::{ConnectionEvent, ConnectionManager, ConnectionNews, Pending, SendError};
use connection_info::{Client, ProtocolVersion};
use connection_tests::servers::{at, must};
use containers::Names;
use driver_model::{LinkFault, LinkNews, Outcome};
use manager_config::ConnectionManagerConfig;
use redis_error::{FaultKind, RedisError};
use resp_write::{SubscriptionAction, cmd, pipe};
use std::alloc::{AllocError, Global};

/// Managers: on RESP2 with one attempt after the first, made at once or not; on RESP3 with one attempt, which subscribe again, in
/// a time of 9 ms or in any.
#[derive(Clone, Copy)]
enum Kind {
    Older,
    Lazy,
    Newer,
    Timed,
}

/// A client of a server that is told its protocol alone.
pub(crate) fn client(alloc: Global, protocol: ProtocolVersion) -> Result<Client, AllocError> {
    let info = at(alloc, b"h", 6379, protocol)?;
    must(Client::open(alloc, info))
}

fn protocol(kind: Kind) -> ProtocolVersion {
    match kind {
        Kind::Older => ProtocolVersion::RESP2,
        Kind::Lazy => ProtocolVersion::RESP2,
        Kind::Newer => ProtocolVersion::RESP3,
        Kind::Timed => ProtocolVersion::RESP3,
    }
}

fn config(kind: Kind) -> ConnectionManagerConfig {
    let config = ConnectionManagerConfig::new()
        .set_connection_timeout(None)
        .set_response_timeout(None);
    match kind {
        Kind::Older => config.set_number_of_retries(1),
        Kind::Lazy => config.set_number_of_retries(0),
        Kind::Newer => config
            .set_number_of_retries(0)
            .set_push_sender()
            .set_automatic_resubscription(),
        Kind::Timed => config
            .set_number_of_retries(0)
            .set_push_sender()
            .set_automatic_resubscription()
            .set_response_timeout(Some(9)),
    }
}

fn manager(alloc: Global, kind: Kind) -> Result<ConnectionManager, AllocError> {
    let client = client(alloc, protocol(kind))?;
    let config = config(kind);
    match kind {
        Kind::Lazy => must(ConnectionManager::new_lazy_with_config(alloc, &client, &config)),
        _ => must(ConnectionManager::new_with_config(alloc, &client, &config)),
    }
}

/// What a request came to.
fn outcome(manager: &ConnectionManager, number: u32) -> &'static str {
    match manager.poll(&Pending { number }) {
        None => "none",
        Some(Outcome::One(_)) => "value",
        Some(Outcome::Many(_)) => "values",
        Some(Outcome::Done) => "done",
        Some(Outcome::Fault(RedisError::Closed)) => "closed",
        Some(Outcome::Fault(RedisError::Io { fault })) => fault_name(*fault),
        Some(Outcome::Fault(_)) => "fault",
    }
}

fn fault_name(fault: FaultKind) -> &'static str {
    match fault {
        FaultKind::Refused => "refused",
        FaultKind::TimedOut => "late",
        _ => "fault",
    }
}

/// What happens in a turn; on a link, that of its number.
#[derive(Clone, Copy)]
enum What {
    Nothing,
    Refused(u32),
    Connected(u32),
    Came(u32, &'static [u8]),
    Ended(u32),
    Late(u32),
    LateAgain(u32),
    Rested(u32, u32),
    Shut,
}

/// What is done with a manager: a command, a pipeline or a subscription call is sent, the caller of a request leaves, or a turn
/// is made, which shows acts of these names.
#[derive(Clone, Copy)]
enum Step {
    Get,
    Pipe,
    Call(SubscriptionAction),
    Leave(u32),
    Turn(What, &'static [&'static str]),
}

/// Whether a turn, where 250 is drawn, shows acts of these names.
fn shows(
    alloc: Global,
    manager: &mut ConnectionManager,
    news: ConnectionNews<'_>,
    names: &[&str],
) -> Result<bool, AllocError>
    requires { IsFitting manager.old (happened news) }
{
    let mut acts = Vec::new(alloc);
    must(manager.step(alloc, ConnectionEvent { word: 250, news }, &mut acts))?;
    Ok(are(acts.as_slice(), names))
}

/// Whether a turn of what happened on a link shows acts of these names.
fn link_shows(
    alloc: Global,
    manager: &mut ConnectionManager,
    what: What,
    names: &[&str],
) -> Result<bool, AllocError> {
    match what {
        What::Refused(link) => {
            let fault = FaultKind::Refused;
            let news = LinkNews::Refused { fault };
            shows(alloc, manager, ConnectionNews::Link { link, news }, names)
        }
        What::Connected(link) => {
            let news = LinkNews::Connected;
            shows(alloc, manager, ConnectionNews::Link { link, news }, names)
        }
        What::Came(link, piece) => {
            let news = LinkNews::Came { piece };
            shows(alloc, manager, ConnectionNews::Link { link, news }, names)
        }
        What::Ended(link) => {
            let fault = LinkFault::Ended;
            let news = LinkNews::Failed { fault };
            shows(alloc, manager, ConnectionNews::Link { link, news }, names)
        }
        _ => Ok(false),
    }
}

/// Whether a turn shows acts of these names.
fn turn(
    alloc: Global,
    manager: &mut ConnectionManager,
    what: What,
    names: &[&str],
) -> Result<bool, AllocError> {
    match what {
        What::Nothing => shows(alloc, manager, ConnectionNews::Silence, names),
        What::Late(number) => {
            let request = Pending { number };
            shows(alloc, manager, ConnectionNews::Late { request }, names)
        }
        What::LateAgain(link) => {
            shows(
                alloc,
                manager,
                ConnectionNews::ResubscriptionLate { link },
                names,
            )
        }
        What::Rested(generation, attempt) => {
            let news = ConnectionNews::Rested {
                generation,
                attempt,
            };
            shows(alloc, manager, news, names)
        }
        What::Shut => shows(alloc, manager, ConnectionNews::Shut, names),
        _ => link_shows(alloc, manager, what, names),
    }
}

/// Sends GET a.
fn get(alloc: Global, manager: &mut ConnectionManager) -> Result<bool, AllocError> {
    let mut command = cmd(alloc, b"GET")?;
    command.arg(alloc, b"a")?;
    Ok(must(manager.send_packed_command(alloc, &command)).is_ok())
}

/// Sends a pipeline of one command.
fn pipeline(alloc: Global, manager: &mut ConnectionManager) -> Result<bool, AllocError> {
    let mut pipeline = pipe(alloc);
    pipeline.cmd(alloc, b"PING")?;
    Ok(must(manager.send_packed_commands(alloc, &pipeline, 0, 1)).is_ok())
}

/// A subscription call of the channel c.
fn call(
    alloc: Global,
    manager: &mut ConnectionManager,
    action: SubscriptionAction,
) -> Result<bool, AllocError> {
    let names = Names::from_slices(alloc, &[b"c"])?;
    let sent = match action {
        SubscriptionAction::Subscribe => manager.subscribe(alloc, &names),
        SubscriptionAction::Unsubscribe => manager.unsubscribe(alloc, &names),
        SubscriptionAction::PSubscribe => manager.psubscribe(alloc, &names),
        SubscriptionAction::PUnsubscribe => manager.punsubscribe(alloc, &names),
        _ => Err(SendError::Spent),
    };
    Ok(must(sent).is_ok())
}

/// Whether a step goes so.
fn takes(alloc: Global, manager: &mut ConnectionManager, step: Step) -> Result<bool, AllocError> {
    match step {
        Step::Get => get(alloc, manager),
        Step::Pipe => pipeline(alloc, manager),
        Step::Call(action) => call(alloc, manager, action),
        Step::Leave(number) => {
            manager.cancel(Pending { number });
            Ok(true)
        }
        Step::Turn(what, names) => turn(alloc, manager, what, names),
    }
}

fn take_all(
    alloc: Global,
    manager: &mut ConnectionManager,
    steps: &[Step],
) -> Result<bool, AllocError> {
    for step in steps {
        if !takes(alloc, manager, *step)? {
            return Ok(false);
        }
    }
    Ok(true)
}

/// Whether requests, the first of which has this number, came to these outcomes.
fn came_to(manager: &ConnectionManager, outcomes: &[&str]) -> bool {
    let mut number = 0;
    for wanted in outcomes {
        if outcome(manager, number).as_bytes() != wanted.as_bytes() {
            return false;
        }
        number = number.saturating_add(1);
    }
    true
}

/// A manager, what is done with it, what its requests come to, and the number of its generation then.
type Case = (Kind, &'static [Step], &'static [&'static str], u32);

/// Whether a case goes so.
fn holds(alloc: Global, case: &Case) -> Result<bool, AllocError> {
    let (kind, steps, outcomes, generation) = *case;
    let mut manager = manager(alloc, kind)?;
    let goes = take_all(alloc, &mut manager, steps)?;
    Ok(goes && came_to(&manager, outcomes) && manager.generation() == generation)
}

/// The answer to HELLO, and the confirmation of SUBSCRIBE c.
const HELLO: &[u8] = b"%0\r\n";

const CONFIRMATION: &[u8] = b">3\r\n$9\r\nsubscribe\r\n$1\r\nc\r\n:1\r\n";

const BEGINS: Step = Step::Turn(What::Nothing, &["generation", "connect"]);

const SET_UP: Step = Step::Turn(What::Connected(0), &["setup", "write"]);

const MADE: Step = Step::Turn(What::Came(0, HELLO), &["created"]);

const SUBSCRIBES: Step = Step::Call(SubscriptionAction::Subscribe);

const SUBSCRIBED: Step = Step::Turn(What::Came(0, CONFIRMATION), &["push", "outcome"]);

const LOST: Step = Step::Turn(What::Ended(0), &["close", "push", "generation", "connect"]);

/// The first attempt of a lazy manager is refused: its first request is answered with that, and for the next one it connects
/// anew.
const LAZY: Case = (
    Kind::Lazy,
    &[
        Step::Get,
        Step::Turn(
            What::Nothing,
            &["created", "generation", "connect", "wait connect"],
        ),
        Step::Turn(What::Refused(0), &["outcome", "generation", "connect"]),
    ],
    &["refused"],
    2,
);

/// A creation fails with its last attempt; its error is answered, and nothing begins any more.
const NOT_MADE: Case = (
    Kind::Older,
    &[
        BEGINS,
        Step::Turn(What::Refused(0), &["backoff"]),
        Step::Turn(What::Rested(1, 0), &["connect"]),
        Step::Turn(What::Refused(1), &["not created"]),
        Step::Get,
        Step::Turn(What::Nothing, &["outcome"]),
    ],
    &["refused"],
    1,
);

/// A link ends while two requests are under way, whose callers are answered; a late answer of it changes nothing. The next link
/// is set up, and is subscribed again before it takes a request that waits.
const AGAIN: Case = (
    Kind::Newer,
    &[
        BEGINS,
        SET_UP,
        MADE,
        SUBSCRIBES,
        Step::Turn(What::Nothing, &["round", "start"]),
        SUBSCRIBED,
        Step::Get,
        Step::Get,
        Step::Turn(What::Nothing, &["round", "round", "start", "start"]),
        Step::Turn(
            What::Ended(0),
            &[
                "close",
                "push",
                "outcome",
                "outcome",
                "generation",
                "connect",
            ],
        ),
        Step::Turn(What::Came(0, b"+x\r\n"), &[]),
        Step::Get,
        Step::Turn(What::Nothing, &["wait connect"]),
        Step::Turn(What::Connected(1), &["setup", "write", "wait setup"]),
        Step::Turn(What::Came(1, HELLO), &["resub", "wait resubscribe"]),
        Step::Turn(What::Came(1, CONFIRMATION), &["push", "round", "start"]),
    ],
    &["done", "closed", "closed", "none"],
    2,
);

#[test]
fn generations_follow_by_their_causes(rt: HostRuntime) -> Result<(), AllocError> {
    for case in &[LAZY, NOT_MADE, AGAIN] {
        assert!(rt; holds(rt.alloc(), case)?);
    }
    Ok(())
}

/// A server error, a late reply and the end of a link that nobody uses are no causes on RESP2. The next request is answered as
/// closed, which is one.
const NO_CAUSES: Case = (
    Kind::Older,
    &[
        BEGINS,
        Step::Turn(What::Connected(0), &["created"]),
        Step::Get,
        Step::Get,
        Step::Turn(
            What::Nothing,
            &["round", "round", "start", "start", "write"],
        ),
        Step::Turn(What::Came(0, b"-ERR no\r\n"), &["outcome"]),
        Step::Turn(What::Late(1), &["outcome"]),
        Step::Turn(What::Ended(0), &["close"]),
        Step::Turn(What::Nothing, &[]),
        Step::Get,
        Step::Turn(What::Nothing, &["outcome", "generation", "connect"]),
    ],
    &["value", "late", "closed"],
    2,
);

/// Nothing begins behind a shutdown, though a link ends with it.
const SHUT: Case = (
    Kind::Newer,
    &[
        BEGINS,
        SET_UP,
        MADE,
        Step::Get,
        Step::Leave(0),
        Step::Turn(What::Shut, &["round", "close"]),
        Step::Get,
        Step::Turn(What::Nothing, &["outcome"]),
    ],
    &["none", "closed"],
    1,
);

/// A pipeline is answered with its values.
const PIPELINE: Case = (
    Kind::Lazy,
    &[
        Step::Pipe,
        Step::Turn(
            What::Nothing,
            &["created", "generation", "connect", "wait connect"],
        ),
        Step::Turn(What::Connected(0), &["round", "start", "write"]),
        Step::Turn(What::Came(0, b"+PONG\r\n"), &["outcome"]),
    ],
    &["values"],
    1,
);

#[test]
fn generations_stand_without_a_cause(rt: HostRuntime) -> Result<(), AllocError> {
    for case in &[NO_CAUSES, SHUT, PIPELINE] {
        assert!(rt; holds(rt.alloc(), case)?);
    }
    Ok(())
}

/// What subscribes again is answered with an error: the generation is ready all the same.
const FAILS: Case = (
    Kind::Newer,
    &[
        BEGINS,
        SET_UP,
        MADE,
        SUBSCRIBES,
        Step::Turn(What::Nothing, &["round", "start"]),
        SUBSCRIBED,
        LOST,
        Step::Turn(What::Connected(1), &["setup", "write"]),
        Step::Turn(What::Came(1, HELLO), &["resub"]),
        Step::Get,
        Step::Turn(What::Nothing, &["wait resubscribe"]),
        Step::Turn(What::Came(1, b"-ERR no\r\n"), &["round", "start"]),
    ],
    &["done", "none"],
    2,
);

/// It isn't answered in time.
const TIMES_OUT: Case = (
    Kind::Timed,
    &[
        BEGINS,
        SET_UP,
        MADE,
        SUBSCRIBES,
        Step::Turn(What::Nothing, &["round", "timer", "start"]),
        SUBSCRIBED,
        LOST,
        Step::Turn(What::Connected(1), &["setup", "write"]),
        Step::Turn(What::Came(1, HELLO), &["timer of resub", "resub"]),
        Step::Get,
        Step::Turn(What::LateAgain(0), &["wait resubscribe"]),
        Step::Turn(What::LateAgain(1), &["round", "timer", "start"]),
    ],
    &["done", "none"],
    2,
);

/// Its link ends: who waits is answered, and that alone is the cause for the next generation. Nothing is subscribed again that
/// was unsubscribed.
const CUT_OFF: Case = (
    Kind::Newer,
    &[
        BEGINS,
        SET_UP,
        MADE,
        SUBSCRIBES,
        Step::Turn(What::Nothing, &["round", "start"]),
        SUBSCRIBED,
        LOST,
        Step::Turn(What::Connected(1), &["setup", "write"]),
        Step::Turn(What::Came(1, HELLO), &["resub"]),
        Step::Turn(What::Ended(1), &["close", "push"]),
        Step::Call(SubscriptionAction::Unsubscribe),
        Step::Turn(What::Nothing, &["outcome", "generation", "connect"]),
    ],
    &["done", "closed"],
    3,
);

#[test]
fn what_was_subscribed_is_subscribed_again(rt: HostRuntime) -> Result<(), AllocError> {
    for case in &[FAILS, TIMES_OUT, CUT_OFF] {
        assert!(rt; holds(rt.alloc(), case)?);
    }
    Ok(())
}
