ghost use Rattle.std.specs.Prelude.{◌≡◌, ℕ, List, ◌∷◌, ◌<◌, [], true, Some, length, IfOk, IfErr, OnOk};
ghost use Rattle.live_run.specs.Agenda.{first_due};
ghost use Rattle.live_run.specs.Claims.{HasClaimed};
ghost use Rattle.live_run.specs.Closing.{close_calls};
ghost use Rattle.live_run.specs.Deeds.{Broke, Does, IsNameOf, Told, answer_of};
ghost use Rattle.live_run.specs.Endings.{GainsOne};
ghost use Rattle.live_run.specs.Passes.{InTurn, IsDialled, IsFire, IsReadOf, IsUp, IsWriteOf, Offers};
ghost use Rattle.live_run.specs.Steps.{One, Refused, Settled, Stepped, Unsettled, kinds_in, to_dial};
ghost use Rattle.outside.specs.World.{LinkGotWithin, link_given};

use crate::agenda::{Agenda, Target};
use crate::claims::claim_up_to;
use crate::links::{is_up, unanswered};
use crate::rooms::ROOM;
use containers::{Bytes, Queue};
use driver_model::{Action, Event, EventKind};
use outside::{Call, Dialed, LinkGot, LinkPut, World};
use session_callers::Keeper;
use shared_session::{Session, StepError};
use std::alloc::{AllocError, Global};

/// The text of a host. One that is no text is no host.
fn host_text(host: &Bytes) -> &str
    ensures { IsNameOf host.now result.now }
{
    match str::from_utf8(host.as_slice()) {
        Ok(text) => text,
        Err(_) => "",
    }
}

/// What a dial's answer is to a session.
fn dial_news(link: u32, answer: Dialed) -> EventKind
    ensures { (host : List ℕ) → (port : ℕ) → answer_of (Call.Dial link host port answer) ≡ result ∷ [] }
{
    match answer {
        Dialed::Yes => EventKind::Connected { link },
        Dialed::Failed(fault) => EventKind::Refused { link, fault },
    }
}

/// What a read's answer is to a session, if it is anything.
fn read_news(
    alloc: Global,
    link: u32,
    answer: LinkGot,
    room: &[u8],
) -> Result<Option<EventKind>, AllocError>
    requires { LinkGotWithin (length room.now) answer }
    ensures { IfOk result (λ kind.
        (size : ℕ)
        → answer_of (Call.Read link size answer (link_given room.now answer)) ≡ kinds_in kind) }
{
    match answer {
        LinkGot::Read(count) => {
            let piece = Bytes::from_slice(alloc, &room[..count])?;
            Ok(Some(EventKind::Bytes { link, piece }))
        }
        LinkGot::NotYet => Ok(None),
        LinkGot::Ended => Ok(Some(EventKind::Ended { link })),
        LinkGot::Failed(fault) => Ok(Some(EventKind::ReadFault { link, fault })),
    }
}

/// What a write's answer is to a session, if it is anything.
fn write_news(link: u32, answer: LinkPut) -> Option<EventKind>
    ensures { (piece : List ℕ) → answer_of (Call.Write link piece answer) ≡ kinds_in result }
{
    match answer {
        LinkPut::Took(count) => Some(EventKind::Wrote {
            link,
            count: count as u64,
        }),
        LinkPut::NotYet => None,
        LinkPut::Failed(fault) => Some(EventKind::WriteFault { link, fault }),
    }
}

/// Asks for a word, and steps an event with it. What its turn asks is given.
pub(crate) fn step<W: World>(
    alloc: Global,
    session: &mut Session,
    world: &mut W,
    kind: EventKind,
) -> Result<Vec<Action>, StepError>
    ensures ok { IfOk result (λ gained.
        Stepped (W.told world.old) (W.told world.new) session.old session.new kind gained.items) }
    ensures err { IfErr result (λ error.
        Refused error (W.told world.old) (W.told world.new) session.old session.new kind) }
{
    let mut gained = Vec::new(alloc);
    let word = world.word();
    match session.step(alloc, Event { word, kind }, &mut gained) {
        Ok(()) => Ok(gained),
        Err(error) => Err(error),
    }
}

/// Steps what came of an answer, if anything did, and notes what its turn asks.
fn settle<W: World>(
    alloc: Global,
    agenda: &mut Agenda,
    session: &mut Session,
    world: &mut W,
    kind: Option<EventKind>,
) -> Result<(), StepError>
    ensures claims { OnOk result (agenda.new.claimed ≡ agenda.old.claimed) }
    ensures ok { OnOk result (
        Settled (W.told world.old) (W.told world.new) session.old session.new
        (kinds_in kind) agenda.old agenda.new) }
    ensures err { IfErr result (λ error.
        Unsettled error (W.told world.old) (W.told world.new) session.old session.new (kinds_in kind)) }
    ensures few { IfErr result (λ _. GainsOne session.old session.new) }
{
    let Some(kind) = kind else {
        return Ok(());
    };
    let gained = match step(alloc, session, world, kind) {
        Ok(gained) => gained,
        Err(error) => return Err(error),
    };
    match agenda.note_all(gained) {
        Ok(()) => Ok(()),
        Err(_) => Err(StepError::NoMemory),
    }
}

/// Dials a link, which was the first that is to be dialled, once the dial is claimed up to its generation.
pub(crate) fn dial_link<W: World>(
    alloc: Global,
    agenda: &mut Agenda,
    session: &mut Session,
    keeper: &mut Keeper,
    world: &mut W,
    target: &Target,
) -> Result<(), StepError>
    requires { HasClaimed agenda.old.claimed keeper.old }
    ensures claims { OnOk result (HasClaimed agenda.new.claimed keeper.new) }
    ensures did { OnOk result (
        Does (W.told world.old) (W.told world.new) session.old session.new
        (to_dial target.now agenda.old) agenda.new IsDialled) }
    ensures err { IfErr result (λ error.
        Broke error (W.told world.old) (W.told world.new) session.old session.new
        (to_dial target.now agenda.old)) }
    ensures few { IfErr result (λ _. GainsOne session.old session.new) }
{
    agenda.claimed = claim_up_to(keeper, agenda.claimed, target.generation);
    let name = host_text(&target.host);
    let answer = world.dial(target.link, name, target.port);
    match agenda.after_dial(alloc, target, answer) {
        Ok(()) => {}
        Err(_) => return Err(StepError::NoMemory),
    }
    let news = dial_news(target.link, answer);
    match settle(alloc, agenda, session, world, Some(news)) {
        Ok(()) => Ok(()),
        Err(error) => Err(error),
    }
}

/// Reads a link once, if it is up.
pub(crate) fn read_link<W: World>(
    alloc: Global,
    agenda: &mut Agenda,
    session: &mut Session,
    world: &mut W,
    room: &mut [u8],
    link: u32,
) -> Result<(), StepError>
    requires { length room.old ≡ ROOM }
    ensures claims { OnOk result (agenda.new.claimed ≡ agenda.old.claimed) }
    ensures did { OnOk result (
        Does (W.told world.old) (W.told world.new) session.old session.new agenda.old agenda.new
        (InTurn IsUp IsReadOf (link ∷ []) true agenda.old)) }
    ensures err { IfErr result (λ error.
        Broke error (W.told world.old) (W.told world.new) session.old session.new agenda.old) }
    ensures few { IfErr result (λ _. GainsOne session.old session.new) }
{
    if !is_up(&agenda.links, link) {
        return Ok(());
    }
    let answer = world.read(link, room);
    let news = match read_news(alloc, link, answer, room) {
        Ok(news) => news,
        Err(_) => return Err(StepError::NoMemory),
    };
    agenda.after_read(link, answer);
    match settle(alloc, agenda, session, world, news) {
        Ok(()) => Ok(()),
        Err(error) => Err(error),
    }
}

/// Writes what a link offers and nothing has answered, whole and once, if it is up and offers anything.
pub(crate) fn write_link<W: World>(
    alloc: Global,
    agenda: &mut Agenda,
    session: &mut Session,
    world: &mut W,
    link: u32,
) -> Result<(), StepError>
    ensures claims { OnOk result (agenda.new.claimed ≡ agenda.old.claimed) }
    ensures did { OnOk result (
        Does (W.told world.old) (W.told world.new) session.old session.new agenda.old agenda.new
        (InTurn Offers IsWriteOf (link ∷ []) true agenda.old)) }
    ensures err { IfErr result (λ error.
        Broke error (W.told world.old) (W.told world.new) session.old session.new agenda.old) }
    ensures few { IfErr result (λ _. GainsOne session.old session.new) }
{
    let Some(offer) = unanswered(&agenda.links, link) else {
        return Ok(());
    };
    let answer = world.write(link, offer);
    let news = write_news(link, answer);
    agenda.after_write(alloc, link, answer);
    match settle(alloc, agenda, session, world, news) {
        Ok(()) => Ok(()),
        Err(error) => Err(error),
    }
}

/// Fires the timer that is due first.
pub(crate) fn fire_timer<W: World>(
    alloc: Global,
    agenda: &mut Agenda,
    session: &mut Session,
    world: &mut W,
    timer: u32,
) -> Result<(), StepError>
    requires { first_due agenda.old ≡ Some timer }
    ensures claims { OnOk result (agenda.new.claimed ≡ agenda.old.claimed) }
    ensures did { OnOk result (
        Does (W.told world.old) (W.told world.new) session.old session.new agenda.old agenda.new
        (One IsFire)) }
    ensures err { IfErr result (λ error.
        Broke error (W.told world.old) (W.told world.new) session.old session.new agenda.old) }
    ensures few { IfErr result (λ _. GainsOne session.old session.new) }
{
    agenda.drop_timer();
    match settle(
        alloc,
        agenda,
        session,
        world,
        Some(EventKind::Fired { timer }),
    ) {
        Ok(()) => Ok(()),
        Err(error) => Err(error),
    }
}

/// Closes each of these links.
pub(crate) fn close_each<W: World>(links: &mut Queue<u32>, world: &mut W)
    ensures told { Told (W.told world.old) (W.told world.new) (close_calls links.old) }
    ensures none { links.new ≡ [] }
{
    while let Some(link) = links.pop_front() {
        world.close(link);
    }
}
