ghost use Rattle.std.specs.Prelude.{◌≡◌, ◌⊎◌, ◌<◌, ◌+◌, ◌^◌, ◌∷◌, [], ◌++◌, length, true, false, decimal};
ghost use Rattle.std.specs.Prelude.{OnOk, OnSome, IfOk, IfSome};
ghost use Rattle.legal_trace.specs.Book.{Book, book, entered_each};
ghost use Rattle.single_session.specs.Replay.{opening_actions, state_after, trace_of, IsSound};
ghost use Rattle.single_session.specs.Replay.{is_bad_after, is_spent_after};
ghost use Rattle.single_session.specs.Turn.{actions_of};
ghost use Rattle.shared_session.specs.declared.session.Failure.TheVariants.{Sound};
ghost use Rattle.trace_text.specs.Groups.{comes_of_link};
ghost use Rattle.session_program.specs.Notes.{bad_event_words, bad_words, event_words, line_note};
ghost use Rattle.session_program.specs.Offers.{IsOfferOf};

use crate::lines::reason_line;
use crate::offer::Offer;
use containers::Bytes;
use driver_model::{Config, Event, EventKind};
use program_ends::push_number;
use shared_session::Session;
use std::alloc::{AllocError, Global};

/// Why an event is bad.
#[derive(Clone, Copy)]
pub enum BadReason {
    /// It hands in a list of one command without a name.
    NoName,
    /// It names a submission that was never handed in.
    NoSubmission,
    /// It names a link that was never asked for.
    NoLink,
    /// It names a timer that was never asked for.
    NoTimer,
    /// It names a source of credentials that was never asked for.
    NoSource,
    /// It says that more bytes were taken than were offered.
    OnlyOffered { count: u64 },
}

/// Appends words and a number.
fn push_words(text: &mut Bytes, words: &[u8], number: u64) -> Result<(), AllocError>
    ensures { OnOk result (text.new ≡ text.old ++ (words.now ++ decimal number)) }
{
    text.extend_from_slice(words)?;
    push_number(text, number)
}

/// Appends an event, as far as its numbers.
fn push_event(text: &mut Bytes, kind: &EventKind) -> Result<(), AllocError>
    ensures { OnOk result (text.new ≡ text.old ++ event_words kind.now) }
{
    match kind {
        EventKind::Submit { submission: _ } => text.extend_from_slice(b"submit"),
        EventKind::Cancel { submission } => push_words(text, b"cancel ", u64::from(*submission)),
        EventKind::Fired { timer } => push_words(text, b"fired ", u64::from(*timer)),
        EventKind::Creds { source, auth: _ } => push_words(text, b"creds ", u64::from(*source)),
        EventKind::CredsError { source, text: _ } => {
            push_words(text, b"creds-err ", u64::from(*source))
        }
        EventKind::CredsEnd { source } => push_words(text, b"creds-end ", u64::from(*source)),
        EventKind::Timeout { ms: _ } => text.extend_from_slice(b"timeout"),
        EventKind::DropStream => text.extend_from_slice(b"drop-stream"),
        EventKind::Shutdown => text.extend_from_slice(b"shutdown"),
        _ => push_link_event(text, kind),
    }
}

/// Appends what comes of a link, as far as its numbers.
fn push_link_event(text: &mut Bytes, kind: &EventKind) -> Result<(), AllocError>
    requires { comes_of_link kind.now ≡ true }
    ensures { OnOk result (text.new ≡ text.old ++ event_words kind.now) }
{
    match kind {
        EventKind::Connected { link } => push_words(text, b"connected ", u64::from(*link)),
        EventKind::Refused { link, fault: _ } => push_words(text, b"refused ", u64::from(*link)),
        EventKind::Wrote { link, count } => {
            push_words(text, b"wrote ", u64::from(*link))?;
            push_words(text, b" ", *count)
        }
        EventKind::Bytes { link, piece: _ } => push_words(text, b"bytes ", u64::from(*link)),
        EventKind::Ended { link } => push_words(text, b"ended ", u64::from(*link)),
        EventKind::ReadFault { link, fault: _ } => {
            push_words(text, b"read-fault ", u64::from(*link))
        }
        EventKind::WriteFault { link, fault: _ } => {
            push_words(text, b"write-fault ", u64::from(*link))
        }
        _ => unreachable!(),
    }
}

/// Appends why an event is bad.
fn push_reason(text: &mut Bytes, reason: BadReason) -> Result<(), AllocError>
    ensures { OnOk result (text.new ≡ text.old ++ bad_words reason) }
{
    match reason {
        BadReason::NoName => text.extend_from_slice(b": the one command of a list needs a name"),
        BadReason::NoSubmission => {
            text.extend_from_slice(b": no submission has this number yet")
        }
        BadReason::NoLink => text.extend_from_slice(b": no link has this number"),
        BadReason::NoTimer => text.extend_from_slice(b": no timer has this number"),
        BadReason::NoSource => text.extend_from_slice(b": no source has this number"),
        BadReason::OnlyOffered { count } => {
            push_words(text, b": only ", count)?;
            text.extend_from_slice(b" bytes were offered")
        }
    }
}

/// The note of a bad event, its place counted from 0.
fn bad_line(
    alloc: Global,
    place: u64,
    kind: &EventKind,
    reason: BadReason,
) -> Result<Bytes, AllocError>
    requires { place < 2 ^ 63 }
    ensures { IfOk result (λ note.
        note ≡ line_note (place + 2) (event_words kind.now ++ bad_words reason)) }
{
    let mut why = Bytes::new(alloc);
    push_event(&mut why, kind)?;
    push_reason(&mut why, reason)?;
    reason_line(alloc, place + 2, why.as_slice())
}

/// Makes a session, and notes what its opening offers.
fn open_quietly(alloc: Global, config: &Config, word: u64, offer: &mut Offer) -> Option<Session>
    ensures made { IfSome result (λ s.
        s ≡ record { config = config.now; word = word; events = []; failure = Sound }) }
    ensures sound { OnSome result (IsSound config.now) }
    ensures offer { OnSome result (
        IsOfferOf offer.new (book (opening_actions config.now word))
        ) }
{
    let Ok(config) = config.clone(alloc) else {
        return None;
    };
    let mut actions = Vec::new(alloc);
    let Ok(session) = Session::new(alloc, config, word, &mut actions) else {
        return None;
    };
    *offer = Offer::behind(actions.as_slice());
    Some(session)
}

/// Steps one event, and says what is offered then. None: memory was refused for it.
fn step_quietly(alloc: Global, session: &mut Session, event: &Event, offer: Offer) -> Option<Offer>
    ensures ok { OnSome result (
        session.new ≡ record session.old { events = session.old.events ++ event.now ∷ [] }
        ) }
    ensures offer { IfSome result (λ next. (b : Book) → IsOfferOf offer b
        → IsOfferOf next (entered_each b (actions_of
        (state_after session.old.config session.old.word session.old.events) event.now))) }
    ensures good { OnSome result (
        is_bad_after session.old.config session.old.word session.old.events event.now ≡ false
        ) }
    ensures unspent { OnSome result (
        is_spent_after session.old.config session.old.word session.old.events event.now ≡ false
        ) }
{
    let Ok(event) = event.clone(alloc) else {
        return None;
    };
    let mut actions = Vec::new(alloc);
    match session.step(alloc, event, &mut actions) {
        Ok(()) => Some(offer.after_each(actions.as_slice())),
        Err(_) => None,
    }
}

/// The note of an event that is bad where that is offered, its place counted from 0.
fn offered_line(alloc: Global, place: u64, kind: &EventKind, offer: Offer) -> Option<Bytes>
    requires { place < 2 ^ 63 }
    ensures { IfSome result (λ note. (b : Book) → IsOfferOf offer b
        → note ≡ line_note (place + 2) (bad_event_words b kind.now)) }
{
    let Some(reason) = offer.reason(kind) else {
        return None;
    };
    match bad_line(alloc, place, kind, reason) {
        Ok(note) => Some(note),
        Err(_) => None,
    }
}

/// What is offered after a history that a session has taken, found by a second session. None: memory was refused for it.
fn find_offer(alloc: Global, config: &Config, word: u64, events: &[Event]) -> Option<Offer>
    ensures { IfSome result (λ offer.
        IsOfferOf offer (book (trace_of config.now word events.now))) }
{
    let mut offer = Offer::new();
    let Some(mut session) = open_quietly(alloc, config, word, &mut offer) else {
        return None;
    };
    for event in events {
        match step_quietly(alloc, &mut session, event, offer) {
            Some(next) => offer = next,
            None => return None,
        }
    }
    Some(offer)
}

/// The note of an event that a session didn't take, since it is bad. None: memory was refused for it.
fn find_note(alloc: Global, session: &Session, kind: &EventKind) -> Option<Bytes>
    ensures { IfSome result (λ note. note ≡ line_note (length session.now.events + 2)
        (bad_event_words
        (book (trace_of session.now.config session.now.word session.now.events))
        kind.now)) }
{
    let Some(offer) = find_offer(alloc, session.config(), session.word(), session.events()) else {
        return None;
    };
    offered_line(alloc, u64::from(session.events_taken()), kind, offer)
}

/// The note of an event that a session didn't take, since it is bad: nothing, where memory was refused for it.
pub fn bad_note(alloc: Global, session: &Session, kind: &EventKind) -> Bytes
    ensures { (result ≡ []) ⊎ (result ≡ line_note (length session.now.events + 2)
        (bad_event_words
        (book (trace_of session.now.config session.now.word session.now.events))
        kind.now)) }
{
    match find_note(alloc, session, kind) {
        Some(note) => note,
        None => Bytes::new(alloc),
    }
}
