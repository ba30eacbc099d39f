ghost use Rattle.std.specs.Prelude.{◌≡◌, ◌⊎◌, ℕ, ◌+◌, ◌≤◌, List, ◌++◌, [], ◌∷◌, length, true, false};
ghost use Rattle.std.specs.Prelude.{OnOk, OnErr, IfOk, IfErr, IfSome, IsErrOf};
ghost use Rattle.outside.specs.Ends.{Rose};
ghost use Rattle.single_session.specs.Replay.{opening_actions, state_after, trace_of, IsSound};
ghost use Rattle.single_session.specs.Replay.{is_bad_after, is_spent_after, AreGood, AreUnspent};
ghost use Rattle.driver_model.specs.declared.action.Cause.{Cause};
ghost use Rattle.legal_trace.specs.Book.{book};
ghost use Rattle.single_session.specs.Turn.{actions_of};
ghost use Rattle.shared_session.specs.declared.session.Failure.TheVariants.{Sound, Spent};
ghost use Rattle.shared_session.specs.Stops.{IsSpentBy};
ghost use Rattle.trace_text.specs.Show.{show};
ghost use Rattle.program_ends.specs.Streaming.{Sent};
ghost use Rattle.session_program.specs.Notes.{IsBadNoteOf, bad_event_words, line_note, open_count};
ghost use Rattle.session_program.specs.Stops.{Ends, IsNotOpened};

use crate::bad::bad_note;
use crate::counting::open_after;
use containers::{Bytes, Queue, Seq};
use driver_model::{Action, Config, Event};
use outside::Sink;
use program_ends::write_large;
use redis_error::ConfigName;
use shared_session::{MakeError, Session, StepError};
use std::alloc::{AllocError, Global};
use trace_text::{append_actions, append_turn};

/// Why a replay ended before its last event. The text has the lines of the finished turns that are not written yet.
#[derive(Clone, Copy, PartialEq, Eq)]
pub enum Stop {
    /// The configuration is refused, first for what it says of this name.
    Config(ConfigName),
    /// This event is the first bad one. Events are counted from 1.
    BadEvent(u64),
    /// A number ran out at this event.
    Spent(u64),
    NoMemory,
    /// The sink failed.
    WriteFault,
}

impl From<AllocError> for Stop {
    ghost use Rattle.std.specs.Prelude.{◌≡◌};
    ghost use Rattle.session_program.specs.declared.replaying.Stop.TheVariants.{NoMemory};

    ghost from_gives = { λ _ e. e ≡ NoMemory };

    fn from(_error: AllocError) -> Self {
        Stop::NoMemory
    }
}

/// Makes a session, and shows its opening. The actions of the opening are room for those of a turn.
fn open_session(
    alloc: Global,
    config: Config,
    word: u64,
    actions: &mut Vec<Action>,
    text: &mut Bytes,
) -> Result<Session, Stop>
    requires { actions.old.items ≡ [] }
    ensures made { IfOk result (λ s.
        s ≡ record { config = config; word = word; events = []; failure = Sound }
        ) }
    ensures sound { OnOk result (IsSound config) }
    ensures shown { OnOk result (text.new ≡ text.old ++ show (opening_actions config word)) }
    ensures stops { IfErr result (λ stop. IsNotOpened stop config) }
    ensures err { OnErr result (text.new ≡ text.old) }
{
    let session = match Session::new(alloc, config, word, actions) {
        Ok(session) => session,
        Err(MakeError::Config { name }) => return Err(Stop::Config(name)),
        Err(MakeError::NoMemory) => return Err(Stop::NoMemory),
    };
    append_actions(alloc, text, actions.as_slice())?;
    Ok(session)
}

/// Appends the lines of the last turn of a session. Behind the action that begins it stand these.
fn show_turn(
    alloc: Global,
    session: &Session,
    behind: &[Action],
    text: &mut Bytes,
) -> Result<(), AllocError>
    ensures ok { (before : List Event) (last : Event)
        → session.now.events ≡ before ++ last ∷ []
        → OnOk result (
        text.new ≡ text.old
        ++ show (Action.Turn (length session.now.events) (Cause.Event last) ∷ behind.now)
        ) }
    ensures err { OnErr result (text.new ≡ text.old) }
{
    let Some(event) = session.events().last() else {
        return Ok(());
    };
    append_turn(alloc, text, session.events_taken(), event, behind)
}

/// Takes one event, and shows its turn. Its actions come in the place of those of the turn before. A bad event is not taken,
/// and the note says why it is bad.
fn take_turn(
    alloc: Global,
    session: &mut Session,
    event: Event,
    actions: &mut Vec<Action>,
    text: &mut Bytes,
    note: &mut Bytes,
) -> Result<(), Stop>
    requires { session.old.failure ≡ Sound }
    ensures ok { OnOk result (
        session.new ≡ record session.old { events = session.old.events ++ event ∷ [] }
        ) }
    ensures shown { OnOk result (
        text.new ≡ text.old ++ show
        (actions_of (state_after session.old.config session.old.word session.old.events) event)
        ) }
    ensures good { OnOk result (
        is_bad_after session.old.config session.old.word session.old.events event ≡ false
        ) }
    ensures bad { (n : ℕ) → IsErrOf result (Stop.BadEvent n)
        → is_bad_after session.old.config session.old.word session.old.events event ≡ true }
    ensures number { (n : ℕ) → IsErrOf result (Stop.BadEvent n)
        → n ≡ length session.old.events + 1 }
    ensures unspent { OnOk result (
        is_spent_after session.old.config session.old.word session.old.events event ≡ false
        ) }
    ensures spent { (n : ℕ) → IsErrOf result (Stop.Spent n) → (session.old.failure ≡ Spent)
        ⊎ IsSpentBy session.old event }
    ensures count { (n : ℕ) → IsErrOf result (Stop.Spent n)
        → n ≡ length session.old.events + 1 }
    ensures writes { IsErrOf result Stop.WriteFault → ⊥ }
    ensures noted { (n : ℕ) → IsErrOf result (Stop.BadEvent n) → (note.new ≡ [])
        ⊎ (note.new ≡ line_note (length session.old.events + 2)
        (bad_event_words
        (book (trace_of session.old.config session.old.word session.old.events))
        event.kind)) }
    ensures opened { (name : ConfigName) → IsErrOf result (Stop.Config name) → ⊥ }
    ensures err { OnErr result (text.new ≡ text.old) }
{
    let number = u64::from(session.events_taken()) + 1;
    if session.is_bad(&event) {
        *note = bad_note(alloc, session, &event.kind);
        drop(event);
        return Err(Stop::BadEvent(number));
    }
    actions.clear();
    match session.take(alloc, event, actions) {
        Ok(()) => {}
        Err(StepError::BadEvent) => return Err(Stop::BadEvent(number)),
        Err(StepError::Spent { events }) => return Err(Stop::Spent(u64::from(events) + 1)),
        Err(StepError::NoMemory) => return Err(Stop::NoMemory),
    }
    show_turn(alloc, session, actions.as_slice(), text)?;
    Ok(())
}

/// Replays a history into a sink. What of the trace is not written yet is left in the text. It says how many
/// submissions are open then, unless memory was refused for that. Where an event is bad, the note says why, unless memory
/// was refused for that.
pub fn replay_into<K: Sink>(
    alloc: Global,
    config: Config,
    word: u64,
    events: Seq<Event>,
    sink: &mut K,
    text: &mut Bytes,
    note: &mut Bytes,
) -> Result<Option<u64>, Stop>
    requires { text.old ≡ [] }
    ensures sent { OnOk result (
        Sent (K.held sink.old) (K.held sink.new) text.new
        (show (trace_of config word events))
        ) }
    ensures sound { OnOk result (IsSound config) }
    ensures good { OnOk result (AreGood config word events) }
    ensures unspent { OnOk result (AreUnspent config word events) }
    ensures counted { IfOk result (λ count. IfSome count (λ n.
        n ≡ open_count config word events)) }
    ensures stops { IfErr result (λ stop.
        Ends stop config word events (K.held sink.old) (K.held sink.new) text.new
        ) }
    ensures noted { (n : ℕ) → IsErrOf result (Stop.BadEvent n)
        → (note.new ≡ []) ⊎ IsBadNoteOf config word events note.new }
    ensures later { K.fault_count sink.old ≤ K.fault_count sink.new }
    ensures cause { IsErrOf result Stop.WriteFault
        → Rose (K.fault_count sink.old) (K.fault_count sink.new) }
{
    let mut actions = Vec::new(alloc);
    let mut session = match open_session(alloc, config, word, &mut actions, text) {
        Ok(session) => session,
        Err(stop) => {
            drop(actions);
            drop(events);
            return Err(stop);
        }
    };
    let mut left = Queue::from_vec(events.into_vec());
    while let Some(event) = left.pop_front() {
        match take_turn(alloc, &mut session, event, &mut actions, text, note) {
            Ok(()) => {}
            Err(stop) => {
                drop(left);
                drop(session);
                drop(actions);
                return Err(stop);
            }
        }
        if !write_large(sink, text) {
            drop(left);
            drop(session);
            drop(actions);
            return Err(Stop::WriteFault);
        }
    }
    drop(left);
    drop(actions);
    let open = open_after(alloc, &session);
    drop(session);
    Ok(open)
}
