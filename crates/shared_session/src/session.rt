ghost use Rattle.std.specs.Prelude.{◌≡◌, ◌⊎◌, ℕ, ◌<◌, ◌+◌, ◌^◌, ◌↔◌, [], ◌∷◌, ◌++◌, length, take, true};
ghost use Rattle.std.specs.Prelude.{false, Some, OnOk, OnErr, IfOk, IsErrOf, option_copied, slice_set};
ghost use Rattle.single_session.specs.Done.{put_each};
ghost use Rattle.driver_model.specs.Config.{address, first_fault};
ghost use Rattle.single_session.specs.Replay.{opening_actions, opening_core, with_room, IsSound};

use crate::errors::{MakeError, StepError};
use connection_info::{ConnectionInfo, OpenError};
use containers::Seq;
use driver_model::{Action, Cause, Config, Event, EventKind, Outcome};
use mux_conn::{ConnectionError, Rest, Spare};
use redis_error::ConfigName;
use single_session::{Core, Done, Rooms, make_turn, opened, show, show_opening};
use std::alloc::{AllocError, Global};
use std::marker::Model;

/// Whether a session has failed.
#[derive(Clone, Copy, PartialEq, Eq)]
pub enum Failure {
    Sound,
    /// A number has run out.
    Spent,
    /// Memory was refused.
    NoMemory,
}

/// A session: the events that it has taken, and the state that they lead to. Contracts see its history.
pub struct Session {
    config: Config,
    word: u64,
    events: Seq<Event>,
    core: Core,
    outcomes: Seq<Option<Outcome>>,
    /// Room for the lists of a turn: of its acts, and of its outcomes.
    rooms: Rooms,
    done: Spare<Done>,
    failure: Failure,
}

impl Model for Session {
    ghost use Rattle.shared_session.specs.History.{History};

    ghost Value = { History };

    ghost view = { λ s. record {
      config = s.config;
      word = s.word;
      events = s.events;
      failure = s.failure;
    } };

    ghost use Rattle.shared_session.specs.IsReplay.{IsReplay};

    ghost invariant = { IsReplay };
}

impl Drop for Session {
    fn drop(self) {
        let Session {
            config,
            word: _,
            events,
            core,
            outcomes,
            rooms,
            done,
            failure: _,
        } = self;
        drop(config);
        drop(events);
        drop(core);
        drop(outcomes);
        drop(rooms);
        drop(done);
    }
}

impl Session {
    ghost use Rattle.single_session.specs.Turn.{effects_of, actions_of};
    ghost use Rattle.single_session.specs.Replay.{state_after, trace_of, outcomes_in, outcome_at};
    ghost use Rattle.single_session.specs.Replay.{is_bad_after, is_spent_after};
    ghost use Rattle.shared_session.specs.Stops.{IsSpentBy};

    /// A session that has made its opening, whose actions `out` gains. A configuration of which something is refused makes
    /// none: `Config` tells what is refused first. After an error `out` is as it was.
    pub fn new(
        alloc: Global,
        config: Config,
        word: u64,
        out: &mut Vec<Action>,
    ) -> Result<Session, MakeError>
        ensures made { IfOk result (λ s.
            s ≡ record { config = config; word = word; events = []; failure = Failure.Sound }
            ) }
        ensures actions { OnOk result (
            out.new.items ≡ out.old.items ++ opening_actions config word
            ) }
        ensures sound { OnOk result (IsSound config) }
        ensures refused { (name : ConfigName) → IsErrOf result (MakeError.Config name)
            → first_fault config ≡ Some name }
        ensures err { OnErr result (out.new.items ≡ out.old.items) }
    {
        let core = match begun(alloc, &config, word, out) {
            Ok(core) => core,
            Err(error) => {
                drop(config);
                return Err(error);
            }
        };
        let events = Seq::new(alloc);
        let outcomes = Seq::new(alloc);
        Ok(Session {
            config,
            word,
            events,
            core,
            outcomes,
            rooms: Rooms::new(alloc),
            done: Spare::new(alloc),
            failure: Failure::Sound,
        })
    }

    /// What it was made from. Takes no memory.
    pub fn config(&self) -> &Config
        ensures { result.now ≡ self.now.config }
    {
        &self.config
    }

    /// The word of the draws of its opening. Takes no memory.
    pub fn word(&self) -> u64
        ensures { result ≡ self.now.word }
    {
        self.word
    }

    /// The events that it has taken, in order. Takes no memory.
    pub fn events(&self) -> &[Event]
        ensures { result.now ≡ self.now.events }
    {
        self.events.as_slice()
    }

    /// How many events the session has taken. Takes no memory.
    pub fn events_taken(&self) -> u32
        ensures { result ≡ length self.now.events }
    {
        self.events.len() as u32
    }

    /// The outcome of a submission, if it has one. Takes no memory. A session that has failed answers as before.
    pub fn outcome_of(&self, submission: u32) -> Option<&Outcome>
        ensures { option_copied result
            ≡ outcome_at (outcomes_in (trace_of self.now.config self.now.word self.now.events))
            submission }
    {
        if submission as usize >= self.outcomes.len() {
            return None;
        }
        self.outcomes.at(submission as usize).as_ref()
    }

    /// Whether the event is bad: a step of a session that hasn't failed answers `BadEvent` to it, and to no other. Takes no
    /// memory.
    pub fn is_bad(&self, event: &Event) -> bool
        ensures { self.now.failure ≡ Failure.Sound
            → result
            ≡ is_bad_after self.now.config self.now.word self.now.events event.now }
    {
        self.core.is_bad_event(&event.kind)
    }

    /// Takes one event: one turn, whose actions `out` gains. After an error `out` is as it was. After `Spent` and
    /// `NoMemory` the session has failed: its history and its outcomes stay, and every later step answers the same.
    pub fn step(
        &mut self,
        alloc: Global,
        event: Event,
        out: &mut Vec<Action>,
    ) -> Result<(), StepError>
        ensures ok { OnOk result (
            self.new ≡ record self.old { events = self.old.events ++ event ∷ [] }
            ) }
        ensures actions { OnOk result (
            out.new.items
            ≡ out.old.items
            ++ actions_of (state_after self.old.config self.old.word self.old.events) event
            ) }
        ensures sound { OnOk result (self.old.failure ≡ Failure.Sound) }
        ensures good { OnOk result (
            is_bad_after self.old.config self.old.word self.old.events event ≡ false
            ) }
        ensures bad { IsErrOf result StepError.BadEvent
            ↔ ((self.old.failure ≡ Failure.Sound)
            × (is_bad_after self.old.config self.old.word self.old.events event ≡ true)) }
        ensures bad_same { IsErrOf result StepError.BadEvent → self.new ≡ self.old }
        ensures spent { (n : ℕ) → IsErrOf result (StepError.Spent n)
            → (self.old.failure ≡ Failure.Spent) ⊎ IsSpentBy self.old event }
        ensures count { (n : ℕ) → IsErrOf result (StepError.Spent n)
            → n ≡ length self.old.events }
        ensures unspent { OnOk result (
            is_spent_after self.old.config self.old.word self.old.events event ≡ false
            ) }
        ensures again { self.old.failure ≡ Failure.Spent
            → IsErrOf result (StepError.Spent (length self.old.events)) }
        ensures failed { self.old.failure ≡ Failure.NoMemory
            → IsErrOf result StepError.NoMemory }
        ensures fails_spent { (n : ℕ) → IsErrOf result (StepError.Spent n)
            → self.new.failure ≡ Failure.Spent }
        ensures fails { IsErrOf result StepError.NoMemory
            → self.new.failure ≡ Failure.NoMemory }
        ensures err { OnErr result (out.new.items ≡ out.old.items) }
        ensures kept { OnErr result (self.new ≡ record self.old { failure = self.new.failure }) }
    {
        let before = out.len();
        match self.tell(alloc, &event, out) {
            Ok(()) => {}
            Err(_) => {
                drop(event);
                self.failure = Failure::NoMemory;
                return Err(StepError::NoMemory);
            }
        }
        match self.take(alloc, event, out) {
            Ok(()) => Ok(()),
            Err(error) => {
                out.truncate(before);
                Err(error)
            }
        }
    }

    /// The first action of the next turn is shown, where the session takes this event.
    #[tactic(auto, unfolding(single_session::specs::Turn::spends))]
    fn tell(&self, alloc: Global, event: &Event, out: &mut Vec<Action>) -> Result<(), AllocError>
        ensures told { OnOk result (
            self.now.failure ≡ Failure.Sound
            → is_bad_after self.now.config self.now.word self.now.events event.now ≡ false
            → is_spent_after self.now.config self.now.word self.now.events event.now ≡ false
            → out.new.items
            ≡ out.old.items
            ++ Action.Turn (length self.now.events + 1) (Cause.Event event.now) ∷ []
            ) }
        ensures due { OnErr result (
            (self.now.failure ≡ Failure.Sound)
            × (is_bad_after self.now.config self.now.word self.now.events event.now ≡ false)
            ) }
        ensures front { take (length out.old.items) out.new.items ≡ out.old.items }
        ensures err { OnErr result (out.new.items ≡ out.old.items) }
    {
        match self.failure {
            Failure::Sound => {}
            Failure::Spent => return Ok(()),
            Failure::NoMemory => return Ok(()),
        }
        if self.core.is_bad_event(&event.kind) {
            return Ok(());
        }
        if u64::from(u32::MAX) < self.core.turns {
            return Ok(());
        }
        let number = self.core.turns as u32;
        show_line(alloc, number, event, out)?;
        Ok(())
    }

    /// A `step` of which `out` gains all but the first action, which tells the turn and its event. No event is copied.
    #[tactic(auto, unfolding(single_session::specs::Turn::spends))]
    pub fn take(
        &mut self,
        alloc: Global,
        event: Event,
        out: &mut Vec<Action>,
    ) -> Result<(), StepError>
        ensures ok { OnOk result (
            self.new ≡ record self.old { events = self.old.events ++ event ∷ [] }
            ) }
        ensures actions { OnOk result (
            out.new.items
            ≡ out.old.items
            ++ effects_of (state_after self.old.config self.old.word self.old.events) event
            ) }
        ensures turn { OnOk result (
            actions_of (state_after self.old.config self.old.word self.old.events) event
            ≡ Action.Turn (length self.new.events) (Cause.Event event)
            ∷ effects_of (state_after self.old.config self.old.word self.old.events) event
            ) }
        ensures sound { OnOk result (self.old.failure ≡ Failure.Sound) }
        ensures good { OnOk result (
            is_bad_after self.old.config self.old.word self.old.events event ≡ false
            ) }
        ensures bad { IsErrOf result StepError.BadEvent
            ↔ ((self.old.failure ≡ Failure.Sound)
            × (is_bad_after self.old.config self.old.word self.old.events event ≡ true)) }
        ensures bad_same { IsErrOf result StepError.BadEvent → self.new ≡ self.old }
        ensures spent { (n : ℕ) → IsErrOf result (StepError.Spent n)
            → (self.old.failure ≡ Failure.Spent) ⊎ IsSpentBy self.old event }
        ensures count { (n : ℕ) → IsErrOf result (StepError.Spent n)
            → n ≡ length self.old.events }
        ensures unspent { OnOk result (
            is_spent_after self.old.config self.old.word self.old.events event ≡ false
            ) }
        ensures again { self.old.failure ≡ Failure.Spent
            → IsErrOf result (StepError.Spent (length self.old.events)) }
        ensures failed { self.old.failure ≡ Failure.NoMemory
            → IsErrOf result StepError.NoMemory }
        ensures fails_spent { (n : ℕ) → IsErrOf result (StepError.Spent n)
            → self.new.failure ≡ Failure.Spent }
        ensures fails { IsErrOf result StepError.NoMemory
            → self.new.failure ≡ Failure.NoMemory }
        ensures err { OnErr result (out.new.items ≡ out.old.items) }
        ensures kept { OnErr result (self.new ≡ record self.old { failure = self.new.failure }) }
    {
        let events = self.events.len() as u32;
        match self.failure {
            Failure::Sound => {}
            Failure::Spent => {
                drop(event);
                return Err(StepError::Spent { events });
            }
            Failure::NoMemory => {
                drop(event);
                return Err(StepError::NoMemory);
            }
        }
        if self.core.is_bad_event(&event.kind) {
            drop(event);
            return Err(StepError::BadEvent);
        }
        if self.core.turns > u64::from(u32::MAX) {
            drop(event);
            self.failure = Failure::Spent;
            return Err(StepError::Spent { events });
        }
        self.make(alloc, event, out)
    }

    /// A `take` of an event that isn't bad, by a session that hasn't failed and whose next turn has a number.
    #[tactic(auto, unfolding(single_session::specs::Turn::spends))]
    fn make(&mut self, alloc: Global, event: Event, out: &mut Vec<Action>) -> Result<(), StepError>
        requires sound { self.old.failure ≡ Failure.Sound }
        requires good { is_bad_after self.old.config self.old.word self.old.events event ≡ false }
        requires few { length self.old.events + 1 < 2 ^ 32 }
        ensures ok { OnOk result (
            self.new ≡ record self.old { events = self.old.events ++ event ∷ [] }
            ) }
        ensures actions { OnOk result (
            out.new.items
            ≡ out.old.items
            ++ effects_of (state_after self.old.config self.old.word self.old.events) event
            ) }
        ensures turn { OnOk result (
            actions_of (state_after self.old.config self.old.word self.old.events) event
            ≡ Action.Turn (length self.new.events) (Cause.Event event)
            ∷ effects_of (state_after self.old.config self.old.word self.old.events) event
            ) }
        ensures unbad { IsErrOf result StepError.BadEvent → ⊥ }
        ensures spent { (n : ℕ) → IsErrOf result (StepError.Spent n) → IsSpentBy self.old event }
        ensures count { (n : ℕ) → IsErrOf result (StepError.Spent n)
            → n ≡ length self.old.events }
        ensures unspent { OnOk result (
            is_spent_after self.old.config self.old.word self.old.events event ≡ false
            ) }
        ensures fails_spent { (n : ℕ) → IsErrOf result (StepError.Spent n)
            → self.new.failure ≡ Failure.Spent }
        ensures fails { IsErrOf result StepError.NoMemory
            → self.new.failure ≡ Failure.NoMemory }
        ensures err { OnErr result (out.new.items ≡ out.old.items) }
        ensures kept { OnErr result (self.new ≡ record self.old { failure = self.new.failure }) }
    {
        let events = self.events.len() as u32;
        let before = out.len();
        self.failure = Failure::NoMemory;
        let mut done = self.done.take(alloc);
        match make_turn(
            alloc,
            &mut self.core,
            &event,
            &mut self.rooms,
            &mut done,
            out,
        ) {
            Ok(()) => {}
            Err(ConnectionError::Spent) => {
                drop(event);
                drop(done);
                out.truncate(before);
                self.failure = Failure::Spent;
                return Err(StepError::Spent { events });
            }
            Err(ConnectionError::NoMemory) => {
                drop(event);
                drop(done);
                out.truncate(before);
                return Err(StepError::NoMemory);
            }
        }
        match keep(&mut self.outcomes, &mut self.events, event) {
            Ok(()) => {}
            Err(_) => {
                drop(done);
                out.truncate(before);
                return Err(StepError::NoMemory);
            }
        }
        self.done.give(commit(&mut self.outcomes, done));
        self.failure = Failure::Sound;
        Ok(())
    }
}

/// The state after the opening, whose actions `out` gains. A configuration of which something is refused has none. After an
/// error `out` is as it was.
fn begun(
    alloc: Global,
    config: &Config,
    word: u64,
    out: &mut Vec<Action>,
) -> Result<Core, MakeError>
    ensures core { IfOk result (λ core. core ≡ opening_core config.now word) }
    ensures actions { OnOk result (
        out.new.items ≡ out.old.items ++ opening_actions config.now word
        ) }
    ensures sound { OnOk result (IsSound config.now) }
    ensures refused { (name : ConfigName) → IsErrOf result (MakeError.Config name)
        → first_fault config.now ≡ Some name }
    ensures err { OnErr result (out.new.items ≡ out.old.items) }
{
    let info = match config.info(alloc) {
        Ok(info) => info,
        Err(OpenError::Config(name)) => return Err(MakeError::Config { name }),
        Err(_) => return Err(MakeError::NoMemory),
    };
    let core = match core_at(alloc, config, &info) {
        Ok(core) => core,
        Err(_) => {
            drop(info);
            return Err(MakeError::NoMemory);
        }
    };
    match show_opening(alloc, config, info, word, out) {
        Ok(()) => Ok(core),
        Err(_) => {
            drop(core);
            Err(MakeError::NoMemory)
        }
    }
}

/// The state after the opening, where this is the address.
fn core_at(alloc: Global, config: &Config, info: &ConnectionInfo) -> Result<Core, AllocError>
    requires { address config.now ≡ Some info.now }
    ensures { IfOk result (λ core. (word : ℕ) → core ≡ opening_core config.now word) }
{
    let told = config.told_info(alloc, info)?;
    opened(alloc, config, info, told)
}

/// The first action of a turn is shown. After an error `out` is as it was.
fn show_line(
    alloc: Global,
    number: u32,
    event: &Event,
    out: &mut Vec<Action>,
) -> Result<(), AllocError>
    ensures told { OnOk result (
        out.new.items
        ≡ out.old.items ++ Action.Turn number (Cause.Event event.now) ∷ []
        ) }
    ensures front { take (length out.old.items) out.new.items ≡ out.old.items }
    ensures err { OnErr result (out.new.items ≡ out.old.items) }
{
    let event = event.clone(alloc)?;
    let cause = Cause::Event { event };
    show(out, Action::Turn { number, cause })
}

/// Room for the outcome of a submission, and the event in the history. After an error both are as before.
fn keep(
    outcomes: &mut Seq<Option<Outcome>>,
    events: &mut Seq<Event>,
    event: Event,
) -> Result<(), AllocError>
    ensures ok { OnOk result (
        (outcomes.new ≡ with_room outcomes.old event.kind)
        × (events.new ≡ events.old ++ event ∷ [])
        ) }
    ensures err { OnErr result ((outcomes.new ≡ outcomes.old) × (events.new ≡ events.old)) }
{
    let places = outcomes.len();
    match make_room(outcomes, &event.kind) {
        Ok(()) => {}
        Err(error) => {
            drop(event);
            return Err(error);
        }
    }
    match events.push(event) {
        Ok(()) => Ok(()),
        Err(error) => {
            outcomes.truncate(places);
            Err(error)
        }
    }
}

/// A place for the outcome of a submission that comes in.
fn make_room(outcomes: &mut Seq<Option<Outcome>>, event: &EventKind) -> Result<(), AllocError>
    ensures ok { OnOk result (outcomes.new ≡ with_room outcomes.old event.now) }
    ensures err { OnErr result (outcomes.new ≡ outcomes.old) }
{
    match event {
        EventKind::Submit { submission: _ } => outcomes.push(None),
        _ => Ok(()),
    }
}

/// An outcome is put in the place of its submission, if there is one.
fn put(outcomes: &mut Seq<Option<Outcome>>, done: Done)
    ensures { outcomes.new ≡ slice_set outcomes.old done.submission (Some done.outcome) }
{
    let Done {
        submission,
        outcome,
    } = done;
    let place = submission as usize;
    if place < outcomes.len() {
        outcomes.set(place, Some(outcome));
    } else {
        drop(outcome);
    }
}

/// The outcomes of a turn are put in their places. The answer is their list, emptied.
fn commit(outcomes: &mut Seq<Option<Outcome>>, done: Vec<Done>) -> Vec<Done>
    ensures outcomes { outcomes.new ≡ put_each outcomes.old done.items }
    ensures emptied { result.items ≡ [] }
{
    let mut rest = Rest::of(done);
    while let Some(next) = rest.pop_front() {
        put(outcomes, next);
    }
    rest.into_list()
}
