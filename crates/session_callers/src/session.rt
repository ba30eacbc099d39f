ghost use Rattle.std.specs.Prelude.{◌≡◌, ℕ, ◌+◌, ◌-◌, ◌^◌, ◌<◌, ◌≤◌, [], ◌∷◌, ◌++◌, IfOk, IfErr, OnOk, OnErr, length, max};
ghost use Rattle.std.specs.Prelude.{Some, IsErrOf, IsSome};
ghost use Rattle.driver_model.specs.Config.{first_fault};
ghost use Rattle.single_session.specs.Replay.{opening_actions};
ghost use Rattle.single_session.specs.Replay.{IsSound};
ghost use Rattle.shared_session.specs.declared.session.Failure.TheVariants.{Sound};
ghost use Rattle.session_callers.specs.Rule.{Each, history, founder, founders};
ghost use Rattle.session_callers.specs.Calls.{IsAt, founders_at, Turned, Added, Refused, RefusedInTurn, submission_event, joined_by, with_claim};
ghost use Rattle.session_callers.specs.Claims.{IsDialOf, MatchClaim};
ghost use Rattle.session_callers.specs.Sends.{outcome_seen};

use crate::board::{Board, Home, Origin, Place, Turns, View};
use crate::caller::Caller;
use crate::dial::{Claim, Dial};
use crate::homes::{outcome_in, step_home};
use crate::pending::PendingSend;
use crate::steps::{deal, dial, split};
use crate::turn::{begin, end, end_made};
use atomic_table::Table;
use driver_model::{Action, Config, Event, EventKind, Outcome, Submission};
use redis_error::ConfigName;
use shared_session::{MakeError, Session, StepError};
use std::alloc::{AllocError, Global};
use std::snapshot::Snapshot;
use std::sync::Wait;

/// Why no caller was made.
#[derive(Debug, Clone, Copy, PartialEq, Eq, Drop)]
pub enum JoinError {
    /// As many were made as may be.
    Spent,
}

/// A session with the callers that share it.
#[derive(Drop)]
pub struct SharedSession {
    pub(crate) table: Table<Option<Home>, View, Origin, Turns, Global>,
    pub ghost sized: { (table.shared.table_id.words ≡ 3) × (table.shared.table_id.slots ≡ 1) },
}

/// A session in its table, and the seat of all callers that are made with it.
fn seated(
    alloc: Global,
    origin: &Origin,
    session: Session,
) -> Result<(SharedSession, Place), AllocError>
    requires empty { session ≡ history origin.now.config origin.now.word [] Sound }
    requires few { (1 ≤ origin.now.made) × (origin.now.made ≤ origin.now.most) × (origin.now.most < 2 ^ 32) }
    ensures { IfOk result (λ made.
        (made.1.table_id ≡ made.0.table.shared.table_id)
        × (made.1.me ≡ (founders origin.now.config origin.now.word origin.now.most origin.now.made 0 origin.now.made, []))
        ) }
{
    let home = Home {
        session,
        made: origin.made,
        submissions: 0,
    };
    let mut slots = Vec::new(alloc);
    slots.push(Some(home))?;
    match Table::new(alloc, &[0, 0, 0], slots, origin) {
        Ok((table, seat)) => Ok((SharedSession { table }, seat)),
        Err(_) => Err(AllocError),
    }
}

/// A session that is made from this, and has made its opening, whose actions `out` gains, and the seat of its callers. After an
/// error `out` is as it was.
fn opened(
    alloc: Global,
    origin: &Origin,
    config: Config,
    out: &mut Vec<Action>,
) -> Result<(SharedSession, Place), MakeError>
    requires config { config ≡ origin.now.config }
    requires few { (1 ≤ origin.now.made) × (origin.now.made ≤ origin.now.most) × (origin.now.most < 2 ^ 32) }
    ensures seat { IfOk result (λ made.
        (made.1.table_id ≡ made.0.table.shared.table_id)
        × (made.1.me ≡ (founders origin.now.config origin.now.word origin.now.most origin.now.made 0 origin.now.made, []))
        ) }
    ensures actions { OnOk result (
        out.new.items ≡ out.old.items ++ opening_actions origin.now.config origin.now.word
        ) }
    ensures sound { OnOk result (IsSound origin.now.config) }
    ensures refused { (name : ConfigName) → IsErrOf result (MakeError.Config name)
        → first_fault origin.now.config ≡ Some name }
    ensures err { OnErr result (out.new.items ≡ out.old.items) }
{
    let before = out.len();
    let session = match Session::new(alloc, config, origin.word, out) {
        Ok(session) => session,
        Err(error) => return Err(error),
    };
    match seated(alloc, origin, session) {
        Ok(made) => Ok(made),
        Err(_) => {
            out.truncate(before);
            Err(MakeError::NoMemory)
        }
    }
}

/// A session that has made its opening, whose actions `out` gains, and the seat of the callers that are made with it, of so many
/// at most.
fn limited(
    alloc: Global,
    config: Config,
    word: u64,
    most: u64,
    made: u64,
    out: &mut Vec<Action>,
) -> Result<(SharedSession, Place), MakeError>
    requires few { (1 ≤ made) × (made ≤ most) × (most < 2 ^ 32) }
    ensures seat { IfOk result (λ made_with.
        (made_with.1.table_id ≡ made_with.0.table.shared.table_id)
        × (made_with.1.me ≡ (founders config word most made 0 made, []))
        ) }
    ensures actions { OnOk result (
        out.new.items ≡ out.old.items ++ opening_actions config word
        ) }
    ensures sound { OnOk result (IsSound config) }
    ensures refused { (name : ConfigName) → IsErrOf result (MakeError.Config name)
        → first_fault config ≡ Some name }
    ensures err { OnErr result (out.new.items ≡ out.old.items) }
{
    let copy = match config.clone(alloc) {
        Ok(copy) => copy,
        Err(_) => {
            drop(config);
            return Err(MakeError::NoMemory);
        }
    };
    let origin = Origin {
        config: copy,
        word,
        most,
        made,
    };
    let opened = opened(alloc, &origin, config, out);
    drop(origin);
    opened
}

/// The caller of a seat that has this number alone, and was made with its session.
fn caller_of(seat: Place, number: u64, made: u64, most: u64) -> Caller
    requires one { seat.me ≡ (founder seat.me.0.config seat.me.0.word most made number, []) }
    requires few { (number < most) × (made ≤ most) }
    ensures table { result.table ≡ seat.table_id }
    ensures view { result.view ≡ seat.me.0 }
{
    Caller {
        seat,
        front: 0,
        generation: 0,
        number,
        made,
        most,
    }
}

/// The callers of a seat that has the numbers of all: as many as may be, in the order of their numbers.
fn dealt(alloc: Global, board: &Board, seat: Place, made: u64) -> Result<Vec<Caller>, AllocError>
    requires at { IsAt board.now.table_id seat }
    requires some { 1 ≤ made }
    requires all { seat.me ≡ (founders seat.me.0.config seat.me.0.word made made 0 made, []) }
    ensures { IfOk result (λ callers.
        callers.items ≡ founders_at seat.table_id seat.me.0.config seat.me.0.word made 0 made
        ) }
{
    let mut seat = seat;
    let mut callers = Vec::new(alloc);
    let mut number = 0;
    let mut left = made;
    'deals: while left > 1 {
        let one = deal(board, &mut seat);
        callers.push(caller_of(one, number, made, made))?;
        number += 1;
        left -= 1;
    }
    callers.push(caller_of(seat, number, made, made))?;
    Ok(callers)
}

impl SharedSession {
    /// A session that has made its opening, whose actions `out` gains, and its first caller. A configuration of which
    /// something is refused makes none: `Config` tells what is refused first. After an error `out` is as it was. No more than
    /// 2^32 - 1 callers can be made.
    pub fn new(
        alloc: Global,
        config: Config,
        word: u64,
        out: &mut Vec<Action>,
    ) -> Result<(SharedSession, Caller), MakeError>
        ensures caller { IfOk result (λ made.
            (made.1.table ≡ made.0.table.shared.table_id)
            × (made.1.view ≡ founder config word 4_294_967_295 1 0)
            ) }
        ensures actions { OnOk result (
            out.new.items ≡ out.old.items ++ opening_actions config word
            ) }
        ensures sound { OnOk result (IsSound config) }
        ensures refused { (name : ConfigName) → IsErrOf result (MakeError.Config name)
            → first_fault config ≡ Some name }
        ensures err { OnErr result (out.new.items ≡ out.old.items) }
    {
        match limited(alloc, config, word, 0xffff_ffff, 1, out) {
            Ok((shared, seat)) => Ok((shared, caller_of(seat, 0, 1, 0xffff_ffff))),
            Err(error) => Err(error),
        }
    }

    /// The same with so many callers, one at least, in the order of their numbers. No more can be made, so that
    /// all of them can always close it.
    pub fn with_callers(
        alloc: Global,
        config: Config,
        word: u64,
        count: u32,
        out: &mut Vec<Action>,
    ) -> Result<(SharedSession, Vec<Caller>), MakeError>
        ensures callers { IfOk result (λ made.
            made.1.items
            ≡ founders_at made.0.table.shared.table_id config word (max count 1) 0 (max count 1)
            ) }
        ensures of { IfOk result (λ made.
            Each (λ caller. caller.table ≡ made.0.table.shared.table_id) made.1.items
            ) }
        ensures actions { OnOk result (
            out.new.items ≡ out.old.items ++ opening_actions config word
            ) }
        ensures sound { OnOk result (IsSound config) }
        ensures refused { (name : ConfigName) → IsErrOf result (MakeError.Config name)
            → first_fault config ≡ Some name }
        ensures err { OnErr result (out.new.items ≡ out.old.items) }
    {
        let before = out.len();
        let made = count.max(1) as u64;
        let (shared, seat) = match limited(alloc, config, word, made, made, out) {
            Ok(made) => made,
            Err(error) => return Err(error),
        };
        match dealt(alloc, &shared.table.shared, seat, made) {
            Ok(callers) => Ok((shared, callers)),
            Err(_) => {
                drop(shared);
                out.truncate(before);
                Err(MakeError::NoMemory)
            }
        }
    }

    /// One turn of the caller, in which the session takes the event, and how many submissions stood before it.
    fn take_turn<R: Wait>(
        &self,
        rt: &R,
        alloc: Global,
        caller: &mut Caller,
        event: Event,
        out: &mut Vec<Action>,
    ) -> (u32, Result<(), StepError>)
        requires { caller.old.table ≡ self.now.table.shared.table_id }
        ensures table { caller.new.table ≡ caller.old.table }
        ensures turned { Turned caller.old.view caller.new.view }
        ensures added { OnOk result.1 (
            Added caller.old.view caller.new.view event result.0 out.old.items out.new.items
            ) }
        ensures refused { IfErr result.1 (λ error.
            Refused error caller.old.view caller.new.view event out.old.items out.new.items
            ) }
    {
        let board = &self.table.shared;
        let mut home = begin(rt, board, &mut caller.seat);
        let number = home.submissions;
        let answer = step_home(alloc, &mut home, event, out);
        caller.front = home.session.events_taken();
        caller.made = home.made;
        end(board, &mut caller.seat, home);
        (number, answer)
    }

    /// Submits in the caller's turn, and answers the submission's number. `out` gains the actions of the turn. After an
    /// error `out` is as it was, and the history has nothing more of this caller's.
    pub fn submit_as<R: Wait>(
        &self,
        rt: &R,
        alloc: Global,
        caller: &mut Caller,
        what: Submission,
        word: u64,
        out: &mut Vec<Action>,
    ) -> Result<u32, StepError>
        requires { caller.old.table ≡ self.now.table.shared.table_id }
        ensures table { caller.new.table ≡ caller.old.table }
        ensures turned { Turned caller.old.view caller.new.view }
        ensures added { IfOk result (λ n.
            Added caller.old.view caller.new.view (submission_event what word) n
            out.old.items out.new.items
            ) }
        ensures refused { IfErr result (λ error.
            Refused error caller.old.view caller.new.view (submission_event what word)
            out.old.items out.new.items
            ) }
    {
        let event = Event {
            word,
            kind: EventKind::Submit { submission: what },
        };
        let (number, answer) = self.take_turn(rt, alloc, caller, event, out);
        match answer {
            Ok(()) => Ok(number),
            Err(error) => Err(error),
        }
    }

    /// The outcome of a submission by the history then seen, if it has one. Memory can be refused only to a copy of it.
    pub fn outcome_as<R: Wait>(
        &self,
        rt: &R,
        alloc: Global,
        caller: &mut Caller,
        submission: u32,
    ) -> Result<Option<Outcome>, AllocError>
        requires { caller.old.table ≡ self.now.table.shared.table_id }
        ensures table { caller.new.table ≡ caller.old.table }
        ensures turned { Turned caller.old.view caller.new.view }
        ensures mine { caller.new.view.mine ≡ caller.old.view.mine }
        ensures outcome { IfOk result (λ outcome. outcome ≡ outcome_seen caller.new.view submission) }
        ensures refused { OnErr result (IsSome (outcome_seen caller.new.view submission)) }
    {
        let board = &self.table.shared;
        let home = begin(rt, board, &mut caller.seat);
        let answer = outcome_in(alloc, &home.session, submission);
        caller.front = home.session.events_taken();
        caller.made = home.made;
        end(board, &mut caller.seat, home);
        answer
    }

    /// Takes one event in the caller's turn, and answers the actions of the turn. After an error the history has
    /// nothing more of this caller's.
    pub fn event_as<R: Wait>(
        &self,
        rt: &R,
        alloc: Global,
        caller: &mut Caller,
        event: Event,
    ) -> Result<Vec<Action>, StepError>
        requires { caller.old.table ≡ self.now.table.shared.table_id }
        ensures table { caller.new.table ≡ caller.old.table }
        ensures turned { Turned caller.old.view caller.new.view }
        ensures added { IfOk result (λ out.
            (n : ℕ) × Added caller.old.view caller.new.view event n [] out.items
            ) }
        ensures refused { IfErr result (λ error.
            Refused error caller.old.view caller.new.view event [] []
            ) }
    {
        let mut out = Vec::new(alloc);
        let (_, answer) = self.take_turn(rt, alloc, caller, event, &mut out);
        match answer {
            Ok(()) => Ok(out),
            Err(error) => Err(error),
        }
    }

    /// A new caller, which has seen as much. `Spent` comes only where as many were made as may be.
    pub fn join<R: Wait>(&self, rt: &R, caller: &mut Caller) -> Result<Caller, JoinError>
        requires { caller.old.table ≡ self.now.table.shared.table_id }
        ensures table { caller.new.table ≡ caller.old.table }
        ensures turned { Turned caller.old.view caller.new.view }
        ensures mine { caller.new.view.mine ≡ caller.old.view.mine }
        ensures joined { IfOk result (λ other.
            (other.table ≡ caller.old.table) × (other.view ≡ joined_by caller.new.view)
            ) }
        ensures spent { OnErr result (caller.new.view.made ≡ caller.new.view.most) }
    {
        let board = &self.table.shared;
        let mut home = begin(rt, board, &mut caller.seat);
        caller.front = home.session.events_taken();
        caller.made = home.made;
        if home.made >= caller.most {
            end(board, &mut caller.seat, home);
            return Err(JoinError::Spent);
        }
        let seat = split(board, &mut caller.seat);
        let number = home.made;
        home.made += 1;
        caller.made = home.made;
        end_made(board, &mut caller.seat, home);
        Ok(Caller {
            seat,
            front: caller.front,
            generation: caller.generation,
            number,
            made: 0,
            most: caller.most,
        })
    }

    /// Claims the dial after `g`, where no other did. Waits for nobody.
    pub fn claim_dial(&self, caller: &mut Caller, g: u64) -> Claim
        requires of { caller.old.table ≡ self.now.table.shared.table_id }
        requires known { (g ≤ caller.old.view.dial) × (g + 1 < 2 ^ 64) }
        ensures table { caller.new.table ≡ caller.old.table }
        ensures claimed { MatchClaim result
            (λ dial. IsDialOf caller.old.table (g + 1) dial
            × (caller.new.view ≡ with_claim caller.old.view (g + 1)))
            (λ n. (g < n) × (caller.new.view ≡ record caller.old.view { dial = n })) }
    {
        let found = dial(&self.table.shared, &mut caller.seat, g);
        if found == g {
            caller.generation = g + 1;
            let place = Snapshot::of(&caller.seat);
            let seat = Snapshot::of(&place);
            Claim::Claimed(Dial {
                number: g + 1,
                seat,
            })
        } else {
            caller.generation = found;
            Claim::Newer(found)
        }
    }

    /// The length of the history that the caller has seen. Waits for nobody.
    pub fn front(&self, caller: &Caller) -> u32
        ensures { result ≡ length caller.now.view.seen }
    {
        caller.front
    }

    /// A future of the outcome of a submission. The caller is lent to it, and free again once it is dropped.
    pub fn wait_as<'a, R: Wait>(
        &'a self,
        rt: &'a R,
        alloc: Global,
        caller: &'a mut Caller,
        submission: u32,
    ) -> PendingSend<'a, R>
        ensures lent { result.caller.ghost_name ≡ caller.entry.ghost_name }
        ensures made { (result.caller.now ≡ caller.old) × (result.shared.now ≡ self.now)
            × (result.number ≡ submission) }
    {
        PendingSend {
            shared: self,
            rt,
            alloc,
            caller,
            number: submission,
        }
    }

    /// Submits as `submit_as` does, and waits as `wait_as` does. A refusal is one of some turn of the caller. The clauses
    /// leave open what the caller knows after it; those of `submit_as` and `wait_as` say that too.
    pub fn send_as<'a, R: Wait>(
        &'a self,
        rt: &'a R,
        alloc: Global,
        caller: &'a mut Caller,
        what: Submission,
        word: u64,
        out: &mut Vec<Action>,
    ) -> Result<PendingSend<'a, R>, StepError>
        requires { caller.old.table ≡ self.now.table.shared.table_id }
        ensures lent { IfOk result (λ p.
            (p.caller.ghost_name ≡ caller.entry.ghost_name) × (p.shared.now ≡ self.now)
            ) }
        ensures sent { IfOk result (λ p.
            (p.caller.now.table ≡ caller.old.table)
            × Turned caller.old.view p.caller.now.view
            × Added caller.old.view p.caller.now.view (submission_event what word) p.number
            out.old.items out.new.items
            ) }
        ensures refused { IfErr result (λ error.
            RefusedInTurn error caller.old.view (submission_event what word) out.old.items out.new.items
            ) }
    {
        let number = self.submit_as(rt, alloc, caller, what, word, out)?;
        Ok(self.wait_as(rt, alloc, caller, number))
    }
}
