ghost use Rattle.std.specs.Prelude.{◌≡◌, ℕ, ◌≤◌, [], IfOk, IfErr, OnOk, OnErr, length, false};
ghost use mathlib.Core.List.{IsPrefix};
ghost use Rattle.session_callers.specs.Rule.{Each, MaySpend, total, times, below};
ghost use Rattle.session_callers.specs.Calls.{IsOf};
ghost use Rattle.session_callers.specs.Claims.{AreClaimed};
ghost use Rattle.session_callers.specs.Closes.{knows_more, do_know_more, AreEnough, AreUndialled};
ghost use Rattle.session_callers.specs.Closes.{IsGathered, IsMissing, IsShared};

use crate::board::{Board, Home, Place};
use crate::caller::Caller;
use crate::keeping::Keeper;
use crate::session::SharedSession;
use crate::steps::merge;
use shared_session::Session;
use std::snapshot::Snapshot;

/// Why a session was not closed.
#[derive(Drop)]
pub enum CloseError {
    /// Fewer callers were handed in than were made. All is handed back.
    Missing {
        shared: SharedSession,
        callers: Vec<Caller>,
    },
}

/// Whether a caller shows that more than so many were made.
fn knows_more(caller: &Caller, count: u64) -> bool
    ensures knows { result ≡ knows_more count caller.now }
    ensures most { caller.now.view.most ≤ count → result ≡ false }
{
    caller.number >= count || caller.made > count
}

/// Whether one of these callers shows that more than so many were made.
fn do_know_more(mut callers: &[Caller], count: u64) -> bool
    ensures knows { result ≡ do_know_more count callers.entry.now }
    ensures most { Each (λ caller. caller.view.most ≤ count) callers.entry.now → result ≡ false }
{
    while let [caller, rest @ ..] = callers {
        if knows_more(caller, count) {
            return true;
        }
        callers = rest;
    }
    false
}

/// The seats of callers as one. They are all that were made: `made` is above their numbers, none of them saw more callers than
/// that, and they are so many.
fn gather(board: &Board, mut callers: Vec<Caller>, made: u64) -> Place
    requires sized { (board.now.table_id.words ≡ 3) × (board.now.table_id.slots ≡ 1) }
    requires of { Each (IsOf board.now.table_id made) callers.items }
    requires all { (1 ≤ made) × (made ≤ length callers.items) }
    ensures { IsGathered board.now.table_id made callers.items result }
{
    let Some(last) = callers.pop() else {
        unreachable!()
    };
    let Caller {
        seat,
        front: _,
        generation: _,
        number: _,
        made: _,
        most: _,
    } = last;
    let mut seat = seat;
    while let Some(next) = callers.pop() {
        merge(board, &mut seat, next);
    }
    seat
}

impl SharedSession {
    /// Ends the sharing, where these callers are all that were made: `made` is above their numbers, none of them saw
    /// more callers than that, and they are so many.
    fn close_all(self, callers: Vec<Caller>, made: u64) -> (Session, Keeper)
        requires of { Each (IsOf self.table.shared.table_id made) callers.items }
        requires all { (1 ≤ made) × (made ≤ length callers.items) }
        ensures begins { Each (λ caller. IsPrefix caller.view.seen result.0.events) callers.items }
        ensures mine { (p : ℕ) →
            total (λ caller. times p caller.view.mine) callers.items
            ≡ below p (length result.0.events) }
        ensures shared { IsShared callers.items result.0.config result.0.word }
        ensures spent { MaySpend result.0.config result.0.word result.0.events result.0.failure }
        ensures table { result.1.table ≡ self.table.shared.table_id }
        ensures claims { AreClaimed result.1.dial callers.items }
    {
        let seat = gather(&self.table.shared, callers, made);
        let place = Snapshot::of(&seat);
        let SharedSession { table } = self;
        let mut closed = table.close_with(seat);
        let generation = closed.word(2);
        let home = closed.take(0);
        closed.free();
        match home {
            Some(
                Home {
                    session,
                    made: _,
                    submissions: _,
                },
            ) => (session, Keeper { place, generation }),
            None => unreachable!(),
        }
    }

    /// Ends the sharing, and answers the session and what is left of the callers. The history of the session begins with what
    /// each of the callers had seen, and each place of it is one caller's own. It has the configuration and the word that they
    /// know, and its numbers have run out only where the step of some event would be spent. Just one of the callers has claimed
    /// each number of the dial up to that which the keeper knows, and none of them any other. `Missing` comes exactly where
    /// fewer callers were handed in than were made, so never where they are as many as may be made. Waits for nobody.
    pub fn keep(self, callers: Vec<Caller>) -> Result<(Session, Keeper), CloseError>
        requires { Each (λ caller. caller.table ≡ self.table.shared.table_id) callers.items }
        ensures begins { IfOk result (λ kept.
            Each (λ caller. IsPrefix caller.view.seen kept.0.events) callers.items
            ) }
        ensures mine { IfOk result (λ kept.
            (p : ℕ) → total (λ caller. times p caller.view.mine) callers.items
            ≡ below p (length kept.0.events)
            ) }
        ensures shared { IfOk result (λ kept.
            IsShared callers.items kept.0.config kept.0.word
            ) }
        ensures spent { IfOk result (λ kept.
            MaySpend kept.0.config kept.0.word kept.0.events kept.0.failure
            ) }
        ensures all { OnOk result (
            do_know_more (length callers.items) callers.items ≡ false
            ) }
        ensures table { IfOk result (λ kept. kept.1.table ≡ self.table.shared.table_id) }
        ensures claims { IfOk result (λ kept. AreClaimed kept.1.dial callers.items) }
        ensures undialled { IfOk result (λ kept. AreUndialled callers.items → kept.1.dial ≡ 0) }
        ensures missing { IfErr result (λ error. IsMissing error self callers.items) }
        ensures enough { OnErr result (AreEnough callers.items → ⊥) }
    {
        let count = callers.len() as u64;
        if count == 0 || do_know_more(callers.as_slice(), count) {
            return Err(CloseError::Missing {
                shared: self,
                callers,
            });
        }
        Ok(self.close_all(callers, count))
    }

    /// Ends the sharing as `keep` does, and answers the session alone.
    pub fn close(self, callers: Vec<Caller>) -> Result<Session, CloseError>
        requires { Each (λ caller. caller.table ≡ self.table.shared.table_id) callers.items }
        ensures begins { IfOk result (λ session.
            Each (λ caller. IsPrefix caller.view.seen session.events) callers.items
            ) }
        ensures mine { IfOk result (λ session.
            (p : ℕ) → total (λ caller. times p caller.view.mine) callers.items
            ≡ below p (length session.events)
            ) }
        ensures shared { IfOk result (λ session.
            IsShared callers.items session.config session.word
            ) }
        ensures spent { IfOk result (λ session.
            MaySpend session.config session.word session.events session.failure
            ) }
        ensures all { OnOk result (
            do_know_more (length callers.items) callers.items ≡ false
            ) }
        ensures claims { OnOk result ((dial : ℕ) × AreClaimed dial callers.items) }
        ensures missing { IfErr result (λ error. IsMissing error self callers.items) }
        ensures enough { OnErr result (AreEnough callers.items → ⊥) }
    {
        match self.keep(callers) {
            Ok((session, keeper)) => {
                drop(keeper);
                Ok(session)
            }
            Err(error) => Err(error),
        }
    }
}
