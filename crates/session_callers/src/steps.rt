//! The steps of one call.
ghost use Rattle.std.specs.Prelude.{◌≡◌, ℕ, ◌+◌, ◌%◌, ◌^◌, ◌<◌, ◌≤◌, [], ◌∷◌, Some, None, length};
ghost use mathlib.Core.List.{IsPrefix};
ghost use mathlib.Core.Option.{none};
ghost use Rattle.atomic_table.specs.Table.{step};
ghost use Rattle.session_callers.specs.declared.board.Stage.TheVariants.{Idle, Waiting, Served, Holding, Split};
ghost use Rattle.session_callers.specs.Rule.{history, submissions_in, MayGive, MaySpend, dialled, ticket_of, waiting, served, given, joined, left_of, right_of, rest_of, one_of};
ghost use Rattle.session_callers.specs.Calls.{IsAt, IsSame};

use crate::board::{Board, Home, Place};
use crate::caller::Caller;
use crate::plays::{Dealt, Dialled, Draw, Ends, Give, Look, Made, Raise, Take};
use std::sync::Wait;
use std::thread;

// Draws a ticket.
pub fn draw(board: &Board, seat: &mut Place) -> u64
    requires at { IsAt board.now.table_id seat.old }
    requires idle { (seat.old.me.0.stage ≡ Idle) × (length seat.old.me.0.number ≡ 1) }
    ensures same { IsSame seat.old seat.new }
    ensures drew { (t : ℕ) × (result ≡ t % 2 ^ 64)
        × (seat.new.me ≡ (waiting seat.old.me.0 t, seat.old.me.1)) }
{
    board.fetch_add::<Draw>(seat, 0, 1)
}

// Waits until the ticket is served.
pub fn wait<R: Wait>(rt: &R, board: &Board, seat: &mut Place, ticket: u64)
    requires at { IsAt board.now.table_id seat.old }
    requires drew { (t : ℕ) × (ticket ≡ t % 2 ^ 64) × (seat.old.me.0.stage ≡ Waiting t) }
    ensures same { IsSame seat.old seat.new }
    ensures served { (seen : _) × (failure : _) × (made : ℕ) × IsPrefix seat.old.me.0.seen seen
        × (seat.new.me ≡ (served seat.old.me.0 seen failure made, seat.old.me.1)) }
{
    for _ in rt.forever() {
        if board.load::<Look>(seat, 1) == ticket {
            return;
        }
        thread::yield_now();
    }
    unreachable!()
}

// Takes the session out.
pub fn take(board: &Board, seat: &mut Place) -> Home
    requires at { IsAt board.now.table_id seat.old }
    requires served { (t : ℕ) × (seat.old.me.0.stage ≡ Served t) }
    requires nothing { seat.old.me.1 ≡ [] }
    ensures same { IsSame seat.old seat.new }
    ensures holding { seat.new.me
        ≡ (
          record seat.old.me.0 { stage = Holding (ticket_of seat.old.me.0.stage) },
          (0, None) ∷ [],
        ) }
    ensures session { (result.session
        ≡ history seat.old.me.0.config seat.old.me.0.word seat.old.me.0.seen seat.old.me.0.failure)
        × (result.made ≡ seat.old.me.0.made)
        × (result.submissions ≡ submissions_in seat.old.me.0.seen) }
    ensures spent { MaySpend seat.old.me.0.config seat.old.me.0.word
        seat.old.me.0.seen seat.old.me.0.failure
        × (seat.old.me.0.made ≤ seat.old.me.0.most) }
{
    board.load::<Take>(seat, 0);
    board.exchange(seat, 0, None).unwrap()
}

// Gives the session back, with one event more or as many.
pub fn give(board: &Board, seat: &mut Place, home: Home)
    requires at { IsAt board.now.table_id seat.old }
    requires holding { (t : ℕ) × (seat.old.me.0.stage ≡ Holding t)
        × (seat.old.me.1 ≡ (0, None) ∷ []) }
    requires grows { MayGive seat.old.me.0 home }
    ensures same { IsSame seat.old seat.new }
    ensures given { seat.new.me ≡ (given seat.old.me.0 home, []) }
{
    let None = board.exchange(seat, 0, Some(home)) else {
        unreachable!()
    };
    board.load::<Give>(seat, 0);
}

// The same, after a split.
pub fn give_made(board: &Board, seat: &mut Place, home: Home)
    requires at { IsAt board.now.table_id seat.old }
    requires holding { (t : ℕ) × (seat.old.me.0.stage ≡ Split t)
        × (seat.old.me.1 ≡ (0, None) ∷ []) }
    requires grows { MayGive seat.old.me.0 home }
    ensures same { IsSame seat.old seat.new }
    ensures given { seat.new.me ≡ (given seat.old.me.0 home, []) }
{
    let None = board.exchange(seat, 0, Some(home)) else {
        unreachable!()
    };
    board.load::<Give>(seat, 0);
}

// Lets the next ticket be served.
pub fn raise(board: &Board, seat: &mut Place)
    requires at { IsAt board.now.table_id seat.old }
    requires served { (t : ℕ) × (seat.old.me.0.stage ≡ Served t) }
    ensures same { IsSame seat.old seat.new }
    ensures idle { seat.new.me ≡ (record seat.old.me.0 { stage = Idle }, seat.old.me.1) }
{
    board.fetch_add::<Raise>(seat, 1, 1);
}

// A seat for a new caller.
pub fn split(board: &Board, seat: &mut Place) -> Place
    requires at { IsAt board.now.table_id seat.old }
    requires holding { (t : ℕ) × (seat.old.me.0.stage ≡ Holding t) }
    requires room { seat.old.me.0.made + 1 ≤ seat.old.me.0.most }
    ensures same { IsSame seat.old seat.new }
    ensures left { seat.new.me ≡ (left_of seat.old.me.0, seat.old.me.1) }
    ensures right { (result.table_id ≡ seat.old.table_id)
        × (result.me ≡ (right_of seat.old.me.0, [])) }
{
    board.split_seat::<Made>(seat)
}

// A seat for the first of several callers that were made with their session.
pub fn deal(board: &Board, seat: &mut Place) -> Place
    requires at { IsAt board.now.table_id seat.old }
    requires idle { seat.old.me.0.stage ≡ Idle }
    requires several { 2 ≤ length seat.old.me.0.number }
    ensures same { IsSame seat.old seat.new }
    ensures left { seat.new.me ≡ (rest_of seat.old.me.0, seat.old.me.1) }
    ensures right { (result.table_id ≡ seat.old.table_id)
        × (result.me ≡ (one_of seat.old.me.0, [])) }
{
    board.split_seat::<Dealt>(seat)
}

// Reads the dial, and claims the next number where it is g.
pub fn dial(board: &Board, seat: &mut Place, g: u64) -> u64
    requires at { IsAt board.now.table_id seat.old }
    requires caller { length seat.old.me.0.number ≡ 1 }
    requires room { g + 1 < 2 ^ 64 }
    ensures same { IsSame seat.old seat.new }
    ensures dialled { dialled (step 1 2 g (g + 1) none) seat.old.me result seat.new.me }
{
    board.compare_exchange::<Dialled>(seat, 2, g, g + 1)
}

// Takes in a caller's seat.
pub fn merge(board: &Board, seat: &mut Place, other: Caller)
    requires at { IsAt board.now.table_id seat.old × (other.table ≡ board.now.table_id) }
    requires idle { (seat.old.me.0.stage ≡ Idle) × (1 ≤ length seat.old.me.0.number) }
    ensures same { IsSame seat.old seat.new }
    ensures joined { seat.new.me ≡ (joined seat.old.me.0 other.view, seat.old.me.1) }
    ensures other { ((k : ℕ) × (other.view.number ≡ k ∷ [])) × (other.view.ended ≡ [])
        × (other.view.stage ≡ Idle) }
{
    let Caller {
        seat: theirs,
        front: _,
        generation: _,
        number: _,
        made: _,
        most: _,
    } = other;
    board.join_seat::<Ends>(seat, theirs);
}
