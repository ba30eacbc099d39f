//! What each call begins and ends with.
ghost use Rattle.std.specs.Prelude.{◌≡◌, ℕ, ◌+◌, ◌^◌, ◌<◌, ◌≤◌, [], ◌∷◌, Some, None, length};
ghost use Rattle.session_callers.specs.declared.board.Stage.TheVariants.{Idle, Waiting, Served, Holding, Split};
ghost use Rattle.session_callers.specs.Rule.{MayGive, given};
ghost use Rattle.session_callers.specs.Calls.{IsAt, IsSame, IsIdle, Took};

use crate::board::{Board, Home, Place};
use crate::steps::{draw, give, give_made, raise, take, wait};
use std::sync::Wait;

// Waits for its turn, and takes the session out.
pub fn begin<R: Wait>(rt: &R, board: &Board, seat: &mut Place) -> Home
    requires at { IsAt board.now.table_id seat.old }
    requires idle { IsIdle seat.old }
    ensures same { IsSame seat.old seat.new }
    ensures took { Took seat.old.me.0 seat.new.me.0 result × (seat.new.me.1 ≡ (0, None) ∷ []) }
{
    let ticket = draw(board, seat);
    wait(rt, board, seat, ticket);
    take(board, seat)
}

// Gives the session back, and lets the next one have its turn.
pub fn end(board: &Board, seat: &mut Place, home: Home)
    requires at { IsAt board.now.table_id seat.old }
    requires holding { (t : ℕ) × (seat.old.me.0.stage ≡ Holding t)
        × (seat.old.me.1 ≡ (0, None) ∷ []) }
    requires grows { MayGive seat.old.me.0 home }
    ensures same { IsSame seat.old seat.new }
    ensures given { seat.new.me ≡ (record (given seat.old.me.0 home) { stage = Idle }, []) }
{
    give(board, seat, home);
    raise(board, seat);
}

// The same, after a split.
pub fn end_made(board: &Board, seat: &mut Place, home: Home)
    requires at { IsAt board.now.table_id seat.old }
    requires holding { (t : ℕ) × (seat.old.me.0.stage ≡ Split t)
        × (seat.old.me.1 ≡ (0, None) ∷ []) }
    requires grows { MayGive seat.old.me.0 home }
    ensures same { IsSame seat.old seat.new }
    ensures given { seat.new.me ≡ (record (given seat.old.me.0 home) { stage = Idle }, []) }
{
    give_made(board, seat, home);
    raise(board, seat);
}
