//! A session that several callers share, one turn each.
#![tactic(auto)]

mod board;
mod caller;
mod closing;
mod dial;
mod homes;
mod keeping;
mod pending;
mod plays;
mod session;
mod steps;
mod turn;

pub use board::{Board, Ended, Home, Origin, Place, Stage, View};
pub use caller::Caller;
pub use closing::CloseError;
pub use dial::{Claim, Dial};
pub use keeping::Keeper;
pub use pending::PendingSend;
pub use session::{JoinError, SharedSession};
