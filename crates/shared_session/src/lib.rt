//! A session: its history of events, and the state that this history leads to.
#![tactic(auto)]

mod errors;
mod replaying;
mod session;

pub use errors::{MakeError, ReplayError, StepError};
pub use session::{Failure, Session};
