//! A live run: the words that ask for one, the lines that its callers submit, the run, and what is written of it.
#![tactic(auto)]

mod flying;
mod outcomes;
mod planning;
mod reading;
mod refusing;
mod whole_run;

pub use flying::{Flight, FlightError, fly};
pub use live_run::Ending;
pub use outcomes::write_outcomes;
pub use planning::{Plan, dial_limit, plan_of};
pub use reading::{Refusal, flight_of};
pub use refusing::refuse;
pub use whole_run::live;
