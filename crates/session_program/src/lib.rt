//! All that `session_tool` does: it replays a script of events for one multiplexed connection, and writes the trace; makes a
//! script, and writes what is counted in its trace; or makes a live run, and writes the outcomes.
#![tactic(auto)]

mod bad;
mod command;
mod counting;
mod generating;
mod lines;
mod noting;
mod offer;
mod reading;
mod replaying;
mod rounds;
mod running;

pub use command::Command;
pub use lines::help_text;
pub use reading::{ReadError, read_text};
pub use running::{dial_limit, run, run_alone};
