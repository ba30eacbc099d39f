//! Drives a session over a world: the answers of its links, its timers and its words become the events of the session.
#![tactic(auto)]

mod agenda;
mod claims;
mod deeds;
mod driver;
mod ending;
mod links;
mod rooms;
mod running;
mod timers;
mod verdict;

pub use ending::Ending;
pub use running::drive;
