//! The script of a number of rounds: what a session makes of it, in one line.
#![tactic(auto)]

mod generating;
mod lines;
mod summary;

pub use generating::generate;
pub use summary::Summary;
