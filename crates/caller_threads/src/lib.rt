//! Lines that several callers of one session submit, each caller on a thread of its own.
#![tactic(auto)]

mod dealing;
mod gate;
mod gathering;
mod job;
mod running;
mod seating;
mod submit;
mod telling;

pub use gate::{Gate, OpenGate};
pub use job::{Job, Turn};
pub use submit::submit_lines;
