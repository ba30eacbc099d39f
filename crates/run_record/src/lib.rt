//! The record of a session: its history as the text of a script, which can be replayed.
#![tactic(auto)]

mod fits;
mod recording;
mod writing;

pub use recording::{RecordError, record};
