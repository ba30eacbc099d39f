//! The text of a trace: a line of words for each action.
#![tactic(auto)]

mod actions;
mod causes;
mod errors;
mod lines;
mod managers;
mod names;
mod outcomes;
mod scripts;
mod values;
mod words;
mod writer;

pub use actions::{append_action, append_actions, append_outcome, append_turn, show};
pub use scripts::{append_config, append_event};
