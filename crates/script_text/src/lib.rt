//! The text of scripts: a line with the configuration, a line for each event, and a last line `end`.
//!
//! Lines end with LF, and one space stands between two words. In a word `%` and two hexadecimal digits are a byte, and
//! `%-` is the word of no bytes. Words are compared once they are read so. `;` as a word of its own separates commands.
#![tactic(auto)]

mod config_fault;
mod config_line;
mod draw;
mod event_fault;
mod event_line;
mod explain;
mod fault;
mod intake;
mod line;
mod number;
mod reason;
mod script;
mod submissions;
mod word;
mod words;

pub use explain::explain_line;
pub use intake::Intake;
pub use script::{Script, ScriptError, read_script};
pub use submissions::{read_config, read_lines};
