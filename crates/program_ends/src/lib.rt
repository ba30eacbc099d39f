//! How a program ends: its status, its last line, and what a sink has of a text that it writes.
#![tactic(auto)]

mod lines;
mod printing;
mod status;
mod streaming;

pub use lines::{READ_FAULT, USAGE, push_config_line, push_line, push_number};
pub use printing::{PutError, print, put, refuse_script};
pub use status::Status;
pub use streaming::write_large;
