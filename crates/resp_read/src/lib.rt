//! Reads values of RESP from bytes that come in pieces.
#![tactic(auto)]

mod course;
mod decimals;
mod digits;
mod forms;
mod frames;
mod limits;
mod lines;
mod place;
mod reader;
mod scan;
mod stages;
mod takes;
mod tape;
mod underway;
mod waiting;
mod whole;

pub use limits::Limits;
pub use reader::{Health, ReadError, Reader};
pub use tape::{Steps, Tape};
