//! What a session is told and what it asks: configurations, submissions, events and actions.
#![tactic(auto)]

mod action;
mod commands;
mod config;
mod config_words;
mod event;
mod hearing;
mod kind;
mod making;
mod msg;
mod news;
mod outcome;
mod push_info;
mod request;
mod setup;
mod verdicts;

pub use action::{Action, Cause, Owner, Purpose, SourceUse, WaitKind};
pub use commands::Commands;
pub use config::Config;
pub use config_words::{AddressWords, ConnectionWords, ManagerWords};
pub use event::{Event, EventKind, Submission};
pub use hearing::{Hearing, Notice};
pub use kind::SessionKind;
pub use msg::Msg;
pub use news::{LinkEvent, LinkFault, LinkNews};
pub use outcome::{Outcome, Shape, Verdict};
pub use push_info::PushInfo;
pub use setup::{says_nothing, setup_bytes, setup_shape};
