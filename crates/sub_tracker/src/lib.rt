//! What is subscribed after a list of commands, and the pipeline that subscribes it again.
#![tactic(auto)]

mod laws;
mod name_set;
mod tracker;

pub use laws::{one_pipeline_resubscribes, the_last_command_decides};
pub use resp_write::SubscriptionAction;
pub use tracker::SubscriptionTracker;
