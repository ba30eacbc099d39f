//! The plan of a recovery of a cluster's links and slots, and of a repair of one link: what is asked next, and what
//! becomes of the map of links, by the asks that were answered.
#![tactic(auto)]

mod asks;
mod connections;
mod connects;
mod entry_order;
mod heard;
mod last_part;
mod laws;
mod passes;
mod progress;
mod recovery;
mod recovery_kind;
mod repair;
mod state;
mod step;

pub use asks::{Answer, Ask, Part, Request};
pub use connections::{ConnState, ConnectionMap, NodeEntry};
pub use connects::{InitialConnects, InitialEnd};
pub use laws::{
    a_plan_ends_or_asks, a_reconnect_asks_each_initial_address,
    a_recovery_ends_with_rows_that_were_told, a_repair_makes_one_attempt_after_another,
    each_ask_is_given_once, links_that_failed_end_no_refresh, what_has_ended_stays_ended,
    what_is_asked_for_stays_so,
};
pub use progress::{Progress, Tried};
pub use recovery::{Recovery, RecoveryEnd};
pub use recovery_kind::{Failure, RecoveryKind};
pub use repair::{Repair, RepairStep};
