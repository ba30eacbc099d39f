//! How a request of a cluster is tried again: what follows the end of each of its rounds, how long it waits, what is repaired
//! before, and where it goes then.
#![tactic(auto)]

mod address_set;
mod choosing;
mod cmd_arg;
mod laws;
mod poll_flush_action;
mod request_routing;
mod retry_params;
mod round_end;

pub use address_set::AddressSet;
pub use choosing::{Chosen, Next, RecoveryAction, choose_response};
pub use cmd_arg::CmdArg;
pub use laws::{
    a_fan_out_answers_its_errors, a_redirect_holds_until_a_reset,
    a_reset_leaves_no_redirect_and_no_link, a_value_is_followed_by_no_round,
    actions_join_in_any_order, no_node_is_forgotten, no_row_contradicts_itself,
    redirects_of_a_node_are_followed, waits_stay_between_their_bounds,
    without_retries_the_action_stays,
};
pub use poll_flush_action::PollFlushAction;
pub use request_routing::{
    InternalRoutingInfo, InternalSingleNodeRouting, Redirect, SingleNodeRoute,
};
pub use resp_value::Redirection;
pub use retry_params::{RetryParams, cluster_retry_wait_upper_ms};
pub use round_end::{EndError, OperationTarget, RoundEnd};
