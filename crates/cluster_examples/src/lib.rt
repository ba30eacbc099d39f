//! Examples of a cluster's client, each with the proof: what its definitions say of clients and the words of their sessions, of
//! retries, waits, actions and routes, of plans of recoveries and of repairs, of where tries go, and of results of several nodes
//! that become one.
#![tactic(auto)]

mod choices;
mod clients;
mod folds;
mod plans;
mod retries;
mod turns;

pub use choices::{
    a_slot_takes_its_node, other_routes_go_so, others_stand_in, parts_go_so,
    replicas_are_picked_in_turn,
};
pub use clients::{
    a_request_may_take_so_long, sessions_are_asked_with_these_words, these_clients_are_built,
    these_clients_are_refused, this_is_said_to_every_node,
};
pub use folds::{these_parts_decide, these_values_go_together};
pub use plans::{failures_are_in_order, reconnects_go_so, refreshes_go_so, repairs_go_so};
pub use retries::{
    actions_become_these, ends_of_rounds_are_followed_so, redirects_lead_these_requests,
    requests_go_there, so_many_rounds_are_tried_again, waits_are_these,
};
pub use turns::repair_turns;
