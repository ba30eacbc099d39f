//! A connection manager: a connection that comes back. Where its link is lost it connects anew, in several attempts if need be,
//! and subscribes again what was subscribed. It opens nothing itself: whoever owns it hands in what happens, and does what its
//! steps show.
#![tactic(auto)]

mod answering;
mod effects;
mod examples;
mod hearing;
mod laws;
mod like;
mod makers;
mod manager;
mod request;
mod rounds;
mod sending;
mod stepping;
mod subscribing;

pub use examples::these_runs_show_this;
pub use laws::{
    a_number_is_given_to_one_request, a_request_is_answered_once, a_request_is_handed_to_one_link,
    an_event_of_an_older_link_changes_nothing, turns_move_generations_by_their_causes,
    what_is_subscribed_again_is_what_is_subscribed, whoever_waits_was_told_for_what,
};
pub use manager::ConnectionManager;
pub use manager_config::{ConnectionManagerConfig, backoff_ms};
pub use manager_generations::{Generations, ManagerAct, ManagerTimer, Phase, Settings};
pub use mux_client::{ConnectionEvent, ConnectionLike, ConnectionNews, ManagerGetters, SendError};
pub use mux_conn::{ConnectionError, Pending};
pub use request::{Call, HeldRequest, Stage};
pub use transactions::{CallError, Calls, transaction};
