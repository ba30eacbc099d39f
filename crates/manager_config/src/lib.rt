//! How a connection manager behaves: the settings of its connections, how often and after which delays it connects anew, and
//! what of that is refused.
#![tactic(auto)]

mod backoff;
mod checks;
mod config;
mod connection;
mod laws;

pub use backoff::backoff_ms;
pub use config::ConnectionManagerConfig;
pub use laws::{
    a_config_is_taken_where_no_check_fails, a_delay_is_below_its_bound,
    no_delay_is_above_the_maximal_one, these_are_delays, these_are_refused,
    with_the_defaults_the_bound_doubles,
};
