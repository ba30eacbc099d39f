//! What is said to a server before the first request, what its replies mean, and how many requests a connection holds.
#![tactic(auto)]

mod judgement;
mod meaning;
mod messages;
mod permits;
mod phrase;

pub use judgement::{SetupResult, check_setup};
pub use messages::setup_messages;
pub use permits::{ConcurrencyLimiter, build_concurrency_limiter, permit_vec_capacity};
