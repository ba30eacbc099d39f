//! A multiplexed connection as its user has it: many callers share one link, each request is sent, polled and, if need be,
//! cancelled, and whoever owns the link hands in what happens to it.
#![tactic(auto)]

mod act;
mod connection;
mod errors;
mod event;
mod examples;
mod like;
mod makers;
mod managers;
mod sending;
mod showing;
mod stepping;
mod subscribing;

pub use act::{ConnectionAct, ConnectionTimer};
pub use connection::MultiplexedConnection;
pub use errors::SendError;
pub use event::{ConnectionEvent, ConnectionNews};
pub use examples::{managers_behave_so_by_their_words, sessions_are_asked_with_these_words};
pub use like::{Connect, ConnectionLike};
pub use makers::ConnectionGetters;
pub use managers::ManagerGetters;
pub use mux_conn::{ConnectionError, Pending};
pub use showing::Answer;
