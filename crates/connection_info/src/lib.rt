//! Where a server is and how a connection to it behaves: addresses, which URLs give, and the settings of a connection.
#![tactic(auto)]

mod address;
mod client;
mod config;
mod credential;
mod host;
mod into_address;
mod open_error;
mod path;
mod protocol;
mod query;
mod read_url;
mod write_url;

pub use address::{ConnectionInfo, RedisConnectionInfo};
pub use client::Client;
pub use config::AsyncConnectionConfig;
pub use into_address::IntoConnectionInfo;
pub use open_error::OpenError;
pub use protocol::ProtocolVersion;
