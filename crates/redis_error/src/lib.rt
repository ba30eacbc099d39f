//! The errors of a client, what they are about, and how their requests are tried again.
#![tactic(auto)]

mod config_name;
mod error_kind;
mod fault_kind;
mod redis_error;

pub use config_name::ConfigName;
pub use error_kind::ErrorKind;
pub use fault_kind::FaultKind;
pub use redis_error::{RedisError, RouteNumbers};
