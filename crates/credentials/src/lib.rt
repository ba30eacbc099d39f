//! Credentials: who authenticates and by what, when they are renewed, where new ones come from, and what the server is told.
#![tactic(auto)]

mod basic_auth;
mod message;
mod refresh;
mod retry;
mod streaming;
mod threshold;

pub use basic_auth::BasicAuth;
pub use message::auth_message;
pub use refresh::TokenRefreshConfig;
pub use retry::RetryConfig;
pub use streaming::{CredsItem, CredsSource, StreamingCredentialsProvider};
pub use threshold::refresh_threshold;
