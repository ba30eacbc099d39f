//! Links that only listen: publish/subscribe, whose messages are a stream beside the subscription calls, and monitor mode, whose
//! stream has what the server tells.
#![tactic(auto)]

mod held;
mod messages;
mod monitor;
mod monitor_stream;
mod ping;
mod pubsub;
mod sink;
mod sorting;
mod stream;

pub use driver_model::Msg;
pub use held::{Held, Next};
pub use messages::PubSubMessages;
pub use monitor::Monitor;
pub use monitor_stream::{MonitorMessages, MonitorStream};
pub use mux_client::{ConnectionAct, ConnectionError, Pending, SendError};
pub use ping::ping_answer;
pub use pubsub::PubSub;
pub use sink::PubSubSink;
pub use stream::PubSubStream;
