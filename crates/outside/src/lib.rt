//! Where a program's bytes come from and go to: sources, sinks and the world of its links.
#![tactic(auto)]

mod call_log;
mod dialing;
mod fault_count;
mod fault_of;
mod feeding;
mod mem_world;
mod memory;
mod net_world;
mod sink;
mod source;
mod standard;
mod streams;
mod sure;
mod unread;
mod whole;
mod world;

pub use feeding::{Fed, Feed, FeedError, feed_all};
pub use mem_world::{MemWorld, WorldScript};
pub use memory::{MemSink, MemSource};
pub use net_world::NetWorld;
pub use sink::{Put, Sink, write_all};
pub use source::{Got, Source};
pub use standard::{StdSink, StdSource, standard_input, standard_output};
pub use sure::{SureSink, SureSource};
pub use whole::{ReadAllError, read_all};
pub use world::{Call, Dialed, LinkGot, LinkPut, World};
