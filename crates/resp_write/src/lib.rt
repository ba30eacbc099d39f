//! Commands as bytes, and the canonical text of values.
#![tactic(auto)]

mod argument_lists;
mod arguments;
mod command;
mod lines;
mod lists;
mod named;
mod pack;
mod parts;
mod pipeline;
mod subscription;
mod value_text;

pub use argument_lists::SliceElement;
pub use arguments::ToRedisArgs;
pub use command::{ArgsIter, Cmd};
pub use lists::pack_lists;
pub use named::cmd;
pub use pack::{pack_call, pack_names};
pub use pipeline::{CmdIter, Pipeline, pipe};
pub use subscription::SubscriptionAction;
pub use value_text::{canonical_text, list_text, write_value};
