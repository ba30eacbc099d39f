//! Values of RESP as Rust's own types. A value that isn't of the type is given back.
#![tactic(auto)]

mod aggregates;
mod convert;
mod floats;
mod integers;
mod laws;
mod parts;
mod scalars;
mod sets;
mod texts;
mod tuples;

pub use aggregates::KeyValues;
pub use convert::{ConvertError, FromRedisValue, Look};
pub use laws::written_numbers_are_read_back;
