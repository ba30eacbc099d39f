//! The slot of a key, and the addresses of nodes.
#![tactic(auto)]

mod address;
mod address_order;
mod reading;
mod slot;
mod table;

pub use address::{AddressError, NodeAddress};
pub use reading::is_text;
pub use slot::key_slot;
