//! A session over one connection: its state, and one turn for each event.
#![tactic(auto)]

mod core_state;
mod generations;
mod opening;
mod returning;
mod showing;
mod subscriptions;
mod turns;

pub use core_state::{Core, Single};
pub use generations::{Comeback, Generations};
pub use opening::{opened, show_opening};
pub use showing::{Done, show};
pub use subscriptions::{Call, Subscriptions};
pub use turns::{Rooms, make_turn};
