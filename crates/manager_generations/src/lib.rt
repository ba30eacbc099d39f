//! The generations of a connection manager: how one follows another, and how each makes its attempts to connect. Beside them
//! stand the acts of a manager, by which they show what is to be done.
#![tactic(auto)]

mod act;
mod generations;
mod laws;
mod phase;
mod settings;

pub use act::{ManagerAct, ManagerTimer};
pub use generations::Generations;
pub use laws::{
    a_generation_is_replaced_by_its_causes_alone, each_wait_goes_by_its_attempt_and_its_word,
    nothing_begins_behind_a_shutdown_or_a_failed_creation,
};
pub use phase::Phase;
pub use settings::Settings;
