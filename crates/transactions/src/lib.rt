//! Transactions over whatever makes calls: keys are watched while a closure makes its calls, and where another client changed
//! one of them meanwhile it is tried again.
#![tactic(auto)]

mod call_error;
mod calls;
mod laws;
mod watching;

pub use call_error::CallError;
pub use calls::Calls;
pub use laws::{
    a_value_comes_after_unwatch, these_answers_end_a_turn, these_are_calls_of_several,
    these_are_the_commands, turns_without_calls_are_watch_and_unwatch,
};
pub use watching::transaction;
