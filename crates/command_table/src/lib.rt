//! Where each command goes: the table of commands, and the route of one command.
#![tactic(auto)]

mod commands;
mod lookup;
mod part_command;
mod parts;
mod routes;
mod routing;
mod selection;

pub use commands::Form;
pub use lookup::form_of;
pub use routing::{
    KeyIndices, MultipleNodeRoutingInfo, ResponsePolicy, Route, RoutingInfo, SingleNodeRoutingInfo,
    SlotAddr, SlotParts,
};
pub use selection::command_for_multi_slot_indices;
