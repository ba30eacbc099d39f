//! Where a cluster's commands go: addresses, slots and the routes of commands, and the map of a server's slots.
#![tactic(auto)]

mod addresses;
mod overlay;
mod parsing;
mod pipeline;
mod push_range;
mod range_table;
mod route_address;
mod row_ranges;
mod rows;
mod shard;
mod slot_map;
mod steps;
mod strategy;

pub use command_table::{
    KeyIndices, MultipleNodeRoutingInfo, ResponsePolicy, Route, RoutingInfo, SingleNodeRoutingInfo,
    SlotAddr, SlotParts, command_for_multi_slot_indices,
};
pub use parsing::parse_slots;
pub use pipeline::{PipelineRoute, RouteError, route_for_pipeline, route_with_draw};
pub use range_table::{RangeTable, SlotRange};
pub use rows::{SlotRow, SlotRows, SlotsError};
pub use slot_hash::{AddressError, NodeAddress, key_slot};
pub use slot_map::{NodeIndex, SlotMap};
pub use steps::Steps;
pub use strategy::{ReadRoutingStrategy, ReadStrategy};
