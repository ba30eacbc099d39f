//! Examples of the protocol and of its connections, each with the proof: what definitions say of texts, keys, commands and errors,
//! of addresses and setups, and of credentials and their renewal.
#![tactic(auto)]

mod commands;
mod connections;
mod converting;
mod errors;
mod lines;
mod reading;
mod renewals;
mod routing;
mod tracking;
mod values;

pub use commands::commands_have_these_bytes;
pub use connections::{
    these_are_addresses, these_are_judged, these_are_none, these_are_setups, these_are_written,
};
pub use converting::values_are_these;
pub use errors::{
    errors_have_these_words, errors_tell_how_to_go_on, faults_have_these_names,
    redirects_lead_there,
};
pub use lines::{actions_have_these_lines, lines_tell_these_events};
pub use reading::{
    a_hundred_aggregates_nest, lengths_have_limits, no_other_byte_begins_a_value,
    these_texts_are_malformed, these_texts_are_not_whole, these_texts_are_values,
};
pub use renewals::{these_are_renewed, these_are_told};
pub use routing::{
    commands_have_these_routes, keys_have_these_slots, names_have_these_routes,
    pipelines_have_these_routes, replies_tell_these_rows, these_texts_are_addresses,
};
pub use tracking::{resubscribing_gives_the_same_names, these_names_are_subscribed};
pub use values::{pushes_have_these_kinds, values_have_these_texts};
