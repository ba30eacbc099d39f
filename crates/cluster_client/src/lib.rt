//! The client of a cluster: what it is built from, which of that is refused, and what a session of it is asked with.
#![tactic(auto)]

mod builder;
mod checks;
mod client;
mod config;
mod copies;
mod dialled;
mod given;
mod laws;
mod makers;
mod params;
mod settings;

pub use builder::ClusterClientBuilder;
pub use client::ClusterClient;
pub use config::ClusterConfig;
pub use laws::{
    nothing_is_refused_where_the_nodes_agree, what_is_not_set_is_told_of_the_first_node,
    what_is_set_is_told,
};
pub use params::{AddressMap, ClusterParams, OverallResponseTimeout};
pub use settings::{ClusterKind, ClusterSettings, Reads};
