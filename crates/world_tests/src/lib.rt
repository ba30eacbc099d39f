//! Tests of worlds, in memory and over sockets, by public calls alone.
#![tactic(auto)]

pub mod given;
#[cfg(test)]
mod network;
#[cfg(test)]
mod worlds;
