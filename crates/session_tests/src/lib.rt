//! Tests of sessions, by public calls alone.
#![tactic(auto)]

#[cfg(test)]
mod events;
pub mod given;
#[cfg(test)]
mod pushes;
#[cfg(test)]
mod threads;
