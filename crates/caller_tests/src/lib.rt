//! Tests of callers that share a session, by public calls alone.
#![tactic(auto)]

#[cfg(test)]
mod callers;
pub mod given;
#[cfg(test)]
mod meetings;
