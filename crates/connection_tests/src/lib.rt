//! Tests of connections that many callers share, by public calls alone.
#![tactic(auto)]

pub mod acts;
#[cfg(test)]
mod calls;
#[cfg(test)]
mod clients;
pub mod servers;
#[cfg(test)]
mod threads;
