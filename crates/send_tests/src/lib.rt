//! Tests of sends that are polled and waited for, by public calls alone.
#![tactic(auto)]

#[cfg(test)]
mod sends;
#[cfg(test)]
mod waits;
