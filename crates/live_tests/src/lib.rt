//! Tests of live runs and of their records, by public calls alone.
#![tactic(auto)]

#[cfg(test)]
mod given;
#[cfg(test)]
mod plans;
#[cfg(test)]
mod records;
#[cfg(test)]
mod runs;
