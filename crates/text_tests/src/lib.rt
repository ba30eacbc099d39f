//! Tests of the lines of configurations in scripts, by public calls alone.
#![tactic(auto)]

#[cfg(test)]
mod configurations;
