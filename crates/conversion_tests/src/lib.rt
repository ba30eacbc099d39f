//! Tests of texts of values, and of what they become as types, by public calls alone.
#![tactic(auto)]

#[cfg(test)]
mod aggregates;
#[cfg(test)]
mod numbers;
#[cfg(test)]
mod rows;
#[cfg(test)]
mod texts;
