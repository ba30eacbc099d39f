//! Tests of values, of errors, of how the protocol is read and written, and of subscriptions, by public calls alone.
#![tactic(auto)]

#[cfg(test)]
mod arguments;
#[cfg(test)]
mod commands;
#[cfg(test)]
mod errors;
#[cfg(test)]
mod making;
#[cfg(test)]
mod reader;
#[cfg(test)]
mod threads;
#[cfg(test)]
mod tracking;
#[cfg(test)]
mod values;
