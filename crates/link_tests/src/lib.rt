//! Tests of submissions, events and links, by public calls alone.
#![tactic(auto)]

#[cfg(test)]
mod configurations;
#[cfg(test)]
mod deliveries;
#[cfg(test)]
mod driving;
#[cfg(test)]
mod events;
#[cfg(test)]
mod requests;
