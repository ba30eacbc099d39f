//! Tests of links that only listen, by public calls alone.
#![tactic(auto)]

#[cfg(test)]
mod messages;
#[cfg(test)]
mod monitors;
#[cfg(test)]
mod pings;
#[cfg(test)]
mod streams;
#[cfg(test)]
mod threads;
#[cfg(test)]
mod told;
