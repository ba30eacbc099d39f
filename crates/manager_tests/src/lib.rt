//! Tests of connection managers and of what they are made of, by public calls alone.
#![tactic(auto)]

#[cfg(test)]
mod acts;
#[cfg(test)]
mod asking;
#[cfg(test)]
mod delays;
#[cfg(test)]
mod like;
#[cfg(test)]
mod manager;
pub mod scripted;
#[cfg(test)]
mod settings;
#[cfg(test)]
mod threads;
#[cfg(test)]
mod turns;
