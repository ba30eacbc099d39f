//! Tests of what a cluster's client decides, by public calls alone: the client and its builder, what follows the end of a try,
//! recoveries, where tries go, and results of several nodes.
#![tactic(auto)]

#[cfg(test)]
mod choice;
#[cfg(test)]
mod client;
#[cfg(test)]
mod fan_outs;
#[cfg(test)]
mod nodes;
#[cfg(test)]
mod recoveries;
#[cfg(test)]
mod retries;
