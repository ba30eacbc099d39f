//! Tests of addresses, settings, setups and credentials, by public calls alone. What URLs are, and what setups say and come to, is
//! shown by the cases of tests/openings and tests/setup.
#![tactic(auto)]

#[cfg(test)]
mod addresses;
#[cfg(test)]
mod authentication;
#[cfg(test)]
mod settings;
