ghost use Rattle.std.specs.Prelude.{◌≡◌, IfOk};
ghost use Rattle.cluster_client.specs.Settings.{number_given, switch_given, library_given};
ghost use Rattle.cluster_client.specs.Settings.{overall_given, time_given, reads_given, map_given};

use crate::params::{AddressMap, OverallResponseTimeout};
use crate::settings::Reads;
use mux_routing::ReadStrategy;
use std::alloc::{AllocError, Global};

/// A number is given where it isn't the default.
pub(crate) fn number(default: u64, value: u64) -> Option<u64>
    ensures { result ≡ number_given default value }
{
    if value == default { None } else { Some(value) }
}

/// A count is given where it isn't the default.
pub(crate) fn count(default: u32, value: u32) -> Option<u32>
    ensures { result ≡ number_given default value }
{
    if value == default { None } else { Some(value) }
}

/// What is so is given.
pub(crate) fn switch(on: bool) -> Option<bool>
    ensures { result ≡ switch_given on }
{
    if on { Some(true) } else { None }
}

/// The library is left out where the first node's address leaves it out.
pub(crate) fn library(skips: bool) -> Option<bool>
    ensures { result ≡ library_given skips }
{
    if skips { Some(false) } else { None }
}

/// How long a request may take as a whole is given where that isn't how long a node may take to answer.
pub(crate) fn overall(response: Option<u64>, overall: Option<u64>) -> Option<OverallResponseTimeout>
    ensures { result ≡ overall_given response overall }
{
    if overall == response {
        None
    } else {
        Some(OverallResponseTimeout::Explicit(overall))
    }
}

/// A limit of time is given where there is one.
pub(crate) fn time(timeout: Option<u64>) -> Option<Option<u64>>
    ensures { result ≡ time_given timeout }
{
    match timeout {
        Some(timeout) => Some(Some(timeout)),
        None => None,
    }
}

/// Where reads go is given where that isn't the primary.
pub(crate) fn reads(strategy: Option<ReadStrategy>) -> Option<Reads>
    ensures { result ≡ reads_given strategy }
{
    match strategy? {
        ReadStrategy::Random => Some(Reads::Random),
        ReadStrategy::RoundRobin { next: _ } => Some(Reads::RoundRobin),
    }
}

/// Addresses in the place of others are given where there are any.
pub(crate) fn map(alloc: Global, pairs: &AddressMap) -> Result<Option<AddressMap>, AllocError>
    ensures { IfOk result (λ given. given ≡ map_given pairs.now) }
{
    if pairs.is_empty() {
        return Ok(None);
    }
    Ok(Some(pairs.clone(alloc)?))
}
