ghost use Rattle.std.specs.Prelude.{◌≡◌, ◌<◌, ℕ};
ghost use Rattle.manager_config.specs.Backoff.{grown, delay_bound, backoff};

use crate::config::ConnectionManagerConfig;

/// What a bound of delays grows to: times this fraction, rounded down, and 2^64 - 1 at most.
fn grow(bound: u64, numerator: u32, denominator: u32) -> u64
    requires { 0 < denominator }
    ensures { result ≡ grown (numerator, denominator) bound }
{
    let more = u128::from(bound) * u128::from(numerator) / u128::from(denominator);
    more.min(u128::from(u64::MAX)) as u64
}

/// Below how many milliseconds the delay after attempt `n` lies, where that is above 0.
fn bound_after(config: &ConnectionManagerConfig, n: u32) -> u64
    requires { 0 < config.now.exponent_base.1 }
    ensures { result ≡ delay_bound config.now n }
{
    let (numerator, denominator) = config.exponent_base;
    let mut bound = config.min_delay;
    for _attempt in 0..n {
        let next = grow(bound, numerator, denominator);
        if next == bound {
            return bound;
        }
        bound = next;
    }
    bound
}

/// How many milliseconds a manager waits after attempt `n` to connect has failed, counted from 0, and before the next one,
/// where this word was drawn. The bound of the delay is the minimal delay after attempt 0, and after each further one that
/// before it times the fraction, rounded down, 2^64 - 1 at most. The delay is the remainder of the word by the bound, or 0
/// where the bound is 0, and the maximal delay where there is one and the remainder is above it. Takes no memory.
pub fn backoff_ms(config: &ConnectionManagerConfig, n: u32, draw: u64) -> u64
    requires { 0 < config.now.exponent_base.1 }
    ensures { result ≡ backoff config.now n draw }
{
    let delay = draw % bound_after(config, n).max(1);
    match config.max_delay {
        None => delay,
        Some(most) => most.min(delay),
    }
}
