ghost use Rattle.std.specs.Prelude.{◌≡◌, ◌≢◌, ◌<◌, Some, IfOk, IfErr, OnOk, option_map};
ghost use Rattle.connection_setup.specs.Permits.{most_permits, RefusesLimit};

use redis_error::{ConfigName, RedisError};

/// How many permits a connection has, at least one.
#[derive(Clone, Copy, Debug, PartialEq, Eq)]
pub struct ConcurrencyLimiter {
    limit: u32,
    pub ghost positive: { 0 < limit },
}

impl ConcurrencyLimiter {
    ghost use Rattle.std.specs.Prelude.{◌≡◌};

    /// How many permits there are.
    pub fn limit(self) -> u32
        ensures { result ≡ self.limit }
    {
        self.limit
    }
}

/// The limiter of a limit, none where there is no limit. A limit of 0 is refused.
pub fn build_concurrency_limiter(
    limit: Option<u32>,
) -> Result<Option<ConcurrencyLimiter>, RedisError>
    ensures value { IfOk result (λ limiter. option_map (λ l. l.limit) limiter ≡ limit) }
    ensures ok { OnOk result (limit ≢ Some 0) }
    ensures err { IfErr result (RefusesLimit limit) }
{
    match limit {
        Some(limit) => {
            if limit == 0 {
                return Err(RedisError::Config {
                    name: ConfigName::Limit,
                });
            }
            Ok(Some(ConcurrencyLimiter { limit }))
        }
        None => Ok(None),
    }
}

/// The most permits that a pipeline of so many commands takes: one for each command, at least one, and no more than
/// there are.
pub fn permit_vec_capacity(count: u32, limit: u32) -> u32
    ensures { result ≡ most_permits count limit }
{
    count.min(limit).max(1)
}
