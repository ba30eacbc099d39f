ghost use Rattle.std.specs.Prelude.{◌≡◌, ◌<◌, ◌-◌, ◌^◌};
ghost use Rattle.cluster_retries.specs.Waits.{base_wait, wait_of, wait_upper};

/// How often a request is tried again, and how long it waits before.
#[derive(Clone, Copy, Debug, PartialEq, Eq)]
pub struct RetryParams {
    /// How often it is tried again.
    pub number_of_retries: u32,
    /// The least wait, in milliseconds.
    pub min_wait: u64,
    /// The greatest wait, in milliseconds.
    pub max_wait: u64,
    /// The base wait before retry 0, in milliseconds.
    pub factor: u64,
    /// By what the base wait grows with each retry.
    pub exponent_base: u64,
}

impl Default for RetryParams {
    ghost use Rattle.std.specs.Prelude.{◌≡◌};
    ghost use Rattle.cluster_retries.specs.Waits.{default_params};

    ghost is_default = { λ params. params ≡ default_params };

    /// 16 retries. The base wait begins with 10 milliseconds and doubles, the least wait is 1,280 milliseconds, and the greatest
    /// 655,360.
    fn default() -> Self {
        RetryParams {
            number_of_retries: 16,
            min_wait: 1_280,
            max_wait: 655_360,
            factor: 10,
            exponent_base: 2,
        }
    }
}

/// What a wait stays below, in milliseconds: the base wait, but one more than the least wait at least, and then the greatest wait at
/// most. Where that isn't above the least wait it is one more than the least wait. Sums stop at 2^64 - 1.
pub fn cluster_retry_wait_upper_ms(base: u64, min_wait: u64, max_wait: u64) -> u64
    ensures is { result ≡ wait_upper base min_wait max_wait }
    ensures exceeds { min_wait < 2 ^ 64 - 1 → min_wait < result }
{
    let above = min_wait.saturating_add(1);
    let clamped = base.max(above).min(max_wait);
    if clamped > min_wait { clamped } else { above }
}

impl RetryParams {
    /// The base wait before a retry of this number, in milliseconds, which is 2^64 - 1 at most.
    fn base_wait(&self, retry: u32) -> u64
        ensures { result ≡ base_wait self.now retry }
    {
        self.exponent_base
            .saturating_pow(retry)
            .saturating_mul(self.factor)
    }

    /// How long a request waits before the retry of this number, in milliseconds, by this draw: at least the least wait, and, where
    /// that isn't 2^64 - 1, less than `cluster_retry_wait_upper_ms` of the base wait.
    pub fn wait_time_for_retry(&self, retry: u32, draw: u64) -> u64
        ensures { result ≡ wait_of self.now retry draw }
    {
        if self.min_wait == u64::MAX {
            return self.min_wait;
        }
        let base = self.base_wait(retry);
        let upper = cluster_retry_wait_upper_ms(base, self.min_wait, self.max_wait);
        self.min_wait + draw % (upper - self.min_wait)
    }
}
