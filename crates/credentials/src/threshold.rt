ghost use Rattle.std.specs.Prelude.{◌≡◌, ◌<◌};
ghost use Rattle.credentials.specs.Threshold.{refresh_threshold};

/// How long after they were received credentials are renewed: the part `numerator / denominator` of the time from
/// `received` to `expires`, rounded down, in the unit of the two. It is 2^64 - 1 where that is more. None exactly where they
/// had expired before they were received.
pub fn refresh_threshold(
    received: u64,
    expires: u64,
    numerator: u32,
    denominator: u32,
) -> Option<u64>
    requires { 0 < denominator }
    ensures { result ≡ refresh_threshold received expires numerator denominator }
{
    let lifetime = expires.checked_sub(received)?;
    let part = u128::from(lifetime) * u128::from(numerator) / u128::from(denominator);
    Some(part.min(u128::from(u64::MAX)) as u64)
}
