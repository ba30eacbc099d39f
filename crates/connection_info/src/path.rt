ghost use Rattle.std.specs.Prelude.{◌≡◌, ◌≤◌, ◌<◌, ◌+◌, ◌*◌};
ghost use Rattle.std.specs.Option.{SomeIff};
ghost use Rattle.connection_info.specs.Database.{database_of, number_of, greatest_database};

/// A number with one more digit, if it is that of a database.
fn with_digit(n: u64, digit: u8) -> Option<u64>
    requires { digit < 10 }
    ensures { SomeIff result (10 * n + digit ≤ greatest_database) (10 * n + digit) }
{
    let more = 10 * u128::from(n) + u128::from(digit);
    if more <= 9_223_372_036_854_775_807 {
        Some(more as u64)
    } else {
        None
    }
}

/// The number of a database that some digits are; no digits are the database 0.
fn number(digits: &[u8]) -> Option<u64>
    ensures { result ≡ number_of digits.now }
{
    let mut n = 0u64;
    for byte in digits {
        if !byte.is_ascii_digit() {
            return None;
        }
        n = with_digit(n, *byte - b'0')?;
    }
    Some(n)
}

/// The database that a path chooses.
pub fn database(path: &[u8]) -> Option<i64>
    ensures { result ≡ database_of path.now }
{
    let [first, digits @ ..] = path else {
        return Some(0);
    };
    if *first != b'/' {
        return None;
    }
    let number = number(digits)?;
    Some(number as i64)
}
