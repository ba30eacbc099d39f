ghost use Rattle.std.specs.Prelude.{◌≡◌, ◌≤◌, ◌<◌, ◌+◌, ◌*◌, IfSome};
ghost use Rattle.std.specs.Option.{SomeIff};
ghost use Rattle.script_text.specs.Numbers.{number};
ghost use Rattle.session_program.specs.Words.{most_rounds};

/// The most rounds of a script that is made.
const MOST: u32 = 200_000;

/// A number with one more digit, if it is one of at most `MOST`.
fn with_digit(n: u32, digit: u32) -> Option<u32>
    requires digit { digit < 10 }
    requires few { n ≤ 200000 }
    ensures { SomeIff result (10 * n + digit ≤ 200000) (10 * n + digit) }
{
    if 10 * n + digit <= MOST {
        Some(10 * n + digit)
    } else {
        None
    }
}

/// The number of rounds that a word is, in decimal, if it is one of at most `MOST`.
pub fn rounds_of(word: &[u8]) -> Option<u32>
    ensures is { result ≡ number most_rounds word.now }
    ensures fits { IfSome result (λ n. n ≤ 200000) }
{
    let [first, rest @ ..] = word else {
        return None;
    };
    if *first == b'0' && !rest.is_empty() {
        return None;
    }
    let mut n = 0u32;
    for byte in word {
        if !byte.is_ascii_digit() {
            return None;
        }
        n = with_digit(n, u32::from(*byte - b'0'))?;
    }
    Some(n)
}
