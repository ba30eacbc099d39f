ghost use Rattle.std.specs.Prelude.{◌≡◌, Some, IfOk};
ghost use Rattle.script_text.specs.Lines.{texts};
ghost use Rattle.live_lines.specs.Plans.{callers_of, digit_count, plan_of, without_callers};
ghost use Rattle.live_lines.specs.Plans.{dial_limit, limit_in, within_a_day};

use driver_model::Config;
use script_text::read_config;
use std::alloc::{AllocError, Global};

/// The most milliseconds that a dial takes where nothing is said of the connect.
const SECOND: u64 = 1_000;

/// The most that a dial takes whose connect has no limit.
const DAY: u64 = 86_400_000;

/// What the words of a live run ask for.
#[derive(Drop)]
pub struct Plan {
    /// How many callers submit its lines: 1 to 8.
    pub callers: u32,
    pub config: Config,
}

/// The number from 1 to 8 that a value is.
fn digit_count(value: &[u8]) -> Option<u32>
    ensures { result ≡ digit_count value.now }
{
    match value {
        [digit] if *digit >= b'1' && *digit <= b'8' => Some(u32::from(*digit - b'0')),
        _ => None,
    }
}

/// How many callers a word sets.
fn callers_of(word: &[u8]) -> Option<u32>
    ensures { result ≡ callers_of word.now }
{
    let key = b"callers=".as_slice();
    if word.len() < key.len() || &word[..key.len()] != key {
        return None;
    }
    digit_count(&word[key.len()..])
}

/// How many callers words set, and the words behind that.
fn without_callers(words: &[String]) -> (u32, &[String])
    ensures { (result.0, texts result.1.now) ≡ without_callers (texts words.now) }
{
    let [first, rest @ ..] = words else {
        return (1, words);
    };
    match callers_of(first.as_bytes()) {
        Some(callers) => (callers, rest),
        None => (1, words),
    }
}

/// What the words behind `live` ask for: `callers=K` or nothing, and the words of a configuration. `None` where they make no
/// configuration.
pub fn plan_of(alloc: Global, words: &[String]) -> Result<Option<Plan>, AllocError>
    ensures { IfOk result (λ plan. plan ≡ plan_of (texts words.now)) }
{
    let (callers, words) = without_callers(words);
    match read_config(alloc, words)? {
        Some(config) => Ok(Some(Plan { callers, config })),
        None => Ok(None),
    }
}

/// The most milliseconds that a dial may take whose connect may take so many.
fn within_a_day(connect: Option<u64>) -> u64
    ensures { result ≡ within_a_day connect }
{
    match connect {
        Some(ms) => ms.min(DAY),
        None => DAY,
    }
}

impl Plan {
    /// The most milliseconds that a dial may take: as many as the connect may, which are a second where nothing is said of
    /// it. A connect without a limit has a day.
    fn dial_limit(&self) -> u64
        ensures { result ≡ limit_in (Some self.now) }
    {
        if self.config.connection().is_some() {
            within_a_day(self.config.connect_timeout())
        } else {
            SECOND
        }
    }
}

/// The most milliseconds that a dial of the live run may take that words ask for: those of `connect=MS`, and a second where
/// they don't say it, or are no plan.
pub fn dial_limit(alloc: Global, words: &[String]) -> Result<u64, AllocError>
    ensures { IfOk result (λ ms. ms ≡ dial_limit (texts words.now)) }
{
    match plan_of(alloc, words)? {
        Some(plan) => Ok(plan.dial_limit()),
        None => Ok(SECOND),
    }
}
