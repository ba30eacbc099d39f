ghost use Rattle.std.specs.Prelude.{◌≡◌, ◌∷◌, not, is_some, is_none, codes};
ghost use Rattle.std.specs.List.{list_all};
ghost use Rattle.script_text.specs.ConfigLine.{keys, is_setting, values, only};
ghost use Rattle.script_text.specs.ConfigLine.{allows, allows_times, allows_queue};
ghost use Rattle.script_text.specs.ConfigLine.{allows_numbers, allows_optional, allows_switches, are_allowed};
ghost use Rattle.script_text.specs.ConfigLine.{allows_setup, allows_connection, allows_growth};
ghost use Rattle.script_text.specs.ConfigLine.{allows_delays, allows_attempts, allows_retries};
ghost use Rattle.script_text.specs.ConfigLine.{session, named_session, config_of, opening_of};
ghost use Rattle.script_text.specs.Faults.{FindsFault, values_reason};
ghost use Rattle.script_text.specs.Numbers.{number, max_u32, max_u64, time_limit, fraction, switch};

use crate::config_line::{
    allows_fraction, allows_large_number, allows_number, allows_switch, allows_time, has_value,
    is_known_setting, kind_named, only_value, value,
};
use crate::draw::{draw_fault, drawn, fault_behind};
use crate::fault::Fault;
use crate::line::Line;
use crate::reason::{ConfigReason, LineReason, Reason};
use crate::word::Word;
use crate::words::cut;
use containers::Seq;
use driver_model::SessionKind;

/// Before the settings stand the word `config` and that of the kind.
const BEFORE: usize = 2;

/// Why a word is no KEY=VALUE with a key that a session of this kind has.
fn setting_reason(kind: SessionKind, word: &[u8]) -> ConfigReason {
    match (kind, cut(word, b'=').is_some()) {
        (SessionKind::Single, false) => ConfigReason::Setting,
        (SessionKind::Single, true) => ConfigReason::UnknownKey,
        (SessionKind::Manager { lazy: _ }, false) => ConfigReason::ManagerSetting,
        (SessionKind::Manager { lazy: _ }, true) => ConfigReason::UnknownManagerKey,
        (_, false) => ConfigReason::LinkSetting,
        (_, true) => ConfigReason::UnknownLinkKey,
    }
}

/// What is wrong with the first word that is no KEY=VALUE with a key that a session of this kind has.
fn setting_fault(kind: SessionKind, words: &[Word<'_>]) -> Option<Fault>
    ensures { is_some result ≡ not (list_all (is_setting (keys kind)) words.now) }
{
    for (index, word) in words.iter().enumerate() {
        if !is_known_setting(kind, word.as_slice()) {
            return Some(Fault {
                reason: Reason::Config(setting_reason(kind, word.as_slice())),
                part: index + BEFORE,
            });
        }
    }
    None
}

/// The last of the words that gives the key a value, or how many words there are.
fn last_index(words: &[Word<'_>], key: &[u8]) -> usize {
    let mut last = words.len();
    for (index, word) in words.iter().enumerate() {
        if value(word.as_slice(), key).is_some() {
            last = index;
        }
    }
    last
}

/// What is wrong with the values that words give a key, where they don't give it just the right one.
fn wrong_values(words: &[Word<'_>], key: &[u8], wrong: Reason) -> Reason
    ensures { result ≡ values_reason (values key.now words.now) wrong }
{
    if only_value(words, key).is_some() {
        return wrong;
    }
    if has_value(words, key) {
        Reason::Config(ConfigReason::KeyTwice)
    } else {
        Reason::Config(ConfigReason::NoKey)
    }
}

/// The fault of a key that words don't give just the right value.
fn values_fault(words: &[Word<'_>], key: &[u8], wrong: Reason) -> Fault
    ensures { result.reason ≡ values_reason (values key.now words.now) wrong }
{
    Fault {
        reason: wrong_values(words, key, wrong),
        part: last_index(words, key).saturating_add(BEFORE),
    }
}

/// What is wrong with what is on or off.
fn switch_fault(words: &[Word<'_>], key: &[u8], reason: ConfigReason) -> Option<Fault>
    ensures { is_some result ≡ not (allows switch (values key.now words.now)) }
{
    if allows_switch(words, key) {
        return None;
    }
    Some(values_fault(words, key, Reason::Config(reason)))
}

/// What is wrong with the time of a key.
fn time_fault(words: &[Word<'_>], key: &[u8], reason: ConfigReason) -> Option<Fault>
    ensures { is_some result ≡ not (allows time_limit (values key.now words.now)) }
{
    if allows_time(words, key) {
        return None;
    }
    Some(values_fault(words, key, Reason::Config(reason)))
}

/// What is wrong with the number of 32 bits of a key.
fn number_fault(words: &[Word<'_>], key: &[u8], reason: ConfigReason) -> Option<Fault>
    ensures { is_some result ≡ not (allows (number max_u32) (values key.now words.now)) }
{
    if allows_number(words, key) {
        return None;
    }
    Some(values_fault(words, key, Reason::Config(reason)))
}

/// What is wrong with the number of 64 bits of a key.
fn large_number_fault(words: &[Word<'_>], key: &[u8], reason: ConfigReason) -> Option<Fault>
    ensures { is_some result ≡ not (allows (number max_u64) (values key.now words.now)) }
{
    if allows_large_number(words, key) {
        return None;
    }
    Some(values_fault(words, key, Reason::Config(reason)))
}

/// What is wrong with the fraction of a key.
fn fraction_fault(words: &[Word<'_>], key: &[u8], reason: ConfigReason) -> Option<Fault>
    ensures { is_some result ≡ not (allows fraction (values key.now words.now)) }
{
    if allows_fraction(words, key) {
        return None;
    }
    Some(values_fault(words, key, Reason::Config(reason)))
}

/// What is wrong with what is given of the times.
fn times_fault(words: &[Word<'_>]) -> Option<Fault>
    ensures { is_some result ≡ not (allows_times words.now) }
{
    if let Some(fault) = time_fault(words, b"connect", ConfigReason::Connect) {
        return Some(fault);
    }
    time_fault(words, b"response", ConfigReason::Response)
}

/// What is wrong with what is given of the queue.
fn queue_fault(words: &[Word<'_>]) -> Option<Fault>
    ensures { is_some result ≡ not (allows_queue words.now) }
{
    if let Some(fault) = number_fault(words, b"buffer", ConfigReason::Buffer) {
        return Some(fault);
    }
    large_number_fault(words, b"boundary", ConfigReason::Boundary)
}

/// What is wrong with how many permits there are, or with what is given of the queue.
fn numbers_fault(words: &[Word<'_>]) -> Option<Fault>
    ensures { is_some result ≡ not (allows_numbers words.now) }
{
    if let Some(fault) = number_fault(words, b"limit", ConfigReason::Limit) {
        return Some(fault);
    }
    queue_fault(words)
}

/// What is wrong with what is given of the times and of the numbers.
#[tactic(auto, using(crate::proofs::Values::first_fails, crate::proofs::Values::second_tells))]
fn optional_fault(words: &[Word<'_>]) -> Option<Fault>
    ensures { is_some result ≡ not (allows_optional words.now) }
{
    if let Some(fault) = times_fault(words) {
        return Some(fault);
    }
    numbers_fault(words)
}

/// What is wrong with what is given of the credentials and of the library.
fn setup_fault(words: &[Word<'_>]) -> Option<Fault>
    ensures { is_some result ≡ not (allows_setup words.now) }
{
    if let Some(fault) = switch_fault(words, b"creds", ConfigReason::Credentials) {
        return Some(fault);
    }
    switch_fault(words, b"lib", ConfigReason::Library)
}

/// What is wrong with what is given of what is on or off.
fn switches_fault(words: &[Word<'_>]) -> Option<Fault>
    ensures { is_some result ≡ not (allows_switches words.now) }
{
    if let Some(fault) = switch_fault(words, b"push", ConfigReason::Push) {
        return Some(fault);
    }
    setup_fault(words)
}

/// What is wrong with what is given of the library, or of how a multiplexed connection behaves.
#[tactic(auto, using(crate::proofs::Values::first_fails, crate::proofs::Values::second_tells))]
fn connection_fault(words: &[Word<'_>]) -> Option<Fault>
    ensures { is_some result ≡ not (allows_connection words.now) }
{
    if let Some(fault) = optional_fault(words) {
        return Some(fault);
    }
    switches_fault(words)
}

/// What is wrong with what is given of how delays grow.
fn growth_fault(words: &[Word<'_>]) -> Option<Fault>
    ensures { is_some result ≡ not (allows_growth words.now) }
{
    if let Some(fault) = time_fault(words, b"max", ConfigReason::LongestDelay) {
        return Some(fault);
    }
    fraction_fault(words, b"base", ConfigReason::Growth)
}

/// What is wrong with what is given of the delays between attempts.
fn delays_fault(words: &[Word<'_>]) -> Option<Fault>
    ensures { is_some result ≡ not (allows_delays words.now) }
{
    if let Some(fault) = large_number_fault(words, b"min", ConfigReason::FirstDelay) {
        return Some(fault);
    }
    growth_fault(words)
}

/// What is wrong with what is given of the number of attempts, or of what is subscribed again.
fn attempts_fault(words: &[Word<'_>]) -> Option<Fault>
    ensures { is_some result ≡ not (allows_attempts words.now) }
{
    if let Some(fault) = number_fault(words, b"retries", ConfigReason::Retries) {
        return Some(fault);
    }
    switch_fault(words, b"resub", ConfigReason::Resubscription)
}

/// What is wrong with what is given of how a connection comes back.
#[tactic(auto, using(crate::proofs::Values::first_fails, crate::proofs::Values::second_tells))]
fn retries_fault(words: &[Word<'_>]) -> Option<Fault>
    ensures { is_some result ≡ not (allows_retries words.now) }
{
    if let Some(fault) = delays_fault(words) {
        return Some(fault);
    }
    attempts_fault(words)
}

/// What is wrong with a setting other than the URL.
#[tactic(auto, using(crate::proofs::Values::first_fails, crate::proofs::Values::second_tells))]
fn allowed_fault(words: &[Word<'_>]) -> Option<Fault>
    ensures { is_some result ≡ not (are_allowed words.now) }
{
    if let Some(fault) = connection_fault(words) {
        return Some(fault);
    }
    retries_fault(words)
}

/// What is wrong with the URL: that it doesn't stand just once. Whether it is an address is no matter of the script.
fn url_fault(words: &[Word<'_>]) -> Option<Fault>
    ensures { is_some result ≡ is_none (only (values (codes "url") words.now)) }
{
    if only_value(words, b"url").is_some() {
        return None;
    }
    let missing = Reason::Config(ConfigReason::NoKey);
    Some(values_fault(words, b"url", missing))
}

/// What is wrong with the settings of a session of this kind.
#[tactic(auto, using(crate::proofs::Values::both_told, crate::proofs::Values::none_allowed))]
fn session_fault(kind: SessionKind, words: &[Word<'_>]) -> Option<Fault>
    ensures { FindsFault result (session kind words.now) }
{
    if let Some(fault) = setting_fault(kind, words) {
        return Some(fault);
    }
    if let Some(fault) = allowed_fault(words) {
        return Some(fault);
    }
    url_fault(words)
}

/// What is wrong with the name of a kind and the settings of a session of it.
fn named_fault(words: &[Word<'_>]) -> Option<Fault>
    ensures { FindsFault result (named_session words.now) }
{
    let unknown = Fault {
        reason: Reason::Config(ConfigReason::Kind),
        part: 1,
    };
    let [name, settings @ ..] = words else {
        return Some(unknown);
    };
    match kind_named(name.as_slice()) {
        Some(kind) => session_fault(kind, settings),
        None => Some(unknown),
    }
}

/// What is wrong with words, and those behind separators, as a configuration.
#[tactic(auto, unfolding(crate::specs::ConfigLine::config_of))]
fn config_fault(words: &[Word<'_>], more: &[Seq<Word<'_>>]) -> Option<Fault>
    ensures { FindsFault result (config_of (record { words = words.now; more = more.now })) }
{
    let name = Fault {
        reason: Reason::Config(ConfigReason::Name),
        part: 0,
    };
    let [first, rest @ ..] = words else {
        return Some(name);
    };
    if first.as_slice() != b"config".as_slice() {
        return Some(name);
    }
    match more {
        [] => named_fault(rest),
        _ => Some(Fault {
            reason: Reason::Line(LineReason::Separator),
            part: words.len(),
        }),
    }
}

/// What is wrong with the words of a line as a configuration behind the word of its draws.
pub fn opening_fault(line: &Line<'_>) -> Option<Fault>
    ensures { FindsFault result (opening_of line.now) }
{
    let Some((_, before)) = drawn(line.words()) else {
        return draw_fault();
    };
    fault_behind(config_fault(&line.words()[before..], line.more()), before)
}
