ghost use Rattle.std.specs.Prelude.{◌≡◌, ◌==◌, not, drop, length, bytes_eq, MatchOption, Some, None, IfOk};
ghost use Rattle.std.specs.List.{list_all, list_any};
ghost use Rattle.script_text.specs.ConfigLine.{connection_keys, retry_keys, manager_keys, link_keys};
ghost use Rattle.script_text.specs.ConfigLine.{keys, is_setting};
ghost use Rattle.script_text.specs.ConfigLine.{value_of, values, only};
ghost use Rattle.script_text.specs.ConfigLine.{allows, given, allows_times, allows_queue};
ghost use Rattle.script_text.specs.ConfigLine.{allows_numbers, allows_optional, allows_switches, are_allowed};
ghost use Rattle.script_text.specs.ConfigLine.{allows_setup, allows_connection, allows_growth};
ghost use Rattle.script_text.specs.ConfigLine.{allows_delays, allows_attempts, allows_retries};
ghost use Rattle.script_text.specs.ConfigLine.{address_with, connection_with, manager_with};
ghost use Rattle.script_text.specs.ConfigLine.{config_with, session, kind_named, config_of, opening_of};
ghost use Rattle.script_text.specs.Numbers.{number, max_u32, max_u64, time_limit, fraction, switch};

use crate::draw::drawn;
use crate::line::Line;
use crate::number::{fraction, number_u32, number_u64, switch, time_limit};
use crate::word::Word;
use crate::words::cut;
use containers::{Bytes, Seq};
use driver_model::{AddressWords, Config, ConnectionWords, ManagerWords, SessionKind};
use std::alloc::{AllocError, Global};

/// Whether this is a key of a multiplexed connection: of its address, of its times and its queue, or one behind those.
fn is_connection_key(key: &[u8]) -> bool
    ensures { result ≡ list_any (bytes_eq key.now) connection_keys }
{
    key == b"url".as_slice()
        || key == b"connect".as_slice()
        || key == b"response".as_slice()
        || key == b"buffer".as_slice()
        || is_later_connection_key(key)
}

/// Whether this is a key of its limits, or of what is on or off.
fn is_later_connection_key(key: &[u8]) -> bool
    ensures { result ≡ list_any (bytes_eq key.now) (drop 4 connection_keys) }
{
    key == b"limit".as_slice()
        || key == b"boundary".as_slice()
        || key == b"push".as_slice()
        || key == b"creds".as_slice()
        || key == b"lib".as_slice()
}

/// Whether this is a key of how a connection comes back.
fn is_retry_key(key: &[u8]) -> bool
    ensures { result ≡ list_any (bytes_eq key.now) retry_keys }
{
    key == b"retries".as_slice()
        || key == b"min".as_slice()
        || key == b"max".as_slice()
        || key == b"base".as_slice()
        || key == b"resub".as_slice()
}

/// Whether this is a key of a connection that comes back.
#[tactic(auto, using(crate::proofs::Keys::key_before, crate::proofs::Keys::key_behind))]
fn is_manager_key(key: &[u8]) -> bool
    ensures { result ≡ list_any (bytes_eq key.now) manager_keys }
{
    is_connection_key(key) || is_retry_key(key)
}

/// Whether this is a key of a link of publish/subscribe or of monitor mode.
fn is_link_key(key: &[u8]) -> bool
    ensures { result ≡ list_any (bytes_eq key.now) link_keys }
{
    key == b"url".as_slice() || key == b"lib".as_slice()
}

/// Whether a session of this kind has this key.
fn is_key(kind: SessionKind, key: &[u8]) -> bool
    ensures { result ≡ list_any (bytes_eq key.now) (keys kind) }
{
    match kind {
        SessionKind::Single => is_connection_key(key),
        SessionKind::Manager { lazy: _ } => is_manager_key(key),
        SessionKind::PubSub => is_link_key(key),
        SessionKind::Monitor => is_link_key(key),
    }
}

/// Whether a word is KEY=VALUE with a key that a session of this kind has.
pub fn is_known_setting(kind: SessionKind, word: &[u8]) -> bool
    ensures { result ≡ is_setting (keys kind) word.now }
{
    match cut(word, b'=') {
        None => false,
        Some((key, _)) => is_key(kind, key),
    }
}

fn are_settings(kind: SessionKind, words: &[Word<'_>]) -> bool
    ensures { result ≡ list_all (is_setting (keys kind)) words.now }
{
    for word in words {
        if !is_known_setting(kind, word.as_slice()) {
            return false;
        }
    }
    true
}

/// The value that a word gives the key.
pub fn value<'a>(word: &'a [u8], key: &[u8]) -> Option<&'a [u8]>
    ensures { MatchOption result (value_of key.now word.now ≡ None)
        (λ v. value_of key.now word.now ≡ Some v.now) }
{
    match cut(word, b'=') {
        Some((name, value)) if name == key => Some(value),
        _ => None,
    }
}

/// The only value that words give the key.
pub fn only_value<'a>(words: &'a [Word<'_>], key: &[u8]) -> Option<&'a [u8]>
    ensures { MatchOption result (only (values key.now words.now) ≡ None)
        (λ v. only (values key.now words.now) ≡ Some v.now) }
{
    let mut found = None;
    for word in words {
        if let Some(value) = value(word.as_slice(), key) {
            if found.is_some() {
                return None;
            }
            found = Some(value);
        }
    }
    found
}

/// Whether words give the key some value.
pub fn has_value(words: &[Word<'_>], key: &[u8]) -> bool
    ensures { result ≡ (not (length (values key.now words.now) == 0)) }
{
    for word in words {
        if value(word.as_slice(), key).is_some() {
            return true;
        }
    }
    false
}

/// The time that words give the key, where they give it just one value.
fn time_of(words: &[Word<'_>], key: &[u8]) -> Option<Option<u64>>
    ensures { result ≡ given time_limit (values key.now words.now) }
{
    time_limit(only_value(words, key)?)
}

/// The number of 32 bits that words give the key, where they give it just one value.
fn number_of(words: &[Word<'_>], key: &[u8]) -> Option<u32>
    ensures { result ≡ given (number max_u32) (values key.now words.now) }
{
    number_u32(only_value(words, key)?)
}

/// The number of 64 bits that words give the key, where they give it just one value.
fn large_number_of(words: &[Word<'_>], key: &[u8]) -> Option<u64>
    ensures { result ≡ given (number max_u64) (values key.now words.now) }
{
    number_u64(only_value(words, key)?)
}

/// The fraction that words give the key, where they give it just one value.
fn fraction_of(words: &[Word<'_>], key: &[u8]) -> Option<(u32, u32)>
    ensures { result ≡ given fraction (values key.now words.now) }
{
    fraction(only_value(words, key)?)
}

/// Whether what the key names is on, where words say so once.
fn switch_of(words: &[Word<'_>], key: &[u8]) -> Option<bool>
    ensures { result ≡ given switch (values key.now words.now) }
{
    switch(only_value(words, key)?)
}

/// Whether words leave the time of the key open, or give it once.
#[tactic(auto, using(crate::proofs::Values::allowed_once, crate::proofs::Values::allowed_never))]
pub fn allows_time(words: &[Word<'_>], key: &[u8]) -> bool
    ensures { result ≡ allows time_limit (values key.now words.now) }
{
    match only_value(words, key) {
        Some(value) => time_limit(value).is_some(),
        None => !has_value(words, key),
    }
}

/// Whether words leave the number of 32 bits of the key open, or give it once.
#[tactic(auto, using(crate::proofs::Values::allowed_once, crate::proofs::Values::allowed_never))]
pub fn allows_number(words: &[Word<'_>], key: &[u8]) -> bool
    ensures { result ≡ allows (number max_u32) (values key.now words.now) }
{
    match only_value(words, key) {
        Some(value) => number_u32(value).is_some(),
        None => !has_value(words, key),
    }
}

/// Whether words leave the number of 64 bits of the key open, or give it once.
#[tactic(auto, using(crate::proofs::Values::allowed_once, crate::proofs::Values::allowed_never))]
pub fn allows_large_number(words: &[Word<'_>], key: &[u8]) -> bool
    ensures { result ≡ allows (number max_u64) (values key.now words.now) }
{
    match only_value(words, key) {
        Some(value) => number_u64(value).is_some(),
        None => !has_value(words, key),
    }
}

/// Whether words leave the fraction of the key open, or give it once.
#[tactic(auto, using(crate::proofs::Values::allowed_once, crate::proofs::Values::allowed_never))]
pub fn allows_fraction(words: &[Word<'_>], key: &[u8]) -> bool
    ensures { result ≡ allows fraction (values key.now words.now) }
{
    match only_value(words, key) {
        Some(value) => fraction(value).is_some(),
        None => !has_value(words, key),
    }
}

/// Whether words leave open whether what the key names is on, or say it once.
#[tactic(auto, using(crate::proofs::Values::allowed_once, crate::proofs::Values::allowed_never))]
pub fn allows_switch(words: &[Word<'_>], key: &[u8]) -> bool
    ensures { result ≡ allows switch (values key.now words.now) }
{
    match only_value(words, key) {
        Some(value) => switch(value).is_some(),
        None => !has_value(words, key),
    }
}

/// Whether words leave the times open, or give each once.
fn allows_times(words: &[Word<'_>]) -> bool
    ensures { result ≡ allows_times words.now }
{
    allows_time(words, b"connect") && allows_time(words, b"response")
}

/// Whether words leave open what there is of the queue, or give it once.
fn allows_queue(words: &[Word<'_>]) -> bool
    ensures { result ≡ allows_queue words.now }
{
    allows_number(words, b"buffer") && allows_large_number(words, b"boundary")
}

/// Whether words leave open how many permits there are and what there is of the queue, or give it once.
fn allows_numbers(words: &[Word<'_>]) -> bool
    ensures { result ≡ allows_numbers words.now }
{
    allows_number(words, b"limit") && allows_queue(words)
}

/// Whether words leave the times and the numbers open, or give each once.
fn allows_optional(words: &[Word<'_>]) -> bool
    ensures { result ≡ allows_optional words.now }
{
    allows_times(words) && allows_numbers(words)
}

/// Whether words leave the credentials and the library open, or say of each once whether it is on.
fn allows_setup(words: &[Word<'_>]) -> bool
    ensures { result ≡ allows_setup words.now }
{
    allows_switch(words, b"creds") && allows_switch(words, b"lib")
}

/// Whether words leave open what is on, or say it of each once.
fn allows_switches(words: &[Word<'_>]) -> bool
    ensures { result ≡ allows_switches words.now }
{
    allows_switch(words, b"push") && allows_setup(words)
}

/// Whether words leave the library and how a multiplexed connection behaves open, or give what they give of that once.
fn allows_connection(words: &[Word<'_>]) -> bool
    ensures { result ≡ allows_connection words.now }
{
    allows_optional(words) && allows_switches(words)
}

/// Whether words leave open how delays grow, or give what they give of that once.
fn allows_growth(words: &[Word<'_>]) -> bool
    ensures { result ≡ allows_growth words.now }
{
    allows_time(words, b"max") && allows_fraction(words, b"base")
}

/// Whether words leave the delays between attempts open, or give what they give of them once.
fn allows_delays(words: &[Word<'_>]) -> bool
    ensures { result ≡ allows_delays words.now }
{
    allows_large_number(words, b"min") && allows_growth(words)
}

/// Whether words leave the number of attempts and what is subscribed again open, or give each once.
fn allows_attempts(words: &[Word<'_>]) -> bool
    ensures { result ≡ allows_attempts words.now }
{
    allows_number(words, b"retries") && allows_switch(words, b"resub")
}

/// Whether words leave open how a connection comes back, or give what they give of that once.
fn allows_retries(words: &[Word<'_>]) -> bool
    ensures { result ≡ allows_retries words.now }
{
    allows_delays(words) && allows_attempts(words)
}

/// Whether all settings but the URL are allowed.
fn are_allowed(words: &[Word<'_>]) -> bool
    ensures { result ≡ are_allowed words.now }
{
    allows_connection(words) && allows_retries(words)
}

/// The address with this URL, and with what words give it beside that.
fn address_with(words: &[Word<'_>], url: Bytes) -> AddressWords
    ensures { result ≡ address_with words.now url }
{
    AddressWords {
        url,
        lib: switch_of(words, b"lib"),
    }
}

/// What words give of how a multiplexed connection behaves.
fn connection_with(words: &[Word<'_>]) -> ConnectionWords
    ensures { result ≡ connection_with words.now }
{
    ConnectionWords {
        connect: time_of(words, b"connect"),
        response: time_of(words, b"response"),
        limit: number_of(words, b"limit"),
        buffer: number_of(words, b"buffer"),
        boundary: large_number_of(words, b"boundary"),
        push: switch_of(words, b"push"),
        creds: switch_of(words, b"creds"),
    }
}

/// What words give of how a connection comes back.
fn manager_with(words: &[Word<'_>]) -> ManagerWords
    ensures { result ≡ manager_with words.now }
{
    ManagerWords {
        retries: number_of(words, b"retries"),
        min: large_number_of(words, b"min"),
        max: time_of(words, b"max"),
        base: fraction_of(words, b"base"),
        resub: switch_of(words, b"resub"),
    }
}

/// The configuration of this kind with this URL, and with what words give it beside that.
fn config_with(kind: SessionKind, words: &[Word<'_>], url: Bytes) -> Config
    ensures { result ≡ config_with kind words.now url }
{
    let address = address_with(words, url);
    match kind {
        SessionKind::Single => Config::Single {
            address,
            connection: connection_with(words),
        },
        SessionKind::Manager { lazy } => Config::Manager {
            lazy,
            address,
            connection: connection_with(words),
            manager: manager_with(words),
        },
        SessionKind::PubSub => Config::PubSub { address },
        SessionKind::Monitor => Config::Monitor { address },
    }
}

/// A session of this kind.
fn read_session(
    alloc: Global,
    kind: SessionKind,
    words: &[Word<'_>],
) -> Result<Option<Config>, AllocError>
    ensures { IfOk result (λ c. c ≡ session kind words.now) }
{
    if !are_settings(kind, words) || !are_allowed(words) {
        return Ok(None);
    }
    let Some(url) = only_value(words, b"url") else {
        return Ok(None);
    };
    let url = Bytes::from_slice(alloc, url)?;
    Ok(Some(config_with(kind, words, url)))
}

/// What a session is that has this name.
pub fn kind_named(name: &[u8]) -> Option<SessionKind>
    ensures { result ≡ kind_named name.now }
{
    if name == b"single".as_slice() {
        return Some(SessionKind::Single);
    }
    if name == b"manager".as_slice() {
        return Some(SessionKind::Manager { lazy: false });
    }
    if name == b"lazy".as_slice() {
        return Some(SessionKind::Manager { lazy: true });
    }
    if name == b"pubsub".as_slice() {
        return Some(SessionKind::PubSub);
    }
    if name == b"monitor".as_slice() {
        return Some(SessionKind::Monitor);
    }
    None
}

/// The configuration that words are, and those behind separators.
#[tactic(auto, unfolding(crate::specs::ConfigLine::config_of))]
pub fn config(
    alloc: Global,
    words: &[Word<'_>],
    more: &[Seq<Word<'_>>],
) -> Result<Option<Config>, AllocError>
    ensures { IfOk result (λ c. c ≡ config_of (record { words = words.now; more = more.now })) }
{
    let ([name, kind, settings @ ..], []) = (words, more) else {
        return Ok(None);
    };
    if name.as_slice() != b"config".as_slice() {
        return Ok(None);
    }
    match kind_named(kind.as_slice()) {
        Some(kind) => read_session(alloc, kind, settings),
        None => Ok(None),
    }
}

/// The configuration that the words of a line are, and the word of its draws.
pub fn opening(alloc: Global, line: &Line<'_>) -> Result<Option<(Config, u64)>, AllocError>
    ensures { IfOk result (λ o. o ≡ opening_of line.now) }
{
    let Some((word, before)) = drawn(line.words()) else {
        return Ok(None);
    };
    match config(alloc, &line.words()[before..], line.more())? {
        Some(config) => Ok(Some((config, word))),
        None => Ok(None),
    }
}
