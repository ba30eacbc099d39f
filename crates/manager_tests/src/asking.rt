use conn_manager::ManagerGetters;
use connection_info::{Client, OpenError, ProtocolVersion};
use connection_tests::servers::at;
use driver_model::{AddressWords, Config, ManagerWords};
use manager_config::ConnectionManagerConfig;
use redis_error::ConfigName;
use std::alloc::{AllocError, Global};

/// A client of a URL.
fn client(alloc: Global) -> Result<Client, OpenError> {
    Client::open(alloc, "redis://h:6379")
}

/// A configuration of which two settings aren't the default.
fn quick() -> ConnectionManagerConfig {
    ConnectionManagerConfig::new()
        .set_min_delay(5)
        .set_automatic_resubscription()
}

/// How a connection of these words comes back.
fn said(min: Option<u64>, resub: Option<bool>) -> ManagerWords {
    ManagerWords {
        retries: None,
        min,
        max: None,
        base: None,
        resub,
    }
}

/// Whether these are the URL of the client and nothing else.
fn is_plain(address: &AddressWords) -> bool {
    address.lib == None && address.url.as_slice() == b"redis://h:6379".as_slice()
}

/// Whether the words are those of a manager that is lazy or not, at the client's URL, and comes back so.
fn say(words: &Config, is_lazy: bool, comes_back: ManagerWords) -> bool {
    match words {
        Config::Manager {
            lazy,
            address,
            connection: _,
            manager,
        } => *lazy == is_lazy && is_plain(address) && *manager == comes_back,
        _ => false,
    }
}

fn is_asked(alloc: Global, client: &Client) -> Result<bool, OpenError> {
    let words = client.get_connection_manager(alloc)?;
    let so = say(&words, false, said(None, None));
    drop(words);
    Ok(so)
}

fn is_asked_quickly(alloc: Global, client: &Client) -> Result<bool, OpenError> {
    let words = client.get_connection_manager_with_config(alloc, &quick())?;
    let so = say(&words, false, said(Some(5), Some(true)));
    drop(words);
    Ok(so)
}

/// Whether these words say so, and a copy of them too.
fn copy_says(alloc: Global, words: &Config) -> Result<bool, AllocError> {
    let copy = words.clone(alloc)?;
    let so = say(&copy, true, said(Some(5), Some(true)));
    drop(copy);
    Ok(so && say(words, true, said(Some(5), Some(true))))
}

fn is_asked_lazily(alloc: Global, client: &Client) -> Result<bool, OpenError> {
    let words = client.get_connection_manager_lazy(alloc, &quick())?;
    let so = copy_says(alloc, &words);
    drop(words);
    Ok(so?)
}

/// Whether a client makes the words of each.
fn are_asked(alloc: Global, client: &Client) -> Result<bool, OpenError> {
    Ok(
        is_asked(alloc, client)?
            && is_asked_quickly(alloc, client)?
            && is_asked_lazily(alloc, client)?,
    )
}

#[test]
fn a_client_makes_the_words_of_a_session(rt: HostRuntime) -> Result<(), OpenError> {
    let client = client(rt.alloc())?;
    assert!(rt; are_asked(rt.alloc(), &client)?);
    Ok(())
}

/// What a session at this host is asked with.
fn asked_of(alloc: Global, host: &[u8]) -> Result<Config, OpenError> {
    let info = at(alloc, host, 7000, ProtocolVersion::RESP2)?;
    Client::open(alloc, info)?.get_connection_manager(alloc)
}

/// Whether a session at this host is asked so, or refused since no URL is its address.
fn is_asked_of(alloc: Global, host: &[u8], has_url: bool) -> bool {
    let asked = asked_of(alloc, host);
    let so = match &asked {
        Ok(words) => has_url && words.address().lib == Some(false),
        Err(error) => !has_url && *error == OpenError::Config(ConfigName::Url),
    };
    drop(asked);
    so
}

#[test]
fn what_no_url_says_is_refused(rt: HostRuntime) {
    for (host, has_url) in [(b"h".as_slice(), true), (b"a b", false), (b"[::1]", false)] {
        assert!(rt; is_asked_of(rt.alloc(), host, has_url));
    }
}
