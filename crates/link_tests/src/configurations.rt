use containers::Bytes;
use driver_model::{AddressWords, Config, ConnectionWords};
use std::alloc::{AllocError, Global};

/// A configuration with that address alone.
fn plain(alloc: Global, url: &[u8]) -> Result<Config, AllocError> {
    let url = Bytes::from_slice(alloc, url)?;
    Ok(Config::new(url))
}

/// How long a connect and a reply may take, how many permits there are, the size of the queue, the boundary, whether somebody
/// hears pushes, whether credentials come of a source, and whether the server is told which library speaks.
type Settings = (
    Option<u64>,
    Option<u64>,
    Option<u32>,
    u32,
    u64,
    bool,
    bool,
    Option<bool>,
);

fn settings(config: &Config) -> Settings {
    (
        config.connect_timeout(),
        config.response_timeout(),
        config.permits(),
        config.buffer_size(),
        config.boundary(),
        config.hears_pushes(),
        config.wants_credentials(),
        config.address().lib,
    )
}

/// Whether a configuration has that address and these settings.
fn has(config: &Config, url: &[u8], wanted: Settings) -> bool {
    config.address().url.as_slice() == url && settings(config) == wanted
}

const NOTHING_GIVEN: Settings = (Some(1000), Some(500), None, 50, 8192, false, false, None);

/// Whether a configuration of which only the address is given has these settings.
fn plain_has(alloc: Global, wanted: Settings) -> Result<bool, AllocError> {
    let config = plain(alloc, b"redis://h")?;
    let so = has(&config, b"redis://h", wanted);
    drop(config);
    Ok(so)
}

const ALL_GIVEN: Settings = (Some(5), None, Some(3), 7, 0, true, true, Some(false));

/// A configuration of which all is given.
fn full(alloc: Global) -> Result<Config, AllocError> {
    let url = Bytes::from_slice(alloc, b"redis://h")?;
    Ok(Config::Single {
        address: AddressWords {
            url,
            lib: Some(false),
        },
        connection: ConnectionWords {
            connect: Some(Some(5)),
            response: Some(None),
            limit: Some(3),
            buffer: Some(7),
            boundary: Some(0),
            push: Some(true),
            creds: Some(true),
        },
    })
}

/// Whether a copy of a configuration has that address and these settings.
fn copy_has(
    alloc: Global,
    config: &Config,
    url: &[u8],
    wanted: Settings,
) -> Result<bool, AllocError> {
    let copy = config.clone(alloc)?;
    let so = has(&copy, url, wanted);
    drop(copy);
    Ok(so)
}

/// Whether a copy of a configuration of which all is given has these settings.
fn full_copy_has(alloc: Global, wanted: Settings) -> Result<bool, AllocError> {
    let config = full(alloc)?;
    let so = copy_has(alloc, &config, b"redis://h", wanted);
    drop(config);
    so
}

#[test]
fn settings_stand_also_in_a_copy(rt: HostRuntime) -> Result<(), AllocError> {
    assert!(rt; plain_has(rt.alloc(), NOTHING_GIVEN)?);
    assert!(rt; full_copy_has(rt.alloc(), ALL_GIVEN)?);
    Ok(())
}
