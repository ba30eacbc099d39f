use connection_info::{
    Client, ConnectionInfo, IntoConnectionInfo, OpenError, ProtocolVersion, RedisConnectionInfo,
};
use containers::Bytes;
use redis_error::ConfigName;
use std::alloc::{AllocError, Global};

/// A host, a user name, a password and a database.
type Place = (
    &'static [u8],
    Option<&'static [u8]>,
    Option<&'static [u8]>,
    i64,
);

fn text(alloc: Global, bytes: Option<&[u8]>) -> Result<Option<Bytes>, AllocError> {
    match bytes {
        Some(bytes) => Ok(Some(Bytes::from_slice(alloc, bytes)?)),
        None => Ok(None),
    }
}

/// Who asks, in RESP3 where there is a database.
pub fn redis(alloc: Global, place: &Place) -> Result<RedisConnectionInfo, AllocError> {
    let username = text(alloc, place.1)?;
    let password = text(alloc, place.2)?;
    Ok(RedisConnectionInfo {
        db: place.3,
        username,
        password,
        protocol: if place.3 == 0 {
            ProtocolVersion::RESP2
        } else {
            ProtocolVersion::RESP3
        },
        skip_set_lib_name: true,
    })
}

fn address(alloc: Global, place: &Place) -> Result<ConnectionInfo, AllocError> {
    let host = Bytes::from_slice(alloc, place.0)?;
    let redis = redis(alloc, place)?;
    Ok(ConnectionInfo {
        host,
        port: 6379,
        redis,
    })
}

/// Whether an address is written as that URL, or has none.
fn has_url(alloc: Global, info: &ConnectionInfo, wanted: Option<&[u8]>) -> bool {
    match info.to_url(alloc) {
        Ok(url) => wanted == Some(url.as_slice()),
        Err(error) => wanted.is_none() && error == OpenError::Config(ConfigName::Url),
    }
}

fn is_written(alloc: Global, place: &Place, wanted: Option<&[u8]>) -> Result<bool, AllocError> {
    let info = address(alloc, place)?;
    Ok(has_url(alloc, &info, wanted))
}

/// Hosts with their URLs; none where no URL is read as the same address.
const HOSTS: [(&[u8], Option<&[u8]>); 12] = [
    (b"h", Some(b"redis://h:6379")),
    (b"::1", Some(b"redis://[::1]:6379")),
    (b"", None),
    (b"a b", None),
    (b"a/b", None),
    (b"a?b", None),
    (b"a#b", None),
    (b"a@b", None),
    (b"\xC3\xA9", None),
    (b"\xFF", None),
    (b"[::1]", None),
    (b"0:0:0:0:0:0:0:1", None),
];

#[test]
fn hosts_are_written(rt: HostRuntime) -> Result<(), AllocError> {
    for (host, wanted) in &HOSTS {
        assert!(rt; is_written(rt.alloc(), &(*host, None, None, 0), *wanted)?);
    }
    Ok(())
}

/// Users, passwords and databases at one host, with their URLs; none where no URL is read as the same address.
const ASKING: [(Place, Option<&[u8]>); 9] = [
    ((b"h", Some(b"u"), None, 0), Some(b"redis://u:@h:6379")),
    ((b"h", None, Some(b"p"), 0), Some(b"redis://:p@h:6379")),
    (
        (b"h", Some(b"u-1"), Some(b"@:/?#[]%"), 0),
        Some(b"redis://u%2D1:%40%3A%2F%3F%23%5B%5D%25@h:6379"),
    ),
    (
        (b"h", Some(b"\xC3\xA9"), None, 0),
        Some(b"redis://%C3%A9:@h:6379"),
    ),
    (
        (b"h", None, None, i64::MAX),
        Some(b"redis://h:6379/9223372036854775807?protocol=3"),
    ),
    ((b"h", None, None, -1), None),
    ((b"h", Some(b""), None, 0), None),
    ((b"h", None, Some(b""), 0), None),
    ((b"h", None, Some(b"\xFF"), 0), None),
];

#[test]
fn users_and_databases_are_written(rt: HostRuntime) -> Result<(), AllocError> {
    for row in &ASKING {
        assert!(rt; is_written(rt.alloc(), &row.0, row.1)?);
    }
    Ok(())
}

/// Whether something names that host and that port.
fn names<T: IntoConnectionInfo>(alloc: Global, place: T, host: &[u8], port: u16) -> bool {
    match place.into_connection_info(alloc) {
        Ok(info) => info.host.as_slice() == host && info.port == port,
        Err(_) => false,
    }
}

/// Whether a text of its own names that host and that port.
fn text_names(alloc: Global, url: &str, host: &[u8], port: u16) -> Result<bool, AllocError> {
    let url = String::from_str(alloc, url)?;
    Ok(names(alloc, url, host, port))
}

/// Whether an address names its own host and its own port.
fn address_names(alloc: Global, host: &'static [u8]) -> Result<bool, AllocError> {
    let info = address(alloc, &(host, None, None, 0))?;
    Ok(names(alloc, info, host, 6379))
}

/// Whether lent texts and pairs name their hosts and ports.
fn lent_names(alloc: Global) -> bool {
    names(alloc, "redis://h:7", b"h", 7)
        && names(alloc, ("[::1]", 7), b"[::1]", 7)
        && !names(alloc, ("", 7), b"", 7)
}

/// Whether a client and its copy have the address of this user at h.
fn has_user(alloc: Global, client: &Client, user: &[u8]) -> Result<bool, OpenError> {
    let copy = client.clone(alloc)?;
    let info = copy.get_connection_info();
    Ok(
        info.redis
            .username
            .as_ref()
            .is_some_and(|name| name.as_slice() == user)
            && info.redis.password.is_none()
            && has_url(
                alloc,
                client.get_connection_info(),
                Some(b"redis://user:@h:6379"),
            ),
    )
}

/// Whether a user without a password is kept.
fn keeps_user(alloc: Global) -> Result<bool, OpenError> {
    let client = Client::open(alloc, "redis://%75ser@h")?;
    has_user(alloc, &client, b"user")
}

/// A URL of so many bytes: 8 of them are no name.
fn long_url(alloc: Global, length: usize) -> Result<String, AllocError> {
    let mut url = String::from_str(alloc, "redis://")?;
    for _ in 8..length {
        url.push_str("h")?;
    }
    Ok(url)
}

/// Whether a URL of so many bytes is opened.
fn is_long_opened(alloc: Global, length: usize) -> Result<bool, AllocError> {
    let url = long_url(alloc, length)?;
    Ok(Client::open(alloc, url.as_str()).is_ok())
}

#[test]
fn places_are_named(rt: HostRuntime) -> Result<(), AllocError> {
    let alloc = rt.alloc();
    assert!(rt; lent_names(alloc));
    assert!(rt; text_names(alloc, "redis://h:7", b"h", 7)?);
    assert!(rt; address_names(alloc, b"[a b]")?);
    Ok(())
}

#[test]
fn addresses_are_opened(rt: HostRuntime) -> Result<(), OpenError> {
    let alloc = rt.alloc();
    assert!(rt; keeps_user(alloc)?);
    assert!(rt; is_long_opened(alloc, 1_048_576)?);
    assert!(rt; !is_long_opened(alloc, 1_048_577)?);
    Ok(())
}
