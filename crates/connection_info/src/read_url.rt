ghost use Rattle.std.specs.Prelude.{◌≡◌, Some, None, Ok, IfOk, IfErr, OnOk, is_ok, true, false};
ghost use Rattle.url.specs.Parser.{parse_url};
ghost use Rattle.connection_info.specs.Address.{address_in, address_of, has_scheme, joined};
ghost use Rattle.connection_info.specs.Credential.{credential_of};
ghost use Rattle.connection_info.specs.Refusal.{RefusesUrl};

use crate::address::{ConnectionInfo, RedisConnectionInfo};
use crate::credential::credential;
use crate::host::host;
use crate::open_error::OpenError;
use crate::path::database;
use crate::protocol::ProtocolVersion;
use crate::query::protocol;
use containers::Bytes;
use std::alloc::Global;
use url::{ParseError, Url};

/// The most bytes of a text that is read as an address.
const LONGEST_URL: usize = 1_048_576;

/// The port of an address that names none.
const DEFAULT_PORT: u16 = 6379;

/// Whether a scheme is one of addresses.
fn has_scheme(url: &Url) -> bool
    ensures { result ≡ has_scheme url.now }
{
    let scheme = url.scheme();
    scheme == "redis" || scheme == "valkey"
}

/// The address that a URL is.
fn address_in(alloc: Global, url: &Url) -> Result<ConnectionInfo, OpenError>
    ensures ok { IfOk result (λ info. address_in url.now ≡ Some info) }
    ensures err { IfErr result (RefusesUrl (address_in url.now ≡ None)) }
{
    if !has_scheme(url) {
        return Err(OpenError::URL);
    }
    let Some(host) = host(url) else {
        return Err(OpenError::URL);
    };
    let Some(db) = database(url.path().as_bytes()) else {
        return Err(OpenError::URL);
    };
    let Some(protocol) = protocol(url)? else {
        return Err(OpenError::URL);
    };
    match address_of_parts(alloc, url, host, db, protocol) {
        Ok(info) => Ok(info),
        Err(error) => Err(error),
    }
}

/// The address of this host, with this database and protocol, and with the port and the credentials of a URL.
fn address_of_parts(
    alloc: Global,
    url: &Url,
    host: &[u8],
    db: i64,
    protocol: ProtocolVersion,
) -> Result<ConnectionInfo, OpenError>
    ensures ok { IfOk result (λ info.
        joined url.now.port (Some host.now) (Some db) (Some protocol)
        (credential_of url.now.username) (credential_of url.now.password) ≡ Some info) }
    ensures err { IfErr result (RefusesUrl (
        joined url.now.port (Some host.now) (Some db) (Some protocol)
        (credential_of url.now.username) (credential_of url.now.password) ≡ None)) }
{
    let username = credential(alloc, url.username())?;
    let password = credential(alloc, url.password().unwrap_or(""))?;
    let host = Bytes::from_slice(alloc, host)?;
    Ok(ConnectionInfo {
        host,
        port: url.port().unwrap_or(DEFAULT_PORT),
        redis: RedisConnectionInfo {
            db,
            username,
            password,
            protocol,
            skip_set_lib_name: false,
        },
    })
}

/// The URL that a text is.
fn parsed(alloc: Global, text: &str) -> Result<Url, OpenError>
    ensures ok { IfOk result (λ url. parse_url None text.now ≡ Ok url) }
    ensures err { IfErr result (RefusesUrl (is_ok (parse_url None text.now) ≡ false)) }
{
    match Url::parse(alloc, text) {
        Ok(url) => Ok(url),
        Err(ParseError::OutOfMemory) => Err(OpenError::NoMemory),
        Err(ParseError::Overflow) => Err(OpenError::NoMemory),
        Err(_) => Err(OpenError::URL),
    }
}

/// The address that a text is.
pub fn read_url(alloc: Global, text: &str) -> Result<ConnectionInfo, OpenError>
    ensures ok { IfOk result (λ info. address_of text.now ≡ Some info) }
    ensures err { IfErr result (RefusesUrl (address_of text.now ≡ None)) }
{
    if text.len() > LONGEST_URL {
        return Err(OpenError::URL);
    }
    let url = parsed(alloc, text)?;
    address_in(alloc, &url)
}
