ghost use Rattle.std.specs.Prelude.{◌≡◌, ◌++◌, ◌↔◌, IfOk, IfErr, IsTrue, OnOk};
ghost use Rattle.connection_info.specs.Refusal.{RefusesUrl};
ghost use Rattle.connection_info.specs.Written.{database_part, escaped, host_part, port_part, protocol_part, given_part, url_of, user_part, IsUrlOf, ReadsBack};

use crate::address::{ConnectionInfo, RedisConnectionInfo};
use crate::open_error::OpenError;
use crate::protocol::ProtocolVersion;
use crate::read_url::read_url;
use containers::Bytes;
use itoa::Buffer;
use percent_encoding::{NON_ALPHANUMERIC, percent_encode};
use std::alloc::{AllocError, Global};
use std::str;

/// Appends a user name or a password, escaped, if there is one.
fn push_given(alloc: Global, out: &mut Bytes, text: &Option<Bytes>) -> Result<(), AllocError>
    ensures { OnOk result (out.new ≡ out.old ++ given_part text.now) }
{
    let Some(text) = text else {
        return Ok(());
    };
    let mut escaped = String::new(alloc);
    percent_encode(text.as_slice(), NON_ALPHANUMERIC).append_to(&mut escaped)?;
    out.extend_from_slice(escaped.as_bytes())
}

/// Appends who authenticates, if anybody does.
fn push_user(alloc: Global, out: &mut Bytes, info: &RedisConnectionInfo) -> Result<(), AllocError>
    ensures { OnOk result (out.new ≡ out.old ++ user_part info.now.username info.now.password) }
{
    if info.username.is_none() && info.password.is_none() {
        return Ok(());
    }
    push_given(alloc, out, &info.username)?;
    out.push(b':')?;
    push_given(alloc, out, &info.password)?;
    out.push(b'@')
}

/// Appends the host, in brackets where it has a colon.
fn push_host(out: &mut Bytes, host: &[u8]) -> Result<(), AllocError>
    ensures { OnOk result (out.new ≡ out.old ++ host_part host.now) }
{
    if !host.contains(&b':') {
        return out.extend_from_slice(host);
    }
    out.push(b'[')?;
    out.extend_from_slice(host)?;
    out.push(b']')
}

/// Appends the port.
fn push_port(out: &mut Bytes, port: u16) -> Result<(), AllocError>
    ensures { OnOk result (out.new ≡ out.old ++ port_part port) }
{
    let mut digits = Buffer::new();
    out.push(b':')?;
    out.extend_from_slice(digits.format(port).as_bytes())
}

/// Appends the choice of a database, if one is needed.
fn push_database(out: &mut Bytes, db: i64) -> Result<(), AllocError>
    ensures { OnOk result (out.new ≡ out.old ++ database_part db) }
{
    if db == 0 {
        return Ok(());
    }
    let mut digits = Buffer::new();
    out.push(b'/')?;
    out.extend_from_slice(digits.format(db).as_bytes())
}

/// Appends the choice of a protocol, if one is needed.
fn push_protocol(out: &mut Bytes, protocol: ProtocolVersion) -> Result<(), AllocError>
    ensures { OnOk result (out.new ≡ out.old ++ protocol_part protocol) }
{
    match protocol {
        ProtocolVersion::RESP2 => Ok(()),
        ProtocolVersion::RESP3 => out.extend_from_slice(b"?protocol=3"),
    }
}

/// Appends all of an address that stands behind the scheme.
fn push_address(alloc: Global, out: &mut Bytes, info: &ConnectionInfo) -> Result<(), AllocError>
    ensures { OnOk result (out.new ≡ out.old ++ user_part info.now.redis.username info.now.redis.password
        ++ host_part info.now.host ++ port_part info.now.port ++ database_part info.now.redis.db
        ++ protocol_part info.now.redis.protocol) }
{
    push_user(alloc, out, &info.redis)?;
    push_host(out, info.host.as_slice())?;
    push_port(out, info.port)?;
    push_database(out, info.redis.db)?;
    push_protocol(out, info.redis.protocol)
}

impl ConnectionInfo {
    /// The address as a URL, whether or not that is read as the same address.
    fn written(&self, alloc: Global) -> Result<Bytes, AllocError>
        ensures { IfOk result (λ text. text ≡ url_of self.now) }
    {
        let mut out = Bytes::from_slice(alloc, b"redis://")?;
        push_address(alloc, &mut out, self)?;
        Ok(out)
    }

    /// Whether a text is read as this address.
    fn is_read_from(&self, alloc: Global, text: &[u8]) -> Result<bool, AllocError>
        ensures { IfOk result (λ same. IsTrue same ↔ IsUrlOf self.now text.now) }
    {
        let Ok(text) = str::from_utf8(text) else {
            return Ok(false);
        };
        match read_url(alloc, text) {
            Ok(read) => Ok(read.is_with_library(self)),
            Err(OpenError::NoMemory) => Err(AllocError),
            Err(_) => Ok(false),
        }
    }

    /// The URL that is read as this address, but for `skip_set_lib_name`, of which URLs say nothing. `Config(Url)`
    /// comes exactly where there is no such URL of the written form.
    pub fn to_url(&self, alloc: Global) -> Result<Bytes, OpenError>
        ensures value { IfOk result (λ text. text ≡ url_of self.now) }
        ensures ok { OnOk result (ReadsBack self.now) }
        ensures err { IfErr result (RefusesUrl (¬ (ReadsBack self.now))) }
    {
        let text = self.written(alloc)?;
        if self.is_read_from(alloc, text.as_slice())? {
            Ok(text)
        } else {
            Err(OpenError::URL)
        }
    }
}
