ghost use Rattle.std.specs.Prelude.{◌≡◌, ◌↔◌, IfOk, IsTrue, false};
ghost use Rattle.connection_info.specs.Written.{with_library};

use crate::protocol::ProtocolVersion;
use containers::Bytes;
use std::alloc::{AllocError, Global};

/// What is said to a server before the first request.
#[derive(Drop)]
pub struct RedisConnectionInfo {
    /// The database that is chosen. 0 needs no choice.
    pub db: i64,
    /// Who authenticates. Without a password nobody does.
    pub username: Option<Bytes>,
    /// What authenticates.
    pub password: Option<Bytes>,
    pub protocol: ProtocolVersion,
    /// Whether the server isn't told which library is talking.
    pub skip_set_lib_name: bool,
}

/// Where a server is, and what is said to it before the first request.
#[derive(Drop)]
pub struct ConnectionInfo {
    /// A name or an address, without brackets.
    pub host: Bytes,
    pub port: u16,
    pub redis: RedisConnectionInfo,
}

/// A copy of a text, if there is one.
fn copy_text(alloc: Global, text: &Option<Bytes>) -> Result<Option<Bytes>, AllocError>
    ensures { IfOk result (λ copy. copy ≡ text.now) }
{
    match text {
        Some(text) => Ok(Some(text.clone(alloc)?)),
        None => Ok(None),
    }
}

/// Whether two texts are there both, and are equal, or neither is.
fn is_same_text(left: &Option<Bytes>, right: &Option<Bytes>) -> bool
    ensures { IsTrue result ↔ (left.now ≡ right.now) }
{
    match (left, right) {
        (Some(left), Some(right)) => left.as_slice() == right.as_slice(),
        (None, None) => true,
        _ => false,
    }
}

impl RedisConnectionInfo {
    /// An equal value of its own.
    pub fn clone(&self, alloc: Global) -> Result<RedisConnectionInfo, AllocError>
        ensures { IfOk result (λ info. info ≡ self.now) }
    {
        let username = copy_text(alloc, &self.username)?;
        let password = copy_text(alloc, &self.password)?;
        Ok(RedisConnectionInfo {
            db: self.db,
            username,
            password,
            protocol: self.protocol,
            skip_set_lib_name: self.skip_set_lib_name,
        })
    }

    /// Whether this is what another says to a server with its library named.
    fn is_with_library(&self, other: &RedisConnectionInfo) -> bool
        ensures { IsTrue result ↔ (self.now ≡ record other.now { skip_set_lib_name = false }) }
    {
        !self.skip_set_lib_name
            && self.db == other.db
            && self.protocol == other.protocol
            && is_same_text(&self.username, &other.username)
            && is_same_text(&self.password, &other.password)
    }
}

impl ConnectionInfo {
    /// An equal value of its own.
    pub fn clone(&self, alloc: Global) -> Result<ConnectionInfo, AllocError>
        ensures { IfOk result (λ info. info ≡ self.now) }
    {
        let host = self.host.clone(alloc)?;
        let redis = self.redis.clone(alloc)?;
        Ok(ConnectionInfo {
            host,
            port: self.port,
            redis,
        })
    }

    /// Whether this is another address with its library named.
    pub(crate) fn is_with_library(&self, other: &ConnectionInfo) -> bool
        ensures { IsTrue result ↔ (self.now ≡ with_library other.now) }
    {
        self.port == other.port
            && self.host.as_slice() == other.host.as_slice()
            && self.redis.is_with_library(&other.redis)
    }
}
