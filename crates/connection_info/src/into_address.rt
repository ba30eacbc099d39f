ghost use Rattle.std.specs.Prelude.{◌≡◌, Option, Some, None, IfOk, IfErr};
ghost use Rattle.connection_info.specs.declared.address.ConnectionInfo.{ConnectionInfo};
ghost use Rattle.connection_info.specs.Address.{address_at, address_of};
ghost use Rattle.connection_info.specs.Refusal.{RefusesUrl};

use crate::address::{ConnectionInfo, RedisConnectionInfo};
use crate::open_error::OpenError;
use crate::protocol::ProtocolVersion;
use crate::read_url::read_url;
use containers::Bytes;
use std::alloc::Global;

/// What names a server.
pub trait IntoConnectionInfo {
    ghost address: { Self → Option ConnectionInfo };

    /// The address that it names. `Config(Url)` comes exactly where it names none.
    fn into_connection_info(self, alloc: Global) -> Result<ConnectionInfo, OpenError>
        ensures ok { IfOk result (λ info. address self ≡ Some info) }
        ensures err { IfErr result (RefusesUrl (address self ≡ None)) };
}

/// A URL.
impl<'a> IntoConnectionInfo for &'a str {
    ghost address = { λ text. address_of text.now };

    fn into_connection_info(self, alloc: Global) -> Result<ConnectionInfo, OpenError> {
        read_url(alloc, self)
    }
}

/// A URL.
impl IntoConnectionInfo for String {
    ghost use Rattle.std.specs.Prelude.{string_bytes};

    ghost address = { λ text. address_of (string_bytes text) };

    fn into_connection_info(self, alloc: Global) -> Result<ConnectionInfo, OpenError> {
        read_url(alloc, self.as_str())
    }
}

/// A host, which is taken as it is, and a port.
impl<'a> IntoConnectionInfo for (&'a str, u16) {
    ghost address = { λ place. address_at place.0.now place.1 };

    fn into_connection_info(self, alloc: Global) -> Result<ConnectionInfo, OpenError> {
        let (host, port) = self;
        if host.is_empty() {
            return Err(OpenError::URL);
        }
        let host = Bytes::from_slice(alloc, host.as_bytes())?;
        Ok(ConnectionInfo {
            host,
            port,
            redis: RedisConnectionInfo {
                db: 0,
                username: None,
                password: None,
                protocol: ProtocolVersion::RESP2,
                skip_set_lib_name: false,
            },
        })
    }
}

/// The address itself.
impl IntoConnectionInfo for ConnectionInfo {
    ghost address = { λ info. Some info };

    fn into_connection_info(self, _alloc: Global) -> Result<ConnectionInfo, OpenError> {
        Ok(self)
    }
}
