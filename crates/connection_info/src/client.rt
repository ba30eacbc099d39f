ghost use Rattle.std.specs.Prelude.{◌≡◌, Some, None, IfOk, IfErr};
ghost use Rattle.connection_info.specs.Refusal.{RefusesUrl};

use crate::address::ConnectionInfo;
use crate::into_address::IntoConnectionInfo;
use crate::open_error::OpenError;
use std::alloc::{AllocError, Global};
use std::marker::Model;

/// What connections to one server are made from. Contracts see its address.
#[derive(Drop)]
pub struct Client {
    info: ConnectionInfo,
}

impl Model for Client {
    ghost use Rattle.connection_info.specs.declared.address.ConnectionInfo.{ConnectionInfo};

    ghost Value = { ConnectionInfo };

    ghost view = { λ client. client.info };
}

impl Client {
    /// A client of the server that `params` name. Nothing is connected. `Config(Url)` comes exactly where they name
    /// no address.
    pub fn open<T: IntoConnectionInfo>(alloc: Global, params: T) -> Result<Client, OpenError>
        ensures ok { IfOk result (λ client. T.address params ≡ Some client) }
        ensures err { IfErr result (RefusesUrl (T.address params ≡ None)) }
    {
        let info = params.into_connection_info(alloc)?;
        Ok(Client { info })
    }

    /// Its address.
    pub fn get_connection_info(&self) -> &ConnectionInfo
        ensures { result.now ≡ self.now }
    {
        &self.info
    }

    /// An equal value of its own.
    pub fn clone(&self, alloc: Global) -> Result<Client, AllocError>
        ensures { IfOk result (λ client. client ≡ self.now) }
    {
        let info = self.info.clone(alloc)?;
        Ok(Client { info })
    }
}
