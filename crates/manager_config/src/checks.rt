ghost use Rattle.std.specs.Prelude.{◌≡◌, None, OnOk, IfErr};
ghost use Rattle.manager_config.specs.Refused.{first_fault, RefusesManager};

use crate::config::ConnectionManagerConfig;
use connection_info::{OpenError, ProtocolVersion};
use redis_error::ConfigName;

impl ConnectionManagerConfig {
    /// The name of what is refused first on a connection of this protocol, if anything is: automatic resubscription without a
    /// push sender, a fraction without a denominator, pushes that somebody hears on RESP2, a limit of no permits, and a queue
    /// that holds nothing.
    pub fn first_fault(&self, protocol: ProtocolVersion) -> Option<ConfigName>
        ensures { result ≡ first_fault protocol self.now }
    {
        if self.automatic_resubscription && !self.connection.push_sender {
            return Some(ConfigName::Resub);
        }
        if self.exponent_base.1 == 0 {
            return Some(ConfigName::Base);
        }
        if self.connection.push_sender && !protocol.supports_resp3() {
            return Some(ConfigName::Push);
        }
        if self.connection.concurrency_limit == Some(0) {
            return Some(ConfigName::Limit);
        }
        if self.connection.pipeline_buffer_size == 0 {
            return Some(ConfigName::Buffer);
        }
        None
    }

    /// Nothing of it is refused on a connection of this protocol. `Client` comes exactly where automatic resubscription is asked
    /// for without a push sender, and else `Config` with the name of what is refused first.
    pub fn check(&self, protocol: ProtocolVersion) -> Result<(), OpenError>
        ensures ok { OnOk result (first_fault protocol self.now ≡ None) }
        ensures err { IfErr result (RefusesManager protocol self.now) }
    {
        match self.first_fault(protocol) {
            None => Ok(()),
            Some(ConfigName::Resub) => Err(OpenError::Client),
            Some(name) => Err(OpenError::Config(name)),
        }
    }
}
