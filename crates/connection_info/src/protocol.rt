ghost use Rattle.std.specs.Prelude.{◌≡◌};
ghost use Rattle.connection_info.specs.Protocol.{is_resp3};

/// The protocol that a connection speaks.
#[derive(Clone, Copy, Debug, PartialEq, Eq)]
pub enum ProtocolVersion {
    /// Understood by every server, without pushes.
    RESP2,
    /// Asked for with HELLO.
    RESP3,
}

impl ProtocolVersion {
    /// Whether the server may send pushes, maps and the other forms of RESP3.
    pub fn supports_resp3(&self) -> bool
        ensures { result ≡ is_resp3 self.now }
    {
        match self {
            ProtocolVersion::RESP2 => false,
            ProtocolVersion::RESP3 => true,
        }
    }
}
