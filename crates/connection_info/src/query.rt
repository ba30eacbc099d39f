ghost use Rattle.std.specs.Prelude.{◌≡◌, IfOk};
ghost use Rattle.connection_info.specs.Protocol.{protocol_named, protocol_of};

use crate::protocol::ProtocolVersion;
use std::alloc::AllocError;
use url::Url;

/// The protocol that a word names.
fn named(word: &str) -> Option<ProtocolVersion>
    ensures { result ≡ protocol_named word.now }
{
    if word == "2" || word == "resp2" {
        return Some(ProtocolVersion::RESP2);
    }
    if word == "3" || word == "resp3" {
        return Some(ProtocolVersion::RESP3);
    }
    None
}

/// The protocol that the query of a URL names.
pub fn protocol(url: &Url) -> Result<Option<ProtocolVersion>, AllocError>
    ensures { IfOk result (λ protocol. protocol ≡ protocol_of url.now) }
{
    for pair in url.query_pairs() {
        let (name, value) = pair?;
        if name.as_str() == "protocol" {
            return Ok(named(value.as_str()));
        }
    }
    Ok(Some(ProtocolVersion::RESP2))
}
