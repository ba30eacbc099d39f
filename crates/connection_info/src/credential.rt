ghost use Rattle.std.specs.Prelude.{◌≡◌, Some, None, IfOk, IfErr};
ghost use Rattle.connection_info.specs.Credential.{credential_of};
ghost use Rattle.connection_info.specs.Refusal.{RefusesUrl};

use crate::open_error::OpenError;
use containers::Bytes;
use percent_encoding::{DecodeError, percent_decode};
use std::alloc::Global;

/// The user name or password that a part of a URL stands for, none where it is empty.
#[tactic(auto, using(crate::proofs::Text::decoded, crate::proofs::Text::not_decoded))]
pub fn credential(alloc: Global, part: &str) -> Result<Option<Bytes>, OpenError>
    ensures ok { IfOk result (λ text. credential_of part.now ≡ Some text) }
    ensures err { IfErr result (RefusesUrl (credential_of part.now ≡ None)) }
{
    match percent_decode(part.as_bytes()).decode_utf8(alloc) {
        Ok(text) => {
            if text.as_str().is_empty() {
                return Ok(None);
            }
            let text = Bytes::from_slice(alloc, text.as_str().as_bytes())?;
            Ok(Some(text))
        }
        Err(DecodeError::Utf8(_)) => Err(OpenError::URL),
        Err(DecodeError::OutOfMemory) => Err(OpenError::NoMemory),
    }
}
