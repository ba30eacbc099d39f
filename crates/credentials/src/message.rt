ghost use Rattle.std.specs.Prelude.{◌≡◌, IfOk};
ghost use Rattle.credentials.specs.Message.{auth_bytes};

use crate::basic_auth::BasicAuth;
use containers::{Bytes, Names};
use resp_write::pack_names;
use std::alloc::{AllocError, Global};

/// The bytes by which a connection that is up authenticates anew: the command AUTH with user name and password. Only want
/// of memory is refused.
pub fn auth_message(alloc: Global, auth: &BasicAuth) -> Result<Bytes, AllocError>
    ensures { IfOk result (λ bytes. bytes ≡ auth_bytes auth.now.username auth.now.password) }
{
    let words = Names::from_slices(alloc, &[b"AUTH", auth.username(), auth.password()])?;
    pack_names(alloc, &words)
}
