ghost use Rattle.std.specs.Prelude.{◌≡◌, ◌∷◌, [], IfOk, false};

use crate::command::Cmd;
use std::alloc::{AllocError, Global};

/// A command of this name, without arguments.
pub fn cmd(alloc: Global, name: &[u8]) -> Result<Cmd, AllocError>
    ensures { IfOk result (λ c. c ≡ record { args = name.now ∷ []; no_response = false }) }
{
    let mut command = Cmd::new(alloc);
    command.arg(alloc, name)?;
    Ok(command)
}
