//! What more than one of the programs makes.

use mux_resp::Cmd;
use std::alloc::{AllocError, Global};

/// The command of some words.
pub fn command_of(alloc: Global, words: &[&[u8]]) -> Result<Cmd, AllocError> {
    let mut command = Cmd::new(alloc);
    for word in words {
        command.arg(alloc, word)?;
    }
    Ok(command)
}
