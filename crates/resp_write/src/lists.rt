ghost use Rattle.std.specs.Prelude.{◌≡◌, ◌++◌, OnOk, IfOk};
ghost use Rattle.resp_write.specs.Pack.{pack_commands, pack_each, pack_framed, commands_of};

use crate::pack::{push_command, push_word};
use containers::{Bytes, Names};
use std::alloc::{AllocError, Global};

/// Appends commands of these arguments one after another.
fn push_lists(out: &mut Bytes, lists: &[Names]) -> Result<(), AllocError>
    ensures { OnOk result (out.new ≡ out.old ++ pack_each (commands_of lists.now)) }
{
    for args in lists {
        push_command(out, args.as_slice())?;
    }
    Ok(())
}

/// Appends commands of these arguments, between MULTI and EXEC or not.
fn push_framed(out: &mut Bytes, atomic: bool, lists: &[Names]) -> Result<(), AllocError>
    ensures { OnOk result (out.new ≡ out.old ++ pack_framed atomic (commands_of lists.now)) }
{
    if !atomic {
        return push_lists(out, lists);
    }
    push_word(out, b"MULTI")?;
    push_lists(out, lists)?;
    push_word(out, b"EXEC")
}

/// The bytes of a pipeline of commands of these arguments, as a transaction or not. Without commands there are none.
#[tactic(auto, using(crate::proofs::Framed::no_lists, crate::proofs::Framed::framed_lists))]
pub fn pack_lists(alloc: Global, atomic: bool, lists: &[Names]) -> Result<Bytes, AllocError>
    ensures { IfOk result (λ packed. packed ≡ pack_commands atomic (commands_of lists.now)) }
{
    let mut out = Bytes::new(alloc);
    if lists.is_empty() {
        return Ok(out);
    }
    push_framed(&mut out, atomic, lists)?;
    Ok(out)
}
