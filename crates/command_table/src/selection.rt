ghost use Rattle.std.specs.Prelude.{◌≡◌, true, IfOk, OnOk};
ghost use Rattle.resp_write.specs.Command.{with_args};
ghost use Rattle.command_table.specs.Selection.{may_be_several, key_count, part_for, width};
ghost use Rattle.command_table.specs.Splitting.{are_within};

use crate::commands::Form;
use crate::lookup::form_of;
use crate::routing::KeyIndices;
use containers::Bytes;
use resp_write::Cmd;
use std::alloc::{AllocError, Global};

/// How many arguments go with a key.
pub(crate) fn width(form: Form) -> usize
    ensures { result ≡ width form }
{
    match form {
        Form::EachPair(_, _) => 2,
        _ => 1,
    }
}

/// More arguments at a command's end.
fn push_args(alloc: Global, cmd: &mut Cmd, args: &[Bytes]) -> Result<(), AllocError>
    ensures { OnOk result (cmd.new ≡ with_args cmd.old args.now) }
{
    for arg in args {
        cmd.arg(alloc, arg.as_slice())?;
    }
    Ok(())
}

/// The part of a command that has the keys of these places, for MSET each with its value, in order.
#[tactic(auto, using(crate::proofs::Choosing::fits, crate::proofs::Choosing::others_fit))]
pub fn command_for_multi_slot_indices(
    alloc: Global,
    cmd: &Cmd,
    indices: &KeyIndices,
) -> Result<Cmd, AllocError>
    requires several { may_be_several cmd.now.args ≡ true }
    requires within { are_within (key_count cmd.now.args) indices.now ≡ true }
    ensures { IfOk result (λ part. part ≡ part_for cmd.now indices.now) }
{
    let mut part = Cmd::new(alloc);
    part.set_no_response(cmd.is_no_response());
    let [name, args @ ..] = cmd.args() else {
        return Ok(part);
    };
    part.arg(alloc, name.as_slice())?;
    let width = width(form_of(name.as_slice(), args));
    for index in indices.as_slice() {
        let at = width * *index as usize;
        push_args(alloc, &mut part, &args[at..at + width])?;
    }
    Ok(part)
}
