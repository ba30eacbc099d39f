ghost use Rattle.std.specs.Prelude.{◌≡◌, ◌<◌, true, length, IfOk, IsSome, Option};
ghost use Rattle.command_table.specs.PartCommand.{command_of_part, command_with_keys, has_keys_at};
ghost use Rattle.command_table.specs.Selection.{is_several};
ghost use Rattle.command_table.specs.Splitting.{are_within, can_be_split};

use crate::commands::Form;
use crate::lookup::form_of;
use crate::routing::{KeyIndices, MultipleNodeRoutingInfo, ResponsePolicy, RoutingInfo, SlotParts};
use crate::selection::{command_for_multi_slot_indices, width};
use containers::Bytes;
use resp_write::Cmd;
use std::alloc::{AllocError, Global};

/// Whether a command of this form may have keys in several slots.
fn is_several(form: Form) -> bool
    ensures { result ≡ is_several form }
{
    match form {
        Form::EachKey(_, _) => true,
        Form::EachPair(_, _) => true,
        _ => false,
    }
}

/// Whether each place is that of one of so many keys.
fn are_within(count: usize, indices: &[u32]) -> bool
    ensures { result ≡ are_within count indices.now }
{
    for index in indices {
        if *index as usize >= count {
            return false;
        }
    }
    true
}

/// Whether a command may have keys in several slots, and has a key at each of these places.
fn has_keys_at(words: &[Bytes], indices: &[u32]) -> bool
    ensures { result ≡ has_keys_at words.now indices.now }
{
    let [name, args @ ..] = words else {
        return false;
    };
    let form = form_of(name.as_slice(), args);
    is_several(form) && are_within(args.len() / width(form), indices)
}

/// The command with the keys of these places alone, where it has them.
fn command_with_keys(
    alloc: Global,
    cmd: &Cmd,
    indices: &KeyIndices,
) -> Result<Option<Cmd>, AllocError>
    ensures { IfOk result (λ part. part ≡ command_with_keys cmd.now indices.now) }
{
    if !has_keys_at(cmd.args(), indices.as_slice()) {
        return Ok(None);
    }
    let part = command_for_multi_slot_indices(alloc, cmd, indices)?;
    Ok(Some(part))
}

/// The command of the part of place `k`, where there is one and the command has its keys.
fn command_of_part(
    alloc: Global,
    cmd: &Cmd,
    parts: &SlotParts,
    k: usize,
) -> Result<Option<Cmd>, AllocError>
    ensures { IfOk result (λ part. part ≡ command_of_part cmd.now parts.now k) }
{
    let Some(part) = parts.as_slice().get(k) else {
        return Ok(None);
    };
    command_with_keys(alloc, cmd, &part.1)
}

impl SlotParts {
    /// The command of the part of place `k`: the name, and the keys of that part, for MSET each with its value. None
    /// where there is no such part, or where the parts are of another command, so that it lacks one of their keys. Each
    /// part of a command's own route has one.
    pub fn command(&self, alloc: Global, cmd: &Cmd, k: usize) -> Result<Option<Cmd>, AllocError>
        ensures is { IfOk result (λ part. part ≡ command_of_part cmd.now self.now k) }
        ensures each { (policy : Option ResponsePolicy)
            → can_be_split cmd.now.args
            (RoutingInfo.MultiNode (MultipleNodeRoutingInfo.MultiSlot self.now) policy) ≡ true
            → k < length self.now
            → IfOk result (λ part. IsSome part) }
    {
        command_of_part(alloc, cmd, self, k)
    }
}
