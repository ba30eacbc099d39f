ghost use Rattle.std.specs.Prelude.{◌≡◌, ◌++◌, ◌∷◌, [], flat_map, OnOk, IfOk};
ghost use Rattle.resp_write.specs.Pack.{bulk_string, pack, pack_commands, pack_each};

use crate::command::Cmd;
use crate::lines::{push_bulk_string, push_number_line};
use containers::{Bytes, Names};
use std::alloc::{AllocError, Global};

/// Appends arguments, each as a byte string.
fn push_arguments(out: &mut Bytes, args: &[Bytes]) -> Result<(), AllocError>
    ensures { OnOk result (out.new ≡ out.old ++ flat_map bulk_string args.now) }
{
    for arg in args {
        push_bulk_string(out, arg.as_slice())?;
    }
    Ok(())
}

/// Appends a command of these arguments.
pub fn push_command(out: &mut Bytes, args: &[Bytes]) -> Result<(), AllocError>
    ensures { OnOk result (out.new ≡ out.old ++ pack args.now) }
{
    if args.is_empty() {
        return Ok(());
    }
    push_number_line(out, b'*', args.len())?;
    push_arguments(out, args)
}

/// The bytes of a command of these arguments. Without any there are no bytes.
pub fn pack_names(alloc: Global, args: &Names) -> Result<Bytes, AllocError>
    ensures { IfOk result (λ packed. packed ≡ pack args.now) }
{
    let mut out = Bytes::new(alloc);
    push_command(&mut out, args.as_slice())?;
    Ok(out)
}

/// The bytes of a command of this name and these arguments.
pub fn pack_call(alloc: Global, name: &[u8], args: &Names) -> Result<Bytes, AllocError>
    ensures { IfOk result (λ packed. packed ≡ pack (name.now ∷ args.now)) }
{
    let Some(count) = args.len().checked_add(1) else {
        return Err(AllocError);
    };
    let mut out = Bytes::new(alloc);
    push_number_line(&mut out, b'*', count)?;
    push_bulk_string(&mut out, name)?;
    push_arguments(&mut out, args.as_slice())?;
    Ok(out)
}

/// Appends a command of one word.
pub fn push_word(out: &mut Bytes, word: &[u8]) -> Result<(), AllocError>
    ensures { OnOk result (out.new ≡ out.old ++ pack (word.now ∷ [])) }
{
    push_number_line(out, b'*', 1)?;
    push_bulk_string(out, word)
}

/// Appends commands one after another.
fn push_each(out: &mut Bytes, commands: &[Cmd]) -> Result<(), AllocError>
    ensures { OnOk result (out.new ≡ out.old ++ pack_each commands.now) }
{
    for command in commands {
        command.append_packed(out)?;
    }
    Ok(())
}

/// Appends a pipeline of these commands, as a transaction or not.
pub fn push_commands(out: &mut Bytes, atomic: bool, commands: &[Cmd]) -> Result<(), AllocError>
    ensures { OnOk result (out.new ≡ out.old ++ pack_commands atomic commands.now) }
{
    if commands.is_empty() {
        return Ok(());
    }
    if !atomic {
        return push_each(out, commands);
    }
    push_word(out, b"MULTI")?;
    push_each(out, commands)?;
    push_word(out, b"EXEC")
}
