ghost use Rattle.std.specs.Prelude.{◌≡◌, ◌++◌, ◌∷◌, [], OnOk, OnErr, IfOk, false};
ghost use Rattle.std.specs.Iterator.{YieldsFirstRef, item_count};
ghost use Rattle.resp_write.specs.Command.{with_args};
ghost use Rattle.resp_write.specs.Pack.{pack};

use crate::pack::push_command;
use containers::{Bytes, Names};
use std::alloc::{AllocError, Global};
use std::marker::Model;
use std::slice::Iter;

/// A command: its name and its arguments, and whether its reply is left out.
#[derive(Drop)]
pub struct Cmd {
    args: Names,
    no_response: bool,
}

impl Model for Cmd {
    ghost use Rattle.resp_write.specs.Command.{Command};

    ghost Value = { Command };

    ghost view = { λ c. record { args = c.args; no_response = c.no_response } };
}

impl Cmd {
    /// No name and no arguments. Takes no memory.
    pub fn new(alloc: Global) -> Cmd
        ensures { result ≡ record { args = []; no_response = false } }
    {
        Cmd {
            args: Names::new(alloc),
            no_response: false,
        }
    }

    /// One more argument, the first of which is the name. An error leaves the command as it was.
    pub fn arg(&mut self, alloc: Global, bytes: &[u8]) -> Result<(), AllocError>
        ensures ok { OnOk result (self.new ≡ with_args self.old (bytes.now ∷ [])) }
        ensures err { OnErr result (self.new ≡ self.old) }
    {
        let copy = Bytes::from_slice(alloc, bytes)?;
        self.args.push(copy)?;
        Ok(())
    }

    /// More arguments. An error leaves the command as it was.
    pub(crate) fn append_args(&mut self, alloc: Global, args: &[Bytes]) -> Result<(), AllocError>
        ensures ok { OnOk result (self.new ≡ with_args self.old args.now) }
        ensures err { OnErr result (self.new ≡ self.old) }
    {
        let mut more = Names::from_clones(alloc, args)?;
        self.args.append(&mut more)
    }

    /// The arguments of another command, moved behind these. An error leaves the command as it was.
    pub(crate) fn append(&mut self, mut more: Cmd) -> Result<(), AllocError>
        ensures ok { OnOk result (self.new ≡ with_args self.old more.args) }
        ensures err { OnErr result (self.new ≡ self.old) }
    {
        self.args.append(&mut more.args)
    }

    /// Whether the reply is left out.
    pub fn set_no_response(&mut self, on: bool)
        ensures { self.new ≡ record { args = self.old.args; no_response = on } }
    {
        self.no_response = on;
    }

    pub fn is_no_response(&self) -> bool
        ensures { result ≡ self.now.no_response }
    {
        self.no_response
    }

    /// The arguments in order, the first of which is the name.
    pub fn args(&self) -> &[Bytes]
        ensures { result.now ≡ self.now.args }
    {
        self.args.as_slice()
    }

    /// The arguments in order.
    pub fn args_iter(&self) -> ArgsIter<'_>
        ensures { result ≡ self.now.args }
    {
        ArgsIter {
            names: self.args.as_slice().iter(),
        }
    }

    /// Appends the bytes of the command.
    pub(crate) fn append_packed(&self, out: &mut Bytes) -> Result<(), AllocError>
        ensures { OnOk result (out.new ≡ out.old ++ pack self.now.args) }
    {
        push_command(out, self.args.as_slice())
    }

    /// The bytes of the command. Without a name there are none.
    pub fn get_packed_command(&self, alloc: Global) -> Result<Bytes, AllocError>
        ensures { IfOk result (λ packed. packed ≡ pack self.now.args) }
    {
        let mut out = Bytes::new(alloc);
        push_command(&mut out, self.args.as_slice())?;
        Ok(out)
    }

    /// An equal value of its own.
    pub fn clone(&self, alloc: Global) -> Result<Cmd, AllocError>
        ensures { IfOk result (λ c. c ≡ self.now) }
    {
        let args = self.args.clone(alloc)?;
        Ok(Cmd {
            args,
            no_response: self.no_response,
        })
    }
}

/// The arguments of a command that are left.
#[derive(Drop)]
pub struct ArgsIter<'a> {
    names: Iter<'a, Bytes>,
}

impl<'a> Model for ArgsIter<'a> {
    ghost use Rattle.std.specs.Prelude.{List, ℕ};
    ghost use Rattle.std.specs.Slice.Iter.{iter_rest};

    ghost Value = { List (List ℕ) };

    ghost view = { λ a. iter_rest a.names };
}

impl<'a> Iterator for ArgsIter<'a> {
    type Item = &'a [u8];

    ghost next_gives = { YieldsFirstRef (λ s. s) };

    ghost remaining = { item_count (λ s. s) };

    fn next(&mut self) -> Option<&'a [u8]> {
        let name = self.names.next()?;
        Some(name.as_slice())
    }
}
