ghost use Rattle.std.specs.Prelude.{◌≡◌, ◌++◌, ◌∷◌, [], ◌==◌, length, OnOk, OnErr, IfOk, true, false};
ghost use Rattle.std.specs.Borrow.{sem};
ghost use Rattle.std.specs.Slice.Iter.{iter_rest};
ghost use Rattle.resp_write.specs.Command.{mark_last, with_command};
ghost use Rattle.resp_write.specs.Pack.{pack_pipeline};
ghost use Rattle.resp_write.specs.Lent.{lends_last};

use crate::command::Cmd;
use crate::named::cmd;
use crate::pack::push_commands;
use containers::Bytes;
use std::alloc::{AllocError, Global};
use std::marker::Model;
use std::slice::Iter;

/// Commands that are sent together, and whether as a transaction.
#[derive(Drop)]
pub struct Pipeline {
    commands: Vec<Cmd>,
    ignored: Vec<bool>,
    atomic: bool,
}

impl Model for Pipeline {
    ghost use Rattle.resp_write.specs.Command.{CommandList};

    ghost Value = { CommandList };

    ghost view = { λ p. record { commands = p.commands.items; ignored = p.ignored.items; atomic = p.atomic } };
}

/// The commands of a pipeline that are left.
pub type CmdIter<'a> = Iter<'a, Cmd>;

/// No commands, and no transaction. Takes no memory.
pub fn pipe(alloc: Global) -> Pipeline
    ensures { result ≡ record { commands = []; ignored = []; atomic = false } }
{
    Pipeline::new(alloc)
}

impl Pipeline {
    /// No commands, and no transaction. Takes no memory.
    pub fn new(alloc: Global) -> Pipeline
        ensures { result ≡ record { commands = []; ignored = []; atomic = false } }
    {
        Pipeline {
            commands: Vec::new(alloc),
            ignored: Vec::new(alloc),
            atomic: false,
        }
    }

    /// One more command. An error leaves the pipeline as it was.
    pub fn add_command(&mut self, command: Cmd) -> Result<(), AllocError>
        ensures ok { OnOk result (self.new ≡ with_command self.old command) }
        ensures err { OnErr result (self.new ≡ self.old) }
    {
        self.ignored.reserve(1)?;
        self.commands.push(command)?;
        self.ignored.push_reserved(false);
        Ok(())
    }

    /// One more command of this name, which is lent. An error leaves the pipeline as it was.
    pub fn cmd(&mut self, alloc: Global, name: &[u8]) -> Result<&mut Cmd, AllocError>
        ensures* writes_back { sem 𝓛 (lends_last self.entry result) }
        ensures value { IfOk result
            (λ c. c.now ≡ record { args = name.now ∷ []; no_response = false }) }
    {
        let command = cmd(alloc, name)?;
        self.ignored.reserve(1)?;
        self.commands.reserve(1)?;
        self.ignored.push_reserved(false);
        let last = self.commands.push_mut(command)?;
        Ok(last)
    }

    /// Makes it a transaction.
    pub fn atomic(&mut self)
        ensures { self.new ≡ record self.old { atomic = true } }
    {
        self.atomic = true;
    }

    /// Marks the last command, if there is one. No call reads the mark.
    pub fn ignore(&mut self)
        ensures { self.new ≡ record self.old { ignored = mark_last self.old.ignored } }
    {
        if let Some(last) = self.ignored.last_mut() {
            *last = true;
        }
    }

    /// How many commands there are.
    pub fn len(&self) -> usize
        ensures { result ≡ length self.now.commands }
    {
        self.commands.len()
    }

    pub fn is_empty(&self) -> bool
        ensures { result ≡ (length self.now.commands == 0) }
    {
        self.commands.is_empty()
    }

    /// Whether it is a transaction.
    pub fn is_transaction(&self) -> bool
        ensures { result ≡ self.now.atomic }
    {
        self.atomic
    }

    /// The commands in order.
    pub fn cmd_iter(&self) -> CmdIter<'_>
        ensures { iter_rest result ≡ self.now.commands }
    {
        self.commands.iter()
    }

    /// The bytes of the commands, with MULTI before and EXEC after if it is a transaction. Without commands there are none.
    pub fn get_packed_pipeline(&self, alloc: Global) -> Result<Bytes, AllocError>
        ensures { IfOk result (λ packed. packed ≡ pack_pipeline self.now) }
    {
        let mut out = Bytes::new(alloc);
        push_commands(&mut out, self.atomic, self.commands.as_slice())?;
        Ok(out)
    }

    /// An equal value of its own.
    pub fn clone(&self, alloc: Global) -> Result<Pipeline, AllocError>
        ensures { IfOk result (λ p. p ≡ self.now) }
    {
        let mut commands = Vec::new(alloc);
        for command in &self.commands {
            let copy = command.clone(alloc)?;
            commands.push(copy)?;
        }
        let ignored = Vec::from_slice(alloc, self.ignored.as_slice())?;
        Ok(Pipeline {
            commands,
            ignored,
            atomic: self.atomic,
        })
    }
}
