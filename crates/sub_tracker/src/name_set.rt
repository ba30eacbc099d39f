ghost use Rattle.std.specs.Prelude.{◌≡◌, ◌∷◌, [], false, OnOk, IfOk};
ghost use Rattle.std.specs.BTreeMap.{is_at};
ghost use Rattle.std.specs.BTreeSet.{insert_key};
ghost use Rattle.std.specs.Set.{remove_key};
ghost use Rattle.sub_tracker.specs.Subscribed.{byte_order};
ghost use Rattle.sub_tracker.specs.Held.{with_all, without_all};
ghost use Rattle.sub_tracker.specs.Pipeline.{command_for, followed_by};

use containers::Names;
use resp_write::{Cmd, Pipeline, cmd};
use std::alloc::{AllocError, Global};
use std::collections::BTreeSet;
use std::marker::Model;

/// Names of one family. Contracts see them in byte order.
#[derive(Drop)]
pub struct NameSet {
    names: BTreeSet<Vec<u8>>,
}

impl Model for NameSet {
    ghost use Rattle.std.specs.Prelude.{List, ℕ};
    ghost use Rattle.sub_tracker.specs.Texts.{texts};

    ghost Value = { List (List ℕ) };

    ghost view = { λ s. texts s.names.keys };
}

impl NameSet {
    /// No names. Takes no memory.
    pub fn new(alloc: Global) -> NameSet
        ensures { result ≡ [] }
    {
        NameSet {
            names: BTreeSet::new(alloc),
        }
    }

    fn add(&mut self, alloc: Global, name: &[u8]) -> Result<(), AllocError>
        ensures { OnOk result (self.new ≡ insert_key byte_order self.old name.now) }
    {
        let copy = Vec::from_slice(alloc, name)?;
        self.names.insert(copy)?;
        Ok(())
    }

    fn remove(&mut self, name: &[u8])
        ensures { self.new ≡ remove_key (is_at (byte_order name.now)) self.old }
    {
        self.names.remove(name);
    }

    /// Puts each of these names at its place.
    pub fn add_all(&mut self, alloc: Global, names: &Names) -> Result<(), AllocError>
        ensures { OnOk result (self.new ≡ with_all self.old names.now) }
    {
        for name in names.as_slice() {
            self.add(alloc, name.as_slice())?;
        }
        Ok(())
    }

    /// Takes out each of these names that is there. Takes no memory.
    pub fn remove_all(&mut self, names: &Names)
        ensures { self.new ≡ without_all self.old names.now }
    {
        for name in names.as_slice() {
            self.remove(name.as_slice());
        }
    }

    /// The command of this word with all names.
    fn command(&self, alloc: Global, word: &[u8]) -> Result<Cmd, AllocError>
        ensures { IfOk result
            (λ c. c ≡ record { args = word.now ∷ self.now; no_response = false }) }
    {
        let mut command = cmd(alloc, word)?;
        for name in &self.names {
            command.arg(alloc, name.as_slice())?;
        }
        Ok(command)
    }

    /// One more command for the names, if there are any.
    pub fn append_to(
        &self,
        alloc: Global,
        word: &[u8],
        pipeline: &mut Pipeline,
    ) -> Result<(), AllocError>
        ensures { OnOk result
            (pipeline.new ≡ followed_by pipeline.old (command_for word.now self.now)) }
    {
        if self.names.is_empty() {
            return Ok(());
        }
        let command = self.command(alloc, word)?;
        pipeline.add_command(command)
    }
}
