ghost use Rattle.std.specs.Prelude.{◌≡◌, ◌==◌, ◌<◌, ◌≤◌, [], ◌∷◌, ◌++◌, length, OnOk, OnErr, IfOk};

use containers::{Names, Seq};
use std::alloc::{AllocError, Global};
use std::marker::Model;

/// The most commands of one request.
const MAX_COMMANDS: usize = 4_294_967_294;

/// Commands in order, each its name and its arguments: fewer than 2^32 - 1. Contracts see the list of them.
#[derive(Drop)]
pub struct Commands {
    items: Seq<Names>,
}

impl Model for Commands {
    ghost use Rattle.std.specs.Prelude.{List, ℕ, length, ◌≤◌};

    ghost Value = { List (List (List ℕ)) };

    ghost view = { λ c. c.items };

    ghost invariant = { λ c. length c.items ≤ 4_294_967_294 };
}

impl Commands {
    /// No commands. Takes no memory.
    pub fn new(alloc: Global) -> Commands
        ensures { result ≡ [] }
    {
        Commands {
            items: Seq::new(alloc),
        }
    }

    /// How many there are.
    pub fn len(&self) -> usize
        ensures value { result ≡ length self.now }
        ensures few { result ≤ 4_294_967_294 }
    {
        self.items.len()
    }

    pub fn is_empty(&self) -> bool
        ensures { result ≡ (length self.now == 0) }
    {
        self.items.is_empty()
    }

    pub fn as_slice(&self) -> &[Names]
        ensures { result.now ≡ self.now }
    {
        self.items.as_slice()
    }

    /// One more command at the end. An error leaves the commands as they were; it also comes where there are 2^32 - 2.
    pub fn push(&mut self, command: Names) -> Result<(), AllocError>
        ensures ok { OnOk result (self.new ≡ self.old ++ command ∷ []) }
        ensures err { OnErr result (self.new ≡ self.old) }
    {
        if self.items.len() >= MAX_COMMANDS {
            return Err(AllocError);
        }
        self.items.push(command)?;
        Ok(())
    }

    /// An equal value of its own.
    pub fn clone(&self, alloc: Global) -> Result<Commands, AllocError>
        ensures { IfOk result (λ c. c ≡ self.now) }
    {
        let items = self.items.clone(alloc)?;
        Ok(Commands { items })
    }
}
