ghost use Rattle.std.specs.Prelude.{◌≡◌, false};
ghost use Rattle.transactions.specs.Calls.{Told, Tells, is_lone_nameless};
ghost use Rattle.transactions.specs.Calls.Made.{command, together};

use crate::call_error::CallError;
use resp_value::{Value, Values};
use resp_write::{Cmd, Pipeline};
use std::alloc::Global;

/// Whatever makes calls on a server, one after another. It tells which calls it has made, each with its answer.
pub trait Calls {
    // The calls that it has made, and how many of them it couldn't list.
    ghost told: { Self → Told };

    /// Makes the call of one command, and waits for its answer.
    fn call(&mut self, alloc: Global, cmd: &Cmd) -> Result<Value, CallError>
        ensures { Tells (told self.old) (told self.new) (command cmd.now result) };

    /// Makes the call of several commands, and waits for their answers. One command without a name is no such call.
    fn call_pipeline(&mut self, alloc: Global, pipeline: &Pipeline) -> Result<Values, CallError>
        requires { is_lone_nameless pipeline.now ≡ false }
        ensures { Tells (told self.old) (told self.new) (together pipeline.now result) };
}
