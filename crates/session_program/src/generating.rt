ghost use Rattle.std.specs.Prelude.{◌≤◌};
ghost use Rattle.program_ends.specs.Sides.{Side, side};
ghost use Rattle.session_program.specs.Does.{Does};

use crate::command::Command;
use outside::Sink;
use program_ends::{Status, print};
use script_generator::generate;
use std::alloc::Global;

/// Makes a script of so many rounds, and writes the line of what is counted in its trace.
#[tactic(auto, using(crate::proofs::Generated::print_does, crate::proofs::Generated::free_does))]
pub fn write_generated<K: Sink>(alloc: Global, rounds: u32, sink: &mut K) -> Status
    requires { rounds ≤ 200000 }
    ensures { (source : Side) → Does (Command.Generate rounds) result source source
        (side (K.held sink.old) (K.fault_count sink.old))
        (side (K.held sink.new) (K.fault_count sink.new)) }
{
    match generate(alloc, rounds) {
        Ok(line) => print(line.as_slice(), Status::Done, sink),
        Err(_) => Status::NoMemory,
    }
}
