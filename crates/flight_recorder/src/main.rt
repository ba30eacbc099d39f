//! Makes a live run, and writes its history as a script in place of its outcomes.
#![tactic(auto)]

mod recording;

use crate::recording::run;
use live_lines::dial_limit;
use outside::{NetWorld, standard_input, standard_output};
use program_ends::Status;
use std::alloc::{AllocError, Global};
use std::env::Args;
use std::io::ErrorKind;
use std::process::ExitCode;
use std::{env, io};

/// The words after the program's name. Where one isn't text there are none, which is no plan.
fn words_of(alloc: Global, args: io::Result<Args>) -> Result<Vec<String>, AllocError> {
    let mut words = Vec::new(alloc);
    let mut rest = match args {
        Ok(args) => args,
        Err(error) => {
            return match error.kind() {
                ErrorKind::OutOfMemory => Err(AllocError),
                _ => Ok(words),
            };
        }
    };
    rest.next();
    for word in rest {
        words.push(word)?;
    }
    Ok(words)
}

fn main(rt: HostRuntime) -> ExitCode {
    let alloc = rt.alloc();
    let Ok(words) = words_of(alloc, env::args(&rt)) else {
        return Status::NoMemory.code();
    };
    let mut source = standard_input(&rt);
    let mut sink = standard_output(&rt);
    let Ok(limit) = dial_limit(alloc, words.as_slice()) else {
        return Status::NoMemory.code();
    };
    let mut world = NetWorld::with_dial_limit(&rt, alloc, limit);
    let status = run(
        &rt,
        alloc,
        words.as_slice(),
        &mut source,
        &mut sink,
        &mut world,
    );
    status.code()
}
