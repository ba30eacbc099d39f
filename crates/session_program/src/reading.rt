ghost use Rattle.std.specs.Prelude.{◌≡◌, ◌<◌, ◌≤◌, ◌-◌, length, Ok, IfOk, IsErrOf};
ghost use Rattle.outside.specs.Ends.{Rose, IsAtEnd};
ghost use Rattle.script_text.specs.Script.{max_text};
ghost use Rattle.session_program.specs.Reading.{Gains, Refuses, Decides};

use outside::{Got, Source};
use script_text::Intake;
use std::alloc::{AllocError, Global};

/// How many bytes are read at a time.
const ROOM: usize = 65_536;

/// Why a script's text was not read.
#[derive(Clone, Copy, Debug, PartialEq, Eq)]
pub enum ReadError {
    /// The source failed.
    Fault,
    NoMemory,
}

impl From<AllocError> for ReadError {
    ghost use Rattle.std.specs.Prelude.{◌≡◌};
    ghost use Rattle.session_program.specs.declared.reading.ReadError.TheVariants.{NoMemory};

    ghost from_gives = { λ _ e. e ≡ NoMemory };

    fn from(_error: AllocError) -> Self {
        ReadError::NoMemory
    }
}

/// How far reading has come after one read.
#[derive(Clone, Copy, Debug, PartialEq, Eq)]
enum Progress {
    /// There may be more.
    More,
    /// The source is at its end.
    Ended,
    /// A limit is passed.
    Passed,
}

/// Where bytes are read into.
fn new_room(alloc: Global) -> Result<Vec<u8>, AllocError>
    ensures { IfOk result (λ room. length room.items ≡ ROOM) }
{
    vec![in alloc; 0u8; ROOM]
}

/// Reads once.
fn read_once<S: Source>(
    source: &mut S,
    intake: &mut Intake,
    room: &mut [u8],
) -> Result<Progress, ReadError>
    requires { 0 < length room.old }
    ensures more { result ≡ Ok Progress.More
        → Gains (S.left source.old) (S.left source.new) intake.old intake.new }
    ensures falls { result ≡ Ok Progress.More
        → max_text - length intake.new < max_text - length intake.old }
    ensures same { result ≡ Ok Progress.Ended → intake.new ≡ intake.old }
    ensures ended { result ≡ Ok Progress.Ended
        → Gains (S.left source.old) (S.left source.new) intake.old intake.new }
    ensures end { result ≡ Ok Progress.Ended → IsAtEnd (S.left source.new) }
    ensures passed { result ≡ Ok Progress.Passed
        → Refuses (S.left source.old) (S.left source.new) intake.old intake.new }
    ensures later { S.fault_count source.old ≤ S.fault_count source.new }
    ensures cause { IsErrOf result ReadError.Fault
        → Rose (S.fault_count source.old) (S.fault_count source.new) }
{
    match source.read(room) {
        Got::Read(count) => {
            if intake.push(&room[..count])? {
                Ok(Progress::More)
            } else {
                Ok(Progress::Passed)
            }
        }
        Got::End => Ok(Progress::Ended),
        Got::Failed => Err(ReadError::Fault),
    }
}

/// Reads a script's text, to the source's end or until a limit is passed.
pub fn read_text<S: Source>(alloc: Global, source: &mut S) -> Result<Intake, ReadError>
    ensures text { IfOk result (Decides (S.left source.old) (S.left source.new)) }
    ensures later { S.fault_count source.old ≤ S.fault_count source.new }
    ensures cause { IsErrOf result ReadError.Fault
        → Rose (S.fault_count source.old) (S.fault_count source.new) }
{
    let mut intake = Intake::new(alloc);
    let mut room = new_room(alloc)?;
    let room = room.as_mut_slice();
    'reads: loop {
        match read_once(source, &mut intake, room)? {
            Progress::More => {}
            Progress::Ended => return Ok(intake),
            Progress::Passed => return Ok(intake),
        }
    }
}
