ghost use Rattle.std.specs.Prelude.{◌≡◌, true};
ghost use Rattle.std.specs.Process.{exit_status};
ghost use Rattle.program_ends.specs.Status.{number, is_status};

use std::process::ExitCode;

/// How a run ended.
#[derive(Clone, Copy, Debug, PartialEq, Eq)]
pub enum Status {
    Done,
    /// The words are no command.
    Usage,
    /// The script is at fault.
    Script,
    /// The configuration is refused.
    Config,
    /// An event is bad.
    BadEvent,
    /// Memory was refused.
    NoMemory,
    /// The source failed.
    ReadFault,
    /// The sink failed.
    WriteFault,
    /// A number ran out.
    Spent,
}

impl Status {
    /// Its number.
    pub fn number(self) -> u8
        ensures number { result ≡ number self }
        ensures some { is_status result ≡ true }
    {
        match self {
            Status::Done => 0,
            Status::Usage => 1,
            Status::Script => 2,
            Status::Config => 3,
            Status::BadEvent => 4,
            Status::NoMemory => 5,
            Status::ReadFault => 6,
            Status::WriteFault => 7,
            Status::Spent => 8,
        }
    }

    /// What a program that ended so ends with.
    pub fn code(self) -> ExitCode
        ensures number { exit_status result ≡ number self }
        ensures some { is_status (exit_status result) ≡ true }
    {
        ExitCode::from(self.number())
    }
}
