ghost use Rattle.std.specs.Prelude.{◌≡◌, ℕ, ◌≤◌};
ghost use Rattle.session_program.specs.Words.{command_of, two_words_command, word_command};

use crate::rounds::rounds_of;

/// What the words ask for.
#[derive(Clone, Copy, Debug, PartialEq, Eq)]
pub enum Command {
    Replay,
    /// A script of so many rounds is made: one at least, and 200,000 at most.
    Generate(u32),
    Help,
    Version,
    /// The words are no command.
    Unknown,
}

/// What one word asks for.
fn word_command(word: &[u8]) -> Command
    ensures is { result ≡ word_command word.now }
    ensures few { (n : ℕ) → result ≡ Command.Generate n → n ≤ 200000 }
{
    if word == b"replay".as_slice() {
        Command::Replay
    } else if word == b"--help".as_slice() {
        Command::Help
    } else if word == b"--version".as_slice() {
        Command::Version
    } else {
        Command::Unknown
    }
}

/// What two words ask for.
fn two_words_command(first: &[u8], second: &[u8]) -> Command
    ensures is { result ≡ two_words_command first.now second.now }
    ensures few { (n : ℕ) → result ≡ Command.Generate n → n ≤ 200000 }
{
    if first != b"gen".as_slice() {
        return Command::Unknown;
    }
    match rounds_of(second) {
        None => Command::Unknown,
        Some(0) => Command::Unknown,
        Some(rounds) => Command::Generate(rounds),
    }
}

/// What the words after the program's name ask for.
pub fn command_of(words: &[String]) -> Command
    ensures is { result ≡ command_of words.now }
    ensures few { (n : ℕ) → result ≡ Command.Generate n → n ≤ 200000 }
{
    match words {
        [word] => word_command(word.as_bytes()),
        [first, second] => two_words_command(first.as_bytes(), second.as_bytes()),
        _ => Command::Unknown,
    }
}
