ghost use Rattle.std.specs.Prelude.{◌≡◌, ◌++◌, decimal, OnOk, OnErr, IfOk};
ghost use Rattle.program_ends.specs.Lines.{config_line, numbered_line};

use containers::Bytes;
use itoa::Buffer;
use redis_error::ConfigName;
use std::alloc::{AllocError, Global};

/// The line where the words are no command.
pub const USAGE: &[u8] = b"usage: session_tool replay or gen N or live CONFIG\n";

/// The line where the source failed.
pub const READ_FAULT: &[u8] = b"read fault\n";

/// Words, a space and a number as a line.
#[tactic(auto, unfolding(crate::specs::Lines::numbered_line))]
fn numbered_line(alloc: Global, words: &[u8], number: u64) -> Result<Bytes, AllocError>
    ensures { IfOk result (λ line. line ≡ numbered_line words.now number) }
{
    let mut digits = Buffer::new();
    let mut line = Bytes::from_slice(alloc, words)?;
    line.push(b' ')?;
    line.extend_from_slice(digits.format(number).as_bytes())?;
    line.push(b'\n')?;
    Ok(line)
}

/// Appends a number.
pub fn push_number(text: &mut Bytes, number: u64) -> Result<(), AllocError>
    ensures { OnOk result (text.new ≡ text.old ++ decimal number) }
{
    let mut digits = Buffer::new();
    text.extend_from_slice(digits.format(number).as_bytes())
}

/// Appends a line of a word or two, a space and a number. An error leaves the text as it was.
pub fn push_line(
    alloc: Global,
    text: &mut Bytes,
    words: &[u8],
    number: u64,
) -> Result<(), AllocError>
    ensures ok { OnOk result (text.new ≡ text.old ++ numbered_line words.now number) }
    ensures err { OnErr result (text.new ≡ text.old) }
{
    let line = numbered_line(alloc, words, number)?;
    text.extend_from_slice(line.as_slice())
}

/// The line of a configuration that is refused for what it says of this name.
#[tactic(auto, unfolding(crate::specs::Lines::config_line))]
fn config_line(alloc: Global, name: ConfigName) -> Result<Bytes, AllocError>
    ensures { IfOk result (λ line. line ≡ config_line name) }
{
    let mut line = Bytes::from_slice(alloc, b"config ")?;
    line.extend_from_slice(name.name().as_bytes())?;
    line.push(b'\n')?;
    Ok(line)
}

/// Appends that line. An error leaves the text as it was.
pub fn push_config_line(alloc: Global, text: &mut Bytes, name: ConfigName) -> Result<(), AllocError>
    ensures ok { OnOk result (text.new ≡ text.old ++ config_line name) }
    ensures err { OnErr result (text.new ≡ text.old) }
{
    let line = config_line(alloc, name)?;
    text.extend_from_slice(line.as_slice())
}
