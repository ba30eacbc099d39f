ghost use Rattle.std.specs.Prelude.{◌≡◌, ◌∷◌, [], codes, IfOk};
ghost use Rattle.script_generator.specs.Script.{generated_config, command, is_cancelled, replies};

use containers::{Bytes, Names};
use driver_model::{AddressWords, Config, ConnectionWords, Event, Submission};
use itoa::Buffer;
use std::alloc::{AllocError, Global};

/// The configuration of the script.
pub fn generated_config(alloc: Global) -> Result<Config, AllocError>
    ensures { IfOk result (λ config. config ≡ generated_config) }
{
    let url = Bytes::from_slice(alloc, b"redis://h:6379")?;
    let connection = ConnectionWords {
        connect: Some(None),
        response: Some(None),
        limit: None,
        buffer: None,
        boundary: None,
        push: None,
        creds: None,
    };
    Ok(Config::Single {
        address: AddressWords {
            url,
            lib: Some(false),
        },
        connection,
    })
}

/// The key of a round: k, followed directly by its number modulo 1000.
fn key_of(alloc: Global, round: u32) -> Result<Bytes, AllocError>
    ensures { IfOk result (λ key. codes "GET" ∷ key ∷ [] ≡ command round) }
{
    let mut digits = Buffer::new();
    let mut key = Bytes::from_slice(alloc, b"k")?;
    key.extend_from_slice(digits.format(round % 1000).as_bytes())?;
    Ok(key)
}

/// The command of a round.
pub fn command_of(alloc: Global, round: u32) -> Result<Submission, AllocError>
    ensures { IfOk result (λ what. what ≡ Submission.Cmd (command round)) }
{
    let name = Bytes::from_slice(alloc, b"GET")?;
    let key = key_of(alloc, round)?;
    let mut args = Names::new(alloc);
    args.push(name)?;
    args.push(key)?;
    Ok(Submission::Cmd { args })
}

/// Whether the caller of a round drops its request.
pub fn is_cancelled(round: u32) -> bool
    ensures { result ≡ is_cancelled round }
{
    round % 16 == 15
}

/// The line of the reply.
pub fn reply(alloc: Global) -> Result<Event, AllocError>
    ensures { IfOk result (λ event. event ≡ replies) }
{
    Event::bytes(alloc, 0, b"+v\r\n")
}
