ghost use Rattle.std.specs.Prelude.{◌≡◌, ◌∷◌, [], OnOk, IfOk, option_copied, codes};
ghost use Rattle.connection_setup.specs.Setup.{awaited_command, hello, library, library_fact, library_words, opening, opening_of, pipeline_of, selection, setup, username_in, with_steps};

use connection_info::{ProtocolVersion, RedisConnectionInfo};
use itoa::Buffer;
use resp_write::{Cmd, Pipeline, cmd, pipe};
use std::alloc::{AllocError, Global};

/// The user name that is sent, if any.
pub fn username(info: &RedisConnectionInfo, with_user: bool) -> Option<&[u8]>
    ensures { option_copied result ≡ username_in info.now with_user }
{
    if !with_user {
        return None;
    }
    match &info.username {
        Some(name) => Some(name.as_slice()),
        None => None,
    }
}

/// The command HELLO.
fn hello(alloc: Global) -> Result<Cmd, AllocError>
    ensures { IfOk result (λ c. c ≡ awaited_command (hello [])) }
{
    let mut command = cmd(alloc, b"HELLO")?;
    command.arg(alloc, b"3")?;
    Ok(command)
}

/// The command HELLO with authentication inside.
fn hello_as(alloc: Global, name: &[u8], password: &[u8]) -> Result<Cmd, AllocError>
    ensures { IfOk result
        (λ c. c ≡ awaited_command (hello (codes "AUTH" ∷ name.now ∷ password.now ∷ []))) }
{
    let mut command = hello(alloc)?;
    command.arg(alloc, b"AUTH")?;
    command.arg(alloc, name)?;
    command.arg(alloc, password)?;
    Ok(command)
}

/// The command HELLO with the authentication of the user that a server has by default.
fn hello_unnamed(alloc: Global, password: &[u8]) -> Result<Cmd, AllocError>
    ensures { IfOk result
        (λ c. c ≡ awaited_command (hello (codes "AUTH" ∷ codes "default" ∷ password.now ∷ []))) }
{
    hello_as(alloc, b"default", password)
}

/// Adds HELLO, with authentication inside where there is a password.
fn add_hello(
    alloc: Global,
    pipeline: &mut Pipeline,
    name: Option<&[u8]>,
    password: Option<&[u8]>,
) -> Result<(), AllocError>
    ensures { OnOk result
        (pipeline.new ≡ with_steps pipeline.old
        (opening ProtocolVersion.RESP3 (option_copied name.entry) (option_copied password.entry))) }
{
    let Some(password) = password else {
        let bare = hello(alloc)?;
        return pipeline.add_command(bare);
    };
    match name {
        Some(name) => {
            let named = hello_as(alloc, name, password)?;
            pipeline.add_command(named)
        }
        None => {
            let unnamed = hello_unnamed(alloc, password)?;
            pipeline.add_command(unnamed)
        }
    }
}

/// Adds AUTH where there is a password.
fn add_auth(
    alloc: Global,
    pipeline: &mut Pipeline,
    name: Option<&[u8]>,
    password: Option<&[u8]>,
) -> Result<(), AllocError>
    ensures { OnOk result
        (pipeline.new ≡ with_steps pipeline.old
        (opening ProtocolVersion.RESP2 (option_copied name.entry) (option_copied password.entry))) }
{
    let Some(password) = password else {
        return Ok(());
    };
    let mut command = cmd(alloc, b"AUTH")?;
    if let Some(name) = name {
        command.arg(alloc, name)?;
    }
    command.arg(alloc, password)?;
    pipeline.add_command(command)
}

/// Adds what comes first.
fn add_opening(
    alloc: Global,
    pipeline: &mut Pipeline,
    info: &RedisConnectionInfo,
    with_user: bool,
) -> Result<(), AllocError>
    ensures { OnOk result
        (pipeline.new ≡ with_steps pipeline.old (opening_of info.now with_user)) }
{
    let name = username(info, with_user);
    let password = match &info.password {
        Some(password) => Some(password.as_slice()),
        None => None,
    };
    match info.protocol {
        ProtocolVersion::RESP2 => add_auth(alloc, pipeline, name, password),
        ProtocolVersion::RESP3 => add_hello(alloc, pipeline, name, password),
    }
}

/// Adds the choice of a database, if one is needed.
fn add_selection(
    alloc: Global,
    pipeline: &mut Pipeline,
    info: &RedisConnectionInfo,
) -> Result<(), AllocError>
    ensures { OnOk result (pipeline.new ≡ with_steps pipeline.old (selection info.now.db)) }
{
    if info.db == 0 {
        return Ok(());
    }
    let mut digits = Buffer::new();
    let mut command = cmd(alloc, b"SELECT")?;
    command.arg(alloc, digits.format(info.db).as_bytes())?;
    pipeline.add_command(command)
}

/// The command that tells one fact about the library.
fn library_fact(alloc: Global, name: &[u8], fact: &[u8]) -> Result<Cmd, AllocError>
    ensures { IfOk result (λ c. c ≡ awaited_command (library_words name.now fact.now)) }
{
    let mut command = cmd(alloc, b"CLIENT")?;
    command.arg(alloc, b"SETINFO")?;
    command.arg(alloc, name)?;
    command.arg(alloc, fact)?;
    Ok(command)
}

/// Adds one fact about the library.
fn add_fact(
    alloc: Global,
    pipeline: &mut Pipeline,
    name: &[u8],
    fact: &[u8],
) -> Result<(), AllocError>
    ensures { OnOk result
        (pipeline.new ≡ with_steps pipeline.old (library_fact name.now fact.now)) }
{
    let command = library_fact(alloc, name, fact)?;
    pipeline.add_command(command)
}

/// Adds the name and the version of the library, unless they are left out.
fn add_library(alloc: Global, pipeline: &mut Pipeline, skip: bool) -> Result<(), AllocError>
    ensures { OnOk result (pipeline.new ≡ with_steps pipeline.old (library skip)) }
{
    if skip {
        return Ok(());
    }
    add_fact(alloc, pipeline, b"LIB-NAME", b"redis-rs")?;
    add_fact(alloc, pipeline, b"LIB-VER", b"1.7.0")?;
    Ok(())
}

/// The setup of a connection as one pipeline: HELLO on RESP3, authentication where there is a password, the choice of
/// a database other than 0, and the library's name and version unless they are left out. Without `with_user` the user
/// name is left out. Only want of memory is refused.
pub fn setup_messages(
    alloc: Global,
    info: &RedisConnectionInfo,
    with_user: bool,
) -> Result<Pipeline, AllocError>
    ensures { IfOk result (λ pipeline. pipeline ≡ pipeline_of (setup info.now with_user)) }
{
    let mut pipeline = pipe(alloc);
    add_opening(alloc, &mut pipeline, info, with_user)?;
    add_selection(alloc, &mut pipeline, info)?;
    add_library(alloc, &mut pipeline, info.skip_set_lib_name)?;
    Ok(pipeline)
}
