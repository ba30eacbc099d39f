ghost use Rattle.std.specs.Prelude.{◌≡◌, ◌≤◌, ◌==◌, length, IfOk};
ghost use Rattle.connection_setup.specs.Setup.{setup, opening_of, selection, library};
ghost use Rattle.driver_model.specs.Setup.{says_nothing, setup_bytes, setup_shape};

use crate::outcome::Shape;
use connection_info::{ProtocolVersion, RedisConnectionInfo};
use connection_setup::setup_messages;
use containers::Bytes;
use std::alloc::{AllocError, Global};

/// How many commands come first: HELLO or AUTH, or none.
#[tactic(auto, using(crate::proofs::Steps::hello_opens, crate::proofs::Steps::password_opens, crate::proofs::Steps::none_opens))]
fn opening_len(info: &RedisConnectionInfo, with_user: bool) -> u32
    ensures count { result ≡ length (opening_of info.now with_user) }
    ensures few { result ≤ 1 }
{
    match info.protocol {
        ProtocolVersion::RESP3 => 1,
        ProtocolVersion::RESP2 => match &info.password {
            Some(_) => 1,
            None => 0,
        },
    }
}

/// How many commands choose a database.
#[tactic(auto, using(crate::proofs::Steps::none_chosen, crate::proofs::Steps::one_chosen))]
fn selection_len(db: i64) -> u32
    ensures count { result ≡ length (selection db) }
    ensures few { result ≤ 1 }
{
    if db == 0 { 0 } else { 1 }
}

/// How many commands name the library.
fn library_len(skip: bool) -> u32
    ensures count { result ≡ length (library skip) }
    ensures few { result ≤ 2 }
{
    if skip { 0 } else { 2 }
}

/// How many commands a setup has, with the user name or without it.
#[tactic(auto, using(crate::proofs::Steps::all_of))]
fn setup_len(info: &RedisConnectionInfo, with_user: bool) -> u32
    ensures { result ≡ length (setup info.now with_user) }
{
    opening_len(info, with_user) + (selection_len(info.db) + library_len(info.skip_set_lib_name))
}

/// Whether nothing is to be said to the server before the first request.
#[tactic(auto, using(crate::proofs::Steps::none_said))]
pub fn says_nothing(info: &RedisConnectionInfo, with_user: bool) -> bool
    ensures { result ≡ says_nothing (setup info.now with_user) }
{
    setup_len(info, with_user) == 0
}

/// The bytes of the message that sets a link up, with the user name or without it.
pub fn setup_bytes(
    alloc: Global,
    info: &RedisConnectionInfo,
    with_user: bool,
) -> Result<Bytes, AllocError>
    ensures { IfOk result (λ bytes. bytes ≡ setup_bytes (setup info.now with_user)) }
{
    let pipeline = setup_messages(alloc, info, with_user)?;
    pipeline.get_packed_pipeline(alloc)
}

/// How many items that message takes: the reply to each of its commands.
pub fn setup_shape(info: &RedisConnectionInfo, with_user: bool) -> Shape
    ensures { result ≡ setup_shape (setup info.now with_user) }
{
    Shape::Pipeline {
        offset: 0,
        count: setup_len(info, with_user),
        transaction: false,
    }
}
