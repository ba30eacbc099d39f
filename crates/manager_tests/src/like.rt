use crate::manager::client;
use conn_manager::{ConnectionEvent, ConnectionLike, ConnectionManager, ConnectionNews};
use connection_info::ProtocolVersion;
use connection_tests::servers::must;
use driver_model::{LinkNews, Outcome};
use mux_client::MultiplexedConnection;
use mux_conn::Pending;
use resp_value::Value;
use resp_write::{cmd, pipe};
use std::alloc::{AllocError, Global};

/// Tells it this. False where it may not be told so.
fn hear<C: ConnectionLike>(
    alloc: Global,
    conn: &mut C,
    news: ConnectionNews<'_>,
) -> Result<bool, AllocError>
where
    C::Act: Drop,
{
    if !conn.can_hear(news) {
        return Ok(false);
    }
    let mut acts = Vec::new(alloc);
    must(conn.step(alloc, ConnectionEvent { word: 0, news }, &mut acts))?;
    Ok(true)
}

/// Tells it this of its first link.
fn link_hears<C: ConnectionLike>(
    alloc: Global,
    conn: &mut C,
    news: LinkNews<'_>,
) -> Result<bool, AllocError>
where
    C::Act: Drop,
{
    hear(alloc, conn, ConnectionNews::Link { link: 0, news })
}

/// Asks for the value of a.
fn get<C: ConnectionLike>(alloc: Global, conn: &mut C) -> Result<Pending, AllocError> {
    let mut command = cmd(alloc, b"GET")?;
    command.arg(alloc, b"a")?;
    must(conn.req_packed_command(alloc, &command))
}

/// Asks for the value of a by a pipeline.
fn get_all<C: ConnectionLike>(alloc: Global, conn: &mut C) -> Result<Pending, AllocError> {
    let mut pipeline = pipe(alloc);
    pipeline.cmd(alloc, b"GET")?.arg(alloc, b"a")?;
    must(conn.req_packed_commands(alloc, &pipeline, 0, 1))
}

/// The simple text that a request is answered with.
fn text<'a, C: ConnectionLike>(conn: &'a C, request: &Pending) -> &'a [u8] {
    match conn.poll(request) {
        Some(Outcome::One(Value::SimpleString(text))) => text.as_slice(),
        Some(_) => b"other",
        None => b"pending",
    }
}

/// The outcomes of three that share it, of whom the first goes before the replies come: none, its own, and a list.
fn outcomes<C: ConnectionLike>(alloc: Global, conn: &mut C) -> Result<[Pending; 3], AllocError>
where
    C::Act: Drop,
{
    let first = get(alloc, conn)?;
    let second = get(alloc, conn)?;
    let third = get_all(alloc, conn)?;
    hear(alloc, conn, ConnectionNews::Silence)?;
    conn.cancel(first);
    let piece = b"+x\r\n+y\r\n+z\r\n";
    link_hears(alloc, conn, LinkNews::Came { piece })?;
    Ok([first, second, third])
}

/// Whether whoever shares it gets his own reply.
fn answers<C: ConnectionLike>(alloc: Global, conn: &mut C) -> Result<bool, AllocError>
where
    C::Act: Drop,
{
    let is_told = hear(alloc, conn, ConnectionNews::Silence)?;
    let is_up = link_hears(alloc, conn, LinkNews::Connected)?;
    let [first, second, third] = outcomes(alloc, conn)?;
    let is_right = text(conn, &first) == b"pending".as_slice()
        && text(conn, &second) == b"y".as_slice()
        && text(conn, &third) == b"other".as_slice();
    let took_more = link_hears(alloc, conn, LinkNews::Took { count: 1000 })?;
    Ok(is_told && is_up && is_right && !took_more && conn.get_db() == 0)
}

fn connection(alloc: Global) -> Result<MultiplexedConnection, AllocError> {
    let client = client(alloc, ProtocolVersion::RESP2)?;
    let info = &client.get_connection_info().redis;
    must(MultiplexedConnection::new(alloc, info, 0))
}

#[test]
fn a_connection_is_like_one(rt: HostRuntime) -> Result<(), AllocError> {
    let mut conn = connection(rt.alloc())?;
    assert!(rt; answers(rt.alloc(), &mut conn)?);
    Ok(())
}

fn manager(alloc: Global) -> Result<ConnectionManager, AllocError> {
    let client = client(alloc, ProtocolVersion::RESP2)?;
    must(ConnectionManager::new(alloc, &client))
}

#[test]
fn a_manager_is_like_one(rt: HostRuntime) -> Result<(), AllocError> {
    let mut manager = manager(rt.alloc())?;
    assert!(rt; answers(rt.alloc(), &mut manager)?);
    Ok(())
}
