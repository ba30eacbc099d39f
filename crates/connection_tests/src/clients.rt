ghost use Rattle.std.specs.Prelude.{◌≡◌, true};
ghost use Rattle.driver_model.specs.News.{told};
ghost use Rattle.mux_conn.specs.Effects.{CanTake, IsWithin};

use crate::acts::are;
use crate::servers::{must, said};
use connection_info::{AsyncConnectionConfig, Client, OpenError, ProtocolVersion};
use containers::Bytes;
use credentials::BasicAuth;
use driver_model::{Config, LinkEvent, LinkNews, Outcome};
use mux_client::{
    Connect, ConnectionGetters, ConnectionLike, MultiplexedConnection, Pending, SendError,
};
use redis_error::{ConfigName, FaultKind, RedisError};
use resp_value::Value;
use resp_write::{Pipeline, cmd};
use std::alloc::{AllocError, Global};
use std::process::Abort;

/// These credentials.
fn auth(alloc: Global, username: &[u8], password: &[u8]) -> Result<BasicAuth, AllocError> {
    let username = Bytes::from_slice(alloc, username)?;
    let password = Bytes::from_slice(alloc, password)?;
    Ok(BasicAuth::new(username, password))
}

/// A connection over link 3 to a server to which nothing is to be said.
fn connected(
    alloc: Global,
    config: &AsyncConnectionConfig,
) -> Result<MultiplexedConnection, AllocError> {
    let info = said(ProtocolVersion::RESP2);
    let mut conn = must(MultiplexedConnection::new_with_config(alloc, &info, 3, config))?;
    hear(alloc, &mut conn, LinkNews::Connected)?;
    Ok(conn)
}

/// One turn.
pub(crate) fn hear(
    alloc: Global,
    conn: &mut MultiplexedConnection,
    news: LinkNews<'_>,
) -> Result<(), AllocError>
    requires { IsWithin conn.old.core.life (told news) }
{
    let mut acts = Vec::new(alloc);
    must(conn.step(alloc, LinkEvent { word: 0, news }, &mut acts))
}

/// Whether a turn shows acts of these names.
fn shows(
    alloc: Global,
    conn: &mut MultiplexedConnection,
    news: LinkNews<'_>,
    names: &[&str],
) -> Result<bool, AllocError>
    requires { IsWithin conn.old.core.life (told news) }
{
    let mut acts = Vec::new(alloc);
    must(conn.step(alloc, LinkEvent { word: 0, news }, &mut acts))?;
    Ok(are(acts.as_slice(), names))
}

/// A command without arguments is sent.
fn send(
    alloc: Global,
    conn: &mut MultiplexedConnection,
    name: &[u8],
) -> Result<Pending, AllocError> {
    let command = cmd(alloc, name)?;
    must(conn.req_packed_command(alloc, &command))
}

/// The text of a request's outcome.
pub(crate) fn outcome<'a>(conn: &'a MultiplexedConnection, request: &Pending) -> &'a [u8] {
    match conn.poll(request) {
        None => b"pending",
        Some(Outcome::One(value)) => text(value),
        Some(Outcome::Many(_)) => b"many",
        Some(Outcome::Done) => b"done",
        Some(Outcome::Fault(error)) => fault(error),
    }
}

fn text(value: &Value) -> &[u8] {
    match value {
        Value::SimpleString(text) => text.as_slice(),
        _ => b"other",
    }
}

fn fault(error: &RedisError) -> &'static [u8] {
    match error {
        RedisError::Io {
            fault: FaultKind::TimedOut,
        } => b"timed out",
        RedisError::Server(_) => b"server",
        _ => b"other",
    }
}

/// Whether a request has this outcome.
fn has(conn: &MultiplexedConnection, request: Pending, wanted: &[u8]) -> bool {
    outcome(conn, &request) == wanted
}

/// What three requests show that are to be answered in time.
const STARTED: [&str; 7] = [
    "timer", "start", "timer", "start", "timer", "start", "write",
];

/// Three callers send, and the second goes before the replies come.
fn talk(
    rt: &impl Abort,
    alloc: Global,
    conn: &mut MultiplexedConnection,
) -> Result<(), AllocError> {
    let first = send(alloc, conn, b"A")?;
    let second = send(alloc, conn, b"B")?;
    let third = send(alloc, conn, b"C")?;
    assert!(rt; shows(alloc, conn, LinkNews::Silence, &STARTED)?);
    conn.cancel(second);
    hear_replies(rt, alloc, conn, [first, second, third])
}

/// Three replies come, of which nobody awaits the second.
fn hear_replies(
    rt: &impl Abort,
    alloc: Global,
    conn: &mut MultiplexedConnection,
    requests: [Pending; 3],
) -> Result<(), AllocError> {
    let [first, second, third] = requests;
    let piece = b"+1\r\n+2\r\n+3\r\n";
    assert!(rt;
        shows(
            alloc,
            conn,
            LinkNews::Came { piece },
            &["answered", "answered"]
        )?
    );
    for (request, wanted) in [(first, "1"), (second, "pending"), (third, "3")] {
        assert!(rt; has(conn, request, wanted.as_bytes()));
    }
    Ok(())
}

#[test]
fn replies_go_to_their_callers(rt: HostRuntime) -> Result<(), AllocError> {
    let mut conn = connected(rt.alloc(), &AsyncConnectionConfig::new())?;
    talk(&rt, rt.alloc(), &mut conn)
}

/// A new connection connects, sends and is answered.
fn answer(
    rt: &impl Abort,
    alloc: Global,
    conn: &mut MultiplexedConnection,
) -> Result<(), AllocError> {
    assert!(rt;
        shows(
            alloc,
            conn,
            LinkNews::Connected,
            &["connect-timer", "created"]
        )?
    );
    ping(rt, alloc, conn)
}

/// It sends and is answered.
fn ping(
    rt: &impl Abort,
    alloc: Global,
    conn: &mut MultiplexedConnection,
) -> Result<(), AllocError> {
    let request = send(alloc, conn, b"PING")?;
    assert!(rt; shows(alloc, conn, LinkNews::Silence, &["timer", "start", "write"])?);
    let piece = b"+PONG\r\n";
    hear(alloc, conn, LinkNews::Came { piece })?;
    assert!(rt; has(conn, request, b"PONG"));
    Ok(())
}

#[test]
fn a_connection_of_defaults_answers(rt: HostRuntime) -> Result<(), AllocError> {
    let mut conn = must(MultiplexedConnection::new(rt.alloc(), &said(ProtocolVersion::RESP2), 0))?;
    answer(&rt, rt.alloc(), &mut conn)
}

/// The time of a request is over before its reply comes.
fn come_late(
    rt: &impl Abort,
    alloc: Global,
    conn: &mut MultiplexedConnection,
) -> Result<(), AllocError> {
    conn.set_response_timeout(7);
    let late = send(alloc, conn, b"A")?;
    let next = send(alloc, conn, b"B")?;
    hear(alloc, conn, LinkNews::Silence)?;
    assert!(rt; conn.time_out(alloc, late).is_ok());
    assert!(rt; has(conn, late, b"timed out"));
    hear_late(rt, alloc, conn, next)
}

/// Its reply comes after all, and that of the next request.
fn hear_late(
    rt: &impl Abort,
    alloc: Global,
    conn: &mut MultiplexedConnection,
    next: Pending,
) -> Result<(), AllocError> {
    let piece = b"+1\r\n+2\r\n";
    assert!(rt;
        shows(
            alloc,
            conn,
            LinkNews::Came { piece },
            &["answered", "answered"]
        )?
    );
    assert!(rt; has(conn, next, b"2"));
    Ok(())
}

#[test]
fn the_time_of_a_request_is_over(rt: HostRuntime) -> Result<(), AllocError> {
    let mut conn = connected(rt.alloc(), &AsyncConnectionConfig::new())?;
    come_late(&rt, rt.alloc(), &mut conn)
}

/// Credentials come of the source that a connection asks for once it is connected.
fn authorize(
    rt: &impl Abort,
    alloc: Global,
    conn: &mut MultiplexedConnection,
    auth: &BasicAuth,
) -> Result<(), AllocError> {
    let asks = ["connect-timer", "need-creds"];
    assert!(rt; shows(alloc, conn, LinkNews::Connected, &asks)?);
    let says = ["setup", "write"];
    assert!(rt; shows(alloc, conn, LinkNews::Authorized { auth }, &says)?);
    Ok(())
}

/// Credentials come of both sources that a connection asks for.
fn renew(
    rt: &impl Abort,
    alloc: Global,
    conn: &mut MultiplexedConnection,
    auth: &BasicAuth,
) -> Result<(), AllocError> {
    authorize(rt, alloc, conn, auth)?;
    let piece = b"+OK\r\n";
    let renews = ["created", "need-creds"];
    assert!(rt; shows(alloc, conn, LinkNews::Came { piece }, &renews)?);
    let tells = ["renewal-timer", "renewed"];
    assert!(rt; shows(alloc, conn, LinkNews::Renewed { auth }, &tells)?);
    Ok(())
}

#[test]
fn credentials_come_of_a_provider(rt: HostRuntime) -> Result<(), AllocError> {
    let config = AsyncConnectionConfig::new().set_credentials_provider();
    let info = said(ProtocolVersion::RESP2);
    let mut conn = must(MultiplexedConnection::new_with_config(rt.alloc(), &info, 3, &config))?;
    let auth = auth(rt.alloc(), b"u", b"p")?;
    renew(&rt, rt.alloc(), &mut conn, &auth)
}

/// Whether the driver itself may say something at a connection that is up.
fn send_inside(alloc: Global, conn: &mut MultiplexedConnection) -> Result<bool, AllocError> {
    let mut pipeline = Pipeline::new(alloc);
    pipeline.add_command(cmd(alloc, b"READONLY")?)?;
    if !conn.is_ready() {
        return Ok(false);
    }
    Ok(must(conn.send_internal(alloc, &pipeline)).is_ok())
}

/// Two requests share one permit, which what is internal does without.
fn go_past(
    rt: &impl Abort,
    alloc: Global,
    conn: &mut MultiplexedConnection,
) -> Result<(), AllocError> {
    send(alloc, conn, b"A")?;
    send(alloc, conn, b"B")?;
    hear(alloc, conn, LinkNews::Silence)?;
    assert!(rt; send_inside(alloc, conn)?);
    assert!(rt; shows(alloc, conn, LinkNews::Silence, &["timer", "start"])?);
    let piece = b"+1\r\n+OK\r\n";
    hear(alloc, conn, LinkNews::Came { piece })
}

#[test]
fn what_is_internal_takes_no_permit(rt: HostRuntime) -> Result<(), AllocError> {
    let config = AsyncConnectionConfig::new().set_concurrency_limit(1);
    let mut conn = connected(rt.alloc(), &config)?;
    go_past(&rt, rt.alloc(), &mut conn)
}

/// Whether a pipeline of nothing is refused.
fn refuses_nothing(alloc: Global, conn: &mut MultiplexedConnection) -> bool {
    let nothing = Pipeline::new(alloc);
    let sent = conn.req_packed_commands(alloc, &nothing, 0, 0);
    let refused = matches!(&sent, Err(SendError::Refused(RedisError::EmptyCommand)));
    drop(sent);
    refused
}

#[test]
fn nothing_is_refused_by_name(rt: HostRuntime) -> Result<(), AllocError> {
    let mut conn = connected(rt.alloc(), &AsyncConnectionConfig::new())?;
    assert!(rt; refuses_nothing(rt.alloc(), &mut conn));
    Ok(())
}

/// What of a configuration was refused.
fn refused(
    made: &Result<MultiplexedConnection, OpenError>,
) -> Result<Option<ConfigName>, AllocError> {
    match made {
        Ok(_) => Ok(None),
        Err(OpenError::Config(name)) => Ok(Some(*name)),
        Err(_) => Err(AllocError),
    }
}

/// What of a configuration is refused.
fn refusal(
    alloc: Global,
    config: &AsyncConnectionConfig,
) -> Result<Option<ConfigName>, AllocError> {
    let info = said(ProtocolVersion::RESP2);
    let made = MultiplexedConnection::new_with_config(alloc, &info, 0, config);
    let name = refused(&made);
    drop(made);
    name
}

#[test]
fn configurations_are_refused_by_name(rt: HostRuntime) -> Result<(), AllocError> {
    let new = AsyncConnectionConfig::new();
    let buffer = new.set_pipeline_buffer_size(0);
    let limit = buffer.set_concurrency_limit(0);
    let push = limit.set_push_sender();
    let sources = new.set_credentials_provider();
    for (config, wanted) in [
        (new, None),
        (buffer, Some(ConfigName::Buffer)),
        (limit, Some(ConfigName::Limit)),
        (push, Some(ConfigName::Push)),
        (sources, None),
    ] {
        assert!(rt; refusal(rt.alloc(), &config)? == wanted);
    }
    Ok(())
}

fn client(alloc: Global, url: &str) -> Result<Client, AllocError> {
    must(Client::open(alloc, url))
}

/// The link and the database of a connection to an address, over link 3.
fn place(alloc: Global, url: &str) -> Result<(u32, i64), AllocError> {
    let client = client(alloc, url)?;
    let config = AsyncConnectionConfig::new();
    let info = client.get_connection_info();
    let conn = must(MultiplexedConnection::connect_with_config(alloc, info, &config, 3))?;
    Ok((conn.link(), conn.get_db()))
}

#[test]
fn a_connection_is_made_for_an_address(rt: HostRuntime) -> Result<(), AllocError> {
    assert!(rt; place(rt.alloc(), "redis://h")? == (3, 0));
    assert!(rt; place(rt.alloc(), "redis://h/4")? == (3, 4));
    Ok(())
}

/// The words of a session over a connection to an address, by default or with this configuration.
fn words(
    alloc: Global,
    url: &str,
    config: Option<AsyncConnectionConfig>,
) -> Result<Config, AllocError> {
    let client = client(alloc, url)?;
    match config {
        Some(config) => must(client.get_multiplexed_async_connection_with_config(alloc, &config)),
        None => must(client.get_multiplexed_async_connection(alloc)),
    }
}

fn say(words: &Config, response: Option<Option<u64>>) -> bool {
    let url = words.address().url.as_slice() == b"redis://h:6379/4".as_slice();
    let times = match words.connection() {
        Some(given) => given.connect == None && given.response == response,
        None => false,
    };
    url && times
}

/// Whether these are the words of a session: its URL, and the times for its connect and its replies.
fn are_words(
    alloc: Global,
    config: Option<AsyncConnectionConfig>,
    response: Option<Option<u64>>,
) -> Result<bool, AllocError> {
    let words = words(alloc, "redis://h/4", config)?;
    let so = say(&words, response);
    drop(words);
    Ok(so)
}

#[test]
fn a_client_makes_the_words_of_a_session(rt: HostRuntime) -> Result<(), AllocError> {
    let config = AsyncConnectionConfig::new().set_response_timeout(None);
    assert!(rt; are_words(rt.alloc(), None, None)?);
    assert!(rt; are_words(rt.alloc(), Some(config), Some(None))?);
    Ok(())
}
