use crate::clients::{hear, outcome};
use crate::servers::{must, said};
use connection_info::{AsyncConnectionConfig, ProtocolVersion};
use containers::{Bytes, Names};
use driver_model::LinkNews;
use mux_client::{MultiplexedConnection, Pending, SendError};
use redis_error::RedisError;
use resp_write::SubscriptionAction;
use std::alloc::{AllocError, Global};
use std::process::Abort;

/// The four calls.
const CALLS: [SubscriptionAction; 4] = [
    SubscriptionAction::Subscribe,
    SubscriptionAction::Unsubscribe,
    SubscriptionAction::PSubscribe,
    SubscriptionAction::PUnsubscribe,
];

/// A connection whose connect succeeded, to a server that is told to speak this protocol.
fn speaking(alloc: Global, protocol: ProtocolVersion) -> Result<MultiplexedConnection, AllocError> {
    let info = said(protocol);
    let config = AsyncConnectionConfig::new();
    let mut conn = must(MultiplexedConnection::new_with_config(alloc, &info, 3, &config))?;
    hear(alloc, &mut conn, LinkNews::Connected)?;
    Ok(conn)
}

/// The call that does this, with the name a.
fn call(
    alloc: Global,
    conn: &mut MultiplexedConnection,
    action: SubscriptionAction,
) -> Result<Pending, SendError> {
    let mut names = Names::new(alloc);
    names.push(Bytes::from_slice(alloc, b"a")?)?;
    match action {
        SubscriptionAction::Subscribe => conn.subscribe(alloc, &names),
        SubscriptionAction::Unsubscribe => conn.unsubscribe(alloc, &names),
        SubscriptionAction::PSubscribe => conn.psubscribe(alloc, &names),
        _ => conn.punsubscribe(alloc, &names),
    }
}

/// Whether the call is refused, since RESP3 is required.
fn is_refused(alloc: Global, conn: &mut MultiplexedConnection, action: SubscriptionAction) -> bool {
    let sent = call(alloc, conn, action);
    let refused = matches!(&sent, Err(SendError::Refused(RedisError::Resp3Required)));
    drop(sent);
    refused
}

#[test]
fn calls_are_refused_on_resp2(rt: HostRuntime) -> Result<(), AllocError> {
    let mut conn = speaking(rt.alloc(), ProtocolVersion::RESP2)?;
    for action in CALLS {
        assert!(rt; is_refused(rt.alloc(), &mut conn, action));
    }
    Ok(())
}

/// Whether the call is done once this was answered.
fn comes_to(
    alloc: Global,
    conn: &mut MultiplexedConnection,
    action: SubscriptionAction,
    piece: &[u8],
    wanted: &[u8],
) -> Result<bool, AllocError> {
    let request = must(call(alloc, conn, action))?;
    hear(alloc, conn, LinkNews::Silence)?;
    hear(alloc, conn, LinkNews::Came { piece })?;
    Ok(outcome(conn, &request) == wanted)
}

/// Each call is confirmed, and then one is denied.
fn call_all(
    rt: &impl Abort,
    alloc: Global,
    conn: &mut MultiplexedConnection,
) -> Result<(), AllocError> {
    let piece = b"%1\r\n+proto\r\n:3\r\n";
    hear(alloc, conn, LinkNews::Came { piece })?;
    for action in CALLS {
        let piece = b">3\r\n+subscribe\r\n+a\r\n:1\r\n";
        assert!(rt; comes_to(alloc, conn, action, piece, b"done")?);
    }
    let piece = b"-NOPERM no\r\n";
    assert!(rt; comes_to(alloc, conn, SubscriptionAction::Subscribe, piece, b"server")?);
    Ok(())
}

#[test]
fn calls_are_confirmed(rt: HostRuntime) -> Result<(), AllocError> {
    let mut conn = speaking(rt.alloc(), ProtocolVersion::RESP3)?;
    call_all(&rt, rt.alloc(), &mut conn)
}
