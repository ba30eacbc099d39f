use crate::client::building::builder;
use cluster_client::{
    ClusterClient, ClusterConfig, ClusterKind, ClusterSettings, OverallResponseTimeout,
};
use connection_info::{ConnectionInfo, OpenError, ProtocolVersion, RedisConnectionInfo};
use containers::Bytes;
use redis_error::ConfigName;
use std::alloc::{AllocError, Global};

/// Whether a session of this kind is asked with so many milliseconds for one node, and these for a request as a whole.
fn has(
    words: &ClusterSettings,
    kind: ClusterKind,
    response: u64,
    overall: Option<OverallResponseTimeout>,
) -> bool {
    words.kind == kind && words.response == Some(Some(response)) && words.overall == overall
}

/// The same of what a session is asked with, if it is.
fn have(
    asked: Result<ClusterSettings, OpenError>,
    kind: ClusterKind,
    response: u64,
    overall: Option<OverallResponseTimeout>,
) -> Result<bool, OpenError> {
    let words = asked?;
    let has = has(&words, kind, response, overall);
    drop(words);
    Ok(has)
}

fn is_asked(alloc: Global, client: &ClusterClient) -> Result<bool, OpenError> {
    let asked = client.get_async_connection(alloc);
    have(asked, ClusterKind::Cluster, 7, None)
}

fn is_asked_generically(alloc: Global, client: &ClusterClient) -> Result<bool, OpenError> {
    let asked = client.get_async_generic_connection(alloc);
    have(asked, ClusterKind::Cluster, 7, None)
}

/// A whole request's time stays as it was built.
const SEVEN: Option<OverallResponseTimeout> = Some(OverallResponseTimeout::Explicit(Some(7)));

fn is_asked_with_five(alloc: Global, client: &ClusterClient) -> Result<bool, OpenError> {
    let five = ClusterConfig::new().set_response_timeout(5);
    let asked = client.get_async_connection_with_config(alloc, &five);
    have(asked, ClusterKind::Cluster, 5, SEVEN)
}

fn is_pending_with_five(alloc: Global, client: &ClusterClient) -> Result<bool, OpenError> {
    let five = ClusterConfig::new().set_response_timeout(5);
    let asked = client.get_pending_async_connection_with_config(alloc, &five);
    have(asked, ClusterKind::Pending, 5, SEVEN)
}

/// Whether a client that has seven milliseconds to answer is asked so in each way.
fn is_asked_in_each_way(alloc: Global, client: &ClusterClient) -> Result<bool, OpenError> {
    Ok(
        is_asked(alloc, client)?
            && is_asked_generically(alloc, client)?
            && is_asked_with_five(alloc, client)?
            && is_pending_with_five(alloc, client)?,
    )
}

fn is_quick_asked(alloc: Global) -> Result<bool, OpenError> {
    let client = builder(alloc, "redis://h:7000")?
        .response_timeout(7)
        .build(alloc)?;
    let overall = client.overall_response_timeout();
    let asked = is_asked_in_each_way(alloc, &client);
    drop(client);
    Ok(asked? && overall == Some(7))
}

/// An address of this host that leaves the library's name out.
fn nameless(alloc: Global, host: &[u8]) -> Result<ConnectionInfo, AllocError> {
    let host = Bytes::from_slice(alloc, host)?;
    Ok(ConnectionInfo {
        host,
        port: 7000,
        redis: RedisConnectionInfo {
            db: 0,
            username: None,
            password: None,
            protocol: ProtocolVersion::RESP2,
            skip_set_lib_name: true,
        },
    })
}

/// What a client of one node of this host, which leaves the library's name out, is asked with.
fn asked_of(alloc: Global, host: &[u8]) -> Result<ClusterSettings, OpenError> {
    let mut nodes = Vec::new(alloc);
    let node = nameless(alloc, host)?;
    nodes.push(node).map_err(AllocError::from)?;
    let client = ClusterClient::new(alloc, nodes)?;
    let asked = client.get_async_connection(alloc);
    drop(client);
    asked
}

/// Whether a client of a node of this host is asked so, or refused since no URL is its address.
fn is_asked_of(alloc: Global, host: &[u8], has_url: bool) -> bool {
    let asked = asked_of(alloc, host);
    let is_so = match &asked {
        Ok(words) => has_url && words.lib == Some(false) && words.nodes.len() == 1,
        Err(error) => !has_url && *error == OpenError::Config(ConfigName::Url),
    };
    drop(asked);
    is_so
}

#[test]
fn sessions_are_asked(rt: HostRuntime) -> Result<(), OpenError> {
    assert!(rt; is_quick_asked(rt.alloc())?);
    for (host, has_url) in [(b"h".as_slice(), true), (b"a b", false), (b"[::1]", false)] {
        assert!(rt; is_asked_of(rt.alloc(), host, has_url));
    }
    Ok(())
}
