use cluster_client::{ClusterClient, ClusterClientBuilder};
use connection_info::{ConnectionInfo, IntoConnectionInfo, OpenError, ProtocolVersion};
use redis_error::ConfigName;
use std::alloc::{AllocError, Global};

/// A builder of a client of these nodes, whose URLs are separated by spaces.
pub fn builder(alloc: Global, urls: &str) -> Result<ClusterClientBuilder, AllocError> {
    let mut nodes = Vec::new(alloc);
    for url in urls.split_whitespace() {
        nodes.push(url)?;
    }
    ClusterClient::builder(alloc, nodes)
}

/// What is set of a client.
#[derive(Clone, Copy)]
enum Set {
    Nothing,
    /// The database 0.
    Zero,
    /// The database 4.
    Four,
    Push,
    NoPermits,
    PushAndNoPermits,
}

/// The builder with that set.
fn with(builder: ClusterClientBuilder, set: Set) -> ClusterClientBuilder {
    match set {
        Set::Nothing => builder,
        Set::Zero => builder.database_id(0),
        Set::Four => builder.database_id(4),
        Set::Push => builder.push_sender(),
        Set::NoPermits => builder.connection_concurrency_limit(0),
        Set::PushAndNoPermits => builder.push_sender().connection_concurrency_limit(0),
    }
}

/// A client of these nodes, with that set.
fn built(alloc: Global, urls: &str, set: Set) -> Result<ClusterClient, OpenError> {
    let builder = builder(alloc, urls)?;
    with(builder, set).build(alloc)
}

/// What becomes of a client.
#[derive(Clone, Copy)]
enum Wanted {
    /// It is built, at database 4 of servers of this protocol.
    Built(ProtocolVersion),
    Refused(ConfigName),
}

fn is_built(client: &ClusterClient, wanted: Wanted) -> bool {
    let told = client.redis_connection_info();
    match wanted {
        Wanted::Built(protocol) => told.db == 4 && told.protocol == protocol,
        Wanted::Refused(_) => false,
    }
}

fn is_refused(name: ConfigName, wanted: Wanted) -> bool {
    match wanted {
        Wanted::Built(_) => false,
        Wanted::Refused(other) => name == other,
    }
}

/// Whether that becomes of the client of these nodes, with that set.
fn comes_to(alloc: Global, urls: &str, set: Set, wanted: Wanted) -> bool {
    let built = built(alloc, urls, set);
    let is_so = match &built {
        Ok(client) => is_built(client, wanted),
        Err(OpenError::Config(name)) => is_refused(*name, wanted),
        Err(_) => false,
    };
    drop(built);
    is_so
}

/// Three nodes of one database.
const FOURS: &str = "redis://h/4 redis://i/4 redis://j/4";

/// Nodes, what is set, and what becomes of the client: it is built, one check fails, or two do.
const ROWS: [(&str, Set, Wanted); 16] = [
    (FOURS, Set::Nothing, Wanted::Built(ProtocolVersion::RESP2)),
    (FOURS, Set::Four, Wanted::Built(ProtocolVersion::RESP2)),
    (
        "redis://h?protocol=3 redis://i/4?protocol=3",
        Set::Four,
        Wanted::Built(ProtocolVersion::RESP3),
    ),
    (FOURS, Set::Zero, Wanted::Refused(ConfigName::Database)),
    (
        "redis://h/4 h",
        Set::Nothing,
        Wanted::Refused(ConfigName::Url),
    ),
    ("", Set::Nothing, Wanted::Refused(ConfigName::Nodes)),
    (
        "redis://u:p@h redis://u:q@i",
        Set::Nothing,
        Wanted::Refused(ConfigName::Password),
    ),
    (
        "redis://u:p@h redis://v:p@i",
        Set::Nothing,
        Wanted::Refused(ConfigName::User),
    ),
    (
        "redis://h redis://i?protocol=3",
        Set::Nothing,
        Wanted::Refused(ConfigName::Protocol),
    ),
    (
        "redis://h redis://i/4",
        Set::Nothing,
        Wanted::Refused(ConfigName::Database),
    ),
    ("redis://h", Set::Push, Wanted::Refused(ConfigName::Push)),
    (
        "redis://h",
        Set::NoPermits,
        Wanted::Refused(ConfigName::Limit),
    ),
    (
        "redis+unix:///h",
        Set::NoPermits,
        Wanted::Refused(ConfigName::Url),
    ),
    (
        "redis://u:p@h redis://v:q@i",
        Set::Nothing,
        Wanted::Refused(ConfigName::Password),
    ),
    (
        "redis://h redis://i/4?protocol=3",
        Set::Nothing,
        Wanted::Refused(ConfigName::Protocol),
    ),
    (
        "redis://h",
        Set::PushAndNoPermits,
        Wanted::Refused(ConfigName::Push),
    ),
];

/// Whether there is one node, of that host.
fn has_host(nodes: &[ConnectionInfo], host: &[u8]) -> bool {
    match nodes {
        [node] => node.host.as_slice() == host,
        _ => false,
    }
}

/// Whether a client of one node of this name has one node of that host.
fn has_node<T: IntoConnectionInfo + Drop>(
    alloc: Global,
    name: T,
    host: &[u8],
) -> Result<bool, AllocError> {
    let mut nodes = Vec::new(alloc);
    nodes.push(name)?;
    let made = ClusterClient::new(alloc, nodes);
    let has = match &made {
        Ok(client) => has_host(client.initial_nodes(), host),
        Err(_) => false,
    };
    drop(made);
    Ok(has)
}

/// Whether a client of the node of a URL has that host.
fn url_has_node(alloc: Global, url: &str, host: &[u8]) -> Result<bool, AllocError> {
    let url = String::from_str(alloc, url)?;
    has_node(alloc, url, host)
}

#[test]
fn clients_are_built_and_refused(rt: HostRuntime) {
    for (urls, set, wanted) in &ROWS {
        assert!(rt; comes_to(rt.alloc(), urls, *set, *wanted), "{urls}");
    }
}

#[test]
fn urls_name_nodes(rt: HostRuntime) -> Result<(), AllocError> {
    assert!(rt; has_node(rt.alloc(), "redis://h:7000", b"h")?);
    assert!(rt; url_has_node(rt.alloc(), "redis://h:7000", b"h")?);
    Ok(())
}

#[test]
fn hosts_with_ports_name_nodes(rt: HostRuntime) -> Result<(), AllocError> {
    assert!(rt; has_node(rt.alloc(), ("h", 7000), b"h")?);
    assert!(rt; !has_node(rt.alloc(), ("", 7000), b"")?);
    Ok(())
}
