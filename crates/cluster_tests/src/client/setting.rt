use crate::client::building::builder;
use crate::nodes::address;
use cluster_client::{
    AddressMap, ClusterClient, ClusterClientBuilder, ClusterConfig, ClusterSettings,
    OverallResponseTimeout, Reads,
};
use connection_info::{OpenError, ProtocolVersion};
use containers::Bytes;
use mux_routing::{NodeAddress, ReadStrategy};
use std::alloc::{AllocError, Global};

/// The pair of `a:1` and `b:2`.
fn pairs(alloc: Global) -> Result<Vec<(NodeAddress, NodeAddress)>, AllocError> {
    let mut pairs = Vec::new(alloc);
    let from = address(alloc, b"a", 1)?;
    let to = address(alloc, b"b", 2)?;
    pairs.push((from, to))?;
    Ok(pairs)
}

/// A builder of which what is said to the nodes is set, none of it as the node has it.
fn said(alloc: Global) -> Result<ClusterClientBuilder, AllocError> {
    let password = Bytes::from_slice(alloc, b"p")?;
    let user = Bytes::from_slice(alloc, b"u")?;
    let builder = builder(alloc, "redis://h:7000")?;
    Ok(
        builder
            .password(password)
            .username(user)
            .use_protocol(ProtocolVersion::RESP3)
            .database_id(4),
    )
}

/// A builder of which retries, waits and reads are set too.
fn retried(alloc: Global) -> Result<ClusterClientBuilder, AllocError> {
    let builder = said(alloc)?;
    Ok(
        builder
            .retries(3)
            .min_retry_wait(1)
            .max_retry_wait(2)
            .retry_wait_formula(4, 5)
            .read_routing_strategy(ReadStrategy::RoundRobin { next: 6 }),
    )
}

/// A client of which everything is set.
fn client(alloc: Global) -> Result<ClusterClient, OpenError> {
    let map = pairs(alloc)?;
    let builder = retried(alloc)?;
    builder
        .connection_timeout(8)
        .response_timeout(9)
        .overall_response_timeout(None)
        .push_sender()
        .set_credentials_provider()
        .connection_concurrency_limit(10)
        .write_backpressure_boundary(11)
        .max_connection_attempts(12)
        .node_address_map(map)
        .build(alloc)
}

/// Whether a text is this one.
fn is_text(text: &Option<Bytes>, wanted: &[u8]) -> bool {
    match text {
        Some(text) => text.as_slice() == wanted,
        None => false,
    }
}

/// Whether a map is that of `pairs`.
fn is_paired(map: &Option<AddressMap>) -> bool {
    match map {
        Some(map) => match map.as_slice() {
            [(from, to)] => from.host.as_slice() == b"a".as_slice() && to.port == 2,
            _ => false,
        },
        None => false,
    }
}

/// Whether the words say what is set of what the nodes are told.
fn says(words: &ClusterSettings) -> bool {
    is_text(&words.password, b"p")
        && is_text(&words.user, b"u")
        && words.protocol == Some(ProtocolVersion::RESP3)
        && words.db == Some(4)
        && words.lib.is_none()
}

/// Whether the words say what is set of retries, waits and reads.
fn retries(words: &ClusterSettings) -> bool {
    words.retries == Some(3)
        && words.min_wait == Some(1)
        && words.max_wait == Some(2)
        && words.factor == Some(4)
        && words.exp == Some(5)
        && words.reads == Some(Reads::RoundRobin)
}

/// Whether the words say what is set of connections.
fn connects(words: &ClusterSettings) -> bool {
    words.connect == Some(8)
        && words.response == Some(Some(9))
        && words.overall == Some(OverallResponseTimeout::Explicit(None))
        && words.push == Some(true)
        && words.creds == Some(true)
        && words.limit == Some(10)
        && words.boundary == Some(11)
        && words.attempts == Some(12)
        && is_paired(&words.map)
}

/// Whether the words say everything that is set.
fn is_all(words: &ClusterSettings) -> bool {
    says(words) && retries(words) && connects(words)
}

/// Whether a copy of the words says everything that is set.
fn is_all_copied(alloc: Global, words: &ClusterSettings) -> Result<bool, AllocError> {
    let copy = words.clone(alloc)?;
    let is_all = is_all(&copy);
    drop(copy);
    Ok(is_all)
}

/// Whether the words say everything that is set, and a copy of them too.
fn are_all(alloc: Global, words: &ClusterSettings) -> Result<bool, AllocError> {
    let copied = is_all_copied(alloc, words)?;
    Ok(copied && is_all(words))
}

/// Whether a copy of a client is asked with everything that is set.
fn is_all_asked(alloc: Global, client: &ClusterClient) -> Result<bool, OpenError> {
    let copy = client.clone(alloc)?;
    let asked = copy.get_async_connection(alloc);
    drop(copy);
    let words = asked?;
    let are_all = are_all(alloc, &words);
    drop(words);
    Ok(are_all?)
}

fn is_full_client_asked(alloc: Global) -> Result<bool, OpenError> {
    let client = client(alloc)?;
    let is_asked = is_all_asked(alloc, &client);
    drop(client);
    is_asked
}

#[test]
fn everything_that_is_set_is_asked(rt: HostRuntime) -> Result<(), OpenError> {
    assert!(rt; is_full_client_asked(rt.alloc())?);
    Ok(())
}

#[test]
fn a_configuration_stays_as_it_was(rt: HostRuntime) -> Result<(), OpenError> {
    let config = ClusterConfig::new().set_response_timeout(5);
    let copy = config.set_connection_timeout(6).set_push_sender();
    assert!(rt; config.connection_timeout.is_none());
    assert!(rt; copy.response_timeout == Some(5) && copy.connection_timeout == Some(6));
    assert!(rt; ClusterConfig::default() == ClusterConfig::new());
    assert!(rt; copy.clone()? == copy);
    Ok(())
}
