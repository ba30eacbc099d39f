use crate::client::building::builder;
use crate::nodes::{address, is_at};
use cluster_client::{ClusterClient, ClusterParams};
use connection_info::OpenError;
use mux_routing::NodeAddress;
use std::alloc::{AllocError, Global};

/// A node: its host and its port.
type Node = (&'static [u8], u16);

/// Nodes, with the address that is dialled in the place of each; of two for one node the last counts.
const PAIRS: [(Node, Node); 3] = [
    ((b"a", 1), (b"b", 2)),
    ((b"a", 1), (b"c", 3)),
    ((b"c", 3), (b"a", 1)),
];

/// Nodes, with what is dialled for each: the host and the port count, and what is dialled isn't looked up again.
const DIALLED: [(Node, Node); 4] = [
    ((b"a", 1), (b"c", 3)),
    ((b"c", 3), (b"a", 1)),
    ((b"a", 2), (b"a", 2)),
    ((b"b", 1), (b"b", 1)),
];

fn pair(alloc: Global, nodes: (Node, Node)) -> Result<(NodeAddress, NodeAddress), AllocError> {
    let (node, dialled) = nodes;
    let node = address(alloc, node.0, node.1)?;
    let dialled = address(alloc, dialled.0, dialled.1)?;
    Ok((node, dialled))
}

fn map(alloc: Global) -> Result<Vec<(NodeAddress, NodeAddress)>, AllocError> {
    let mut map = Vec::new(alloc);
    for nodes in &PAIRS {
        map.push(pair(alloc, *nodes)?)?;
    }
    Ok(map)
}

/// A client with that map.
fn client(alloc: Global) -> Result<ClusterClient, OpenError> {
    let map = map(alloc)?;
    let builder = builder(alloc, "redis://a:1")?;
    builder.node_address_map(map).build(alloc)
}

/// Whether the second is dialled for the first.
fn dials(alloc: Global, params: &ClusterParams, nodes: (Node, Node)) -> Result<bool, AllocError> {
    let (node, wanted) = nodes;
    let node = address(alloc, node.0, node.1)?;
    let dialled = params.dialled_address(&node);
    Ok(is_at(dialled, wanted.0, wanted.1))
}

/// The same of a client with that map.
fn client_dials(alloc: Global, nodes: (Node, Node)) -> Result<bool, OpenError> {
    let client = client(alloc)?;
    let dials = dials(alloc, client.params(), nodes);
    drop(client);
    Ok(dials?)
}

#[test]
fn other_addresses_are_dialled(rt: HostRuntime) -> Result<(), OpenError> {
    for nodes in &DIALLED {
        assert!(rt; client_dials(rt.alloc(), *nodes)?);
    }
    Ok(())
}
