ghost use Rattle.std.specs.Prelude.{◌≡◌, Some, None, option_copied};
ghost use Rattle.cluster_client.specs.Checks.{is_same_text, is_same_protocol, is_other_text};
ghost use Rattle.cluster_client.specs.Checks.{is_other_protocol, is_other_database, node_fault};
ghost use Rattle.cluster_client.specs.Checks.{nodes_fault, push_fault, limit_fault};
ghost use Rattle.cluster_client.specs.Checks.{first_cluster_fault};

use crate::params::ClusterParams;
use connection_info::{ConnectionInfo, ProtocolVersion, RedisConnectionInfo};
use containers::Bytes;
use redis_error::ConfigName;

/// Whether two texts are there both and the same, or neither is.
fn is_same_text(left: &Option<Bytes>, right: &Option<Bytes>) -> bool
    ensures { result ≡ is_same_text left.now right.now }
{
    match (left, right) {
        (Some(left), Some(right)) => left == right,
        (None, None) => true,
        _ => false,
    }
}

/// Whether two protocols are one.
fn is_same_protocol(left: ProtocolVersion, right: ProtocolVersion) -> bool
    ensures { result ≡ is_same_protocol left right }
{
    left.supports_resp3() == right.supports_resp3()
}

/// Whether a node has another text than the first node, which has one, where none is set.
fn is_other_text(set: &Option<Bytes>, first: &Option<Bytes>, node: &Option<Bytes>) -> bool
    ensures { result ≡ is_other_text set.now first.now node.now }
{
    set.is_none() && first.is_some() && !is_same_text(node, first)
}

/// Whether a node has another protocol than the first node, where none is set.
fn is_other_protocol(
    set: Option<ProtocolVersion>,
    first: ProtocolVersion,
    node: ProtocolVersion,
) -> bool
    ensures { result ≡ is_other_protocol set first node }
{
    set.is_none() && !is_same_protocol(node, first)
}

/// Whether a node has a database that isn't 0, and isn't the chosen one.
fn is_other_database(chosen: i64, node: i64) -> bool
    ensures { result ≡ is_other_database chosen node }
{
    node != 0 && node != chosen
}

/// What is refused of one node, if anything is.
fn node_fault(
    params: &ClusterParams,
    first: &RedisConnectionInfo,
    node: &RedisConnectionInfo,
) -> Option<ConfigName>
    ensures { result ≡ node_fault params.now first.now node.now }
{
    if is_other_text(&params.password, &first.password, &node.password) {
        return Some(ConfigName::Password);
    }
    if is_other_text(&params.username, &first.username, &node.username) {
        return Some(ConfigName::User);
    }
    if is_other_protocol(params.protocol, first.protocol, node.protocol) {
        return Some(ConfigName::Protocol);
    }
    if is_other_database(params.database_id.unwrap_or(first.db), node.db) {
        return Some(ConfigName::Database);
    }
    None
}

/// The first of the faults of these nodes.
fn nodes_fault(
    params: &ClusterParams,
    first: &RedisConnectionInfo,
    nodes: &[ConnectionInfo],
) -> Option<ConfigName>
    ensures { result ≡ nodes_fault params.now first.now nodes.now }
{
    for node in nodes {
        let fault = node_fault(params, first, &node.redis);
        if fault.is_some() {
            return fault;
        }
    }
    None
}

/// That somebody listens to pushes, and this protocol has none.
fn push_fault(listens: bool, protocol: ProtocolVersion) -> Option<ConfigName>
    ensures { result ≡ push_fault listens protocol }
{
    if listens && !protocol.supports_resp3() {
        return Some(ConfigName::Push);
    }
    None
}

/// That a connection never has a permit.
fn limit_fault(limit: Option<u32>) -> Option<ConfigName>
    ensures { result ≡ limit_fault limit }
{
    match limit {
        Some(0) => Some(ConfigName::Limit),
        _ => None,
    }
}

/// What of these nodes and settings is refused first, if anything is.
pub(crate) fn cluster_fault(nodes: &[ConnectionInfo], params: &ClusterParams) -> Option<ConfigName>
    ensures { result ≡ first_cluster_fault (Some nodes.now) params.now }
{
    let Some(first) = nodes.first() else {
        return Some(ConfigName::Nodes);
    };
    let first = &first.redis;
    let protocol = params.protocol.unwrap_or(first.protocol);
    nodes_fault(params, first, nodes)
        .or(push_fault(params.push_sender, protocol))
        .or(limit_fault(params.connection_concurrency_limit))
}
