ghost use Rattle.std.specs.Prelude.{◌≡◌, map, Some, None, IfOk, IfErr, OnOk};
ghost use Rattle.std.specs.Option.{option_or};
ghost use Rattle.cluster_client.specs.Params.{default_params};
ghost use Rattle.cluster_client.specs.Chosen.{told_by, told_in};
ghost use Rattle.cluster_client.specs.Client.{all_there, begun, built, client_of, overall_of, IsSound};
ghost use Rattle.cluster_client.specs.Checks.{first_cluster_fault, RefusesCluster};

use crate::builder::ClusterClientBuilder;
use crate::checks::cluster_fault;
use crate::copies::{copy_nodes, copy_text};
use crate::params::{ClusterParams, OverallResponseTimeout};
use connection_info::{ConnectionInfo, IntoConnectionInfo, OpenError, RedisConnectionInfo};
use containers::{Bytes, Seq};
use redis_error::ConfigName;
use std::alloc::{AllocError, Global};
use std::marker::Model;

/// What sessions over a cluster are made from. Contracts see its nodes as they were given, how it behaves, how long a
/// request may take as a whole, and what is said to every node.
#[derive(Drop)]
pub struct ClusterClient {
    initial_nodes: Seq<ConnectionInfo>,
    params: ClusterParams,
    overall: Option<u64>,
    told: RedisConnectionInfo,
}

impl Model for ClusterClient {
    ghost use Rattle.cluster_client.specs.Client.{Cluster, IsSound};

    ghost Value = { Cluster };

    ghost view = { λ c. record { nodes = c.initial_nodes; params = c.params; overall = c.overall; told = c.told } };

    ghost invariant = { λ c. IsSound c.initial_nodes c.params c.told };
}

/// A copy of the text that is set, and else of the other.
fn chosen_text(
    alloc: Global,
    set: &Option<Bytes>,
    other: &Option<Bytes>,
) -> Result<Option<Bytes>, AllocError>
    ensures { IfOk result (λ text. text ≡ option_or set.now other.now) }
{
    match set {
        Some(text) => Ok(Some(text.clone(alloc)?)),
        None => copy_text(alloc, other),
    }
}

/// What is said to every node: what is set, and else what the first node has.
fn told_by(
    alloc: Global,
    params: &ClusterParams,
    first: &RedisConnectionInfo,
) -> Result<RedisConnectionInfo, AllocError>
    ensures { IfOk result (λ told. told ≡ told_by params.now first.now) }
{
    let username = chosen_text(alloc, &params.username, &first.username)?;
    let password = chosen_text(alloc, &params.password, &first.password)?;
    Ok(RedisConnectionInfo {
        db: params.database_id.unwrap_or(first.db),
        username,
        password,
        protocol: params.protocol.unwrap_or(first.protocol),
        skip_set_lib_name: first.skip_set_lib_name,
    })
}

/// What is said to every node of these, where nothing of them and of how the client behaves is refused.
fn told_soundly(
    alloc: Global,
    nodes: &[ConnectionInfo],
    params: &ClusterParams,
) -> Result<RedisConnectionInfo, OpenError>
    ensures ok { IfOk result (λ told. told_in params.now nodes.now ≡ Some told) }
    ensures sound { OnOk result (first_cluster_fault (Some nodes.now) params.now ≡ None) }
    ensures err { IfErr result (RefusesCluster (Some nodes.now) params.now) }
{
    if let Some(fault) = cluster_fault(nodes, params) {
        return Err(OpenError::Config(fault));
    }
    let Some(first) = nodes.first() else {
        return Err(OpenError::Config(ConfigName::Nodes));
    };
    Ok(told_by(alloc, params, &first.redis)?)
}

impl OverallResponseTimeout {
    /// How many milliseconds a request may take as a whole, where a node may take so many to answer; none is no limit.
    fn over(self, response: Option<u64>) -> Option<u64>
        ensures { result ≡ overall_of response self }
    {
        match self {
            OverallResponseTimeout::MatchResponseTimeout => response,
            OverallResponseTimeout::Explicit(timeout) => timeout,
        }
    }
}

impl ClusterClient {
    /// The client of these nodes, where nothing is refused.
    pub(crate) fn of(
        alloc: Global,
        initial_nodes: Seq<ConnectionInfo>,
        params: ClusterParams,
        overall: OverallResponseTimeout,
    ) -> Result<ClusterClient, OpenError>
        ensures ok { IfOk result (λ client. client_of params overall initial_nodes ≡ Some client) }
        ensures sound { OnOk result (first_cluster_fault (Some initial_nodes) params ≡ None) }
        ensures err { IfErr result (RefusesCluster (Some initial_nodes) params) }
    {
        let told = match told_soundly(alloc, initial_nodes.as_slice(), &params) {
            Ok(told) => told,
            Err(error) => {
                drop(initial_nodes);
                drop(params);
                return Err(error);
            }
        };
        let overall = overall.over(params.response_timeout);
        Ok(ClusterClient {
            initial_nodes,
            params,
            overall,
            told,
        })
    }

    /// A builder of a client of the cluster that these nodes belong to, of which nothing is set. One that names no address
    /// is refused by `build`.
    pub fn builder<T: IntoConnectionInfo + Drop>(
        alloc: Global,
        initial_nodes: Vec<T>,
    ) -> Result<ClusterClientBuilder, AllocError>
        ensures { IfOk result (λ builder.
            builder ≡ begun (all_there (map T.address initial_nodes.items))
            ) }
    {
        ClusterClientBuilder::new(alloc, initial_nodes)
    }

    /// The client of the cluster that these nodes belong to, of which nothing is set, where nothing is refused. Else
    /// `Config` with the name of what is refused first, as `ClusterClientBuilder::build` says.
    pub fn new<T: IntoConnectionInfo + Drop>(
        alloc: Global,
        initial_nodes: Vec<T>,
    ) -> Result<ClusterClient, OpenError>
        ensures ok { IfOk result (λ client.
            built (begun (all_there (map T.address initial_nodes.items))) ≡ Some client
            ) }
        ensures sound { OnOk result
            (first_cluster_fault (all_there (map T.address initial_nodes.items)) default_params ≡ None) }
        ensures err { IfErr result
            (RefusesCluster (all_there (map T.address initial_nodes.items)) default_params) }
    {
        let builder = ClusterClientBuilder::new(alloc, initial_nodes)?;
        builder.build(alloc)
    }

    /// Its nodes, as they were given: one at least.
    pub fn initial_nodes(&self) -> &[ConnectionInfo]
        ensures { result.now ≡ self.now.nodes }
    {
        self.initial_nodes.as_slice()
    }

    /// How it behaves.
    pub fn params(&self) -> &ClusterParams
        ensures { result.now ≡ self.now.params }
    {
        &self.params
    }

    /// Within how many milliseconds a request is to be answered as a whole; none is no limit.
    pub fn overall_response_timeout(&self) -> Option<u64>
        ensures { result ≡ self.now.overall }
    {
        self.overall
    }

    /// What is said to every node before the first request.
    pub fn redis_connection_info(&self) -> &RedisConnectionInfo
        ensures value { result.now ≡ self.now.told }
        ensures sound { IsSound self.now.nodes self.now.params self.now.told }
    {
        &self.told
    }

    /// An equal value of its own.
    pub fn clone(&self, alloc: Global) -> Result<ClusterClient, AllocError>
        ensures { IfOk result (λ client. client ≡ self.now) }
    {
        let initial_nodes = copy_nodes(alloc, self.initial_nodes.as_slice())?;
        let params = self.params.clone(alloc)?;
        let told = self.told.clone(alloc)?;
        Ok(ClusterClient {
            initial_nodes,
            params,
            overall: self.overall,
            told,
        })
    }
}
