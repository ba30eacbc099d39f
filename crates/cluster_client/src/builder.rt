ghost use Rattle.std.specs.Prelude.{◌≡◌, ◌<◌, ◌≤ℤ◌, pos, map, Some, true, IfOk, IfErr, OnOk};
ghost use Rattle.connection_info.specs.declared.address.ConnectionInfo.{ConnectionInfo};
ghost use Rattle.cluster_client.specs.declared.params.OverallResponseTimeout.TheVariants.{Explicit};
ghost use Rattle.cluster_client.specs.Client.{all_there, begun, built};
ghost use Rattle.cluster_client.specs.Checks.{first_cluster_fault, RefusesCluster};

use crate::client::ClusterClient;
use crate::params::{AddressMap, ClusterParams, OverallResponseTimeout};
use connection_info::{ConnectionInfo, IntoConnectionInfo, OpenError, ProtocolVersion};
use containers::{Bytes, Queue, Seq};
use mux_routing::{NodeAddress, ReadStrategy};
use redis_error::ConfigName;
use std::alloc::{AllocError, Global};
use std::marker::Model;

/// What a cluster's client is built from: its nodes, and what is set. Contracts see the addresses of the nodes, none where
/// one of them is no address, and what was set.
#[derive(Drop)]
pub struct ClusterClientBuilder {
    initial_nodes: Option<Seq<ConnectionInfo>>,
    params: ClusterParams,
    overall: OverallResponseTimeout,
}

impl Model for ClusterClientBuilder {
    ghost use Rattle.cluster_client.specs.Client.{Building};

    ghost Value = { Building };

    ghost view = { λ b. record { nodes = b.initial_nodes; params = b.params; overall = b.overall } };
}

/// The address that this names, if it names one.
fn address<T: IntoConnectionInfo>(
    alloc: Global,
    named: T,
) -> Result<Option<ConnectionInfo>, AllocError>
    ensures { IfOk result (λ found. found ≡ T.address named) }
{
    match named.into_connection_info(alloc) {
        Ok(info) => Ok(Some(info)),
        Err(OpenError::NoMemory) => Err(AllocError),
        Err(_) => Ok(None),
    }
}

/// The addresses that these name, none where one of them names none.
fn addresses<T: IntoConnectionInfo + Drop>(
    alloc: Global,
    named: Vec<T>,
) -> Result<Option<Seq<ConnectionInfo>>, AllocError>
    ensures { IfOk result (λ found. found ≡ all_there (map T.address named.items)) }
{
    let mut left = Queue::from_vec(named);
    let mut found = Seq::new(alloc);
    while let Some(one) = left.pop_front() {
        let Some(info) = address(alloc, one)? else {
            return Ok(None);
        };
        found.push(info)?;
    }
    Ok(Some(found))
}

impl ClusterClientBuilder {
    /// A builder of a client of the cluster that these nodes belong to, of which nothing is set. One that names no address
    /// is refused by `build`.
    pub fn new<T: IntoConnectionInfo + Drop>(
        alloc: Global,
        initial_nodes: Vec<T>,
    ) -> Result<ClusterClientBuilder, AllocError>
        ensures { IfOk result (λ builder.
            builder ≡ begun (all_there (map T.address initial_nodes.items))
            ) }
    {
        let initial_nodes = addresses(alloc, initial_nodes)?;
        Ok(ClusterClientBuilder {
            initial_nodes,
            params: ClusterParams::new(alloc),
            overall: OverallResponseTimeout::MatchResponseTimeout,
        })
    }

    /// The client, where nothing is refused. Nothing is connected. Else `Config` with the name of what is refused first: a
    /// node that names no address (`Url`); that there is no node (`Nodes`); of each node in order a password or a user other
    /// than the first node's, where that has one and none is set (`Password`, `User`), a protocol other than the first
    /// node's, where none is set (`Protocol`), a database that isn't 0 and isn't the chosen one (`Database`); a push
    /// sender without RESP3 (`Push`); a limit of no permits (`Limit`).
    pub fn build(self, alloc: Global) -> Result<ClusterClient, OpenError>
        ensures ok { IfOk result (λ client. built self ≡ Some client) }
        ensures sound { OnOk result (first_cluster_fault self.nodes self.params ≡ None) }
        ensures err { IfErr result (RefusesCluster self.nodes self.params) }
    {
        let ClusterClientBuilder {
            initial_nodes,
            params,
            overall,
        } = self;
        let Some(nodes) = initial_nodes else {
            return Err(OpenError::Config(ConfigName::Url));
        };
        ClusterClient::of(alloc, nodes, params, overall)
    }

    /// What authenticates at every node. Without it what the first node's address has.
    pub fn password(mut self, password: Bytes) -> Self
        ensures { result ≡ record self { params = record self.params { password = Some password } } }
    {
        self.params.password = Some(password);
        self
    }

    /// Who authenticates at every node. Without it whom the first node's address names.
    pub fn username(mut self, username: Bytes) -> Self
        ensures { result ≡ record self { params = record self.params { username = Some username } } }
    {
        self.params.username = Some(username);
        self
    }

    /// How often a request is tried again; 16 without it.
    pub fn retries(mut self, retries: u32) -> Self
        ensures { result ≡ record self { params = record self.params { retries = retries } } }
    {
        self.params.retries = retries;
        self
    }

    /// The greatest wait before a retry, in milliseconds; 655,360 without it.
    pub fn max_retry_wait(mut self, max_wait: u64) -> Self
        ensures { result ≡ record self { params = record self.params { max_retry_wait = max_wait } } }
    {
        self.params.max_retry_wait = max_wait;
        self
    }

    /// The least wait before a retry, in milliseconds; 1,280 without it.
    pub fn min_retry_wait(mut self, min_wait: u64) -> Self
        ensures { result ≡ record self { params = record self.params { min_retry_wait = min_wait } } }
    {
        self.params.min_retry_wait = min_wait;
        self
    }

    /// How the wait before a retry grows: it is drawn from between the least wait and `factor * exponent_base ^ retry`
    /// milliseconds. 10 and 2 without it.
    pub fn retry_wait_formula(mut self, factor: u64, exponent_base: u64) -> Self
        ensures { result ≡ record self {
          params = record self.params { retry_factor = factor; retry_exponent_base = exponent_base };
        } }
    {
        self.params.retry_factor = factor;
        self.params.retry_exponent_base = exponent_base;
        self
    }

    /// How reads are shared among the replicas of a slot. Without it they go to the primary.
    pub fn read_routing_strategy(mut self, strategy: ReadStrategy) -> Self
        ensures { result ≡ record self { params = record self.params { read_strategy = Some strategy } } }
    {
        self.params.read_strategy = Some(strategy);
        self
    }

    /// How many milliseconds the connect and the setup of one connection may take; 1,000 without it.
    pub fn connection_timeout(mut self, timeout: u64) -> Self
        ensures { result ≡ record self { params = record self.params { connection_timeout = timeout } } }
    {
        self.params.connection_timeout = timeout;
        self
    }

    /// How many milliseconds one node may take to answer, and a request as a whole unless `overall_response_timeout` says
    /// otherwise. Without it there is no limit.
    pub fn response_timeout(mut self, timeout: u64) -> Self
        ensures { result ≡ record self {
          params = record self.params { response_timeout = Some timeout };
        } }
    {
        self.params.response_timeout = Some(timeout);
        self
    }

    /// Within how many milliseconds a request is to be answered as a whole; none is no limit. Without it within as many as
    /// `response_timeout` says.
    pub fn overall_response_timeout(mut self, timeout: Option<u64>) -> Self
        ensures { result ≡ record self { overall = Explicit timeout } }
    {
        self.overall = OverallResponseTimeout::Explicit(timeout);
        self
    }

    /// The protocol of every connection. Without it that of the first node's address.
    pub fn use_protocol(mut self, protocol: ProtocolVersion) -> Self
        ensures { result ≡ record self { params = record self.params { protocol = Some protocol } } }
    {
        self.params.protocol = Some(protocol);
        self
    }

    /// The database that is chosen at every node. Without it that of the first node's address.
    pub fn database_id(mut self, database_id: i64) -> Self
        requires { pos 0 ≤ℤ database_id }
        ensures { result ≡ record self { params = record self.params { database_id = Some database_id } } }
    {
        self.params.database_id = Some(database_id);
        self
    }

    /// Somebody listens to pushes. It needs RESP3.
    pub fn push_sender(mut self) -> Self
        ensures { result ≡ record self { params = record self.params { push_sender = true } } }
    {
        self.params.push_sender = true;
        self
    }

    /// Which address is dialled in the place of another: pairs of a node's address and the one that is dialled for it, of
    /// which the last of an address counts. Everything else goes by the node's own address.
    pub fn node_address_map(mut self, map: Vec<(NodeAddress, NodeAddress)>) -> Self
        ensures { result ≡ record self {
          params = record self.params { node_address_map = map.items };
        } }
    {
        self.params.node_address_map = AddressMap::from_vec(map);
        self
    }

    /// How many permits each connection has, at least one. Without it there is no limit.
    pub fn connection_concurrency_limit(mut self, limit: u32) -> Self
        ensures { result ≡ record self {
          params = record self.params { connection_concurrency_limit = Some limit };
        } }
    {
        self.params.connection_concurrency_limit = Some(limit);
        self
    }

    /// From how many unwritten bytes on no message of a connection starts; 8,192 without it.
    pub fn write_backpressure_boundary(mut self, bytes: u64) -> Self
        ensures { result ≡ record self {
          params = record self.params { write_backpressure_boundary = bytes };
        } }
    {
        self.params.write_backpressure_boundary = bytes;
        self
    }

    /// Credentials come while a connection lives.
    pub fn set_credentials_provider(mut self) -> Self
        ensures { result ≡ record self { params = record self.params { credentials_provider = true } } }
    {
        self.params.credentials_provider = true;
        self
    }

    /// How often a lost node is connected again before it is given up. Without it there is no end.
    pub fn max_connection_attempts(mut self, attempts: u32) -> Self
        requires { 0 < attempts }
        ensures { result ≡ record self {
          params = record self.params { max_connection_attempts = Some attempts };
        } }
    {
        self.params.max_connection_attempts = Some(attempts);
        self
    }
}
