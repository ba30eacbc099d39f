ghost use Rattle.std.specs.Prelude.{◌≡◌, IfOk};
ghost use Rattle.cluster_client.specs.Params.{default_params};

use crate::copies::copy_text;
use connection_info::ProtocolVersion;
use containers::{Bytes, Seq};
use mux_routing::{NodeAddress, ReadStrategy};
use std::alloc::{AllocError, Global};

/// How often a request is tried again where nothing is set.
pub(crate) const RETRIES: u32 = 16;

/// The least wait before a retry where nothing is set, in milliseconds.
pub(crate) const MIN_RETRY_WAIT: u64 = 1280;

/// The greatest wait before a retry where nothing is set, in milliseconds.
pub(crate) const MAX_RETRY_WAIT: u64 = 655_360;

/// The wait before retry 0 where nothing is set, in milliseconds.
pub(crate) const RETRY_FACTOR: u64 = 10;

/// By what that wait grows where nothing is set.
pub(crate) const RETRY_EXPONENT_BASE: u64 = 2;

/// How many milliseconds a connect and a setup may take where nothing is set.
pub(crate) const CONNECTION_TIMEOUT: u64 = 1000;

/// From how many unwritten bytes on no message starts where nothing is set.
pub(crate) const WRITE_BOUNDARY: u64 = 8192;

/// Which address is dialled in the place of another: pairs of a node's address and the one that is dialled for it. The
/// last pair of an address counts.
pub type AddressMap = Seq<(NodeAddress, NodeAddress)>;

/// Within how many milliseconds a request is to be answered as a whole, with all its retries, redirections and repairs of
/// connections.
#[derive(Clone, Copy, Debug, PartialEq, Eq)]
pub enum OverallResponseTimeout {
    /// Within as many as a single answer may take.
    MatchResponseTimeout,
    /// Within so many; none is no limit.
    Explicit(Option<u64>),
}

/// How a cluster's client behaves, as it was set.
#[derive(Drop)]
pub struct ClusterParams {
    /// What authenticates at every node. Where none is set, what the first node's address has.
    pub password: Option<Bytes>,
    /// Who authenticates at every node. Where none is set, whom the first node's address names.
    pub username: Option<Bytes>,
    /// The protocol of every connection. Where none is set, that of the first node's address.
    pub protocol: Option<ProtocolVersion>,
    /// The database that is chosen at every node, 0 or more. Where none is set, that of the first node's address.
    pub database_id: Option<i64>,
    /// How often a request is tried again.
    pub retries: u32,
    /// The least wait before a retry, in milliseconds.
    pub min_retry_wait: u64,
    /// The greatest wait before a retry, in milliseconds.
    pub max_retry_wait: u64,
    /// The wait before retry 0, in milliseconds, before it is put between the least and the greatest.
    pub retry_factor: u64,
    /// By what that wait grows with each retry.
    pub retry_exponent_base: u64,
    /// How reads are shared among the replicas of a slot; none is that they go to the primary.
    pub read_strategy: Option<ReadStrategy>,
    /// How many milliseconds the connect and the setup of one connection may take.
    pub connection_timeout: u64,
    /// How many milliseconds one node may take to answer; none is no limit.
    pub response_timeout: Option<u64>,
    /// Whether somebody listens to pushes. It needs RESP3.
    pub push_sender: bool,
    /// Whether credentials come while a connection lives.
    pub credentials_provider: bool,
    /// How many permits each connection has, at least one; none is no limit.
    pub connection_concurrency_limit: Option<u32>,
    /// From how many unwritten bytes on no message of a connection starts.
    pub write_backpressure_boundary: u64,
    /// Which address is dialled in the place of another, as `dialled_address` says.
    pub node_address_map: AddressMap,
    /// How often a lost node is connected again, at least once, before it is given up; none is without end.
    pub max_connection_attempts: Option<u32>,
}

impl ClusterParams {
    /// Nothing is set: 16 retries, whose wait begins with 10 milliseconds, doubles, and is from 1,280 to 655,360
    /// milliseconds; reads go to the primary; a second to connect, and any time to answer; neither push sender nor source
    /// of credentials; no limit of permits, a boundary of 8,192 bytes, no addresses in the place of others, and no end of
    /// attempts. Takes no memory.
    pub fn new(alloc: Global) -> ClusterParams
        ensures { result ≡ default_params }
    {
        ClusterParams {
            password: None,
            username: None,
            protocol: None,
            database_id: None,
            retries: RETRIES,
            min_retry_wait: MIN_RETRY_WAIT,
            max_retry_wait: MAX_RETRY_WAIT,
            retry_factor: RETRY_FACTOR,
            retry_exponent_base: RETRY_EXPONENT_BASE,
            read_strategy: None,
            connection_timeout: CONNECTION_TIMEOUT,
            response_timeout: None,
            push_sender: false,
            credentials_provider: false,
            connection_concurrency_limit: None,
            write_backpressure_boundary: WRITE_BOUNDARY,
            node_address_map: AddressMap::new(alloc),
            max_connection_attempts: None,
        }
    }

    /// An equal value of its own.
    pub fn clone(&self, alloc: Global) -> Result<ClusterParams, AllocError>
        ensures { IfOk result (λ params. params ≡ self.now) }
    {
        let password = copy_text(alloc, &self.password)?;
        let username = copy_text(alloc, &self.username)?;
        let node_address_map = self.node_address_map.clone(alloc)?;
        Ok(ClusterParams {
            password,
            username,
            protocol: self.protocol,
            database_id: self.database_id,
            retries: self.retries,
            min_retry_wait: self.min_retry_wait,
            max_retry_wait: self.max_retry_wait,
            retry_factor: self.retry_factor,
            retry_exponent_base: self.retry_exponent_base,
            read_strategy: self.read_strategy,
            connection_timeout: self.connection_timeout,
            response_timeout: self.response_timeout,
            push_sender: self.push_sender,
            credentials_provider: self.credentials_provider,
            connection_concurrency_limit: self.connection_concurrency_limit,
            write_backpressure_boundary: self.write_backpressure_boundary,
            node_address_map,
            max_connection_attempts: self.max_connection_attempts,
        })
    }
}
