ghost use Rattle.std.specs.Prelude.{◌≡◌, IfOk};

use crate::copies::copy_text;
use crate::params::{AddressMap, OverallResponseTimeout};
use connection_info::ProtocolVersion;
use containers::{Bytes, Names};
use std::alloc::{AllocError, Global};

/// What a session over a cluster waits for before it takes requests.
#[derive(Clone, Copy, Debug, PartialEq, Eq)]
pub enum ClusterKind {
    /// Its connections and its map of slots.
    Cluster,
    /// Nothing: requests that come earlier wait.
    Pending,
}

/// Where reads go.
#[derive(Clone, Copy, Debug, PartialEq, Eq)]
pub enum Reads {
    /// To the primary of a slot.
    Primary,
    /// To a replica of a draw.
    Random,
    /// To the replicas in turn.
    RoundRobin,
}

/// What a session over a cluster is asked with: the words of its configuration, each where it was given.
#[derive(Drop)]
pub struct ClusterSettings {
    /// What the session is.
    pub kind: ClusterKind,
    /// The addresses of the initial nodes, URLs as they were given.
    pub nodes: Names,
    /// How many milliseconds the connect and the setup of one connection may take. 1,000 where nothing is given.
    pub connect: Option<u64>,
    /// How many milliseconds one node may take to answer, `Some(None)` for any number. Any number where nothing is given.
    pub response: Option<Option<u64>>,
    /// How many permits each connection has, at least one. Any number where nothing is given.
    pub limit: Option<u32>,
    /// From how many unwritten bytes on no message of a connection starts. 8,192 where nothing is given.
    pub boundary: Option<u64>,
    /// Whether somebody hears the pushes that come. Nobody does where nothing is given. It needs RESP3.
    pub push: Option<bool>,
    /// Whether credentials come of a source. They don't where nothing is given.
    pub creds: Option<bool>,
    /// Whether the servers are told which library speaks. They are where nothing is given.
    pub lib: Option<bool>,
    /// How often a request is tried again. 16 times where nothing is given.
    pub retries: Option<u32>,
    /// What authenticates at every node. What the first node's address has where nothing is given.
    pub password: Option<Bytes>,
    /// Who authenticates at every node. Whom the first node's address names where nothing is given.
    pub user: Option<Bytes>,
    /// The protocol of every connection. That of the first node's address where nothing is given.
    pub protocol: Option<ProtocolVersion>,
    /// The database that is chosen at every node, 0 or more. That of the first node's address where nothing is given.
    pub db: Option<i64>,
    /// The least wait before a retry, in milliseconds. 1,280 where nothing is given.
    pub min_wait: Option<u64>,
    /// The greatest wait before a retry, in milliseconds. 655,360 where nothing is given.
    pub max_wait: Option<u64>,
    /// The wait before retry 0, in milliseconds, before it is put between the least and the greatest. 10 where nothing is
    /// given.
    pub factor: Option<u64>,
    /// By what that wait grows with each retry. 2 where nothing is given.
    pub exp: Option<u64>,
    /// Within how many milliseconds a request is to be answered as a whole. Within as many as `response` says where nothing
    /// is given.
    pub overall: Option<OverallResponseTimeout>,
    /// Where reads go. To the primary where nothing is given.
    pub reads: Option<Reads>,
    /// Which address is dialled in the place of another. Every address is dialled itself where nothing is given.
    pub map: Option<AddressMap>,
    /// How often a lost node is connected again, at least once. Without end where nothing is given.
    pub attempts: Option<u32>,
}

/// A copy of an address map, if there is one.
fn copy_map(alloc: Global, map: &Option<AddressMap>) -> Result<Option<AddressMap>, AllocError>
    ensures { IfOk result (λ copy. copy ≡ map.now) }
{
    match map {
        Some(map) => Ok(Some(map.clone(alloc)?)),
        None => Ok(None),
    }
}

impl ClusterSettings {
    /// The same words, with these in place of those that own memory.
    fn with_copies(
        &self,
        nodes: Names,
        password: Option<Bytes>,
        user: Option<Bytes>,
        map: Option<AddressMap>,
    ) -> ClusterSettings
        ensures { result ≡ record self.now { nodes = nodes; password = password; user = user; map = map } }
    {
        ClusterSettings {
            kind: self.kind,
            nodes,
            connect: self.connect,
            response: self.response,
            limit: self.limit,
            boundary: self.boundary,
            push: self.push,
            creds: self.creds,
            lib: self.lib,
            retries: self.retries,
            password,
            user,
            protocol: self.protocol,
            db: self.db,
            min_wait: self.min_wait,
            max_wait: self.max_wait,
            factor: self.factor,
            exp: self.exp,
            overall: self.overall,
            reads: self.reads,
            map,
            attempts: self.attempts,
        }
    }

    /// An equal value of its own.
    pub fn clone(&self, alloc: Global) -> Result<ClusterSettings, AllocError>
        ensures { IfOk result (λ settings. settings ≡ self.now) }
    {
        let nodes = self.nodes.clone(alloc)?;
        let password = copy_text(alloc, &self.password)?;
        let user = copy_text(alloc, &self.user)?;
        let map = copy_map(alloc, &self.map)?;
        Ok(self.with_copies(nodes, password, user, map))
    }
}
