ghost use Rattle.std.specs.Prelude.{◌≡◌, map, IfOk, IfErr, OnOk};
ghost use Rattle.connection_info.specs.Written.{url_of};
ghost use Rattle.cluster_client.specs.Config.{configured, own_config};
ghost use Rattle.cluster_client.specs.Client.{IsSound};
ghost use Rattle.cluster_client.specs.Settings.{settings_of, map_given, Keeps, ReadBack, RefusesMaking};

use crate::client::ClusterClient;
use crate::config::ClusterConfig;
use crate::copies::copy_text;
use crate::given;
use crate::params::{
    AddressMap, CONNECTION_TIMEOUT, ClusterParams, MAX_RETRY_WAIT, MIN_RETRY_WAIT, RETRIES,
    RETRY_EXPONENT_BASE, RETRY_FACTOR, WRITE_BOUNDARY,
};
use crate::settings::{ClusterKind, ClusterSettings};
use connection_info::{ConnectionInfo, OpenError};
use containers::{Bytes, Names};
use std::alloc::{AllocError, Global};

/// The URLs of these addresses, in their order.
fn urls(alloc: Global, nodes: &[ConnectionInfo]) -> Result<Names, OpenError>
    ensures value { IfOk result (λ texts. texts ≡ map url_of nodes.now) }
    ensures read { OnOk result (ReadBack nodes.now) }
    ensures err { IfErr result (RefusesMaking nodes.now) }
{
    let mut texts = Names::new(alloc);
    for node in nodes {
        let text = node.to_url(alloc)?;
        texts.push(text)?;
    }
    Ok(texts)
}

/// What changes nothing of a client that behaves so.
fn own_config(params: &ClusterParams) -> ClusterConfig
    ensures { result ≡ own_config params.now }
{
    ClusterConfig {
        connection_timeout: None,
        response_timeout: params.response_timeout,
        push_sender: false,
    }
}

/// The texts of a password, a user and a map of addresses, where they are set.
type Texts = (Option<Bytes>, Option<Bytes>, Option<AddressMap>);

/// Copies of these of a client that behaves so.
fn texts(alloc: Global, params: &ClusterParams) -> Result<Texts, AllocError>
    ensures { IfOk result (λ texts.
        texts ≡ (params.now.password, params.now.username, map_given params.now.node_address_map)
        ) }
{
    let password = copy_text(alloc, &params.password)?;
    let user = match copy_text(alloc, &params.username) {
        Ok(user) => user,
        Err(error) => {
            drop(password);
            return Err(error);
        }
    };
    match given::map(alloc, &params.node_address_map) {
        Ok(map) => Ok((password, user, map)),
        Err(error) => {
            drop(password);
            drop(user);
            Err(error)
        }
    }
}

impl ClusterClient {
    /// The words of a session of this kind, under a configuration.
    fn settings(
        &self,
        alloc: Global,
        kind: ClusterKind,
        config: &ClusterConfig,
    ) -> Result<ClusterSettings, OpenError>
        ensures value { IfOk result (λ words.
            words ≡ settings_of kind self.now (configured self.now.params config.now)
            ) }
        ensures sound { IsSound self.now.nodes self.now.params self.now.told }
        ensures read { OnOk result (ReadBack self.now.nodes) }
        ensures err { IfErr result (RefusesMaking self.now.nodes) }
    {
        let params = self.params();
        let told = self.redis_connection_info();
        let nodes = urls(alloc, self.initial_nodes())?;
        let (password, user, map) = match texts(alloc, params) {
            Ok(texts) => texts,
            Err(AllocError) => {
                drop(nodes);
                return Err(OpenError::NoMemory);
            }
        };
        let connect = config
            .connection_timeout
            .unwrap_or(params.connection_timeout);
        let response = config.response_timeout;
        Ok(ClusterSettings {
            kind,
            nodes,
            connect: given::number(CONNECTION_TIMEOUT, connect),
            response: given::time(response),
            limit: params.connection_concurrency_limit,
            boundary: given::number(WRITE_BOUNDARY, params.write_backpressure_boundary),
            push: given::switch(config.push_sender || params.push_sender),
            creds: given::switch(params.credentials_provider),
            lib: given::library(told.skip_set_lib_name),
            retries: given::count(RETRIES, params.retries),
            password,
            user,
            protocol: params.protocol,
            db: params.database_id,
            min_wait: given::number(MIN_RETRY_WAIT, params.min_retry_wait),
            max_wait: given::number(MAX_RETRY_WAIT, params.max_retry_wait),
            factor: given::number(RETRY_FACTOR, params.retry_factor),
            exp: given::number(RETRY_EXPONENT_BASE, params.retry_exponent_base),
            overall: given::overall(response, self.overall_response_timeout()),
            reads: given::reads(params.read_strategy),
            map,
            attempts: params.max_connection_attempts,
        })
    }

    /// What a session over this cluster is asked with: its words are the nodes as URLs, what of password, user, protocol
    /// and database was set, and of the rest what isn't the default. `Config(Url)` comes exactly where no URL says the
    /// address of one of the nodes.
    pub fn get_async_connection(&self, alloc: Global) -> Result<ClusterSettings, OpenError>
        ensures value { IfOk result (λ words.
            words ≡ settings_of ClusterKind.Cluster self.now self.now.params
            ) }
        ensures keeps { IfOk result (Keeps self.now self.now.params) }
        ensures read { OnOk result (ReadBack self.now.nodes) }
        ensures err { IfErr result (RefusesMaking self.now.nodes) }
    {
        let config = own_config(self.params());
        self.settings(alloc, ClusterKind::Cluster, &config)
    }

    /// The same as `get_async_connection`.
    pub fn get_async_generic_connection(&self, alloc: Global) -> Result<ClusterSettings, OpenError>
        ensures value { IfOk result (λ words.
            words ≡ settings_of ClusterKind.Cluster self.now self.now.params
            ) }
        ensures keeps { IfOk result (Keeps self.now self.now.params) }
        ensures read { OnOk result (ReadBack self.now.nodes) }
        ensures err { IfErr result (RefusesMaking self.now.nodes) }
    {
        self.get_async_connection(alloc)
    }

    /// The same under a configuration: its response timeout replaces the client's, whether or not it is set, and its other
    /// settings those of the client where they are set. How long a request may take as a whole stays as it was built.
    pub fn get_async_connection_with_config(
        &self,
        alloc: Global,
        config: &ClusterConfig,
    ) -> Result<ClusterSettings, OpenError>
        ensures value { IfOk result (λ words.
            words ≡ settings_of ClusterKind.Cluster self.now (configured self.now.params config.now)
            ) }
        ensures keeps { IfOk result (Keeps self.now (configured self.now.params config.now)) }
        ensures read { OnOk result (ReadBack self.now.nodes) }
        ensures err { IfErr result (RefusesMaking self.now.nodes) }
    {
        self.settings(alloc, ClusterKind::Cluster, config)
    }

    /// The same of a session that waits for nothing before it takes requests.
    pub fn get_pending_async_connection_with_config(
        &self,
        alloc: Global,
        config: &ClusterConfig,
    ) -> Result<ClusterSettings, OpenError>
        ensures value { IfOk result (λ words.
            words ≡ settings_of ClusterKind.Pending self.now (configured self.now.params config.now)
            ) }
        ensures keeps { IfOk result (Keeps self.now (configured self.now.params config.now)) }
        ensures read { OnOk result (ReadBack self.now.nodes) }
        ensures err { IfErr result (RefusesMaking self.now.nodes) }
    {
        self.settings(alloc, ClusterKind::Pending, config)
    }
}
