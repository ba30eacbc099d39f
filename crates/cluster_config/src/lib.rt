//! What a session over a cluster is configured by, and the decisions of its driver as pure parts: the client and its builder,
//! what follows the end of a try and how long it waits, and the plans of recoveries and of repairs.
#![tactic(auto)]

pub use cluster_client::{
    AddressMap, ClusterClient, ClusterClientBuilder, ClusterConfig, ClusterKind, ClusterParams,
    ClusterSettings, OverallResponseTimeout, Reads,
};
pub use cluster_plan::{
    Answer, Ask, ConnState, ConnectionMap, Failure, InitialConnects, InitialEnd, NodeEntry, Part,
    RecoveryKind, Request,
};
pub use cluster_retries::{
    AddressSet, Chosen, CmdArg, EndError, InternalRoutingInfo, InternalSingleNodeRouting, Next,
    OperationTarget, PollFlushAction, RecoveryAction, Redirect, Redirection, RetryParams, RoundEnd,
    SingleNodeRoute, choose_response, cluster_retry_wait_upper_ms,
};
