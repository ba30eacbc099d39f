ghost use Rattle.std.specs.Prelude.{◌≡◌, ◌↔◌, ℕ, ℤ, List, Some, None};
ghost use Rattle.connection_info.specs.declared.address.ConnectionInfo.{ConnectionInfo};
ghost use Rattle.connection_info.specs.declared.address.RedisConnectionInfo.{RedisConnectionInfo};
ghost use Rattle.connection_info.specs.declared.protocol.ProtocolVersion.{ProtocolVersion};
ghost use Rattle.cluster_client.specs.declared.params.ClusterParams.{ClusterParams};
ghost use Rattle.cluster_client.specs.Chosen.{told_by};
ghost use Rattle.cluster_client.specs.Checks.{first_cluster_fault};
ghost use Rattle.cluster_client.specs.Agreement.{NodesAgree};

/// Does nothing. Its contract: nothing of a client is refused exactly where there is a first node, with which every node
/// agrees as far as nothing else is set, pushes are listened to on RESP3 alone, and a connection has permits.
pub fn nothing_is_refused_where_the_nodes_agree()
    ensures { (nodes : List ConnectionInfo) (params : ClusterParams)
        → (first_cluster_fault (Some nodes) params ≡ None) ↔ NodesAgree params nodes }
{}

/// Does nothing. Its contract: what is set is said to every node, whatever the first one has.
pub fn what_is_set_is_told()
    ensures password { (params : ClusterParams) (first : RedisConnectionInfo) (text : List ℕ)
        → params.password ≡ Some text → (told_by params first).password ≡ Some text }
    ensures username { (params : ClusterParams) (first : RedisConnectionInfo) (text : List ℕ)
        → params.username ≡ Some text → (told_by params first).username ≡ Some text }
    ensures protocol { (params : ClusterParams) (first : RedisConnectionInfo) (version : ProtocolVersion)
        → params.protocol ≡ Some version → (told_by params first).protocol ≡ version }
    ensures database { (params : ClusterParams) (first : RedisConnectionInfo) (db : ℤ)
        → params.database_id ≡ Some db → (told_by params first).db ≡ db }
{}

/// Does nothing. Its contract: what isn't set is said to every node as the first one has it.
pub fn what_is_not_set_is_told_of_the_first_node()
    ensures password { (params : ClusterParams) (first : RedisConnectionInfo)
        → params.password ≡ None → (told_by params first).password ≡ first.password }
    ensures username { (params : ClusterParams) (first : RedisConnectionInfo)
        → params.username ≡ None → (told_by params first).username ≡ first.username }
    ensures protocol { (params : ClusterParams) (first : RedisConnectionInfo)
        → params.protocol ≡ None → (told_by params first).protocol ≡ first.protocol }
    ensures database { (params : ClusterParams) (first : RedisConnectionInfo)
        → params.database_id ≡ None → (told_by params first).db ≡ first.db }
{}
