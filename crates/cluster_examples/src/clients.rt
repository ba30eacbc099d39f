ghost use Rattle.std.specs.Prelude.{◌≡◌, ◌≢◌, pos, List, [], ◌∷◌, codes, Some, None};
ghost use Rattle.redis_error.specs.declared.config_name.ConfigName.TheVariants.{Url};
ghost use Rattle.connection_info.specs.Address.{address_of};
ghost use Rattle.connection_info.specs.declared.protocol.ProtocolVersion.TheVariants.{RESP2, RESP3};
ghost use Rattle.cluster_client.specs.declared.params.ClusterParams.{ClusterParams};
ghost use Rattle.cluster_client.specs.declared.params.OverallResponseTimeout.TheVariants.{MatchResponseTimeout, Explicit};
ghost use Rattle.cluster_client.specs.declared.settings.ClusterKind.TheVariants.{Cluster, Pending};
ghost use Rattle.cluster_client.specs.Config.{configured, own_config, unset_config};
ghost use Rattle.cluster_client.specs.Chosen.{told_in};
ghost use Rattle.cluster_client.specs.Client.{all_there, overall_of};
ghost use Rattle.cluster_client.specs.Checks.{first_cluster_fault};
ghost use Rattle.cluster_client.specs.Settings.{settings_of};
ghost use Rattle.cluster_examples.specs.ClientNodes.{plain, at, newer, named, unset, with_password, with_protocol, with_database};
ghost use Rattle.cluster_examples.specs.ClientsRefused.{ComeTo, taken, refused, refused_twice};
ghost use Rattle.cluster_examples.specs.ClientsAsked.{bare, of_one, quick, quicker, of_quicker, changed, of_changed};

/// Does nothing. Its contract: these clients are built.
pub fn these_clients_are_built()
    ensures { ComeTo taken }
{}

/// Does nothing. Its contract: these clients are refused, each for the fault beside it; where two checks fail, the first is
/// told; and where a node is no address, that is told before all else.
pub fn these_clients_are_refused()
    ensures once { ComeTo refused }
    ensures twice { ComeTo refused_twice }
    ensures no_address { (params : ClusterParams)
        → first_cluster_fault (all_there (Some plain ∷ None ∷ Some newer ∷ [])) params ≡ Some Url }
{}

/// Does nothing. Its contract: what these clients say to each of their nodes.
pub fn this_is_said_to_every_node()
    ensures database { told_in unset (at 4 ∷ at 4 ∷ at 4 ∷ []) ≡ Some (at 4).redis }
    ensures set_database { told_in (with_database 4) (plain ∷ []) ≡ Some (at 4).redis }
    ensures first_protocol { told_in unset (newer ∷ plain ∷ []) ≡ Some newer.redis }
    ensures set_protocol { told_in (with_protocol RESP3) (plain ∷ []) ≡ Some newer.redis }
    ensures set_password { told_in with_password (named (codes "u") (codes "q") ∷ [])
        ≡ Some (named (codes "u") (codes "p")).redis }
    ensures nobody { told_in unset [] ≡ None }
{}

/// Does nothing. Its contract: how long a request of these clients may take as a whole.
pub fn a_request_may_take_so_long()
    ensures matched { overall_of (Some 7) MatchResponseTimeout ≡ Some 7 }
    ensures unlimited { overall_of (Some 7) (Explicit None) ≡ None }
    ensures longer { overall_of (Some 7) (Explicit (Some 30)) ≡ Some 30 }
{}

/// Does nothing. Its contract: the words of sessions of these clients.
pub fn sessions_are_asked_with_these_words()
    ensures bare { settings_of Cluster (of_one unset None) unset ≡ bare }
    ensures quicker { settings_of Cluster (of_one quick (Some 7)) (configured quick quicker) ≡ of_quicker }
    ensures unset { settings_of Cluster (of_one quick (Some 7)) (configured quick unset_config)
        ≡ record bare { overall = Some (Explicit (Some 7)) } }
    ensures own { configured quick (own_config quick) ≡ quick }
    ensures changed { settings_of Pending (of_one changed None) changed ≡ of_changed }
    ensures not_defaults { settings_of Cluster (of_one unset None) unset
        ≢ record bare { retries = Some 16 } }
{}
