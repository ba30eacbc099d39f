ghost use Rattle.std.specs.Prelude.{◌≡◌, [], ◌∷◌, Some, None};
ghost use Rattle.command_table.specs.declared.routing.SlotAddr.TheVariants.{Master, ReplicaOptional, ReplicaRequired};
ghost use Rattle.command_table.specs.declared.routing.MultipleNodeRoutingInfo.TheVariants.{AllMasters, AllNodes};
ghost use Rattle.mux_routing.specs.declared.strategy.ReadStrategy.TheVariants as by;
ghost use Rattle.cluster_retries.specs.declared.request_routing.Redirect.TheVariants.{Ask, Moved};
ghost use Rattle.cluster_retries.specs.declared.request_routing.SingleNodeRoute.TheVariants.{ByAddress, Connection, Random};
ghost use Rattle.cluster_plan.specs.declared.connections.ConnState.TheVariants.{Connected, Connecting, Reconnecting};
ghost use Rattle.cluster_examples.specs.Tries.{at, connecting, having, node, nowhere, others_alone, to, tried};
ghost use Rattle.cluster_examples.specs.PartTries as parts;
ghost use Rattle.cluster_examples.specs.Tables.{Gives};

/// Does nothing. Its contract: a slot's route takes its node where that is connected: the primary, or a replica by each strategy and
/// without one. A pick takes a draw, and a strategy isn't asked for the primary.
pub fn a_slot_takes_its_node()
    ensures primary { tried (Some by.Random) None (to 12 Master)
        (having (Connected 0) (Connected 1) (Connected 2)) ≡ at 0 7_000 0 }
    ensures optional { tried None None (to 12 ReplicaOptional)
        (having (Connected 0) (Connected 1) (Connected 2)) ≡ at 0 7_000 0 }
    ensures required { tried None None (to 12 ReplicaRequired)
        (having (Connected 0) (Connected 1) (Connected 2)) ≡ at 0 7_001 1 }
    ensures random { tried (Some by.Random) None (to 12 ReplicaOptional)
        (having (Connected 0) (Connected 1) (Connected 2)) ≡ at 1 7_002 2 }
    ensures in_turn { tried (Some (by.RoundRobin 2)) None (to 12 ReplicaRequired)
        (having (Connected 0) (Connected 1) (Connected 2)) ≡ at 1 7_001 1 }
{}

/// Does nothing. Its contract: where that node isn't connected, one of its shard stands in, but for the primary none; where none
/// does, a random node by one draw more; and where no node is connected, none, with the draw of the pick used.
pub fn others_stand_in()
    ensures replica { tried None None (to 12 ReplicaRequired)
        (having (Connected 0) (Reconnecting 1) (Connected 2)) ≡ at 0 7_002 2 }
    ensures primary { tried (Some by.Random) None (to 12 ReplicaOptional)
        (having (Connected 0) (Reconnecting 1) Connecting) ≡ at 1 7_000 0 }
    ensures replica_first { tried (Some by.Random) None (to 12 ReplicaOptional)
        (having (Connected 0) (Connected 1) (Reconnecting 2)) ≡ at 1 7_001 1 }
    ensures random { tried None None (to 12 Master)
        (having (Reconnecting 0) (Connected 1) (Connected 2)) ≡ at 1 7_002 2 }
    ensures both_draws { tried (Some by.Random) None (to 12 ReplicaRequired)
        (having (Connected 0) Connecting (Reconnecting 2)) ≡ at 2 7_000 0 }
    ensures behind_a_pick { tried (Some by.Random) None (to 12 ReplicaRequired) others_alone ≡ at 2 7_004 4 }
    ensures without_a_pick { tried (Some by.Random) None (to 12 Master) others_alone ≡ at 1 7_005 5 }
    ensures no_row { tried (Some by.Random) None (to 9_000 ReplicaRequired)
        (having (Connected 0) Connecting (Connected 2)) ≡ at 1 7_002 2 }
    ensures none { tried (Some by.Random) None (to 12 ReplicaRequired)
        (having (Reconnecting 0) Connecting (Reconnecting 2)) ≡ nowhere 1 }
    ensures empty { tried (Some by.Random) None (to 12 ReplicaRequired) [] ≡ nowhere 1 }
{}

/// Does nothing. Its contract: any node is one that is connected, by a draw also where it is the only one; an address and a redirect
/// take their node alone, and a redirect has it connected; and a part keeps its link.
pub fn other_routes_go_so()
    ensures any { tried None None Random (having (Connected 0) (Reconnecting 1) (Connected 2))
        ≡ at 1 7_002 2 }
    ensures only { tried None None Random (having Connecting (Connected 1) (Reconnecting 2))
        ≡ at 1 7_001 1 }
    ensures none { tried None None Random [] ≡ nowhere 0 }
    ensures address { tried None None (ByAddress (node 7_001))
        (having (Connected 0) (Connected 1) (Connected 2)) ≡ at 0 7_001 1 }
    ensures repaired { tried None None (ByAddress (node 7_001))
        (having (Connected 0) (Reconnecting 1) (Connected 2)) ≡ nowhere 0 }
    ensures moved { tried (Some by.Random) (Some (Moved (node 7_002))) (to 12 ReplicaOptional)
        (having (Connected 0) (Connected 1) (Connected 2)) ≡ at 0 7_002 2 }
    ensures ask { tried None (Some (Ask (node 7_005))) Random
        (having (Connected 0) (Connected 1) (Connected 2)) ≡ connecting 7_005 }
    ensures ask_repaired { tried None (Some (Ask (node 7_001))) Random
        (having (Connected 0) (Reconnecting 1) (Connected 2)) ≡ connecting 7_001 }
    ensures link { tried None None (Connection (node 7_001) 9) [] ≡ at 0 7_001 9 }
{}

/// Does nothing. Its contract: each node of the slots that has a link gets a part, also one that is being repaired; each route gets
/// one to its own node, with a draw for each pick; and where some routes have no link, they are named.
pub fn parts_go_so()
    ensures all { parts.spread None AllNodes
        (parts.having (Connected 0) (Reconnecting 1) Connecting (Connected 3))
        ≡ parts.each 0 (parts.to 7_000 0 ∷ parts.to 7_002 1 ∷ parts.to 7_004 3 ∷ []) }
    ensures primaries { parts.spread None AllMasters
        (parts.having (Connected 0) (Reconnecting 1) Connecting (Connected 3))
        ≡ parts.each 0 (parts.to 7_000 0 ∷ parts.to 7_002 1 ∷ []) }
    ensures none { parts.spread None AllMasters (parts.having Connecting Connecting (Connected 2) (Connected 3))
        ≡ parts.nowhere 0 }
    ensures routes { parts.spread None (parts.keys_in Master (9_000 ∷ 12 ∷ []))
        (parts.having (Connected 0) (Reconnecting 1) (Connected 2) (Connected 3))
        ≡ parts.each 0 (parts.to 7_000 0 ∷ parts.to 7_002 1 ∷ []) }
    ensures picks { parts.spread (Some (by.RoundRobin 0)) (parts.keys_in ReplicaOptional (12 ∷ 9_000 ∷ 13 ∷ []))
        (parts.having (Connected 0) (Connected 1) (Connected 2) (Reconnecting 3))
        ≡ parts.each 2 (parts.to 7_003 2 ∷ parts.to 7_000 0 ∷ parts.to 7_004 3 ∷ []) }
    ensures draws { parts.spread (Some by.Random) (parts.keys_in ReplicaOptional (12 ∷ 9_000 ∷ 13 ∷ []))
        (parts.having (Connected 0) (Connected 1) (Connected 2) (Reconnecting 3))
        ≡ parts.each 2 (parts.to 7_004 3 ∷ parts.to 7_000 0 ∷ parts.to 7_003 2 ∷ []) }
    ensures no_stand_in { parts.spread None (parts.keys_in ReplicaRequired (9_000 ∷ 12 ∷ []))
        (parts.having (Connected 0) (Connected 1) Connecting (Connected 3)) ≡ parts.without 0 (1 ∷ []) }
    ensures several_missing { parts.spread None (parts.keys_in Master (12 ∷ 9_000 ∷ 13 ∷ 14 ∷ []))
        (parts.having (Connected 0) Connecting (Connected 2) (Connected 3))
        ≡ parts.without 0 (0 ∷ 2 ∷ 3 ∷ []) }
    ensures no_link { parts.spread None (parts.keys_in Master (9_000 ∷ 12 ∷ [])) [] ≡ parts.nowhere 0 }
{}

/// Does nothing. Its contract: replicas are picked in turn, and the count of picks stands still at its greatest.
pub fn replicas_are_picked_in_turn()
    ensures { Gives parts.picked_in_turn parts.turns_taken }
{}
