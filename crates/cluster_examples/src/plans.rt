ghost use Rattle.std.specs.Prelude.{◌≡◌, [], ◌∷◌, map};
ghost use Rattle.cluster_plan.specs.declared.connections.ConnState.TheVariants as state;
ghost use Rattle.redis_error.specs.declared.fault_kind.FaultKind.TheVariants.{Refused, Reset};
ghost use Rattle.redis_error.specs.declared.redis_error.RedisError.TheVariants.{Io};
ghost use Rattle.cluster_plan.specs.declared.asks.Part.TheVariants.{Initial};
ghost use Rattle.cluster_plan.specs.declared.recovery_kind.Failure.TheVariants.{Create};
ghost use Rattle.cluster_plan.specs.Connections.{mark_reconnecting};
ghost use Rattle.cluster_plan.specs.Reached.{connect};
ghost use Rattle.cluster_plan.specs.Refresh.{asks, failed};
ghost use Rattle.cluster_plan.specs.Repair.{wait_ms};
ghost use Rattle.cluster_examples.specs.Reconnects as reconnect;
ghost use Rattle.cluster_examples.specs.Refreshes as refresh;
ghost use Rattle.cluster_examples.specs.Repairs as repair;
ghost use Rattle.cluster_examples.specs.Stories.{all_slots, node, okay, story};

/// Does nothing. Its contract: of one initial node and of two, what a reconnect asks after each answer, and how it ends.
pub fn reconnects_go_so()
    ensures one { story reconnect.of_one reconnect.one_well ≡ reconnect.comes_of_one }
    ensures one_ends { reconnect.of_one reconnect.one_well ≡ reconnect.one_stands }
    ensures none { story reconnect.of_two reconnect.both_refused ≡ reconnect.comes_of_refusals }
    ensures one_of_two { story reconnect.of_two reconnect.one_of_two
        ≡ reconnect.comes_of_one_of_two }
    ensures leaves { story reconnect.of_two reconnect.one_leaves ≡ reconnect.comes_of_leaving }
    ensures leaves_ends { reconnect.of_two reconnect.one_leaves ≡ reconnect.other_stands }
{}

/// Does nothing. Its contract: the order of failures counts, and that of other answers doesn't; and what wasn't asked is
/// no answer.
pub fn failures_are_in_order()
    ensures refused { (reconnect.of_two reconnect.refused_last).next ≡ failed (Create (Io Refused)) }
    ensures reset { (reconnect.of_two reconnect.both_refused).next ≡ failed (Create (Io Reset)) }
    ensures others { reconnect.of_two reconnect.leaves_otherwise ≡ reconnect.other_stands }
    ensures not_asked { (reconnect.of_one reconnect.not_asked).next
        ≡ asks (connect Initial (node 7_000) ∷ []) }
{}

/// Does nothing. Its contract: what a refresh asks after each answer, and how it ends.
pub fn refreshes_go_so()
    ensures none { story refresh.of_none [] ≡ refresh.comes_of_none }
    ensures emptied { refresh.of_one refresh.emptied ≡ refresh.nothing_stands }
    ensures moving { story refresh.of_one refresh.moved_on ≡ refresh.comes_of_moving }
    ensures moving_ends { refresh.of_one refresh.moved_on ≡ refresh.new_stands }
    ensures second { story refresh.of_two refresh.second_time ≡ refresh.comes_second }
    ensures second_ends { refresh.of_two refresh.second_time ≡ refresh.second_stands }
    ensures none_good { refresh.of_two refresh.none_good ≡ refresh.failure_stands }
    ensures bad { story refresh.of_one refresh.bad_twice ≡ refresh.comes_of_bad }
{}

/// Does nothing. Its contract: what a repair of two attempts asks after each answer, how it ends, its waits, the map with
/// which it begins, and what other repairs do in each turn, as `repair_turns` has it.
pub fn repairs_go_so()
    ensures attempts { story (repair.from (state.Reconnecting 0) (all_slots 7_000 ∷ []))
        repair.two_attempts ≡ repair.comes_of_attempts }
    ensures attempts_end { repair.from (state.Reconnecting 0) (all_slots 7_000 ∷ [])
        repair.two_attempts ≡ repair.gone (all_slots 7_000 ∷ []) }
    ensures reached { repair.from state.Connecting (all_slots 7_000 ∷ []) repair.reached_anew
        ≡ repair.stands 5 }
    ensures connected { repair.from (state.Connected 7) (all_slots 7_000 ∷ []) [] ≡ repair.stands 7 }
    ensures outside { repair.from state.Connecting (all_slots 7_001 ∷ []) []
        ≡ repair.gone (all_slots 7_001 ∷ []) }
    ensures waits { map wait_ms (1 ∷ 2 ∷ 3 ∷ 4 ∷ 5 ∷ 6 ∷ 7 ∷ []) ≡ repair.waits }
    ensures begins { map (λ row. mark_reconnecting (node 7_000) row.0) repair.begins
        ≡ map (λ row. row.1) repair.begins }
    ensures courses { map repair.plans_of repair.courses
        ≡ map repair.plans_by_steps repair.courses }
{}
