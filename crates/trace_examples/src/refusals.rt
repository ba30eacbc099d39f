//! What is refused first of a configuration, and how many messages the queue of a link holds.

ghost use Rattle.std.specs.Prelude.{◌≡◌, [], ◌∷◌, map, true, false, Some, None, codes};
ghost use Rattle.redis_error.specs.declared.config_name.ConfigName.TheVariants as name;
ghost use Rattle.connection_info.specs.declared.protocol.ProtocolVersion.TheVariants.{RESP2, RESP3};
ghost use Rattle.driver_model.specs.declared.config.Config.TheVariants as config;
ghost use Rattle.driver_model.specs.Config.{address_at, buffer_size, permits, no_words, no_manager_words};
ghost use Rattle.trace_examples.specs.Refusals.{refused_of_one, manager_with, refused_of_manager};

/// Does nothing. Its contract: of one connection an address that is none is refused first, then pushes on
/// RESP2, a limit of no permits, and a queue that holds nothing.
pub fn these_connections_are_refused_first()
    ensures all { refused_of_one None true (Some 0) 0 ≡ Some name.Url }
    ensures url { refused_of_one None false None 50 ≡ Some name.Url }
    ensures push { refused_of_one (Some RESP2) true (Some 0) 0 ≡ Some name.Push }
    ensures limit { refused_of_one (Some RESP3) true (Some 0) 0 ≡ Some name.Limit }
    ensures limit_unheard { refused_of_one (Some RESP2) false (Some 0) 0 ≡ Some name.Limit }
    ensures buffer { refused_of_one (Some RESP3) true (Some 1) 0 ≡ Some name.Buffer }
    ensures uncounted { refused_of_one (Some RESP2) false None 0 ≡ Some name.Buffer }
    ensures none { refused_of_one (Some RESP3) true (Some 1) 1 ≡ None }
    ensures unheard { refused_of_one (Some RESP2) false None 1 ≡ None }
{}

/// Does nothing. Its contract: of a manager resubscription without a push sender is refused first, then a
/// fraction without a denominator, pushes on RESP2, a limit of no permits, and a queue that holds nothing.
pub fn these_managers_are_refused_first()
    ensures all { refused_of_manager (manager_with true 0 false (Some 0) 0) ≡ Some name.Resub }
    ensures base { refused_of_manager (manager_with true 0 true (Some 0) 0) ≡ Some name.Base }
    ensures push { refused_of_manager (manager_with true 1 true (Some 0) 0) ≡ Some name.Push }
    ensures limit { refused_of_manager (manager_with false 1 false (Some 0) 0) ≡ Some name.Limit }
    ensures buffer { refused_of_manager (manager_with false 1 false (Some 1) 0) ≡ Some name.Buffer }
    ensures uncounted { refused_of_manager (manager_with false 1 false None 0) ≡ Some name.Buffer }
    ensures none { refused_of_manager (manager_with false 1 false None 1) ≡ None }
{}

/// Does nothing. Its contract: the queue of a multiplexed link holds fifty messages where nothing is said,
/// and that of a link of publish/subscribe or of monitor mode as many as there are numbers of 32 bits;
/// and permits are counted on none of these.
pub fn queues_hold_so_many()
    ensures sizes { map buffer_size (config.Single (address_at (codes "redis://h")) no_words
        ∷ config.Manager true (address_at (codes "redis://h")) no_words no_manager_words
        ∷ config.PubSub (address_at (codes "redis://h")) ∷ config.Monitor (address_at (codes "redis://h")) ∷ [])
        ≡ 50 ∷ 50 ∷ 4_294_967_295 ∷ 4_294_967_295 ∷ [] }
    ensures limits { map permits (config.Single (address_at (codes "redis://h")) no_words
        ∷ config.Manager true (address_at (codes "redis://h")) no_words no_manager_words
        ∷ config.PubSub (address_at (codes "redis://h")) ∷ config.Monitor (address_at (codes "redis://h")) ∷ [])
        ≡ None ∷ None ∷ None ∷ None ∷ [] }
{}
