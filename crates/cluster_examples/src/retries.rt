ghost use Rattle.std.specs.Prelude.{true, false, codes};
ghost use Rattle.cluster_retries.specs.Routing.{after_redirect, after_reset};
ghost use Rattle.cluster_retries.specs.Table.{IsLed, IsNotLed};
ghost use Rattle.cluster_examples.specs.Tables.{Gives};
ghost use Rattle.cluster_examples.specs.Retries.{a_node, ask_value, moved_value, read_only_value, upper_by, uppers, wait_by, waits, follows, node_rows, other_rows, values, joined_by, joined_actions, left_behind, rounds};
ghost use Rattle.cluster_examples.specs.Routes.{redirects_of, resets_of};

/// Does nothing. Its contract: what waits stay below, and how long they are.
pub fn waits_are_these()
    ensures uppers { Gives upper_by uppers }
    ensures waits { Gives wait_by waits }
{}

/// Does nothing. Its contract: behind how many rounds retries are left.
pub fn so_many_rounds_are_tried_again()
    ensures { Gives left_behind rounds }
{}

/// Does nothing. Its contract: each row of the table of retries, at literal errors, with retries left and without; and that values are
/// answered.
pub fn ends_of_rounds_are_followed_so()
    ensures of_nodes { Gives follows node_rows }
    ensures of_others { Gives follows other_rows }
    ensures values { Gives follows values }
{}

/// Does nothing. Its contract: where these ends of a round lead its request, and that others lead it nowhere.
pub fn redirects_lead_these_requests()
    ensures ask { IsLed a_node ask_value true 123 (codes "foo:1234") true }
    ensures moved { IsLed a_node moved_value true 123 (codes "foo:1234") false }
    ensures spent { IsNotLed a_node ask_value false }
    ensures unled { IsNotLed a_node read_only_value true }
{}

/// Does nothing. Its contract: two actions as one.
pub fn actions_become_these()
    ensures { Gives joined_by joined_actions }
{}

/// Does nothing. Its contract: these requests after a redirect, and after a reset.
pub fn requests_go_there()
    ensures redirects { Gives (λ case. after_redirect case.0 case.1) redirects_of }
    ensures resets { Gives after_reset resets_of }
{}
