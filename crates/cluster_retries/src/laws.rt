ghost use Rattle.cluster_retries.specs.WaitLaws.{EachIsDrawn, EachStaysBelow, NoneIsTooLong, NoneIsTooShort};
ghost use Rattle.cluster_retries.specs.TableLaws.{ActionStays, AskIsFollowed, EachRowIsSound, FanOutAnswers, MovedIsFollowed, ReadOnlyIsRouted, RedirectsLead, ValuesAreAnswered};
ghost use Rattle.cluster_retries.specs.ActionLaws.{Associates, Commutes, InitialTakesAll, NoNodeIsLost, NothingAddsNothing, SlotsTakeAddresses};
ghost use Rattle.cluster_retries.specs.RoutingLaws.{AddressIsFollowed, NeitherIsLeft, NoAddressLeavesAll, OnceIsEnough, RedirectIsForgotten, RequestStays};

/// Does nothing. Its contract: a wait is at least the least wait; where there is a number above that, what a wait stays below is above
/// it too, and each number between the two is drawn; and the greatest wait is never reached where it is above the least one.
pub fn waits_stay_between_their_bounds()
    ensures least { NoneIsTooShort }
    ensures below { EachStaysBelow }
    ensures greatest { NoneIsTooLong }
    ensures drawn { EachIsDrawn }
{}

/// Does nothing. Its contract: a value is answered, and no round follows it, whatever retries are left; but for the errors of servers
/// that are tried again.
pub fn a_value_is_followed_by_no_round()
    ensures { ValuesAreAnswered }
{}

/// Does nothing. Its contract: while retries are left, MOVED of a node leads at once to where it says, and the slots are rebuilt; ASK
/// leads there and nothing is rebuilt; and READONLY resets the routing, and the slots are rebuilt before the next round.
pub fn redirects_of_a_node_are_followed()
    ensures leads { RedirectsLead }
    ensures moved { MovedIsFollowed }
    ensures ask { AskIsFollowed }
    ensures read_only { ReadOnlyIsRouted }
{}

/// Does nothing. Its contract: without retries left every end is answered, and the action stays what it would be with retries left.
pub fn without_retries_the_action_stays()
    ensures { ActionStays }
{}

/// Does nothing. Its contract: an error of a fan-out itself is answered, since its parts were tried again; but for one that says that
/// no link served it.
pub fn a_fan_out_answers_its_errors()
    ensures { FanOutAnswers }
{}

/// Does nothing. Its contract: what is answered is neither reset nor redirected, and what is redirected goes on at once and isn't
/// reset.
pub fn no_row_contradicts_itself()
    ensures { EachRowIsSound }
{}

/// Does nothing. Its contract: actions join in any order; nothing to do adds nothing; beside a reconnect to the initial nodes nothing
/// else is done; and then, beside a rebuild of the slots, no single node is repaired.
pub fn actions_join_in_any_order()
    ensures commutes { Commutes }
    ensures associates { Associates }
    ensures nothing { NothingAddsNothing }
    ensures initial { InitialTakesAll }
    ensures slots { SlotsTakeAddresses }
{}

/// Does nothing. Its contract: where nodes are repaired and others too, it is those of both and no others, each once and in order.
pub fn no_node_is_forgotten()
    ensures { NoNodeIsLost }
{}

/// Does nothing. Its contract: after a reset a request has no redirect and names no link; a second reset changes nothing.
pub fn a_reset_leaves_no_redirect_and_no_link()
    ensures neither { NeitherIsLeft }
    ensures once { OnceIsEnough }
{}

/// Does nothing. Its contract: a redirect to an address is followed by a request to one node, in the place of the redirect before;
/// one to a text that is no address changes nothing; a reset leaves nothing of it; and what is sent stays the same.
pub fn a_redirect_holds_until_a_reset()
    ensures followed { AddressIsFollowed }
    ensures stray { NoAddressLeavesAll }
    ensures forgotten { RedirectIsForgotten }
    ensures sent { RequestStays }
{}
