ghost use Rattle.conn_manager.specs.Links.{OldLinksAreSilent, OldTimersAreSilent, SubscribesWhatIsSubscribed};
ghost use Rattle.conn_manager.specs.Links.{ConfirmedCallsAreTracked, FailedCallsAreNotTracked};
ghost use Rattle.conn_manager.specs.Once.{AnsweredOnce};
ghost use Rattle.conn_manager.specs.Handed.{HandedOnce, HandedToTheLast};
ghost use Rattle.conn_manager.specs.Numbers.{GivesTheNext, NumbersRise};
ghost use Rattle.conn_manager.specs.Turns.{TurnsMoveGenerations, PassesBeginNone};
ghost use Rattle.conn_manager.specs.Waits.{WaitsAreTold};

/// Does nothing. Its contract: what happens to a link that was asked for before the last one changes nothing, so that no
/// generation is replaced by it; nor does a timer of such a link, or of a wait that doesn't go on.
pub fn an_event_of_an_older_link_changes_nothing()
    ensures links { OldLinksAreSilent }
    ensures timers { OldTimersAreSilent }
{}

/// Does nothing. Its contract: what is subscribed again on a new link is exactly what is subscribed at that moment, by the calls
/// that the server confirmed, in their order.
pub fn what_is_subscribed_again_is_what_is_subscribed()
    ensures again { SubscribesWhatIsSubscribed }
    ensures confirmed { ConfirmedCallsAreTracked }
    ensures failed { FailedCallsAreNotTracked }
{}

/// Does nothing. Its contract: whatever is called and whatever happens, a request is answered once, and one whose caller has
/// gone isn't answered.
pub fn a_request_is_answered_once()
    ensures { AnsweredOnce }
{}

/// Does nothing. Its contract: whatever is called and whatever happens, a request is handed to one link, and to no later one; and
/// that is the link that was asked for last, when it is handed on.
pub fn a_request_is_handed_to_one_link()
    ensures once { HandedOnce }
    ensures last { HandedToTheLast }
{}

/// Does nothing. Its contract: each send gives its request the next number, and no number is given again, whatever is called and
/// whatever happens.
pub fn a_number_is_given_to_one_request()
    ensures next { GivesTheNext }
    ensures rise { NumbersRise }
{}

/// Does nothing. Its contract: each turn of a manager is a turn of its generations, so that what
/// `a_generation_is_replaced_by_its_causes_alone` says holds of a manager; and what stands behind that in a turn begins none.
pub fn turns_move_generations_by_their_causes()
    ensures turns { TurnsMoveGenerations }
    ensures passes { PassesBeginNone }
{}

/// Does nothing. Its contract: behind each turn nobody that waits for a generation is still to be told for what, and what was told
/// last is what the generation has come to.
pub fn whoever_waits_was_told_for_what()
    ensures { WaitsAreTold }
{}
