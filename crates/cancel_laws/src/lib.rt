//! The law of cancels: over whole histories, where permits aren't counted, the cancel of a started
//! request changes nothing but its own outcome.
#![tactic(auto)]

ghost use Rattle.std.specs.Prelude.{◌≡◌, ◌≢◌, ℕ, true, false, List, [], ◌∷◌, Option};
ghost use Rattle.driver_model.specs.declared.event.Submission.{Submission};
ghost use Rattle.driver_model.specs.declared.event.Submission.TheVariants.{Cmd, Pipe, Multi};
ghost use Rattle.driver_model.specs.declared.event.Submission.TheVariants.{Subscription, Ping};
ghost use Rattle.resp_write.specs.declared.subscription.SubscriptionAction.{SubscriptionAction};
ghost use Rattle.driver_model.specs.Request.{packed_bytes, is_reply_awaited, needs_resp3};
ghost use Rattle.cancel_laws.specs.Laws.{CancelIsGood, OthersKeepOutcomes, CancelledGetsNone};
ghost use Rattle.cancel_laws.specs.Laws.{TurnsGoOn, ItemsGoTheSameWay, SameAreBad};
ghost use Rattle.cancel_laws.specs.Laws.{StartsOnFreeLink, StartsWhereHandedIn};
ghost use Rattle.cancel_laws.specs.Laws.{StartsWhereListening};

/// Does nothing. Its contract: where submission n has started and is open after a history, its
/// cancel there is not bad, and n never gets an outcome. Where the session doesn't come back, and
/// its configuration has no limit, the cancel changes nothing of what comes later but n's own
/// outcome: all other submissions have the same outcomes; the turns show the same starts, timers,
/// offers, waits, pushes, messages and closes in the same order; each item goes to the same
/// message, where n's own is not wanted; and the same events are bad. So it is on each link of
/// publish/subscribe, which has no limit. With a limit the cancel gives n's permits back at once,
/// so that others may start earlier.
pub fn a_cancel_changes_one_outcome()
    ensures good { CancelIsGood }
    ensures outcomes { OthersKeepOutcomes }
    ensures none { CancelledGetsNone }
    ensures turns { TurnsGoOn }
    ensures items { ItemsGoTheSameWay }
    ensures bad { SameAreBad }
{}

/// Does nothing. Its contract: such submissions exist. Any that has bytes, and whose reply is
/// awaited, has started where it is handed in on a link that is ready, which nothing holds back,
/// whose queue has room, and which has a free permit, while there is a number for it, unless it
/// needs RESP3 and the link speaks another protocol. So has any that is no subscription call after
/// the connect of the first link, where that is asked for as the session opens, nothing of the
/// configuration is refused, no credentials are to come of a source, nothing is to be said to the
/// server first, and it isn't put into monitor mode: so a command, a pipeline whose first command
/// has a name, and a transaction; and on a link of publish/subscribe a subscription call and a ping.
pub fn a_submission_on_a_link_that_is_up_has_started()
    ensures free { (s : Submission) → packed_bytes s ≢ [] → is_reply_awaited s ≡ true
        → StartsOnFreeLink s }
    ensures any { (s : Submission) → packed_bytes s ≢ [] → is_reply_awaited s ≡ true
        → needs_resp3 s ≡ false → StartsWhereHandedIn s }
    ensures command { (name : List ℕ) (args : List (List ℕ))
        → StartsWhereHandedIn (Cmd (name ∷ args)) }
    ensures pipeline { (name : List ℕ) (args : List (List ℕ)) (more : List (List (List ℕ)))
        → StartsWhereHandedIn (Pipe ((name ∷ args) ∷ more)) }
    ensures transaction { (args : List (List ℕ)) (more : List (List (List ℕ)))
        → StartsWhereHandedIn (Multi (args ∷ more)) }
    ensures subscription { (what : SubscriptionAction) (names : List (List ℕ))
        → StartsWhereListening (Subscription what names) }
    ensures ping { (message : Option (List ℕ)) → StartsWhereListening (Ping message) }
{}
