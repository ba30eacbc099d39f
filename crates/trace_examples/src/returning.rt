//! Traces of managers, and traces in which they would come back where they may not.

ghost use Rattle.std.specs.Prelude.{◌≢◌, ℕ, List, [], ◌∷◌, Some};
ghost use Rattle.redis_error.specs.declared.fault_kind.FaultKind.TheVariants.{Refused};
ghost use Rattle.driver_model.specs.declared.action.Action.TheVariants as action;
ghost use Rattle.driver_model.specs.declared.action.Cause.{Cause};
ghost use Rattle.driver_model.specs.declared.action.Owner.TheVariants as owner;
ghost use Rattle.driver_model.specs.declared.action.Purpose.TheVariants as purpose;
ghost use Rattle.driver_model.specs.declared.event.EventKind.TheVariants as event;
ghost use Rattle.driver_model.specs.declared.outcome.Outcome.{Outcome};
ghost use Rattle.trace_examples.specs.Pushes.{get};
ghost use Rattle.trace_examples.specs.Managers.{lazy_once, trying_twice, trying_thrice};
ghost use Rattle.trace_examples.specs.Managers.{resubscribing, opened_lazily, failed_so};
ghost use Rattle.trace_examples.specs.Managers.{begun_next, replaced, attempt_failed, resting};
ghost use Rattle.trace_examples.specs.Managers.{asked_in_vain, tried_twice, failed_again};
ghost use Rattle.trace_examples.specs.Managers.{tried_thrice, subscribed_c, lost};
ghost use Rattle.trace_examples.specs.Managers.{set_up_again, repeated, repeated_well};
ghost use Rattle.trace_examples.specs.Managers.{came_back, replied_there, coming_back};
ghost use Rattle.trace_examples.specs.Managers.{left_d, leaving_d, AreLegal, manager_fronts};
ghost use Rattle.trace_examples.specs.Managers.{resubscribing_in_time, up_in_time, over_in_time};
ghost use Rattle.trace_examples.specs.Managers.{running_over};
ghost use Rattle.trace_examples.specs.Claims.{IsTraceIn, NoneBeginsIn};
ghost use Rattle.trace_examples.specs.Fronts.{EachStands};

/// Does nothing. Its contract: these are legal too. A lazy manager is created as it opens, and asks
/// for its link with its first submission; where that fails, the next generation begins in the turn
/// of its outcome. Before each attempt but the first of a generation a manager waits, as the word of
/// the turn and the number of the attempt say; once the last has failed the creation has, and what
/// comes then is answered with its error. A manager whose link is lost answers those that started,
/// asks for the next one, subscribes again what is subscribed at that moment once it is set up, and
/// then begins the rounds of those that wait; it begins them also where that isn't answered in time.
pub fn these_come_back()
    ensures replaced_once_failed { IsTraceIn lazy_once
        (event.Submit (get 97) ∷ event.Refused 0 Refused ∷ []) replaced [] }
    ensures created_in_vain { AreLegal trying_twice tried_twice asked_in_vain [] }
    ensures longer_each_time { AreLegal trying_thrice tried_thrice failed_again
        (action.Timer 1 150 (purpose.Backoff 1) ∷ []) }
    ensures comes_back { IsTraceIn resubscribing coming_back came_back [] }
    ensures repeats_what_is { IsTraceIn resubscribing leaving_d left_d
        (action.Start 1 1 owner.Resub 1 26 ∷ []) }
    ensures goes_on_without { IsTraceIn resubscribing_in_time running_over over_in_time
        (action.Round (owner.Try 1 0) (Some 1) ∷ action.Timer 2 100 (purpose.Response (owner.Try 1 0))
        ∷ action.Start 1 2 (owner.Try 1 0) 1 20 ∷ []) }
{}

/// Does nothing. Its contract: no trace that begins so is legal, whatever its events were and
/// whatever comes after: a lazy manager that begins, or asks for its link, as it opens; a generation
/// or a link whose number isn't the next; a link before its generation; a second generation in one
/// turn; one without a cause, and one where the creation has failed; a wait of another length than
/// the word gives, or as long as the one before; an attempt while the wait before it goes on; a
/// generation before those are answered whose link was lost; a turn that begins where what is
/// subscribed was not subscribed again; a message that subscribes to more or to less, or comes before
/// its timer; a round before
/// that is answered, or on another link; a request that starts without its round; and an outcome that
/// a new link gives to a request of an old one. Each action of the fronts stands where it may.
pub fn nor_do_these_come_back()
    ensures fronts { (word : ℕ) → EachStands (manager_fronts word) }
    ensures begun_unused { (g : ℕ) → NoneBeginsIn lazy_once opened_lazily (action.Generation g) }
    ensures asked_unused { (l : ℕ) (host : List ℕ) (port : ℕ)
        → NoneBeginsIn lazy_once opened_lazily (action.Connect l host port) }
    ensures number_left_out { (g : ℕ) → g ≢ 2
        → NoneBeginsIn lazy_once failed_so (action.Generation g) }
    ensures asked_before { (l : ℕ) (host : List ℕ) (port : ℕ)
        → NoneBeginsIn lazy_once failed_so (action.Connect l host port) }
    ensures link_left_out { (l : ℕ) (host : List ℕ) (port : ℕ) → l ≢ 1
        → NoneBeginsIn lazy_once begun_next (action.Connect l host port) }
    ensures begun_twice { (g : ℕ) → NoneBeginsIn lazy_once begun_next (action.Generation g) }
    ensures replaced_twice { (g : ℕ) → NoneBeginsIn lazy_once replaced (action.Generation g) }
    ensures begun_for_nothing { (g : ℕ)
        → NoneBeginsIn resubscribing subscribed_c (action.Generation g) }
    ensures begun_in_vain { (g : ℕ)
        → NoneBeginsIn trying_twice asked_in_vain (action.Generation g) }
    ensures other_wait { (t ms g : ℕ) → ms ≢ 50
        → NoneBeginsIn trying_twice (attempt_failed 250) (action.Timer t ms (purpose.Backoff g)) }
    ensures same_wait_again { (t ms g : ℕ) → ms ≢ 150
        → NoneBeginsIn trying_thrice failed_again (action.Timer t ms (purpose.Backoff g)) }
    ensures tried_too_soon { (l : ℕ) (host : List ℕ) (port : ℕ)
        → NoneBeginsIn trying_twice (resting 250 50) (action.Connect l host port) }
    ensures begun_before_outcomes { (g : ℕ) → NoneBeginsIn resubscribing lost (action.Generation g) }
    ensures repetition_left_out { (number : ℕ) (c : Cause)
        → NoneBeginsIn resubscribing set_up_again (action.Turn number c) }
    ensures repeated_otherwise { (k count len : ℕ) → len ≢ 26
        → NoneBeginsIn resubscribing left_d (action.Start 1 k owner.Resub count len) }
    ensures repeated_untimed { (k count len : ℕ)
        → NoneBeginsIn resubscribing_in_time up_in_time (action.Start 1 k owner.Resub count len) }
    ensures round_too_soon { (round l : ℕ)
        → NoneBeginsIn resubscribing repeated (action.Round (owner.Try 3 round) (Some l)) }
    ensures round_elsewhere { (round l : ℕ) → l ≢ 1
        → NoneBeginsIn resubscribing repeated_well (action.Round (owner.Try 3 round) (Some l)) }
    ensures started_unrounded { (l k round count len : ℕ)
        → NoneBeginsIn resubscribing repeated_well
        (action.Start l k (owner.Try 3 round) count len) }
    ensures answered_there { (o : Outcome) → NoneBeginsIn resubscribing replied_there (action.Outcome 1 o) }
{}
