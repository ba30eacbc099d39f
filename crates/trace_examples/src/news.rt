//! What links see of events.

ghost use Rattle.std.specs.Prelude.{◌≡◌, ◌∷◌, []};
ghost use Rattle.redis_error.specs.declared.fault_kind.FaultKind.TheVariants.{Reset, BrokenPipe, Refused};
ghost use Rattle.driver_model.specs.declared.event.EventKind.TheVariants as event;
ghost use Rattle.driver_model.specs.declared.news.LinkFault.TheVariants as fault;
ghost use Rattle.driver_model.specs.News.{silence, connected, refused, overdue, took, came, failed};
ghost use Rattle.driver_model.specs.News.{authorized, denied, deserted, renewed, unrenewed, late};
ghost use Rattle.driver_model.specs.News.{unrepeated, dropped, shut};
ghost use Rattle.std.specs.Prelude.{codes};
ghost use Rattle.trace_examples.specs.Parts.{okay_line};
ghost use Rattle.trace_examples.specs.Creds.{user_and_password};
ghost use Rattle.trace_examples.specs.News.{seen_by, firings, givings, refusals_of_sources};
ghost use Rattle.trace_examples.specs.News.{ends_of_sources, told_of, told_of_none};

/// Does nothing. Its contract: a link sees its own timers for the connect, the resubscription and new
/// credentials fire, and no other timer. Of its first source it sees credentials, errors and the end,
/// and of its second new credentials and the end; it sees nothing of another link's sources. Of what
/// is told of a link another one sees nothing, whether it connects, takes or gives bytes, or fails. A
/// request and a timeout are nothing to it, and each link sees a dropped stream and a shutdown.
pub fn links_see_these_events()
    ensures timers { seen_by 1 firings ≡ silence ∷ overdue ∷ silence ∷ unrepeated ∷ silence ∷ late 5
        ∷ silence ∷ silence ∷ silence ∷ [] }
    ensures other_timers { seen_by 0 firings ≡ overdue ∷ silence ∷ unrepeated ∷ silence ∷ late 4
        ∷ silence ∷ silence ∷ silence ∷ silence ∷ [] }
    ensures no_timers { seen_by 2 firings ≡ silence ∷ silence ∷ silence ∷ silence ∷ silence ∷ silence
        ∷ silence ∷ silence ∷ silence ∷ [] }
    ensures credentials { seen_by 1 givings ≡ silence ∷ authorized user_and_password ∷ silence
        ∷ renewed user_and_password ∷ silence ∷ [] }
    ensures other_credentials { seen_by 0 givings ≡ authorized user_and_password ∷ silence
        ∷ renewed user_and_password ∷ silence ∷ silence ∷ [] }
    ensures errors { seen_by 1 refusals_of_sources ≡ silence ∷ denied (codes "no") ∷ silence ∷ silence
        ∷ silence ∷ [] }
    ensures other_errors { seen_by 0 refusals_of_sources ≡ denied (codes "no") ∷ silence ∷ silence
        ∷ silence ∷ silence ∷ [] }
    ensures ends { seen_by 1 ends_of_sources ≡ silence ∷ deserted ∷ silence ∷ unrenewed ∷ silence ∷ [] }
    ensures other_ends { seen_by 0 ends_of_sources ≡ deserted ∷ silence ∷ unrenewed ∷ silence ∷ silence ∷ [] }
    ensures no_sources { seen_by 2 givings ≡ silence ∷ silence ∷ silence ∷ silence ∷ silence ∷ [] }
    ensures own { seen_by 1 (told_of 1) ≡ connected ∷ refused Refused ∷ took 7 ∷ came okay_line
        ∷ failed fault.Ended ∷ failed (fault.Io Reset) ∷ failed (fault.Io BrokenPipe) ∷ [] }
    ensures others { seen_by 1 (told_of 0) ≡ silence ∷ silence ∷ silence ∷ silence ∷ silence ∷ silence
        ∷ silence ∷ [] }
    ensures of_none { seen_by 1 told_of_none ≡ silence ∷ silence ∷ silence ∷ silence ∷ [] }
    ensures of_all { seen_by 1 (event.DropStream ∷ event.Shutdown ∷ []) ≡ dropped ∷ shut ∷ [] }
{}
