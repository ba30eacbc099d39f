//! Traces that renew credentials, and traces that would do so where they may not.

ghost use Rattle.std.specs.Prelude.{◌≢◌, ℕ, [], ◌∷◌};
ghost use Rattle.resp_value.specs.declared.value.Value.TheVariants.{Okay};
ghost use Rattle.driver_model.specs.declared.action.Action.TheVariants as action;
ghost use Rattle.driver_model.specs.declared.action.Cause.{Cause};
ghost use Rattle.driver_model.specs.declared.action.Owner.TheVariants as owner;
ghost use Rattle.driver_model.specs.declared.action.Purpose.TheVariants as purpose;
ghost use Rattle.driver_model.specs.declared.action.WaitKind.TheVariants as wait;
ghost use Rattle.driver_model.specs.declared.event.EventKind.TheVariants as event;
ghost use Rattle.driver_model.specs.declared.outcome.Outcome.{Outcome};
ghost use Rattle.driver_model.specs.declared.outcome.Outcome.TheVariants as outcome;
ghost use Rattle.driver_model.specs.Request.{packed_bytes};
ghost use Rattle.trace_examples.specs.Parts.{turn, command, unawaited, okay_line};
ghost use Rattle.trace_examples.specs.Setups.{wrong_password};
ghost use Rattle.trace_examples.specs.Creds.{sourced, no_credentials};
ghost use Rattle.trace_examples.specs.Renewals.{sourced_in_time, sourced_at_a_time};
ghost use Rattle.trace_examples.specs.Renewals.{sourced_one_by_one, of_letter};
ghost use Rattle.trace_examples.specs.Renewals.{line_of, first_taken, needed_again, renewal_came};
ghost use Rattle.trace_examples.specs.Renewals.{renewal_told, second_came, renewal_taken};
ghost use Rattle.trace_examples.specs.Renewals.{renewal_refused, asked_behind, one_answered};
ghost use Rattle.trace_examples.specs.Renewals.{answered_late, answered_in_time, let_go};
ghost use Rattle.trace_examples.specs.Renewals.{came_between, second_gone, told_between};
ghost use Rattle.trace_examples.specs.Renewals.{came_behind, place_is_taken, once_set_up};
ghost use Rattle.trace_examples.specs.Renewals.{renewal_fronts};
ghost use Rattle.trace_examples.specs.Claims.{IsTraceIn, NoneBeginsIn};
ghost use Rattle.trace_examples.specs.Fronts.{EachStands};

/// Does nothing. Its contract: these are legal too. The first credentials are said in the setup, and
/// those that come of the second source are told by AUTH, one after another, each once those before
/// are taken, whose reply answers nobody. An error of the source changes nothing, and none are told
/// that come behind its end. After a refusal, or a reply that came too late, none are told, and
/// requests go on; a timer that fires behind the reply changes nothing. On a link that is held back
/// they wait behind the requests that took their place in turns before, and before all others, also
/// where the queue is full; there they count as one.
pub fn these_renew_credentials()
    ensures set_up_and_renewed { IsTraceIn sourced
        (once_set_up (event.Creds 1 (of_letter 113) ∷ event.CredsEnd 1 ∷ []))
        renewal_told (turn 6 (event.CredsEnd 1) ∷ []) }
    ensures one_after_another { IsTraceIn sourced
        (once_set_up (event.Creds 1 (of_letter 113) ∷ event.Creds 1 (of_letter 114)
        ∷ event.Wrote 0 28 ∷ event.Bytes 0 okay_line ∷ []))
        renewal_taken (action.Start 0 2 owner.Auth 1 28 ∷ action.Write 0 (line_of 114) ∷ []) }
    ensures none_after_the_end { IsTraceIn sourced
        (once_set_up (event.Creds 1 (of_letter 113) ∷ event.Creds 1 (of_letter 114)
        ∷ event.CredsError 1 no_credentials ∷ event.CredsEnd 1 ∷ event.Creds 1 (of_letter 115)
        ∷ event.Wrote 0 28 ∷ event.Bytes 0 okay_line ∷ event.Wrote 0 28
        ∷ event.Bytes 0 okay_line ∷ [])) second_came
        (turn 7 (event.CredsError 1 no_credentials) ∷ turn 8 (event.CredsEnd 1)
        ∷ turn 9 (event.Creds 1 (of_letter 115)) ∷ turn 10 (event.Wrote 0 28)
        ∷ turn 11 (event.Bytes 0 okay_line) ∷ action.Start 0 2 owner.Auth 1 28
        ∷ action.Write 0 (line_of 114) ∷ turn 12 (event.Wrote 0 28)
        ∷ turn 13 (event.Bytes 0 okay_line) ∷ []) }
    ensures none_after_a_refusal { IsTraceIn sourced
        (once_set_up (event.Creds 1 (of_letter 113) ∷ event.Creds 1 (of_letter 114)
        ∷ event.Wrote 0 28 ∷ event.Bytes 0 wrong_password ∷ event.Submit (command 71)
        ∷ event.Wrote 0 11 ∷ event.Bytes 0 okay_line ∷ []))
        asked_behind (action.Outcome 0 (outcome.One Okay) ∷ []) }
    ensures replied_behind { IsTraceIn sourced
        (once_set_up (event.Creds 1 (of_letter 113) ∷ event.Submit (command 71)
        ∷ event.Wrote 0 28 ∷ event.Bytes 0 okay_line ∷ event.Wrote 0 11
        ∷ event.Bytes 0 okay_line ∷ [])) one_answered
        (turn 9 (event.Wrote 0 11) ∷ turn 10 (event.Bytes 0 okay_line)
        ∷ action.Outcome 0 (outcome.One Okay) ∷ []) }
    ensures none_after_its_time { IsTraceIn sourced_in_time
        (once_set_up (event.Creds 1 (of_letter 113) ∷ event.Wrote 0 28 ∷ event.Fired 0
        ∷ event.Bytes 0 okay_line ∷ event.Creds 1 (of_letter 114) ∷ [])) answered_late [] }
    ensures fired_behind_the_reply { IsTraceIn sourced_in_time
        (once_set_up (event.Creds 1 (of_letter 113) ∷ event.Wrote 0 28
        ∷ event.Bytes 0 okay_line ∷ event.Fired 0 ∷ event.Creds 1 (of_letter 114) ∷ []))
        answered_in_time
        (action.Timer 1 100 (purpose.Renewal 0 1) ∷ action.Start 0 2 owner.Auth 1 28
        ∷ action.Write 0 (line_of 114) ∷ []) }
    ensures in_the_order_of_places { IsTraceIn sourced_one_by_one
        (once_set_up (event.Submit (command 71) ∷ event.Submit (command 72)
        ∷ event.Creds 1 (of_letter 113) ∷ event.Submit (command 73) ∷ event.Wrote 0 11
        ∷ event.Wrote 0 11 ∷ event.Wrote 0 28 ∷ [])) second_gone
        (action.Start 0 3 owner.Auth 1 28 ∷ action.Write 0 (line_of 113)
        ∷ turn 11 (event.Wrote 0 28) ∷ action.Start 0 4 (owner.Try 2 0) 1 11
        ∷ action.Write 0 (packed_bytes (command 73)) ∷ []) }
    ensures behind_one_that_was_told { IsTraceIn sourced_one_by_one
        (once_set_up (event.Submit (command 71) ∷ event.Submit (unawaited 72)
        ∷ event.Creds 1 (of_letter 113) ∷ event.Wrote 0 11 ∷ event.Wrote 0 11 ∷ []))
        told_between
        (action.Start 0 2 (owner.Try 1 0) 1 11 ∷ action.Write 0 (packed_bytes (unawaited 72))
        ∷ turn 9 (event.Wrote 0 11) ∷ action.Start 0 3 owner.Auth 1 28
        ∷ action.Write 0 (line_of 113) ∷ []) }
    ensures beside_a_full_queue { IsTraceIn sourced_at_a_time
        (once_set_up (event.Submit (command 71) ∷ event.Submit (command 72)
        ∷ event.Creds 1 (of_letter 113) ∷ event.Submit (command 73) ∷ event.Wrote 0 11
        ∷ event.Wrote 0 11 ∷ [])) let_go
        (action.Start 0 2 (owner.Try 1 0) 1 11 ∷ action.Write 0 (packed_bytes (command 72))
        ∷ turn 10 (event.Wrote 0 11) ∷ action.Start 0 3 owner.Auth 1 28
        ∷ action.Write 0 (line_of 113) ∷ action.Wait (owner.Try 2 0) wait.Room ∷ []) }
    ensures in_the_queue { IsTraceIn sourced_at_a_time
        (once_set_up (event.Submit (command 71) ∷ event.Creds 1 (of_letter 113)
        ∷ event.Submit (command 72) ∷ event.Wrote 0 11 ∷ [])) place_is_taken
        (action.Start 0 2 owner.Auth 1 28 ∷ action.Write 0 (line_of 113)
        ∷ action.Wait (owner.Try 1 0) wait.Room ∷ []) }
{}

/// Does nothing. Its contract: no trace that begins so is legal, whatever its events were and
/// whatever comes after: AUTH where no new credentials came, or before the one before is answered,
/// or after that was refused or answered too late, or before its timer, or of another length than
/// the credentials give it; a timer for it where no time is set; AUTH before a request that took its
/// place before, and a request before AUTH that took it behind; a request that is shown to wait for
/// room where AUTH has the last place; an outcome by the reply to AUTH; a second source before the
/// creation; and a turn that begins while new credentials are to be told.
/// Each action of the fronts stands where it may.
pub fn nor_are_these_renewals()
    ensures fronts { (word : ℕ) → EachStands (renewal_fronts word) }
    ensures told_nothing { (k count len : ℕ)
        → NoneBeginsIn sourced needed_again (action.Start 0 k owner.Auth count len) }
    ensures told_two_at_once { (k count len : ℕ)
        → NoneBeginsIn sourced second_came (action.Start 0 k owner.Auth count len) }
    ensures told_after_a_refusal { (k count len : ℕ)
        → NoneBeginsIn sourced renewal_refused (action.Start 0 k owner.Auth count len) }
    ensures told_after_its_time { (k count len : ℕ)
        → NoneBeginsIn sourced_in_time answered_late (action.Start 0 k owner.Auth count len) }
    ensures told_untimed { (k count len : ℕ)
        → NoneBeginsIn sourced_in_time renewal_came (action.Start 0 k owner.Auth count len) }
    ensures told_otherwise { (k count len : ℕ) → len ≢ 28
        → NoneBeginsIn sourced renewal_came (action.Start 0 k owner.Auth count len) }
    ensures timed_for_nothing { (t ms : ℕ)
        → NoneBeginsIn sourced renewal_came (action.Timer t ms (purpose.Renewal 0 0)) }
    ensures told_out_of_place { (k count len : ℕ)
        → NoneBeginsIn sourced_one_by_one came_between (action.Start 0 k owner.Auth count len) }
    ensures started_before_them { (l k round count len : ℕ)
        → NoneBeginsIn sourced_one_by_one second_gone
        (action.Start l k (owner.Try 2 round) count len) }
    ensures waits_in_their_place { NoneBeginsIn sourced_at_a_time came_behind
        (action.Wait (owner.Try 1 0) wait.Room) }
    ensures answered_by_it { (o : Outcome) → NoneBeginsIn sourced one_answered (action.Outcome 0 o) }
    ensures needed_too_soon { (c : ℕ) → NoneBeginsIn sourced first_taken (action.NeedCreds c 0) }
    ensures left_untold { (number : ℕ) (c : Cause)
        → NoneBeginsIn sourced renewal_came (action.Turn number c) }
{}
