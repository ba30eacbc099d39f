//! Traces in which something stays as it is: places, links that have ended, and managers that don't come back.

ghost use Rattle.std.specs.Prelude.{◌≡◌, ℕ, List, [], ◌∷◌, map, Some};
ghost use Rattle.redis_error.specs.declared.fault_kind.FaultKind.TheVariants.{BrokenPipe, Reset};
ghost use Rattle.redis_error.specs.declared.redis_error.RedisError.TheVariants as error;
ghost use Rattle.driver_model.specs.declared.action.Action.TheVariants as action;
ghost use Rattle.driver_model.specs.declared.action.Owner.TheVariants as owner;
ghost use Rattle.driver_model.specs.declared.action.Purpose.TheVariants as purpose;
ghost use Rattle.driver_model.specs.declared.action.WaitKind.TheVariants as wait;
ghost use Rattle.driver_model.specs.declared.event.EventKind.TheVariants as event;
ghost use Rattle.driver_model.specs.declared.event.Submission.TheVariants as submission;
ghost use Rattle.driver_model.specs.declared.outcome.Outcome.TheVariants as outcome;
ghost use Rattle.driver_model.specs.Request.{packed_bytes};
ghost use Rattle.trace_examples.specs.Parts.{turn, command, unawaited, unbounded, reply};
ghost use Rattle.trace_examples.specs.Parts.{one_reply, okay_line};
ghost use Rattle.trace_examples.specs.Permits.{one_permit};
ghost use Rattle.trace_examples.specs.Pushes.{get};
ghost use Rattle.trace_examples.specs.Calls.{call_of_c};
ghost use Rattle.trace_examples.specs.Managers.{trying_twice, resubscribing, connect, AreLegal};
ghost use Rattle.trace_examples.specs.Stays.{counted_one_by_one, managed_one_by_one};
ghost use Rattle.trace_examples.specs.Stays.{told_in_place, left_behind, other_reply, unasked};
ghost use Rattle.trace_examples.specs.Stays.{hit, shut_early, set_behind, unwritable};
ghost use Rattle.trace_examples.specs.Stays.{ended_idle, shut_busy, shut_at_rest};
ghost use Rattle.trace_examples.specs.Stays.{shutting_at_rest, ended_again, ending_again};
ghost use Rattle.trace_examples.specs.Stays.{set_in_vain, staying_fronts, delay_of, delays};
ghost use Rattle.trace_examples.specs.Claims.{IsTraceIn, IsTraceOf, NoneBeginsIn};
ghost use Rattle.trace_examples.specs.Fronts.{EachStands};

/// Does nothing. Its contract: these are legal too. A command that was told at its place keeps it,
/// though it holds no permit; one that was told on a link that has ended has none on the next. A
/// reply that nobody awaits answers nobody that comes later, and what is told of a link that has
/// ended changes nothing. What comes after a shutdown is answered with the closed connection, also
/// without words, or as a call that the server's protocol doesn't have. A time that is set counts for
/// whoever comes behind it. A write that fails hits the oldest command as a read does.
pub fn these_stay()
    ensures told_keeps_its_place { IsTraceIn counted_one_by_one
        (event.Connected 0 ∷ event.Submit (command 71) ∷ event.Submit (unawaited 72)
        ∷ event.Submit (command 73) ∷ []) told_in_place (action.Wait (owner.Try 2 0) wait.Place ∷ []) }
    ensures free_on_the_next { IsTraceIn managed_one_by_one
        (event.Connected 0 ∷ event.Submit (command 71) ∷ event.Submit (unawaited 72) ∷ event.Ended 0
        ∷ event.Connected 1 ∷ event.Submit (command 73) ∷ []) left_behind
        (turn 6 (event.Submit (command 73)) ∷ action.Round (owner.Try 2 0) (Some 1)
        ∷ action.Start 1 0 (owner.Try 2 0) 1 11 ∷ action.Write 1 (packed_bytes (command 73)) ∷ []) }
    ensures answers_nobody { IsTraceOf
        (event.Connected 0 ∷ event.Bytes 0 one_reply ∷ event.Submit (command 71)
        ∷ event.Bytes 0 other_reply ∷ []) unasked
        (turn 4 (event.Bytes 0 other_reply) ∷ action.Outcome 0 (reply 121) ∷ []) }
    ensures over_and_past { IsTraceOf
        (event.Connected 0 ∷ event.Submit (command 71) ∷ event.ReadFault 0 Reset ∷ event.Wrote 0 99
        ∷ event.Bytes 0 okay_line ∷ event.Ended 0 ∷ []) hit
        (turn 4 (event.Wrote 0 99) ∷ turn 5 (event.Bytes 0 okay_line) ∷ turn 6 (event.Ended 0) ∷ []) }
    ensures closed_before_all { IsTraceOf
        (event.Shutdown ∷ event.Submit (submission.Cmd []) ∷ event.Submit call_of_c ∷ []) shut_early
        (turn 2 (event.Submit (submission.Cmd [])) ∷ action.Outcome 0 (outcome.Fault error.Closed)
        ∷ turn 3 (event.Submit call_of_c) ∷ action.Outcome 1 (outcome.Fault error.Closed) ∷ []) }
    ensures time_of_its_coming { IsTraceIn one_permit
        (event.Submit (command 71) ∷ event.Timeout (Some 7) ∷ event.Connected 0 ∷ []) set_behind
        (action.Took (owner.Try 0 0) 0 1 ∷ action.Timer 0 100 (purpose.Response (owner.Try 0 0))
        ∷ action.Start 0 0 (owner.Try 0 0) 1 11 ∷ action.Write 0 (packed_bytes (command 71)) ∷ []) }
    ensures hit_by_a_write { IsTraceOf
        (event.Connected 0 ∷ event.Submit (command 71) ∷ event.WriteFault 0 BrokenPipe ∷ [])
        unwritable (action.Outcome 0 (outcome.Fault (error.Io BrokenPipe)) ∷ []) }
{}

/// Does nothing. Its contract: these are legal too. A manager whose link ends on RESP2 while nothing
/// is open comes back with the next request alone. Behind a shutdown it doesn't come back, and who
/// waits behind a failed attempt is answered. A link that ends before what is subscribed again is
/// answered is no cause. A time that is set doesn't count for a manager.
pub fn these_do_not_come_back()
    ensures unasked { IsTraceIn trying_twice
        (event.Connected 0 ∷ event.Ended 0 ∷ event.Submit (get 97) ∷ []) ended_idle
        (turn 3 (event.Submit (get 97)) ∷ action.Outcome 0 (outcome.Fault error.Closed)
        ∷ action.Generation 2 ∷ connect 1 ∷ []) }
    ensures shut { IsTraceIn trying_twice
        (event.Connected 0 ∷ event.Submit (get 97) ∷ event.Shutdown ∷ []) shut_busy [] }
    ensures resting { AreLegal trying_twice shutting_at_rest shut_at_rest
        (action.Outcome 0 (outcome.Fault error.Closed) ∷ []) }
    ensures repeating { IsTraceIn resubscribing ending_again ended_again [] }
    ensures untimed { IsTraceIn trying_twice
        (event.Connected 0 ∷ event.Timeout (Some 7) ∷ event.Submit (get 97) ∷ []) set_in_vain [] }
{}

/// Does nothing. Its contract: no trace that begins so is legal, whatever its events were and
/// whatever comes after: a wait for room where one that was told has the only place; a generation
/// behind a link that ended on RESP2 while nothing was open, behind a shutdown, and behind a link that
/// ended before what is subscribed again was answered. Each action of the first two fronts stands
/// where it may, and the others are legal traces.
pub fn nor_do_these_stay()
    ensures fronts { (word : ℕ) → EachStands (staying_fronts word) }
    ensures room_without_a_place { NoneBeginsIn counted_one_by_one told_in_place
        (action.Wait (owner.Try 2 0) wait.Room) }
    ensures begun_on_resp2 { (g : ℕ) → NoneBeginsIn trying_twice ended_idle (action.Generation g) }
    ensures begun_behind_a_shutdown { (g : ℕ) → NoneBeginsIn trying_twice shut_busy (action.Generation g) }
    ensures begun_unserved { (g : ℕ) → NoneBeginsIn resubscribing ended_again (action.Generation g) }
{}

/// Does nothing. Its contract: the delays of these managers behind their attempts, by the words of the
/// turns.
pub fn managers_wait_so_long()
    ensures { map (λ row. delay_of row.0) delays ≡ map (λ row. row.1) delays }
{}
