//! Traces that tell what a link of publish/subscribe or of monitor mode hears, and traces that would
//! do so where they may not.

ghost use Rattle.std.specs.Prelude.{ℕ, List, [], ◌∷◌, ◌++◌, Option, Some, None, codes};
ghost use Rattle.redis_error.specs.declared.fault_kind.FaultKind.{FaultKind};
ghost use Rattle.redis_error.specs.declared.fault_kind.FaultKind.TheVariants.{Reset};
ghost use Rattle.redis_error.specs.declared.redis_error.RedisError.TheVariants as error;
ghost use Rattle.resp_value.specs.Data.{simple};
ghost use Rattle.resp_value.specs.View.{value_of};
ghost use Rattle.resp_value.specs.declared.value.Value.{Value};
ghost use Rattle.resp_write.specs.declared.subscription.SubscriptionAction.TheVariants.{SSubscribe};
ghost use Rattle.driver_model.specs.declared.action.Action.TheVariants as action;
ghost use Rattle.driver_model.specs.declared.action.Cause.{Cause};
ghost use Rattle.driver_model.specs.declared.action.Owner.TheVariants as owner;
ghost use Rattle.driver_model.specs.declared.event.EventKind.TheVariants as event;
ghost use Rattle.driver_model.specs.declared.event.Submission.{Submission};
ghost use Rattle.driver_model.specs.declared.event.Submission.TheVariants as submission;
ghost use Rattle.driver_model.specs.declared.msg.Msg.{Msg};
ghost use Rattle.driver_model.specs.declared.outcome.Outcome.{Outcome};
ghost use Rattle.driver_model.specs.declared.outcome.Outcome.TheVariants as outcome;
ghost use Rattle.driver_model.specs.declared.push_info.PushInfo.{PushInfo};
ghost use Rattle.trace_examples.specs.Parts.{unbounded, turn, command, okay_line};
ghost use Rattle.trace_examples.specs.Pushes.{heard, pushed_alone};
ghost use Rattle.trace_examples.specs.Setups.{password_line, setup_sent};
ghost use Rattle.trace_examples.specs.Traces.{opening, came_up};
ghost use Rattle.trace_examples.specs.Listeners.{listener, watcher, secured_listener};
ghost use Rattle.trace_examples.specs.Listeners.{secured_watcher, subscription, subscribed_line};
ghost use Rattle.trace_examples.specs.Listeners.{message_line, greeting, bare_ping, pong_line};
ghost use Rattle.trace_examples.specs.Listeners.{foo_line, plain_line, watched_line};
ghost use Rattle.trace_examples.specs.Listeners.{answer_and_watched, called, confirmation_came};
ghost use Rattle.trace_examples.specs.Listeners.{message_came, message_told};
ghost use Rattle.trace_examples.specs.Listeners.{message_while_called, cut_off_called};
ghost use Rattle.trace_examples.specs.Listeners.{dropped_called, closed_called, pinged};
ghost use Rattle.trace_examples.specs.Listeners.{strange_came, dropped_alone, message_in_setup};
ghost use Rattle.trace_examples.specs.Listeners.{watching, watch_answered, watched};
ghost use Rattle.trace_examples.specs.Listeners.{setup_and_watching, listening_fronts};
ghost use Rattle.trace_examples.specs.Listeners.{watching_fronts, subscribe_line, both_came};
ghost use Rattle.trace_examples.specs.Listeners.{message_and_more, item_came, formless_fronts};
ghost use Rattle.trace_examples.specs.Claims.{IsTraceIn, NoneBeginsIn};
ghost use Rattle.trace_examples.specs.Fronts.{EachStands};

/// Does nothing. Its contract: these are legal too. On a link of publish/subscribe a confirmed call
/// is done, and a message is told, also while a call is open, and in the order in which they came. No
/// call has a timer, also where a time is set. A ping is answered, and an array that is no message
/// ends the link, as does a value that nobody awaits, a fault and a dropped stream, each of which
/// closes the open calls. On a multiplexed connection a dropped stream does nothing. MONITOR starts
/// once the setup is answered; its answer shows the creation, and all behind that is told; a fault
/// before it is the error of the creation.
pub fn these_listen()
    ensures subscribed_and_told { IsTraceIn listener
        (event.Connected 0 ∷ event.Submit subscription ∷ event.Bytes 0 subscribed_line
        ∷ event.Bytes 0 message_line ∷ []) message_came (action.Message greeting ∷ []) }
    ensures told_while_called { IsTraceIn listener
        (event.Connected 0 ∷ event.Submit subscription ∷ event.Bytes 0 message_line ∷ [])
        message_while_called (action.Message greeting ∷ []) }
    ensures told_behind_the_outcome { IsTraceIn listener
        (event.Connected 0 ∷ event.Submit subscription
        ∷ event.Bytes 0 (subscribed_line ++ message_line) ∷ []) both_came
        (action.Outcome 0 outcome.Done ∷ action.Message greeting ∷ []) }
    ensures told_before_the_close { IsTraceIn listener
        (event.Connected 0 ∷ event.Bytes 0 (message_line ++ plain_line) ∷ []) message_and_more
        (action.Message greeting ∷ action.Close 0 ∷ []) }
    ensures untimed { IsTraceIn listener
        (event.Connected 0 ∷ event.Timeout (Some 100) ∷ event.Submit subscription ∷ []) came_up
        (turn 2 (event.Timeout (Some 100)) ∷ turn 3 (event.Submit subscription)
        ∷ action.Start 0 0 (owner.Try 0 0) 1 27 ∷ action.Write 0 subscribe_line ∷ []) }
    ensures pinged_and_closed { IsTraceIn listener
        (event.Connected 0 ∷ event.Submit bare_ping ∷ event.Bytes 0 pong_line
        ∷ event.Submit bare_ping ∷ event.Bytes 0 foo_line ∷ []) pinged
        (turn 3 (event.Bytes 0 pong_line)
        ∷ action.Outcome 0 (outcome.One (value_of (simple (codes "PONG"))))
        ∷ turn 4 (event.Submit bare_ping) ∷ action.Start 0 1 (owner.Try 1 0) 1 14
        ∷ turn 5 (event.Bytes 0 foo_line) ∷ action.Close 0
        ∷ action.Outcome 1 (outcome.Fault error.Closed) ∷ []) }
    ensures closed_by_a_value { IsTraceIn listener
        (event.Connected 0 ∷ event.Bytes 0 plain_line ∷ []) strange_came (action.Close 0 ∷ []) }
    ensures closed_by_a_fault { IsTraceIn listener
        (event.Connected 0 ∷ event.Submit subscription ∷ event.ReadFault 0 Reset ∷ [])
        cut_off_called (action.Close 0 ∷ action.Outcome 0 (outcome.Fault error.Closed) ∷ []) }
    ensures closed_by_the_drop { IsTraceIn listener
        (event.Connected 0 ∷ event.Submit subscription ∷ event.DropStream ∷ []) dropped_called
        (action.Close 0 ∷ action.Outcome 0 (outcome.Fault error.Closed) ∷ []) }
    ensures dropped_before_the_connect { IsTraceIn listener (event.DropStream ∷ []) opening
        (turn 1 event.DropStream ∷ action.Close 0 ∷ action.Created (Some error.Closed) ∷ []) }
    ensures nothing_to_drop { IsTraceIn unbounded (event.Connected 0 ∷ event.DropStream ∷ [])
        dropped_alone [] }
    ensures watched_and_told { IsTraceIn watcher
        (event.Connected 0 ∷ event.Bytes 0 okay_line ∷ event.Bytes 0 watched_line ∷ []) watching
        (turn 2 (event.Bytes 0 okay_line) ∷ action.Created None
        ∷ turn 3 (event.Bytes 0 watched_line) ∷ action.Monitor (value_of (simple (codes "m"))) ∷ []) }
    ensures answered_and_told_at_once { IsTraceIn watcher
        (event.Connected 0 ∷ event.Bytes 0 answer_and_watched ∷ []) watching
        (turn 2 (event.Bytes 0 answer_and_watched) ∷ action.Created None
        ∷ action.Monitor (value_of (simple (codes "m"))) ∷ []) }
    ensures watched_behind_the_setup { IsTraceIn secured_watcher
        (event.Connected 0 ∷ event.Wrote 0 22 ∷ event.Bytes 0 okay_line ∷ event.Bytes 0 okay_line ∷ [])
        setup_and_watching (turn 4 (event.Bytes 0 okay_line) ∷ action.Created None ∷ []) }
    ensures failed_by_its_fault { IsTraceIn watcher
        (event.Connected 0 ∷ event.ReadFault 0 Reset ∷ []) watching
        (turn 2 (event.ReadFault 0 Reset) ∷ action.Close 0
        ∷ action.Created (Some (error.Io Reset)) ∷ []) }
{}

/// Does nothing. Its contract: no trace that begins so is legal, whatever its events were and
/// whatever comes after: a message that is told twice, or that came before the setup was answered,
/// or before the outcome of a call that was confirmed before it, or as a push, or as what a server in
/// monitor mode tells, and a push as a message; a turn that begins while a message waits, or what the
/// server tells; a message as the outcome of a call, and a confirmation as a message; MONITOR's
/// answer as what the server tells; MONITOR twice, or on a link of messages, or before the setup is
/// answered; the creation before MONITOR's answer, and a turn that begins before it is shown; a close
/// by a message, or before one is told, and a turn that begins behind a value that closes the link,
/// or behind a dropped stream; the fault itself, given to a call on a link of messages; and a dropped
/// stream that closes a multiplexed connection. Each action of the fronts stands where it may.
pub fn nor_do_these_listen()
    ensures fronts { (word : ℕ) → EachStands (listening_fronts word) }
    ensures fronts_of_monitors { (word : ℕ) → EachStands (watching_fronts word) }
    ensures told_twice { (m : Msg) → NoneBeginsIn listener message_told (action.Message m) }
    ensures told_early { (m : Msg)
        → NoneBeginsIn secured_listener message_in_setup (action.Message m) }
    ensures told_before_the_outcome { (m : Msg)
        → NoneBeginsIn listener both_came (action.Message m) }
    ensures message_left_out { (number : ℕ) (c : Cause)
        → NoneBeginsIn listener message_came (action.Turn number c) }
    ensures item_left_out { (number : ℕ) (c : Cause)
        → NoneBeginsIn watcher item_came (action.Turn number c) }
    ensures told_as_a_push { (info : PushInfo)
        → NoneBeginsIn listener message_came (action.Push 0 info) }
    ensures told_as_a_monitor { (value : Value)
        → NoneBeginsIn listener message_came (action.Monitor value) }
    ensures push_told_as_a_message { (m : Msg)
        → NoneBeginsIn heard pushed_alone (action.Message m) }
    ensures message_as_an_outcome { (o : Outcome)
        → NoneBeginsIn listener message_while_called (action.Outcome 0 o) }
    ensures confirmation_as_a_message { (m : Msg)
        → NoneBeginsIn listener confirmation_came (action.Message m) }
    ensures answer_as_an_item { (value : Value)
        → NoneBeginsIn watcher watched (action.Monitor value) }
    ensures answered_and_not_created { (number : ℕ) (c : Cause)
        → NoneBeginsIn watcher watch_answered (action.Turn number c) }
    ensures watched_twice { (k count len : ℕ)
        → NoneBeginsIn watcher watching (action.Start 0 k owner.Monitor count len) }
    ensures watched_among_messages { (k count len : ℕ)
        → NoneBeginsIn listener came_up (action.Start 0 k owner.Monitor count len) }
    ensures watched_in_setup { (k count len : ℕ)
        → NoneBeginsIn secured_watcher (λ config word. setup_sent config word 1 22 password_line)
        (action.Start 0 k owner.Monitor count len) }
    ensures created_before_the_answer { NoneBeginsIn watcher watching (action.Created None) }
    ensures closed_by_a_message { NoneBeginsIn listener message_told (action.Close 0) }
    ensures closed_before_it_is_told { NoneBeginsIn listener message_and_more (action.Close 0) }
    ensures strange_and_not_closed { (number : ℕ) (c : Cause)
        → NoneBeginsIn listener strange_came (action.Turn number c) }
    ensures dropped_and_not_closed { (number : ℕ) (c : Cause)
        → NoneBeginsIn listener dropped_called (action.Turn number c) }
    ensures fault_to_a_call { (kind : FaultKind) → NoneBeginsIn listener closed_called
        (action.Outcome 0 (outcome.Fault (error.Io kind))) }
    ensures dropped_elsewhere { NoneBeginsIn unbounded dropped_alone (action.Close 0) }
{}

/// Does nothing. Its contract: nor do these begin a legal trace: a turn that hands in a command or a
/// call of sharded channels on a link of messages, a ping on a multiplexed connection, or anything in
/// monitor mode.
pub fn nor_have_these_a_form()
    ensures fronts { (word : ℕ) → EachStands (formless_fronts word) }
    ensures command_among_messages { NoneBeginsIn listener came_up (turn 2 (event.Submit (command 71))) }
    ensures sharded_call_among_messages { (names : List (List ℕ)) → NoneBeginsIn listener came_up
        (turn 2 (event.Submit (submission.Subscription SSubscribe names))) }
    ensures ping_elsewhere { NoneBeginsIn unbounded came_up (turn 2 (event.Submit bare_ping)) }
    ensures submitted_in_monitor_mode { (what : Submission)
        → NoneBeginsIn watcher watched (turn 3 (event.Submit what)) }
{}
