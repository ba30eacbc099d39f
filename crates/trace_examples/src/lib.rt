//! Traces that can be relied on, and traces that cannot, each with the proof.
#![tactic(auto)]

mod dealing;
mod listening;
mod messages;
mod news;
mod refusals;
mod renewing;
mod returning;
mod staying;

ghost use Rattle.std.specs.Prelude.{◌≡◌, ◌≢◌, ◌<◌, ℕ, List, [], ◌∷◌, ◌++◌, Option, Some, None};
ghost use Rattle.std.specs.Prelude.{drop, pos, true, false};
ghost use Rattle.redis_error.specs.declared.fault_kind.FaultKind.{FaultKind};
ghost use Rattle.redis_error.specs.declared.fault_kind.FaultKind.TheVariants.{Reset, TimedOut};
ghost use Rattle.redis_error.specs.declared.redis_error.RedisError.{RedisError};
ghost use Rattle.redis_error.specs.declared.redis_error.RedisError.TheVariants as error;
ghost use Rattle.resp_value.specs.declared.value.Value.{Value};
ghost use Rattle.resp_value.specs.declared.value.Value.TheVariants.{Okay, Nil};
ghost use Rattle.resp_value.specs.Data.{Data, array, int, items_of};
ghost use Rattle.driver_model.specs.declared.action.Action.TheVariants as action;
ghost use Rattle.driver_model.specs.declared.action.Cause.{Cause};
ghost use Rattle.driver_model.specs.declared.action.Owner.TheVariants as owner;
ghost use Rattle.connection_setup.specs.Setup.{setup};
ghost use Rattle.driver_model.specs.Config.{connect_timeout, boundary, told_info};
ghost use Rattle.driver_model.specs.Setup.{says_nothing};
ghost use Rattle.driver_model.specs.declared.action.Purpose.{Purpose};
ghost use Rattle.driver_model.specs.declared.action.Purpose.TheVariants as purpose;
ghost use Rattle.driver_model.specs.declared.action.WaitKind.{WaitKind};
ghost use Rattle.driver_model.specs.declared.action.WaitKind.TheVariants as wait;
ghost use Rattle.driver_model.specs.declared.config.Config.{Config};
ghost use Rattle.driver_model.specs.declared.event.EventKind.TheVariants as event;
ghost use Rattle.driver_model.specs.declared.event.Submission.TheVariants as submission;
ghost use Rattle.driver_model.specs.declared.outcome.Outcome.{Outcome};
ghost use Rattle.driver_model.specs.declared.outcome.Outcome.TheVariants as outcome;
ghost use Rattle.driver_model.specs.Request.{packed_bytes};
ghost use Rattle.trace_examples.specs.Parts.{turn, command, unawaited, two_together, one_atomic};
ghost use Rattle.trace_examples.specs.Parts.{unbounded, bounded};
ghost use Rattle.trace_examples.specs.Parts.{one_skipped, one_nameless, nameless_atomic};
ghost use Rattle.trace_examples.specs.Parts.{nameless_skipped, reply, an_error, one_reply, replies};
ghost use Rattle.trace_examples.specs.Parts.{a_reply_and_more, spoiled_behind, okay_line, refusals};
ghost use Rattle.trace_examples.specs.Parts.{multi_refused, exec_refused, executed};
ghost use Rattle.trace_examples.specs.Traces.{came_up, arrived, started_one, answered_both};
ghost use Rattle.trace_examples.specs.Traces.{answered_first, answered_alike, left_alone};
ghost use Rattle.trace_examples.specs.Traces.{cut_off_alone, spoiled, both_cut_off};
ghost use Rattle.trace_examples.specs.Traces.{connected_again, pushed, held_back, taken_in_part};
ghost use Rattle.trace_examples.specs.Traces.{started_unoffered, cut_off, ended, refused};
ghost use Rattle.trace_examples.specs.Traces.{refused_at_once, committed, half_filled, left_untold};
ghost use Rattle.trace_examples.specs.Traces.{told_first, left_out, both_left_out, shut_down};
ghost use Rattle.trace_examples.specs.Traces.{shut_in_wait, up_in_wait, both_in_wait};
ghost use Rattle.trace_examples.specs.Traces.{first_of_both, too_late, heard_early, said_nothing};
ghost use Rattle.trace_examples.specs.Fronts.{EachStands, answered_fronts, unanswered_fronts};
ghost use Rattle.trace_examples.specs.Fronts.{ended_fronts, waiting_fronts, begun_fronts};
ghost use Rattle.trace_examples.specs.Fronts.{refused_fronts, overdue_fronts};
ghost use Rattle.trace_examples.specs.Openings.{timed_opening, connect_refused, refusal_shown};
ghost use Rattle.trace_examples.specs.Openings.{refused_at_first, overdue, timed_out};
ghost use Rattle.trace_examples.specs.Places.{narrow, one_at_a_time, third_held, third_came};
ghost use Rattle.trace_examples.specs.Places.{queue_full, second_unshown, place_fronts};
ghost use Rattle.trace_examples.specs.Parts.{limited_to, plain, held_for};
ghost use Rattle.trace_examples.specs.Permits.{one_permit, permits_alone, permit_taken};
ghost use Rattle.trace_examples.specs.Permits.{timer_asked, second_came, time_is_over};
ghost use Rattle.trace_examples.specs.Permits.{permit_is_free, replied_late, two_taken};
ghost use Rattle.trace_examples.specs.Permits.{unawaited_first, second_timer, three_timers};
ghost use Rattle.trace_examples.specs.Permits.{connect_left_standing, permit_fronts};
ghost use Rattle.trace_examples.specs.Setups.{secured, secured_in_time, of_a_user};
ghost use Rattle.trace_examples.specs.Setups.{of_a_library, of_all, password_line};
ghost use Rattle.trace_examples.specs.Setups.{wrong_password, refusal, other_arguments};
ghost use Rattle.trace_examples.specs.Setups.{unknown_command, all_well, unsaid, setup_begun};
ghost use Rattle.trace_examples.specs.Setups.{secret_sent, came_during, answered_well, set_up};
ghost use Rattle.trace_examples.specs.Setups.{password_refused, closed_by_refusal, refusal_told};
ghost use Rattle.trace_examples.specs.Setups.{counted_otherwise, said_again, library_said};
ghost use Rattle.trace_examples.specs.Setups.{all_said, cut_off_during, shut_during};
ghost use Rattle.trace_examples.specs.Setups.{by_default, of_a_held_user, counted_early};
ghost use Rattle.trace_examples.specs.Setups.{said_later, named_in_time};
ghost use Rattle.trace_examples.specs.Setups.{overdue_during, waited_for_both, setup_fronts};
ghost use Rattle.trace_examples.specs.Pushes.{heard, unheard, get, subscribe, invalid_between};
ghost use Rattle.trace_examples.specs.Pushes.{invalidation, subscription, subscribed};
ghost use Rattle.trace_examples.specs.Pushes.{disconnection};
ghost use Rattle.trace_examples.specs.Pushes.{pushed_early, cut_off_early, invalid_while_asked};
ghost use Rattle.trace_examples.specs.Pushes.{first_told, invalid_told, pushed_alone, confirmed};
ghost use Rattle.trace_examples.specs.Pushes.{cut_off_asked, end_told, push_fronts};
ghost use Rattle.trace_examples.specs.Creds.{sourced, user_and_password, no_credentials};
ghost use Rattle.trace_examples.specs.Creds.{source_error, needed, came_meanwhile, credentials_taken};
ghost use Rattle.trace_examples.specs.Creds.{started_behind, deserted_first, closed_by_denial};
ghost use Rattle.trace_examples.specs.Creds.{spoiled_meanwhile, source_fronts};
ghost use Rattle.driver_model.specs.declared.push_info.PushInfo.{PushInfo};
ghost use Rattle.trace_examples.specs.Traces.{opening};
ghost use Rattle.trace_examples.specs.Calls.{of_third, call_of_c, hello_well, confirmation};
ghost use Rattle.trace_examples.specs.Calls.{denied_line, denial, called};
ghost use Rattle.trace_examples.specs.Claims.{IsTraceOf, IsTraceIn};
ghost use Rattle.trace_examples.specs.Claims.{NoneBegins, NoneBeginsIn, NoneIs};

pub use dealing::these_become_of_values;
pub use listening::{nor_do_these_listen, nor_have_these_a_form, these_listen};
pub use messages::{
    faults_are_these_to_messages, items_come_to_these, messages_take_these, these_errors_are_causes,
};
pub use news::links_see_these_events;
pub use refusals::{
    queues_hold_so_many, these_connections_are_refused_first, these_managers_are_refused_first,
};
pub use renewing::{nor_are_these_renewals, these_renew_credentials};
pub use returning::{nor_do_these_come_back, these_come_back};
pub use staying::{managers_wait_so_long, nor_do_these_stay, these_do_not_come_back, these_stay};

/// Does nothing. Its contract: these traces are legal. A transaction is aborted by the error of its
/// command; a command whose reply nobody awaits is answered at its place, and its item is not given
/// to the next one; a fault hits a single command, and closes a pipeline; and a pipeline that lacks
/// an item stays open.
pub fn these_are_legal()
    ensures transaction_refused { IsTraceOf
        (event.Connected 0 ∷ event.Submit one_atomic ∷ event.Bytes 0 refusals ∷ []) refused
        (action.Outcome 0 (outcome.Fault (error.Aborted ((0, an_error) ∷ []))) ∷ []) }
    ensures told_at_its_place { IsTraceOf
        (event.Connected 0 ∷ event.Submit (unawaited 71) ∷ event.Submit (command 72)
        ∷ event.Bytes 0 replies ∷ []) told_first (action.Outcome 1 (reply 121) ∷ []) }
    ensures command_hit { IsTraceOf
        (event.Connected 0 ∷ event.Submit (command 71) ∷ event.ReadFault 0 Reset ∷ [])
        (λ config word. cut_off config word (command 71) 1 11)
        (action.Outcome 0 (outcome.Fault (error.Io Reset)) ∷ []) }
    ensures pipeline_cut_off { IsTraceOf
        (event.Connected 0 ∷ event.Submit two_together ∷ event.ReadFault 0 Reset ∷ [])
        (λ config word. cut_off config word two_together 2 22)
        (action.Outcome 0 (outcome.Fault error.Closed) ∷ []) }
    ensures waits_for_more { IsTraceOf
        (event.Connected 0 ∷ event.Submit one_skipped ∷ event.Bytes 0 one_reply ∷ [])
        half_filled [] }
{}

/// Does nothing. Its contract: these are legal too. An error to MULTI is the verdict once all
/// replies came; the replies to MULTI and to the commands as they were queued are skipped; one
/// fault hits the oldest command and closes the connection for the next; the item of a message that
/// was cancelled goes to nobody, and so does the fault that hits it; and a reply in front of bytes
/// that begin no value is answered before they close the link.
pub fn so_are_these()
    ensures verdict_of_multi { IsTraceOf
        (event.Connected 0 ∷ event.Submit one_atomic ∷ event.Bytes 0 multi_refused
        ∷ event.Bytes 0 exec_refused ∷ []) refused_at_once
        (action.Outcome 0 (outcome.Fault (error.Server an_error)) ∷ []) }
    ensures queued_replies_skipped { IsTraceOf
        (event.Connected 0 ∷ event.Submit one_atomic ∷ event.Bytes 0 executed ∷ []) committed
        (action.Outcome 0 (outcome.Many (array (items_of (int (pos 1) ∷ [])) ∷ [])) ∷ []) }
    ensures side_by_side { IsTraceOf
        (event.Connected 0 ∷ event.Submit (command 71) ∷ event.Submit (command 72)
        ∷ event.ReadFault 0 Reset ∷ []) both_cut_off
        (action.Outcome 0 (outcome.Fault (error.Io Reset))
        ∷ action.Outcome 1 (outcome.Fault error.Closed) ∷ []) }
    ensures cancelled_item_dropped { IsTraceOf
        (event.Connected 0 ∷ event.Submit (command 71) ∷ event.Submit (command 72)
        ∷ event.Cancel 0 ∷ event.Bytes 0 replies ∷ []) left_alone
        (action.Outcome 1 (reply 121) ∷ []) }
    ensures cancelled_fault_dropped { IsTraceOf
        (event.Connected 0 ∷ event.Submit (command 71) ∷ event.Submit (command 72)
        ∷ event.Cancel 0 ∷ event.ReadFault 0 Reset ∷ []) cut_off_alone
        (action.Outcome 1 (outcome.Fault error.Closed) ∷ []) }
    ensures answered_then_closed { IsTraceOf
        (event.Connected 0 ∷ event.Submit (command 71) ∷ event.Submit (command 72)
        ∷ event.Bytes 0 spoiled_behind ∷ []) spoiled
        (action.Outcome 0 (reply 120) ∷ action.Close 0
        ∷ action.Outcome 1 (outcome.Fault error.Parse) ∷ []) }
{}

/// Does nothing. Its contract: these are legal too. A second connect, and bytes before the first,
/// change nothing; the shutdown closes the connection of a command that was started, of one that
/// waits, and of one that comes later; a command without words is empty; a Nil has its turn between
/// two starts; and bytes that weren't taken are offered again.
pub fn so_are_these_around_a_link()
    ensures connected_twice { IsTraceOf
        (event.Connected 0 ∷ event.Submit (command 71) ∷ event.Connected 0
        ∷ event.Bytes 0 okay_line ∷ []) connected_again
        (action.Outcome 0 (outcome.One Okay) ∷ []) }
    ensures bytes_too_early { IsTraceOf
        (event.Bytes 0 a_reply_and_more ∷ event.Connected 0 ∷ event.Submit (command 71)
        ∷ event.Bytes 0 okay_line ∷ []) heard_early
        (action.Outcome 0 (outcome.One Okay) ∷ []) }
    ensures shut_down_started { IsTraceOf
        (event.Connected 0 ∷ event.Submit (command 71) ∷ event.Shutdown ∷ []) shut_down
        (action.Close 0 ∷ action.Outcome 0 (outcome.Fault error.Closed) ∷ []) }
    ensures shut_down_in_wait { IsTraceOf (event.Submit (command 71) ∷ event.Shutdown ∷ [])
        shut_in_wait (action.Close 0 ∷ action.Outcome 0 (outcome.Fault error.Closed) ∷ []) }
    ensures shut_down_before { IsTraceOf (event.Shutdown ∷ event.Submit (command 71) ∷ [])
        too_late (action.Outcome 0 (outcome.Fault error.Closed) ∷ []) }
    ensures empty_command { IsTraceOf (event.Submit (submission.Cmd []) ∷ []) said_nothing
        (action.Outcome 0 (outcome.Fault error.EmptyCommand) ∷ []) }
    ensures told_in_its_turn { IsTraceOf
        (event.Submit (command 71) ∷ event.Submit (unawaited 72) ∷ event.Connected 0 ∷ [])
        (λ config word. both_in_wait config word (unawaited 72))
        (action.Start 0 0 (owner.Try 0 0) 1 11 ∷ action.Outcome 1 (outcome.One Nil)
        ∷ action.Start 0 1 (owner.Try 1 0) 1 11
        ∷ action.Write 0 (packed_bytes (command 71) ++ packed_bytes (unawaited 72)) ∷ []) }
    ensures offered_again { IsTraceOf
        (event.Connected 0 ∷ event.Submit (command 71) ∷ event.Wrote 0 5 ∷ []) taken_in_part
        (action.Write 0 (drop 5 (packed_bytes (command 71))) ∷ []) }
{}

/// Does nothing. Its contract: no trace that begins so is legal, whatever its events were and
/// whatever comes after.
pub fn these_are_not_legal()
    ensures swapped { NoneBegins answered_both (action.Outcome 0 (reply 121)) }
    ensures out_of_order { NoneBegins answered_alike (action.Outcome 1 (reply 120)) }
    ensures answered_twice { NoneBegins answered_first (action.Outcome 0 (reply 120)) }
    ensures push_as_answer { (value : Value)
        → NoneBegins pushed (action.Outcome 0 (outcome.One value)) }
    ensures causeless { NoneBegins started_one (action.Outcome 0 (outcome.Fault error.Closed)) }
    ensures offered_twice { NoneBegins started_one (action.Write 0 (packed_bytes (command 71))) }
{}

/// Does nothing. Its contract: the same of pipelines, transactions and commands whose reply nobody
/// awaits.
pub fn nor_are_these()
    ensures fault_to_a_pipeline { (kind : FaultKind)
        → NoneBegins (λ config word. cut_off config word two_together 2 22)
        (action.Outcome 0 (outcome.Fault (error.Io kind))) }
    ensures closed_to_the_oldest { NoneBegins
        (λ config word. cut_off config word (command 71) 1 11)
        (action.Outcome 0 (outcome.Fault error.Closed)) }
    ensures reply_to_another { NoneBegins told_first (action.Outcome 1 (reply 120)) }
    ensures started_untold { NoneBegins left_untold (action.Start 0 0 (owner.Try 0 0) 1 11) }
    ensures before_its_need { (kept : List Data)
        → NoneBegins half_filled (action.Outcome 0 (outcome.Many kept)) }
    ensures values_of_the_refused { (kept : List Data)
        → NoneBegins refused (action.Outcome 0 (outcome.Many kept)) }
{}

/// Does nothing. Its contract: the same of what a cancelled message came to, of outcomes after a
/// cancel, of outcomes before the close that gives them, and of a Nil that isn't due.
pub fn nor_are_these_outcomes()
    ensures item_of_the_cancelled { NoneBegins left_alone (action.Outcome 1 (reply 120)) }
    ensures fault_of_the_cancelled { (kind : FaultKind)
        → NoneBegins cut_off_alone (action.Outcome 1 (outcome.Fault (error.Io kind))) }
    ensures answered_after_its_cancel { (o : Outcome)
        → NoneBegins left_alone (action.Outcome 0 o) }
    ensures answered_before_the_close { (o : Outcome)
        → NoneBegins shut_down (action.Outcome 0 o) }
    ensures answered_before_the_close_in_wait { (o : Outcome)
        → NoneBegins shut_in_wait (action.Outcome 0 o) }
    ensures told_out_of_order { NoneBegins (λ config word. both_in_wait config word (unawaited 72))
        (action.Outcome 1 (outcome.One Nil)) }
    ensures told_before_the_creation { NoneBegins
        (λ config word. up_in_wait config word (unawaited 71))
        (action.Outcome 0 (outcome.One Nil)) }
{}

/// Does nothing. Its contract: the same of closes, offers, waits and a creation that aren't due,
/// and of a turn that begins too soon.
pub fn nor_are_these_steps()
    ensures closed_before_the_reply { NoneBegins spoiled (action.Close 0) }
    ensures closed_twice { NoneBegins (λ config word. cut_off config word (command 71) 1 11)
        (action.Close 0) }
    ensures held_back_behind { (number : ℕ) (c : Cause)
        → NoneBegins held_back (action.Turn number c) }
    ensures offered_before_a_start { (config : Config) (bytes : List ℕ) → 11 < boundary config
        → NoneBeginsIn config first_of_both (action.Write 0 bytes) }
    ensures offered_what_was_taken { NoneBegins taken_in_part
        (action.Write 0 (packed_bytes (command 71))) }
    ensures waits_before_an_offer { (n round : ℕ) (kind : WaitKind)
        → NoneBegins started_unoffered (action.Wait (owner.Try n round) kind) }
    ensures waits_out_of_order { NoneBegins both_left_out
        (action.Wait (owner.Try 1 0) wait.Connect) }
    ensures created_twice { NoneBegins came_up (action.Created None) }
{}

/// Does nothing. Its contract: the same of starts on a link that isn't up, or with the need or the
/// length of another message.
pub fn nor_are_these_starts()
    ensures started_before_the_connect { (l k round count len : ℕ)
        → NoneBegins left_out (action.Start l k (owner.Try 0 round) count len) }
    ensures started_after_the_end { (l k round count len : ℕ)
        → NoneBegins ended (action.Start l k (owner.Try 1 round) count len) }
    ensures another_need { (count len : ℕ) → count ≢ 1
        → NoneBegins (λ config word. arrived config word (command 71))
        (action.Start 0 0 (owner.Try 0 0) count len) }
    ensures another_length { (count len : ℕ) → len ≢ 11
        → NoneBegins (λ config word. arrived config word (command 71))
        (action.Start 0 0 (owner.Try 0 0) count len) }
{}

/// Does nothing. Its contract: the same of turns whose events are bad: one command without words in
/// a list, and more bytes taken than were offered.
pub fn nor_are_these_turns()
    ensures nameless { NoneBegins came_up (turn 2 (event.Submit one_nameless)) }
    ensures nameless_transaction { NoneBegins came_up (turn 2 (event.Submit nameless_atomic)) }
    ensures nameless_packed { (offset count : ℕ)
        → NoneBegins came_up (turn 2 (event.Submit (nameless_skipped offset count))) }
    ensures took_too_much { NoneBegins started_one (turn 3 (event.Wrote 0 12)) }
{}

/// Does nothing. Its contract: a trace that ends so is not legal.
pub fn nobody_is_left_out()
    ensures forgotten { NoneIs left_out }
    ensures never_offered { NoneIs started_unoffered }
    ensures held_back_last { NoneIs held_back }
{}

/// Does nothing. Its contract: these are legal too. Where the time of a connect is over, or the
/// connect fails, the commands that wait get that error, and so does each one that comes later,
/// unless it is empty or came after a shutdown; and once a link is up, its timer and a refusal
/// change nothing.
pub fn so_are_these_openings()
    ensures timed_out { IsTraceIn bounded
        (event.Submit (command 71) ∷ event.Fired 0 ∷ event.Submit (command 72)
        ∷ event.Connected 0 ∷ []) timed_out
        (action.Outcome 0 (outcome.Fault (error.Io TimedOut)) ∷ turn 3 (event.Submit (command 72))
        ∷ action.Outcome 1 (outcome.Fault (error.Io TimedOut)) ∷ turn 4 (event.Connected 0) ∷ []) }
    ensures all_refused { IsTraceOf
        (event.Submit (command 71) ∷ event.Submit (command 72) ∷ event.Refused 0 Reset
        ∷ event.Submit (command 73) ∷ []) refusal_shown
        (action.Outcome 0 (outcome.Fault (error.Io Reset))
        ∷ action.Outcome 1 (outcome.Fault (error.Io Reset)) ∷ turn 4 (event.Submit (command 73))
        ∷ action.Outcome 2 (outcome.Fault (error.Io Reset)) ∷ []) }
    ensures empty_and_late { IsTraceOf
        (event.Refused 0 Reset ∷ event.Submit (submission.Cmd []) ∷ event.Shutdown
        ∷ event.Submit (command 71) ∷ []) refused_at_first
        (turn 2 (event.Submit (submission.Cmd []))
        ∷ action.Outcome 0 (outcome.Fault error.EmptyCommand) ∷ turn 3 event.Shutdown
        ∷ turn 4 (event.Submit (command 71)) ∷ action.Outcome 1 (outcome.Fault error.Closed) ∷ []) }
    ensures up_in_time { IsTraceIn bounded
        (event.Connected 0 ∷ event.Fired 0 ∷ event.Refused 0 Reset ∷ []) timed_opening
        (turn 1 (event.Connected 0) ∷ action.Created None ∷ turn 2 (event.Fired 0)
        ∷ turn 3 (event.Refused 0 Reset) ∷ []) }
{}

/// Does nothing. Its contract: no trace that begins so is legal, whatever its events were and
/// whatever comes after: outcomes, creations, closes and timers that aren't due around an opening.
pub fn nor_are_these_openings()
    ensures closed_in_place { NoneBegins timed_out
        (action.Outcome 0 (outcome.Fault error.Closed)) }
    ensures answered_before_the_failure { (o : Outcome)
        → NoneBegins connect_refused (action.Outcome 0 o) }
    ensures second_before_the_first { (o : Outcome)
        → NoneBegins refusal_shown (action.Outcome 1 o) }
    ensures shown_again { (e : Option RedisError) → NoneBegins refusal_shown (action.Created e) }
    ensures failed_before_the_close { (e : Option RedisError)
        → NoneBegins overdue (action.Created e) }
    ensures created_when_refused { NoneBegins connect_refused (action.Created None) }
    ensures another_error { NoneBegins connect_refused (action.Created (Some error.Closed)) }
    ensures closed_when_refused { NoneBegins connect_refused (action.Close 0) }
    ensures timer_unasked { (config : Config) (t ms : ℕ) (what : Purpose)
        → connect_timeout config ≡ None → NoneBeginsIn config opening (action.Timer t ms what) }
    ensures timer_left_out { (config : Config) (number : ℕ) (c : Cause)
        → connect_timeout config ≢ None → NoneBeginsIn config opening (action.Turn number c) }
{}

/// Does nothing. Its contract: each action of these fronts stands where it may. So the traces that
/// begin with them are refused for what comes next. One front of those above isn't among them: a
/// wait can be due before an earlier one only behind a turn that began too soon.
pub fn their_fronts_stand()
    ensures answered { (word : ℕ) → EachStands (answered_fronts unbounded word) }
    ensures unanswered { (word : ℕ) → EachStands (unanswered_fronts unbounded word) }
    ensures ended { (word : ℕ) → EachStands (ended_fronts unbounded word) }
    ensures waiting { (word : ℕ) → EachStands (waiting_fronts unbounded word) }
    ensures begun { (word : ℕ) → EachStands (begun_fronts unbounded word) }
    ensures refused { (word : ℕ) → EachStands (refused_fronts unbounded word) }
    ensures overdue { (word : ℕ) → EachStands (overdue_fronts bounded word) }
{}

/// Does nothing. Its contract: these are legal too. Where bytes are unwritten and as many as the
/// boundary, a command waits for room, until it starts or its link fails; where the queue holds its
/// size, it waits for a place, and has one once an earlier message starts, or its owner leaves; a
/// command that waited for the connect waits for room behind it; and one whose reply nobody awaits
/// is told once it has its place.
pub fn these_wait_for_room()
    ensures cut_off_in_wait { IsTraceIn narrow
        (event.Connected 0 ∷ event.Submit (command 71) ∷ event.Submit two_together
        ∷ event.Submit (command 72) ∷ event.ReadFault 0 Reset ∷ []) third_held
        (turn 5 (event.ReadFault 0 Reset) ∷ action.Close 0
        ∷ action.Outcome 0 (outcome.Fault (error.Io Reset))
        ∷ action.Outcome 1 (outcome.Fault error.Closed)
        ∷ action.Outcome 2 (outcome.Fault error.Closed) ∷ []) }
    ensures started_later { IsTraceIn narrow
        (event.Connected 0 ∷ event.Submit (command 71) ∷ event.Submit two_together
        ∷ event.Submit (command 72) ∷ event.Wrote 0 11 ∷ []) third_held
        (turn 5 (event.Wrote 0 11) ∷ action.Start 0 2 (owner.Try 2 0) 1 11
        ∷ action.Write 0 (packed_bytes two_together ++ packed_bytes (command 72)) ∷ []) }
    ensures a_place_and_then_room { IsTraceIn one_at_a_time
        (event.Connected 0 ∷ event.Submit (command 71) ∷ event.Submit (command 72)
        ∷ event.Submit (command 73) ∷ event.Wrote 0 4 ∷ event.Wrote 0 7 ∷ [])
        (λ config word. queue_full config word (command 73))
        (turn 5 (event.Wrote 0 4) ∷ action.Write 0 (drop 4 (packed_bytes (command 71)))
        ∷ turn 6 (event.Wrote 0 7) ∷ action.Start 0 1 (owner.Try 1 0) 1 11
        ∷ action.Write 0 (packed_bytes (command 72))
        ∷ action.Wait (owner.Try 2 0) wait.Room ∷ []) }
    ensures a_place_that_was_left { IsTraceIn one_at_a_time
        (event.Connected 0 ∷ event.Submit (command 71) ∷ event.Submit (command 72)
        ∷ event.Submit (command 73) ∷ event.Cancel 1 ∷ [])
        (λ config word. queue_full config word (command 73))
        (turn 5 (event.Cancel 1) ∷ action.Wait (owner.Try 2 0) wait.Room ∷ []) }
    ensures the_connect_and_then_room { IsTraceIn one_at_a_time
        (event.Submit (command 71) ∷ event.Submit (command 72) ∷ event.Connected 0 ∷ [])
        second_unshown (action.Wait (owner.Try 1 0) wait.Room ∷ []) }
    ensures told_once_it_has_a_place { IsTraceIn one_at_a_time
        (event.Connected 0 ∷ event.Submit (command 71) ∷ event.Submit (command 72)
        ∷ event.Submit (unawaited 73) ∷ event.Wrote 0 11 ∷ event.Wrote 0 11 ∷ [])
        (λ config word. queue_full config word (unawaited 73))
        (turn 5 (event.Wrote 0 11) ∷ action.Start 0 1 (owner.Try 1 0) 1 11
        ∷ action.Outcome 2 (outcome.One Nil) ∷ action.Write 0 (packed_bytes (command 72))
        ∷ turn 6 (event.Wrote 0 11) ∷ action.Start 0 2 (owner.Try 2 0) 1 11
        ∷ action.Write 0 (packed_bytes (unawaited 73)) ∷ []) }
{}

/// Does nothing. Its contract: no trace that begins so is legal, whatever its events were and
/// whatever comes after: starts of who has no place or whose link is held back, a Nil told while
/// the queue is full, waits that aren't true, a turn that begins while the wait that is true isn't
/// shown, and the second in line started before the first. Each action of their fronts stands where
/// it may.
pub fn nor_are_these_places()
    ensures fronts { (word : ℕ) → EachStands (place_fronts word) }
    ensures started_while_held_back { NoneBeginsIn one_at_a_time held_back
        (action.Start 0 1 (owner.Try 1 0) 1 11) }
    ensures started_without_a_place { NoneBeginsIn one_at_a_time
        (λ config word. third_came config word (command 73))
        (action.Start 0 1 (owner.Try 2 0) 1 11) }
    ensures told_while_the_queue_is_full { NoneBeginsIn one_at_a_time
        (λ config word. third_came config word (unawaited 73))
        (action.Outcome 2 (outcome.One Nil)) }
    ensures place_where_it_has_one { NoneBeginsIn one_at_a_time held_back
        (action.Wait (owner.Try 1 0) wait.Place) }
    ensures room_where_there_is_room { NoneBeginsIn narrow held_back
        (action.Wait (owner.Try 1 0) wait.Room) }
    ensures room_without_a_place { NoneBeginsIn one_at_a_time
        (λ config word. third_came config word (command 73))
        (action.Wait (owner.Try 2 0) wait.Room) }
    ensures another_wait_was_shown { (number : ℕ) (c : Cause)
        → NoneBeginsIn one_at_a_time second_unshown (action.Turn number c) }
    ensures second_before_the_first { NoneBegins
        (λ config word. both_in_wait config word (command 72))
        (action.Start 0 0 (owner.Try 1 0) 1 11) }
{}

/// Does nothing. Its contract: these are legal too. A submission takes its permits where they are
/// counted, a pipeline as many as are free up to the number of its commands, and then its timer is
/// asked for, of the time that was in force where it came. Once its time is over it is answered so,
/// and who waits for a permit takes it; so it does where its holder leaves, or is told at its
/// place. Where nothing is said a request has 500 milliseconds, and those that wait for room or
/// for a place are answered, too.
pub fn these_take_permits()
    ensures timed_out_and_replied { IsTraceIn one_permit
        (event.Connected 0 ∷ event.Submit (command 71) ∷ event.Wrote 0 11
        ∷ event.Submit (command 72) ∷ event.Fired 0 ∷ event.Bytes 0 one_reply ∷ []) replied_late
        [] }
    ensures two_of_three { IsTraceIn (permits_alone 3)
        (event.Connected 0 ∷ event.Submit two_together ∷ event.Submit two_together
        ∷ event.Submit (command 73) ∷ []) two_taken
        (action.Took (owner.Try 1 0) 0 1 ∷ action.Start 0 1 (owner.Try 1 0) 2 22
        ∷ turn 4 (event.Submit (command 73)) ∷ action.Wait (owner.Try 2 0) wait.Permit ∷ []) }
    ensures given_back_by_nil { IsTraceIn (permits_alone 1)
        (event.Submit (unawaited 71) ∷ event.Submit (command 72) ∷ event.Connected 0 ∷ [])
        unawaited_first
        (action.Took (owner.Try 0 0) 0 1 ∷ action.Outcome 0 (outcome.One Nil)
        ∷ action.Start 0 0 (owner.Try 0 0) 1 11 ∷ action.Took (owner.Try 1 0) 0 1
        ∷ action.Start 0 1 (owner.Try 1 0) 1 11
        ∷ action.Write 0 (packed_bytes (unawaited 71) ++ packed_bytes (command 72)) ∷ []) }
    ensures no_time { IsTraceIn one_permit
        (event.Connected 0 ∷ event.Timeout None ∷ event.Submit (command 71) ∷ []) came_up
        (turn 2 (event.Timeout None) ∷ turn 3 (event.Submit (command 71))
        ∷ action.Took (owner.Try 0 0) 0 1 ∷ action.Start 0 0 (owner.Try 0 0) 1 11
        ∷ action.Write 0 (packed_bytes (command 71)) ∷ []) }
    ensures another_time { IsTraceIn one_permit
        (event.Connected 0 ∷ event.Timeout (Some 7) ∷ event.Submit (command 71) ∷ []) came_up
        (turn 2 (event.Timeout (Some 7)) ∷ turn 3 (event.Submit (command 71))
        ∷ action.Took (owner.Try 0 0) 0 1
        ∷ action.Timer 0 7 (purpose.Response (owner.Try 0 0))
        ∷ action.Start 0 0 (owner.Try 0 0) 1 11
        ∷ action.Write 0 (packed_bytes (command 71)) ∷ []) }
    ensures the_connect_and_then_a_permit { IsTraceIn (permits_alone 1)
        (event.Submit (command 71) ∷ event.Submit (command 72) ∷ event.Connected 0 ∷ [])
        connect_left_standing (action.Wait (owner.Try 1 0) wait.Permit ∷ []) }
    ensures a_permit_that_was_left { IsTraceIn one_permit
        (event.Connected 0 ∷ event.Submit (command 71) ∷ event.Wrote 0 11
        ∷ event.Submit (command 72) ∷ event.Cancel 0 ∷ []) second_came
        (action.Wait (owner.Try 1 0) wait.Permit ∷ turn 5 (event.Cancel 0)
        ∷ action.Took (owner.Try 1 0) 0 1
        ∷ action.Timer 1 100 (purpose.Response (owner.Try 1 0))
        ∷ action.Start 0 1 (owner.Try 1 0) 1 11
        ∷ action.Write 0 (packed_bytes (command 72)) ∷ []) }
    ensures fired_behind_nil { IsTraceIn one_permit
        (event.Connected 0 ∷ event.Submit (unawaited 71) ∷ event.Fired 0 ∷ [])
        (λ config word. arrived config word (unawaited 71))
        (action.Took (owner.Try 0 0) 0 1
        ∷ action.Timer 0 100 (purpose.Response (owner.Try 0 0))
        ∷ action.Outcome 0 (outcome.One Nil) ∷ action.Start 0 0 (owner.Try 0 0) 1 11
        ∷ action.Write 0 (packed_bytes (unawaited 71)) ∷ turn 3 (event.Fired 0) ∷ []) }
    ensures where_nothing_is_said { IsTraceIn plain
        (event.Connected 0 ∷ event.Submit (command 71) ∷ event.Fired 0
        ∷ event.Bytes 0 one_reply ∷ event.Fired 1 ∷ []) second_timer
        (action.Start 0 0 (owner.Try 0 0) 1 11 ∷ action.Write 0 (packed_bytes (command 71))
        ∷ turn 3 (event.Fired 0) ∷ turn 4 (event.Bytes 0 one_reply)
        ∷ action.Outcome 0 (reply 120) ∷ turn 5 (event.Fired 1) ∷ []) }
    ensures timed_out_in_wait { IsTraceIn (held_for 100)
        (event.Connected 0 ∷ event.Submit (command 71) ∷ event.Submit (command 72)
        ∷ event.Submit (command 73) ∷ event.Fired 1 ∷ event.Fired 2 ∷ []) three_timers
        (turn 5 (event.Fired 1) ∷ action.Outcome 1 (outcome.Fault (error.Io TimedOut))
        ∷ action.Wait (owner.Try 2 0) wait.Room ∷ turn 6 (event.Fired 2)
        ∷ action.Outcome 2 (outcome.Fault (error.Io TimedOut)) ∷ []) }
{}

/// Does nothing. Its contract: no trace that begins so is legal, whatever its events were and
/// whatever comes after: starts before the permit or the timer, permits that are taken where they
/// aren't counted, of which fewer are free, or out of order; a timer before the permit, a second
/// one, or of another time; another outcome where the time is over, or its reply given to anyone;
/// a wait for a permit while one is free; and a turn that begins while that wait is true and isn't
/// shown, or a permit is free that is waited for. Each action of their fronts stands where it may.
pub fn nor_are_these_permits()
    ensures fronts { (word : ℕ) → EachStands (permit_fronts word) }
    ensures started_without_a_permit { NoneBeginsIn one_permit
        (λ config word. arrived config word (command 71))
        (action.Start 0 0 (owner.Try 0 0) 1 11) }
    ensures started_without_its_timer { NoneBeginsIn one_permit permit_taken
        (action.Start 0 0 (owner.Try 0 0) 1 11) }
    ensures taken_uncounted { NoneBeginsIn unbounded
        (λ config word. arrived config word (command 71)) (action.Took (owner.Try 0 0) 0 1) }
    ensures more_than_are_free { NoneBeginsIn (permits_alone 3) two_taken
        (action.Took (owner.Try 1 0) 0 2) }
    ensures taken_out_of_order { NoneBeginsIn (permits_alone 2)
        (λ config word. both_in_wait config word (command 72))
        (action.Took (owner.Try 1 0) 0 1) }
    ensures timer_before_the_permit { NoneBeginsIn one_permit
        (λ config word. arrived config word (command 71))
        (action.Timer 0 100 (purpose.Response (owner.Try 0 0))) }
    ensures a_second_timer { NoneBeginsIn one_permit timer_asked
        (action.Timer 1 100 (purpose.Response (owner.Try 0 0))) }
    ensures timer_of_another_time { NoneBeginsIn one_permit permit_taken
        (action.Timer 0 99 (purpose.Response (owner.Try 0 0))) }
    ensures closed_when_over { NoneBeginsIn one_permit time_is_over
        (action.Outcome 0 (outcome.Fault error.Closed)) }
    ensures reply_of_the_first { NoneBeginsIn one_permit replied_late
        (action.Outcome 1 (reply 120)) }
    ensures answered_when_over { NoneBeginsIn one_permit replied_late
        (action.Outcome 0 (reply 120)) }
    ensures waits_though_one_is_free { NoneBeginsIn (limited_to 2 (Some 100)) second_came
        (action.Wait (owner.Try 1 0) wait.Permit) }
    ensures connect_was_shown { (number : ℕ) (c : Cause)
        → NoneBeginsIn (permits_alone 1) connect_left_standing (action.Turn number c) }
    ensures permit_is_kept { (number : ℕ) (c : Cause)
        → NoneBeginsIn one_permit permit_is_free (action.Turn number c) }
{}

/// Does nothing. Its contract: these are legal too. What is to be said to a server is one message,
/// the first of its link; a request waits until its replies are judged, and starts behind the
/// creation, which is when its timer is asked for; where the server counts other arguments the
/// setup starts once more, without the user name, once nothing holds the link back; and an error
/// about the library's name is none.
pub fn these_are_set_up()
    ensures starts_once_set_up { IsTraceIn secured
        (event.Connected 0 ∷ event.Submit (command 71) ∷ event.Wrote 0 22
        ∷ event.Bytes 0 okay_line ∷ event.Bytes 0 one_reply ∷ []) set_up
        (action.Start 0 1 (owner.Try 0 0) 1 11 ∷ action.Write 0 (packed_bytes (command 71))
        ∷ turn 5 (event.Bytes 0 one_reply) ∷ action.Outcome 0 (reply 120) ∷ []) }
    ensures the_connect_and_then_the_setup { IsTraceIn secured
        (event.Submit (command 71) ∷ event.Connected 0 ∷ []) waited_for_both
        (action.Wait (owner.Try 0 0) wait.Setup ∷ []) }
    ensures without_the_user { IsTraceIn of_a_user
        (event.Connected 0 ∷ event.Wrote 0 29 ∷ event.Bytes 0 other_arguments
        ∷ event.Bytes 0 okay_line ∷ []) said_again
        (turn 4 (event.Bytes 0 okay_line) ∷ action.Created None ∷ []) }
    ensures without_the_user_later { IsTraceIn of_a_held_user
        (event.Connected 0 ∷ event.Bytes 0 other_arguments ∷ event.Wrote 0 29
        ∷ event.Bytes 0 okay_line ∷ []) said_later
        (turn 4 (event.Bytes 0 okay_line) ∷ action.Created None ∷ []) }
    ensures by_the_address_alone { IsTraceIn by_default
        (event.Connected 0 ∷ event.Bytes 0 okay_line ∷ event.Bytes 0 okay_line
        ∷ event.Submit (command 71) ∷ event.Bytes 0 one_reply ∷ []) named_in_time
        (turn 4 (event.Submit (command 71))
        ∷ action.Timer 1 500 (purpose.Response (owner.Try 0 0))
        ∷ action.Start 0 1 (owner.Try 0 0) 1 11 ∷ turn 5 (event.Bytes 0 one_reply)
        ∷ action.Outcome 0 (reply 120) ∷ []) }
    ensures library_unknown { IsTraceIn of_a_library
        (event.Connected 0 ∷ event.Bytes 0 unknown_command ∷ event.Bytes 0 okay_line ∷ [])
        library_said (action.Created None ∷ []) }
    ensures all_in_order { IsTraceIn of_all
        (event.Connected 0 ∷ event.Bytes 0 all_well ∷ []) all_said
        (action.Created None ∷ []) }
{}

/// Does nothing. Its contract: these are legal too. Where the password is refused the link is
/// closed, this is shown, and who waits gets the error; so it does with the closed connection where
/// the link fails while it is set up, and where the time of its connect is over; and the shutdown
/// closes it.
pub fn so_do_these_setups_fail()
    ensures password_is_refused { IsTraceIn secured
        (event.Connected 0 ∷ event.Submit (command 71) ∷ event.Bytes 0 wrong_password
        ∷ event.Submit (command 72) ∷ []) refusal_told
        (action.Outcome 0 (outcome.Fault refusal) ∷ turn 4 (event.Submit (command 72))
        ∷ action.Outcome 1 (outcome.Fault refusal) ∷ []) }
    ensures cut_off_in_setup { IsTraceIn secured
        (event.Connected 0 ∷ event.Submit (command 71) ∷ event.ReadFault 0 Reset ∷ [])
        cut_off_during
        (action.Close 0 ∷ action.Created (Some error.Closed)
        ∷ action.Outcome 0 (outcome.Fault error.Closed) ∷ []) }
    ensures timed_out_in_setup { IsTraceIn secured_in_time
        (event.Connected 0 ∷ event.Fired 0 ∷ []) overdue_during
        (action.Close 0 ∷ action.Created (Some (error.Io TimedOut)) ∷ []) }
    ensures shut_down_in_setup { IsTraceIn secured
        (event.Connected 0 ∷ event.Submit (command 71) ∷ event.Shutdown ∷ []) shut_during
        (action.Close 0 ∷ action.Outcome 0 (outcome.Fault error.Closed) ∷ []) }
{}

/// Does nothing. Its contract: no trace that begins so is legal, whatever its events were and
/// whatever comes after: a setup that starts twice, though it is well or refused, while its link is
/// held back, or a third time; with another need, length or bytes, or with the user name still; and
/// a turn that begins where it is to start. Each action of the fronts stands where it may.
pub fn nor_are_these_setups()
    ensures fronts { (word : ℕ) → EachStands (setup_fronts word) }
    ensures said_twice { (k count len : ℕ)
        → NoneBeginsIn secured secret_sent (action.Start 0 k owner.Setup count len) }
    ensures said_again_when_well { (k count len : ℕ)
        → NoneBeginsIn secured set_up (action.Start 0 k owner.Setup count len) }
    ensures said_again_when_refused { (k count len : ℕ)
        → NoneBeginsIn secured password_refused (action.Start 0 k owner.Setup count len) }
    ensures said_three_times { (k count len : ℕ)
        → NoneBeginsIn of_a_user said_again (action.Start 0 k owner.Setup count len) }
    ensures said_again_too_early { (k count len : ℕ)
        → NoneBeginsIn of_a_held_user counted_early (action.Start 0 k owner.Setup count len) }
    ensures of_another_need { (k count len : ℕ) → count ≢ 1
        → NoneBeginsIn secured unsaid (action.Start 0 k owner.Setup count len) }
    ensures of_another_length { (k count len : ℕ) → len ≢ 22
        → NoneBeginsIn secured unsaid (action.Start 0 k owner.Setup count len) }
    ensures with_the_user_still { (k count len : ℕ) → len ≢ 22
        → NoneBeginsIn of_a_user counted_otherwise (action.Start 0 k owner.Setup count len) }
    ensures other_words { (bytes : List ℕ) → bytes ≢ password_line
        → NoneBeginsIn secured (λ config word. setup_begun config word 1 22)
        (action.Write 0 bytes) }
    ensures unsaid_in_its_turn { (number : ℕ) (c : Cause)
        → NoneBeginsIn secured unsaid (action.Turn number c) }
    ensures unsaid_again { (number : ℕ) (c : Cause)
        → NoneBeginsIn of_a_user counted_otherwise (action.Turn number c) }
{}

/// Does nothing. Its contract: the same of what is done beside a setup: a request that starts
/// before it is answered, or before the creation; a creation before it is answered, or though it
/// failed; a setup where nothing is to be said; a close where it is to start once more; its error
/// not told, told late or as another one, or not given to who waited; and a wait for the connect in
/// its place.
pub fn nor_are_these_beside_a_setup()
    ensures started_during { (l k round count len : ℕ)
        → NoneBeginsIn secured came_during (action.Start l k (owner.Try 0 round) count len) }
    ensures started_before_the_creation { (l k round count len : ℕ)
        → NoneBeginsIn secured answered_well (action.Start l k (owner.Try 0 round) count len) }
    ensures created_unsaid { (config : Config)
        → says_nothing (setup (told_info config) true) ≡ false
        → NoneBeginsIn config unsaid (action.Created None) }
    ensures said_where_nothing_is { (config : Config) (k count len : ℕ)
        → says_nothing (setup (told_info config) true) ≡ true
        → NoneBeginsIn config unsaid (action.Start 0 k owner.Setup count len) }
    ensures created_during { NoneBeginsIn secured secret_sent (action.Created None) }
    ensures created_though_refused { NoneBeginsIn secured password_refused (action.Created None) }
    ensures closed_when_counted { NoneBeginsIn of_a_user counted_otherwise (action.Close 0) }
    ensures error_untold { (number : ℕ) (c : Cause)
        → NoneBeginsIn secured closed_by_refusal (action.Turn number c) }
    ensures answered_before_the_error { (o : Outcome)
        → NoneBeginsIn secured closed_by_refusal (action.Outcome 0 o) }
    ensures by_another_error { NoneBeginsIn secured closed_by_refusal
        (action.Created (Some error.Closed)) }
    ensures closed_in_place_of_the_error { NoneBeginsIn secured refusal_told
        (action.Outcome 0 (outcome.Fault error.Closed)) }
    ensures connect_during { NoneBeginsIn secured came_during
        (action.Wait (owner.Try 0 0) wait.Connect) }
    ensures connect_stands { (number : ℕ) (c : Cause)
        → NoneBeginsIn secured waited_for_both (action.Turn number c) }
{}

/// Does nothing. Its contract: these are legal too. A subscription call is one command; on a link
/// that speaks RESP3 it is done once the server has confirmed it, or has the error that came in
/// place of that; on any other it is refused at once.
pub fn these_calls_are_legal()
    ensures confirmed { IsTraceIn of_third
        (event.Connected 0 ∷ event.Bytes 0 hello_well ∷ event.Submit call_of_c
        ∷ event.Bytes 0 confirmation ∷ []) called
        (turn 4 (event.Bytes 0 confirmation) ∷ action.Outcome 0 outcome.Done ∷ []) }
    ensures denied { IsTraceIn of_third
        (event.Connected 0 ∷ event.Bytes 0 hello_well ∷ event.Submit call_of_c
        ∷ event.Bytes 0 denied_line ∷ []) called
        (turn 4 (event.Bytes 0 denied_line)
        ∷ action.Outcome 0 (outcome.Fault (error.Server denial)) ∷ []) }
    ensures refused { IsTraceOf
        (event.Connected 0 ∷ event.Submit call_of_c ∷ []) came_up
        (turn 2 (event.Submit call_of_c)
        ∷ action.Outcome 0 (outcome.Fault error.Resp3Required) ∷ []) }
{}

/// Does nothing. Its contract: no trace that begins so is legal, whatever its events were and
/// whatever comes after: a subscription call that is done before it is confirmed.
pub fn nor_is_this_call()
    ensures { NoneBeginsIn of_third called (action.Outcome 0 outcome.Done) }
{}

/// Does nothing. Its contract: these are legal too. Where somebody hears pushes, one that came
/// between two replies is told between their outcomes; one that is itself the reply to a command is
/// told before the outcome that it gives; and that a fault ended a link, once it was set up, is
/// told behind its close and before the outcomes that this gives. Where nobody hears them none is
/// told.
pub fn these_tell_pushes()
    ensures told_between { IsTraceIn heard
        (event.Connected 0 ∷ event.Wrote 0 22 ∷ event.Bytes 0 hello_well ∷ event.Submit (get 97)
        ∷ event.Submit (get 98) ∷ event.Bytes 0 invalid_between ∷ []) invalid_while_asked
        (action.Outcome 0 (reply 120) ∷ action.Push 0 invalidation
        ∷ action.Outcome 1 (reply 121) ∷ []) }
    ensures told_and_answered { IsTraceIn heard
        (event.Connected 0 ∷ event.Wrote 0 22 ∷ event.Bytes 0 hello_well ∷ event.Submit subscribe
        ∷ event.Bytes 0 confirmation ∷ []) confirmed
        (action.Push 0 subscription ∷ action.Outcome 0 subscribed ∷ []) }
    ensures answered_unheard { IsTraceIn unheard
        (event.Connected 0 ∷ event.Wrote 0 22 ∷ event.Bytes 0 hello_well ∷ event.Submit subscribe
        ∷ event.Bytes 0 confirmation ∷ []) confirmed
        (action.Outcome 0 subscribed ∷ []) }
    ensures end_is_told { IsTraceIn heard
        (event.Connected 0 ∷ event.Wrote 0 22 ∷ event.Bytes 0 hello_well ∷ event.Submit (get 97)
        ∷ event.ReadFault 0 Reset ∷ []) cut_off_asked
        (action.Push 0 disconnection ∷ action.Outcome 0 (outcome.Fault (error.Io Reset)) ∷ []) }
{}

/// Does nothing. Its contract: no trace that begins so is legal, whatever its events were and
/// whatever comes after: a push that is told twice, before the outcome of a message that was full
/// when it came, with nobody to hear it, or though it came before the link was set up; an outcome
/// before a push that came before the last of its items; the end of a link that was never set up,
/// or has not ended, or was told; an outcome of such an end before it is told; and a turn that
/// begins while a push waits. Each action of their fronts stands where it may.
pub fn nor_are_these_pushes()
    ensures fronts { (word : ℕ) → EachStands (push_fronts word) }
    ensures told_twice { NoneBeginsIn heard invalid_told (action.Push 0 invalidation) }
    ensures told_too_soon { NoneBeginsIn heard invalid_while_asked (action.Push 0 invalidation) }
    ensures answered_before_the_push { (o : Outcome)
        → NoneBeginsIn heard confirmed (action.Outcome 0 o) }
    ensures answered_before_another { (o : Outcome)
        → NoneBeginsIn heard first_told (action.Outcome 1 o) }
    ensures told_unheard { (l : ℕ) (info : PushInfo)
        → NoneBeginsIn unheard confirmed (action.Push l info) }
    ensures told_early { NoneBeginsIn heard pushed_early (action.Push 0 invalidation) }
    ensures early_end_told { NoneBeginsIn heard cut_off_early (action.Push 0 disconnection) }
    ensures no_end_told { NoneBeginsIn heard confirmed (action.Push 0 disconnection) }
    ensures end_told_twice { NoneBeginsIn heard end_told (action.Push 0 disconnection) }
    ensures answered_before_the_end { (o : Outcome)
        → NoneBeginsIn heard cut_off_asked (action.Outcome 0 o) }
    ensures push_left_out { (number : ℕ) (c : Cause)
        → NoneBeginsIn heard pushed_alone (action.Turn number c) }
{}

/// Does nothing. Its contract: these are legal too. Where credentials come of a source it is asked
/// for when the link is up; a command waits for the first that it gives, and then for the setup in
/// which they are said, and starts behind the creation and the question for a second source. What
/// the first one says later changes nothing.
/// Where it ends, or could give none, the link is closed, and the opening fails, by what the source
/// says; a reply that comes meanwhile answers nothing, and bytes that begin no value fail the
/// opening by the closed connection.
pub fn these_take_credentials()
    ensures said_in_the_setup { IsTraceIn sourced
        (event.Connected 0 ∷ event.Submit (command 71) ∷ event.Creds 0 user_and_password
        ∷ event.Wrote 0 28 ∷ event.Bytes 0 okay_line ∷ []) credentials_taken
        (action.Start 0 1 (owner.Try 0 0) 1 11 ∷ action.Write 0 (packed_bytes (command 71)) ∷ []) }
    ensures asked_no_more { IsTraceIn sourced
        (event.Connected 0 ∷ event.Submit (command 71) ∷ event.Creds 0 user_and_password
        ∷ event.Wrote 0 28 ∷ event.Bytes 0 okay_line ∷ event.Creds 0 user_and_password
        ∷ event.CredsError 0 no_credentials ∷ event.CredsEnd 0 ∷ []) started_behind
        (turn 6 (event.Creds 0 user_and_password) ∷ turn 7 (event.CredsError 0 no_credentials)
        ∷ turn 8 (event.CredsEnd 0) ∷ []) }
    ensures ended_first { IsTraceIn sourced (event.Connected 0 ∷ event.CredsEnd 0 ∷ [])
        deserted_first (action.Close 0 ∷ action.Created (Some (error.AuthFailed [])) ∷ []) }
    ensures failed_first { IsTraceIn sourced
        (event.Connected 0 ∷ event.Submit (command 71) ∷ event.CredsError 0 no_credentials ∷ [])
        closed_by_denial
        (action.Created (Some source_error) ∷ action.Outcome 0 (outcome.Fault source_error) ∷ []) }
    ensures spoiled_first { IsTraceIn sourced
        (event.Connected 0 ∷ event.Bytes 0 okay_line ∷ event.Bytes 0 spoiled_behind ∷ [])
        spoiled_meanwhile (action.Close 0 ∷ action.Created (Some error.Closed) ∷ []) }
{}

/// Does nothing. Its contract: no trace that begins so is legal, whatever its events were and
/// whatever comes after: a setup that starts, or a creation that is shown, before credentials came;
/// a source that is asked for twice before, or a third time, or before the connect is answered, or
/// where none is wanted; a wait for the setup while credentials are waited for; a creation that is
/// shown before the close where the source ended; an opening that fails with another error than
/// what its source says; credentials of a source that was never asked for; and a turn that begins
/// while one is to be. Each action of the fronts stands where it may.
pub fn nor_are_these_credentials()
    ensures fronts { (word : ℕ) → EachStands (source_fronts word) }
    ensures said_without { (k count len : ℕ)
        → NoneBeginsIn sourced needed (action.Start 0 k owner.Setup count len) }
    ensures created_without { NoneBeginsIn sourced needed (action.Created None) }
    ensures needed_twice { (c : ℕ) → NoneBeginsIn sourced needed (action.NeedCreds c 0) }
    ensures needed_when_taken { (c : ℕ)
        → NoneBeginsIn sourced credentials_taken (action.NeedCreds c 0) }
    ensures needed_too_soon { (c : ℕ) → NoneBegins opening (action.NeedCreds c 0) }
    ensures needed_unwanted { (c : ℕ) → NoneBeginsIn secured unsaid (action.NeedCreds c 0) }
    ensures setup_meanwhile { NoneBeginsIn sourced came_meanwhile
        (action.Wait (owner.Try 0 0) wait.Setup) }
    ensures failed_before_the_close { (e : Option RedisError)
        → NoneBeginsIn sourced deserted_first (action.Created e) }
    ensures another_denial { (e : RedisError) → e ≢ source_error
        → NoneBeginsIn sourced closed_by_denial (action.Created (Some e)) }
    ensures given_unasked { NoneBeginsIn sourced needed
        (turn 2 (event.Creds 1 user_and_password)) }
    ensures source_left_out { (number : ℕ) (c : Cause)
        → NoneBeginsIn sourced unsaid (action.Turn number c) }
{}
