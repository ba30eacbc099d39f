//! What becomes of values that come on a link on which something is heard.

ghost use Rattle.std.specs.Prelude.{Bool, true, false, ◌∷◌, []};
ghost use Rattle.std.specs.List.{All};
ghost use Rattle.driver_model.specs.declared.hearing.Hearing.{Hearing};
ghost use Rattle.driver_model.specs.declared.hearing.Hearing.TheVariants as hearing;
ghost use Rattle.trace_examples.specs.Takings.{goes, ends_it, goes_and_is_told, is_told, is_left};
ghost use Rattle.trace_examples.specs.Takings.{Becomes, IsMessage, IsMonitored, answering_arrays};
ghost use Rattle.trace_examples.specs.Takings.{answering_pushes, message_arrays, message_pushes};
ghost use Rattle.trace_examples.specs.Takings.{strange_arrays, strange_pushes, other_values};
ghost use Rattle.trace_examples.specs.Takings.{message_array, confirming_array, message_push};
ghost use Rattle.trace_examples.specs.Takings.{confirming_push, invalidating_push, confirmation};
ghost use Rattle.trace_examples.specs.Takings.{invalidation, monitored};

/// Does nothing. Its contract: this becomes of these values. On a link of messages, whether a call is
/// open or not, confirmations and the reply to a ping go to the oldest call, messages are told, and
/// every other array or push ends the link; any other value goes to the oldest call, and ends the
/// link where none is open. Before a link is set up every item goes to its setup, and nothing is
/// told. Where nothing is heard every item goes to the oldest message; where pushes are they are
/// told, too, and messages that come as arrays are not. In monitor mode all items are told.
pub fn these_become_of_values()
    ensures arrays_that_answer { (awaited : Bool)
        → All (Becomes hearing.Messages true awaited goes) answering_arrays }
    ensures pushes_that_answer { (awaited : Bool)
        → All (Becomes hearing.Messages true awaited goes) answering_pushes }
    ensures arrays_that_are_messages { All IsMessage message_arrays }
    ensures pushes_that_are_messages { All IsMessage message_pushes }
    ensures arrays_that_end_the_link { (awaited : Bool)
        → All (Becomes hearing.Messages true awaited ends_it) strange_arrays }
    ensures pushes_that_end_the_link { (awaited : Bool)
        → All (Becomes hearing.Messages true awaited ends_it) strange_pushes }
    ensures others_that_are_awaited { All (Becomes hearing.Messages true true goes) other_values }
    ensures others_that_end_the_link { All (Becomes hearing.Messages true false ends_it) other_values }
    ensures items_before_the_setup { (h : Hearing) (awaited : Bool)
        → All (Becomes h false awaited goes) (message_array ∷ confirming_push ∷ other_values) }
    ensures pushes_before_the_setup { (h : Hearing) (awaited : Bool)
        → All (Becomes h false awaited is_left) (message_push ∷ invalidating_push ∷ []) }
    ensures items_where_nothing_is_heard { (awaited : Bool)
        → All (Becomes hearing.Nothing true awaited goes)
        (message_array ∷ confirming_array ∷ confirming_push ∷ other_values) }
    ensures pushes_where_nothing_is_heard { (awaited : Bool)
        → All (Becomes hearing.Nothing true awaited is_left)
        (message_push ∷ invalidating_push ∷ []) }
    ensures items_where_pushes_are_heard { (awaited : Bool)
        → All (Becomes hearing.Pushes true awaited goes)
        (message_array ∷ confirming_array ∷ other_values) }
    ensures confirmation_where_pushes_are_heard { (awaited : Bool)
        → Becomes hearing.Pushes true awaited (goes_and_is_told confirmation) confirming_push }
    ensures push_where_pushes_are_heard { (awaited : Bool)
        → Becomes hearing.Pushes true awaited (is_told invalidation) invalidating_push }
    ensures items_in_monitor_mode { All IsMonitored monitored }
    ensures pushes_in_monitor_mode { (awaited : Bool)
        → All (Becomes hearing.Monitor true awaited is_left)
        (message_push ∷ invalidating_push ∷ []) }
{}
