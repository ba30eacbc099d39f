//! What is subscribed after commands, and what subscribes it again.

ghost use Rattle.std.specs.Prelude.{◌≡◌, List};
ghost use Rattle.sub_tracker.specs.Subscribed.{Request};
ghost use Rattle.sub_tracker.specs.Held.{held_after};
ghost use Rattle.sub_tracker.specs.Pipeline.{request_of};
ghost use Rattle.protocol_examples.specs.Tables.{Gives};
ghost use Rattle.protocol_examples.specs.Tracking.{tracked_commands, subscribed_after, is_subscribed, subscribed_names, resubscribing, bytes_that_resubscribe, tracked_again};

/// Does nothing. Its contract: what is tracked of these commands, which names are subscribed after them, and the bytes
/// that subscribe those again.
pub fn these_names_are_subscribed()
    ensures commands { Gives request_of tracked_commands }
    ensures names { Gives held_after subscribed_after }
    ensures each_name { Gives is_subscribed subscribed_names }
    ensures bytes { Gives resubscribing bytes_that_resubscribe }
{}

/// Does nothing. Its contract: a tracker of the commands that subscribe again what is subscribed, and of nothing before
/// them, holds the same names.
pub fn resubscribing_gives_the_same_names()
    ensures { (history : List Request) → tracked_again (held_after history) ≡ held_after history }
{}
