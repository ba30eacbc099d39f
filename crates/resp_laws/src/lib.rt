//! The laws of packing and reading: packed commands are read back, a text begins with one value at most, and a cut
//! changes no value.
#![tactic(auto)]

ghost use Rattle.std.specs.Prelude.{◌≡◌, ◌⊎◌, ◌<◌, ◌≤◌, ◌+◌, ℕ, List, [], ◌∷◌, ◌++◌, length};
ghost use Rattle.std.specs.List.{All};
ghost use Rattle.resp_value.specs.Data.{Data};
ghost use Rattle.resp_read.specs.Reads.{Reads, IsProperPrefix, IsMalformed};
ghost use Rattle.resp_read.specs.Reads.{ReadsWithin, IsProperPrefixWithin, IsMalformedWithin};
ghost use Rattle.resp_read.specs.Limits.{AreAllowed, longest_value};
ghost use Rattle.resp_read.specs.declared.limits.Limits.{Limits};
ghost use Rattle.resp_read.specs.Values.{values, left_over, is_spoiled};
ghost use Rattle.resp_write.specs.Command.{CommandList};
ghost use Rattle.resp_write.specs.Pack.{pack, pack_pipeline};
ghost use Rattle.resp_laws.specs.Commands.{IsWithin, IsWithinLimits, request, packed, requests, words_of, sent};
ghost use Rattle.resp_laws.specs.Pieces.{joined, piecewise};

/// Does nothing. Its contract: whatever follows a packed command, the array of its name and arguments stands at the
/// front, and what follows is left; for a reader with other limits too, where the command is within them.
pub fn a_packed_command_is_read_back()
    ensures reads { (name rest : List ℕ) (args : List (List ℕ)) → IsWithinLimits (name ∷ args)
        → Reads (pack (name ∷ args) ++ rest) (request (name ∷ args)) rest }
    ensures within { (limits : Limits) (name rest : List ℕ) (args : List (List ℕ))
        → AreAllowed limits → 0 < limits.depth → IsWithin limits (name ∷ args)
        → ReadsWithin limits (pack (name ∷ args) ++ rest) (request (name ∷ args)) rest }
{}

/// Does nothing. Its contract: of commands packed one after another exactly their requests are read, in order, with
/// nothing left over; and whatever follows is read as if it stood alone.
pub fn packed_commands_are_read_back_in_order()
    ensures exactly { (commands : List (List (List ℕ))) → All IsWithinLimits commands
        → values (packed commands) ≡ requests commands }
    ensures nothing_left { (commands : List (List (List ℕ))) → All IsWithinLimits commands
        → left_over (packed commands) ≡ [] }
    ensures in_front { (commands : List (List (List ℕ))) (rest : List ℕ)
        → All IsWithinLimits commands
        → values (packed commands ++ rest) ≡ requests commands ++ values rest }
    ensures left { (commands : List (List (List ℕ))) (rest : List ℕ) → All IsWithinLimits commands
        → left_over (packed commands ++ rest) ≡ left_over rest }
    ensures spoiled { (commands : List (List (List ℕ))) (rest : List ℕ)
        → All IsWithinLimits commands → is_spoiled (packed commands ++ rest) ≡ is_spoiled rest }
{}

/// Does nothing. Its contract: of a packed pipeline exactly the requests of its commands are read, in order, with nothing
/// left over: of a transaction MULTI before them and EXEC after, and of no commands none.
pub fn a_packed_pipeline_is_read_back()
    ensures exactly { (p : CommandList) → All IsWithinLimits (words_of p.commands)
        → values (pack_pipeline p) ≡ requests (sent p.atomic p.commands) }
    ensures nothing_left { (p : CommandList) → All IsWithinLimits (words_of p.commands)
        → left_over (pack_pipeline p) ≡ [] }
{}

/// Does nothing. Its contract: commands that are not the same have not the same bytes.
pub fn different_commands_have_different_bytes()
    ensures { (name other : List ℕ) (args others : List (List ℕ)) → IsWithinLimits (name ∷ args)
        → IsWithinLimits (other ∷ others) → pack (name ∷ args) ≡ pack (other ∷ others)
        → (name ≡ other) × (args ≡ others) }
{}

/// Does nothing. Its contract: a text begins with one value at most, and only one text is left after it; within the
/// default limits of a reader, and within any that are allowed.
pub fn a_text_begins_with_one_value()
    ensures one { (bytes : List ℕ) (v w : Data) (rest others : List ℕ) → Reads bytes v rest
        → Reads bytes w others → (v ≡ w) × (rest ≡ others) }
    ensures end { (bytes : List ℕ) (v : Data) (rest : List ℕ) → Reads bytes v rest
        → (front : List ℕ) × (bytes ≡ front ++ rest) × (0 < length front) }
    ensures or_none { (bytes : List ℕ)
        → ((v : Data) × (rest : List ℕ) × Reads bytes v rest)
        ⊎ (IsProperPrefix bytes ⊎ IsMalformed bytes) }
    ensures one_within { (limits : Limits) (bytes : List ℕ) (v w : Data) (rest others : List ℕ)
        → ReadsWithin limits bytes v rest → ReadsWithin limits bytes w others
        → (v ≡ w) × (rest ≡ others) }
    ensures end_within { (limits : Limits) (bytes : List ℕ) (v : Data) (rest : List ℕ)
        → AreAllowed limits → ReadsWithin limits bytes v rest
        → (front : List ℕ) × (bytes ≡ front ++ rest) × (0 < length front) }
    ensures or_none_within { (limits : Limits) (bytes : List ℕ) → AreAllowed limits
        → ((v : Data) × (rest : List ℕ) × ReadsWithin limits bytes v rest)
        ⊎ (IsProperPrefixWithin limits bytes ⊎ IsMalformedWithin limits bytes) }
{}

/// Does nothing. Its contract: a value that was read stays read whatever follows, and a text that can begin none still
/// can't; within the default limits of a reader, and within any that are allowed.
pub fn more_bytes_change_no_value()
    ensures value { (bytes more : List ℕ) (v : Data) (rest : List ℕ) → Reads bytes v rest
        → Reads (bytes ++ more) v (rest ++ more) }
    ensures malformed { (bytes more : List ℕ) → IsMalformed bytes → IsMalformed (bytes ++ more) }
    ensures value_within { (limits : Limits) (bytes more : List ℕ) (v : Data) (rest : List ℕ)
        → AreAllowed limits → ReadsWithin limits bytes v rest
        → ReadsWithin limits (bytes ++ more) v (rest ++ more) }
    ensures malformed_within { (limits : Limits) (bytes more : List ℕ)
        → IsMalformedWithin limits bytes → IsMalformedWithin limits (bytes ++ more) }
{}

/// Does nothing. Its contract: a value that a reader finds within its limits has no more bytes than these limits let the
/// longest one have, and neither has a text of which it wants more: so that much is the most that it holds of a value
/// that is not whole.
pub fn limits_bound_a_value()
    ensures value { (limits : Limits) (bytes : List ℕ) (v : Data) (rest : List ℕ)
        → AreAllowed limits → ReadsWithin limits bytes v rest
        → length bytes ≤ length rest + longest_value limits limits.depth }
    ensures underway { (limits : Limits) (bytes : List ℕ) → AreAllowed limits
        → IsProperPrefixWithin limits bytes → length bytes ≤ longest_value limits limits.depth }
{}

/// Does nothing. Its contract: however a text is cut into pieces, the values read from it are those of the whole.
pub fn a_cut_changes_no_value()
    ensures { (pieces : List (List ℕ)) → piecewise [] pieces ≡ values (joined pieces) }
{}
