//! The laws of canonical texts: a value's text is read back as that value.
#![tactic(auto)]

ghost use Rattle.std.specs.Prelude.{◌≡◌, ℕ, ◌^◌, ◌≤◌, ◌<◌, List, [], ◌++◌, length, Some};
ghost use Rattle.std.specs.List.{All};
ghost use Rattle.resp_value.specs.Data.{Data, array, items_of};
ghost use Rattle.resp_read.specs.Grammar.{reader_limits, no_limits, value_within, max_line, max_depth};
ghost use Rattle.resp_read.specs.Limits.{bounds, AreAllowed};
ghost use Rattle.resp_read.specs.Reads.{ReadsWithin, Reads};
ghost use Rattle.resp_read.specs.declared.limits.Limits.{Limits};
ghost use Rattle.resp_write.specs.Canonical.{canonical};
ghost use Rattle.canonical_laws.specs.Readable.{IsValue, HasShortErrors, IsReadable, WasRead, shown_depth};

/// Does nothing. Its contract: whatever follows the canonical text of a readable value, a reader finds that value at the
/// front, and what follows is left, with the default limits and with any that are allowed; and no other value is read back
/// within the default ones.
pub fn a_canonical_text_is_read_back()
    ensures at_depth { (depth : ℕ) (v : Data) (rest : List ℕ) → IsReadable reader_limits depth v
        → value_within reader_limits depth (canonical v ++ rest) ≡ Some (v, rest) }
    ensures reads { (v : Data) (rest : List ℕ) → IsReadable reader_limits max_depth v
        → Reads (canonical v ++ rest) v rest }
    ensures within { (limits : Limits) (v : Data) (rest : List ℕ) → AreAllowed limits
        → IsReadable (bounds limits) limits.depth v
        → ReadsWithin limits (canonical v ++ rest) v rest }
    ensures no_other { (v : Data) (rest left : List ℕ) → Reads (canonical v ++ rest) v left
        → IsReadable reader_limits max_depth v }
{}

/// Does nothing. Its contract: the grammar without limits on lengths, lines and counts reads each value back from its
/// canonical text, whatever follows. The values that a reader gives are among these, whatever their errors, and so are
/// lists of them, shown as arrays. Lengths are numbers of 64 bits, as those in memory are.
pub fn a_canonical_text_is_read_back_without_limits()
    ensures at_depth { (depth : ℕ) (v : Data) (rest : List ℕ) → IsValue no_limits depth v
        → value_within no_limits depth (canonical v ++ rest) ≡ Some (v, rest) }
    ensures read_again { (bytes : List ℕ) (v : Data) (rest more : List ℕ) → Reads bytes v rest
        → value_within no_limits shown_depth (canonical v ++ more) ≡ Some (v, more) }
    ensures listed { (vs : List Data) (more : List ℕ) → length vs < 2 ^ 64 → All WasRead vs
        → value_within no_limits shown_depth (canonical (array (items_of vs)) ++ more)
        ≡ Some (array (items_of vs), more) }
{}

/// Does nothing. Its contract: values that are not the same have not the same canonical text, not even where other bytes
/// follow each; neither those within a reader's limits nor those without.
pub fn different_values_have_different_texts()
    ensures same { (v w : Data) → IsValue reader_limits max_depth v
        → IsValue reader_limits max_depth w → canonical v ≡ canonical w → v ≡ w }
    ensures followed { (v w : Data) (rest others : List ℕ) → IsValue reader_limits max_depth v
        → IsValue reader_limits max_depth w → canonical v ++ rest ≡ canonical w ++ others
        → (v ≡ w) × (rest ≡ others) }
    ensures without_limits { (depth : ℕ) (v w : Data) (rest others : List ℕ)
        → IsValue no_limits depth v → IsValue no_limits depth w
        → canonical v ++ rest ≡ canonical w ++ others → (v ≡ w) × (rest ≡ others) }
{}

/// Does nothing. Its contract: what is read from some text is exactly a value within the limits, and it is readable where
/// none of its errors outgrows a line; so what was read, shown and read again is the same value. A text that is
/// no longer than a line has no such error.
pub fn a_value_that_was_read_is_readable()
    ensures value { (bytes : List ℕ) (v : Data) (rest : List ℕ) → Reads bytes v rest
        → IsValue reader_limits max_depth v }
    ensures from_some_text { (v : Data) → IsValue reader_limits max_depth v
        → (bytes : List ℕ) × Reads bytes v [] }
    ensures readable { (bytes : List ℕ) (v : Data) (rest : List ℕ) → Reads bytes v rest
        → HasShortErrors reader_limits v → IsReadable reader_limits max_depth v }
    ensures read_again { (bytes : List ℕ) (v : Data) (rest more : List ℕ) → Reads bytes v rest
        → HasShortErrors reader_limits v → Reads (canonical v ++ more) v more }
    ensures short_text { (bytes : List ℕ) (v : Data) (rest more : List ℕ) → length bytes ≤ max_line
        → Reads bytes v rest → Reads (canonical v ++ more) v more }
{}
