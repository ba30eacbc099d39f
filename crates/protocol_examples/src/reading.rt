//! What texts are values, what texts begin none, and up to which lengths and depth.

ghost use Rattle.std.specs.Prelude.{ℕ};
ghost use Rattle.std.specs.List.{All};
ghost use Rattle.resp_read.specs.Reads.{IsProperPrefix, IsMalformed};
ghost use Rattle.protocol_examples.specs.Grammar.{IsValue, lines, scalars, sized_texts, lists, tagged, malformed_lines, malformed_lengths, short_lines, short_lengths, BeginsNone};
ghost use Rattle.protocol_examples.specs.Limits.{wrappings, MayNest, MayHoldNil, MayNotNest, MayNotHoldEmpty, MayNotHoldLess, IsReadToItsEnd, IsTooLong, greatest_lengths, lengths_too_great};

/// Does nothing. Its contract: each of these texts is the value beside it, whatever follows it.
pub fn these_texts_are_values()
    ensures lines { All IsValue lines }
    ensures scalars { All IsValue scalars }
    ensures sized { All IsValue sized_texts }
    ensures lists { All IsValue lists }
    ensures tagged { All IsValue tagged }
{}

/// Does nothing. Its contract: whatever follows these texts, no value begins with them.
pub fn these_texts_are_malformed()
    ensures lines { All IsMalformed malformed_lines }
    ensures lengths { All IsMalformed malformed_lengths }
{}

/// Does nothing. Its contract: these texts are no values yet, and with more bytes they are.
pub fn these_texts_are_not_whole()
    ensures lines { All IsProperPrefix short_lines }
    ensures lengths { All IsProperPrefix short_lengths }
{}

/// Does nothing. Its contract: a byte that is none of the fifteen first bytes begins no value.
pub fn no_other_byte_begins_a_value()
    ensures { (byte : ℕ) → BeginsNone byte }
{}

/// Does nothing. Its contract: a hundred aggregates of a kind may stand in one another, and one more may not; the array
/// that is Nil is no aggregate, and the empty one is; and a size below -1 is none.
pub fn a_hundred_aggregates_nest()
    ensures at_most { All (MayNest 100) wrappings }
    ensures nil_inside { All (MayHoldNil 100) wrappings }
    ensures one_more { All (MayNotNest 101) wrappings }
    ensures empty_inside { All (MayNotHoldEmpty 100) wrappings }
    ensures less_inside { All (MayNotHoldLess 100) wrappings }
{}

/// Does nothing. Its contract: a line has at most 1,048,576 bytes, a text of announced length at most 536,870,912, and
/// an aggregate at most 2,147,483,647 values or pairs.
pub fn lengths_have_limits()
    ensures longest_line { IsReadToItsEnd 1_048_576 }
    ensures longer_line { IsTooLong 1_048_577 }
    ensures announced { All IsProperPrefix greatest_lengths }
    ensures not_announced { All IsMalformed lengths_too_great }
{}
