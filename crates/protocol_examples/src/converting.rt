//! What values are as values of other types.

ghost use Rattle.std.specs.List.{All};
ghost use Rattle.resp_convert.specs.Types.{IsDone, items_in, pairs_in};
ghost use Rattle.protocol_examples.specs.Tables.{Gives};
ghost use Rattle.protocol_examples.specs.Conversions.{text_in, texts_of_values, error_in, errors_of_values, items_of_values, pairs_of_values, TellsTruth, truths, TellsNone, no_truths, well, IsUnwell, an_error, entries, entries_of_pairs};
ghost use Rattle.resp_value.specs.Data.{error};

/// Does nothing. Its contract: which values are texts, have items, or have keys with values, and which tell a server's error; which
/// are true or false, and that others are neither; that all but an error is well; and that of equal keys the last has the value.
pub fn values_are_these()
    ensures texts { Gives text_in texts_of_values }
    ensures errors { Gives error_in errors_of_values }
    ensures items { Gives items_in items_of_values }
    ensures pairs { Gives pairs_in pairs_of_values }
    ensures truths { All TellsTruth truths }
    ensures no_truths { All TellsNone no_truths }
    ensures well { All IsDone well }
    ensures unwell { IsUnwell (error an_error) }
    ensures entries { Gives entries entries_of_pairs }
{}
