//! The kinds of pushes, and the texts by which values are shown.

ghost use Rattle.std.specs.Prelude.{ℕ, List};
ghost use Rattle.resp_value.specs.Kinds.{kind_of, has_reply};
ghost use Rattle.resp_write.specs.Canonical.{canonical, kind_text};
ghost use Rattle.protocol_examples.specs.Tables.{Gives};
ghost use Rattle.protocol_examples.specs.Pushes.{kinds_of_texts, IsOther, other_kinds, replies_of_kinds};
ghost use Rattle.protocol_examples.specs.Canonical.{texts_of_scalars, texts_of_aggregates, texts_of_kinds};

/// Does nothing. Its contract: the kinds of pushes, by their texts, and which of them are replies.
pub fn pushes_have_these_kinds()
    ensures kinds { Gives kind_of kinds_of_texts }
    ensures others { (text : List ℕ) → IsOther text }
    ensures some_others { Gives kind_of other_kinds }
    ensures replies { Gives has_reply replies_of_kinds }
{}

/// Does nothing. Its contract: the texts by which these values are shown.
pub fn values_have_these_texts()
    ensures scalars { Gives canonical texts_of_scalars }
    ensures aggregates { Gives canonical texts_of_aggregates }
    ensures kinds { Gives kind_text texts_of_kinds }
{}
