ghost use Rattle.cluster_examples.specs.Tables.{Gives};
ghost use Rattle.cluster_examples.specs.Folds.{folded};
ghost use Rattle.cluster_examples.specs.FoldPolicies.{under_all, under_one, under_first, under_special};
ghost use Rattle.cluster_examples.specs.FoldWholes.{under_sum, under_min, under_and, under_arrays, under_slots, under_maps};

/// Does nothing. Its contract: what the results of these parts are together, where it counts which came first, or which
/// part stands first; and where it can't be told yet.
pub fn these_parts_decide()
    ensures all { Gives folded under_all }
    ensures one { Gives folded under_one }
    ensures first { Gives folded under_first }
    ensures special { Gives folded under_special }
{}

/// Does nothing. Its contract: what the values of these parts are together, by each policy that puts them together; and
/// which of them are of another shape.
pub fn these_values_go_together()
    ensures sum { Gives folded under_sum }
    ensures least { Gives folded under_min }
    ensures rows { Gives folded under_and }
    ensures arrays { Gives folded under_arrays }
    ensures slots { Gives folded under_slots }
    ensures maps { Gives folded under_maps }
{}
