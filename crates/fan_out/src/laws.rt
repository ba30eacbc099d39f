ghost use Rattle.fan_out.specs.Laws.{AsManyAsKeys, DecidedStays, ElementsStandAtTheirKeys, FirstErrorIsTold, NamesAscend, SumIsTheSum, SumsStandUnderNames, WholeIsDecided};

/// Does nothing. Its contract: once each part has its value or error, the result is told; and what is told stays,
/// whatever parts end later.
pub fn parts_that_end_decide()
    ensures whole { WholeIsDecided }
    ensures stays { DecidedStays }
{}

/// Does nothing. Its contract: where all parts have to succeed, the error that came first is the result.
pub fn the_first_error_is_told()
    ensures { FirstErrorIsTold }
{}

/// Does nothing. Its contract: a sum over integers is their sum, where it has 64 bits.
pub fn a_sum_is_the_sum()
    ensures { SumIsTheSum }
{}

/// Does nothing. Its contract: of several slots each element stands at the place of its key, and there are as many as
/// keys.
pub fn elements_stand_at_their_keys()
    ensures places { ElementsStandAtTheirKeys }
    ensures count { AsManyAsKeys }
{}

/// Does nothing. Its contract: of counts under names, under each name stands the sum of its numbers, and the names stand
/// in byte order.
pub fn counts_are_added_by_names()
    ensures sums { SumsStandUnderNames }
    ensures order { NamesAscend }
{}
