ghost use Rattle.cluster_plan.specs.Laws.{ConnectsEach, EndsWithRows, FailsWhereNone, GivesOnce, GoesOn};
ghost use Rattle.cluster_plan.specs.Laws.{GoesOnWithoutLinks, LastCounts, ReconnectsWhereNone, StaysAsked};
ghost use Rattle.cluster_plan.specs.Laws.{RepairAsksOne, RepairChangesOne, RepairKeepsToAttempts, StaysEnded};

/// Does nothing. Its contract: whatever was answered, a plan has ended, or it gives an ask that has no answer.
pub fn a_plan_ends_or_asks()
    ensures { GoesOn }
{}

/// Does nothing. Its contract: where each ask that was answered had been given at its time, none was answered twice.
pub fn each_ask_is_given_once()
    ensures { GivesOnce }
{}

/// Does nothing. Its contract: a reconnect begins with a connect of each initial address; it fails for want of an
/// initial link exactly where none was connected, with the last failure; and a refresh of an empty map is a reconnect.
pub fn a_reconnect_asks_each_initial_address()
    ensures each { ConnectsEach }
    ensures none { FailsWhereNone }
    ensures last { LastCounts }
    ensures empty { ReconnectsWhereNone }
{}

/// Does nothing. Its contract: a recovery that ends well has the rows that some node told, and a map of their nodes alone.
pub fn a_recovery_ends_with_rows_that_were_told()
    ensures { EndsWithRows }
{}

/// Does nothing. Its contract: what a recovery asks for, it goes on to ask for while other asks are answered.
pub fn what_is_asked_for_stays_so()
    ensures { StaysAsked }
{}

/// Does nothing. Its contract: a recovery that has ended stays as it is.
pub fn what_has_ended_stays_ended()
    ensures { StaysEnded }
{}

/// Does nothing. Its contract: as long as links failed alone, a refresh of a map that isn't empty goes on.
pub fn links_that_failed_end_no_refresh()
    ensures { GoesOnWithoutLinks }
{}

/// Does nothing. Its contract: a repair that hasn't ended asks one thing of its own attempt, makes no more attempts than
/// are set, and changes its own entry alone.
pub fn a_repair_makes_one_attempt_after_another()
    ensures one { RepairAsksOne }
    ensures attempts { RepairKeepsToAttempts }
    ensures entry { RepairChangesOne }
{}
