//! The laws of sessions.
#![tactic(auto)]

ghost use Rattle.session_laws.specs.Laws.{ReplaysAreLegal, BadByTheBook, OutcomesByTheBook};
ghost use Rattle.session_laws.specs.Laws.{SpentHasRunOut, RunOutIsSpent, SpentStands};

/// Does nothing. Its contract: the trace of each history without a bad event, in which no step is
/// spent, is legal, where nothing of the configuration is refused.
pub fn every_replay_is_legal()
    ensures { ReplaysAreLegal }
{}

/// Does nothing. Its contract: behind a history without a bad event, in which no step is spent, the
/// bad events are those that the book of its trace says are.
pub fn bad_events_are_those_of_the_book()
    ensures { BadByTheBook }
{}

/// Does nothing. Its contract: what the outcome actions of a replay's trace say of a submission is
/// the last outcome of its story.
pub fn outcomes_are_those_of_the_trace()
    ensures { OutcomesByTheBook }
{}

/// Does nothing. Its contract: behind a history without a bad event, in which no step is spent, the
/// step of a good event is spent exactly where numbers of a sort have run out by the end of its turn. The actions of that turn
/// stand where they may, too.
pub fn a_spent_step_gives_out_the_last_number()
    ensures given { SpentHasRunOut }
    ensures spent { RunOutIsSpent }
    ensures stands { SpentStands }
{}
