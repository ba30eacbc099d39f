ghost use Rattle.manager_generations.specs.Moves.{ReplacedByACause, StandsWithoutACause, StandsWhenHalted, StaysOver};
ghost use Rattle.manager_generations.specs.Moves.{OverBehindAShutdown, OverBehindAFailedCreation};
ghost use Rattle.manager_generations.specs.Moves.{WaitsByItsAttempt, AttemptsAscend};

/// Does nothing. Its contract: a turn with one of the three causes replaces the current generation by the next one, once, and
/// asks for its first link; without one the generation stands; and where nothing begins any more it stands whatever comes.
pub fn a_generation_is_replaced_by_its_causes_alone()
    ensures replaced { ReplacedByACause }
    ensures stands { StandsWithoutACause }
    ensures halted { StandsWhenHalted }
{}

/// Does nothing. Its contract: behind a shutdown, and behind a failed creation, no link is asked for and nothing is shown of
/// generations, whatever happens.
pub fn nothing_begins_behind_a_shutdown_or_a_failed_creation()
    ensures stays { StaysOver }
    ensures shutdown { OverBehindAShutdown }
    ensures creation { OverBehindAFailedCreation }
{}

/// Does nothing. Its contract: the attempts of a generation are numbered from 0, and the wait behind each of them has the
/// length that its number and the word of the turn say.
pub fn each_wait_goes_by_its_attempt_and_its_word()
    ensures waits { WaitsByItsAttempt }
    ensures ascend { AttemptsAscend }
{}
