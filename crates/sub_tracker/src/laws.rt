ghost use Rattle.sub_tracker.specs.Subscribed.{LastDecides, OthersLeave};
ghost use Rattle.sub_tracker.specs.Pipeline.{OnePipeline};

/// Does nothing. Its contract: a command of the family that gives the name decides whether it is subscribed after it,
/// and any other command leaves that as it was.
pub fn the_last_command_decides()
    ensures last { LastDecides }
    ensures others { OthersLeave }
{}

/// Does nothing. Its contract: only one pipeline subscribes again what is subscribed after these commands.
pub fn one_pipeline_resubscribes()
    ensures { OnePipeline }
{}
