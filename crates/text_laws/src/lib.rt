//! The laws of a trace's text: it tells the history that its trace is of, so that one text has one
//! trace.
#![tactic(auto)]

ghost use Rattle.text_laws.specs.Fits.{AreBytes};
ghost use Rattle.text_laws.specs.Laws.{GoodAreTold, AllWithFormsAreTold};
ghost use Rattle.text_laws.specs.Records.{RecordsAreTold};
ghost use Rattle.text_laws.specs.Laws.{OneTextOfGood, OneTextWithForms, OneTextOfScripts, OneScript};

/// Does nothing. Its contract: the history that a replay is of is read back from the text of its
/// trace, for each history that the types hold, and in which no event is bad; also where an event is
/// bad, if no submission in it is without a form.
pub fn a_text_tells_its_history()
    ensures read_back { GoodAreTold }
    ensures also_of_bad { AllWithFormsAreTold }
{}

/// Does nothing. Its contract: traces of replays that have the same text are equal, of any
/// histories that the types hold, and in which no event is bad; also where an event is bad, if no
/// submission is without a form, and so of any two scripts; and scripts whose traces have the same
/// text are equal.
pub fn one_text_has_one_trace()
    ensures one_trace { OneTextOfGood }
    ensures also_of_bad { OneTextWithForms }
    ensures of_scripts { OneTextOfScripts }
    ensures one_script { OneScript }
{}

/// Does nothing. Its contract: what a slice of bytes has are bytes.
pub fn a_slice_has_bytes(slice: &[u8])
    ensures { AreBytes slice.now }
{}

/// Does nothing. Its contract: the text that a history has as a script is read as that history where
/// it keeps the limits of scripts, and else it is no script, for each history that the types hold,
/// and in which no submission is without a form.
pub fn a_record_tells_its_history()
    ensures { RecordsAreTold }
{}
