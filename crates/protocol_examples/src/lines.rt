//! Lines of traces and of scripts.

ghost use Rattle.trace_text.specs.Show.{action_line};
ghost use Rattle.protocol_examples.specs.Tables.{Gives};
ghost use Rattle.protocol_examples.specs.Lines.{lines_of_links, lines_of_waits, lines_of_answers, event_told, lines_of_submissions, lines_of_events};

/// Does nothing. Its contract: the lines in which a trace tells these actions.
pub fn actions_have_these_lines()
    ensures links { Gives action_line lines_of_links }
    ensures waits { Gives action_line lines_of_waits }
    ensures answers { Gives action_line lines_of_answers }
{}

/// Does nothing. Its contract: the events that these lines of a script tell, and that others tell none.
pub fn lines_tell_these_events()
    ensures submissions { Gives event_told lines_of_submissions }
    ensures events { Gives event_told lines_of_events }
{}
