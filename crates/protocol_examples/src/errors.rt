//! What errors are about, in which words they are told, and where they lead.

ghost use Rattle.std.specs.Prelude.{ℕ, List};
ghost use Rattle.std.specs.List.{All};
ghost use Rattle.resp_value.specs.ErrorTable.{needs_new_link};
ghost use Rattle.resp_value.specs.Redirect.{LeadsNowhere};
ghost use Rattle.redis_error.specs.Names.{config_name, fault_name};
ghost use Rattle.protocol_examples.specs.Tables.{Gives};
ghost use Rattle.protocol_examples.specs.Errors.{told_by_code, codes_of_errors, TellsNothing, other_codes, told_by_error, errors_of_the_driver, faults, told_of_links, ends_of_links, unrecoverable_methods, line_of_error, errors_in_words, names_of_faults, names_of_settings, IsLead, leads, strays};

/// Does nothing. Its contract: what these errors are about, and how their requests are tried again: of a server by their
/// codes, of the driver, and of a link.
pub fn errors_tell_how_to_go_on()
    ensures codes { Gives told_by_code codes_of_errors }
    ensures others { (code : List ℕ) → TellsNothing code }
    ensures some_others { Gives told_by_code other_codes }
    ensures driver { Gives told_by_error errors_of_the_driver }
    ensures faults { Gives told_by_error faults }
    ensures ends { Gives told_of_links ends_of_links }
    ensures unrecoverable { Gives needs_new_link unrecoverable_methods }
{}

/// Does nothing. Its contract: the lines in which a trace tells these errors.
pub fn errors_have_these_words()
    ensures { Gives line_of_error errors_in_words }
{}

/// Does nothing. Its contract: the names of faults, and of what is refused of a configuration.
pub fn faults_have_these_names()
    ensures faults { Gives fault_name names_of_faults }
    ensures settings { Gives config_name names_of_settings }
{}

/// Does nothing. Its contract: where these errors lead, and that others lead nowhere.
pub fn redirects_lead_there()
    ensures leads { All IsLead leads }
    ensures strays { All LeadsNowhere strays }
{}
