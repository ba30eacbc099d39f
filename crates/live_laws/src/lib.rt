//! The laws of live runs.
#![tactic(auto)]

ghost use Rattle.live_laws.specs.Laws.{TakesWhatWasWritten, TakesWhatWasTold, TakesAll, TakesFront};
ghost use Rattle.live_laws.specs.Laws.{DialsInOrder, DialsOnce, DialsTold, ConnectsRise, FullIsExact};
ghost use Rattle.live_laws.specs.Flights.{FlightsReplay, FlightsTakeFront};

/// Does nothing. Its contract: what a link has taken by the trace behind a live run is what it had
/// taken before, and then the bytes that its writes took in the run, in order: by what was done,
/// and by what the world told. Where no event before the run told of bytes that were taken, it is
/// what its writes took; and this, with what the link is still offered behind it, is the front of
/// the messages that were started on it.
pub fn links_took_what_was_written()
    ensures done { TakesWhatWasWritten }
    ensures told { TakesWhatWasTold }
    ensures all { TakesAll }
    ensures front { TakesFront }
{}

/// Does nothing. Its contract: the links that a live run dials are some of those that its session
/// asked to connect, in that order: by what was done, and by what the world told. No link is
/// dialled twice, and the numbers of the connects of any session rise.
pub fn links_are_dialled_in_order()
    ensures done { DialsInOrder }
    ensures told { DialsTold }
    ensures once { DialsOnce }
    ensures rise { ConnectsRise }
{}

/// Does nothing. Its contract: a live run that ends since its history is full holds 9,999,999 events before its shutdown, if it
/// began with no more.
pub fn a_full_run_is_exact()
    ensures { FullIsExact }
{}

/// Does nothing. Its contract, of a live run that callers' lines began: what each link took by its writes, with what it is still
/// offered behind it, is the front of the messages that were started on it; and a replay of the run's history comes to its end.
pub fn runs_of_lines_are_told()
    ensures front { FlightsTakeFront }
    ensures replay { FlightsReplay }
{}
