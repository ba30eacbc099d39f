//! What follows for any trace that can be relied on.
#![tactic(auto)]

ghost use Rattle.std.specs.Prelude.{List};
ghost use Rattle.driver_model.specs.declared.action.Action.{Action};
ghost use Rattle.legal_trace.specs.Ledger.{Line, LinkLegal};
ghost use Rattle.legal_laws.specs.Links.{LinksAreLegal, LedgersAreTold, TakesInOrder};
ghost use Rattle.legal_laws.specs.Answers.{AnswersOnce, AnswersAll, AnswersOver, RefusesUnspoken};
ghost use Rattle.legal_laws.specs.Answers.{AnswersEach};
ghost use Rattle.legal_laws.specs.Next.{OneIsNextBehind};
ghost use Rattle.legal_laws.specs.Creation.{TellsOfOpening};
ghost use Rattle.legal_laws.specs.Starts.{StartsRise, LeftStartNoMore};
ghost use Rattle.legal_laws.specs.Places.{StartsByPlace};
ghost use Rattle.legal_laws.specs.Opened.{StartsOpened};
ghost use Rattle.legal_laws.specs.Sources.{StartsNoneLacking};
ghost use Rattle.legal_laws.specs.Renewals.{TellsInTurn};
ghost use Rattle.legal_laws.specs.Laws.{OfEachLegal, LinksTakeInOrder, OneIsLegal, TurnsAreInOrder};
ghost use Rattle.legal_laws.specs.Permits.{TimedOutStartNoMore, FiredStartNoMore};
ghost use Rattle.legal_laws.specs.Notices.{TellsInOrder};
ghost use Rattle.legal_laws.specs.Laws.{EachStaysWithin, EachKeepsPermits, EachAsksTimers};
ghost use Rattle.legal_laws.specs.Laws.{EachTellsNotices, EachTellsEnds, EachStartsAuthorized};
ghost use Rattle.legal_laws.specs.Laws.{EachTellsMessages, EachTellsReports, EachEndsDropped};
ghost use Rattle.legal_laws.specs.Values.{ConfirmationsAreNone};
ghost use Rattle.legal_laws.specs.Laws.{EachTimesRenewals, EachWaitsTruly};
ghost use Rattle.legal_laws.specs.Generations.{ComesBack};
ghost use Rattle.legal_laws.specs.Rounds.{KeepsRounds};
ghost use Rattle.legal_laws.specs.Resubscription.{SubscribesAsItWas};
ghost use Rattle.legal_laws.specs.Late.{LateIsNothing};
ghost use Rattle.legal_laws.specs.Counts.{GivesFewBehind, HasNumbersLeft, NoneRunsOut};

/// Does nothing. Its contract: what a legal trace tells of each link is legal by itself. What the
/// book of any trace has of a link is what these lines come to.
pub fn every_link_is_legal()
    ensures legal { OfEachLegal LinksAreLegal }
    ensures told { (trace : List Action) → LedgersAreTold trace }
{}

/// Does nothing. Its contract: the bytes that a link took and is offered are the first bytes of its
/// started messages, one after another. So it is for whatever can be relied on that is told of a
/// link, and for each link of a legal trace.
pub fn bytes_are_a_front_of_the_messages()
    ensures alone { (lines : List Line) → LinkLegal lines → TakesInOrder lines }
    ensures within { OfEachLegal LinksTakeInOrder }
{}

/// Does nothing. Its contract: in a legal trace no submission has a second outcome.
pub fn a_legal_trace_answers_once()
    ensures { OfEachLegal AnswersOnce }
{}

/// Does nothing. Its contract: after a shutdown each submission of a legal trace that was not
/// cancelled has one outcome.
pub fn after_a_shutdown_all_are_answered()
    ensures { OfEachLegal AnswersAll }
{}

/// Does nothing. Its contract, of a legal trace: where no event cancels a submission and one is a shutdown, each submission that
/// the events hand in has exactly one outcome.
pub fn where_nobody_cancels_each_is_answered()
    ensures { AnswersEach }
{}

/// Does nothing. Its contract: in a legal trace each submission that was not cancelled has one
/// outcome, once its link has ended, whatever ended it.
pub fn after_an_end_all_are_answered()
    ensures { OfEachLegal AnswersOver }
{}

/// Does nothing. Its contract: in a legal trace a subscription call that came before any shutdown,
/// to a multiplexed connection whose server is told another protocol than RESP3, is answered with
/// that error alone.
pub fn subscription_calls_need_resp3()
    ensures { OfEachLegal RefusesUnspoken }
{}

/// Does nothing. Its contract: behind actions that may stand, at most one action may stand next,
/// but for the cause of a turn.
pub fn one_action_may_stand()
    ensures { (front : List Action) → OneIsNextBehind front }
{}

/// Does nothing. Its contract: a configuration, a word and events have at most one legal trace.
pub fn two_legal_traces_are_equal()
    ensures { OneIsLegal }
{}

/// Does nothing. Its contract: in a legal trace the actions of each turn stand segment by segment.
pub fn a_turn_has_five_segments()
    ensures { TurnsAreInOrder }
{}

/// Does nothing. Its contract: a legal trace shows the creation at most once. It shows an error only
/// where the opening of the last link failed with it, and where the session doesn't come back it shows
/// that of each link whose opening failed. With this error alone, and there behind the creation, each
/// submission of that link is answered that has bytes and no message, came before any shutdown and
/// doesn't need RESP3 where that isn't spoken; and none of these is left open.
pub fn a_failed_opening_is_told()
    ensures { OfEachLegal TellsOfOpening }
{}

/// Does nothing. Its contract: in a legal trace no message of a submission starts on a link before
/// the link is set up, which is once the replies to its setup are there and are well, where anything
/// is to be said to the server; and by then the creation is shown, once, and without an error.
pub fn nothing_starts_before_the_setup()
    ensures { OfEachLegal StartsOpened }
{}

/// Does nothing. Its contract: in a legal trace nothing starts on a link whose setup waits for
/// credentials. Where the configuration wants them of a source, a message starts on a link, of its
/// setup or of a submission, only behind an event that gave credentials of a source that was asked
/// for this link before; and they are the user name and the password that are said to its server.
pub fn no_setup_starts_before_its_credentials()
    ensures lacking { OfEachLegal StartsNoneLacking }
    ensures authorized { EachStartsAuthorized }
{}

/// Does nothing. Its contract: in a legal trace each AUTH that starts on a link carries the next of
/// the credentials that came of the link's second source, in their order, each once. It starts on a
/// link that is set up, once all AUTHs before it there were answered without an error; so no two of
/// them are unanswered at once.
pub fn new_credentials_are_told_in_turn()
    ensures { OfEachLegal TellsInTurn }
{}

/// Does nothing. Its contract: in a legal trace a message, of a submission, of a setup, of MONITOR or
/// of new credentials, starts only where no bytes of its link are unwritten, or fewer than the boundary of
/// the configuration. Where that of a submission starts, and where a submission is answered without
/// an error before it has a message, fewer submissions stand in line before it than the queue holds.
pub fn no_message_starts_past_the_boundary()
    ensures { EachStaysWithin }
{}

/// Does nothing. Its contract: in a legal trace the messages of each link start in the order of the
/// numbers of their submissions.
pub fn starts_follow_the_submissions()
    ensures { OfEachLegal StartsRise }
{}

/// Does nothing. Its contract: in a legal trace the messages of each link, of submissions and of new
/// credentials, start in the order of their places. A submission takes its place in the turn in which
/// it is shown to wait for room, or is answered without a message, or else starts, and new
/// credentials take theirs in the turn in which they become due; within a turn these come first, and
/// then the submissions by their numbers.
pub fn starts_follow_the_places()
    ensures { OfEachLegal StartsByPlace }
{}

/// Does nothing. Its contract: in a legal trace no message of a submission starts behind an outcome
/// of it that is an error, among them the one that its time is over, nor once its caller went, or
/// its timer fired, while it was open.
pub fn whoever_left_never_starts()
    ensures left { OfEachLegal LeftStartNoMore }
    ensures timed_out { OfEachLegal TimedOutStartNoMore }
    ensures fired { OfEachLegal FiredStartNoMore }
{}

/// Does nothing. Its contract: behind each front of a legal trace all submissions together hold no
/// more permits of a link than the configuration has; and where it doesn't count them, none is
/// taken.
pub fn permits_never_exceed_the_limit()
    ensures { EachKeepsPermits }
{}

/// Does nothing. Its contract: each wait that a legal trace shows is true there; and as the turn of
/// each event begins, and behind the last one, each open submission whose message has not started is
/// in the wait that was shown for it last, which is true then. Who waits for the connect has a link
/// whose connect was asked for and is neither answered nor closed; for credentials, one that is up,
/// whose first source was asked for and gave none; for the setup or the resubscription, one that is up,
/// where that isn't answered, or can't start; for the next attempt, a timer that has not fired. Who
/// waits for a permit finds as many held as the configuration has; for a place, as many before it in
/// the queue as that holds, on a link that is held back; for room, its link held back. A link is held
/// back where as many bytes of its messages as the boundary, and at least one, were not taken.
pub fn each_wait_is_true()
    ensures { EachWaitsTruly }
{}

/// Does nothing. Its contract: in a legal trace the timer of a submission is asked for once at
/// most, with the milliseconds that were in force where it was handed in, and once it holds its
/// permits, where they are counted. Timers for new credentials of a link are asked for one after
/// another, one for each, within the time of the configuration; where it has one, each AUTH starts
/// behind its own.
pub fn a_timer_is_asked_once()
    ensures of_submissions { EachAsksTimers }
    ensures of_renewals { EachTimesRenewals }
{}

/// Does nothing. Its contract: a legal trace tells no push, no message of publish/subscribe and no
/// report of a monitor where nobody hears such. Where somebody does, behind each whole turn it has
/// told of each link what came on it once it was set up, in order, each once. It stands behind the
/// outcomes of the messages that were full before it came, where their items gave them, and before
/// the outcomes of those that take an item behind it.
pub fn each_notice_is_told()
    ensures told { EachTellsNotices }
    ensures in_order { OfEachLegal TellsInOrder }
{}

/// Does nothing. Its contract: behind each whole turn a legal trace has told of each link what the
/// values say that came on it once it was set up, in their order, and nothing else. Where messages
/// of publish/subscribe are heard, that is each value that is a message: no such value is dealt to
/// a request, and no confirmation is one.
pub fn a_message_is_told_where_it_came()
    ensures told { EachTellsMessages }
    ensures unconfirmed { ConfirmationsAreNone }
{}

/// Does nothing. Its contract: where messages are heard, in a legal trace each link that was asked for
/// has ended behind the turn in which their stream is dropped.
pub fn a_dropped_stream_ends_its_link()
    ensures { EachEndsDropped }
{}

/// Does nothing. Its contract: in a legal trace MONITOR starts only where the session is a monitor,
/// once what is said before the first request is answered well, and once on a link. This link is set
/// up once MONITOR is answered, which is the last item that is dealt on it; behind each whole turn the
/// trace has told each later item, in order. Nothing is submitted to such a session.
pub fn a_monitor_tells_all_behind_its_answer()
    ensures { EachTellsReports }
{}

/// Does nothing. Its contract: a legal trace tells at most once that a link has ended, and only
/// where a fault ended it once it was set up: behind its close, and before the outcomes that this
/// end gives. Where somebody hears pushes it tells that of each such link.
pub fn an_end_is_told_once()
    ensures { EachTellsEnds }
{}

/// Does nothing. Its contract: in a legal trace a generation begins only where the session comes back,
/// nothing was shut down and the creation didn't fail, with the next number; and where there was one
/// before, only once there is a cause in this turn, its link has ended and all its submissions are
/// answered. Its first link is asked for next. Behind each whole turn none is to begin. One link is
/// current at a time: each other one has ended, and open submissions go to it and are of its
/// generation. A generation tries once, and as many times more as the configuration says; between, it
/// waits as long as that and the word of the turn say.
pub fn a_generation_begins_by_its_causes()
    ensures { OfEachLegal ComesBack }
{}

/// Does nothing. Its contract: in a legal trace a round begins only where the session comes back, for
/// a submission that is open and had none since it goes to its link. It begins on that link, which is
/// the current one and takes requests, and the generation that was current where the submission was
/// handed in, or the first, is current then. Where the session comes back, the message of an open
/// submission starts behind its round.
pub fn a_round_begins_on_the_link_of_its_generation()
    ensures { OfEachLegal KeepsRounds }
{}

/// Does nothing. Its contract: in a legal trace what is subscribed is subscribed again only where the
/// session comes back so, on the current link, once that is ready. The message subscribes exactly what
/// is subscribed then, after all calls that were confirmed before, and its link carries those commands.
/// Where it is to be answered within a time, its timer was asked for. It starts once on a link at most;
/// and until it is answered, or given up, no message of a submission starts there.
pub fn what_is_subscribed_is_subscribed_again()
    ensures { OfEachLegal SubscribesAsItWas }
{}

/// Does nothing. Its contract: in a legal trace the turn of an event that came of a link which has
/// ended is announced, and that is all.
pub fn a_link_that_has_ended_shows_nothing()
    ensures { OfEachLegal LateIsNothing }
{}

/// Does nothing. Its contract: behind actions that may stand, the numbers that were given out are
/// bounded by the turns that began. There are no more submissions than turns, two links more at most,
/// and of timers, sources of credentials, messages of a link and its new credentials no more than is
/// said. So none runs out within a billion turns, nor in a legal trace of fewer events.
pub fn numbers_are_bounded_by_turns()
    ensures given { (front : List Action) → GivesFewBehind front }
    ensures left { (front : List Action) → HasNumbersLeft front }
    ensures late { NoneRunsOut }
{}
