ghost use Rattle.std.specs.Prelude.{All, IfSome, ◌<◌, ◌^◌};
ghost use Rattle.std.specs.Bool.{MatchBool};
ghost use Rattle.text_laws.specs.Fits.{AreBytes, FitsCommands, FitsSubmission, FitsNumber, FitsKind};
ghost use Rattle.text_laws.specs.Fits.{FitsEvent, FitsLimit, FitsAddress, FitsConnection};
ghost use Rattle.text_laws.specs.Fits.{FitsFraction, FitsManager, FitsConfig};
ghost use Rattle.text_laws.specs.Fits.{FitsHistory, HasForm, WithForm, HaveForms};

use containers::{Bytes, Names};
use driver_model::{
    AddressWords, Config, ConnectionWords, Event, EventKind, ManagerWords, SessionKind, Submission,
};
use shared_session::Session;
use text_laws::a_slice_has_bytes;

/// Does nothing. Its contract: a number of 32 bits is below 2^32.
fn number_fits(number: u32)
    ensures { number < 2 ^ 32 }
{}

/// Does nothing. Its contract: a number of 64 bits is below 2^64.
fn large_number_fits(number: u64)
    ensures { number < 2 ^ 64 }
{}

/// Does nothing. Its contract: so is a number of 32 bits that may be left out.
fn optional_number_fits(number: Option<u32>)
    ensures { FitsNumber (2 ^ 32) number }
{
    match number {
        Some(number) => number_fits(number),
        None => {}
    }
}

/// Does nothing. Its contract: so is one of 64 bits.
fn optional_large_number_fits(number: Option<u64>)
    ensures { FitsNumber (2 ^ 64) number }
{
    match number {
        Some(number) => large_number_fits(number),
        None => {}
    }
}

/// Does nothing. Its contract: so is a limit of time that may be left out.
fn limit_fits(limit: Option<Option<u64>>)
    ensures { FitsLimit limit }
{
    match limit {
        Some(number) => optional_large_number_fits(number),
        None => {}
    }
}

/// Does nothing. Its contract: what words have are bytes.
fn words_fit(words: &[Bytes])
    ensures { All AreBytes words.now }
{
    for word in words {
        a_slice_has_bytes(word.as_slice());
    }
}

/// Does nothing. Its contract: so is what the words of commands have.
fn commands_fit(commands: &[Names])
    ensures { FitsCommands commands.now }
{
    for command in commands {
        words_fit(command.as_slice());
    }
}

/// Does nothing. Its contract: so is what a message has, where there is one.
fn message_fits(message: &Option<Bytes>)
    ensures { IfSome message.now AreBytes }
{
    match message {
        Some(message) => a_slice_has_bytes(message.as_slice()),
        None => {}
    }
}

/// Does nothing. Its contract: a submission is one that its type holds.
fn submission_fits(submission: &Submission)
    ensures { FitsSubmission submission.now }
{
    match submission {
        Submission::Cmd { args } => words_fit(args.as_slice()),
        Submission::NoReply { args } => words_fit(args.as_slice()),
        Submission::Pipe { commands } => commands_fit(commands.as_slice()),
        Submission::Multi { commands } => commands_fit(commands.as_slice()),
        Submission::Packed {
            offset,
            count,
            commands,
        } => {
            number_fits(*offset);
            number_fits(*count);
            commands_fit(commands.as_slice())
        }
        Submission::Subscription { action: _, names } => words_fit(names.as_slice()),
        Submission::Ping { message } => message_fits(message),
    }
}

/// Does nothing. Its contract: so is what happened.
fn kind_fits(kind: &EventKind)
    ensures { FitsKind kind.now }
{
    match kind {
        EventKind::Submit { submission } => submission_fits(submission),
        EventKind::Cancel { submission } => number_fits(*submission),
        EventKind::Connected { link } => number_fits(*link),
        EventKind::Refused { link, fault: _ } => number_fits(*link),
        EventKind::Wrote { link, count } => {
            number_fits(*link);
            large_number_fits(*count)
        }
        EventKind::Bytes { link, piece } => {
            number_fits(*link);
            a_slice_has_bytes(piece.as_slice())
        }
        EventKind::Ended { link } => number_fits(*link),
        EventKind::ReadFault { link, fault: _ } => number_fits(*link),
        EventKind::WriteFault { link, fault: _ } => number_fits(*link),
        EventKind::Fired { timer } => number_fits(*timer),
        EventKind::Creds { source, auth } => {
            number_fits(*source);
            a_slice_has_bytes(auth.username());
            a_slice_has_bytes(auth.password())
        }
        EventKind::CredsError { source, text } => {
            number_fits(*source);
            a_slice_has_bytes(text.as_slice())
        }
        EventKind::CredsEnd { source } => number_fits(*source),
        EventKind::Timeout { ms } => optional_large_number_fits(*ms),
        EventKind::DropStream => {}
        EventKind::Shutdown => {}
    }
}

/// Does nothing. Its contract: so is an event.
fn event_fits(event: &Event)
    ensures { FitsEvent event.now }
{
    large_number_fits(event.word);
    kind_fits(&event.kind);
}

/// Does nothing. Its contract: so are the words of an address.
fn address_fits(words: &AddressWords)
    ensures { FitsAddress words.now }
{
    a_slice_has_bytes(words.url.as_slice());
}

/// Does nothing. Its contract: so are those of a connection.
fn connection_fits(words: &ConnectionWords)
    ensures { FitsConnection words.now }
{
    limit_fits(words.connect);
    limit_fits(words.response);
    optional_number_fits(words.limit);
    optional_number_fits(words.buffer);
    optional_large_number_fits(words.boundary);
}

/// Does nothing. Its contract: so are the parts of a fraction that may be left out.
fn fraction_fits(base: Option<(u32, u32)>)
    ensures { IfSome base FitsFraction }
{
    match base {
        Some((numerator, denominator)) => {
            number_fits(numerator);
            number_fits(denominator)
        }
        None => {}
    }
}

/// Does nothing. Its contract: so are the words of how a connection comes back.
fn manager_fits(words: &ManagerWords)
    ensures { FitsManager words.now }
{
    optional_number_fits(words.retries);
    optional_large_number_fits(words.min);
    limit_fits(words.max);
    fraction_fits(words.base);
}

/// Does nothing. Its contract: so is a configuration.
fn config_fits(config: &Config)
    ensures { FitsConfig config.now }
{
    match config {
        Config::Single {
            address,
            connection,
        } => {
            address_fits(address);
            connection_fits(connection)
        }
        Config::Manager {
            lazy: _,
            address,
            connection,
            manager,
        } => {
            address_fits(address);
            connection_fits(connection);
            manager_fits(manager)
        }
        Config::PubSub { address } => address_fits(address),
        Config::Monitor { address } => address_fits(address),
    }
}

/// Does nothing. Its contract: so are events.
fn events_fit(events: &[Event])
    ensures { All FitsEvent events.now }
{
    for event in events {
        event_fits(event);
    }
}

/// Does nothing. Its contract: so is the history of a session.
pub fn history_fits(session: &Session)
    ensures { FitsHistory session.now.config session.now.word session.now.events }
{
    config_fits(session.config());
    large_number_fits(session.word());
    events_fit(session.events());
}

/// Whether what happened has a form in a script of a session of this kind.
fn has_form(session: SessionKind, kind: &EventKind) -> bool
    ensures { MatchBool result (HasForm session kind.now) (HasForm session kind.now → ⊥) }
{
    match kind {
        EventKind::Submit { submission } => !submission.has_no_form(session),
        EventKind::Cancel { submission: _ } => true,
        EventKind::Connected { link: _ } => true,
        EventKind::Refused { link: _, fault: _ } => true,
        EventKind::Wrote { link: _, count: _ } => true,
        EventKind::Bytes { link: _, piece: _ } => true,
        EventKind::Ended { link: _ } => true,
        EventKind::ReadFault { link: _, fault: _ } => true,
        EventKind::WriteFault { link: _, fault: _ } => true,
        EventKind::Fired { timer: _ } => true,
        EventKind::Creds { source: _, auth: _ } => true,
        EventKind::CredsError { source: _, text: _ } => true,
        EventKind::CredsEnd { source: _ } => true,
        EventKind::Timeout { ms: _ } => true,
        EventKind::DropStream => true,
        EventKind::Shutdown => true,
    }
}

/// Whether each event has a form in a script of a session of this kind.
fn all_have_forms(session: SessionKind, events: &[Event]) -> bool
    ensures { MatchBool result
        (All (WithForm session) events.now) (All (WithForm session) events.now → ⊥) }
{
    for event in events {
        if !has_form(session, &event.kind) {
            return false;
        }
    }
    true
}

/// Whether each event has a form in a script of a session of this configuration.
#[tactic(auto, using(crate::proofs::Forms::all_formed))]
pub fn have_forms(config: &Config, events: &[Event]) -> bool
    ensures { MatchBool result
        (HaveForms config.now events.now) (HaveForms config.now events.now → ⊥) }
{
    all_have_forms(config.kind(), events)
}
