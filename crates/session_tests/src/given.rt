ghost use Rattle.std.specs.Prelude.{◌≡◌, IfOk, false};
ghost use Rattle.driver_model.specs.Config.{kind_of};
ghost use Rattle.driver_model.specs.Request.{has_no_form};

use containers::{Bytes, Names};
use driver_model::{Action, AddressWords, Config, ConnectionWords, Event, SessionKind, Submission};
use shared_session::Session;
use std::alloc::{AllocError, Global};

/// GET of a key.
pub fn get(alloc: Global, key: &str) -> Result<Submission, AllocError>
    ensures { IfOk result (λ what. has_no_form SessionKind.Single what ≡ false) }
{
    let args = Names::from_slices(alloc, &[b"GET", key.as_bytes()])?;
    Ok(Submission::Cmd { args })
}

/// A connection whose connect may take any time.
pub fn unbounded() -> ConnectionWords {
    ConnectionWords {
        connect: Some(None),
        ..ConnectionWords::new()
    }
}

/// An address. No library is named.
pub fn address(alloc: Global, url: &[u8]) -> Result<AddressWords, AllocError> {
    let url = Bytes::from_slice(alloc, url)?;
    Ok(AddressWords {
        url,
        lib: Some(false),
    })
}

/// The configuration of a connection to this address that behaves so. No library is named.
pub fn single(alloc: Global, url: &[u8], connection: ConnectionWords) -> Result<Config, AllocError>
    ensures { IfOk result (λ config. kind_of config ≡ SessionKind.Single) }
{
    let address = address(alloc, url)?;
    Ok(Config::Single {
        address,
        connection,
    })
}

/// A session of this configuration.
pub fn open(
    alloc: Global,
    config: Config,
    word: u64,
    actions: &mut Vec<Action>,
) -> Result<Session, AllocError> {
    match Session::new(alloc, config, word, actions) {
        Ok(session) => Ok(session),
        Err(_) => Err(AllocError),
    }
}

/// The session takes an event that is good.
pub fn step(
    alloc: Global,
    session: &mut Session,
    event: Event,
    actions: &mut Vec<Action>,
) -> Result<(), AllocError> {
    match session.step(alloc, event, actions) {
        Ok(()) => Ok(()),
        Err(_) => Err(AllocError),
    }
}

/// What happens to a session.
#[derive(Clone, Copy)]
pub enum Told {
    /// GET of a key, or of nothing where the key is empty.
    Get(&'static str),
    Cancel(u32),
    Connected(u32),
    Wrote(u64),
    Came(&'static str),
    Ended,
    Fired(u32),
    Shutdown,
}

fn nothing(alloc: Global) -> Submission {
    Submission::Cmd {
        args: Names::new(alloc),
    }
}

/// That event, its link the first.
pub fn event(alloc: Global, told: Told) -> Result<Event, AllocError> {
    match told {
        Told::Get("") => Ok(Event::submit(nothing(alloc))),
        Told::Get(key) => Ok(Event::submit(get(alloc, key)?)),
        Told::Cancel(submission) => Ok(Event::cancel(submission)),
        Told::Connected(link) => Ok(Event::connected(link)),
        Told::Wrote(count) => Ok(Event::wrote(0, count)),
        Told::Came(text) => Event::bytes(alloc, 0, text.as_bytes()),
        Told::Ended => Ok(Event::ended(0)),
        Told::Fired(timer) => Ok(Event::fired(timer)),
        Told::Shutdown => Ok(Event::shutdown()),
    }
}
