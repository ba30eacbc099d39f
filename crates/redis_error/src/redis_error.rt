ghost use Rattle.std.specs.Prelude.{◌≡◌, IfOk, MatchOption, None, Some};
ghost use Rattle.resp_value.specs.ErrorTable.{needs_new_link};
ghost use Rattle.redis_error.specs.Errors.{error_kind, error_method, is_dropped, is_io, is_late, server_code, server_detail};
ghost use Rattle.redis_error.specs.Redirected.{IsRedirected, IsNotRedirected};

use crate::config_name::ConfigName;
use crate::error_kind::ErrorKind;
use crate::fault_kind::FaultKind;
use containers::{Bytes, Seq};
use resp_value::{Aborts, Redirection, RetryMethod, ServerError, ServerErrorKind, Value};
use std::alloc::{AllocError, Global};
use std::fmt;
use thiserror::Error;

/// The numbers of routes, counted from 0.
pub type RouteNumbers = Seq<u32>;

/// Why a request has no reply.
#[derive(Drop, Error)]
pub enum RedisError {
    /// The configuration is refused, for what it says of `name`.
    Config { name: ConfigName },
    /// Automatic resubscription was asked for without a push sender.
    Client,
    /// A subscription call on a connection of RESP2.
    Resp3Required,
    /// The request packs to no bytes.
    EmptyCommand,
    /// The link ended before the reply was whole, or had ended before.
    Closed,
    /// The link failed while this request rested on it, or a timer fired first.
    Io { fault: FaultKind },
    /// No initial node could be reached; `last` is the error of the last try.
    CreateFailed { last: Bytes },
    /// The link ended by bytes that begin no value while this request was the oldest one that awaited an item,
    /// or the reply with the slots that it rests on has another shape.
    Parse,
    /// This value isn't of the type that is wanted.
    Convert { value: Value },
    /// No link serves the request.
    NotFound,
    /// The server's own error.
    Server(ServerError),
    /// The server refused commands of a transaction, and so all of it.
    Aborted { errors: Aborts },
    /// The server refused the credentials, or their source ended before there were any.
    AuthFailed { text: Bytes },
    /// The source of credentials gave this error before there were any.
    Credentials { text: Bytes },
    /// Two commands of a pipeline go to these different slots.
    CrossSlot { first: u16, second: u16 },
    /// These routes of the request have no link, while others have one.
    RouteWithoutLink { routes: RouteNumbers },
    /// A transaction had no answer in as many turns as were allowed.
    TurnsSpent { turns: u32 },
}

/// What the error says.
impl fmt::Display for RedisError {
    fn fmt<W: fmt::Write>(&self, f: &mut fmt::Formatter<W>) -> fmt::Result {
        match self {
            RedisError::Client => f.write_str("automatic resubscription needs a push sender"),
            RedisError::Resp3Required => f.write_str("subscriptions need RESP3"),
            RedisError::EmptyCommand => f.write_str("the request has no command"),
            RedisError::Closed => f.write_str("the connection is closed"),
            RedisError::Io { fault } => fmt::Display::fmt(&Fault(*fault), f),
            RedisError::Parse => f.write_str("the reply can not be read"),
            RedisError::NotFound => f.write_str("no link serves the request"),
            RedisError::Server(error) => fmt::Display::fmt(error, f),
            _ => show_refused(f, self),
        }
    }
}

/// A text from outside, behind what it is about.
fn show_text<W: fmt::Write>(f: &mut fmt::Formatter<W>, about: &str, text: &Bytes) -> fmt::Result {
    write!(f, "{about}: {}", text.as_slice().escape_ascii())
}

/// What an error says that names what is refused.
fn show_refused<W: fmt::Write>(f: &mut fmt::Formatter<W>, error: &RedisError) -> fmt::Result {
    match error {
        RedisError::Config { name } => {
            write!(f, "the configuration is refused: {}", name.name())
        }
        RedisError::Convert { value } => write!(f, "the value is of another type: {value:?}"),
        RedisError::Aborted { errors } => {
            write!(f, "the transaction is aborted{}", FirstRefusal(errors))
        }
        _ => show_told(f, error),
    }
}

/// What an error says that gives a text from outside.
fn show_told<W: fmt::Write>(f: &mut fmt::Formatter<W>, error: &RedisError) -> fmt::Result {
    match error {
        RedisError::CreateFailed { last } => show_text(f, "no initial node could be reached", last),
        RedisError::AuthFailed { text } => show_text(f, "authentication failed", text),
        RedisError::Credentials { text } => show_text(f, "there are no credentials", text),
        _ => show_count(f, error),
    }
}

/// What an error says that names numbers, and of another error nothing.
fn show_count<W: fmt::Write>(f: &mut fmt::Formatter<W>, error: &RedisError) -> fmt::Result {
    match error {
        RedisError::CrossSlot { first, second } => {
            write!(f, "the pipeline has the slots {first} and {second}")
        }
        RedisError::RouteWithoutLink { routes } => {
            write!(f, "{} routes have no link", routes.len())
        }
        RedisError::TurnsSpent { turns } => {
            write!(f, "the transaction had no answer in {turns} turns")
        }
        _ => Ok(()),
    }
}

/// The variant's name, and what the error says.
impl fmt::Debug for RedisError {
    fn fmt<W: fmt::Write>(&self, f: &mut fmt::Formatter<W>) -> fmt::Result {
        write!(f, "{}({self})", variant_name(self))
    }
}

/// The name of the error's variant.
fn variant_name(error: &RedisError) -> &'static str {
    match error {
        RedisError::Config { .. } => "Config",
        RedisError::Client => "Client",
        RedisError::Resp3Required => "Resp3Required",
        RedisError::EmptyCommand => "EmptyCommand",
        RedisError::Closed => "Closed",
        RedisError::Io { .. } => "Io",
        RedisError::CreateFailed { .. } => "CreateFailed",
        RedisError::Parse => "Parse",
        RedisError::Convert { .. } => "Convert",
        RedisError::NotFound => "NotFound",
        RedisError::Server(_) => "Server",
        RedisError::Aborted { .. } => "Aborted",
        RedisError::AuthFailed { .. } => "AuthFailed",
        RedisError::Credentials { .. } => "Credentials",
        RedisError::CrossSlot { .. } => "CrossSlot",
        RedisError::RouteWithoutLink { .. } => "RouteWithoutLink",
        RedisError::TurnsSpent { .. } => "TurnsSpent",
    }
}

/// A fault as people see it. A reply that is late is no fault of the link.
#[derive(Clone, Copy)]
struct Fault(FaultKind);

impl fmt::Display for Fault {
    fn fmt<W: fmt::Write>(&self, f: &mut fmt::Formatter<W>) -> fmt::Result {
        match self.0 {
            FaultKind::TimedOut => write!(f, "the reply did not come in time"),
            fault => write!(f, "the link failed: {}", fault.name()),
        }
    }
}

/// The first command that was refused, as people see it, with its place.
#[derive(Clone, Copy)]
struct FirstRefusal<'a>(&'a Aborts);

impl fmt::Display for FirstRefusal<'_> {
    fn fmt<W: fmt::Write>(&self, f: &mut fmt::Formatter<W>) -> fmt::Result {
        match self.0.as_slice().first() {
            Some((position, error)) => write!(f, ": command {position} was refused: {error}"),
            None => Ok(()),
        }
    }
}

impl RedisError {
    /// An equal value of its own.
    pub fn clone(&self, alloc: Global) -> Result<RedisError, AllocError>
        ensures { IfOk result (λ e. e ≡ self.now) }
    {
        match self {
            RedisError::Config { name } => Ok(RedisError::Config { name: *name }),
            RedisError::Client => Ok(RedisError::Client),
            RedisError::Resp3Required => Ok(RedisError::Resp3Required),
            RedisError::EmptyCommand => Ok(RedisError::EmptyCommand),
            RedisError::Closed => Ok(RedisError::Closed),
            RedisError::Io { fault } => Ok(RedisError::Io { fault: *fault }),
            RedisError::CreateFailed { last } => last
                .clone(alloc)
                .map(|last| RedisError::CreateFailed { last }),
            RedisError::Parse => Ok(RedisError::Parse),
            RedisError::Convert { value } => value
                .clone(alloc)
                .map(|value| RedisError::Convert { value }),
            RedisError::NotFound => Ok(RedisError::NotFound),
            RedisError::Server(error) => error.clone(alloc).map(RedisError::Server),
            RedisError::Aborted { errors } => errors
                .clone(alloc)
                .map(|errors| RedisError::Aborted { errors }),
            RedisError::AuthFailed { text } => {
                text.clone(alloc)
                    .map(|text| RedisError::AuthFailed { text })
            }
            RedisError::Credentials { text } => {
                text.clone(alloc)
                    .map(|text| RedisError::Credentials { text })
            }
            RedisError::CrossSlot { first, second } => Ok(RedisError::CrossSlot {
                first: *first,
                second: *second,
            }),
            RedisError::RouteWithoutLink { routes } => routes
                .clone(alloc)
                .map(|routes| RedisError::RouteWithoutLink { routes }),
            RedisError::TurnsSpent { turns } => Ok(RedisError::TurnsSpent { turns: *turns }),
        }
    }

    /// What it is about.
    pub fn kind(&self) -> ErrorKind
        ensures { result ≡ error_kind self.now }
    {
        match self {
            RedisError::Config { .. } => ErrorKind::InvalidClientConfig,
            RedisError::Client => ErrorKind::Client,
            RedisError::Resp3Required => ErrorKind::Resp3Required,
            RedisError::EmptyCommand => ErrorKind::EmptyCommand,
            RedisError::Closed => ErrorKind::Io,
            RedisError::Io { .. } => ErrorKind::Io,
            RedisError::CreateFailed { .. } => ErrorKind::Io,
            RedisError::Parse => ErrorKind::Parse,
            RedisError::Convert { .. } => ErrorKind::UnexpectedReturnType,
            RedisError::NotFound => ErrorKind::ClusterConnectionNotFound,
            RedisError::Server(error) => ErrorKind::Server(error.kind()),
            RedisError::Aborted { .. } => ErrorKind::Server(ServerErrorKind::ExecAbort),
            RedisError::AuthFailed { .. } => ErrorKind::AuthenticationFailed,
            RedisError::Credentials { .. } => ErrorKind::Credentials,
            RedisError::CrossSlot { .. } => ErrorKind::Server(ServerErrorKind::CrossSlot),
            RedisError::RouteWithoutLink { .. } => ErrorKind::RouteWithoutLink,
            RedisError::TurnsSpent { .. } => ErrorKind::TurnsSpent,
        }
    }

    /// How the request is tried again.
    pub fn retry_method(&self) -> RetryMethod
        ensures { result ≡ error_method self.now }
    {
        match self {
            RedisError::Closed => RetryMethod::Reconnect,
            RedisError::Io { fault } => fault.retry_method(),
            RedisError::Parse => RetryMethod::Reconnect,
            RedisError::NotFound => RetryMethod::ReconnectFromInitialConnections,
            RedisError::Server(error) => error.retry_method(),
            RedisError::AuthFailed { .. } => RetryMethod::Reconnect,
            _ => RetryMethod::NoRetry,
        }
    }

    /// Where it leads, if it is a redirect of a server.
    pub fn redirect_node(&self) -> Option<Redirection<'_>>
        ensures { MatchOption result
            (IsNotRedirected self.now)
            (λ r. IsRedirected self.now r.slot r.address.now r.ask) }
    {
        match self {
            RedisError::Server(error) => error.redirect_node(),
            _ => None,
        }
    }

    /// Whether a link failed, or could not be made.
    pub fn is_io_error(&self) -> bool
        ensures { result ≡ is_io self.now }
    {
        matches!(self.kind(), ErrorKind::Io)
    }

    /// Whether the peer or the driver dropped the link.
    pub fn is_connection_dropped(&self) -> bool
        ensures { result ≡ is_dropped self.now }
    {
        match self {
            RedisError::Closed => true,
            RedisError::Io { fault } => fault.is_drop(),
            _ => false,
        }
    }

    /// Whether a link has to be made anew before the request can be tried again.
    pub fn is_unrecoverable_error(&self) -> bool
        ensures { result ≡ needs_new_link (error_method self.now) }
    {
        self.retry_method().is_unrecoverable()
    }

    /// The code of the server's error, where it is one.
    pub fn code(&self) -> Option<&[u8]>
        ensures { MatchOption result
            (server_code self.now ≡ None)
            (λ code. server_code self.now ≡ Some code.now) }
    {
        match self {
            RedisError::Server(error) => Some(error.code.as_slice()),
            _ => None,
        }
    }

    /// What the server's error says behind its code, where it is one and says more.
    pub fn detail(&self) -> Option<&[u8]>
        ensures { MatchOption result
            (server_detail self.now ≡ None)
            (λ detail. server_detail self.now ≡ Some detail.now) }
    {
        match self {
            RedisError::Server(error) => match &error.detail {
                Some(detail) => Some(detail.as_slice()),
                None => None,
            },
            _ => None,
        }
    }

    /// Whether a timer fired before the reply came.
    pub fn is_timeout(&self) -> bool
        ensures { result ≡ is_late self.now }
    {
        matches!(
            self,
            RedisError::Io {
                fault: FaultKind::TimedOut
            }
        )
    }
}
