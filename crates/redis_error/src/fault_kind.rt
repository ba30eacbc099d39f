ghost use Rattle.std.specs.Prelude.{◌≡◌};
ghost use Rattle.redis_error.specs.Errors.{fault_method, is_drop};
ghost use Rattle.redis_error.specs.Names.{fault_name};

use resp_value::RetryMethod;

/// Why a read, a write or an opening of a link failed.
#[derive(Clone, Copy, Debug, PartialEq, Eq)]
pub enum FaultKind {
    Refused,
    Reset,
    Aborted,
    NotConnected,
    BrokenPipe,
    /// The peer closed the link where more was wanted.
    Eof,
    TimedOut,
    Interrupted,
    Denied,
    Other,
}

impl FaultKind {
    /// Its word in scripts and traces.
    pub fn name(self) -> &'static str
        ensures { result.now ≡ fault_name self }
    {
        match self {
            FaultKind::Refused => "refused",
            FaultKind::Reset => "reset",
            FaultKind::Aborted => "aborted",
            FaultKind::NotConnected => "not-connected",
            FaultKind::BrokenPipe => "broken-pipe",
            FaultKind::Eof => "eof",
            FaultKind::TimedOut => "timed-out",
            FaultKind::Interrupted => "interrupted",
            FaultKind::Denied => "denied",
            FaultKind::Other => "other",
        }
    }

    /// How a request that met it is tried again.
    pub fn retry_method(self) -> RetryMethod
        ensures { result ≡ fault_method self }
    {
        match self {
            FaultKind::Refused => RetryMethod::Reconnect,
            FaultKind::Reset => RetryMethod::Reconnect,
            FaultKind::Aborted => RetryMethod::Reconnect,
            FaultKind::NotConnected => RetryMethod::Reconnect,
            FaultKind::BrokenPipe => RetryMethod::Reconnect,
            FaultKind::Eof => RetryMethod::Reconnect,
            FaultKind::TimedOut => RetryMethod::RetryImmediately,
            FaultKind::Interrupted => RetryMethod::RetryImmediately,
            FaultKind::Denied => RetryMethod::NoRetry,
            FaultKind::Other => RetryMethod::NoRetry,
        }
    }

    /// Whether the peer dropped the link.
    pub fn is_drop(self) -> bool
        ensures { result ≡ is_drop self }
    {
        match self {
            FaultKind::Reset => true,
            FaultKind::BrokenPipe => true,
            FaultKind::Eof => true,
            _ => false,
        }
    }
}
