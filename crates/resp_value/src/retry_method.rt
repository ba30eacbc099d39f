ghost use Rattle.std.specs.Prelude.{◌≡◌};
ghost use Rattle.resp_value.specs.ErrorTable.{needs_new_link};

/// What is done after an error before the request is tried again, if it is.
#[derive(Clone, Copy, PartialEq, Eq)]
pub enum RetryMethod {
    Reconnect,
    NoRetry,
    RetryImmediately,
    WaitAndRetry,
    AskRedirect,
    MovedRedirect,
    ReconnectFromInitialConnections,
    RefreshSlotsAndRetry,
}

impl RetryMethod {
    /// Whether a link has to be made anew.
    pub fn is_unrecoverable(&self) -> bool
        ensures { result ≡ needs_new_link self.now }
    {
        match self {
            RetryMethod::Reconnect => true,
            RetryMethod::ReconnectFromInitialConnections => true,
            _ => false,
        }
    }
}
