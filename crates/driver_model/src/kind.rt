ghost use Rattle.std.specs.Prelude.{◌≡◌};
ghost use Rattle.driver_model.specs.Kind.{has_timeouts};

/// What a session is.
#[derive(Clone, Copy, PartialEq, Eq)]
pub enum SessionKind {
    /// One multiplexed connection.
    Single,
    /// A multiplexed connection that comes back. A lazy one asks for its first link with its first request.
    Manager { lazy: bool },
    /// One link of publish/subscribe.
    PubSub,
    /// One link in monitor mode.
    Monitor,
}

impl SessionKind {
    /// Whether an event sets the time within which its later requests are to be answered.
    pub fn has_timeouts(self) -> bool
        ensures { result ≡ has_timeouts self }
    {
        matches!(self, SessionKind::Single)
    }
}
