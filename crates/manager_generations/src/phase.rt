use redis_error::RedisError;

/// How far a manager's current generation has come.
#[derive(Drop)]
pub enum Phase {
    /// None has begun.
    Idle,
    /// The link of its attempt is connected or set up.
    Opening,
    /// An attempt has failed, and the timer of the wait behind it hasn't fired.
    Resting,
    /// Its link is set up, and what was subscribed is subscribed again.
    Resubscribing,
    /// Its link takes requests.
    Ready,
    /// Its link took requests, or could have, and has ended.
    Lost,
    /// Each request is answered with this error: that of its last attempt, or, behind a shutdown, the closed connection.
    Failed { error: RedisError },
}

impl Phase {
    ghost use Rattle.std.specs.Prelude.{◌≡◌};
    ghost use Rattle.manager_generations.specs.Phases.{is_idle, is_opening, is_resting, is_resubscribing};
    ghost use Rattle.manager_generations.specs.Phases.{is_ready, is_lost, is_failed};

    /// Whether no generation has begun.
    pub fn is_idle(&self) -> bool
        ensures { result ≡ is_idle self.now }
    {
        matches!(self, Phase::Idle)
    }

    /// Whether the link of an attempt is connected or set up.
    pub fn is_opening(&self) -> bool
        ensures { result ≡ is_opening self.now }
    {
        matches!(self, Phase::Opening)
    }

    /// Whether the timer of the wait behind an attempt hasn't fired.
    pub fn is_resting(&self) -> bool
        ensures { result ≡ is_resting self.now }
    {
        matches!(self, Phase::Resting)
    }

    /// Whether what was subscribed is subscribed again.
    pub fn is_resubscribing(&self) -> bool
        ensures { result ≡ is_resubscribing self.now }
    {
        matches!(self, Phase::Resubscribing)
    }

    /// Whether its link takes requests.
    pub fn is_ready(&self) -> bool
        ensures { result ≡ is_ready self.now }
    {
        matches!(self, Phase::Ready)
    }

    /// Whether its link took requests, or could have, and has ended.
    pub fn is_lost(&self) -> bool
        ensures { result ≡ is_lost self.now }
    {
        matches!(self, Phase::Lost)
    }

    /// Whether each request is answered with an error of its own.
    pub fn is_failed(&self) -> bool
        ensures { result ≡ is_failed self.now }
    {
        matches!(self, Phase::Failed { error: _ })
    }
}
