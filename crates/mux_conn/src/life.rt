use driver_model::WaitKind;
use link_core::LinkCore;
use redis_error::RedisError;

/// What is said to a server before the first request.
#[derive(Clone, Copy, PartialEq, Eq)]
pub enum Greeting {
    /// The setup, with the user name.
    WithUser,
    /// The setup, without it.
    WithoutUser,
    /// MONITOR, behind the setup.
    Monitor,
}

/// How far a link has come.
#[derive(Drop)]
pub enum Life {
    /// There is none: none was asked for yet, or the opening of the last one failed and another attempt follows.
    Resting,
    /// Its connect isn't answered.
    Dialing,
    /// It is up, and the credentials for its setup have not come.
    Wanting { link: LinkCore },
    /// It is up, and what is said to the server before the first request isn't answered.
    SettingUp { link: LinkCore, greeting: Greeting },
    /// It is up and set up, and takes messages.
    Ready { link: LinkCore },
    /// It takes no more messages: a request gets this error. It is that of its opening where this failed, and else the closed
    /// connection.
    Ended { error: RedisError },
}

impl Life {
    ghost use Rattle.std.specs.Prelude.{◌≡◌};
    ghost use Rattle.mux_conn.specs.Connection.{is_resting, awaits_connect, awaits_credentials, is_setting_up};
    ghost use Rattle.mux_conn.specs.Connection.{is_ready, admits_none_at, has_room_at, is_held_back};
    ghost use Rattle.mux_conn.specs.Connection.{first_queued, last_queued};
    ghost use Rattle.mux_conn.specs.Turn.{early_wait};

    /// Whether there is no link, and none is asked for.
    pub fn is_resting(&self) -> bool
        ensures { result ≡ is_resting self.now }
    {
        match self {
            Life::Resting => true,
            Life::Dialing => false,
            Life::Wanting { link: _ } => false,
            Life::SettingUp {
                link: _,
                greeting: _,
            } => false,
            Life::Ready { link: _ } => false,
            Life::Ended { error: _ } => false,
        }
    }

    /// Whether the connect isn't answered.
    pub fn is_dialing(&self) -> bool
        ensures { result ≡ awaits_connect self.now }
    {
        match self {
            Life::Resting => false,
            Life::Dialing => true,
            Life::Wanting { link: _ } => false,
            Life::SettingUp {
                link: _,
                greeting: _,
            } => false,
            Life::Ready { link: _ } => false,
            Life::Ended { error: _ } => false,
        }
    }

    /// Whether it is up, and the credentials for its setup have not come.
    pub fn is_wanting(&self) -> bool
        ensures { result ≡ awaits_credentials self.now }
    {
        match self {
            Life::Resting => false,
            Life::Dialing => false,
            Life::Wanting { link: _ } => true,
            Life::SettingUp {
                link: _,
                greeting: _,
            } => false,
            Life::Ready { link: _ } => false,
            Life::Ended { error: _ } => false,
        }
    }

    /// Whether it is up, and what is said to the server before the first request isn't answered.
    pub fn is_setting_up(&self) -> bool
        ensures { result ≡ is_setting_up self.now }
    {
        match self {
            Life::Resting => false,
            Life::Dialing => false,
            Life::Wanting { link: _ } => false,
            Life::SettingUp {
                link: _,
                greeting: _,
            } => true,
            Life::Ready { link: _ } => false,
            Life::Ended { error: _ } => false,
        }
    }

    /// Whether it is up and set up.
    pub fn is_ready(&self) -> bool
        ensures { result ≡ is_ready self.now }
    {
        match self {
            Life::Resting => false,
            Life::Dialing => false,
            Life::Wanting { link: _ } => false,
            Life::SettingUp {
                link: _,
                greeting: _,
            } => false,
            Life::Ready { link: _ } => true,
            Life::Ended { error: _ } => false,
        }
    }

    /// Whether no request that waits for the connection, or for a permit of it, can be moved, where `empty` says whether no
    /// permit is free.
    pub fn admits_none(&self, empty: bool) -> bool
        ensures { result ≡ admits_none_at self.now empty }
    {
        match self {
            Life::Resting => true,
            Life::Dialing => true,
            Life::Wanting { link: _ } => true,
            Life::SettingUp {
                link: _,
                greeting: _,
            } => true,
            Life::Ready { link: _ } => empty,
            Life::Ended { error: _ } => false,
        }
    }

    /// Whether it is up, and the queue holds less than its size, where so many messages are counted that are not in it.
    pub fn has_room(&self, in_front: u32) -> bool
        ensures { result ≡ has_room_at self.now in_front }
    {
        match self {
            Life::Resting => false,
            Life::Dialing => false,
            Life::Wanting { link: _ } => false,
            Life::SettingUp {
                link: _,
                greeting: _,
            } => false,
            Life::Ready { link } => !link.is_full_beside(in_front),
            Life::Ended { error: _ } => false,
        }
    }

    /// Whether it is set up, and no message starts on it.
    pub fn is_held_back(&self) -> bool
        ensures { result ≡ is_held_back self.now }
    {
        match self {
            Life::Resting => false,
            Life::Dialing => false,
            Life::Wanting { link: _ } => false,
            Life::SettingUp {
                link: _,
                greeting: _,
            } => false,
            Life::Ready { link } => link.is_held_back(),
            Life::Ended { error: _ } => false,
        }
    }

    /// The request whose message starts next, where it is up and one is in the queue.
    pub fn first_queued(&self) -> Option<u64>
        ensures { result ≡ first_queued self.now }
    {
        match self {
            Life::Resting => None,
            Life::Dialing => None,
            Life::Wanting { link: _ } => None,
            Life::SettingUp {
                link: _,
                greeting: _,
            } => None,
            Life::Ready { link } => link.first_queued(),
            Life::Ended { error: _ } => None,
        }
    }

    /// The request whose message starts last of those in the queue, where it is up and one is in the queue.
    pub fn last_queued(&self) -> Option<u64>
        ensures { result ≡ last_queued self.now }
    {
        match self {
            Life::Resting => None,
            Life::Dialing => None,
            Life::Wanting { link: _ } => None,
            Life::SettingUp {
                link: _,
                greeting: _,
            } => None,
            Life::Ready { link } => link.last_queued(),
            Life::Ended { error: _ } => None,
        }
    }

    /// What a request waits for that waits for its connection, where nothing is subscribed again: the next attempt, the connect, the
    /// credentials for its setup, the setup, or a permit.
    pub fn early_wait(&self) -> WaitKind
        ensures { result ≡ early_wait self.now }
    {
        match self {
            Life::Resting => WaitKind::Backoff,
            Life::Dialing => WaitKind::Connect,
            Life::Wanting { link: _ } => WaitKind::Creds,
            Life::SettingUp {
                link: _,
                greeting: _,
            } => WaitKind::Setup,
            Life::Ready { link: _ } => WaitKind::Permit,
            Life::Ended { error: _ } => WaitKind::Permit,
        }
    }
}
