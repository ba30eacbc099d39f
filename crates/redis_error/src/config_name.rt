ghost use Rattle.std.specs.Prelude.{◌≡◌};
ghost use Rattle.redis_error.specs.Names.{config_name};

/// What of a configuration is refused.
#[derive(Clone, Copy, PartialEq, Eq)]
pub enum ConfigName {
    Url,
    Push,
    Limit,
    Buffer,
    Resub,
    Base,
    Nodes,
    Password,
    User,
    Protocol,
    Database,
    Keys,
    Creds,
    Kind,
}

impl ConfigName {
    /// Its word in traces.
    pub fn name(self) -> &'static str
        ensures { result.now ≡ config_name self }
    {
        match self {
            ConfigName::Url => "url",
            ConfigName::Push => "push",
            ConfigName::Limit => "limit",
            ConfigName::Buffer => "buffer",
            ConfigName::Resub => "resub",
            ConfigName::Base => "base",
            ConfigName::Nodes => "nodes",
            ConfigName::Password => "password",
            ConfigName::User => "user",
            ConfigName::Protocol => "protocol",
            ConfigName::Database => "database",
            ConfigName::Keys => "keys",
            ConfigName::Creds => "creds",
            ConfigName::Kind => "kind",
        }
    }
}
