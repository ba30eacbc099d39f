ghost use Rattle.std.specs.Prelude.{◌≡◌, IfOk};

use containers::Bytes;
use std::alloc::{AllocError, Global};
use std::marker::Model;

/// A user name and a password. Contracts see a record of the two texts.
///
/// It has no `Default`, since an empty text is made with the allocator: `new` of two empty texts stands for it.
#[derive(Drop)]
pub struct BasicAuth {
    username: Bytes,
    password: Bytes,
}

impl Model for BasicAuth {
    ghost use Rattle.credentials.specs.Credentials.{Credentials};

    ghost Value = { Credentials };

    ghost view = { λ a. record { username = a.username; password = a.password } };
}

impl BasicAuth {
    /// These credentials. Takes no memory.
    pub fn new(username: Bytes, password: Bytes) -> BasicAuth
        ensures { result ≡ record { username = username; password = password } }
    {
        BasicAuth { username, password }
    }

    /// Who authenticates.
    pub fn username(&self) -> &[u8]
        ensures { result.now ≡ self.now.username }
    {
        self.username.as_slice()
    }

    /// What authenticates.
    pub fn password(&self) -> &[u8]
        ensures { result.now ≡ self.now.password }
    {
        self.password.as_slice()
    }

    /// Another user with the same password.
    pub fn set_username(&mut self, username: Bytes)
        ensures { self.new ≡ record self.old { username = username } }
    {
        self.username = username;
    }

    /// Another password of the same user.
    pub fn set_password(&mut self, password: Bytes)
        ensures { self.new ≡ record self.old { password = password } }
    {
        self.password = password;
    }

    /// An equal value of its own.
    pub fn clone(&self, alloc: Global) -> Result<BasicAuth, AllocError>
        ensures { IfOk result (λ copy. copy ≡ self.now) }
    {
        let username = self.username.clone(alloc)?;
        let password = self.password.clone(alloc)?;
        Ok(BasicAuth { username, password })
    }
}
