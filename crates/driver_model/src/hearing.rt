ghost use Rattle.std.specs.Prelude.{◌≡◌, IfOk};
ghost use Rattle.driver_model.specs.Hearing.{hears_pushes, hears_messages, hears_something};
ghost use Rattle.driver_model.specs.Hearing.{is_watching, felt};

use crate::msg::Msg;
use crate::news::LinkFault;
use crate::push_info::PushInfo;
use resp_value::Value;
use std::alloc::{AllocError, Global};

/// What the user of a link hears, beside the replies to requests.
#[derive(Clone, Copy, PartialEq, Eq)]
pub enum Hearing {
    /// Nothing.
    Nothing,
    /// The pushes that come, on a connection of RESP3.
    Pushes,
    /// The messages of publish/subscribe, on a link for them alone.
    Messages,
    /// The commands that a server works on, which it tells a link in monitor mode.
    Monitor,
}

/// What the user of a link is told, beside the replies to requests.
#[derive(Drop)]
pub enum Notice {
    /// A push came, or tells that the link has ended.
    Push(PushInfo),
    /// A message of publish/subscribe.
    Message(Msg),
    /// What a server in monitor mode tells.
    Monitor(Value),
}

impl Hearing {
    /// Whether pushes are heard.
    pub fn hears_pushes(self) -> bool
        ensures { result ≡ hears_pushes self }
    {
        matches!(self, Hearing::Pushes)
    }

    /// Whether the messages of publish/subscribe are.
    pub fn hears_messages(self) -> bool
        ensures { result ≡ hears_messages self }
    {
        matches!(self, Hearing::Messages)
    }

    /// Whether the server is put into monitor mode.
    pub fn is_watching(self) -> bool
        ensures { result ≡ is_watching self }
    {
        matches!(self, Hearing::Monitor)
    }

    /// Whether anything is heard.
    pub fn hears_something(self) -> bool
        ensures { result ≡ hears_something self }
    {
        !matches!(self, Hearing::Nothing)
    }

    /// What a fault of the link is to its messages: on a link of messages each is the end of the connection.
    pub fn felt(self, fault: LinkFault) -> LinkFault
        ensures { result ≡ felt self fault }
    {
        if self.hears_messages() {
            return LinkFault::Ended;
        }
        fault
    }
}

impl Notice {
    /// An equal value of its own.
    pub fn clone(&self, alloc: Global) -> Result<Notice, AllocError>
        ensures { IfOk result (λ n. n ≡ self.now) }
    {
        match self {
            Notice::Push(info) => Ok(Notice::Push(info.clone(alloc)?)),
            Notice::Message(msg) => Ok(Notice::Message(msg.clone(alloc)?)),
            Notice::Monitor(value) => Ok(Notice::Monitor(value.clone(alloc)?)),
        }
    }
}
