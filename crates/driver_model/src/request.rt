ghost use Rattle.std.specs.Prelude.{◌≡◌, ◌∷◌, true, false, codes, IfOk};
ghost use Rattle.resp_write.specs.Pack.{pack};
ghost use Rattle.driver_model.specs.Request.{packed_bytes, listed, shape_of, is_reply_awaited};
ghost use Rattle.driver_model.specs.Request.{is_single_nameless, is_sharded, is_formless};
ghost use Rattle.driver_model.specs.Request.{is_foreign, has_no_form, needs_resp3, lacks_resp3};

use crate::event::Submission;
use crate::hearing::Hearing;
use crate::kind::SessionKind;
use crate::outcome::Shape;
use connection_info::ProtocolVersion;
use containers::{Bytes, Names};
use resp_write::{SubscriptionAction, pack_call, pack_lists, pack_names};
use std::alloc::{AllocError, Global};

impl Submission {
    /// The bytes that a server gets of it. Without a name and arguments there are none.
    pub fn packed(&self, alloc: Global) -> Result<Bytes, AllocError>
        ensures { IfOk result (λ bytes. bytes ≡ packed_bytes self.now) }
    {
        match self {
            Submission::Cmd { args } => pack_names(alloc, args),
            Submission::NoReply { args } => pack_names(alloc, args),
            Submission::Pipe { commands } => pack_lists(alloc, false, commands.as_slice()),
            Submission::Multi { commands } => pack_lists(alloc, true, commands.as_slice()),
            Submission::Packed {
                offset: _,
                count: _,
                commands,
            } => pack_lists(alloc, false, commands.as_slice()),
            Submission::Subscription { action, names } => pack_call(alloc, action.word(), names),
            Submission::Ping { message } => pack_ping(alloc, message),
        }
    }

    /// How many items it takes, and what they become.
    pub fn shape(&self) -> Shape
        ensures { result ≡ shape_of self.now }
    {
        match self {
            Submission::Cmd { args: _ } => Shape::Single,
            Submission::NoReply { args: _ } => Shape::Single,
            Submission::Pipe { commands } => Shape::Pipeline {
                offset: 0,
                count: commands.len() as u32,
                transaction: false,
            },
            Submission::Multi { commands } => Shape::Pipeline {
                offset: commands.len() as u32 + 1,
                count: 1,
                transaction: true,
            },
            Submission::Packed {
                offset,
                count,
                commands: _,
            } => Shape::Pipeline {
                offset: *offset,
                count: *count,
                transaction: false,
            },
            Submission::Subscription {
                action: _,
                names: _,
            } => Shape::Confirmation,
            Submission::Ping { message: _ } => Shape::Single,
        }
    }

    /// Whether somebody awaits its reply.
    pub fn awaits_reply(&self) -> bool
        ensures { result ≡ is_reply_awaited self.now }
    {
        match self {
            Submission::NoReply { args: _ } => false,
            Submission::Cmd { args: _ } => true,
            Submission::Pipe { commands: _ } => true,
            Submission::Multi { commands: _ } => true,
            Submission::Packed {
                offset: _,
                count: _,
                commands: _,
            } => true,
            Submission::Subscription {
                action: _,
                names: _,
            } => true,
            Submission::Ping { message: _ } => true,
        }
    }

    /// Whether it is a subscription call, which a server answers on RESP3 alone.
    pub fn needs_resp3(&self) -> bool
        ensures { result ≡ needs_resp3 self.now }
    {
        match self {
            Submission::Cmd { args: _ } => false,
            Submission::NoReply { args: _ } => false,
            Submission::Pipe { commands: _ } => false,
            Submission::Multi { commands: _ } => false,
            Submission::Packed {
                offset: _,
                count: _,
                commands: _,
            } => false,
            Submission::Subscription {
                action: _,
                names: _,
            } => true,
            Submission::Ping { message: _ } => false,
        }
    }

    /// Whether a connection that hears this needs RESP3 for it, where its server is told to speak this protocol, which is another.
    pub fn lacks_resp3(&self, hearing: Hearing, protocol: ProtocolVersion) -> bool
        ensures { result ≡ lacks_resp3 hearing protocol self.now }
    {
        !hearing.hears_messages() && self.needs_resp3() && !protocol.supports_resp3()
    }

    /// Whether it is a list of exactly one command without a name, which has no form of its own in a script, or a call that a
    /// multiplexed connection doesn't have.
    fn is_formless(&self) -> bool
        ensures { result ≡ is_formless self.now }
    {
        match self {
            Submission::Cmd { args: _ } => false,
            Submission::NoReply { args: _ } => false,
            Submission::Pipe { commands } => is_one_nameless(commands.as_slice()),
            Submission::Multi { commands } => is_one_nameless(commands.as_slice()),
            Submission::Packed {
                offset: _,
                count: _,
                commands,
            } => is_one_nameless(commands.as_slice()),
            Submission::Subscription { action, names: _ } => is_sharded(*action),
            Submission::Ping { message: _ } => true,
        }
    }

    /// Whether it is neither a subscription call of a link of publish/subscribe nor its ping.
    fn is_foreign(&self) -> bool
        ensures { result ≡ is_foreign self.now }
    {
        match self {
            Submission::Subscription { action, names: _ } => is_sharded(*action),
            Submission::Ping { message: _ } => false,
            _ => true,
        }
    }

    /// Whether a session of this kind has no submission of this form: one in monitor mode has none at all.
    pub fn has_no_form(&self, kind: SessionKind) -> bool
        ensures { result ≡ has_no_form kind self.now }
    {
        match kind {
            SessionKind::Single => self.is_formless(),
            SessionKind::Manager { lazy: _ } => self.is_formless(),
            SessionKind::PubSub => self.is_foreign(),
            SessionKind::Monitor => true,
        }
    }
}

/// PING, with this message or without one.
fn pack_ping(alloc: Global, message: &Option<Bytes>) -> Result<Bytes, AllocError>
    ensures { IfOk result (λ bytes. bytes ≡ pack (codes "PING" ∷ listed message.now)) }
{
    let mut args = Names::new(alloc);
    if let Some(message) = message {
        args.push(message.clone(alloc)?)?;
    }
    pack_call(alloc, b"PING", &args)
}

/// Whether a call is about sharded channels.
fn is_sharded(action: SubscriptionAction) -> bool
    ensures { result ≡ is_sharded action }
{
    match action {
        SubscriptionAction::Subscribe => false,
        SubscriptionAction::Unsubscribe => false,
        SubscriptionAction::PSubscribe => false,
        SubscriptionAction::PUnsubscribe => false,
        SubscriptionAction::SSubscribe => true,
        SubscriptionAction::Sunsubscribe => true,
    }
}

/// Whether these are one command without a name.
fn is_one_nameless(commands: &[Names]) -> bool
    ensures { result ≡ is_single_nameless commands.now }
{
    match commands {
        [command] => command.is_empty(),
        _ => false,
    }
}
