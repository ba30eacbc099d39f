ghost use Rattle.std.specs.Prelude.{◌≡◌, IfOk, Some, None, codes, bytes_eq, if◌then◌else◌};
ghost use Rattle.resp_value.specs.declared.push_kind.PushKind.TheVariants.{Unsubscribe, PUnsubscribe, SUnsubscribe, Subscribe, PSubscribe, SSubscribe};
ghost use Rattle.resp_value.specs.Kinds.{named_kind, kind_of, kind_text, has_reply};

use containers::Bytes;
use std::alloc::{AllocError, Global};

/// What a push is about. `Disconnection` is made by the driver alone, when a link ends.
#[derive(Drop)]
pub enum PushKind {
    Disconnection,
    Other(Bytes),
    Invalidate,
    Message,
    PMessage,
    SMessage,
    Unsubscribe,
    PUnsubscribe,
    SUnsubscribe,
    Subscribe,
    PSubscribe,
    SSubscribe,
}

impl PushKind {
    /// The kind of this text.
    pub fn of_text(text: Bytes) -> PushKind
        ensures { result ≡ kind_of text }
    {
        match named(text.as_slice()) {
            Some(kind) => kind,
            None => PushKind::Other(text),
        }
    }

    /// The text of the kind.
    pub fn name(&self) -> &[u8]
        ensures { result.now ≡ kind_text self.now }
    {
        match self {
            PushKind::Disconnection => b"disconnection",
            PushKind::Other(text) => text.as_slice(),
            PushKind::Invalidate => b"invalidate",
            PushKind::Message => b"message",
            PushKind::PMessage => b"pmessage",
            PushKind::SMessage => b"smessage",
            PushKind::Unsubscribe => b"unsubscribe",
            PushKind::PUnsubscribe => b"punsubscribe",
            PushKind::SUnsubscribe => b"sunsubscribe",
            PushKind::Subscribe => b"subscribe",
            PushKind::PSubscribe => b"psubscribe",
            PushKind::SSubscribe => b"ssubscribe",
        }
    }

    /// Whether a push of this kind is also a reply.
    pub fn has_reply(&self) -> bool
        ensures { result ≡ has_reply self.now }
    {
        match self {
            PushKind::Subscribe => true,
            PushKind::PSubscribe => true,
            PushKind::SSubscribe => true,
            PushKind::Unsubscribe => true,
            PushKind::PUnsubscribe => true,
            PushKind::SUnsubscribe => true,
            PushKind::Invalidate => false,
            PushKind::Message => false,
            PushKind::PMessage => false,
            PushKind::SMessage => false,
            PushKind::Disconnection => false,
            PushKind::Other(_) => false,
        }
    }

    /// An equal value of its own.
    pub fn clone(&self, alloc: Global) -> Result<PushKind, AllocError>
        ensures { IfOk result (λ k. k ≡ self.now) }
    {
        match self {
            PushKind::Disconnection => Ok(PushKind::Disconnection),
            PushKind::Other(text) => Ok(PushKind::Other(text.clone(alloc)?)),
            PushKind::Invalidate => Ok(PushKind::Invalidate),
            PushKind::Message => Ok(PushKind::Message),
            PushKind::PMessage => Ok(PushKind::PMessage),
            PushKind::SMessage => Ok(PushKind::SMessage),
            PushKind::Unsubscribe => Ok(PushKind::Unsubscribe),
            PushKind::PUnsubscribe => Ok(PushKind::PUnsubscribe),
            PushKind::SUnsubscribe => Ok(PushKind::SUnsubscribe),
            PushKind::Subscribe => Ok(PushKind::Subscribe),
            PushKind::PSubscribe => Ok(PushKind::PSubscribe),
            PushKind::SSubscribe => Ok(PushKind::SSubscribe),
        }
    }
}

/// The kind that has this text for its own.
fn named(text: &[u8]) -> Option<PushKind>
    ensures { result ≡ named_kind text.now }
{
    if text == b"invalidate".as_slice() {
        return Some(PushKind::Invalidate);
    }
    if text == b"message".as_slice() {
        return Some(PushKind::Message);
    }
    if text == b"pmessage".as_slice() {
        return Some(PushKind::PMessage);
    }
    if text == b"smessage".as_slice() {
        return Some(PushKind::SMessage);
    }
    named_confirmation(text)
}

/// The kind of a push that is also a reply, if it has this text for its own.
fn named_confirmation(text: &[u8]) -> Option<PushKind>
    ensures { result ≡
        (if bytes_eq text.now (codes "unsubscribe") then Some Unsubscribe
        else if bytes_eq text.now (codes "punsubscribe") then Some PUnsubscribe
        else if bytes_eq text.now (codes "sunsubscribe") then Some SUnsubscribe
        else if bytes_eq text.now (codes "subscribe") then Some Subscribe
        else if bytes_eq text.now (codes "psubscribe") then Some PSubscribe
        else if bytes_eq text.now (codes "ssubscribe") then Some SSubscribe
        else None) }
{
    if text == b"unsubscribe".as_slice() {
        return Some(PushKind::Unsubscribe);
    }
    if text == b"punsubscribe".as_slice() {
        return Some(PushKind::PUnsubscribe);
    }
    if text == b"sunsubscribe".as_slice() {
        return Some(PushKind::SUnsubscribe);
    }
    if text == b"subscribe".as_slice() {
        return Some(PushKind::Subscribe);
    }
    if text == b"psubscribe".as_slice() {
        return Some(PushKind::PSubscribe);
    }
    if text == b"ssubscribe".as_slice() {
        return Some(PushKind::SSubscribe);
    }
    None
}
