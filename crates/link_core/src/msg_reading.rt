ghost use Rattle.std.specs.Prelude.{◌≡◌, Bool, true, false, Some};
ghost use Rattle.resp_value.specs.Data.{Data};
ghost use Rattle.resp_value.specs.View.{data_of};
ghost use Rattle.driver_model.specs.Hearing.{bulk_text, plain_text, by_channel, by_pattern};
ghost use Rattle.driver_model.specs.Hearing.{message_of, message_named, is_answer_named};
ghost use Rattle.driver_model.specs.Hearing.{as_message, array_taken, message_taken};

use driver_model::Msg;
use resp_value::{PushKind, Value, Values};

/// Whether a value on a link of messages is dealt: where it confirms a subscription call or answers a ping, or is of another
/// form than a message, and some message there takes items, as `awaited` says.
pub fn is_answer(value: &Value, awaited: bool) -> bool
    ensures { result ≡ (message_taken awaited (data_of value.now)).dealt }
{
    match value {
        Value::Array(parts) => is_answer_array(parts),
        Value::Push { kind, parts: _ } => kind.has_reply(),
        _ => awaited,
    }
}

/// Whether an array of these elements confirms a subscription call, or answers a ping.
fn is_answer_array(parts: &Values) -> bool
    ensures { result ≡ (array_taken parts.now).dealt }
{
    match parts.as_slice() {
        [Value::BulkString(name), ..] => is_answer_name(name.as_slice()),
        _ => false,
    }
}

/// Whether an array does whose first element is a bulk string of this text.
fn is_answer_name(name: &[u8]) -> bool
    ensures { result ≡ is_answer_named (Some name.now) }
{
    if name == b"subscribe".as_slice() {
        return true;
    }
    if name == b"psubscribe".as_slice() {
        return true;
    }
    if name == b"unsubscribe".as_slice() {
        return true;
    }
    if name == b"punsubscribe".as_slice() {
        return true;
    }
    name == b"pong".as_slice()
}

/// The message that a value is which isn't dealt, if it is one. Nothing of it is copied.
pub fn into_msg(value: Value) -> Option<Msg>
    ensures { (awaited : Bool)
        → (message_taken awaited (data_of value)).dealt ≡ false
        → as_message result ≡ message_taken awaited (data_of value) }
{
    match value {
        Value::Array(parts) => msg_of_array(parts),
        Value::Push { kind, parts } => msg_of_kind(&kind, parts),
        other => {
            drop(other);
            None
        }
    }
}

/// The message that an array of these elements is, if it is one.
fn msg_of_array(parts: Values) -> Option<Msg>
    ensures { (array_taken parts).dealt ≡ false → as_message result ≡ array_taken parts }
{
    let mut parts = parts;
    let Some(name) = parts.pop_front() else {
        return None;
    };
    msg_named(name, parts)
}

/// The message of the kind that this name tells, with these parts behind it, if they are one.
fn msg_named(name: Value, parts: Values) -> Option<Msg>
    ensures { result ≡ message_named (plain_text (data_of name)) parts }
{
    match name {
        Value::BulkString(text) => msg_of_kind(&PushKind::of_text(text), parts),
        Value::SimpleString(text) => msg_of_kind(&PushKind::of_text(text), parts),
        other => {
            drop(other);
            None
        }
    }
}

/// The message of that kind that these parts are, if they are one.
fn msg_of_kind(kind: &PushKind, parts: Values) -> Option<Msg>
    ensures { result ≡ message_of kind.now parts }
{
    match kind {
        PushKind::Message => msg_by_channel(parts),
        PushKind::SMessage => msg_by_channel(parts),
        PushKind::PMessage => msg_by_pattern(parts),
        _ => None,
    }
}

/// A message that came by its channel.
fn msg_by_channel(parts: Values) -> Option<Msg>
    ensures { result ≡ by_channel parts }
{
    let mut parts = parts;
    let channel = parts.pop_front()?;
    let Some(payload) = parts.pop_front() else {
        drop(channel);
        return None;
    };
    Some(Msg {
        pattern: None,
        channel,
        payload,
    })
}

/// And one that came by a pattern, which stands before its channel.
fn msg_by_pattern(parts: Values) -> Option<Msg>
    ensures { result ≡ by_pattern parts }
{
    let mut parts = parts;
    let pattern = parts.pop_front()?;
    let Some(channel) = parts.pop_front() else {
        drop(pattern);
        return None;
    };
    let Some(payload) = parts.pop_front() else {
        drop(pattern);
        drop(channel);
        return None;
    };
    Some(Msg {
        pattern: Some(pattern),
        channel,
        payload,
    })
}
