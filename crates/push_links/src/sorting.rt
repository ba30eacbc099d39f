ghost use Rattle.std.specs.Prelude.{◌≡◌, ◌∷◌, ◌++◌, [], List, length, take, OnOk, OnErr};
ghost use Rattle.mux_client.specs.declared.act.ConnectionAct.{ConnectionAct as Act};
ghost use Rattle.push_links.specs.Links.{other_than_message, other_than_told};
ghost use Rattle.push_links.specs.Links.{others_of_messages, others_of_told, with_messages, with_told};

use crate::held::Held;
use crate::stream::PubSubStream;
use containers::Queue;
use mux_client::ConnectionAct;
use resp_value::Value;
use std::alloc::AllocError;

/// One more act is to be done. An error leaves `out` as it was.
fn show(out: &mut Vec<ConnectionAct>, act: ConnectionAct) -> Result<(), AllocError>
    ensures ok { OnOk result (out.new.items ≡ out.old.items ++ act ∷ []) }
    ensures err { OnErr result (out.new.items ≡ out.old.items) }
{
    out.push(act)?;
    Ok(())
}

/// The messages among these acts go to the stream, which ends where they close the link, and the others to `out`. An error leaves
/// both as they were.
pub fn sort_messages(
    acts: Vec<ConnectionAct>,
    stream: &mut PubSubStream,
    out: &mut Vec<ConnectionAct>,
) -> Result<(), AllocError>
    ensures stream { OnOk result (
        stream.new.held ≡ with_messages stream.old.held acts.items
        ) }
    ensures out { OnOk result (out.new.items ≡ out.old.items ++ others_of_messages acts.items) }
    ensures err { OnErr result (out.new.items ≡ out.old.items) }
    ensures kept { OnErr result (stream.new.held ≡ stream.old.held) }
{
    let before = out.len();
    let count = stream.held.len();
    let ended = stream.held.is_ended();
    match sort_each(acts, stream, out) {
        Ok(()) => Ok(()),
        Err(error) => {
            out.truncate(before);
            stream.held.go_back(count, ended);
            Err(error)
        }
    }
}

/// The same, but for an error, after which both may have gained something.
#[tactic(auto, using(crate::proofs::Gains::no_message_more, crate::proofs::Gains::front_on))]
fn sort_each(
    acts: Vec<ConnectionAct>,
    stream: &mut PubSubStream,
    out: &mut Vec<ConnectionAct>,
) -> Result<(), AllocError>
    ensures stream { OnOk result (
        stream.new.held ≡ with_messages stream.old.held acts.items
        ) }
    ensures out { OnOk result (out.new.items ≡ out.old.items ++ others_of_messages acts.items) }
    ensures err { OnErr result (take (length out.old.items) out.new.items ≡ out.old.items) }
    ensures kept { OnErr result (take (length stream.old.held.items) stream.new.held.items ≡ stream.old.held.items) }
{
    let mut rest = Queue::from_vec(acts);
    while let Some(act) = rest.pop_front() {
        sort_message(act, stream, out)?;
    }
    Ok(())
}

/// The stream takes one act where it is a message, and ends where it closes the link; `out` takes what isn't a message. An error
/// leaves `out` as it was.
#[tactic(auto, using(crate::proofs::Gains::message_more, crate::proofs::Gains::messages_closed))]
fn sort_message(
    act: ConnectionAct,
    stream: &mut PubSubStream,
    out: &mut Vec<ConnectionAct>,
) -> Result<(), AllocError>
    ensures stream { OnOk result ((more : List Act) →
        with_messages stream.new.held more ≡ with_messages stream.old.held (act ∷ more)) }
    ensures out { OnOk result (out.new.items ≡ out.old.items ++ other_than_message act) }
    ensures err { OnErr result (out.new.items ≡ out.old.items) }
    ensures gained { OnOk result (take (length stream.old.held.items) stream.new.held.items ≡ stream.old.held.items) }
    ensures kept { OnErr result (stream.new.held.items ≡ stream.old.held.items) }
{
    match act {
        ConnectionAct::Message { msg } => stream.put(msg),
        ConnectionAct::Close => {
            stream.finish();
            show(out, ConnectionAct::Close)
        }
        other => show(out, other),
    }
}

/// What a server in monitor mode tells by these acts is held, and that the link has ended where they close it; the others go to
/// `out`. An error leaves both as they were.
pub fn sort_told(
    acts: Vec<ConnectionAct>,
    held: &mut Held<Value>,
    out: &mut Vec<ConnectionAct>,
) -> Result<(), AllocError>
    ensures held { OnOk result (held.new ≡ with_told held.old acts.items) }
    ensures out { OnOk result (out.new.items ≡ out.old.items ++ others_of_told acts.items) }
    ensures err { OnErr result (out.new.items ≡ out.old.items) }
    ensures kept { OnErr result (held.new ≡ held.old) }
{
    let before = out.len();
    let count = held.len();
    let ended = held.is_ended();
    match sort_told_each(acts, held, out) {
        Ok(()) => Ok(()),
        Err(error) => {
            out.truncate(before);
            held.go_back(count, ended);
            Err(error)
        }
    }
}

/// The same, but for an error, after which both may have gained something.
#[tactic(auto, using(crate::proofs::Gains::nothing_told_more, crate::proofs::Gains::front_on))]
fn sort_told_each(
    acts: Vec<ConnectionAct>,
    held: &mut Held<Value>,
    out: &mut Vec<ConnectionAct>,
) -> Result<(), AllocError>
    ensures held { OnOk result (held.new ≡ with_told held.old acts.items) }
    ensures out { OnOk result (out.new.items ≡ out.old.items ++ others_of_told acts.items) }
    ensures err { OnErr result (take (length out.old.items) out.new.items ≡ out.old.items) }
    ensures kept { OnErr result (take (length held.old.items) held.new.items ≡ held.old.items) }
{
    let mut rest = Queue::from_vec(acts);
    while let Some(act) = rest.pop_front() {
        sort_one_told(act, held, out)?;
    }
    Ok(())
}

/// The same of one act, whose value is held where it tells one.
#[tactic(auto, using(crate::proofs::Gains::told_more, crate::proofs::Gains::told_closed))]
fn sort_one_told(
    act: ConnectionAct,
    held: &mut Held<Value>,
    out: &mut Vec<ConnectionAct>,
) -> Result<(), AllocError>
    ensures held { OnOk result ((more : List Act) →
        with_told held.new more ≡ with_told held.old (act ∷ more)) }
    ensures out { OnOk result (out.new.items ≡ out.old.items ++ other_than_told act) }
    ensures err { OnErr result (out.new.items ≡ out.old.items) }
    ensures gained { OnOk result (take (length held.old.items) held.new.items ≡ held.old.items) }
    ensures kept { OnErr result (held.new.items ≡ held.old.items) }
{
    match act {
        ConnectionAct::Monitor { value } => held.put(value),
        ConnectionAct::Close => {
            held.finish();
            show(out, ConnectionAct::Close)
        }
        other => show(out, other),
    }
}
