ghost use Rattle.driver_model.specs.News.{told};
ghost use Rattle.mux_conn.specs.Effects.{IsWithin};

use crate::told::{ENDED, are};
use connection_info::ProtocolVersion;
use connection_tests::servers::{must, said};
use containers::Names;
use driver_model::{LinkEvent, LinkNews, Outcome};
use futures::StreamExt;
use futures::executor::block_on;
use push_links::{ConnectionAct, Msg, Pending, PubSub, PubSubMessages, PubSubSink, PubSubStream};
use resp_value::Value;
use std::alloc::{AllocError, AllocGlobal, Global};
use std::io;
use std::process::Abort;
use std::random::RandomSource;
use std::sync::Wait;
use std::test::Fail;

const SUBSCRIBE: &[u8] = b"*2\r\n$9\r\nSUBSCRIBE\r\n$2\r\nch\r\n";

const CONFIRMED: &[u8] = b"*3\r\n$9\r\nsubscribe\r\n$2\r\nch\r\n:1\r\n";

const MESSAGE: &[u8] = b"*3\r\n$7\r\nmessage\r\n$2\r\nch\r\n$2\r\nhi\r\n";

/// Whether a turn asks for these acts, and tells them.
pub(crate) fn shows(
    alloc: Global,
    pubsub: &mut PubSub,
    news: LinkNews<'_>,
    names: &[&[u8]],
) -> Result<bool, AllocError>
    requires { IsWithin pubsub.old.sink.connection.core.life (told news) }
{
    let mut acts = Vec::new(alloc);
    must(pubsub.step(alloc, LinkEvent { word: 0, news }, &mut acts))?;
    Ok(are(acts.as_slice(), names))
}

/// A link whose connect isn't answered.
pub(crate) fn dialing(alloc: Global) -> Result<PubSub, AllocError> {
    PubSub::new(alloc, &said(ProtocolVersion::RESP2), 0)
}

/// Its connect is answered.
pub(crate) fn connect(
    rt: &impl Abort,
    alloc: Global,
    pubsub: &mut PubSub,
) -> Result<(), AllocError> {
    assert!(rt; shows(alloc, pubsub, LinkNews::Connected, &[b"created"])?);
    Ok(())
}

/// A link that is connected.
fn connected(rt: &impl Abort, alloc: Global) -> Result<PubSub, AllocError> {
    let mut pubsub = dialing(alloc)?;
    match connect(rt, alloc, &mut pubsub) {
        Ok(()) => Ok(pubsub),
        Err(error) => {
            drop(pubsub);
            Err(error)
        }
    }
}

fn subscribe(alloc: Global, pubsub: &mut PubSub) -> Result<Pending, AllocError> {
    let channels = Names::from_slices(alloc, &[b"ch"])?;
    must(pubsub.subscribe(alloc, &channels))
}

fn is_done(outcome: Option<&Outcome>) -> bool {
    matches!(outcome, Some(Outcome::Done))
}

/// A channel is subscribed to.
fn confirm(rt: &impl Abort, alloc: Global, pubsub: &mut PubSub) -> Result<(), AllocError> {
    let request = subscribe(alloc, pubsub)?;
    assert!(rt; shows(alloc, pubsub, LinkNews::Silence, &[b"start", SUBSCRIBE])?);
    let piece = CONFIRMED;
    assert!(rt; shows(alloc, pubsub, LinkNews::Came { piece }, &[b"answered"])?);
    assert!(rt; is_done(pubsub.poll(&request)));
    Ok(())
}

/// A channel is subscribed to, and a message comes.
fn listen(rt: &impl Abort, alloc: Global, pubsub: &mut PubSub) -> Result<(), AllocError> {
    connect(rt, alloc, pubsub)?;
    confirm(rt, alloc, pubsub)?;
    let piece = MESSAGE;
    assert!(rt; shows(alloc, pubsub, LinkNews::Came { piece }, &[])?);
    Ok(())
}

/// Whether a value is this text.
fn is_text(value: &Value, wanted: &[u8]) -> bool {
    match value {
        Value::BulkString(text) => text.as_slice() == wanted,
        _ => false,
    }
}

/// Whether a message is the one that came.
fn is_hi(msg: &Msg) -> bool {
    msg.pattern.is_none() && is_text(&msg.channel, b"ch") && is_text(&msg.payload, b"hi")
}

/// What a stream gave.
#[derive(Clone, Copy, PartialEq, Eq)]
enum Given {
    Hi,
    Other,
    Nothing,
}

fn what_is(msg: &Option<Msg>) -> Given {
    match msg {
        Some(msg) => { if is_hi(msg) { Given::Hi } else { Given::Other } }
        None => Given::Nothing,
    }
}

/// What the stream of a link gives next.
fn next<R: Wait + RandomSource + AllocGlobal>(rt: &R, pubsub: &mut PubSub) -> io::Result<Given> {
    let msg = block_on(rt, pubsub.on_message().next())?;
    let given = what_is(&msg);
    drop(msg);
    Ok(given)
}

/// A link gives the message that came, ends, and gives that.
fn give<R: Wait + RandomSource + AllocGlobal + Abort>(
    rt: &R,
    pubsub: &mut PubSub,
) -> Result<(), Fail> {
    listen(rt, rt.alloc(), pubsub)?;
    assert!(rt; next(rt, pubsub)? == Given::Hi);
    assert!(rt; shows(rt.alloc(), pubsub, ENDED, &[b"close"])?);
    assert!(rt; next(rt, pubsub)? == Given::Nothing);
    Ok(())
}

#[test]
fn a_stream_gives_the_message_and_its_end(rt: HostRuntime) -> Result<(), Fail> {
    let mut pubsub = dialing(rt.alloc())?;
    give(&rt, &mut pubsub)
}

/// The link ends.
fn end(alloc: Global, messages: &mut PubSubMessages) -> Result<(), AllocError> {
    let mut acts = Vec::new(alloc);
    let event = LinkEvent {
        word: 0,
        news: ENDED,
    };
    must(messages.step(alloc, event, &mut acts))
}

/// Whether all that came is the one message.
fn are_hi(all: &[Msg]) -> bool {
    match all {
        [msg] => is_hi(msg),
        _ => false,
    }
}

/// A channel is subscribed to, a message comes, and the link ends.
fn listen_to_end(
    rt: &impl Abort,
    alloc: Global,
    messages: &mut PubSubMessages,
) -> Result<(), AllocError> {
    listen(rt, alloc, &mut messages.pubsub)?;
    end(alloc, messages)
}

/// The messages of a link that listened, and ended.
fn kept(rt: &impl Abort, alloc: Global) -> Result<PubSubMessages, AllocError> {
    let mut messages = dialing(alloc)?.into_on_message();
    match listen_to_end(rt, alloc, &mut messages) {
        Ok(()) => Ok(messages),
        Err(error) => {
            drop(messages);
            Err(error)
        }
    }
}

#[test]
fn messages_that_keep_their_link_are_collected(rt: HostRuntime) -> Result<(), Fail> {
    let messages = kept(&rt, rt.alloc())?;
    let all = block_on(&rt, messages.collect(rt.alloc()))??;
    assert!(rt; are_hi(all.as_slice()));
    Ok(())
}

/// One turn of a sink, whose messages go to the stream that it was split from.
fn turn(
    alloc: Global,
    sink: &mut PubSubSink,
    stream: &mut PubSubStream,
    news: LinkNews<'_>,
) -> Result<(), AllocError>
    requires { IsWithin sink.old.connection.core.life (told news) }
{
    let mut acts = Vec::new(alloc);
    must(sink.step(alloc, LinkEvent { word: 0, news }, &mut acts))?;
    hand_over(acts, stream)
}

/// The stream takes each message, and its end.
fn hand_over(acts: Vec<ConnectionAct>, stream: &mut PubSubStream) -> Result<(), AllocError> {
    for act in acts {
        hand(act, stream)?;
    }
    Ok(())
}

fn hand(act: ConnectionAct, stream: &mut PubSubStream) -> Result<(), AllocError> {
    match act {
        ConnectionAct::Message { msg } => stream.put(msg),
        ConnectionAct::Close => {
            stream.finish();
            Ok(())
        }
        other => {
            drop(other);
            Ok(())
        }
    }
}

/// A message comes over a link, which ends behind it.
fn feed(alloc: Global, sink: &mut PubSubSink, stream: &mut PubSubStream) -> Result<(), AllocError> {
    let piece = MESSAGE;
    turn(alloc, sink, stream, LinkNews::Came { piece })?;
    turn(alloc, sink, stream, ENDED)
}

/// The stream that was split off a link, and was fed.
fn fed(rt: &impl Abort, alloc: Global) -> Result<PubSubStream, AllocError> {
    let (mut sink, mut stream) = connected(rt, alloc)?.split();
    let done = feed(alloc, &mut sink, &mut stream);
    drop(sink);
    match done {
        Ok(()) => Ok(stream),
        Err(error) => {
            drop(stream);
            Err(error)
        }
    }
}

#[test]
fn a_stream_that_was_split_off_is_fed(rt: HostRuntime) -> Result<(), Fail> {
    let stream = fed(&rt, rt.alloc())?;
    let all = block_on(&rt, stream.collect(rt.alloc()))??;
    assert!(rt; are_hi(all.as_slice()));
    Ok(())
}
