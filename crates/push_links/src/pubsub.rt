ghost use Rattle.std.specs.Prelude.{◌≡◌, ◌⊎◌, ◌++◌, [], Some, None, true, false, option_copied, OnOk, OnErr};
ghost use Rattle.std.specs.Prelude.{IfOk, IfErr, IsErrOf};
ghost use Rattle.resp_write.specs.declared.subscription.SubscriptionAction.TheVariants as action;
ghost use Rattle.driver_model.specs.News.{told};
ghost use Rattle.driver_model.specs.declared.hearing.Hearing.TheVariants as hearing;
ghost use Rattle.mux_conn.specs.Connection.{uses_up};
ghost use Rattle.mux_conn.specs.Effects.{IsWithin};
ghost use Rattle.mux_conn.specs.declared.errors.ConnectionError.TheVariants as failure;
ghost use Rattle.mux_client.specs.Connection.{attached, outcome_of};
ghost use Rattle.mux_client.specs.Calls.{acts_of, called, cancelled, next_number, stepped, turn_of};
ghost use Rattle.mux_client.specs.Calls.{Leaves, RefusesCall, RefusesSend};
ghost use Rattle.mux_client.specs.Failing.{AnswersItsFailure};
ghost use Rattle.push_links.specs.Links.{others_of_messages, pinged, ping_bytes, with_messages};

use crate::messages::PubSubMessages;
use crate::sink::PubSubSink;
use crate::sorting::sort_messages;
use crate::stream::PubSubStream;
use connection_info::RedisConnectionInfo;
use containers::Names;
use driver_model::{LinkEvent, Outcome};
use mux_client::{ConnectionAct, ConnectionError, Pending, SendError};
use std::alloc::{AllocError, Global};

/// A link of publish/subscribe: its subscription calls and pings, and beside them the stream of its messages. It opens nothing
/// itself: each `step` is told what happened to its link, and shows what is to be done.
#[derive(Drop)]
pub struct PubSub {
    pub sink: PubSubSink,
    pub stream: PubSubStream,
}

impl PubSub {
    /// A link of this number, whose connect isn't answered: whoever makes it asks for the connect. `info` is what is said to the
    /// server first.
    pub fn new(alloc: Global, info: &RedisConnectionInfo, link: u32) -> Result<PubSub, AllocError>
        ensures connection { IfOk result (λ p.
            p.sink.connection ≡ attached info.now link hearing.Messages
            ) }
        ensures stream { IfOk result (λ p. p.stream.held ≡ record { items = []; ended = false }) }
    {
        let sink = PubSubSink::new(alloc, info, link)?;
        let stream = PubSubStream::new(alloc);
        Ok(PubSub { sink, stream })
    }

    /// Subscribes to these channels. The outcome is `Done`, or the server error that came instead. The next step
    /// shows what comes of it.
    pub fn subscribe(&mut self, alloc: Global, names: &Names) -> Result<Pending, SendError>
        ensures sent { OnOk result (
            self.new.sink.connection ≡ called self.old.sink.connection action.Subscribe names.now
            ) }
        ensures number { IfOk result (λ p. p.number ≡ next_number self.old.sink.connection) }
        ensures stream { self.new.stream ≡ self.old.stream }
        ensures err { IfErr result (RefusesCall self.old.sink.connection) }
        ensures left { IfErr result (Leaves self.old.sink.connection self.new.sink.connection) }
        ensures failed { AnswersItsFailure self.old.sink.connection.core.failure result }
    {
        self.sink.subscribe(alloc, names)
    }

    /// Ends the subscriptions to these channels, or to all where none is given. The outcome is `Done`, or the server error that
    /// came instead. The next step shows what comes of it.
    pub fn unsubscribe(&mut self, alloc: Global, names: &Names) -> Result<Pending, SendError>
        ensures sent { OnOk result (
            self.new.sink.connection ≡ called self.old.sink.connection action.Unsubscribe names.now
            ) }
        ensures number { IfOk result (λ p. p.number ≡ next_number self.old.sink.connection) }
        ensures stream { self.new.stream ≡ self.old.stream }
        ensures err { IfErr result (RefusesCall self.old.sink.connection) }
        ensures left { IfErr result (Leaves self.old.sink.connection self.new.sink.connection) }
        ensures failed { AnswersItsFailure self.old.sink.connection.core.failure result }
    {
        self.sink.unsubscribe(alloc, names)
    }

    /// Subscribes to these patterns. The outcome is `Done`, or the server error that came instead. The next step
    /// shows what comes of it.
    pub fn psubscribe(&mut self, alloc: Global, names: &Names) -> Result<Pending, SendError>
        ensures sent { OnOk result (
            self.new.sink.connection ≡ called self.old.sink.connection action.PSubscribe names.now
            ) }
        ensures number { IfOk result (λ p. p.number ≡ next_number self.old.sink.connection) }
        ensures stream { self.new.stream ≡ self.old.stream }
        ensures err { IfErr result (RefusesCall self.old.sink.connection) }
        ensures left { IfErr result (Leaves self.old.sink.connection self.new.sink.connection) }
        ensures failed { AnswersItsFailure self.old.sink.connection.core.failure result }
    {
        self.sink.psubscribe(alloc, names)
    }

    /// Ends the subscriptions to these patterns, or to all where none is given. The outcome is `Done`, or the server error that
    /// came instead. The next step shows what comes of it.
    pub fn punsubscribe(&mut self, alloc: Global, names: &Names) -> Result<Pending, SendError>
        ensures sent { OnOk result (
            self.new.sink.connection ≡ called self.old.sink.connection action.PUnsubscribe names.now
            ) }
        ensures number { IfOk result (λ p. p.number ≡ next_number self.old.sink.connection) }
        ensures stream { self.new.stream ≡ self.old.stream }
        ensures err { IfErr result (RefusesCall self.old.sink.connection) }
        ensures left { IfErr result (Leaves self.old.sink.connection self.new.sink.connection) }
        ensures failed { AnswersItsFailure self.old.sink.connection.core.failure result }
    {
        self.sink.punsubscribe(alloc, names)
    }

    /// PING. The outcome is what the server answers, which `ping_answer` converts. The next step shows what comes of it.
    pub fn ping(&mut self, alloc: Global) -> Result<Pending, SendError>
        ensures sent { OnOk result (
            self.new.sink.connection ≡ pinged self.old.sink.connection None
            ) }
        ensures number { IfOk result (λ p. p.number ≡ next_number self.old.sink.connection) }
        ensures stream { self.new.stream ≡ self.old.stream }
        ensures err { IfErr result (RefusesSend self.old.sink.connection (ping_bytes None)) }
        ensures left { IfErr result (Leaves self.old.sink.connection self.new.sink.connection) }
        ensures failed { AnswersItsFailure self.old.sink.connection.core.failure result }
    {
        self.sink.ping(alloc)
    }

    /// PING with a message, with which the server answers.
    pub fn ping_message(&mut self, alloc: Global, message: &[u8]) -> Result<Pending, SendError>
        ensures sent { OnOk result (
            self.new.sink.connection ≡ pinged self.old.sink.connection (Some message.now)
            ) }
        ensures number { IfOk result (λ p. p.number ≡ next_number self.old.sink.connection) }
        ensures stream { self.new.stream ≡ self.old.stream }
        ensures err { IfErr result
            (RefusesSend self.old.sink.connection (ping_bytes (Some message.now))) }
        ensures left { IfErr result (Leaves self.old.sink.connection self.new.sink.connection) }
        ensures failed { AnswersItsFailure self.old.sink.connection.core.failure result }
    {
        self.sink.ping_message(alloc, message)
    }

    /// One turn of its link: `out` gains what is to be done, and the stream the messages that came, in order, and its end where
    /// the link ends. After an error `out`, the stream and the outcomes are as they were, the link has failed, and each later
    /// call that can fail answers the same.
    pub fn step(
        &mut self,
        alloc: Global,
        event: LinkEvent<'_>,
        out: &mut Vec<ConnectionAct>,
    ) -> Result<(), ConnectionError>
        requires { IsWithin self.old.sink.connection.core.life (told event.news) }
        ensures conn { OnOk result (
            self.new.sink.connection ≡ stepped self.old.sink.connection (told event.entry.news)
            ) }
        ensures acts { OnOk result (
            out.new.items
            ≡ out.old.items
            ++ others_of_messages (acts_of self.old.sink.connection (told event.entry.news))
            ) }
        ensures stream { OnOk result (
            self.new.stream.held
            ≡ with_messages self.old.stream.held
            (acts_of self.old.sink.connection (told event.entry.news))
            ) }
        ensures err { OnErr result (out.new.items ≡ out.old.items) }
        ensures spent { IsErrOf result ConnectionError.Spent
            → (self.old.sink.connection.core.failure ≡ Some ConnectionError.Spent)
            ⊎ (uses_up (turn_of self.old.sink.connection (told event.entry.news)) ≡ true) }
        ensures fails { (e : ConnectionError) → IsErrOf result e
            → self.new.sink.connection.core.failure ≡ Some e }
        ensures failed { (e : ConnectionError) → self.old.sink.connection.core.failure ≡ Some e
            → IsErrOf result e }
        ensures kept { OnErr result (self.new.stream.held ≡ self.old.stream.held) }
        ensures outcomes { OnErr result (
            self.new.sink.connection.outcomes ≡ self.old.sink.connection.outcomes
            ) }
    {
        let mut acts = Vec::new(alloc);
        let answers = match self.sink.step_holding_answers(alloc, event, &mut acts) {
            Ok(answers) => answers,
            Err(error) => return Err(error),
        };
        match sort_messages(acts, &mut self.stream, out) {
            Ok(()) => {
                self.sink.deliver_answers(answers);
                Ok(())
            }
            Err(_) => {
                drop(answers);
                Err(self.sink.refuse_memory())
            }
        }
    }

    /// The outcome of a request: none while it is pending. Takes no memory.
    pub fn poll(&self, request: &Pending) -> Option<&Outcome>
        ensures { option_copied result ≡ outcome_of self.now.sink.connection request.now.number }
    {
        self.sink.poll(request)
    }

    /// The caller of a request has gone. Takes no memory.
    pub fn cancel(&mut self, request: Pending)
        ensures conn { self.new.sink.connection ≡ cancelled self.old.sink.connection request.number }
        ensures stream { self.new.stream ≡ self.old.stream }
    {
        self.sink.cancel(request);
    }

    /// The stream of its messages, lent.
    pub fn on_message(&mut self) -> &mut PubSubStream
        ensures { result.now ≡ self.old.stream }
    {
        &mut self.stream
    }

    /// The stream of its messages, which keeps the link.
    pub fn into_on_message(self) -> PubSubMessages
        ensures { result.pubsub ≡ self }
    {
        PubSubMessages { pubsub: self }
    }

    /// Its calls, and the stream of its messages, each for itself: the caller of the sink's steps hands each message to the
    /// stream, and tells it where the link has closed.
    pub fn split(self) -> (PubSubSink, PubSubStream)
        ensures { result ≡ (self.sink, self.stream) }
    {
        (self.sink, self.stream)
    }
}
