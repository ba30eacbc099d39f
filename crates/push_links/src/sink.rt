ghost use Rattle.std.specs.Prelude.{◌≡◌, ◌⊎◌, ◌++◌, Some, None, true, false, option_copied, OnOk, OnErr};
ghost use Rattle.std.specs.Prelude.{IfOk, IfErr, IsErrOf};
ghost use Rattle.resp_write.specs.declared.subscription.SubscriptionAction.TheVariants as action;
ghost use Rattle.driver_model.specs.News.{told};
ghost use Rattle.driver_model.specs.declared.hearing.Hearing.TheVariants as hearing;
ghost use Rattle.mux_conn.specs.Connection.{uses_up};
ghost use Rattle.mux_conn.specs.Effects.{IsWithin};
ghost use Rattle.mux_conn.specs.declared.errors.ConnectionError.TheVariants as failure;
ghost use Rattle.mux_client.specs.Connection.{attached, outcome_of};
ghost use Rattle.mux_client.specs.Calls.{acts_of, called, cancelled, next_number, stepped, turn_of, with_answers};
ghost use Rattle.mux_client.specs.Calls.{Leaves, RefusesCall, RefusesSend};
ghost use Rattle.mux_client.specs.Failing.{AnswersItsFailure};
ghost use Rattle.resp_write.specs.Pack.{pack};
ghost use Rattle.push_links.specs.Links.{pinged, ping_bytes};

use connection_info::RedisConnectionInfo;
use containers::{Names, Seq};
use driver_model::{Hearing, LinkEvent, Outcome};
use mux_client::{
    Answer, ConnectionAct, ConnectionError, MultiplexedConnection, Pending, SendError,
};
use resp_write::{Cmd, cmd};
use std::alloc::{AllocError, Global};

/// The calls of a link of publish/subscribe. Its steps show each message as an act, which is handed to the stream that it was
/// split from.
pub struct PubSubSink {
    pub connection: MultiplexedConnection,
}

impl Drop for PubSubSink {
    fn drop(self) {
        let PubSubSink { connection } = self;
        drop(connection);
    }
}

/// PING, with this message or without one.
fn ping_command(alloc: Global, message: Option<&[u8]>) -> Result<Cmd, AllocError>
    ensures bytes { IfOk result (λ c. pack c.args ≡ ping_bytes (option_copied message.entry)) }
    ensures reply { IfOk result (λ c. c.no_response ≡ false) }
{
    let mut command = cmd(alloc, b"PING")?;
    if let Some(message) = message {
        command.arg(alloc, message)?;
    }
    Ok(command)
}

impl PubSubSink {
    /// The calls of a link of this number, whose connect isn't answered. `info` is what is said to the server first.
    pub(crate) fn new(
        alloc: Global,
        info: &RedisConnectionInfo,
        link: u32,
    ) -> Result<PubSubSink, AllocError>
        ensures { IfOk result (λ s. s.connection ≡ attached info.now link hearing.Messages) }
    {
        let connection = MultiplexedConnection::attach(alloc, info, link, Hearing::Messages)?;
        Ok(PubSubSink { connection })
    }

    /// Subscribes to these channels. The outcome is `Done`, or the server error that came instead. The next step
    /// shows what comes of it.
    pub fn subscribe(&mut self, alloc: Global, names: &Names) -> Result<Pending, SendError>
        ensures sent { OnOk result (
            self.new.connection ≡ called self.old.connection action.Subscribe names.now
            ) }
        ensures number { IfOk result (λ p. p.number ≡ next_number self.old.connection) }
        ensures err { IfErr result (RefusesCall self.old.connection) }
        ensures left { IfErr result (Leaves self.old.connection self.new.connection) }
        ensures failed { AnswersItsFailure self.old.connection.core.failure result }
    {
        self.connection.subscribe(alloc, names)
    }

    /// Ends the subscriptions to these channels, or to all where none is given. The outcome is `Done`, or the server error that
    /// came instead. The next step shows what comes of it.
    pub fn unsubscribe(&mut self, alloc: Global, names: &Names) -> Result<Pending, SendError>
        ensures sent { OnOk result (
            self.new.connection ≡ called self.old.connection action.Unsubscribe names.now
            ) }
        ensures number { IfOk result (λ p. p.number ≡ next_number self.old.connection) }
        ensures err { IfErr result (RefusesCall self.old.connection) }
        ensures left { IfErr result (Leaves self.old.connection self.new.connection) }
        ensures failed { AnswersItsFailure self.old.connection.core.failure result }
    {
        self.connection.unsubscribe(alloc, names)
    }

    /// Subscribes to these patterns. The outcome is `Done`, or the server error that came instead. The next step
    /// shows what comes of it.
    pub fn psubscribe(&mut self, alloc: Global, names: &Names) -> Result<Pending, SendError>
        ensures sent { OnOk result (
            self.new.connection ≡ called self.old.connection action.PSubscribe names.now
            ) }
        ensures number { IfOk result (λ p. p.number ≡ next_number self.old.connection) }
        ensures err { IfErr result (RefusesCall self.old.connection) }
        ensures left { IfErr result (Leaves self.old.connection self.new.connection) }
        ensures failed { AnswersItsFailure self.old.connection.core.failure result }
    {
        self.connection.psubscribe(alloc, names)
    }

    /// Ends the subscriptions to these patterns, or to all where none is given. The outcome is `Done`, or the server error that
    /// came instead. The next step shows what comes of it.
    pub fn punsubscribe(&mut self, alloc: Global, names: &Names) -> Result<Pending, SendError>
        ensures sent { OnOk result (
            self.new.connection ≡ called self.old.connection action.PUnsubscribe names.now
            ) }
        ensures number { IfOk result (λ p. p.number ≡ next_number self.old.connection) }
        ensures err { IfErr result (RefusesCall self.old.connection) }
        ensures left { IfErr result (Leaves self.old.connection self.new.connection) }
        ensures failed { AnswersItsFailure self.old.connection.core.failure result }
    {
        self.connection.punsubscribe(alloc, names)
    }

    /// Sends PING, with this message or without one.
    fn send_ping(&mut self, alloc: Global, message: Option<&[u8]>) -> Result<Pending, SendError>
        ensures sent { OnOk result (
            self.new.connection ≡ pinged self.old.connection (option_copied message.entry)
            ) }
        ensures number { IfOk result (λ p. p.number ≡ next_number self.old.connection) }
        ensures err { IfErr result
            (RefusesSend self.old.connection (ping_bytes (option_copied message.entry))) }
        ensures left { IfErr result (Leaves self.old.connection self.new.connection) }
        ensures failed { AnswersItsFailure self.old.connection.core.failure result }
    {
        match ping_command(alloc, message) {
            Ok(command) => self.connection.send_packed_command(alloc, &command),
            Err(_) => Err(self.connection.refuse_unsent()),
        }
    }

    /// PING. The outcome is what the server answers, which `ping_answer` converts. The next step shows what comes of it.
    pub fn ping(&mut self, alloc: Global) -> Result<Pending, SendError>
        ensures sent { OnOk result (self.new.connection ≡ pinged self.old.connection None) }
        ensures number { IfOk result (λ p. p.number ≡ next_number self.old.connection) }
        ensures err { IfErr result (RefusesSend self.old.connection (ping_bytes None)) }
        ensures left { IfErr result (Leaves self.old.connection self.new.connection) }
        ensures failed { AnswersItsFailure self.old.connection.core.failure result }
    {
        self.send_ping(alloc, None)
    }

    /// PING with a message, with which the server answers.
    pub fn ping_message(&mut self, alloc: Global, message: &[u8]) -> Result<Pending, SendError>
        ensures sent { OnOk result (
            self.new.connection ≡ pinged self.old.connection (Some message.now)
            ) }
        ensures number { IfOk result (λ p. p.number ≡ next_number self.old.connection) }
        ensures err { IfErr result
            (RefusesSend self.old.connection (ping_bytes (Some message.now))) }
        ensures left { IfErr result (Leaves self.old.connection self.new.connection) }
        ensures failed { AnswersItsFailure self.old.connection.core.failure result }
    {
        self.send_ping(alloc, Some(message))
    }

    /// One turn, as `MultiplexedConnection::step`: `out` gains what is to be done, each message as an act `Message`.
    pub fn step(
        &mut self,
        alloc: Global,
        event: LinkEvent<'_>,
        out: &mut Vec<ConnectionAct>,
    ) -> Result<(), ConnectionError>
        requires { IsWithin self.old.connection.core.life (told event.news) }
        ensures conn { OnOk result (
            self.new.connection ≡ stepped self.old.connection (told event.entry.news)
            ) }
        ensures acts { OnOk result (
            out.new.items ≡ out.old.items ++ acts_of self.old.connection (told event.entry.news)
            ) }
        ensures err { OnErr result (out.new.items ≡ out.old.items) }
        ensures spent { IsErrOf result ConnectionError.Spent
            → (self.old.connection.core.failure ≡ Some ConnectionError.Spent)
            ⊎ (uses_up (turn_of self.old.connection (told event.entry.news)) ≡ true) }
        ensures fails { (e : ConnectionError) → IsErrOf result e
            → self.new.connection.core.failure ≡ Some e }
        ensures failed { (e : ConnectionError) → self.old.connection.core.failure ≡ Some e
            → IsErrOf result e }
        ensures kept { OnErr result (self.new.connection.outcomes ≡ self.old.connection.outcomes) }
    {
        self.connection.step(alloc, event, out)
    }

    /// The same, but nobody has the outcomes of the turn before they are handed to `deliver_answers`.
    pub(crate) fn step_holding_answers(
        &mut self,
        alloc: Global,
        event: LinkEvent<'_>,
        out: &mut Vec<ConnectionAct>,
    ) -> Result<Seq<Answer>, ConnectionError>
        requires { IsWithin self.old.connection.core.life (told event.news) }
        ensures conn { IfOk result (λ answers.
            with_answers self.new.connection answers
            ≡ stepped self.old.connection (told event.entry.news)
            ) }
        ensures acts { OnOk result (
            out.new.items ≡ out.old.items ++ acts_of self.old.connection (told event.entry.news)
            ) }
        ensures err { OnErr result (out.new.items ≡ out.old.items) }
        ensures spent { IsErrOf result ConnectionError.Spent
            → (self.old.connection.core.failure ≡ Some ConnectionError.Spent)
            ⊎ (uses_up (turn_of self.old.connection (told event.entry.news)) ≡ true) }
        ensures fails { (e : ConnectionError) → IsErrOf result e
            → self.new.connection.core.failure ≡ Some e }
        ensures failed { (e : ConnectionError) → self.old.connection.core.failure ≡ Some e
            → IsErrOf result e }
        ensures kept { self.new.connection.outcomes ≡ self.old.connection.outcomes }
    {
        self.connection.step_holding_answers(alloc, event, out)
    }

    /// The outcomes of a turn are kept. Takes no memory.
    pub(crate) fn deliver_answers(&mut self, answers: Seq<Answer>)
        ensures { self.new.connection ≡ with_answers self.old.connection answers }
    {
        self.connection.deliver_answers(answers);
    }

    /// Memory was refused: the link fails from now on. Its outcomes stay.
    pub(crate) fn refuse_memory(&mut self) -> ConnectionError
        ensures value { result ≡ ConnectionError.NoMemory }
        ensures failure { self.new.connection.core.failure ≡ Some ConnectionError.NoMemory }
        ensures outcomes { self.new.connection.outcomes ≡ self.old.connection.outcomes }
    {
        self.connection.refuse_memory()
    }

    /// The outcome of a request: none while it is pending. Takes no memory.
    pub fn poll(&self, request: &Pending) -> Option<&Outcome>
        ensures { option_copied result ≡ outcome_of self.now.connection request.now.number }
    {
        self.connection.poll(request)
    }

    /// The caller of a request has gone. Takes no memory.
    pub fn cancel(&mut self, request: Pending)
        ensures { self.new.connection ≡ cancelled self.old.connection request.number }
    {
        self.connection.cancel(request);
    }
}
