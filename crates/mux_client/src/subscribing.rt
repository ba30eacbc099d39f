ghost use Rattle.std.specs.Prelude.{◌≡◌, true, None, OnOk, IfOk, IfErr};
ghost use Rattle.mux_client.specs.Calls.{next_number, called, takes_calls, Leaves, RefusesCall};
ghost use Rattle.mux_client.specs.Failing.{AnswersItsFailure};

use crate::connection::MultiplexedConnection;
use crate::errors::SendError;
use containers::Names;
use driver_model::Shape;
use mux_conn::Pending;
use redis_error::RedisError;
use resp_write::{SubscriptionAction, pack_call};
use std::alloc::Global;

impl MultiplexedConnection {
    /// Whether a server confirms subscription calls on it: it speaks RESP3, or is a link of messages.
    fn takes_calls(&self) -> bool
        ensures { result ≡ takes_calls self.now }
    {
        self.core.hears.hears_messages() || self.core.info.protocol.supports_resp3()
    }

    /// One command with all these names, which is to be confirmed.
    #[tactic(auto, using(crate::proofs::Calls::refuses_call))]
    fn call(
        &mut self,
        alloc: Global,
        action: SubscriptionAction,
        names: &Names,
    ) -> Result<Pending, SendError>
        ensures sent { OnOk result (self.new ≡ called self.old action names.now) }
        ensures number { IfOk result (λ p. p.number ≡ next_number self.old) }
        ensures sound { OnOk result (self.old.core.failure ≡ None) }
        ensures takes { OnOk result (takes_calls self.old ≡ true) }
        ensures err { IfErr result (RefusesCall self.old) }
        ensures left { IfErr result (Leaves self.old self.new) }
        ensures failed { AnswersItsFailure self.old.core.failure result }
    {
        if let Some(error) = self.core.failure {
            return Err(SendError::from(error));
        }
        if !self.takes_calls() {
            return Err(SendError::Refused(RedisError::Resp3Required));
        }
        match pack_call(alloc, action.word(), names) {
            Ok(packed) => self.send(packed, Shape::Confirmation, true),
            Err(_) => Err(self.refuse_unsent()),
        }
    }

    /// Subscribes to these channels. The outcome is `Done`, or the server error that came instead. Where no call has failed
    /// before, `Refused` comes exactly where the connection doesn't speak RESP3 and is no link of messages. The next step shows
    /// what comes of it.
    pub fn subscribe(&mut self, alloc: Global, names: &Names) -> Result<Pending, SendError>
        ensures sent { OnOk result (
            self.new ≡ called self.old SubscriptionAction.Subscribe names.now
            ) }
        ensures number { IfOk result (λ p. p.number ≡ next_number self.old) }
        ensures sound { OnOk result (self.old.core.failure ≡ None) }
        ensures takes { OnOk result (takes_calls self.old ≡ true) }
        ensures err { IfErr result (RefusesCall self.old) }
        ensures left { IfErr result (Leaves self.old self.new) }
        ensures failed { AnswersItsFailure self.old.core.failure result }
    {
        self.call(alloc, SubscriptionAction::Subscribe, names)
    }

    /// Ends the subscriptions to these channels, or to all where none is given. The outcome is `Done`, or the server error that
    /// came instead. Where no call has failed before, `Refused` comes exactly where the connection doesn't speak RESP3 and is no
    /// link of messages. The next step shows what comes of it.
    pub fn unsubscribe(&mut self, alloc: Global, names: &Names) -> Result<Pending, SendError>
        ensures sent { OnOk result (
            self.new ≡ called self.old SubscriptionAction.Unsubscribe names.now
            ) }
        ensures number { IfOk result (λ p. p.number ≡ next_number self.old) }
        ensures sound { OnOk result (self.old.core.failure ≡ None) }
        ensures takes { OnOk result (takes_calls self.old ≡ true) }
        ensures err { IfErr result (RefusesCall self.old) }
        ensures left { IfErr result (Leaves self.old self.new) }
        ensures failed { AnswersItsFailure self.old.core.failure result }
    {
        self.call(alloc, SubscriptionAction::Unsubscribe, names)
    }

    /// Subscribes to these patterns. The outcome is `Done`, or the server error that came instead. Where no call has failed
    /// before, `Refused` comes exactly where the connection doesn't speak RESP3 and is no link of messages. The next step shows
    /// what comes of it.
    pub fn psubscribe(&mut self, alloc: Global, names: &Names) -> Result<Pending, SendError>
        ensures sent { OnOk result (
            self.new ≡ called self.old SubscriptionAction.PSubscribe names.now
            ) }
        ensures number { IfOk result (λ p. p.number ≡ next_number self.old) }
        ensures sound { OnOk result (self.old.core.failure ≡ None) }
        ensures takes { OnOk result (takes_calls self.old ≡ true) }
        ensures err { IfErr result (RefusesCall self.old) }
        ensures left { IfErr result (Leaves self.old self.new) }
        ensures failed { AnswersItsFailure self.old.core.failure result }
    {
        self.call(alloc, SubscriptionAction::PSubscribe, names)
    }

    /// Ends the subscriptions to these patterns, or to all where none is given. The outcome is `Done`, or the server error that
    /// came instead. Where no call has failed before, `Refused` comes exactly where the connection doesn't speak RESP3 and is no
    /// link of messages. The next step shows what comes of it.
    pub fn punsubscribe(&mut self, alloc: Global, names: &Names) -> Result<Pending, SendError>
        ensures sent { OnOk result (
            self.new ≡ called self.old SubscriptionAction.PUnsubscribe names.now
            ) }
        ensures number { IfOk result (λ p. p.number ≡ next_number self.old) }
        ensures sound { OnOk result (self.old.core.failure ≡ None) }
        ensures takes { OnOk result (takes_calls self.old ≡ true) }
        ensures err { IfErr result (RefusesCall self.old) }
        ensures left { IfErr result (Leaves self.old self.new) }
        ensures failed { AnswersItsFailure self.old.core.failure result }
    {
        self.call(alloc, SubscriptionAction::PUnsubscribe, names)
    }
}
