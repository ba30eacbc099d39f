ghost use Rattle.std.specs.Prelude.{◌≡◌, true, None, OnOk, IfOk, IfErr};
ghost use Rattle.connection_info.specs.Protocol.{is_resp3};

use crate::manager::ConnectionManager;
use crate::request::Call;
use containers::Names;
use driver_model::Shape;
use mux_client::SendError;
use mux_conn::Pending;
use redis_error::RedisError;
use resp_write::{SubscriptionAction, pack_call};
use std::alloc::Global;

impl ConnectionManager {
    ghost use Rattle.conn_manager.specs.Calls.{next_number, called, Leaves, RefusesCall};
    ghost use Rattle.mux_client.specs.Failing.{AnswersItsFailure};

    /// One command with all these names, which is to be confirmed.
    #[tactic(auto, using(crate::proofs::SubscriptionCalls::refuses_call))]
    fn call(
        &mut self,
        alloc: Global,
        action: SubscriptionAction,
        names: &Names,
    ) -> Result<Pending, SendError>
        ensures sent { OnOk result (self.new ≡ called self.old action names.now) }
        ensures number { IfOk result (λ p. p.number ≡ next_number self.old) }
        ensures sound { OnOk result (self.old.failure ≡ None) }
        ensures takes { OnOk result (is_resp3 self.old.info.protocol ≡ true) }
        ensures err { IfErr result (RefusesCall self.old action names.now) }
        ensures left { IfErr result (Leaves self.old self.new) }
        ensures failed { AnswersItsFailure self.old.failure result }
    {
        if let Some(error) = self.failure {
            return Err(SendError::from(error));
        }
        if !self.info.protocol.supports_resp3() {
            return Err(SendError::Refused(RedisError::Resp3Required));
        }
        let packed = match pack_call(alloc, action.word(), names) {
            Ok(packed) => packed,
            Err(_) => return Err(self.refuse_unsent()),
        };
        let kept = match names.clone(alloc) {
            Ok(kept) => kept,
            Err(_) => return Err(self.refuse_unsent()),
        };
        let call = Call {
            action,
            names: kept,
        };
        self.send(alloc, packed, Shape::Confirmation, true, Some(call))
    }

    /// Subscribes to these channels. The outcome is `Done`, and the manager then knows it, or the
    /// server error that came instead. Where no call has failed before, `Refused` comes exactly where the manager
    /// doesn't speak RESP3. The next step shows what comes of it.
    pub fn subscribe(&mut self, alloc: Global, names: &Names) -> Result<Pending, SendError>
        ensures sent { OnOk result (
            self.new ≡ called self.old SubscriptionAction.Subscribe names.now
            ) }
        ensures number { IfOk result (λ p. p.number ≡ next_number self.old) }
        ensures sound { OnOk result (self.old.failure ≡ None) }
        ensures takes { OnOk result (is_resp3 self.old.info.protocol ≡ true) }
        ensures err { IfErr result (RefusesCall self.old SubscriptionAction.Subscribe names.now) }
        ensures left { IfErr result (Leaves self.old self.new) }
        ensures failed { AnswersItsFailure self.old.failure result }
    {
        self.call(alloc, SubscriptionAction::Subscribe, names)
    }

    /// Ends the subscriptions to these channels, or to all where none is given. The outcome is `Done`, and the manager then knows
    /// it, or the server error that came instead. Where no call has failed before, `Refused` comes exactly where the manager
    /// doesn't speak RESP3. The next step shows what comes of it.
    pub fn unsubscribe(&mut self, alloc: Global, names: &Names) -> Result<Pending, SendError>
        ensures sent { OnOk result (
            self.new ≡ called self.old SubscriptionAction.Unsubscribe names.now
            ) }
        ensures number { IfOk result (λ p. p.number ≡ next_number self.old) }
        ensures sound { OnOk result (self.old.failure ≡ None) }
        ensures takes { OnOk result (is_resp3 self.old.info.protocol ≡ true) }
        ensures err { IfErr result (RefusesCall self.old SubscriptionAction.Unsubscribe names.now) }
        ensures left { IfErr result (Leaves self.old self.new) }
        ensures failed { AnswersItsFailure self.old.failure result }
    {
        self.call(alloc, SubscriptionAction::Unsubscribe, names)
    }

    /// Subscribes to these patterns. The outcome is `Done`, and the manager then knows it, or the
    /// server error that came instead. Where no call has failed before, `Refused` comes exactly where the manager
    /// doesn't speak RESP3. The next step shows what comes of it.
    pub fn psubscribe(&mut self, alloc: Global, names: &Names) -> Result<Pending, SendError>
        ensures sent { OnOk result (
            self.new ≡ called self.old SubscriptionAction.PSubscribe names.now
            ) }
        ensures number { IfOk result (λ p. p.number ≡ next_number self.old) }
        ensures sound { OnOk result (self.old.failure ≡ None) }
        ensures takes { OnOk result (is_resp3 self.old.info.protocol ≡ true) }
        ensures err { IfErr result (RefusesCall self.old SubscriptionAction.PSubscribe names.now) }
        ensures left { IfErr result (Leaves self.old self.new) }
        ensures failed { AnswersItsFailure self.old.failure result }
    {
        self.call(alloc, SubscriptionAction::PSubscribe, names)
    }

    /// Ends the subscriptions to these patterns, or to all where none is given. The outcome is `Done`, and the manager then knows
    /// it, or the server error that came instead. Where no call has failed before, `Refused` comes exactly where the manager
    /// doesn't speak RESP3. The next step shows what comes of it.
    pub fn punsubscribe(&mut self, alloc: Global, names: &Names) -> Result<Pending, SendError>
        ensures sent { OnOk result (
            self.new ≡ called self.old SubscriptionAction.PUnsubscribe names.now
            ) }
        ensures number { IfOk result (λ p. p.number ≡ next_number self.old) }
        ensures sound { OnOk result (self.old.failure ≡ None) }
        ensures takes { OnOk result (is_resp3 self.old.info.protocol ≡ true) }
        ensures err { IfErr result (RefusesCall self.old SubscriptionAction.PUnsubscribe names.now) }
        ensures left { IfErr result (Leaves self.old self.new) }
        ensures failed { AnswersItsFailure self.old.failure result }
    {
        self.call(alloc, SubscriptionAction::PUnsubscribe, names)
    }
}
