ghost use Rattle.std.specs.Prelude.{◌≡◌, ◌≢◌, ◌<◌, ◌+◌, ◌^◌, ℕ, List, [], length, not, true, None, Some};
ghost use Rattle.std.specs.Prelude.{OnOk, OnErr, IfOk, IfErr, IsErrOf};
ghost use Rattle.connection_info.specs.Protocol.{is_resp3};
ghost use Rattle.mux_conn.specs.declared.errors.ConnectionError.{ConnectionError as Failure};
ghost use Rattle.mux_client.specs.Errors.{send_error};
ghost use Rattle.mux_client.specs.Failing.{AnswersItsFailure};
ghost use Rattle.resp_write.specs.declared.subscription.SubscriptionAction.{SubscriptionAction};
ghost use Rattle.resp_write.specs.Pack.{pack, pack_pipeline};

use crate::hearing::RESUBSCRIPTION;
use crate::manager::ConnectionManager;
use crate::request::{Call, HeldRequest, Stage};
use containers::Bytes;
use driver_model::{Outcome, Shape};
use manager_generations::Phase;
use mux_client::SendError;
use mux_conn::{ConnectionError, Pending};
use redis_error::RedisError;
use resp_write::{Cmd, Pipeline};
use std::alloc::{AllocError, Global};

impl ConnectionManager {
    ghost use Rattle.manager_generations.specs.Generations.{runs_out};
    ghost use Rattle.conn_manager.specs.Calls.{begins, entered, waiting, answered_at_once, placed_at};
    ghost use Rattle.conn_manager.specs.Calls.{next_number, sent, outcome_of, outcomes_but};
    ghost use Rattle.conn_manager.specs.Calls.{Leaves, RefusesCall, RefusesSend, SparesOthers};
    ghost use Rattle.conn_manager.specs.declared.manager.ConnectionManager.{ConnectionManager};

    /// One more request, held until its generation is ready. An error leaves the outcomes as they were.
    fn enter(&mut self, call: Option<Call>) -> Result<(), AllocError>
        ensures done { OnOk result (self.new ≡ entered self.old call) }
        ensures kept { OnErr result (self.new.outcomes ≡ self.old.outcomes) }
    {
        self.stages.push(Stage::Held)?;
        self.calls.push(call)?;
        self.outcomes.push(None)
    }

    /// It waits.
    fn hold(&mut self, request: HeldRequest) -> Result<(), AllocError>
        ensures done { OnOk result (self.new ≡ waiting self.old request) }
        ensures outcomes { self.new.outcomes ≡ self.old.outcomes }
    {
        let number = request.number;
        self.held.push_back(request)?;
        self.fresh.push_back(number)
    }

    /// A generation begins.
    pub(crate) fn begin(&mut self, alloc: Global) -> Result<(), ConnectionError>
        ensures done { OnOk result (self.new ≡ begins self.old) }
        ensures outcomes { self.new.outcomes ≡ self.old.outcomes }
        ensures spent { IsErrOf result ConnectionError.Spent
            → runs_out (begins self.old).generations ≡ true }
    {
        match self.generations.begin() {
            Ok(()) => {}
            Err(error) => return Err(error),
        }
        self.reconnect(alloc)?;
        Ok(())
    }

    /// A generation begins with it, and it waits.
    fn begin_with(&mut self, alloc: Global, request: HeldRequest) -> Result<(), ConnectionError>
        ensures done { OnOk result (self.new ≡ waiting (begins self.old) request) }
        ensures outcomes { self.new.outcomes ≡ self.old.outcomes }
        ensures spent { IsErrOf result ConnectionError.Spent
            → runs_out (begins self.old).generations ≡ true }
    {
        match self.begin(alloc) {
            Ok(()) => {}
            Err(error) => {
                drop(request);
                return Err(error);
            }
        }
        self.hold(request)?;
        Ok(())
    }

    /// It is answered at once with this error, which may be a cause for the next generation.
    fn answer_at_once(
        &mut self,
        alloc: Global,
        request: HeldRequest,
        error: RedisError,
    ) -> Result<(), ConnectionError>
        ensures done { OnOk result (self.new ≡ answered_at_once self.old request error) }
        ensures outcomes { outcomes_but self.new request.number ≡ outcomes_but self.old request.number }
        ensures spent { IsErrOf result ConnectionError.Spent
            → runs_out (answered_at_once self.old request error).generations ≡ true }
    {
        self.answer(alloc, request.number, Outcome::Fault(error))?;
        self.succeed(alloc)
    }

    /// What becomes of a request: it waits, is handed to a link that is ready, or is answered at once. No other gets an outcome.
    #[tactic(auto, using(crate::proofs::Sends::spared))]
    fn place(&mut self, alloc: Global, request: HeldRequest) -> Result<(), ConnectionError>
        requires there { request.number < length self.old.stages }
        requires few { length self.old.conn.requests < 2 ^ 32 }
        ensures done { OnOk result (
            self.new ≡ placed_at self.old request self.old.generations.phase
            ) }
        ensures others { SparesOthers request.number self.old self.new }
        ensures spent { IsErrOf result ConnectionError.Spent
            → runs_out (placed_at self.old request self.old.generations.phase).generations ≡ true }
    {
        match &self.generations.phase {
            Phase::Idle => self.begin_with(alloc, request),
            Phase::Opening => {
                self.hold(request)?;
                Ok(())
            }
            Phase::Resting => {
                self.hold(request)?;
                Ok(())
            }
            Phase::Resubscribing => {
                self.hold(request)?;
                Ok(())
            }
            Phase::Ready => {
                self.hand(request)?;
                Ok(())
            }
            Phase::Lost => self.answer_at_once(alloc, request, RedisError::Closed),
            Phase::Failed { error } => {
                let copy = error.clone(alloc)?;
                self.answer_at_once(alloc, request, copy)
            }
        }
    }

    /// One more request, which may be a subscription call. Those before it keep their outcomes.
    #[tactic(auto, using(crate::proofs::Sends::admitted))]
    fn admit(
        &mut self,
        alloc: Global,
        request: HeldRequest,
        call: Option<Call>,
    ) -> Result<(), ConnectionError>
        requires number { request.number ≡ length self.old.stages }
        requires few { length self.old.conn.requests < 2 ^ 32 }
        ensures done { OnOk result (
            self.new ≡ placed_at (entered self.old call) request self.old.generations.phase
            ) }
        ensures kept { (p : ℕ) → p < next_number self.old
            → outcome_of self.new p ≡ outcome_of self.old p }
        ensures spent { IsErrOf result ConnectionError.Spent
            → runs_out (placed_at (entered self.old call) request self.old.generations.phase).generations ≡ true }
    {
        self.enter(call)?;
        self.place(alloc, request)
    }

    /// Whether a message of these bytes may be sent. Where no number is left for its request, the manager fails.
    fn check(&mut self, packed: &Bytes) -> Result<(), SendError>
        ensures same { OnOk result (self.new ≡ self.old) }
        ensures failure { OnOk result (self.old.failure ≡ None) }
        ensures room { OnOk result (next_number self.old + 1 < 2 ^ 32) }
        ensures few { OnOk result (length self.old.conn.requests < 2 ^ 32) }
        ensures bytes { OnOk result (packed.now ≢ []) }
        ensures err { (after : ConnectionManager) → IfErr result (RefusesSend self.old after packed.now) }
        ensures left { IfErr result (Leaves self.old self.new) }
        ensures failed { AnswersItsFailure self.old.failure result }
    {
        if let Some(error) = self.failure {
            return Err(SendError::from(error));
        }
        if packed.is_empty() {
            return Err(SendError::Refused(RedisError::EmptyCommand));
        }
        if self.stages.len() >= RESUBSCRIPTION as usize {
            return Err(SendError::from(self.refuse(ConnectionError::Spent)));
        }
        if self.conn.requests.len() >= RESUBSCRIPTION as usize {
            return Err(SendError::from(self.refuse(ConnectionError::Spent)));
        }
        Ok(())
    }

    /// Memory was refused before anything was sent. A manager that has failed before answers why, and any other fails from now
    /// on.
    pub(crate) fn refuse_unsent(&mut self) -> SendError
        ensures err { (after : ConnectionManager) (packed : List ℕ)
            → RefusesSend self.old after packed result }
        ensures call { (what : SubscriptionAction) (names : List (List ℕ))
            → is_resp3 self.old.info.protocol ≡ true → RefusesCall self.old what names result }
        ensures left { Leaves self.old self.new result }
        ensures failed { (e : Failure) → self.old.failure ≡ Some e → result ≡ send_error e }
    {
        match self.failure {
            Some(error) => SendError::from(error),
            None => SendError::from(self.refuse(ConnectionError::NoMemory)),
        }
    }

    /// A message of these bytes, which takes items by this shape, and whose reply is awaited or not; it may be a subscription
    /// call.
    pub(crate) fn send(
        &mut self,
        alloc: Global,
        packed: Bytes,
        shape: Shape,
        awaited: bool,
        call: Option<Call>,
    ) -> Result<Pending, SendError>
        ensures sent { OnOk result (self.new ≡ sent self.old packed shape awaited call) }
        ensures number { IfOk result (λ p. p.number ≡ next_number self.old) }
        ensures sound { OnOk result (self.old.failure ≡ None) }
        ensures bytes { OnOk result (packed ≢ []) }
        ensures err { IfErr result (RefusesSend self.old (sent self.old packed shape awaited call) packed) }
        ensures left { IfErr result (Leaves self.old self.new) }
        ensures failed { AnswersItsFailure self.old.failure result }
    {
        match self.check(&packed) {
            Ok(()) => {}
            Err(error) => return Err(error),
        }
        let number = self.stages.len() as u32;
        let request = HeldRequest {
            number,
            packed,
            shape,
            awaited,
        };
        match self.admit(alloc, request, call) {
            Ok(()) => Ok(Pending { number }),
            Err(ConnectionError::Spent) => {
                Err(SendError::from(self.refuse(ConnectionError::Spent)))
            }
            Err(ConnectionError::NoMemory) => {
                Err(SendError::from(self.refuse(ConnectionError::NoMemory)))
            }
        }
    }

    /// Sends a command. A command marked with `set_no_response` has its outcome, `Nil`, once it has its place in the queue.
    /// `Refused` comes exactly where it has no arguments, not even a name. The next step shows what comes of it.
    pub fn send_packed_command(
        &mut self,
        alloc: Global,
        command: &Cmd,
    ) -> Result<Pending, SendError>
        ensures sent { OnOk result (
            self.new
            ≡ sent self.old (pack command.now.args) Shape.Single (not command.now.no_response) None
            ) }
        ensures number { IfOk result (λ p. p.number ≡ next_number self.old) }
        ensures sound { OnOk result (self.old.failure ≡ None) }
        ensures bytes { OnOk result (pack command.now.args ≢ []) }
        ensures err { IfErr result (RefusesSend self.old
            (sent self.old (pack command.now.args) Shape.Single (not command.now.no_response) None)
            (pack command.now.args)) }
        ensures left { IfErr result (Leaves self.old self.new) }
        ensures failed { AnswersItsFailure self.old.failure result }
    {
        let awaited = !command.is_no_response();
        match command.get_packed_command(alloc) {
            Ok(packed) => self.send(alloc, packed, Shape::Single, awaited, None),
            Err(_) => Err(self.refuse_unsent()),
        }
    }

    /// Sends a pipeline as one message: the replies behind the first `offset` are kept, `count` of them, and at least one is
    /// awaited. `Refused` comes exactly where it packs to no bytes. The next step shows what comes of it.
    pub fn send_packed_commands(
        &mut self,
        alloc: Global,
        pipeline: &Pipeline,
        offset: u32,
        count: u32,
    ) -> Result<Pending, SendError>
        ensures sent { OnOk result (
            self.new
            ≡ sent self.old (pack_pipeline pipeline.now)
            (Shape.Pipeline offset count pipeline.now.atomic) true None
            ) }
        ensures number { IfOk result (λ p. p.number ≡ next_number self.old) }
        ensures sound { OnOk result (self.old.failure ≡ None) }
        ensures bytes { OnOk result (pack_pipeline pipeline.now ≢ []) }
        ensures err { IfErr result (RefusesSend self.old
            (sent self.old (pack_pipeline pipeline.now) (Shape.Pipeline offset count pipeline.now.atomic) true None)
            (pack_pipeline pipeline.now)) }
        ensures left { IfErr result (Leaves self.old self.new) }
        ensures failed { AnswersItsFailure self.old.failure result }
    {
        let shape = Shape::Pipeline {
            offset,
            count,
            transaction: pipeline.is_transaction(),
        };
        match pipeline.get_packed_pipeline(alloc) {
            Ok(packed) => self.send(alloc, packed, shape, true, None),
            Err(_) => Err(self.refuse_unsent()),
        }
    }
}
