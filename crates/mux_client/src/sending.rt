ghost use Rattle.std.specs.Prelude.{◌≡◌, ◌≢◌, ◌⊎◌, ◌<◌, ◌+◌, ◌^◌, ℕ, List, [], length, not, true, Some, None};
ghost use Rattle.std.specs.Prelude.{OnOk, OnErr, IfOk, IfErr};
ghost use Rattle.resp_write.specs.Pack.{pack, pack_pipeline};
ghost use Rattle.mux_conn.specs.Connection.{is_ready};
ghost use Rattle.mux_conn.specs.declared.errors.ConnectionError.{ConnectionError as Failure};
ghost use Rattle.mux_client.specs.Errors.{send_error};
ghost use Rattle.driver_model.specs.Shape.{shape_inside};

use crate::act::{ConnectionAct, ConnectionTimer};
use crate::connection::MultiplexedConnection;
use crate::errors::SendError;
use containers::Bytes;
use driver_model::Shape;
use mux_conn::{ConnectionError, Pending};
use redis_error::RedisError;
use resp_write::{Cmd, Pipeline};
use std::alloc::{AllocError, Global};

/// How an internal list of commands takes its items.
fn shape_inside(count: usize) -> Shape
    requires { count < 2 ^ 32 }
    ensures { result ≡ shape_inside count }
{
    if count == 1 {
        return Shape::Single;
    }
    Shape::Pipeline {
        offset: 0,
        count: count as u32,
        transaction: false,
    }
}

impl MultiplexedConnection {
    ghost use Rattle.mux_client.specs.Calls.{next_number, sent, sent_inside, takes_calls};
    ghost use Rattle.mux_client.specs.Calls.{Leaves, RefusesCall, RefusesSend};
    ghost use Rattle.mux_client.specs.Failing.{AnswersItsFailure};

    /// Whether a message of these bytes may be sent. Where no number is left for its request, the connection fails.
    fn check(&mut self, packed: &Bytes) -> Result<(), SendError>
        ensures same { OnOk result (self.new ≡ self.old) }
        ensures failure { OnOk result (self.old.core.failure ≡ None) }
        ensures room { OnOk result (next_number self.old + 1 < 2 ^ 32) }
        ensures bytes { OnOk result (packed.now ≢ []) }
        ensures err { IfErr result (RefusesSend self.old packed.now) }
        ensures left { IfErr result (Leaves self.old self.new) }
        ensures failed { AnswersItsFailure self.old.core.failure result }
    {
        if let Some(error) = self.core.failure {
            return Err(SendError::from(error));
        }
        if packed.is_empty() {
            return Err(SendError::Refused(RedisError::EmptyCommand));
        }
        if self.core.requests.len() as u64 >= u64::from(u32::MAX) {
            self.core.failure = Some(ConnectionError::Spent);
            return Err(SendError::Spent);
        }
        Ok(())
    }

    /// A message of these bytes, which takes items by this shape, and whose reply is awaited or not.
    pub(crate) fn send(
        &mut self,
        packed: Bytes,
        shape: Shape,
        awaited: bool,
    ) -> Result<Pending, SendError>
        ensures sent { OnOk result (self.new ≡ sent self.old packed shape awaited) }
        ensures number { IfOk result (λ p. p.number ≡ next_number self.old) }
        ensures sound { OnOk result (self.old.core.failure ≡ None) }
        ensures bytes { OnOk result (packed ≢ []) }
        ensures err { IfErr result (RefusesSend self.old packed) }
        ensures left { IfErr result (Leaves self.old self.new) }
        ensures failed { AnswersItsFailure self.old.core.failure result }
    {
        match self.check(&packed) {
            Ok(()) => {}
            Err(error) => return Err(error),
        }
        let number = self.core.requests.len() as u32;
        match self.enter(number, packed, shape, awaited) {
            Ok(request) => Ok(request),
            Err(_) => Err(SendError::from(self.refuse_memory())),
        }
    }

    /// One more request of the machine, with a place for its outcome. An error leaves the outcomes as they were.
    fn enter(
        &mut self,
        number: u32,
        packed: Bytes,
        shape: Shape,
        awaited: bool,
    ) -> Result<Pending, AllocError>
        requires { number ≡ next_number self.old }
        ensures sent { OnOk result (self.new ≡ sent self.old packed shape awaited) }
        ensures number { IfOk result (λ p. p.number ≡ number) }
        ensures kept { OnErr result (self.new.outcomes ≡ self.old.outcomes) }
    {
        let request = self.core.ask(number, packed, shape, awaited, self.timeout)?;
        self.outcomes.push(None)?;
        Ok(request)
    }

    /// Memory was refused before anything was sent. A connection that has failed before answers why, and any other fails from now
    /// on.
    pub fn refuse_unsent(&mut self) -> SendError
        ensures err { (packed : List ℕ) → RefusesSend self.old packed result }
        ensures call { takes_calls self.old ≡ true → RefusesCall self.old result }
        ensures left { Leaves self.old self.new result }
        ensures failed { (e : Failure) → self.old.core.failure ≡ Some e → result ≡ send_error e }
    {
        match self.core.failure {
            Some(error) => SendError::from(error),
            None => SendError::from(self.refuse_memory()),
        }
    }

    /// Sends a command. A command marked with `set_no_response` has its outcome, `Nil`, once it has its place in the queue.
    /// `Refused` comes exactly where it has no arguments, not even a name. The next step shows what comes of it.
    pub fn send_packed_command(
        &mut self,
        alloc: Global,
        command: &Cmd,
    ) -> Result<Pending, SendError>
        ensures sent { OnOk result (
            self.new ≡ sent self.old (pack command.now.args) Shape.Single (not command.now.no_response)
            ) }
        ensures number { IfOk result (λ p. p.number ≡ next_number self.old) }
        ensures sound { OnOk result (self.old.core.failure ≡ None) }
        ensures bytes { OnOk result (pack command.now.args ≢ []) }
        ensures err { IfErr result (RefusesSend self.old (pack command.now.args)) }
        ensures left { IfErr result (Leaves self.old self.new) }
        ensures failed { AnswersItsFailure self.old.core.failure result }
    {
        match command.get_packed_command(alloc) {
            Ok(packed) => self.send(packed, Shape::Single, !command.is_no_response()),
            Err(_) => Err(self.refuse_unsent()),
        }
    }

    /// Sends a pipeline as one message: the replies behind the first `offset` are kept, `count` of them, and at least one is
    /// awaited. `Refused` comes exactly where it packs to no bytes. The next step shows what comes of it.
    pub fn send_packed_commands(
        &mut self,
        alloc: Global,
        pipeline: &Pipeline,
        offset: u32,
        count: u32,
    ) -> Result<Pending, SendError>
        ensures sent { OnOk result (
            self.new
            ≡ sent self.old (pack_pipeline pipeline.now)
            (Shape.Pipeline offset count pipeline.now.atomic) true
            ) }
        ensures number { IfOk result (λ p. p.number ≡ next_number self.old) }
        ensures sound { OnOk result (self.old.core.failure ≡ None) }
        ensures bytes { OnOk result (pack_pipeline pipeline.now ≢ []) }
        ensures err { IfErr result (RefusesSend self.old (pack_pipeline pipeline.now)) }
        ensures left { IfErr result (Leaves self.old self.new) }
        ensures failed { AnswersItsFailure self.old.core.failure result }
    {
        let shape = Shape::Pipeline {
            offset,
            count,
            transaction: pipeline.is_transaction(),
        };
        match pipeline.get_packed_pipeline(alloc) {
            Ok(packed) => self.send(packed, shape, true),
            Err(_) => Err(self.refuse_unsent()),
        }
    }

    /// One more request of the machine that needs no permit, with a place for its outcome and its timer. An error leaves the
    /// outcomes as they were.
    fn enter_inside(
        &mut self,
        number: u32,
        packed: Bytes,
        shape: Shape,
    ) -> Result<Pending, AllocError>
        requires { number ≡ next_number self.old }
        ensures sent { OnOk result (self.new ≡ sent_inside self.old packed shape) }
        ensures number { IfOk result (λ p. p.number ≡ number) }
        ensures kept { OnErr result (self.new.outcomes ≡ self.old.outcomes) }
    {
        if let Some(ms) = self.timeout {
            self.early.push(ConnectionAct::Timer {
                timer: ConnectionTimer::Response {
                    request: Pending { number },
                },
                ms,
            })?;
        }
        let request = self.core.ask_inside(number, packed, shape)?;
        self.outcomes.push(None)?;
        Ok(request)
    }

    /// A message of these bytes that needs no permit, and takes items by this shape.
    fn send_inside(&mut self, packed: Bytes, shape: Shape) -> Result<Pending, SendError>
        ensures sent { OnOk result (self.new ≡ sent_inside self.old packed shape) }
        ensures number { IfOk result (λ p. p.number ≡ next_number self.old) }
        ensures sound { OnOk result (self.old.core.failure ≡ None) }
        ensures bytes { OnOk result (packed ≢ []) }
        ensures err { IfErr result (RefusesSend self.old packed) }
        ensures left { IfErr result (Leaves self.old self.new) }
        ensures failed { AnswersItsFailure self.old.core.failure result }
    {
        match self.check(&packed) {
            Ok(()) => {}
            Err(error) => return Err(error),
        }
        let number = self.core.requests.len() as u32;
        match self.enter_inside(number, packed, shape) {
            Ok(request) => Ok(request),
            Err(_) => Err(SendError::from(self.refuse_memory())),
        }
    }

    /// Sends what the driver itself says on a link that is set up. It takes no permit, is to be answered as any other request,
    /// and takes one item for each command; one command counts as a single command.
    pub fn send_internal(
        &mut self,
        alloc: Global,
        pipeline: &Pipeline,
    ) -> Result<Pending, SendError>
        requires ready { is_ready self.old.core.life ≡ true }
        requires few { length pipeline.now.commands < 2 ^ 32 }
        ensures sent { OnOk result (
            self.new
            ≡ sent_inside self.old (pack_pipeline pipeline.now)
            (shape_inside (length pipeline.now.commands))
            ) }
        ensures number { IfOk result (λ p. p.number ≡ next_number self.old) }
        ensures sound { OnOk result (self.old.core.failure ≡ None) }
        ensures bytes { OnOk result (pack_pipeline pipeline.now ≢ []) }
        ensures err { IfErr result (RefusesSend self.old (pack_pipeline pipeline.now)) }
        ensures left { IfErr result (Leaves self.old self.new) }
        ensures failed { AnswersItsFailure self.old.core.failure result }
    {
        match pipeline.get_packed_pipeline(alloc) {
            Ok(packed) => self.send_inside(packed, shape_inside(pipeline.len())),
            Err(_) => Err(self.refuse_unsent()),
        }
    }
}
