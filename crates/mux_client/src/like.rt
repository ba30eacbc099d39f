ghost use Rattle.std.specs.Prelude.{◌≡◌, ◌≢◌, ◌⊎◌, ◌++◌, ◌<◌, ◌+◌, ◌^◌, ℕ, ℤ, Bool, List, Option, [], length, not, true, None, Some};
ghost use Rattle.std.specs.Prelude.{OnOk, OnErr, IfOk, IfErr, IsErrOf, IsTrue, ◌↔◌, option_copied};
ghost use Rattle.resp_write.specs.Pack.{pack, pack_pipeline};
ghost use Rattle.redis_error.specs.declared.redis_error.RedisError.{RedisError};
ghost use Rattle.redis_error.specs.declared.redis_error.RedisError.TheVariants as fault;
ghost use Rattle.driver_model.specs.Shape.{shape_inside};
ghost use Rattle.driver_model.specs.declared.outcome.Outcome.{Outcome};
ghost use Rattle.driver_model.specs.declared.outcome.Shape as shapes;
ghost use Rattle.mux_conn.specs.Connection.{is_ready};
ghost use Rattle.mux_conn.specs.declared.errors.ConnectionError as errors;
ghost use Rattle.mux_client.specs.Connection.{opened, fault_of, RefusesConnection};
ghost use Rattle.mux_client.specs.Connection as connection;
ghost use Rattle.mux_client.specs.Calls as calls;
ghost use Rattle.mux_client.specs.Events.{Happening, happened};
ghost use Rattle.mux_client.specs.Failing.{AnswersItsFailure, LeavesBehind};
ghost use Rattle.mux_client.specs.Like as like;
ghost use Rattle.mux_client.specs.declared.errors.SendError as send_errors;
ghost use Rattle.mux_client.specs.declared.errors.SendError.TheVariants as send_error;

use crate::act::ConnectionAct;
use crate::connection::MultiplexedConnection;
use crate::errors::SendError;
use crate::event::{ConnectionEvent, ConnectionNews};
use connection_info::{AsyncConnectionConfig, ConnectionInfo, OpenError};
use driver_model::{LinkEvent, LinkNews, Outcome, Shape};
use mux_conn::{ConnectionError, Pending};
use resp_write::{Cmd, Pipeline};
use std::alloc::Global;

/// What is asked as a connection is: a `MultiplexedConnection`, or a manager of connections. A refused send leaves it as it was.
/// After any other error, of a send or of a step, it has failed: each later send and step answers the same, and the outcomes of
/// the requests before stay.
pub trait ConnectionLike {
    /// What its steps show.
    type Act;

    /// The number of its next request.
    ghost next_number: { Self → ℕ };

    /// What it is behind a send of these bytes, which take items by this shape, and whose reply is awaited or not.
    ghost sent: { Self → List ℕ → shapes.Shape → Bool → Self };

    /// Why such a send isn't made.
    ghost Refuses: { Self → List ℕ → shapes.Shape → Bool → send_errors.SendError → Type 0 };

    /// What it is once the caller of the request of this number has gone.
    ghost cancelled: { Self → ℕ → Self };

    /// The outcome of the request of this number, if it has one.
    ghost outcome_of: { Self → ℕ → Option Outcome };

    /// The database that its setup chooses.
    ghost database: { Self → ℤ };

    /// What may be told it.
    ghost Fits: { Self → Happening → Type 0 };

    /// What it is behind a turn of what happened, where this word is drawn.
    ghost behind: { Self → ℕ → Happening → Self };

    /// What such a turn shows.
    ghost shown_by: { Self → ℕ → Happening → List Self.Act };

    /// Such a turn would give the number 2^32 - 1.
    ghost Spends: { Self → ℕ → Happening → Type 0 };

    /// Why each call of it fails, if it does.
    ghost failure_of: { Self → Option errors.ConnectionError };

    /// Sends a command. A command marked with `set_no_response` has its outcome, `Nil`, once it has its place in the queue.
    /// `Refused` comes exactly where it has no arguments, not even a name. The next step shows what comes of it.
    fn req_packed_command(&mut self, alloc: Global, command: &Cmd) -> Result<Pending, SendError>
        ensures sent { OnOk result (
            self.new ≡ sent self.old (pack command.now.args) Shape.Single (not command.now.no_response)
            ) }
        ensures number { IfOk result (λ p. p.number ≡ next_number self.old) }
        ensures sound { OnOk result (failure_of self.old ≡ None) }
        ensures bytes { OnOk result (pack command.now.args ≢ []) }
        ensures err { IfErr result
            (Refuses self.old (pack command.now.args) Shape.Single (not command.now.no_response)) }
        ensures left { IfErr result (LeavesBehind failure_of next_number outcome_of self.old self.new) }
        ensures failed { AnswersItsFailure (failure_of self.old) result };

    /// Sends a pipeline as one message: the replies behind the first `offset` are kept, `count` of them, and at least one is
    /// awaited. `Refused` comes exactly where it packs to no bytes. The next step shows what comes of it.
    fn req_packed_commands(
        &mut self,
        alloc: Global,
        pipeline: &Pipeline,
        offset: u32,
        count: u32,
    ) -> Result<Pending, SendError>
        ensures sent { OnOk result (
            self.new
            ≡ sent self.old (pack_pipeline pipeline.now)
            (Shape.Pipeline offset count pipeline.now.atomic) true
            ) }
        ensures number { IfOk result (λ p. p.number ≡ next_number self.old) }
        ensures sound { OnOk result (failure_of self.old ≡ None) }
        ensures bytes { OnOk result (pack_pipeline pipeline.now ≢ []) }
        ensures err { IfErr result
            (Refuses self.old (pack_pipeline pipeline.now)
            (Shape.Pipeline offset count pipeline.now.atomic) true) }
        ensures left { IfErr result (LeavesBehind failure_of next_number outcome_of self.old self.new) }
        ensures failed { AnswersItsFailure (failure_of self.old) result };

    /// The database that its setup chooses. Takes no memory.
    fn get_db(&self) -> i64
        ensures { result ≡ database self.now };

    /// One turn: what happened has its effect, requests are moved as far as they can go, and `out` gains what is to be done,
    /// that of the sends before included. After an error `out` and the outcomes are as they were, it has failed, and each later
    /// call that can fail answers the same.
    fn step(
        &mut self,
        alloc: Global,
        event: ConnectionEvent<'_>,
        out: &mut Vec<Self::Act>,
    ) -> Result<(), ConnectionError>
        requires { Fits self.old (happened event.news) }
        ensures next { OnOk result (
            self.new ≡ behind self.old event.entry.word (happened event.entry.news)
            ) }
        ensures acts { OnOk result (
            out.new.items
            ≡ out.old.items ++ shown_by self.old event.entry.word (happened event.entry.news)
            ) }
        ensures err { OnErr result (out.new.items ≡ out.old.items) }
        ensures sound { OnOk result (failure_of self.old ≡ None) }
        ensures spent { IsErrOf result ConnectionError.Spent
            → (failure_of self.old ≡ Some ConnectionError.Spent)
            ⊎ Spends self.old event.entry.word (happened event.entry.news) }
        ensures fails { (e : ConnectionError) → IsErrOf result e → failure_of self.new ≡ Some e }
        ensures failed { (e : ConnectionError) → failure_of self.old ≡ Some e → IsErrOf result e }
        ensures kept { OnErr result ((p : ℕ) → outcome_of self.new p ≡ outcome_of self.old p) };

    /// Whether this may be told it: all but that a link of its own took more bytes than it was offered. Takes no memory.
    fn can_hear(&self, news: ConnectionNews<'_>) -> bool
        ensures { IsTrue result ↔ Fits self.now (happened news.entry) };

    /// The outcome of a request: none while it is pending. Takes no memory. What has failed answers as before.
    fn poll(&self, request: &Pending) -> Option<&Outcome>
        ensures { option_copied result ≡ outcome_of self.now request.now.number };

    /// The caller of a request has gone: a request that is pending gets no outcome. Takes no memory.
    fn cancel(&mut self, request: Pending)
        ensures { self.new ≡ cancelled self.old request.number };

    /// A send gives its request the next number.
    ghost rises: { (c : Self) (packed : List ℕ) (shape : shapes.Shape) (awaited : Bool)
        → next_number (sent c packed shape awaited) ≡ next_number c + 1 };

    /// No request that was sent before gets an outcome by it, or another one.
    ghost keeps: { (c : Self) (packed : List ℕ) (shape : shapes.Shape) (awaited : Bool) (p : ℕ)
        → p < next_number c → outcome_of (sent c packed shape awaited) p ≡ outcome_of c p };

    /// Only a request without bytes is refused as such, and it as an empty command.
    ghost empty: { (c : Self) (packed : List ℕ) (shape : shapes.Shape) (awaited : Bool) (e : RedisError)
        → Refuses c packed shape awaited (send_error.Refused e) → (e ≡ fault.EmptyCommand) × (packed ≡ []) };

    /// That a caller has gone changes the outcome of nobody.
    ghost leaves: { (c : Self) (p q : ℕ) → outcome_of (cancelled c p) q ≡ outcome_of c q };

    /// Nor does it give or take a number.
    ghost numbered: { (c : Self) (p : ℕ) → next_number (cancelled c p) ≡ next_number c };
}

/// What a driver makes its links of: a type whose calls meet the contracts of a `MultiplexedConnection`.
pub trait Connect: ConnectionLike<Act = ConnectionAct> + Sized {
    ghost use Rattle.mux_client.specs.declared.connection.MultiplexedConnection.{MultiplexedConnection};

    /// The connection that it is.
    ghost seen: { Self → MultiplexedConnection };

    /// A connection to this server over the link of this number, as `MultiplexedConnection::new_with_config`.
    fn connect_with_config(
        alloc: Global,
        info: &ConnectionInfo,
        config: &AsyncConnectionConfig,
        link: u32,
    ) -> Result<Self, OpenError>
        ensures ok { IfOk result (λ c. seen c ≡ opened info.now.redis link config.now) }
        ensures sound { OnOk result (fault_of info.now.redis config.now ≡ None) }
        ensures err { IfErr result (RefusesConnection info.now.redis config.now) };

    /// Sends what the driver itself says, as `MultiplexedConnection::send_internal`.
    fn send_internal(&mut self, alloc: Global, pipeline: &Pipeline) -> Result<Pending, SendError>
        requires ready { is_ready (seen self.old).core.life ≡ true }
        requires few { length pipeline.now.commands < 2 ^ 32 }
        ensures sent { OnOk result (
            seen self.new
            ≡ calls.sent_inside (seen self.old) (pack_pipeline pipeline.now)
            (shape_inside (length pipeline.now.commands))
            ) }
        ensures number { IfOk result (λ p. p.number ≡ calls.next_number (seen self.old)) }
        ensures sound { OnOk result ((seen self.old).core.failure ≡ None) }
        ensures bytes { OnOk result (pack_pipeline pipeline.now ≢ []) }
        ensures err { IfErr result (calls.RefusesSend (seen self.old) (pack_pipeline pipeline.now)) }
        ensures left { IfErr result (LeavesBehind Self.failure_of Self.next_number Self.outcome_of self.old self.new) }
        ensures failed { AnswersItsFailure (Self.failure_of self.old) result };

    /// Its next request has the number of the connection's.
    ghost numbers: { (c : Self) → Self.next_number c ≡ calls.next_number (seen c) };

    /// A send is one of the connection.
    ghost sends: { (c : Self) (packed : List ℕ) (shape : shapes.Shape) (awaited : Bool)
        → seen (Self.sent c packed shape awaited) ≡ calls.sent (seen c) packed shape awaited };

    /// It is refused for the same reasons.
    ghost refusals: { (c : Self) (packed : List ℕ) (shape : shapes.Shape) (awaited : Bool) (e : send_errors.SendError)
        → Self.Refuses c packed shape awaited e → calls.RefusesSend (seen c) packed e };

    /// So is the leave of a caller.
    ghost cancels: { (c : Self) (p : ℕ) → seen (Self.cancelled c p) ≡ calls.cancelled (seen c) p };

    /// Its outcomes are the connection's.
    ghost outcomes: { (c : Self) (p : ℕ) → Self.outcome_of c p ≡ connection.outcome_of (seen c) p };

    /// So is its database.
    ghost databases: { (c : Self) → Self.database c ≡ (seen c).core.info.db };

    /// What may be told the connection may be told it.
    ghost fits: { (c : Self) (what : Happening) → like.Fits (seen c) what → Self.Fits c what };

    /// A turn is one of the connection.
    ghost turns: { (c : Self) (draw : ℕ) (what : Happening) → seen (Self.behind c draw what) ≡ like.behind (seen c) what };

    /// It shows the same.
    ghost shows: { (c : Self) (draw : ℕ) (what : Happening) → Self.shown_by c draw what ≡ like.shown_by (seen c) what };

    /// It gives out as many numbers.
    ghost spends: { (c : Self) (draw : ℕ) (what : Happening) → Self.Spends c draw what → like.Spends (seen c) what };

    /// It has failed where the connection has.
    ghost failures: { (c : Self) → Self.failure_of c ≡ (seen c).core.failure };
}

impl ConnectionLike for MultiplexedConnection {
    ghost use Rattle.std.proofs.Common.{refl};
    ghost use Rattle.mux_client.specs.LikeLaws as laws;

    type Act = ConnectionAct;

    ghost next_number = { calls.next_number };

    ghost sent = { calls.sent };

    ghost Refuses = { λ c packed shape awaited e. calls.RefusesSend c packed e };

    ghost cancelled = { calls.cancelled };

    ghost outcome_of = { connection.outcome_of };

    ghost database = { λ c. c.core.info.db };

    ghost Fits = { like.Fits };

    ghost behind = { λ c draw what. like.behind c what };

    ghost shown_by = { λ c draw what. like.shown_by c what };

    ghost Spends = { λ c draw what. like.Spends c what };

    ghost failure_of = { λ c. c.core.failure };

    ghost rises = { laws.numbers_rise };

    ghost keeps = { λ c packed shape awaited p there. laws.sends_keep c packed shape awaited p };

    ghost empty = { λ c packed shape awaited e why. why };

    ghost leaves = { λ c p q. refl };

    ghost numbered = { laws.cancels_keep };

    fn req_packed_command(&mut self, alloc: Global, command: &Cmd) -> Result<Pending, SendError> {
        self.send_packed_command(alloc, command)
    }

    fn req_packed_commands(
        &mut self,
        alloc: Global,
        pipeline: &Pipeline,
        offset: u32,
        count: u32,
    ) -> Result<Pending, SendError> {
        self.send_packed_commands(alloc, pipeline, offset, count)
    }

    fn get_db(&self) -> i64 {
        MultiplexedConnection::get_db(self)
    }

    fn step(
        &mut self,
        alloc: Global,
        event: ConnectionEvent<'_>,
        out: &mut Vec<ConnectionAct>,
    ) -> Result<(), ConnectionError> {
        if let ConnectionNews::Late { request } = event.news {
            return self.step_late(alloc, event.word, request, out);
        }
        let news = event.news.seen_on(self.link);
        let word = event.word;
        MultiplexedConnection::step(self, alloc, LinkEvent { word, news }, out)
    }

    fn can_hear(&self, news: ConnectionNews<'_>) -> bool {
        match news.seen_on(self.link) {
            LinkNews::Took { count } => self.can_take(count),
            _ => true,
        }
    }

    fn poll(&self, request: &Pending) -> Option<&Outcome> {
        MultiplexedConnection::poll(self, request)
    }

    fn cancel(&mut self, request: Pending) {
        MultiplexedConnection::cancel(self, request);
    }
}

impl Connect for MultiplexedConnection {
    ghost use Rattle.std.proofs.Common.{refl};

    ghost seen = { λ c. c };

    ghost numbers = { λ c. refl };

    ghost sends = { λ c packed shape awaited. refl };

    ghost refusals = { λ c packed shape awaited e why. why };

    ghost cancels = { λ c p. refl };

    ghost outcomes = { λ c p. refl };

    ghost databases = { λ c. refl };

    ghost fits = { λ c what fits. fits };

    ghost turns = { λ c draw what. refl };

    ghost shows = { λ c draw what. refl };

    ghost spends = { λ c draw what spent. spent };

    ghost failures = { λ c. refl };

    fn connect_with_config(
        alloc: Global,
        info: &ConnectionInfo,
        config: &AsyncConnectionConfig,
        link: u32,
    ) -> Result<MultiplexedConnection, OpenError> {
        MultiplexedConnection::new_with_config(alloc, &info.redis, link, config)
    }

    fn send_internal(&mut self, alloc: Global, pipeline: &Pipeline) -> Result<Pending, SendError> {
        MultiplexedConnection::send_internal(self, alloc, pipeline)
    }
}
