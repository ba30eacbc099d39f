ghost use Rattle.std.specs.Prelude.{◌≡◌};

use crate::caller::Caller;
use crate::session::SharedSession;
use driver_model::Outcome;
use futures::Future;
use futures::task::{Context, Poll};
use std::alloc::{AllocError, Global};
use std::sync::Wait;

/// A submission whose outcome is to come. Each poll is one turn of its caller, and one that finds no outcome yields. The
/// caller is free again once this is dropped, and the submission then goes on.
#[derive(Drop)]
pub struct PendingSend<'a, R> {
    pub(crate) shared: &'a SharedSession,
    pub(crate) rt: &'a R,
    pub(crate) alloc: Global,
    pub(crate) caller: &'a mut Caller,
    pub(crate) number: u32,
}

impl<R> PendingSend<'_, R> {
    /// The number of the submission. An event that cancels it names this number.
    pub fn number(&self) -> u32
        ensures { result ≡ self.now.number }
    {
        self.number
    }
}

impl<R: Wait> Future for PendingSend<'_, R> {
    ghost use Rattle.std.specs.Prelude.{◌≡◌};
    ghost use Rattle.futures.specs.Poll.{IfReady, OnPending};
    ghost use Rattle.futures.specs.Task.{Covers, Keeps};
    ghost use Rattle.session_callers.specs.Calls.{Turned};
    ghost use Rattle.session_callers.specs.Sends.{Gives, Tells, outcome_seen};

    type Output = Result<Outcome, AllocError>;

    ghost can_poll = { λ p. p.caller.now.table ≡ p.shared.now.table.shared.table_id };

    ghost gives = { λ p. Gives p.caller.now.view p.number };

    fn poll(&mut self, cx: &mut Context<'_>) -> Poll<Result<Outcome, AllocError>>
        requires { self.old.caller.now.table ≡ self.old.shared.now.table.shared.table_id }
        ensures told { Tells (outcome_seen self.new.caller.now.view self.old.number) result }
        ensures turned { Turned self.old.caller.now.view self.new.caller.now.view }
        ensures mine { self.new.caller.now.view.mine ≡ self.old.caller.now.view.mine }
        ensures table { self.new.caller.now.table ≡ self.old.caller.now.table }
        ensures stays { (self.new.caller.ghost_name ≡ self.old.caller.ghost_name)
            × (self.new.shared ≡ self.old.shared) × (self.new.number ≡ self.old.number) }
        ensures value { IfReady result (Gives self.old.caller.now.view self.old.number) }
        ensures again { OnPending result (
            self.new.caller.now.table ≡ self.new.shared.now.table.shared.table_id
            ) }
        ensures same { OnPending result (
            (x : _) → Gives self.new.caller.now.view self.new.number x
            → Gives self.old.caller.now.view self.old.number x
            ) }
        ensures registered { OnPending result (Covers cx.new (λ _. ⊥)) }
        ensures kept { Keeps cx.old cx.new }
    {
        match self
            .shared
            .outcome_as(self.rt, self.alloc, self.caller, self.number)
        {
            Ok(Some(outcome)) => Poll::Ready(Ok(outcome)),
            Ok(None) => cx.yield_now(),
            Err(error) => Poll::Ready(Err(error)),
        }
    }
}
