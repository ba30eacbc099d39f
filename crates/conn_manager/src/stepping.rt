ghost use Rattle.std.specs.Prelude.{◌≡◌, ◌⊎◌, ◌++◌, [], ℕ, None, Some, slice_set, OnOk, OnErr, IsErrOf};
ghost use Rattle.mux_client.specs.Events.{happened};
ghost use Rattle.conn_manager.specs.Fitting.{IsFitting};
ghost use Rattle.conn_manager.specs.Manager.{standing, without};

use crate::manager::ConnectionManager;
use containers::{Queue, Seq};
use driver_model::Outcome;
use manager_generations::ManagerAct;
use mux_client::{ConnectionEvent, ConnectionNews};
use mux_conn::ConnectionError;
use std::alloc::Global;

/// No outcome stands in this place, where there is one.
fn clear(outcomes: &mut Seq<Option<Outcome>>, number: u32)
    ensures { outcomes.new ≡ slice_set outcomes.old number None }
{
    if (number as usize) < outcomes.len() {
        outcomes.set(number as usize, None);
    }
}

/// The outcomes of these requests are taken back. Takes no memory.
fn take_back(outcomes: &mut Seq<Option<Outcome>>, requests: Queue<u32>)
    ensures { outcomes.new ≡ without outcomes.old requests }
{
    let mut rest = requests;
    while let Some(number) = rest.pop_front() {
        clear(outcomes, number);
    }
}

impl ConnectionManager {
    ghost use Rattle.conn_manager.specs.Calls.{outcome_of};
    ghost use Rattle.conn_manager.specs.Spending.{Spends};
    ghost use Rattle.conn_manager.specs.Turn.{started, turned, stepped};

    /// A turn begins, in which nobody has got an outcome.
    fn start(&mut self, alloc: Global)
        ensures done { self.new ≡ started self.old }
        ensures stands { standing self.new ≡ self.old.outcomes }
    {
        self.recent = Queue::new(alloc);
    }

    /// The parts of a turn, one after the other.
    #[tactic(auto, using(crate::proofs::Spent::spends_effect, crate::proofs::Spent::spends_next))]
    fn turn(
        &mut self,
        alloc: Global,
        draw: u64,
        news: ConnectionNews<'_>,
    ) -> Result<(), ConnectionError>
        requires { IsFitting self.old (happened news) }
        ensures done { OnOk result (self.new ≡ turned self.old draw (happened news.entry)) }
        ensures spent { IsErrOf result ConnectionError.Spent
            → Spends self.old draw (happened news.entry) }
        ensures stands { standing self.new ≡ standing self.old }
    {
        match self.apply(alloc, draw, news) {
            Ok(()) => {}
            Err(error) => return Err(error),
        }
        match self.settle(alloc) {
            Ok(()) => {}
            Err(error) => return Err(error),
        }
        match self.pass(alloc, draw) {
            Ok(()) => {}
            Err(error) => return Err(error),
        }
        self.flush(alloc, draw)
    }

    /// One turn: what happened has its effect, the next generation begins where a cause came, requests are moved as far as they
    /// can go, and `out` gains what is to be done, that of the calls before included. `Spent` comes where the number 2^32 - 1
    /// would be given to a link, a generation, a request of its connection or a message. After an error `out` and the outcomes
    /// are as they were, the manager has failed, and each later call that can fail answers the same.
    #[tactic(auto, using(crate::proofs::Standing::fits_started))]
    pub fn step(
        &mut self,
        alloc: Global,
        event: ConnectionEvent<'_>,
        out: &mut Vec<ManagerAct>,
    ) -> Result<(), ConnectionError>
        requires { IsFitting self.old (happened event.news) }
        ensures manager { OnOk result (
            self.new ≡ stepped self.old event.entry.word (happened event.entry.news)
            ) }
        ensures acts { OnOk result (
            out.new.items
            ≡ out.old.items ++ (turned (started self.old) event.entry.word (happened event.entry.news)).generations.acts
            ) }
        ensures err { OnErr result (out.new.items ≡ out.old.items) }
        ensures sound { OnOk result (self.old.failure ≡ None) }
        ensures spent { IsErrOf result ConnectionError.Spent
            → (self.old.failure ≡ Some ConnectionError.Spent)
            ⊎ Spends (started self.old) event.entry.word (happened event.entry.news) }
        ensures fails { (e : ConnectionError) → IsErrOf result e → self.new.failure ≡ Some e }
        ensures failed { (e : ConnectionError) → self.old.failure ≡ Some e → IsErrOf result e }
        ensures kept { OnErr result ((p : ℕ) → outcome_of self.new p ≡ outcome_of self.old p) }
    {
        if let Some(error) = self.failure {
            return Err(error);
        }
        self.start(alloc);
        match self.turn(alloc, event.word, event.news) {
            Ok(()) => {}
            Err(error) => return Err(self.fail_turn(alloc, error)),
        }
        match self.generations.acts.move_into(out) {
            Ok(()) => Ok(()),
            Err(_) => Err(self.fail_turn(alloc, ConnectionError::NoMemory)),
        }
    }

    /// The turn has failed: what it answered is taken back, and the manager fails with this error from now on.
    fn fail_turn(&mut self, alloc: Global, error: ConnectionError) -> ConnectionError
        ensures value { result ≡ error }
        ensures failure { self.new.failure ≡ Some error }
        ensures outcomes { self.new.outcomes ≡ standing self.old }
    {
        let recent = std::mem::replace(&mut self.recent, Queue::new(alloc));
        take_back(&mut self.outcomes, recent);
        self.refuse(error)
    }

    /// The manager fails with this error from now on.
    pub(crate) fn refuse(&mut self, error: ConnectionError) -> ConnectionError
        ensures value { result ≡ error }
        ensures failure { self.new ≡ record self.old { failure = Some error } }
    {
        self.failure = Some(error);
        error
    }
}
