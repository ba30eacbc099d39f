ghost use Rattle.std.specs.Prelude.{◌≡◌, ◌⊎◌, ◌++◌, [], true, Some, None, OnOk, OnErr, IfOk, IsErrOf};
ghost use Rattle.mux_client.specs.Shown.{shown_each, kept_each};
ghost use Rattle.driver_model.specs.News.{silence, told};
ghost use Rattle.mux_conn.specs.Connection.{uses_up};
ghost use Rattle.mux_conn.specs.Effects.{IsWithin};

use crate::act::ConnectionAct;
use crate::connection::MultiplexedConnection;
use crate::showing::{Answer, keep_each, show_each};
use containers::Seq;
use driver_model::{LinkEvent, LinkNews};
use mux_conn::{ConnectionError, LinkAct, Pending};
use std::alloc::{AllocError, Global};

impl MultiplexedConnection {
    ghost use Rattle.mux_client.specs.Calls.{late, stepped, acts_of, turn_of, with_answers};

    /// One turn: its link's news has its effect, requests are moved as far as they can go, and `out` gains what is to be done,
    /// that of the sends before included. After an error `out` and the outcomes are as they were, the connection has failed, and
    /// each later call that can fail answers the same.
    pub fn step(
        &mut self,
        alloc: Global,
        event: LinkEvent<'_>,
        out: &mut Vec<ConnectionAct>,
    ) -> Result<(), ConnectionError>
        requires { IsWithin self.old.core.life (told event.news) }
        ensures conn { OnOk result (self.new ≡ stepped self.old (told event.entry.news)) }
        ensures acts { OnOk result (
            out.new.items ≡ out.old.items ++ acts_of self.old (told event.entry.news)
            ) }
        ensures err { OnErr result (out.new.items ≡ out.old.items) }
        ensures sound { OnOk result (self.old.core.failure ≡ None) }
        ensures spent { IsErrOf result ConnectionError.Spent
            → (self.old.core.failure ≡ Some ConnectionError.Spent)
            ⊎ (uses_up (turn_of self.old (told event.entry.news)) ≡ true) }
        ensures fails { (e : ConnectionError) → IsErrOf result e → self.new.core.failure ≡ Some e }
        ensures failed { (e : ConnectionError) → self.old.core.failure ≡ Some e → IsErrOf result e }
        ensures kept { OnErr result (self.new.outcomes ≡ self.old.outcomes) }
    {
        match self.step_holding_answers(alloc, event, out) {
            Ok(answers) => {
                self.deliver_answers(answers);
                Ok(())
            }
            Err(error) => Err(error),
        }
    }

    /// The same, but nobody has the outcomes of the turn before they are handed to `deliver_answers`.
    pub fn step_holding_answers(
        &mut self,
        alloc: Global,
        event: LinkEvent<'_>,
        out: &mut Vec<ConnectionAct>,
    ) -> Result<Seq<Answer>, ConnectionError>
        requires { IsWithin self.old.core.life (told event.news) }
        ensures conn { IfOk result (λ answers.
            with_answers self.new answers ≡ stepped self.old (told event.entry.news)
            ) }
        ensures acts { OnOk result (
            out.new.items ≡ out.old.items ++ acts_of self.old (told event.entry.news)
            ) }
        ensures err { OnErr result (out.new.items ≡ out.old.items) }
        ensures sound { OnOk result (self.old.core.failure ≡ None) }
        ensures spent { IsErrOf result ConnectionError.Spent
            → (self.old.core.failure ≡ Some ConnectionError.Spent)
            ⊎ (uses_up (turn_of self.old (told event.entry.news)) ≡ true) }
        ensures fails { (e : ConnectionError) → IsErrOf result e → self.new.core.failure ≡ Some e }
        ensures failed { (e : ConnectionError) → self.old.core.failure ≡ Some e → IsErrOf result e }
        ensures kept { self.new.outcomes ≡ self.old.outcomes }
    {
        let mut acts = Vec::new(alloc);
        match self.core.step(alloc, event, &mut acts) {
            Ok(()) => {}
            Err(error) => return Err(error),
        }
        match self.show_apart(alloc, acts, out) {
            Ok(answers) => Ok(answers),
            Err(_) => Err(self.refuse_memory()),
        }
    }

    /// The outcomes of a turn are kept. Takes no memory.
    pub fn deliver_answers(&mut self, answers: Seq<Answer>)
        ensures { self.new ≡ with_answers self.old answers }
    {
        keep_each(answers, &mut self.outcomes);
    }

    /// A turn in which the timer of a request has fired, and nothing else happened. After an error `out` and the outcomes are as
    /// they were, and the connection has failed.
    pub(crate) fn step_late(
        &mut self,
        alloc: Global,
        word: u64,
        request: Pending,
        out: &mut Vec<ConnectionAct>,
    ) -> Result<(), ConnectionError>
        ensures conn { OnOk result (self.new ≡ stepped (late self.old request.number) silence) }
        ensures acts { OnOk result (
            out.new.items ≡ out.old.items ++ acts_of (late self.old request.number) silence
            ) }
        ensures err { OnErr result (out.new.items ≡ out.old.items) }
        ensures sound { OnOk result (self.old.core.failure ≡ None) }
        ensures spent { IsErrOf result ConnectionError.Spent
            → (self.old.core.failure ≡ Some ConnectionError.Spent)
            ⊎ (uses_up (turn_of (late self.old request.number) silence) ≡ true) }
        ensures fails { (e : ConnectionError) → IsErrOf result e → self.new.core.failure ≡ Some e }
        ensures failed { (e : ConnectionError) → self.old.core.failure ≡ Some e → IsErrOf result e }
        ensures kept { OnErr result (self.new.outcomes ≡ self.old.outcomes) }
    {
        if let Some(error) = self.core.failure {
            return Err(error);
        }
        let mut acts = Vec::new(alloc);
        match self.core.time_out(request, &mut acts) {
            Ok(()) => {}
            Err(_) => return Err(self.refuse_memory()),
        }
        let news = LinkNews::Silence;
        match self.core.step(alloc, LinkEvent { word, news }, &mut acts) {
            Ok(()) => {}
            Err(error) => return Err(error),
        }
        match self.show(alloc, acts, out) {
            Ok(()) => Ok(()),
            Err(_) => Err(self.refuse_memory()),
        }
    }

    /// What was to be shown, and then what the machine did, whose outcomes are kept. After an error `out` and the outcomes are as
    /// they were.
    #[tactic(auto, using(crate::proofs::Kept::kept_among))]
    fn show(
        &mut self,
        alloc: Global,
        acts: Vec<LinkAct>,
        out: &mut Vec<ConnectionAct>,
    ) -> Result<(), AllocError>
        ensures conn { OnOk result (
            self.new
            ≡ record self.old { outcomes = kept_each self.old.outcomes acts.items; early = [] }
            ) }
        ensures acts { OnOk result (
            out.new.items ≡ out.old.items ++ self.old.early ++ shown_each acts.items
            ) }
        ensures err { OnErr result (out.new.items ≡ out.old.items) }
        ensures kept { OnErr result (self.new.outcomes ≡ self.old.outcomes) }
    {
        let answers = self.show_apart(alloc, acts, out)?;
        self.deliver_answers(answers);
        Ok(())
    }

    /// The same, but the outcomes are handed over.
    #[tactic(auto, using(crate::proofs::Kept::kept_among))]
    fn show_apart(
        &mut self,
        alloc: Global,
        acts: Vec<LinkAct>,
        out: &mut Vec<ConnectionAct>,
    ) -> Result<Seq<Answer>, AllocError>
        ensures conn { IfOk result (λ answers.
            with_answers self.new answers
            ≡ record self.old { outcomes = kept_each self.old.outcomes acts.items; early = [] }
            ) }
        ensures acts { OnOk result (
            out.new.items ≡ out.old.items ++ self.old.early ++ shown_each acts.items
            ) }
        ensures err { OnErr result (out.new.items ≡ out.old.items) }
        ensures kept { self.new.outcomes ≡ self.old.outcomes }
    {
        let mut answers = Seq::new(alloc);
        show_each(acts, &mut answers, &mut self.early)?;
        self.early.move_into(out)?;
        Ok(answers)
    }

    /// The timer of a request has fired: where the request is pending, its outcome is that its time is over. The next step shows
    /// it. After an error the outcomes are as they were, the connection has failed, and each later call that can fail answers the
    /// same.
    pub fn time_out(&mut self, alloc: Global, request: Pending) -> Result<(), ConnectionError>
        ensures conn { OnOk result (self.new ≡ late self.old request.number) }
        ensures sound { OnOk result (self.old.core.failure ≡ None) }
        ensures fails { (e : ConnectionError) → IsErrOf result e → self.new.core.failure ≡ Some e }
        ensures failed { (e : ConnectionError) → IsErrOf result e
            → (self.old.core.failure ≡ Some e) ⊎ (e ≡ ConnectionError.NoMemory) }
        ensures same { (e : ConnectionError) → self.old.core.failure ≡ Some e → IsErrOf result e }
        ensures kept { OnErr result (self.new.outcomes ≡ self.old.outcomes) }
    {
        if let Some(error) = self.core.failure {
            return Err(error);
        }
        match self.run_late(alloc, request) {
            Ok(()) => Ok(()),
            Err(_) => Err(self.refuse_memory()),
        }
    }

    /// The machine notes it, and its outcome is kept. An error leaves the outcomes as they were.
    #[tactic(auto, using(crate::proofs::Kept::kept_among))]
    fn run_late(&mut self, alloc: Global, request: Pending) -> Result<(), AllocError>
        ensures late { OnOk result (self.new ≡ late self.old request.number) }
        ensures kept { OnErr result (self.new.outcomes ≡ self.old.outcomes) }
    {
        let mut acts = Vec::new(alloc);
        self.core.time_out(request, &mut acts)?;
        let mut answers = Seq::new(alloc);
        show_each(acts, &mut answers, &mut self.early)?;
        keep_each(answers, &mut self.outcomes);
        Ok(())
    }

    /// Memory was refused: the connection fails from now on. Its outcomes stay.
    pub fn refuse_memory(&mut self) -> ConnectionError
        ensures value { result ≡ ConnectionError.NoMemory }
        ensures failure { self.new.core.failure ≡ Some ConnectionError.NoMemory }
        ensures outcomes { self.new.outcomes ≡ self.old.outcomes }
    {
        self.core.failure = Some(ConnectionError::NoMemory);
        ConnectionError::NoMemory
    }
}
