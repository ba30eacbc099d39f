ghost use Rattle.std.specs.Prelude.{◌≡◌, ◌⊎◌, ◌++◌, [], length, true, None, Some, OnOk, OnErr};
ghost use Rattle.std.specs.Prelude.{IfOk, IsErrOf};

use crate::act::LinkAct;
use crate::connection::MultiplexedConnection;
use crate::errors::ConnectionError;
use crate::request::Pending;
use driver_model::{LinkEvent, LinkNews};
use std::alloc::{AllocError, Global};

impl MultiplexedConnection {
    ghost use Rattle.driver_model.specs.News.{told};
    ghost use Rattle.mux_conn.specs.Connection.{work_with, runs_out, uses_up};
    ghost use Rattle.mux_conn.specs.Effects.{applied, IsWithin};
    ghost use Rattle.mux_conn.specs.Passes.{passed, advanced, can_advance};
    ghost use Rattle.mux_conn.specs.Turn.{flushed, stepped};

    /// The effect of news of its link, whose acts `out` gains. No request is moved. After an error nothing is said of what
    /// `out` gained.
    pub fn apply(
        &mut self,
        alloc: Global,
        news: LinkNews<'_>,
        out: &mut Vec<LinkAct>,
    ) -> Result<(), ConnectionError>
        requires { IsWithin self.old.life (told news) }
        ensures work { OnOk result (
            work_with self.new out.new.items
            ≡ applied (work_with self.old out.old.items) (told news.entry)
            ) }
        ensures count { length self.new.requests ≡ length self.old.requests }
        ensures sound { OnOk result (self.new.failure ≡ None) }
        ensures unspent { IsErrOf result ConnectionError.Spent
            → self.old.failure ≡ Some ConnectionError.Spent }
        ensures fails { (e : ConnectionError) → IsErrOf result e → self.new.failure ≡ Some e }
        ensures failed { (e : ConnectionError) → self.old.failure ≡ Some e
            → IsErrOf result e }
    {
        if let Some(error) = self.failure {
            return Err(error);
        }
        match self.hear(alloc, news, out) {
            Ok(()) => Ok(()),
            Err(_) => Err(self.refuse(ConnectionError::NoMemory)),
        }
    }

    /// The driver says what it has to itself, and every request is moved as far as it can go. After an error nothing is said of what
    /// `out` gained.
    pub fn advance_all(
        &mut self,
        alloc: Global,
        out: &mut Vec<LinkAct>,
    ) -> Result<(), ConnectionError>
        ensures work { OnOk result (
            work_with self.new out.new.items ≡ passed (work_with self.old out.old.items)
            ) }
        ensures count { length self.new.requests ≡ length self.old.requests }
        ensures sound { OnOk result (self.new.failure ≡ None) }
        ensures spent { IsErrOf result ConnectionError.Spent
            → (self.old.failure ≡ Some ConnectionError.Spent)
            ⊎ (uses_up (passed (work_with self.old out.old.items)) ≡ true) }
        ensures fails { (e : ConnectionError) → IsErrOf result e → self.new.failure ≡ Some e }
        ensures failed { (e : ConnectionError) → self.old.failure ≡ Some e
            → IsErrOf result e }
    {
        if let Some(error) = self.failure {
            return Err(error);
        }
        match self.pass(alloc, out) {
            Ok(()) => Ok(()),
            Err(error) => Err(self.refuse(error)),
        }
    }

    /// One request is moved as far as it can go, which needn't be the oldest: the answer is whether it moves. After an error
    /// nothing is said of what `out` gained.
    pub fn advance(
        &mut self,
        alloc: Global,
        request: Pending,
        out: &mut Vec<LinkAct>,
    ) -> Result<bool, ConnectionError>
        ensures answer { IfOk result (λ moves. moves ≡ can_advance self.old request.number) }
        ensures work { OnOk result (
            work_with self.new out.new.items
            ≡ advanced (work_with self.old out.old.items) request.number
            ) }
        ensures count { length self.new.requests ≡ length self.old.requests }
        ensures sound { OnOk result (self.new.failure ≡ None) }
        ensures spent { IsErrOf result ConnectionError.Spent
            → (self.old.failure ≡ Some ConnectionError.Spent)
            ⊎ (runs_out (advanced (work_with self.old out.old.items) request.number) ≡ true) }
        ensures fails { (e : ConnectionError) → IsErrOf result e → self.new.failure ≡ Some e }
        ensures failed { (e : ConnectionError) → self.old.failure ≡ Some e
            → IsErrOf result e }
    {
        if let Some(error) = self.failure {
            return Err(error);
        }
        match self.advance_one(alloc, request.number, out) {
            Ok(moves) => Ok(moves),
            Err(error) => Err(self.refuse(error)),
        }
    }

    /// What a turn ends with: the link's one write, and the waits that began. After an error nothing is said of what `out`
    /// gained.
    pub fn flush(&mut self, alloc: Global, out: &mut Vec<LinkAct>) -> Result<(), ConnectionError>
        ensures work { OnOk result (
            work_with self.new out.new.items ≡ flushed (work_with self.old out.old.items)
            ) }
        ensures count { length self.new.requests ≡ length self.old.requests }
        ensures sound { OnOk result (self.new.failure ≡ None) }
        ensures unspent { IsErrOf result ConnectionError.Spent
            → self.old.failure ≡ Some ConnectionError.Spent }
        ensures fails { (e : ConnectionError) → IsErrOf result e → self.new.failure ≡ Some e }
        ensures failed { (e : ConnectionError) → self.old.failure ≡ Some e
            → IsErrOf result e }
    {
        if let Some(error) = self.failure {
            return Err(error);
        }
        match self.end_turn(alloc, out) {
            Ok(()) => Ok(()),
            Err(_) => Err(self.refuse(ConnectionError::NoMemory)),
        }
    }

    /// A whole turn. After an error `out` is as it was.
    pub fn step(
        &mut self,
        alloc: Global,
        event: LinkEvent<'_>,
        out: &mut Vec<LinkAct>,
    ) -> Result<(), ConnectionError>
        requires { IsWithin self.old.life (told event.news) }
        ensures conn { OnOk result (
            self.new ≡ (stepped (work_with self.old []) (told event.entry.news)).conn
            ) }
        ensures acts { OnOk result (
            out.new.items
            ≡ out.old.items ++ (stepped (work_with self.old []) (told event.entry.news)).acts
            ) }
        ensures err { OnErr result (out.new.items ≡ out.old.items) }
        ensures count { length self.new.requests ≡ length self.old.requests }
        ensures sound { OnOk result (self.new.failure ≡ None) }
        ensures spent { IsErrOf result ConnectionError.Spent
            → (self.old.failure ≡ Some ConnectionError.Spent)
            ⊎ (uses_up (stepped (work_with self.old []) (told event.entry.news)) ≡ true) }
        ensures fails { (e : ConnectionError) → IsErrOf result e → self.new.failure ≡ Some e }
        ensures failed { (e : ConnectionError) → self.old.failure ≡ Some e
            → IsErrOf result e }
    {
        let mut acts = Vec::new(alloc);
        match self.turn(alloc, event.news, &mut acts) {
            Ok(()) => {}
            Err(error) => return Err(error),
        }
        match out.append(&mut acts) {
            Ok(()) => Ok(()),
            Err(_) => Err(self.refuse(ConnectionError::NoMemory)),
        }
    }

    /// The three parts of a turn, one after the other.
    fn turn(
        &mut self,
        alloc: Global,
        news: LinkNews<'_>,
        out: &mut Vec<LinkAct>,
    ) -> Result<(), ConnectionError>
        requires { IsWithin self.old.life (told news) }
        ensures work { OnOk result (
            work_with self.new out.new.items
            ≡ stepped (work_with self.old out.old.items) (told news.entry)
            ) }
        ensures count { length self.new.requests ≡ length self.old.requests }
        ensures sound { OnOk result (self.new.failure ≡ None) }
        ensures spent { IsErrOf result ConnectionError.Spent
            → (self.old.failure ≡ Some ConnectionError.Spent)
            ⊎ (uses_up (stepped (work_with self.old out.old.items) (told news.entry)) ≡ true) }
        ensures fails { (e : ConnectionError) → IsErrOf result e → self.new.failure ≡ Some e }
        ensures failed { (e : ConnectionError) → self.old.failure ≡ Some e
            → IsErrOf result e }
    {
        match self.apply(alloc, news, out) {
            Ok(()) => {}
            Err(error) => return Err(error),
        }
        match self.advance_all(alloc, out) {
            Ok(()) => {}
            Err(error) => return Err(error),
        }
        self.flush(alloc, out)
    }

    /// The connection fails with this error from now on.
    fn refuse(&mut self, error: ConnectionError) -> ConnectionError
        ensures value { result ≡ error }
        ensures conn { self.new ≡ record self.old { failure = Some error } }
    {
        self.failure = Some(error);
        error
    }
}
