ghost use Rattle.std.specs.Prelude.{◌≡◌, ◌<◌, true, length, slice_get, OnOk};

use crate::makers::connection;
use crate::request::{Call, HeldRequest, Stage};
use connection_info::RedisConnectionInfo;
use containers::{Queue, Seq};
use driver_model::{Outcome, WaitKind};
use manager_generations::{Generations, ManagerAct};
use mux_conn::{ConnectionError, MultiplexedConnection as Core, Pending};
use std::alloc::{AllocError, Global};
use sub_tracker::SubscriptionTracker;

/// A connection that comes back: where its link is lost, the next request, or the loss itself, makes it connect anew. It opens
/// nothing itself: each `step` is told what happened, and shows what is to be done. Its fields are for contracts: calls alone
/// change them.
pub struct ConnectionManager {
    /// What is said to the server before the first request.
    pub info: RedisConnectionInfo,
    pub generations: Generations,
    /// The connection over the link that was asked for last.
    pub conn: Core,
    /// How far each request has come, by its number.
    pub stages: Seq<Stage>,
    /// The outcome of each request that has one.
    pub outcomes: Seq<Option<Outcome>>,
    /// What each request does that is a subscription call.
    pub calls: Seq<Option<Call>>,
    /// The requests that wait until their generation is ready, in order, and some whose callers have gone.
    pub held: Queue<HeldRequest>,
    /// Those of them whose wait hasn't been shown.
    pub fresh: Queue<u32>,
    /// Those that got their outcome in this turn, the last one first.
    pub recent: Queue<u32>,
    /// What was shown that they wait for.
    pub wait: Option<WaitKind>,
    /// What is subscribed.
    pub tracker: SubscriptionTracker,
    /// Why every call fails, if it does: a call was refused memory, or a number has run out.
    pub failure: Option<ConnectionError>,
}

impl Drop for ConnectionManager {
    fn drop(self) {
        let ConnectionManager {
            info,
            generations,
            conn,
            stages,
            outcomes,
            calls,
            held,
            fresh,
            recent,
            wait: _,
            tracker,
            failure: _,
        } = self;
        drop(info);
        drop(generations);
        drop(conn);
        drop(stages);
        drop(outcomes);
        drop(calls);
        drop(held);
        drop(fresh);
        drop(recent);
        drop(tracker);
    }
}

impl ConnectionManager {
    ghost use Rattle.conn_manager.specs.Manager.{said, link_of, is_current};
    ghost use Rattle.conn_manager.specs.Manager.{is_open_at, is_held_at, tracked_call, tracked};
    ghost use Rattle.conn_manager.specs.Manager.{weighed, is_missing, kept, answered, standing};
    ghost use Rattle.conn_manager.specs.Calls.{outcomes_but};
    ghost use Rattle.conn_manager.specs.Turn.{reconnected};

    /// One more act.
    pub(crate) fn say(&mut self, act: ManagerAct) -> Result<(), AllocError>
        ensures done { OnOk result (self.new ≡ said self.old act) }
        ensures outcomes { self.new.outcomes ≡ self.old.outcomes }
        ensures stands { standing self.new ≡ standing self.old }
    {
        self.generations.show(act)
    }

    /// The number of the link that was asked for last.
    pub(crate) fn link(&self) -> u32
        ensures { result ≡ link_of self.now.generations }
    {
        self.generations.links.saturating_sub(1)
    }

    /// Whether the link of this number was asked for last.
    pub(crate) fn is_current(&self, link: u32) -> bool
        ensures { result ≡ is_current self.now.generations link }
    {
        u64::from(link) + 1 == u64::from(self.generations.links)
    }

    /// Over the link that is asked for there is a connection of its own.
    pub(crate) fn reconnect(&mut self, alloc: Global) -> Result<(), AllocError>
        ensures done { OnOk result (self.new ≡ reconnected self.old) }
        ensures outcomes { self.new.outcomes ≡ self.old.outcomes }
        ensures stands { standing self.new ≡ standing self.old }
    {
        let told = self.info.clone(alloc)?;
        self.conn = connection(alloc, self.generations.settings.config.connection, told)?;
        Ok(())
    }

    /// Whether a request is neither answered nor left by its caller.
    pub(crate) fn is_open(&self, number: u32) -> bool
        ensures value { result ≡ is_open_at self.now.stages number }
        ensures there { result ≡ true → number < length self.now.stages }
    {
        if number as usize >= self.stages.len() {
            return false;
        }
        match self.stages.at(number as usize) {
            Stage::Held => true,
            Stage::Sent { link: _, number: _ } => true,
            Stage::Closed => false,
        }
    }

    /// Whether a request waits until its generation is ready.
    pub(crate) fn is_held(&self, number: u32) -> bool
        ensures value { result ≡ is_held_at self.now.stages number }
        ensures there { result ≡ true → number < length self.now.stages }
    {
        if number as usize >= self.stages.len() {
            return false;
        }
        match self.stages.at(number as usize) {
            Stage::Held => true,
            Stage::Sent { link: _, number: _ } => false,
            Stage::Closed => false,
        }
    }

    /// A confirmed subscription call is tracked, where the request of this number is one.
    fn track_call(&mut self, alloc: Global, number: u32) -> Result<(), AllocError>
        ensures done { OnOk result (
            self.new
            ≡ record self.old { tracker = tracked_call self.old.tracker (slice_get self.old.calls number) }
            ) }
        ensures outcomes { self.new.outcomes ≡ self.old.outcomes }
        ensures stands { standing self.new ≡ standing self.old }
    {
        if number as usize >= self.calls.len() {
            return Ok(());
        }
        match self.calls.at(number as usize) {
            Some(call) => {
                self.tracker
                    .update_with_request(alloc, call.action, &call.names)
            }
            None => Ok(()),
        }
    }

    /// What the outcome of a request says of what is subscribed.
    fn track(&mut self, alloc: Global, number: u32, outcome: &Outcome) -> Result<(), AllocError>
        ensures done { OnOk result (
            self.new
            ≡ record self.old {
              tracker = tracked self.old.tracker (slice_get self.old.calls number) outcome.now;
            }
            ) }
        ensures outcomes { self.new.outcomes ≡ self.old.outcomes }
        ensures stands { standing self.new ≡ standing self.old }
    {
        match outcome {
            Outcome::Done => self.track_call(alloc, number),
            Outcome::One(_) => Ok(()),
            Outcome::Many(_) => Ok(()),
            Outcome::Fault(_) => Ok(()),
        }
    }

    /// The error of an outcome may be a cause for the next generation.
    fn weigh(&mut self, outcome: &Outcome)
        ensures done { self.new ≡ weighed self.old outcome.now }
        ensures outcomes { self.new.outcomes ≡ self.old.outcomes }
        ensures stands { standing self.new ≡ standing self.old }
    {
        match outcome {
            Outcome::Fault(error) => self.generations.answer(error),
            Outcome::One(_) => {}
            Outcome::Many(_) => {}
            Outcome::Done => {}
        }
    }

    /// An open request is answered.
    pub(crate) fn answer(
        &mut self,
        alloc: Global,
        number: u32,
        outcome: Outcome,
    ) -> Result<(), AllocError>
        ensures done { OnOk result (self.new ≡ answered self.old number outcome) }
        ensures outcomes { outcomes_but self.new number ≡ outcomes_but self.old number }
        ensures stands { standing self.new ≡ standing self.old }
    {
        if !self.is_open(number) {
            drop(outcome);
            return Ok(());
        }
        self.stages.set(number as usize, Stage::Closed);
        let tracked = self.track(alloc, number, &outcome);
        self.weigh(&outcome);
        let placed = self.keep(number, outcome);
        match tracked {
            Ok(()) => {}
            Err(error) => return Err(error),
        }
        match placed {
            Ok(()) => self.say(ManagerAct::Answered {
                request: Pending { number },
            }),
            Err(error) => Err(error),
        }
    }

    /// Whether there is a place for the outcome of a request, in which none stands.
    fn is_missing(&self, number: u32) -> bool
        ensures value { result ≡ is_missing (slice_get self.now.outcomes number) }
        ensures there { result ≡ true → number < length self.now.outcomes }
    {
        if number as usize >= self.outcomes.len() {
            return false;
        }
        match self.outcomes.at(number as usize) {
            None => true,
            Some(_) => false,
        }
    }

    /// An outcome in its place, where there is one and none stands there.
    #[tactic(auto, using(crate::proofs::Standing::kept_stands, crate::proofs::Standing::kept_but))]
    fn keep(&mut self, number: u32, outcome: Outcome) -> Result<(), AllocError>
        ensures done { OnOk result (self.new ≡ kept self.old number outcome) }
        ensures outcomes { outcomes_but self.new number ≡ outcomes_but self.old number }
        ensures stands { standing self.new ≡ standing self.old }
    {
        if !self.is_missing(number) {
            drop(outcome);
            return Ok(());
        }
        match self.recent.push_front(number) {
            Ok(()) => {}
            Err(error) => {
                drop(outcome);
                return Err(error);
            }
        }
        self.outcomes.set(number as usize, Some(outcome));
        Ok(())
    }

    /// The number of the current generation; 0 while none has begun. Takes no memory.
    pub fn generation(&self) -> u32
        ensures { result ≡ self.now.generations.number }
    {
        self.generations.number
    }

    /// The database that its setup chooses. Takes no memory.
    pub fn get_db(&self) -> i64
        ensures { result ≡ self.now.info.db }
    {
        self.info.db
    }
}
