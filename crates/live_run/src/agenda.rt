ghost use Rattle.std.specs.Prelude.{◌≡◌, ℕ, List, IfSome, OnOk, None, true};
ghost use Rattle.live_run.specs.Agenda.{agenda_of, answered, asks, begun, behind, first_due, noted, noted_each, undialled};
ghost use Rattle.live_run.specs.Places.{AreOthers, IsFirstAt, target_link};
ghost use Rattle.live_run.specs.Steps.{to_dial};

use crate::links::{Link, put_offer, remove_link, remove_number};
use crate::timers::{Pending, add_timer, due_by};
use containers::{Bytes, Queue, Seq};
use driver_model::Action;
use outside::{Call, Dialed, LinkGot, LinkPut};
use std::alloc::{AllocError, Global};

/// A link that is to be dialled.
#[derive(Drop)]
pub(crate) struct Target {
    pub(crate) link: u32,
    pub(crate) host: Bytes,
    pub(crate) port: u16,
    /// The generation whose link it is: 0 where there are none.
    pub(crate) generation: u32,
}

/// What the actions of a session ask of the world and is not done yet.
#[derive(Drop)]
pub(crate) struct Agenda {
    /// The actions from before the first pass, which are not noted yet.
    pub(crate) early: Seq<Action>,
    /// The links that are to be dialled, in the order of the actions.
    pub(crate) dials: Queue<Target>,
    /// The links that are to be closed, in the order of the actions.
    pub(crate) closes: Queue<u32>,
    /// The links that are up, in the order of their dials.
    pub(crate) links: Queue<Link>,
    /// The links whose dial answered `Yes` and that are not to be closed yet, in the order of their dials.
    pub(crate) unclosed: Queue<u32>,
    /// The timers that are to fire, the one that is due first in front.
    pub(crate) timers: Queue<Pending>,
    /// The moment of the pass.
    pub(crate) moment: u64,
    /// The generation that began last, whose links are asked for now: 0 before the first.
    pub(crate) generation: u32,
    /// Up to which number the dial is claimed.
    pub(crate) claimed: u32,
}

/// The place of the dial of a link, if it is to be dialled.
fn place_of(dials: &Queue<Target>, link: u32) -> Option<usize>
    ensures found { IfSome result (λ place. IsFirstAt target_link link place dials.now) }
    ensures none { result ≡ None → AreOthers target_link link dials.now }
{
    for place in 0..dials.len() {
        if dials.at(place).link == link {
            return Some(place);
        }
    }
    None
}

/// A link that ended before its dial is not dialled.
fn remove_dial(dials: &mut Queue<Target>, link: u32)
    ensures { dials.new ≡ undialled link dials.old }
{
    match place_of(dials, link) {
        Some(place) => dials.remove(place),
        None => {}
    }
}

/// Whether an action asks something of the agenda.
fn asks(action: &Action) -> bool
    ensures { result ≡ asks action.now }
{
    match action {
        Action::Connect {
            link: _,
            host: _,
            port: _,
        } => true,
        Action::Timer {
            timer: _,
            ms: _,
            purpose: _,
        } => true,
        Action::Close { link: _ } => true,
        Action::Write { link: _, bytes: _ } => true,
        Action::Generation { number: _ } => true,
        _ => false,
    }
}

impl Agenda {
    /// Before the first pass: nothing is noted of these actions.
    pub(crate) fn new(alloc: Global, early: Vec<Action>) -> Agenda
        ensures { result ≡ agenda_of early.items }
    {
        Agenda {
            early: Seq::from_vec(early),
            dials: Queue::new(alloc),
            closes: Queue::new(alloc),
            links: Queue::new(alloc),
            unclosed: Queue::new(alloc),
            timers: Queue::new(alloc),
            moment: 0,
            generation: 0,
            claimed: 0,
        }
    }

    /// A link ended, or is to be closed: it is no longer dialled, read and written, and is closed if it was connected.
    fn note_close(&mut self, link: u32) -> Result<(), AllocError>
        ensures { OnOk result (self.new ≡ noted self.old (Action.Close link)) }
    {
        remove_link(&mut self.links, link);
        remove_dial(&mut self.dials, link);
        if remove_number(&mut self.unclosed, link) {
            self.closes.push_back(link)?;
        }
        Ok(())
    }

    /// Notes what an action asks, that asks something.
    fn note_asked(&mut self, action: Action) -> Result<(), AllocError>
        requires { asks action ≡ true }
        ensures { OnOk result (self.new ≡ noted self.old action) }
    {
        match action {
            Action::Connect { link, host, port } => {
                let generation = self.generation;
                self.dials.push_back(Target {
                    link,
                    host,
                    port,
                    generation,
                })
            }
            Action::Timer {
                timer,
                ms,
                purpose: _,
            } => {
                let due = self.moment.saturating_add(ms);
                add_timer(&mut self.timers, Pending { timer, due })
            }
            Action::Close { link } => self.note_close(link),
            Action::Write { link, bytes } => {
                put_offer(&mut self.links, link, bytes);
                Ok(())
            }
            Action::Generation { number } => {
                self.generation = number;
                Ok(())
            }
            _ => unreachable!(),
        }
    }

    /// Notes what an action asks, if it asks something.
    #[tactic(auto, using(crate::proofs::Asked::unasked))]
    fn note(&mut self, action: Action) -> Result<(), AllocError>
        ensures { OnOk result (self.new ≡ noted self.old action) }
    {
        if asks(&action) {
            return self.note_asked(action);
        }
        drop(action);
        Ok(())
    }

    /// Notes what actions ask, in order.
    #[tactic(auto, using(crate::proofs::Claiming::claimed_each))]
    pub(crate) fn note_all(&mut self, actions: Vec<Action>) -> Result<(), AllocError>
        ensures noted { OnOk result (self.new ≡ noted_each self.old actions.items) }
        ensures claims { OnOk result (self.new.claimed ≡ self.old.claimed) }
    {
        let mut rest = Queue::from_vec(actions);
        while let Some(action) = rest.pop_front() {
            self.note(action)?;
        }
        Ok(())
    }

    /// A pass begins at this moment. What was asked before the first pass is noted then.
    pub(crate) fn begin(&mut self, alloc: Global, moment: u64) -> Result<(), AllocError>
        ensures begun { OnOk result (self.new ≡ begun self.old moment) }
        ensures claims { OnOk result (self.new.claimed ≡ self.old.claimed) }
    {
        self.moment = moment;
        let early = std::mem::replace(&mut self.early, Seq::new(alloc));
        self.note_all(early.into_vec())
    }

    /// The first dial, which is taken out, was answered.
    pub(crate) fn after_dial(
        &mut self,
        alloc: Global,
        target: &Target,
        answer: Dialed,
    ) -> Result<(), AllocError>
        ensures noted { OnOk result ((host : List ℕ) → (port : ℕ)
            → self.new ≡ answered (to_dial target.now self.old) (Call.Dial target.now.link host port answer)) }
        ensures claims { OnOk result (self.new.claimed ≡ self.old.claimed) }
    {
        match answer {
            Dialed::Failed(_) => Ok(()),
            Dialed::Yes => {
                let offer = Bytes::new(alloc);
                self.links.push_back(Link {
                    number: target.link,
                    offer,
                })?;
                self.unclosed.push_back(target.link)
            }
        }
    }

    /// A read of a link was answered.
    pub(crate) fn after_read(&mut self, link: u32, answer: LinkGot)
        ensures noted { (room : ℕ) → (bytes : List ℕ)
            → self.new ≡ answered self.old (Call.Read link room answer bytes) }
        ensures claims { self.new.claimed ≡ self.old.claimed }
    {
        match answer {
            LinkGot::Read(_) => {}
            LinkGot::NotYet => {}
            LinkGot::Ended => remove_link(&mut self.links, link),
            LinkGot::Failed(_) => remove_link(&mut self.links, link),
        }
    }

    /// The offer of a link was answered.
    pub(crate) fn after_write(&mut self, alloc: Global, link: u32, answer: LinkPut)
        ensures noted { (piece : List ℕ)
            → self.new ≡ answered self.old (Call.Write link piece answer) }
        ensures claims { self.new.claimed ≡ self.old.claimed }
    {
        match answer {
            LinkPut::Took(_) => put_offer(&mut self.links, link, Bytes::new(alloc)),
            LinkPut::NotYet => {}
            LinkPut::Failed(_) => remove_link(&mut self.links, link),
        }
    }

    /// The timer that is due first, if it is due by the moment of the pass.
    pub(crate) fn first_due(&self) -> Option<u32>
        ensures { result ≡ first_due self.now }
    {
        due_by(&self.timers, self.moment)
    }

    /// The timer in front is taken out.
    pub(crate) fn drop_timer(&mut self)
        ensures { self.new ≡ record self.old { timers = behind self.old.timers } }
    {
        let _first = self.timers.pop_front();
    }
}
