//! The table that callers share. Word 0 is the ticket, word 1 the ticket that is served, word 2 the dial, and slot 0
//! holds the session.
use atomic_table::{Seat, Shared, TableRule};
use driver_model::{Config, Event};
use shared_session::{Failure, Session};
use std::collections::LinkedList;

/// The session, with the number of callers that were made and the number of submissions in its history.
#[derive(Drop)]
pub struct Home {
    pub session: Session,
    pub made: u64,
    pub submissions: u32,
}

/// What a session is made from. The table is told it when it is made.
#[derive(Drop)]
pub struct Origin {
    pub config: Config,
    pub word: u64,
    /// How many callers may be made.
    pub most: u64,
    /// How many are made with it, whose numbers one seat has at first.
    pub made: u64,
}

/// Where a caller is in a call. No value of it is made, so a ticket is any number.
pub enum Stage {
    Idle,
    Waiting(u64),
    /// It is its turn, and the session is at home.
    Served(u64),
    /// The session is out with it.
    Holding(u64),
    /// The session is out with it, and its seat was split.
    Split(u64),
}

/// What is left of a seat that was joined into another.
pub struct Ended {
    pub number: u64,
    pub made: u64,
    pub front: u64,
    pub mine: LinkedList<u64>,
    pub claims: LinkedList<u64>,
}

/// What a seat knows. No value of it is made.
pub struct View {
    pub stage: Stage,
    /// How many tickets it has drawn.
    pub drawn: u64,
    /// Its caller's number, or nothing where it was joined into another. A seat of callers that were made with their session,
    /// and have no seat of their own yet, has the number of each.
    pub number: LinkedList<u64>,
    /// The number of callers that it last saw beside the session.
    pub made: u64,
    /// How many callers its table may have.
    pub most: u64,
    pub config: Config,
    pub word: u64,
    /// The events that it has seen.
    pub seen: LinkedList<Event>,
    /// Whether it has seen that the session failed.
    pub failure: Failure,
    /// The places of its own events in the history.
    pub mine: LinkedList<u64>,
    /// The greatest number of the dial that it has read.
    pub dial: u64,
    /// The numbers of the dial that it claimed.
    pub claims: LinkedList<u64>,
    pub ended: LinkedList<Ended>,
    /// What it and those had seen that were joined into it.
    pub fronts: LinkedList<LinkedList<Event>>,
}

pub struct Turns;

impl TableRule<Option<Home>, View, Origin> for Turns {
    ghost use Rattle.session_callers.specs.Rule.{Ruled, founders};

    ghost holds = { λ _. Ruled };

    ghost first = { λ origin. founders origin.config origin.word origin.most origin.made 0 origin.made };
}

pub type Board = Shared<Option<Home>, View, Origin, Turns>;

pub type Place = Seat<Option<Home>, View>;
