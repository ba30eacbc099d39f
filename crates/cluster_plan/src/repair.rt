ghost use Rattle.std.specs.Prelude.{◌≡◌, ◌∷◌, ◌↔◌, ◌<◌, ◌≤◌, ◌+◌, ◌-◌, ◌^◌, ℕ, [], List, Option, IfOk, IsTrue};
ghost use Rattle.slot_hash.specs.declared.address.NodeAddress.{NodeAddress};
ghost use Rattle.mux_routing.specs.declared.rows.SlotRow.{SlotRow};
ghost use Rattle.mux_routing.specs.Shards.{addresses};
ghost use Rattle.cluster_plan.specs.declared.connections.NodeEntry.{NodeEntry};
ghost use Rattle.cluster_plan.specs.declared.recovery_kind.RecoveryKind.TheVariants as kind;
ghost use Rattle.cluster_plan.specs.Asks.{Answered, link_told};
ghost use Rattle.cluster_plan.specs.Connections.{link_in, state_at};
ghost use Rattle.cluster_plan.specs.Plan.{plan};
ghost use Rattle.cluster_plan.specs.Progress.{progress_by};
ghost use Rattle.cluster_plan.specs.Reached.{connecting, reached};
ghost use Rattle.cluster_plan.specs.Repair.{attempted, is_among, is_set, wait_ms};
ghost use Rattle.cluster_plan.specs.Repairing.{IsItsAsk, is_connected, known, plan_by, repair_from, step_by};

use crate::asks::{Answer, Ask, Part, Request};
use crate::connections::{ConnState, NodeEntry};
use crate::passes::link_of;
use crate::progress::{Progress, same_address};
use crate::step::{link_told, passes};
use mux_routing::SlotMap;
use slot_hash::NodeAddress;
use std::alloc::{AllocError, Global};

/// A repair of a node's link, by what has come of it so far.
#[derive(Drop)]
pub struct Repair {
    address: NodeAddress,
    /// How many attempts are set.
    attempts: Option<u32>,
    /// The number of the attempt that goes on, counted from 1.
    attempt: u32,
    /// Whether its check was passed, if it was answered.
    check: Option<bool>,
    /// What has come of its connect.
    connect: Progress,
}

/// What an attempt does in a turn.
#[derive(Clone, Copy)]
enum AttemptStep {
    /// It asks this.
    Asks(Request),
    /// It ends: the node is reached, by the link of this number.
    Connected(u32),
}

/// What a repair does in a turn.
#[derive(Drop)]
pub enum RepairStep {
    /// It goes on, and asks this.
    Asks(Ask),
    /// It ends: the entry of its node is connected, by the link of this number.
    Connected(u32),
    /// It ends: the entry of its node leaves the map.
    Leaves,
    /// It ends, since its node is connected already.
    Stays,
}

/// What there is of a node, if the map has it.
fn state_at(address: &NodeAddress, entries: &[NodeEntry]) -> Option<ConnState>
    ensures { result ≡ state_at address.now entries.now }
{
    for entry in entries {
        if same_address(address, &entry.address) {
            return Some(entry.state);
        }
    }
    None
}

/// Whether the link of a node serves requests.
fn is_connected(state: Option<ConnState>) -> bool
    ensures { result ≡ is_connected state }
{
    match state {
        None => false,
        Some(ConnState::Connected(_)) => true,
        Some(ConnState::Reconnecting(_)) => false,
        Some(ConnState::Connecting) => false,
    }
}

/// The link that there is of a node, also one that is being repaired.
fn link_in(state: Option<ConnState>) -> Option<u32>
    ensures { result ≡ link_in state }
{
    match state {
        None => None,
        Some(state) => link_of(state),
    }
}

/// Whether the map of slots has a node.
#[tactic(auto, using(crate::proofs::Looking::looked_up))]
fn is_among(address: &NodeAddress, slots: &SlotMap) -> bool
    ensures { result ≡ is_among address.now (addresses slots.now) }
{
    slots.place(address).is_some()
}

/// The wait after an attempt, in milliseconds: 50 after the first, doubled each time, up to 1,000.
#[tactic(auto, using(crate::proofs::Waiting::longest))]
fn wait_ms(attempt: u32) -> u64
    ensures { result ≡ wait_ms attempt }
{
    match attempt {
        0 => 50,
        1 => 50,
        2 => 100,
        3 => 200,
        4 => 400,
        5 => 800,
        _ => 1_000,
    }
}

/// Whether an attempt of this number is set.
fn is_set(attempt: u32, attempts: Option<u32>) -> bool
    ensures { result ≡ is_set attempt attempts }
{
    match attempts {
        None => true,
        Some(most) => attempt <= most,
    }
}

/// What an answer to a connect makes of it.
fn progress_by(told: &Answer) -> Progress
    ensures { result ≡ progress_by (link_told told.now) }
{
    match link_told(told) {
        Some(link) => Progress::Arrived(link),
        None => Progress::Lost,
    }
}

impl Repair {
    /// The repair of a node begins, with so many attempts at most, if a number is set.
    #[tactic(auto, unfolding(crate::specs::Plan::plan, crate::specs::Repairing::repair_from))]
    pub fn begin(address: NodeAddress, attempts: Option<u32>) -> Repair
        ensures goes_on { (nodes : List NodeAddress) (entries : List NodeEntry) (rows : List SlotRow) (more : List Answered)
            → repair_from result entries rows more ≡ plan (kind.Repair address) nodes entries rows attempts more }
        ensures address { result.address ≡ address }
        ensures attempt { result.attempt ≡ 1 }
    {
        Repair {
            address,
            attempts,
            attempt: 1,
            check: None,
            connect: Progress::Connecting,
        }
    }

    /// The node whose link it is about.
    pub fn address(&self) -> &NodeAddress
        ensures { result.now ≡ self.now.address }
    {
        &self.address
    }

    /// The node is connected; where that fails, the attempt has its wait.
    #[tactic(auto, using(crate::proofs::Attempting::connects, crate::proofs::Attempting::arrives, crate::proofs::Attempting::waits))]
    fn connecting(&self) -> AttemptStep
        ensures { (entries : List NodeEntry) (rows : List SlotRow)
            → plan_by self.now.address entries rows (step_by self.now result)
            ≡ attempted self.now.address entries rows self.now.attempt (connecting (Part.Attempt self.now.attempt) self.now.address (known self.now)) }
    {
        match self.connect {
            Progress::Connecting => AttemptStep::Asks(Request::Connect),
            Progress::Arrived(link) => AttemptStep::Connected(link),
            Progress::Lost => AttemptStep::Asks(Request::Wait(wait_ms(self.attempt))),
        }
    }

    /// The node is checked by the link that there is, or connected.
    #[tactic(auto, using(crate::proofs::Attempting::checks, crate::proofs::Attempting::passes_check, crate::proofs::Attempting::fails_check))]
    fn reaching(&self, link: Option<u32>) -> AttemptStep
        ensures { (entries : List NodeEntry) (rows : List SlotRow)
            → plan_by self.now.address entries rows (step_by self.now result)
            ≡ attempted self.now.address entries rows self.now.attempt (reached (Part.Attempt self.now.attempt) self.now.address link (known self.now)) }
    {
        let Some(link) = link else {
            return self.connecting();
        };
        match self.check {
            None => AttemptStep::Asks(Request::Check(link)),
            Some(true) => AttemptStep::Connected(link),
            Some(false) => self.connecting(),
        }
    }

    /// What it does in a turn with these entries and these slots. Only want of memory is refused.
    #[tactic(auto, using(crate::proofs::Attempting::next_stays, crate::proofs::Attempting::next_outside, crate::proofs::Attempting::next_spent))]
    pub fn next(
        &self,
        alloc: Global,
        entries: &[NodeEntry],
        slots: &SlotMap,
    ) -> Result<RepairStep, AllocError>
        ensures { IfOk result (λ s. plan_by self.now.address entries.now slots.now s
            ≡ repair_from self.now entries.now slots.now []) }
    {
        let state = state_at(&self.address, entries);
        if is_connected(state) {
            return Ok(RepairStep::Stays);
        }
        if !is_among(&self.address, slots) {
            return Ok(RepairStep::Leaves);
        }
        if !is_set(self.attempt, self.attempts) {
            return Ok(RepairStep::Leaves);
        }
        match self.reaching(link_in(state)) {
            AttemptStep::Asks(request) => {
                let address = self.address.clone(alloc)?;
                Ok(RepairStep::Asks(Ask {
                    part: Part::Attempt(self.attempt),
                    address,
                    request,
                }))
            }
            AttemptStep::Connected(link) => Ok(RepairStep::Connected(link)),
        }
    }

    /// Whether it can go on behind an answer: the numbers of attempts end at 2^32 - 1.
    pub fn has_room(&self) -> bool
        ensures { IsTrue result ↔ (self.now.attempt < 2 ^ 32 - 1) }
    {
        self.attempt < u32::MAX
    }

    /// What it asked was answered.
    #[tactic(auto, using(crate::proofs::Mending::mends_by_check, crate::proofs::Mending::mends_by_connect, crate::proofs::Mending::mends_by_wait))]
    pub fn answer(&mut self, ask: &Ask, told: Answer)
        requires given { IsItsAsk self.old ask.now }
        requires room { self.old.attempt < 2 ^ 32 - 1 }
        ensures goes_on { (entries : List NodeEntry) (rows : List SlotRow) (more : List Answered)
            → repair_from self.new entries rows more ≡ repair_from self.old entries rows ((ask.now, told) ∷ more) }
        ensures address { self.new.address ≡ self.old.address }
        ensures attempt { self.new.attempt ≤ self.old.attempt + 1 }
    {
        let passed = passes(&told);
        let progress = progress_by(&told);
        drop(told);
        match ask.request {
            Request::Check(_) => self.check = Some(passed),
            Request::Connect => self.connect = progress,
            Request::Wait(_) => {
                self.attempt += 1;
                self.check = None;
                self.connect = Progress::Connecting;
            }
            Request::Query(_) => unreachable!(),
        }
    }
}
