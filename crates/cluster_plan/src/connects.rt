ghost use Rattle.std.specs.Prelude.{◌≡◌, ◌==◌, List, [], ◌∷◌, ◌++◌, length, true, IfOk, OnOk};
ghost use Rattle.mux_routing.specs.declared.rows.SlotRow.{SlotRow};
ghost use Rattle.cluster_plan.specs.declared.asks.Part.TheVariants as part;
ghost use Rattle.cluster_plan.specs.declared.connections.NodeEntry.{NodeEntry};
ghost use Rattle.cluster_plan.specs.declared.progress.Tried.{Tried};
ghost use Rattle.cluster_plan.specs.Asks.{Answered, error_told};
ghost use Rattle.cluster_plan.specs.Connects.{open_asks, plan_behind, plan_from};
ghost use Rattle.cluster_plan.specs.Initial.{initial, later_failure};
ghost use Rattle.cluster_plan.specs.Progress.{go_on};
ghost use Rattle.cluster_plan.specs.Reached.{arrived, asked_for, connect};

use crate::asks::{Answer, Ask, Part, Request};
use crate::connections::{ConnState, ConnectionMap, NodeEntry};
use crate::progress::{Progress, Tried, begun, settle_nodes};
use crate::step::{error_told, link_told};
use containers::{Queue, Seq};
use redis_error::RedisError;
use slot_hash::NodeAddress;
use std::alloc::{AllocError, Global};
use std::mem;

/// The connects with which a reconnect begins: what has come of each so far, and the last failure.
#[derive(Drop)]
pub struct InitialConnects {
    nodes: Vec<Tried>,
    last: RedisError,
}

/// What the connects of a reconnect have come to.
#[derive(Drop)]
pub enum InitialEnd {
    /// The links that there are, in the order of the initial addresses.
    Connected(ConnectionMap),
    /// None was connected; with the last failure.
    Failed(RedisError),
}

/// The last failure behind an answer.
fn keep_failure(link: Option<u32>, told: Answer, last: &mut RedisError)
    ensures { last.new ≡ later_failure link (error_told told) last.old }
{
    if link.is_none() {
        drop(mem::replace(last, error_told(told)));
    } else {
        drop(told);
    }
}

/// The ask for a node that is being connected.
fn ask_for(alloc: Global, tried: &Tried, asks: &mut Seq<Ask>) -> Result<(), AllocError>
    ensures { OnOk result ((others : List Tried) → asks.new ++ asked_for (go_on part.Initial others [])
        ≡ asks.old ++ asked_for (go_on part.Initial (tried.now ∷ others) [])) }
{
    match tried.progress {
        Progress::Connecting => {
            let address = tried.address.clone(alloc)?;
            asks.push(Ask {
                part: Part::Initial,
                address,
                request: Request::Connect,
            })
        }
        Progress::Arrived(_) => Ok(()),
        Progress::Lost => Ok(()),
    }
}

/// The entry of a node that is connected.
fn enter(tried: Tried, entries: &mut ConnectionMap) -> Result<(), AllocError>
    ensures { OnOk result ((others : List Tried) → entries.new ++ arrived (go_on part.Initial others [])
        ≡ entries.old ++ arrived (go_on part.Initial (tried ∷ others) [])) }
{
    let Tried { address, progress } = tried;
    match progress {
        Progress::Connecting => Ok(()),
        Progress::Arrived(link) => entries.push(NodeEntry {
            address,
            state: ConnState::Connected(link),
        }),
        Progress::Lost => Ok(()),
    }
}

/// The entries of the nodes that are connected, in order.
fn connected(alloc: Global, nodes: Vec<Tried>) -> Result<ConnectionMap, AllocError>
    ensures { IfOk result (λ es. es ≡ arrived (go_on part.Initial nodes.items [])) }
{
    let mut entries = Seq::new(alloc);
    let mut rest = Queue::from_vec(nodes);
    while let Some(tried) = rest.pop_front() {
        enter(tried, &mut entries)?;
    }
    Ok(entries)
}

impl InitialConnects {
    /// The connects of these addresses, none of which has an answer.
    #[tactic(auto, unfolding(crate::specs::Connects::plan_from), using(crate::proofs::Beginning::begins_so))]
    pub fn begin(alloc: Global, nodes: &[NodeAddress]) -> Result<InitialConnects, AllocError>
        ensures { IfOk result
            (λ c. (entries : List NodeEntry) (rows : List SlotRow) (more : List Answered)
            → plan_from c entries rows more ≡ initial nodes.now entries rows more) }
    {
        let tries = begun(alloc, nodes)?;
        Ok(InitialConnects {
            nodes: tries,
            last: RedisError::NotFound,
        })
    }

    /// The connect of an address was answered. What names no link counts as an error.
    #[tactic(auto, unfolding(crate::specs::Connects::plan_from), using(crate::proofs::Settling::answered_by))]
    pub fn answer(&mut self, address: &NodeAddress, told: Answer)
        ensures { (entries : List NodeEntry) (rows : List SlotRow) (more : List Answered)
            → plan_from self.new entries rows more ≡ plan_from self.old entries rows
            ((connect part.Initial address.now, told) ∷ more) }
    {
        let link = link_told(&told);
        settle_nodes(&mut self.nodes, address, link);
        keep_failure(link, told, &mut self.last);
    }

    /// The connects that have no answer, in the order of the addresses.
    #[tactic(auto, unfolding(crate::specs::Connects::open_asks))]
    pub fn asks(&self, alloc: Global) -> Result<Seq<Ask>, AllocError>
        ensures { IfOk result (λ asks. asks ≡ open_asks self.now) }
    {
        let mut asks = Seq::new(alloc);
        for tried in &self.nodes {
            ask_for(alloc, tried, &mut asks)?;
        }
        Ok(asks)
    }

    /// Whether each connect has an answer.
    #[tactic(auto, unfolding(crate::specs::Connects::open_asks))]
    pub fn is_over(&self) -> bool
        ensures { result ≡ (length (open_asks self.now) == 0) }
    {
        for tried in &self.nodes {
            if let Progress::Connecting = tried.progress {
                return false;
            }
        }
        true
    }

    /// What all of them have come to.
    #[tactic(auto, unfolding(crate::specs::Connects::plan_from, crate::specs::Connects::open_asks), using(crate::proofs::Beginning::ends_failed, crate::proofs::Beginning::ends_connected))]
    pub fn finish(self, alloc: Global) -> Result<InitialEnd, AllocError>
        requires { (length (open_asks self) == 0) ≡ true }
        ensures { IfOk result
            (λ end. (entries : List NodeEntry) (rows : List SlotRow) (more : List Answered)
            → plan_from self entries rows more ≡ plan_behind end entries rows more) }
    {
        let InitialConnects { nodes, last } = self;
        let entries = match connected(alloc, nodes) {
            Ok(entries) => entries,
            Err(error) => {
                drop(last);
                return Err(error);
            }
        };
        if entries.is_empty() {
            Ok(InitialEnd::Failed(last))
        } else {
            drop(last);
            Ok(InitialEnd::Connected(entries))
        }
    }
}
