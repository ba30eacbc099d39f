use containers::Seq;
use slot_hash::NodeAddress;
use std::alloc::{AllocError, Global};
use std::marker::Model;

/// Which node of a slot is meant.
#[derive(Clone, Copy, Debug, PartialEq, Eq)]
pub enum SlotAddr {
    /// Its primary.
    Master,
    /// A replica, or the primary.
    ReplicaOptional,
    /// A replica.
    ReplicaRequired,
}

/// A slot, and which of its nodes is meant.
#[derive(Clone, Copy, Debug, PartialEq, Eq)]
pub struct Route {
    pub slot: u16,
    pub addr: SlotAddr,
}

/// How the results of a command's parts become one.
#[derive(Clone, Copy, Debug, PartialEq, Eq)]
pub enum ResponsePolicy {
    AllSucceeded,
    OneSucceeded,
    FirstSucceededNonEmptyOrAllEmpty,
    Sum,
    Min,
    And,
    CombineArrays,
    CombineMaps,
    Special,
}

/// Places of keys among the keys of a command, counted from 0.
pub type KeyIndices = Seq<u32>;

/// The routes of a command with keys in several slots, each with the places of its keys. Contracts see the list of
/// them.
#[derive(Drop)]
pub struct SlotParts {
    items: Vec<(Route, KeyIndices)>,
}

impl Model for SlotParts {
    ghost use Rattle.std.specs.Prelude.{List, ℕ};
    ghost use Rattle.command_table.specs.declared.routing.Route.{Route};

    ghost Value = { List (Route × List ℕ) };

    ghost view = { λ p. p.items.items };
}

impl SlotParts {
    ghost use Rattle.std.specs.Prelude.{◌≡◌, ◌∷◌, ◌++◌, [], length, ◌<◌, OnOk, OnErr};
    ghost use Rattle.command_table.specs.Parts.{joined, slot_at};

    /// No parts. Takes no memory.
    pub fn new(alloc: Global) -> SlotParts
        ensures { result ≡ [] }
    {
        SlotParts {
            items: Vec::new(alloc),
        }
    }

    /// The parts of a vector, not copied.
    pub fn from_vec(items: Vec<(Route, KeyIndices)>) -> SlotParts
        ensures { result ≡ items.items }
    {
        SlotParts { items }
    }

    /// The vector, not copied.
    pub fn into_vec(self) -> Vec<(Route, KeyIndices)>
        ensures { result.items ≡ self }
    {
        self.items
    }

    pub fn as_slice(&self) -> &[(Route, KeyIndices)]
        ensures { result.now ≡ self.now }
    {
        self.items.as_slice()
    }

    pub fn len(&self) -> usize
        ensures { result ≡ length self.now }
    {
        self.items.len()
    }

    /// The slot of a part.
    #[tactic(auto, using(crate::proofs::Placing::slot_at_is))]
    pub(crate) fn slot_at(&self, k: usize) -> u16
        requires { k < length self.now }
        ensures { result ≡ slot_at k self.now }
    {
        self.items[k].0.slot
    }

    /// One more place at the end of those of a part.
    #[tactic(auto, using(crate::proofs::Placing::joined_is))]
    pub(crate) fn join(&mut self, k: usize, index: u32) -> Result<(), AllocError>
        requires { k < length self.old }
        ensures { OnOk result (self.new ≡ joined index k self.old) }
    {
        self.items[k].1.push(index)
    }

    /// One more part at the end. An error leaves the parts as they were.
    pub fn push(&mut self, route: Route, indices: KeyIndices) -> Result<(), AllocError>
        ensures ok { OnOk result (self.new ≡ self.old ++ (route, indices) ∷ []) }
        ensures err { OnErr result (self.new ≡ self.old) }
    {
        self.items.push((route, indices))?;
        Ok(())
    }
}

/// The nodes that a command goes to, if these are several.
#[derive(Drop)]
pub enum MultipleNodeRoutingInfo {
    AllNodes,
    AllMasters,
    MultiSlot(SlotParts),
}

/// The node that a command goes to, if it is one.
#[derive(Drop)]
pub enum SingleNodeRoutingInfo {
    Random,
    RandomPrimary,
    SpecificNode(Route),
    ByAddress(NodeAddress),
}

/// Where a command goes; where to several nodes, with the policy by which their results become one.
#[derive(Drop)]
pub enum RoutingInfo {
    SingleNode(SingleNodeRoutingInfo),
    MultiNode(MultipleNodeRoutingInfo, Option<ResponsePolicy>),
}
