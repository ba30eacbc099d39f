ghost use Rattle.std.specs.Prelude.{◌≡◌, ◌==◌, ◌∷◌, [], ℕ, List, Option, IfOk, length, map, true, false};
ghost use Rattle.mux_routing.specs.Shards.{in_order};
ghost use Rattle.cluster_plan.specs.Asks.{Answered};
ghost use Rattle.cluster_plan.specs.Connects.{open_asks, plan_from};
ghost use Rattle.cluster_plan.specs.Initial.{initial};
ghost use Rattle.cluster_plan.specs.Laws.{IsGiven, IsRecovery};
ghost use Rattle.cluster_plan.specs.Plan.{plan};
ghost use Rattle.cluster_plan.specs.Refresh.{refresh, renewed_by};
ghost use Rattle.cluster_plan.specs.Steps.{stepped};
ghost use Rattle.cluster_plan.specs.Recovering.{IsSound, IsWhole, asks_in, ended_so, entries_of, first_from, has_ended, places, plan_of, plan_on, second_from};

use crate::asks::{Answer, Ask, Part, Request};
use crate::connections::ConnectionMap;
use crate::connects::{InitialConnects, InitialEnd};
use crate::entry_order::in_address_order;
use crate::heard::hear;
use crate::last_part::{after_arrival, asks_of_nodes};
use crate::passes::{after_first, after_second, asks_of_second, begin_first};
use crate::recovery_kind::{Failure, RecoveryKind};
use crate::state::{Pass, State};
use crate::step::{Arrival, Step, one_ask};
use containers::{Queue, Seq};
use mux_routing::SlotMap;
use redis_error::RedisError;
use slot_hash::NodeAddress;
use std::alloc::{AllocError, Global};

/// A reconnect or a refresh, by what has come of it so far.
#[derive(Drop)]
pub struct Recovery {
    state: State,
}

/// What a recovery has come to.
#[derive(Drop)]
pub struct RecoveryEnd {
    /// The map of links.
    pub entries: ConnectionMap,
    /// The map of slots.
    pub slots: SlotMap,
    /// Why it failed, if it did.
    pub failure: Option<Failure>,
}

/// A map of no slots.
#[tactic(auto, unfolding(mux_routing::specs::Reply::are_rows))]
fn no_slots(alloc: Global) -> Result<SlotMap, AllocError>
    ensures { IfOk result (λ slots. slots ≡ []) }
{
    let rows = Seq::new(alloc);
    SlotMap::from_rows(alloc, &rows)
}

/// A refresh from these entries.
fn refresh(alloc: Global, entries: ConnectionMap, slots: SlotMap) -> Result<State, AllocError>
    requires { in_order (places entries) ≡ true }
    ensures is { IfOk result (λ s. (more : List Answered) → plan_of s more ≡ refresh entries slots more) }
    ensures sound { IfOk result IsSound }
{
    let others = Queue::from_vec(entries.into_vec());
    let state = begin_first(alloc, Seq::new(alloc), others, slots)?;
    Ok(state)
}

/// The initial addresses are connected, or they were and a refresh follows.
#[tactic(auto, unfolding(crate::specs::Recovering::plan_of), using(crate::proofs::Going::goes_over, crate::proofs::Going::goes_without))]
fn go_on(
    alloc: Global,
    connects: InitialConnects,
    entries: ConnectionMap,
    slots: SlotMap,
) -> Result<State, AllocError>
    ensures is { IfOk result (λ s. (more : List Answered) → plan_of s more ≡ plan_from connects entries slots more) }
    ensures sound { IfOk result IsSound }
{
    if !connects.is_over() {
        return Ok(State::Initial {
            connects,
            entries,
            slots,
        });
    }
    let end = match connects.finish(alloc) {
        Ok(end) => end,
        Err(error) => {
            drop(entries);
            drop(slots);
            return Err(error);
        }
    };
    match end {
        InitialEnd::Connected(links) => {
            drop(entries);
            drop(slots);
            let links = in_address_order(alloc, links)?;
            let none = no_slots(alloc)?;
            let state = refresh(alloc, links, none)?;
            Ok(state)
        }
        InitialEnd::Failed(error) => Ok(State::Ended {
            entries,
            slots,
            failure: Some(Failure::Create(error)),
        }),
    }
}

/// A reconnect begins.
#[tactic(auto, using(crate::proofs::Going::goes_begun))]
fn initial(
    alloc: Global,
    nodes: &[NodeAddress],
    entries: ConnectionMap,
    slots: SlotMap,
) -> Result<State, AllocError>
    ensures is { IfOk result (λ s. (more : List Answered) → plan_of s more ≡ initial nodes.now entries slots more) }
    ensures sound { IfOk result IsSound }
{
    let connects = InitialConnects::begin(alloc, nodes)?;
    let state = go_on(alloc, connects, entries, slots)?;
    Ok(state)
}

/// An initial connect was answered.
#[tactic(auto, using(crate::proofs::Going::goes_initial))]
fn after_connect(
    alloc: Global,
    connects: InitialConnects,
    entries: ConnectionMap,
    slots: SlotMap,
    ask: &Ask,
    told: Answer,
) -> Result<State, AllocError>
    requires asking { (length (open_asks connects) == 0) ≡ false }
    requires given { IsGiven ask.now (plan_from connects entries slots []).next }
    ensures is { IfOk result (λ s. (more : List Answered)
        → plan_of s more ≡ plan_from connects entries slots ((ask.now, told) ∷ more)) }
    ensures sound { IfOk result IsSound }
{
    let mut connects = connects;
    connects.answer(&ask.address, told);
    let state = go_on(alloc, connects, entries, slots)?;
    Ok(state)
}

/// The link of pass one answered, by the ask that was given.
#[tactic(auto, using(crate::proofs::Going::goes_by_first))]
fn first_answered(
    alloc: Global,
    pass: Pass,
    slots: SlotMap,
    link: u32,
    ask: &Ask,
    told: Answer,
) -> Result<State, AllocError>
    requires order { in_order (places (entries_of pass)) ≡ true }
    requires given { IsGiven ask.now (first_from pass slots link []).next }
    ensures is { IfOk result (λ s. (more : List Answered)
        → plan_of s more ≡ first_from pass slots link ((ask.now, told) ∷ more)) }
    ensures sound { IfOk result IsSound }
{
    let reached = after_first(alloc, pass, slots, link, &told);
    drop(told);
    let state = reached?;
    Ok(state)
}

/// What pass two asked was answered, by the ask that was given.
#[tactic(auto, using(crate::proofs::Going::goes_by_second))]
fn second_answered(
    alloc: Global,
    pass: Pass,
    slots: SlotMap,
    step: Step,
    last: RedisError,
    ask: &Ask,
    told: Answer,
) -> Result<State, AllocError>
    requires order { in_order (places (entries_of pass)) ≡ true }
    requires given { IsGiven ask.now (second_from pass slots step last []).next }
    ensures is { IfOk result (λ s. (more : List Answered)
        → plan_of s more ≡ second_from pass slots step last ((ask.now, told) ∷ more)) }
    ensures sound { IfOk result IsSound }
{
    let heard = match hear(alloc, pass.here.address.host.as_slice(), step, told) {
        Ok(heard) => heard,
        Err(error) => {
            drop(pass);
            drop(slots);
            drop(last);
            return Err(error);
        }
    };
    let state = after_second(alloc, pass, slots, step, last, heard)?;
    Ok(state)
}

/// A node of the new map answered, by the ask that was given.
#[tactic(auto, using(crate::proofs::Arriving::given_among))]
fn last_answered(
    alloc: Global,
    entries: ConnectionMap,
    slots: SlotMap,
    nodes: Seq<Arrival>,
    ask: &Ask,
    told: Answer,
) -> Result<State, AllocError>
    requires order { in_order (map (λ t. t.address) nodes) ≡ true }
    requires given { IsGiven ask.now (renewed_by entries slots (stepped nodes [])).next }
    ensures is { IfOk result (λ s. (more : List Answered)
        → plan_of s more ≡ renewed_by entries slots (stepped nodes ((ask.now, told) ∷ more))) }
    ensures sound { IfOk result IsSound }
{
    let reached = after_arrival(alloc, entries, slots, nodes, ask, &told);
    drop(told);
    let state = reached?;
    Ok(state)
}

/// One of its asks was answered.
#[tactic(auto, unfolding(crate::specs::Recovering::plan_of), using(crate::proofs::Going::none_at_end))]
fn after(alloc: Global, state: State, ask: &Ask, told: Answer) -> Result<State, AllocError>
    requires sound { IsSound state }
    requires given { IsGiven ask.now (plan_of state []).next }
    ensures is { IfOk result (λ s. (more : List Answered)
        → plan_of s more ≡ plan_of state ((ask.now, told) ∷ more)) }
    ensures sound { IfOk result IsSound }
{
    match state {
        State::Initial {
            connects,
            entries,
            slots,
        } => after_connect(alloc, connects, entries, slots, ask, told),
        State::First { pass, slots, link } => {
            first_answered(alloc, pass, slots, link, ask, told)
        }
        State::Second {
            pass,
            slots,
            step,
            last,
        } => second_answered(alloc, pass, slots, step, last, ask, told),
        State::Last {
            entries,
            slots,
            nodes,
        } => last_answered(alloc, entries, slots, nodes, ask, told),
        State::Ended {
            entries: _,
            slots: _,
            failure: _,
        } => unreachable!(),
    }
}

/// What a recovery of this kind begins with.
#[tactic(auto, using(crate::proofs::Going::begins_initial, crate::proofs::Going::begins_empty, crate::proofs::Going::begins_slots, crate::proofs::Going::no_repair))]
fn begun(
    alloc: Global,
    kind: &RecoveryKind,
    nodes: &[NodeAddress],
    entries: ConnectionMap,
    slots: SlotMap,
) -> Result<State, AllocError>
    requires kind { IsRecovery kind.now }
    requires order { in_order (places entries) ≡ true }
    ensures is { IfOk result (λ s. (attempts : Option ℕ) (more : List Answered)
        → plan_of s more ≡ plan kind.now nodes.now entries slots attempts more) }
    ensures sound { IfOk result IsSound }
{
    match kind {
        RecoveryKind::Initial => {
            let state = initial(alloc, nodes, entries, slots)?;
            Ok(state)
        }
        RecoveryKind::Slots => {
            if entries.is_empty() {
                let state = initial(alloc, nodes, entries, slots)?;
                return Ok(state);
            }
            let state = refresh(alloc, entries, slots)?;
            Ok(state)
        }
        RecoveryKind::Repair(_) => unreachable!(),
    }
}

impl Recovery {
    /// A recovery of this kind begins: a reconnect to these initial addresses, which are distinct, or a refresh of these
    /// entries, which are in the order of their addresses. A refresh of no entries is a reconnect. Only want of memory is
    /// refused.
    #[tactic(auto, unfolding(crate::specs::Recovering::plan_on))]
    pub fn begin(
        alloc: Global,
        kind: &RecoveryKind,
        nodes: &[NodeAddress],
        entries: ConnectionMap,
        slots: SlotMap,
    ) -> Result<Recovery, AllocError>
        requires kind { IsRecovery kind.now }
        requires order { in_order (places entries) ≡ true }
        ensures is { IfOk result (λ r. (attempts : Option ℕ) (more : List Answered)
            → plan_on r more ≡ plan kind.now nodes.now entries slots attempts more) }
        ensures whole { IfOk result IsWhole }
    {
        let state = begun(alloc, kind, nodes, entries, slots)?;
        Ok(Recovery { state })
    }

    /// The asks that have no answer, in order; none at its end. Only want of memory is refused.
    #[tactic(auto, unfolding(crate::specs::Recovering::plan_on, crate::specs::Recovering::plan_of), using(crate::proofs::Going::initial_asks, crate::proofs::Going::second_asks, crate::proofs::Going::last_asks))]
    pub fn asks(&self, alloc: Global) -> Result<Seq<Ask>, AllocError>
        requires { IsWhole self.now }
        ensures { IfOk result (λ asks. asks ≡ asks_in (plan_on self.now []).next) }
    {
        match &self.state {
            State::Initial {
                connects,
                entries: _,
                slots: _,
            } => {
                let asks = connects.asks(alloc)?;
                Ok(asks)
            }
            State::First {
                pass,
                slots: _,
                link,
            } => one_ask(
                alloc,
                Part::First,
                &pass.here.address,
                Request::Query(*link),
            ),
            State::Second {
                pass,
                slots: _,
                step,
                last: _,
            } => {
                let asks = asks_of_second(alloc, &pass.here.address, *step)?;
                Ok(asks)
            }
            State::Last {
                entries: _,
                slots: _,
                nodes,
            } => {
                let asks = asks_of_nodes(alloc, nodes.as_slice())?;
                Ok(asks)
            }
            State::Ended {
                entries: _,
                slots: _,
                failure: _,
            } => Ok(Seq::new(alloc)),
        }
    }

    /// One of its asks was answered. Only want of memory is refused.
    #[tactic(auto, unfolding(crate::specs::Recovering::plan_on))]
    pub fn answer(self, alloc: Global, ask: &Ask, told: Answer) -> Result<Recovery, AllocError>
        requires whole { IsWhole self }
        requires given { IsGiven ask.now (plan_on self []).next }
        ensures is { IfOk result (λ r. (more : List Answered)
            → plan_on r more ≡ plan_on self ((ask.now, told) ∷ more)) }
        ensures whole { IfOk result IsWhole }
    {
        let state = after(alloc, self.state, ask, told)?;
        Ok(Recovery { state })
    }

    /// Whether it has come to its end.
    #[tactic(auto, unfolding(crate::specs::Recovering::plan_on, crate::specs::Recovering::plan_of), using(crate::proofs::Going::initial_goes_on, crate::proofs::Going::second_goes_on, crate::proofs::Going::last_goes_on, crate::proofs::Going::end_is))]
    pub fn is_over(&self) -> bool
        requires { IsWhole self.now }
        ensures { result ≡ has_ended (plan_on self.now []).next }
    {
        match &self.state {
            State::Initial {
                connects: _,
                entries: _,
                slots: _,
            } => false,
            State::First {
                pass: _,
                slots: _,
                link: _,
            } => false,
            State::Second {
                pass: _,
                slots: _,
                step: _,
                last: _,
            } => false,
            State::Last {
                entries: _,
                slots: _,
                nodes: _,
            } => false,
            State::Ended {
                entries: _,
                slots: _,
                failure: _,
            } => true,
        }
    }

    /// What it has come to.
    #[tactic(auto, unfolding(crate::specs::Recovering::plan_on, crate::specs::Recovering::plan_of), using(crate::proofs::Going::initial_goes_on, crate::proofs::Going::second_goes_on, crate::proofs::Going::last_goes_on))]
    pub fn finish(self) -> RecoveryEnd
        requires whole { IsWhole self }
        requires over { has_ended (plan_on self []).next ≡ true }
        ensures { (more : List Answered) → plan_on self more
            ≡ ended_so result.entries result.slots result.failure more }
    {
        match self.state {
            State::Ended {
                entries,
                slots,
                failure,
            } => RecoveryEnd {
                entries,
                slots,
                failure,
            },
            _ => unreachable!(),
        }
    }
}
