ghost use Rattle.std.specs.Prelude.{◌≡◌, ◌∷◌, ◌++◌, [], List, true, IfOk};
ghost use Rattle.redis_error.specs.declared.redis_error.RedisError.TheVariants as redis;
ghost use Rattle.mux_routing.specs.Reply.{are_rows};
ghost use Rattle.mux_routing.specs.Shards.{in_order};
ghost use Rattle.cluster_plan.specs.declared.asks.Part.TheVariants as part;
ghost use Rattle.cluster_plan.specs.Asks.{Answered};
ghost use Rattle.cluster_plan.specs.Connections.{connected_link, entry, link_of};
ghost use Rattle.cluster_plan.specs.Refresh.{after_first, after_second, first_replies, query, renewed, second_replies, until_good, visited};
ghost use Rattle.cluster_plan.specs.Heard.{AreHeard};
ghost use Rattle.cluster_plan.specs.Recovering.{IsSound, after_heard, asked_second, entered, entries_of, first_from, places, plan_of};

use crate::asks::{Answer, Ask, Part, Request};
use crate::connections::{ConnState, ConnectionMap, NodeEntry};
use crate::entry_order::appended;
use crate::heard::{Heard, rows_told};
use crate::last_part::renew;
use crate::recovery_kind::Failure;
use crate::state::{Pass, State};
use crate::step::{Step, one_ask};
use containers::{Queue, Seq};
use mux_routing::{SlotMap, SlotRows};
use redis_error::RedisError;
use slot_hash::NodeAddress;
use std::alloc::{AllocError, Global};

/// The link that there is, also one that is being repaired.
pub fn link_of(state: ConnState) -> Option<u32>
    ensures { result ≡ link_of state }
{
    match state {
        ConnState::Connected(link) => Some(link),
        ConnState::Reconnecting(link) => Some(link),
        ConnState::Connecting => None,
    }
}

/// The link that serves requests.
fn connected_link(state: ConnState) -> Option<u32>
    ensures { result ≡ connected_link state }
{
    match state {
        ConnState::Connected(link) => Some(link),
        ConnState::Reconnecting(_) => None,
        ConnState::Connecting => None,
    }
}

impl Pass {
    /// All its entries.
    #[tactic(auto, using(crate::proofs::Passing::whole_again))]
    fn entries(self) -> Result<ConnectionMap, AllocError>
        ensures { IfOk result (λ entries. entries ≡ entries_of self) }
    {
        let Pass { passed, here, rest } = self;
        let mut passed = passed;
        passed.push(here)?;
        appended(passed, rest)
    }

    /// All its entries, with another state of the one where it is.
    #[tactic(auto, using(crate::proofs::Passing::whole_with))]
    fn entries_with(self, state: ConnState) -> Result<ConnectionMap, AllocError>
        ensures { IfOk result (λ entries. entries ≡ self.passed ++ entry self.here.address state ∷ self.rest) }
    {
        let Pass { passed, here, rest } = self;
        let NodeEntry { address, state: _ } = here;
        let mut passed = passed;
        passed.push(NodeEntry { address, state })?;
        appended(passed, rest)
    }
}

/// Pass two goes on with these entries, behind others.
#[tactic(auto, unfolding(crate::specs::Recovering::plan_of), using(crate::proofs::Passing::second_over, crate::proofs::Going::goes_second))]
fn begin_second(
    passed: ConnectionMap,
    others: Queue<NodeEntry>,
    slots: SlotMap,
    last: RedisError,
) -> State
    requires { in_order (places (passed ++ others)) ≡ true }
    ensures is { (more : List Answered)
        → plan_of result more ≡ after_second (passed ++ visited others more) slots more
        (until_good last (second_replies others more)) }
    ensures sound { IsSound result }
{
    let mut rest = others;
    match rest.pop_front() {
        None => State::Ended {
            entries: passed,
            slots,
            failure: Some(Failure::Refresh(last)),
        },
        Some(here) => {
            let step = Step::begun(link_of(here.state));
            State::Second {
                pass: Pass { passed, here, rest },
                slots,
                step,
                last,
            }
        }
    }
}

/// Pass one goes on with these entries, behind others.
#[tactic(auto, unfolding(crate::specs::Recovering::plan_of), using(crate::proofs::Going::goes_first, crate::proofs::Going::passes_by, crate::proofs::Going::first_over))]
pub fn begin_first(
    alloc: Global,
    front: ConnectionMap,
    others: Queue<NodeEntry>,
    slots: SlotMap,
) -> Result<State, AllocError>
    requires { in_order (places (front ++ others)) ≡ true }
    ensures is { IfOk result (λ s. (more : List Answered)
        → plan_of s more ≡ after_first (front ++ others) slots more
        (until_good redis.NotFound (first_replies others more))) }
    ensures sound { IfOk result IsSound }
{
    let mut passed = front;
    let mut rest = others;
    while let Some(here) = rest.pop_front() {
        if let Some(link) = connected_link(here.state) {
            return Ok(State::First {
                pass: Pass { passed, here, rest },
                slots,
                link,
            });
        }
        passed.push(here)?;
    }
    let entries = Queue::from_vec(passed.into_vec());
    let state = begin_second(Seq::new(alloc), entries, slots, RedisError::NotFound);
    Ok(state)
}

/// What pass two asks of a node.
pub fn asks_of_second(
    alloc: Global,
    address: &NodeAddress,
    step: Step,
) -> Result<Seq<Ask>, AllocError>
    ensures { IfOk result (λ asks. asks ≡ asked_second address.now step ∷ []) }
{
    let request = match step {
        Step::Checking(link) => Request::Check(link),
        Step::Connecting => Request::Connect,
        Step::Arrived(link) => Request::Query(link),
    };
    one_ask(alloc, Part::Second, address, request)
}

/// Pass one goes on behind the entry where it is.
#[tactic(auto, using(crate::proofs::Going::goes_past, crate::proofs::Going::order_on))]
fn first_behind(alloc: Global, pass: Pass, slots: SlotMap) -> Result<State, AllocError>
    requires { in_order (places (entries_of pass)) ≡ true }
    ensures is { IfOk result (λ s. (more : List Answered)
        → plan_of s more ≡ after_first ((pass.passed ++ pass.here ∷ []) ++ pass.rest) slots more
        (until_good redis.NotFound (first_replies pass.rest more))) }
    ensures sound { IfOk result IsSound }
{
    let Pass { passed, here, rest } = pass;
    let mut passed = passed;
    passed.push(here)?;
    let state = begin_first(alloc, passed, rest, slots)?;
    Ok(state)
}

/// A node of pass one told these slots.
#[tactic(auto, using(crate::proofs::Going::goes_renewed_by))]
fn renew_by(alloc: Global, pass: Pass, rows: SlotRows) -> Result<State, AllocError>
    requires { are_rows rows ≡ true }
    ensures is { IfOk result (λ s. (more : List Answered)
        → plan_of s more ≡ renewed (entries_of pass) rows more) }
    ensures sound { IfOk result IsSound }
{
    let entries = match pass.entries() {
        Ok(entries) => entries,
        Err(error) => {
            drop(rows);
            return Err(error);
        }
    };
    let state = renew(alloc, entries, rows)?;
    Ok(state)
}

/// The link of pass one answered.
#[tactic(auto, using(crate::proofs::Going::goes_first_good, crate::proofs::Going::goes_first_bad, crate::proofs::Going::order_on))]
pub fn after_first(
    alloc: Global,
    pass: Pass,
    slots: SlotMap,
    link: u32,
    told: &Answer,
) -> Result<State, AllocError>
    requires { in_order (places (entries_of pass)) ≡ true }
    ensures is { IfOk result (λ s. (more : List Answered)
        → plan_of s more ≡ first_from pass slots link
        ((query part.First pass.here.address link, told.now) ∷ more)) }
    ensures sound { IfOk result IsSound }
{
    let rows = match rows_told(alloc, pass.here.address.host.as_slice(), told) {
        Ok(rows) => rows,
        Err(error) => {
            drop(pass);
            drop(slots);
            return Err(error);
        }
    };
    match rows {
        Some(rows) => {
            drop(slots);
            let state = renew_by(alloc, pass, rows)?;
            Ok(state)
        }
        None => {
            let state = first_behind(alloc, pass, slots)?;
            Ok(state)
        }
    }
}

/// Pass two goes on behind a node whose entry becomes this.
#[tactic(auto, using(crate::proofs::Going::goes_behind, crate::proofs::Going::order_over))]
fn behind_node(
    pass: Pass,
    state: ConnState,
    slots: SlotMap,
    last: RedisError,
) -> Result<State, AllocError>
    requires { in_order (places (entries_of pass)) ≡ true }
    ensures is { IfOk result (λ s. (more : List Answered)
        → plan_of s more ≡ after_second
        (pass.passed ++ entry pass.here.address state ∷ visited pass.rest more) slots more
        (until_good last (second_replies pass.rest more))) }
    ensures sound { IfOk result IsSound }
{
    let Pass { passed, here, rest } = pass;
    let NodeEntry { address, state: _ } = here;
    let mut passed = passed;
    match passed.push(NodeEntry { address, state }) {
        Ok(()) => Ok(begin_second(passed, rest, slots, last)),
        Err(error) => {
            drop(passed);
            drop(rest);
            drop(slots);
            drop(last);
            Err(error)
        }
    }
}

/// A node of pass two told these slots.
#[tactic(auto, using(crate::proofs::Going::goes_renewed_with))]
fn renew_with(
    alloc: Global,
    pass: Pass,
    state: ConnState,
    rows: SlotRows,
) -> Result<State, AllocError>
    requires { are_rows rows ≡ true }
    ensures is { IfOk result (λ s. (more : List Answered)
        → plan_of s more ≡ renewed (pass.passed ++ entry pass.here.address state ∷ pass.rest) rows more) }
    ensures sound { IfOk result IsSound }
{
    let entries = pass.entries_with(state)?;
    let renewed = renew(alloc, entries, rows)?;
    Ok(renewed)
}

/// What becomes of the entry of a node that was reached, or failed.
fn entered(step: Step) -> ConnState
    ensures { result ≡ entered step }
{
    match step {
        Step::Checking(_) => ConnState::Connecting,
        Step::Connecting => ConnState::Connecting,
        Step::Arrived(link) => ConnState::Connected(link),
    }
}

/// Pass two goes on by what was heard of its node.
#[tactic(auto, unfolding(crate::specs::Recovering::plan_of))]
pub fn after_second(
    alloc: Global,
    pass: Pass,
    slots: SlotMap,
    step: Step,
    last: RedisError,
    heard: Heard,
) -> Result<State, AllocError>
    requires order { in_order (places (entries_of pass)) ≡ true }
    requires rows { AreHeard heard }
    ensures is { IfOk result (λ s. (more : List Answered)
        → plan_of s more ≡ after_heard pass slots step last heard more) }
    ensures sound { IfOk result IsSound }
{
    match heard {
        Heard::Goes(step) => Ok(State::Second {
            pass,
            slots,
            step,
            last,
        }),
        Heard::Rows(rows) => {
            drop(slots);
            drop(last);
            let next = renew_with(alloc, pass, entered(step), rows)?;
            Ok(next)
        }
        Heard::Error(error) => {
            drop(last);
            let next = behind_node(pass, entered(step), slots, error)?;
            Ok(next)
        }
    }
}
