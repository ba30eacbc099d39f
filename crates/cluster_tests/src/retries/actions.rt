use crate::nodes::{address, is_at};
use cluster_config::{AddressSet, PollFlushAction};
use std::alloc::{AllocError, Global};

/// An action, by the addresses that it has.
#[derive(Clone, Copy)]
enum Doing {
    Nothing,
    Slots,
    Nodes(&'static [(&'static [u8], u16)]),
    Initial,
}

/// Two actions, and the two as one.
type Joined = (Doing, Doing, Doing);

/// Two repairs, of which the addresses of both are repaired in order.
const REPAIRS: [Joined; 2] = [
    (
        Doing::Nodes(&[(b"a", 1)]),
        Doing::Nodes(&[(b"b", 1)]),
        Doing::Nodes(&[(b"a", 1), (b"b", 1)]),
    ),
    (
        Doing::Nodes(&[(b"b", 1), (b"aa", 1), (b"a", 10)]),
        Doing::Nodes(&[(b"a", 9), (b"b", 1)]),
        Doing::Nodes(&[(b"a", 9), (b"a", 10), (b"aa", 1), (b"b", 1)]),
    ),
];

/// Other actions, of which one is both.
const JOINED: [Joined; 6] = [
    (
        Doing::Nodes(&[(b"a", 1), (b"b", 1)]),
        Doing::Slots,
        Doing::Slots,
    ),
    (Doing::Slots, Doing::Nodes(&[(b"a", 1)]), Doing::Slots),
    (Doing::Nothing, Doing::Slots, Doing::Slots),
    (
        Doing::Nodes(&[(b"a", 1)]),
        Doing::Nothing,
        Doing::Nodes(&[(b"a", 1)]),
    ),
    (Doing::Slots, Doing::Initial, Doing::Initial),
    (Doing::Initial, Doing::Nodes(&[(b"a", 1)]), Doing::Initial),
];

fn address_set(alloc: Global, nodes: &[(&[u8], u16)]) -> Result<AddressSet, AllocError> {
    let mut set = AddressSet::new(alloc);
    for node in nodes {
        set.insert(address(alloc, node.0, node.1)?)?;
    }
    Ok(set)
}

fn action(alloc: Global, doing: Doing) -> Result<PollFlushAction, AllocError> {
    match doing {
        Doing::Nothing => Ok(PollFlushAction::None),
        Doing::Slots => Ok(PollFlushAction::RebuildSlots),
        Doing::Nodes(nodes) => Ok(PollFlushAction::Reconnect(address_set(alloc, nodes)?)),
        Doing::Initial => Ok(PollFlushAction::ReconnectFromInitialConnections),
    }
}

fn are_nodes(set: &AddressSet, nodes: &[(&[u8], u16)]) -> bool {
    let addresses = set.as_slice();
    if addresses.len() != nodes.len() {
        return false;
    }
    for (address, node) in addresses.iter().zip(nodes) {
        if !is_at(address, node.0, node.1) {
            return false;
        }
    }
    true
}

fn is_action(action: &PollFlushAction, doing: &Doing) -> bool {
    match (action, doing) {
        (PollFlushAction::None, Doing::Nothing) => true,
        (PollFlushAction::RebuildSlots, Doing::Slots) => true,
        (PollFlushAction::Reconnect(set), Doing::Nodes(nodes)) => are_nodes(set, nodes),
        (PollFlushAction::ReconnectFromInitialConnections, Doing::Initial) => true,
        _ => false,
    }
}

/// Whether the first two actions are the third as one.
fn joins(alloc: Global, case: &Joined) -> Result<bool, AllocError> {
    let first = action(alloc, case.0)?;
    let next = action(alloc, case.1)?;
    let both = first.change_state(next)?;
    Ok(is_action(&both, &case.2))
}

#[test]
fn repairs_join(rt: HostRuntime) -> Result<(), AllocError> {
    for case in &REPAIRS {
        assert!(rt; joins(rt.alloc(), case)?);
    }
    Ok(())
}

#[test]
fn actions_join(rt: HostRuntime) -> Result<(), AllocError> {
    for case in &JOINED {
        assert!(rt; joins(rt.alloc(), case)?);
    }
    Ok(())
}

#[test]
fn one_address_is_a_set(rt: HostRuntime) -> Result<(), AllocError> {
    let set = AddressSet::from_address(rt.alloc(), address(rt.alloc(), b"a", 1)?)?;
    let one = are_nodes(&set, &[(b"a", 1)]) && set.len() == 1 && !set.is_empty();
    assert!(rt; one);
    Ok(())
}

/// More addresses than a set has room for without asking for memory.
const MORE: [(&[u8], u16); 5] = [(b"d", 1), (b"a", 1), (b"b", 1), (b"c", 1), (b"e", 1)];

/// What a set of `b` may hold where those were put into it: all of them, or the first so many.
const PUT_IN: [&[(&[u8], u16)]; 5] = [
    &[(b"a", 1), (b"b", 1), (b"c", 1), (b"d", 1), (b"e", 1)],
    &[(b"a", 1), (b"b", 1), (b"c", 1), (b"d", 1)],
    &[(b"a", 1), (b"b", 1), (b"c", 1)],
    &[(b"a", 1), (b"b", 1)],
    &[(b"b", 1)],
];

/// Whether a set holds all that may be put in; or, where memory was refused for it, the first so many.
fn holds(set: &AddressSet, is_whole: bool) -> bool {
    if is_whole {
        return are_nodes(set, PUT_IN[0]);
    }
    for nodes in &PUT_IN {
        if are_nodes(set, nodes) {
            return true;
        }
    }
    false
}

/// Whether a set holds what it may after others were joined to it.
fn joins_others(alloc: Global) -> Result<bool, AllocError> {
    let mut set = address_set(alloc, &[(b"b", 1)])?;
    let more = address_set(alloc, &MORE)?;
    let joined = set.join(more);
    Ok(holds(&set, joined.is_ok()))
}

#[test]
fn sets_join(rt: HostRuntime) -> Result<(), AllocError> {
    assert!(rt; joins_others(rt.alloc())?);
    Ok(())
}
