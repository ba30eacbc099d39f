use crate::nodes::{address, is_at};
use cluster_plan::{Answer, Ask, ConnState, InitialConnects, InitialEnd, NodeEntry, Part, Request};
use mux_routing::NodeAddress;
use redis_error::{FaultKind, RedisError};
use std::alloc::{AllocError, Global};

/// What a connect is answered: by a link of that number, or by a fault.
#[derive(Clone, Copy)]
enum Told {
    Link(u32),
    Fault(FaultKind),
}

/// A port whose connect is answered so, and the ports whose connects have no answer then.
type Step = (u16, Told, &'static [u16]);

/// What all connects have come to.
#[derive(Clone, Copy)]
enum Wanted {
    Links(&'static [(u16, ConnState)]),
    Fault(FaultKind),
    /// There was no address.
    NotFound,
}

/// The ports of the initial addresses, what is answered, and what comes of it.
#[derive(Clone, Copy)]
struct Case {
    ports: &'static [u16],
    steps: &'static [Step],
    wanted: Wanted,
}

/// Links stand in the order of the initial addresses, the later of two failures counts, and the first of two answers to one connect;
/// what wasn't asked is no answer.
const CASES: [Case; 7] = [
    Case {
        ports: &[],
        steps: &[],
        wanted: Wanted::NotFound,
    },
    Case {
        ports: &[7_000],
        steps: &[(7_000, Told::Link(3), &[])],
        wanted: Wanted::Links(&[(7_000, ConnState::Connected(3))]),
    },
    Case {
        ports: &[7_001, 7_000],
        steps: &[
            (7_000, Told::Link(1), &[7_001]),
            (7_001, Told::Link(0), &[]),
        ],
        wanted: Wanted::Links(&[
            (7_001, ConnState::Connected(0)),
            (7_000, ConnState::Connected(1)),
        ]),
    },
    Case {
        ports: &[7_001, 7_000],
        steps: &[
            (7_001, Told::Link(0), &[7_000]),
            (7_000, Told::Fault(FaultKind::Refused), &[]),
        ],
        wanted: Wanted::Links(&[(7_001, ConnState::Connected(0))]),
    },
    Case {
        ports: &[7_001, 7_000],
        steps: &[
            (7_000, Told::Fault(FaultKind::Refused), &[7_001]),
            (7_001, Told::Fault(FaultKind::Reset), &[]),
        ],
        wanted: Wanted::Fault(FaultKind::Reset),
    },
    Case {
        ports: &[7_001, 7_000],
        steps: &[
            (7_001, Told::Fault(FaultKind::Reset), &[7_000]),
            (7_000, Told::Fault(FaultKind::Refused), &[]),
        ],
        wanted: Wanted::Fault(FaultKind::Refused),
    },
    Case {
        ports: &[7_000],
        steps: &[
            (7_001, Told::Link(9), &[7_000]),
            (7_000, Told::Link(1), &[]),
            (7_000, Told::Link(2), &[]),
        ],
        wanted: Wanted::Links(&[(7_000, ConnState::Connected(1))]),
    },
];

/// The node of that port, at the host h.
fn node_at(alloc: Global, port: u16) -> Result<NodeAddress, AllocError> {
    address(alloc, b"h", port)
}

fn nodes_at(alloc: Global, ports: &[u16]) -> Result<Vec<NodeAddress>, AllocError> {
    let mut nodes = Vec::new(alloc);
    for port in ports {
        nodes.push(node_at(alloc, *port)?)?;
    }
    Ok(nodes)
}

fn is_node(address: &NodeAddress, port: u16) -> bool {
    is_at(address, b"h", port)
}

fn is_state(state: ConnState, wanted: ConnState) -> bool {
    match (state, wanted) {
        (ConnState::Connected(link), ConnState::Connected(wanted)) => link == wanted,
        (ConnState::Reconnecting(link), ConnState::Reconnecting(wanted)) => link == wanted,
        (ConnState::Connecting, ConnState::Connecting) => true,
        _ => false,
    }
}

/// Whether a map has the nodes of these ports, in this order, with that of each.
fn are_entries(entries: &[NodeEntry], wanted: &[(u16, ConnState)]) -> bool {
    if entries.len() != wanted.len() {
        return false;
    }
    for (entry, wanted) in entries.iter().zip(wanted) {
        if !is_node(&entry.address, wanted.0) || !is_state(entry.state, wanted.1) {
            return false;
        }
    }
    true
}

fn is_connect(ask: &Ask, port: u16) -> bool {
    matches!((ask.part, ask.request), (Part::Initial, Request::Connect))
        && is_node(&ask.address, port)
}

/// Whether these are the connects of those ports.
fn are_connects(asks: &[Ask], ports: &[u16]) -> bool {
    if asks.len() != ports.len() {
        return false;
    }
    for (ask, port) in asks.iter().zip(ports) {
        if !is_connect(ask, *port) {
            return false;
        }
    }
    true
}

/// Whether the connects of those ports have no answer, and no others.
fn awaits(alloc: Global, connects: &InitialConnects, ports: &[u16]) -> Result<bool, AllocError> {
    let asks = connects.asks(alloc)?;
    let is_over = connects.is_over();
    Ok(are_connects(asks.as_slice(), ports) && is_over == ports.is_empty())
}

fn answer_of(told: Told) -> Answer {
    match told {
        Told::Link(link) => Answer::Connected(link),
        Told::Fault(fault) => Answer::Failed(RedisError::Io { fault }),
    }
}

/// Whether the connects await at first and after each answer what they are to await.
fn goes_on(alloc: Global, connects: &mut InitialConnects, case: &Case) -> Result<bool, AllocError> {
    if !awaits(alloc, connects, case.ports)? {
        return Ok(false);
    }
    for step in case.steps {
        let address = node_at(alloc, step.0)?;
        connects.answer(&address, answer_of(step.1));
        if !awaits(alloc, connects, step.2)? {
            return Ok(false);
        }
    }
    Ok(true)
}

fn is_fault(error: &RedisError, wanted: FaultKind) -> bool {
    match error {
        RedisError::Io { fault } => *fault == wanted,
        _ => false,
    }
}

fn is_wanted(end: &InitialEnd, wanted: Wanted) -> bool {
    match (end, wanted) {
        (InitialEnd::Connected(entries), Wanted::Links(links)) => {
            are_entries(entries.as_slice(), links)
        }
        (InitialEnd::Failed(error), Wanted::Fault(fault)) => is_fault(error, fault),
        (InitialEnd::Failed(error), Wanted::NotFound) => matches!(error, RedisError::NotFound),
        _ => false,
    }
}

fn ends(alloc: Global, connects: InitialConnects, wanted: Wanted) -> Result<bool, AllocError> {
    if !connects.is_over() {
        drop(connects);
        return Ok(false);
    }
    let end = connects.finish(alloc)?;
    let ends = is_wanted(&end, wanted);
    drop(end);
    Ok(ends)
}

fn begun(alloc: Global, ports: &[u16]) -> Result<InitialConnects, AllocError> {
    let nodes = nodes_at(alloc, ports)?;
    InitialConnects::begin(alloc, nodes.as_slice())
}

/// Whether that comes of a case.
fn comes(alloc: Global, case: &Case) -> Result<bool, AllocError> {
    let mut connects = begun(alloc, case.ports)?;
    match goes_on(alloc, &mut connects, case) {
        Ok(goes_on) => {
            let ends = ends(alloc, connects, case.wanted)?;
            Ok(goes_on && ends)
        }
        Err(error) => {
            drop(connects);
            Err(error)
        }
    }
}

#[test]
fn initial_nodes_are_connected(rt: HostRuntime) -> Result<(), AllocError> {
    for case in &CASES {
        assert!(rt; comes(rt.alloc(), case)?);
    }
    Ok(())
}
