use crate::given::{Told, event, open, single, step, unbounded};
use driver_model::{Action, ConnectionWords, Event};
use shared_session::Session;
use std::alloc::{AllocError, Global};

/// How many pushes come in one event.
const COUNT: usize = 10_000;

/// A session on RESP3 of which somebody hears pushes, or nobody.
fn begin(alloc: Global, is_heard: bool, actions: &mut Vec<Action>) -> Result<Session, AllocError> {
    let connection = ConnectionWords {
        response: Some(None),
        push: Some(is_heard),
        ..unbounded()
    };
    let config = single(alloc, b"redis://h?protocol=3", connection)?;
    open(alloc, config, 0, actions)
}

/// So many pushes, and a reply.
fn pushes(alloc: Global) -> Result<Event, AllocError> {
    let mut text = Vec::new(alloc);
    for _ in 0..COUNT {
        text.extend_from_slice(b">2\r\n+message\r\n:1\r\n")?;
    }
    text.extend_from_slice(b"+v\r\n")?;
    Event::bytes(alloc, 0, text.as_slice())
}

/// How many pushes these actions tell before an outcome, where there is one and none is told behind it.
fn told(actions: &[Action]) -> Option<usize> {
    let mut count = 0usize;
    let mut is_answered = false;
    for action in actions {
        match action {
            Action::Push { .. } => {
                if is_answered {
                    return None;
                }
                count = count.saturating_add(1);
            }
            Action::Outcome { .. } => is_answered = true,
            _ => {}
        }
    }
    if is_answered { Some(count) } else { None }
}

/// A link is set up, a request is handed in, and its reply comes behind the pushes.
fn answer(
    alloc: Global,
    session: &mut Session,
    actions: &mut Vec<Action>,
) -> Result<(), AllocError> {
    for before in [Told::Connected(0), Told::Came("+OK\r\n"), Told::Get("k")] {
        step(alloc, session, event(alloc, before)?, actions)?;
    }
    step(alloc, session, pushes(alloc)?, actions)
}

/// How many of the pushes of one event are told before the outcome of the reply behind them.
fn told_in_one_event(alloc: Global, is_heard: bool) -> Result<Option<usize>, AllocError> {
    let mut actions = Vec::new(alloc);
    let mut session = begin(alloc, is_heard, &mut actions)?;
    answer(alloc, &mut session, &mut actions)?;
    Ok(told(actions.as_slice()))
}

#[test]
fn many_pushes_come_at_once(rt: HostRuntime) -> Result<(), AllocError> {
    assert!(rt; told_in_one_event(rt.alloc(), true)? == Some(COUNT));
    assert!(rt; told_in_one_event(rt.alloc(), false)? == Some(0));
    Ok(())
}
