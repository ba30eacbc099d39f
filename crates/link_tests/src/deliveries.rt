ghost use Rattle.std.specs.Prelude.{None};

use driver_model::{Action, PushInfo};
use push_sender::{AsyncPushSender, PushFn, SendError, deliver};
use resp_value::{PushKind, Value, Values};
use std::alloc::{AllocError, Global};

/// A push with this number.
fn numbered(alloc: Global, number: i64) -> Result<PushInfo, AllocError> {
    let mut parts = Values::new(alloc);
    parts.push(Value::Int(number))?;
    let kind = PushKind::Message;
    Ok(PushInfo { kind, parts })
}

/// The number of a push, if it has one.
fn number_of(info: &PushInfo) -> Option<i64> {
    match info.parts.as_slice() {
        [Value::Int(number)] => Some(*number),
        _ => None,
    }
}

/// One more push.
fn add_push(actions: &mut Vec<Action>, info: PushInfo) -> Result<(), AllocError> {
    actions.push(Action::Push { link: 0, info })?;
    Ok(())
}

/// One more action that is no push.
fn add_close(actions: &mut Vec<Action>) -> Result<(), AllocError> {
    actions.push(Action::Close { link: 0 })?;
    Ok(())
}

fn add_all(alloc: Global, numbers: &[i64], actions: &mut Vec<Action>) -> Result<(), AllocError> {
    for number in numbers {
        add_push(actions, numbered(alloc, *number)?)?;
        add_close(actions)?;
    }
    add_push(actions, PushInfo::disconnection(alloc))
}

/// Pushes with these numbers, another action behind each, and the end of the link.
fn actions(alloc: Global, numbers: &[i64]) -> Result<Vec<Action>, AllocError> {
    let mut actions = Vec::new(alloc);
    add_all(alloc, numbers, &mut actions)?;
    Ok(actions)
}

/// A sender that takes pushes with the numbers from 0 in order, and one that tells an end behind them.
#[derive(Drop)]
struct InOrder {
    next: i64,
    refused: u64,
}

impl AsyncPushSender for InOrder {
    ghost handed = { λ _. None };

    ghost refusals = { λ it. it.refused };

    fn refused(&self) -> u64 {
        self.refused
    }

    fn send(&mut self, info: PushInfo) -> Result<(), SendError> {
        let is_end = info.is_disconnection();
        let number = number_of(&info);
        drop(info);
        if is_end {
            return Ok(());
        }
        if number != Some(self.next) {
            self.refused = self.refused.saturating_add(1);
            return Err(SendError::Refused);
        }
        self.next = self.next.saturating_add(1);
        Ok(())
    }
}

/// How many of the pushes with these numbers are refused by a sender that takes them in order.
fn refused_in_order(alloc: Global, numbers: &[i64]) -> Result<u64, AllocError> {
    let actions = actions(alloc, numbers)?;
    let mut sender: Box<dyn AsyncPushSender> = Box::new(
        alloc,
        InOrder {
            next: 0,
            refused: 0,
        },
    )?;
    deliver(alloc, actions.as_slice(), &mut sender)
}

/// How many of them are refused by a closure that refuses what is 5.
fn refused_fives(alloc: Global, numbers: &[i64]) -> Result<u64, AllocError> {
    let actions = actions(alloc, numbers)?;
    let take = |info: PushInfo| -> Result<(), SendError> {
        let number = number_of(&info);
        drop(info);
        if number == Some(5) {
            return Err(SendError::Refused);
        }
        Ok(())
    };
    let mut sender = PushFn::new(Box::new(alloc, take)?);
    deliver(alloc, actions.as_slice(), &mut sender)
}

/// Numbers of pushes, and how many of them a sender refuses that takes them in order.
const ORDERS: [(&[i64], u64); 3] = [(&[], 0), (&[0, 1, 2], 0), (&[0, 2, 1], 1)];

#[test]
fn pushes_are_delivered(rt: HostRuntime) -> Result<(), AllocError> {
    for row in &ORDERS {
        assert!(rt; refused_in_order(rt.alloc(), row.0)? == row.1);
    }
    assert!(rt; refused_fives(rt.alloc(), &[5, 6, 5])? == 2);
    Ok(())
}
