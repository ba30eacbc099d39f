use crate::nodes::address;
use cluster_config::{
    Chosen, Next, OperationTarget, RecoveryAction, RetryParams, RoundEnd, choose_response,
    cluster_retry_wait_upper_ms,
};
use containers::Bytes;
use redis_error::{FaultKind, RedisError};
use resp_value::{Redirection, ServerError, Value, Values};
use std::alloc::{AllocError, Global};

/// A base wait, the least and the greatest wait, and what a wait stays below.
const UPPERS: [(u64, u64, u64, u64); 6] = [
    (10, 100, 50, 101),
    (10, 100, 100, 101),
    (120, 100, 1_000, 120),
    (2_000, 100, 1_000, 1_000),
    (0, u64::MAX - 1, u64::MAX, u64::MAX),
    (0, u64::MAX, u64::MAX, u64::MAX),
];

/// The number of a retry, a draw, and the wait with the defaults.
const WAITS: [(u32, u64, u64); 5] = [
    (1, 5_000, 1_280),
    (8, 5_000, 2_440),
    (16, 654_079, 655_359),
    (64, 654_080, 1_280),
    (u32::MAX, 654_079, 655_359),
];

#[test]
fn waits_are_drawn_between_their_bounds(rt: HostRuntime) {
    for row in &UPPERS {
        assert_eq!(rt; cluster_retry_wait_upper_ms(row.0, row.1, row.2), row.3);
    }
}

#[test]
fn waits_grow_with_the_retries(rt: HostRuntime) {
    let params = RetryParams::default();
    for row in &WAITS {
        assert_eq!(rt; params.wait_time_for_retry(row.0, row.1), row.2);
    }
    let endless = RetryParams {
        min_wait: u64::MAX,
        ..params
    };
    assert_eq!(rt; endless.wait_time_for_retry(1, 5_000), u64::MAX);
}

#[test]
fn a_clone_of_parameters_is_equal(rt: HostRuntime) -> Result<(), AllocError> {
    let params = RetryParams {
        number_of_retries: 3,
        ..RetryParams::default()
    };
    let same = params.clone()? == params && params != RetryParams::default();
    assert!(rt; same);
    Ok(())
}

/// Where a round went.
#[derive(Clone, Copy)]
enum Went {
    ToNode,
    Nowhere,
    ToSeveral,
}

/// How a round ended.
#[derive(Clone, Copy)]
enum Ended {
    /// By a value of a server, which is an error.
    Refused,
    /// By two values: a number, and such an error.
    RefusedInPart,
    Number,
    Closed,
    NotFound,
    Fault(FaultKind),
}

/// Where a round went and how it ended, with the code of its error and what stands behind it; its number of 16; and what is chosen
/// then: what follows, whether the routing is reset, the slot, the address and the kind of a redirect, and the action.
struct Case {
    went: Went,
    ended: Ended,
    code: &'static [u8],
    detail: &'static [u8],
    round: u32,
    next: Next,
    reset: bool,
    redirect: Option<(u16, &'static [u8], bool)>,
    action: RecoveryAction,
}

/// Redirects of a server.
const REDIRECTS: [Case; 7] = [
    Case {
        went: Went::ToNode,
        ended: Ended::Refused,
        code: b"ASK",
        detail: b"123 foo:1234",
        round: 0,
        next: Next::AtOnce,
        reset: false,
        redirect: Some((123, b"foo:1234", true)),
        action: RecoveryAction::None,
    },
    Case {
        went: Went::ToNode,
        ended: Ended::Refused,
        code: b"ASK",
        detail: b"123 foo:1234",
        round: 15,
        next: Next::AtOnce,
        reset: false,
        redirect: Some((123, b"foo:1234", true)),
        action: RecoveryAction::None,
    },
    Case {
        went: Went::ToNode,
        ended: Ended::Refused,
        code: b"ASK",
        detail: b"123 foo:1234",
        round: 16,
        next: Next::Answered,
        reset: false,
        redirect: None,
        action: RecoveryAction::None,
    },
    Case {
        went: Went::ToNode,
        ended: Ended::Refused,
        code: b"MOVED",
        detail: b"123 foo:1234",
        round: 0,
        next: Next::AtOnce,
        reset: false,
        redirect: Some((123, b"foo:1234", false)),
        action: RecoveryAction::RebuildSlots,
    },
    Case {
        went: Went::ToNode,
        ended: Ended::Refused,
        code: b"MOVED",
        detail: b"123 foo:1234",
        round: 16,
        next: Next::Answered,
        reset: false,
        redirect: None,
        action: RecoveryAction::RebuildSlots,
    },
    Case {
        went: Went::ToNode,
        ended: Ended::Refused,
        code: b"MOVED",
        detail: b"16384 foo:1234",
        round: 0,
        next: Next::AtOnce,
        reset: false,
        redirect: None,
        action: RecoveryAction::RebuildSlots,
    },
    Case {
        went: Went::ToNode,
        ended: Ended::RefusedInPart,
        code: b"MOVED",
        detail: b"1 a:2",
        round: 0,
        next: Next::AtOnce,
        reset: false,
        redirect: Some((1, b"a:2", false)),
        action: RecoveryAction::RebuildSlots,
    },
];

/// Other ends at one node.
const ENDS: [Case; 15] = [
    Case {
        went: Went::ToNode,
        ended: Ended::Refused,
        code: b"READONLY",
        detail: b"x",
        round: 0,
        next: Next::Pending,
        reset: true,
        redirect: None,
        action: RecoveryAction::RebuildSlots,
    },
    Case {
        went: Went::ToNode,
        ended: Ended::Refused,
        code: b"READONLY",
        detail: b"x",
        round: 16,
        next: Next::Answered,
        reset: false,
        redirect: None,
        action: RecoveryAction::RebuildSlots,
    },
    Case {
        went: Went::ToNode,
        ended: Ended::NotFound,
        code: b"",
        detail: b"",
        round: 0,
        next: Next::Pending,
        reset: true,
        redirect: None,
        action: RecoveryAction::ReconnectInitial,
    },
    Case {
        went: Went::ToNode,
        ended: Ended::NotFound,
        code: b"",
        detail: b"",
        round: 16,
        next: Next::Answered,
        reset: false,
        redirect: None,
        action: RecoveryAction::ReconnectInitial,
    },
    Case {
        went: Went::ToNode,
        ended: Ended::Closed,
        code: b"",
        detail: b"",
        round: 0,
        next: Next::Pending,
        reset: true,
        redirect: None,
        action: RecoveryAction::RepairTarget,
    },
    Case {
        went: Went::ToNode,
        ended: Ended::Closed,
        code: b"",
        detail: b"",
        round: 16,
        next: Next::Answered,
        reset: false,
        redirect: None,
        action: RecoveryAction::RepairTarget,
    },
    Case {
        went: Went::ToNode,
        ended: Ended::Refused,
        code: b"TRYAGAIN",
        detail: b"x",
        round: 0,
        next: Next::Sleep,
        reset: false,
        redirect: None,
        action: RecoveryAction::None,
    },
    Case {
        went: Went::ToNode,
        ended: Ended::Refused,
        code: b"TRYAGAIN",
        detail: b"x",
        round: 16,
        next: Next::Answered,
        reset: false,
        redirect: None,
        action: RecoveryAction::None,
    },
    Case {
        went: Went::ToNode,
        ended: Ended::Fault(FaultKind::TimedOut),
        code: b"",
        detail: b"",
        round: 0,
        next: Next::Pending,
        reset: false,
        redirect: None,
        action: RecoveryAction::None,
    },
    Case {
        went: Went::ToNode,
        ended: Ended::Fault(FaultKind::TimedOut),
        code: b"",
        detail: b"",
        round: 16,
        next: Next::Answered,
        reset: false,
        redirect: None,
        action: RecoveryAction::None,
    },
    Case {
        went: Went::ToNode,
        ended: Ended::Fault(FaultKind::Denied),
        code: b"",
        detail: b"",
        round: 0,
        next: Next::Answered,
        reset: false,
        redirect: None,
        action: RecoveryAction::None,
    },
    Case {
        went: Went::ToNode,
        ended: Ended::Fault(FaultKind::Denied),
        code: b"",
        detail: b"",
        round: 16,
        next: Next::Answered,
        reset: false,
        redirect: None,
        action: RecoveryAction::None,
    },
    Case {
        went: Went::ToNode,
        ended: Ended::Refused,
        code: b"ERR",
        detail: b"x",
        round: 0,
        next: Next::Answered,
        reset: false,
        redirect: None,
        action: RecoveryAction::None,
    },
    Case {
        went: Went::ToNode,
        ended: Ended::RefusedInPart,
        code: b"ERR",
        detail: b"x",
        round: 0,
        next: Next::Answered,
        reset: false,
        redirect: None,
        action: RecoveryAction::None,
    },
    Case {
        went: Went::ToNode,
        ended: Ended::Number,
        code: b"",
        detail: b"",
        round: 0,
        next: Next::Answered,
        reset: false,
        redirect: None,
        action: RecoveryAction::None,
    },
];

/// Ends at several nodes, or at none.
const ENDS_ELSEWHERE: [Case; 8] = [
    Case {
        went: Went::ToSeveral,
        ended: Ended::Refused,
        code: b"MOVED",
        detail: b"123 foo:1234",
        round: 0,
        next: Next::Answered,
        reset: false,
        redirect: None,
        action: RecoveryAction::None,
    },
    Case {
        went: Went::ToSeveral,
        ended: Ended::Closed,
        code: b"",
        detail: b"",
        round: 16,
        next: Next::Answered,
        reset: false,
        redirect: None,
        action: RecoveryAction::None,
    },
    Case {
        went: Went::ToSeveral,
        ended: Ended::NotFound,
        code: b"",
        detail: b"",
        round: 0,
        next: Next::Pending,
        reset: true,
        redirect: None,
        action: RecoveryAction::ReconnectInitial,
    },
    Case {
        went: Went::ToSeveral,
        ended: Ended::NotFound,
        code: b"",
        detail: b"",
        round: 16,
        next: Next::Answered,
        reset: false,
        redirect: None,
        action: RecoveryAction::ReconnectInitial,
    },
    Case {
        went: Went::Nowhere,
        ended: Ended::NotFound,
        code: b"",
        detail: b"",
        round: 0,
        next: Next::Pending,
        reset: true,
        redirect: None,
        action: RecoveryAction::ReconnectInitial,
    },
    Case {
        went: Went::Nowhere,
        ended: Ended::NotFound,
        code: b"",
        detail: b"",
        round: 16,
        next: Next::Answered,
        reset: false,
        redirect: None,
        action: RecoveryAction::ReconnectInitial,
    },
    Case {
        went: Went::Nowhere,
        ended: Ended::Fault(FaultKind::Refused),
        code: b"",
        detail: b"",
        round: 0,
        next: Next::Sleep,
        reset: true,
        redirect: None,
        action: RecoveryAction::RebuildSlots,
    },
    Case {
        went: Went::Nowhere,
        ended: Ended::Fault(FaultKind::Refused),
        code: b"",
        detail: b"",
        round: 16,
        next: Next::Answered,
        reset: false,
        redirect: None,
        action: RecoveryAction::RebuildSlots,
    },
];

fn target(alloc: Global, went: Went) -> Result<OperationTarget, AllocError> {
    match went {
        Went::ToNode => Ok(OperationTarget::Node(address(alloc, b"foo", 1234)?)),
        Went::Nowhere => Ok(OperationTarget::NotFound),
        Went::ToSeveral => Ok(OperationTarget::FanOut),
    }
}

fn refusal(alloc: Global, code: &[u8], detail: &[u8]) -> Result<Value, AllocError> {
    let code = Bytes::from_slice(alloc, code)?;
    let detail = Some(Bytes::from_slice(alloc, detail)?);
    Ok(Value::ServerError(ServerError { code, detail }))
}

fn number_and_refusal(alloc: Global, code: &[u8], detail: &[u8]) -> Result<Values, AllocError> {
    let mut values = Values::new(alloc);
    values.push(Value::Int(7))?;
    values.push(refusal(alloc, code, detail)?)?;
    Ok(values)
}

fn end(alloc: Global, case: &Case) -> Result<RoundEnd, AllocError> {
    match case.ended {
        Ended::Refused => Ok(RoundEnd::Value(refusal(alloc, case.code, case.detail)?)),
        Ended::RefusedInPart => {
            Ok(RoundEnd::Many(number_and_refusal(alloc, case.code, case.detail)?))
        }
        Ended::Number => Ok(RoundEnd::Value(Value::Int(7))),
        Ended::Closed => Ok(RoundEnd::Error(RedisError::Closed)),
        Ended::NotFound => Ok(RoundEnd::Error(RedisError::NotFound)),
        Ended::Fault(fault) => Ok(RoundEnd::Error(RedisError::Io { fault })),
    }
}

fn is_redirect(redirect: &Option<Redirection<'_>>, wanted: &Option<(u16, &[u8], bool)>) -> bool {
    match (redirect, wanted) {
        (None, None) => true,
        (Some(redirect), Some(wanted)) => {
            redirect.slot == wanted.0 && redirect.address == wanted.1 && redirect.ask == wanted.2
        }
        _ => false,
    }
}

fn is_chosen(chosen: &Chosen<'_>, case: &Case) -> bool {
    chosen.next == case.next
        && chosen.reset == case.reset
        && is_redirect(&chosen.redirect, &case.redirect)
        && chosen.action == case.action
}

/// Whether that follows an end.
fn follows_end(alloc: Global, case: &Case, end: &RoundEnd) -> Result<bool, AllocError> {
    let target = target(alloc, case.went)?;
    Ok(is_chosen(
        &choose_response(&target, end, case.round, &RetryParams::default()),
        case,
    ))
}

/// Whether that follows the end.
fn follows(alloc: Global, case: &Case) -> Result<bool, AllocError> {
    let end = end(alloc, case)?;
    let follows = follows_end(alloc, case, &end);
    drop(end);
    follows
}

#[test]
fn redirects_are_followed_by_the_table(rt: HostRuntime) -> Result<(), AllocError> {
    for case in &REDIRECTS {
        assert!(rt; follows(rt.alloc(), case)?);
    }
    Ok(())
}

#[test]
fn other_ends_are_followed_by_the_table(rt: HostRuntime) -> Result<(), AllocError> {
    for case in &ENDS {
        assert!(rt; follows(rt.alloc(), case)?);
    }
    Ok(())
}

#[test]
fn ends_elsewhere_are_followed_by_the_table(rt: HostRuntime) -> Result<(), AllocError> {
    for case in &ENDS_ELSEWHERE {
        assert!(rt; follows(rt.alloc(), case)?);
    }
    Ok(())
}

/// Whether an end counts as a server's error of this code.
fn counts_as(alloc: Global, end: &RoundEnd, code: &[u8]) -> Result<bool, AllocError> {
    let Some(error) = end.error() else {
        return Ok(false);
    };
    let copy = error.to_error(alloc)?;
    let counts = has_code(&copy, code);
    drop(copy);
    Ok(counts)
}

fn has_code(error: &RedisError, code: &[u8]) -> bool {
    match error.code() {
        Some(other) => other == code,
        None => false,
    }
}

/// Whether a number and a server's error of this code count as that error.
fn number_and_refusal_count_as(
    alloc: Global,
    code: &'static [u8],
    detail: &'static [u8],
) -> Result<bool, AllocError> {
    let end = RoundEnd::Many(number_and_refusal(alloc, code, detail)?);
    let counts = counts_as(alloc, &end, code);
    drop(end);
    counts
}

#[test]
fn a_pipeline_counts_as_its_first_error(rt: HostRuntime) -> Result<(), AllocError> {
    assert!(rt; number_and_refusal_count_as(rt.alloc(), b"MOVED", b"1 a:2")?);
    Ok(())
}
