ghost use Rattle.std.specs.Prelude.{◌≡◌, ◌<◌, ◌∷◌, [], List, IfOk, vec_len};
ghost use Rattle.session_callers.specs.Rule.{Each};
ghost use Rattle.caller_threads.specs.Submits.{Line, IsAllowed, AreAllowed};

use crate::given::start;
use caller_threads::{Gate, OpenGate, submit_lines};
use driver_model::{Action, SessionKind, Submission};
use session_callers::{Caller, SharedSession};
use session_tests::given::get;
use std::alloc::{AllocError, Global};
use std::sync::Wait;
use std::sync::atomic::{AtomicU64, Ordering};
use std::test::*;
use std::thread::Threads;

/// Lets each of two callers wait for the other, so long as 100,000,000 looks take.
#[derive(Drop)]
struct Meeting {
    first: AtomicU64,
    second: AtomicU64,
    met: AtomicU64,
}

impl Gate for Meeting {
    fn enter(&self, caller: u32) {
        let (own, other) = if caller == 0 {
            (&self.first, &self.second)
        } else {
            (&self.second, &self.first)
        };
        own.store(1, Ordering::SeqCst);
        for _ in 0..100_000_000u32 {
            if other.load(Ordering::SeqCst) == 1 {
                self.met.fetch_add(1, Ordering::SeqCst);
                return;
            }
        }
    }
}

/// Takes only types that threads share.
fn is_shared<T: Sync>() {}

/// Takes only types that go to other threads.
fn crosses<T: Send>() {}

#[test]
fn sessions_of_callers_are_shared() {
    is_shared::<SharedSession>();
    crosses::<SharedSession>();
}

#[test]
fn callers_cross_threads() {
    crosses::<Caller>();
}

fn gets(alloc: Global, count: u8) -> Result<Vec<(Submission, u64)>, AllocError>
    ensures { IfOk result (λ lines. Each (IsAllowed SessionKind.Single) lines.items) }
{
    let mut lines = Vec::new(alloc);
    for i in 0..count {
        let _ = i;
        let what = get(alloc, "a")?;
        lines.push((what, 0))?;
    }
    Ok(lines)
}

fn both(alloc: Global, a: Caller, b: Caller) -> Result<Vec<Caller>, AllocError>
    ensures { IfOk result (λ callers. callers.items ≡ a ∷ b ∷ []) }
{
    let mut callers = Vec::new(alloc);
    match callers.push(a) {
        Ok(()) => {}
        Err(refused) => {
            drop(refused);
            drop(b);
            drop(callers);
            return Err(AllocError);
        }
    }
    callers.push(b)?;
    Ok(callers)
}

fn two_callers<R: Wait>(
    rt: &R,
    alloc: Global,
    out: &mut Vec<Action>,
) -> Result<(SharedSession, Vec<Caller>), AllocError>
    ensures some { IfOk result (λ made. 0 < vec_len made.1) }
    ensures of { IfOk result (λ made.
        Each (λ caller. caller.table ≡ made.0.table.shared.table_id) made.1.items
        ) }
    ensures allowed { IfOk result (λ made.
        (lines : List Line) → Each (IsAllowed SessionKind.Single) lines
        → Each (AreAllowed lines) made.1.items
        ) }
{
    let (shared, mut a) = start(alloc, out)?;
    let Ok(b) = shared.join(rt, &mut a) else {
        drop(shared);
        drop(a);
        return Err(AllocError);
    };
    match both(alloc, a, b) {
        Ok(callers) => Ok((shared, callers)),
        Err(error) => {
            drop(shared);
            Err(error)
        }
    }
}

/// How many turns are shown, where each has the number after that of the one before; else 0.
fn turns_shown(actions: &[Action]) -> u32 {
    let mut next: u32 = 0;
    for action in actions {
        if let Action::Turn { number, cause: _ } = action {
            if *number != next {
                return 0;
            }
            next = next.wrapping_add(1);
        }
    }
    next
}

/// How many callers are left of two that hand in so many requests.
fn handed_in<R: Threads + Wait + Sync, G: Gate>(
    rt: &R,
    alloc: Global,
    count: u8,
    gate: &G,
    numbers: &mut Vec<u32>,
    out: &mut Vec<Action>,
) -> Result<usize, AllocError> {
    let lines = gets(alloc, count)?;
    let (shared, mut callers) = match two_callers(rt, alloc, out) {
        Ok(made) => made,
        Err(error) => {
            drop(lines);
            return Err(error);
        }
    };
    let done = submit_lines(rt, alloc, &shared, &mut callers, lines, gate, numbers, out);
    let count = callers.len();
    drop(callers);
    drop(shared);
    match done {
        Ok(()) => Ok(count),
        Err(_) => Err(AllocError),
    }
}

#[test]
fn callers_meet(rt: HostRuntime) -> Result<(), AllocError> {
    let gate = Meeting {
        first: AtomicU64::new(0),
        second: AtomicU64::new(0),
        met: AtomicU64::new(0),
    };
    let mut out = Vec::new(rt.alloc());
    let mut numbers = Vec::new(rt.alloc());
    let count = handed_in(&rt, rt.alloc(), 2, &gate, &mut numbers, &mut out);
    drop(numbers);
    drop(out);
    assert!(rt; count? == 2 && gate.met.load(Ordering::SeqCst) == 2);
    Ok(())
}

/// Whether these are three numbers, of which the first is below the third and no two are one.
fn are_apart(numbers: &[u32]) -> bool {
    match *numbers {
        [first, second, third] => first < third && first != second && second != third,
        _ => false,
    }
}

/// Whether two callers hand three lines in, whose numbers are apart, with their turns.
fn hand_three_in<R: Threads + Wait + Sync>(rt: &R, alloc: Global) -> Result<bool, AllocError> {
    let mut out = Vec::new(alloc);
    let mut numbers = Vec::new(alloc);
    let count = handed_in(rt, alloc, 3, &OpenGate, &mut numbers, &mut out);
    let are_told = are_apart(numbers.as_slice()) && turns_shown(out.as_slice()) == 4;
    drop(numbers);
    drop(out);
    Ok(count? == 2 && are_told)
}

#[test]
fn three_lines_by_two_callers(rt: HostRuntime) -> Result<(), AllocError> {
    assert!(rt; hand_three_in(&rt, rt.alloc())?);
    Ok(())
}
