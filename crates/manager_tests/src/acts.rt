use conn_manager::{ManagerAct, ManagerTimer};
use driver_model::WaitKind;

/// Whether acts have these names.
pub(crate) fn are(acts: &[ManagerAct], names: &[&str]) -> bool {
    if acts.len() != names.len() {
        return false;
    }
    for (act, wanted) in acts.iter().zip(names) {
        if name(act).as_bytes() != wanted.as_bytes() {
            return false;
        }
    }
    true
}

/// The name of an act.
fn name(act: &ManagerAct) -> &'static str {
    match act {
        ManagerAct::Generation { number: _ } => "generation",
        ManagerAct::Connect { link: _ } => "connect",
        ManagerAct::Created { error: None } => "created",
        ManagerAct::Created { error: Some(_) } => "not created",
        ManagerAct::Timer { timer, ms } => manager_timer(*timer, *ms),
        ManagerAct::Round { .. } => "round",
        ManagerAct::Push { .. } => "push",
        ManagerAct::Close { link: _ } => "close",
        ManagerAct::Write { .. } => "write",
        ManagerAct::Wait { request: _, wait } => wait_name(*wait),
        ManagerAct::Start { .. } => "start",
        ManagerAct::SetUp { .. } => "setup",
        ManagerAct::Resubscribe { .. } => "resub",
        ManagerAct::Answered { request: _ } => "outcome",
        _ => "other",
    }
}

/// The name of a timer: behind the first attempt of generation 1 it is of 50 ms where 250 is drawn.
fn manager_timer(timer: ManagerTimer, ms: u64) -> &'static str {
    match timer {
        ManagerTimer::Backoff {
            generation: 1,
            attempt: 0,
        } => { if ms == 50 { "backoff" } else { "other" } }
        ManagerTimer::Resubscription { link: _ } => "timer of resub",
        ManagerTimer::Response { request: _ } => "timer",
        _ => "other",
    }
}

/// The name of a wait.
fn wait_name(wait: WaitKind) -> &'static str {
    match wait {
        WaitKind::Connect => "wait connect",
        WaitKind::Setup => "wait setup",
        WaitKind::Resubscribe => "wait resubscribe",
        WaitKind::Backoff => "wait backoff",
        _ => "wait",
    }
}
