use mux_client::{ConnectionAct, ConnectionTimer};

/// Whether acts have these names.
pub fn are(acts: &[ConnectionAct], names: &[&str]) -> bool {
    if acts.len() != names.len() {
        return false;
    }
    for (act, wanted) in acts.iter().zip(names) {
        if name(act).as_bytes() != wanted.as_bytes() {
            return false;
        }
    }
    true
}

/// The name of an act.
pub fn name(act: &ConnectionAct) -> &'static str {
    match act {
        ConnectionAct::Created { error: None } => "created",
        ConnectionAct::Created { error: Some(_) } => "failed",
        ConnectionAct::Timer { timer, ms: _ } => connection_timer(timer),
        ConnectionAct::Round { request: _ } => "round",
        ConnectionAct::Took { .. } => "took",
        ConnectionAct::NeedCreds => "need-creds",
        ConnectionAct::Push { info: _ } => "push",
        ConnectionAct::Message { msg: _ } => "message",
        ConnectionAct::Monitor { value: _ } => "monitor",
        ConnectionAct::Watch { .. } => "watch",
        ConnectionAct::Close => "close",
        ConnectionAct::Write { bytes: _ } => "write",
        ConnectionAct::Wait { .. } => "wait",
        ConnectionAct::SetUp { .. } => "setup",
        ConnectionAct::Renewed { .. } => "renewed",
        ConnectionAct::Repeated { .. } => "repeated",
        ConnectionAct::Start { .. } => "start",
        ConnectionAct::Answered { request: _ } => "answered",
    }
}

fn connection_timer(timer: &ConnectionTimer) -> &'static str {
    match timer {
        ConnectionTimer::Connect => "connect-timer",
        ConnectionTimer::Response { request: _ } => "timer",
        ConnectionTimer::Renewal { number: _ } => "renewal-timer",
        ConnectionTimer::Repeat => "repeat-timer",
    }
}
