//! What a caller passes before its first submission.

/// A gate that callers enter, each on its own thread, before they submit.
pub trait Gate: Sync {
    /// Is called once for each caller that has a line, with its place among the callers, which counts from 0.
    fn enter(&self, caller: u32);
}

/// A gate that does nothing.
#[derive(Clone, Copy, Drop)]
pub struct OpenGate;

impl Gate for OpenGate {
    fn enter(&self, _caller: u32) {}
}
