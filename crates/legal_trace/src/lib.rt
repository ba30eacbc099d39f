//! When the trace of a session can be relied on: said of the trace alone, apart from any machine.
#![tactic(auto)]
