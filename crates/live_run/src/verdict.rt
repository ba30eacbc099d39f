ghost use Rattle.std.specs.Prelude.{◌≡◌, ◌<◌, ◌≤◌, ℕ, None, IfSome, length};
ghost use Rattle.live_run.specs.Endings.{IsGoing, IsOpen, Over};

use crate::ending::Ending;
use shared_session::Session;

/// How many events a history holds at most before its shutdown.
pub(crate) const MOST_EVENTS: u32 = 9_999_999;

/// Whether a run is over, by the outcomes and the history of its session.
#[derive(Drop)]
pub(crate) struct Verdict {
    /// How many submissions there are.
    pub(crate) submissions: u32,
    /// The first submission that had no outcome when it was last looked for.
    next: u32,
}

impl Verdict {
    pub(crate) fn new(submissions: u32) -> Verdict
        ensures { result.submissions ≡ submissions }
    {
        Verdict {
            submissions,
            next: 0,
        }
    }

    /// Why the run is over, if it is: every submission has its outcome, or the history is full.
    pub(crate) fn ending(&mut self, session: &Session) -> Option<Ending>
        ensures over { Over result session.now self.old.submissions }
        ensures going { result ≡ None → IsGoing session.now self.old.submissions }
        ensures same { self.new.submissions ≡ self.old.submissions }
    {
        if let Some(open) = first_open(session, self.next, self.submissions) {
            self.next = open;
            return full(session);
        }
        match first_open(session, 0, self.submissions) {
            Some(_) => full(session),
            None => Some(Ending::Answered),
        }
    }
}

/// The first submission from `start` on that has no outcome, of so many.
fn first_open(session: &Session, start: u32, count: u32) -> Option<u32>
    ensures open { IfSome result (λ n. (n < count) × IsOpen session.now n) }
    ensures none { result ≡ None
        → (n : ℕ) → start ≤ n → n < count → IsOpen session.now n → ⊥ }
{
    for n in start..count {
        match session.outcome_of(n) {
            None => return Some(n),
            Some(_) => {}
        }
    }
    None
}

/// Whether the history is full.
fn full(session: &Session) -> Option<Ending>
    ensures over { (count : ℕ) → Over result session.now count }
    ensures room { result ≡ None → length session.now.events < MOST_EVENTS }
{
    if session.events_taken() >= MOST_EVENTS {
        Some(Ending::Full)
    } else {
        None
    }
}
