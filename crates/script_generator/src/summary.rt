ghost use Rattle.std.specs.Prelude.{◌≡◌, ◌++◌, [], decimal, OnOk, IfOk};
ghost use Rattle.script_generator.specs.Summary.{is_turn, is_start, is_outcome, cancels_one};
ghost use Rattle.script_generator.specs.Summary.{is_of_cancel, is_cancel, takes, no_summary};
ghost use Rattle.script_generator.specs.Summary.{counted, counted_each, summary_line};

use containers::Bytes;
use driver_model::{Action, Cause, EventKind};
use itoa::Buffer;
use std::alloc::{AllocError, Global};

/// What is counted in a trace.
#[derive(Clone, Copy, PartialEq, Eq)]
pub struct Summary {
    /// The turns, turn 0 too.
    pub turns: u64,
    /// The messages that started.
    pub starts: u64,
    /// The items that these messages take: where all come, the items dealt.
    pub items: u64,
    /// The submissions that were answered.
    pub outcomes: u64,
    /// The callers that dropped their requests.
    pub cancelled: u64,
}

/// 1 where a turn begins.
fn is_turn(action: &Action) -> u64
    ensures { result ≡ is_turn action.now }
{
    match action {
        Action::Turn {
            number: _,
            cause: _,
        } => 1,
        _ => 0,
    }
}

/// 1 where a message starts.
fn is_start(action: &Action) -> u64
    ensures { result ≡ is_start action.now }
{
    match action {
        Action::Start {
            link: _,
            message: _,
            owner: _,
            need: _,
            len: _,
        } => 1,
        _ => 0,
    }
}

/// How many items a message takes that starts.
fn takes(action: &Action) -> u64
    ensures { result ≡ takes action.now }
{
    match action {
        Action::Start {
            link: _,
            message: _,
            owner: _,
            need,
            len: _,
        } => u64::from(*need),
        _ => 0,
    }
}

/// 1 where a submission is answered.
fn is_outcome(action: &Action) -> u64
    ensures { result ≡ is_outcome action.now }
{
    match action {
        Action::Outcome {
            submission: _,
            outcome: _,
        } => 1,
        _ => 0,
    }
}

/// 1 where a caller drops its request.
fn cancels_one(kind: &EventKind) -> u64
    ensures { result ≡ cancels_one kind.now }
{
    match kind {
        EventKind::Cancel { submission: _ } => 1,
        _ => 0,
    }
}

/// 1 where that is what the turn is the turn of.
fn is_of_cancel(cause: &Cause) -> u64
    ensures { result ≡ is_of_cancel cause.now }
{
    match cause {
        Cause::Event { event } => cancels_one(&event.kind),
        Cause::Opening { config: _, word: _ } => 0,
    }
}

/// 1 where such a turn begins.
fn is_cancel(action: &Action) -> u64
    ensures { result ≡ is_cancel action.now }
{
    match action {
        Action::Turn { number: _, cause } => is_of_cancel(cause),
        _ => 0,
    }
}

/// Appends words and a number.
fn push(text: &mut Bytes, words: &[u8], number: u64) -> Result<(), AllocError>
    ensures { OnOk result (text.new ≡ text.old ++ words.now ++ decimal number) }
{
    let mut digits = Buffer::new();
    text.extend_from_slice(words)?;
    text.extend_from_slice(digits.format(number).as_bytes())
}

impl Summary {
    /// Nothing is counted.
    pub fn new() -> Summary
        ensures { result ≡ no_summary }
    {
        Summary {
            turns: 0,
            starts: 0,
            items: 0,
            outcomes: 0,
            cancelled: 0,
        }
    }

    /// Counts one more action.
    fn count(&mut self, action: &Action)
        ensures { self.new ≡ counted self.old action.now }
    {
        self.turns = self.turns.saturating_add(is_turn(action));
        self.starts = self.starts.saturating_add(is_start(action));
        self.items = self.items.saturating_add(takes(action));
        self.outcomes = self.outcomes.saturating_add(is_outcome(action));
        self.cancelled = self.cancelled.saturating_add(is_cancel(action));
    }

    /// Counts these actions, too. Takes no memory.
    pub fn count_each(&mut self, actions: &[Action])
        ensures { self.new ≡ counted_each self.old actions.now }
    {
        for action in actions {
            self.count(action);
        }
    }

    /// Writes the five numbers as a line into a text that is empty.
    #[tactic(auto, unfolding(crate::specs::Summary::summary_line))]
    fn write_line(&self, line: &mut Bytes) -> Result<(), AllocError>
        requires { line.old ≡ [] }
        ensures { OnOk result (line.new ≡ summary_line self.now) }
    {
        push(line, b"turns ", self.turns)?;
        push(line, b" starts ", self.starts)?;
        push(line, b" items ", self.items)?;
        push(line, b" outcomes ", self.outcomes)?;
        push(line, b" cancelled ", self.cancelled)?;
        line.extend_from_slice(b"\n")?;
        Ok(())
    }

    /// The five numbers as a line.
    pub fn line(&self, alloc: Global) -> Result<Bytes, AllocError>
        ensures { IfOk result (λ line. line ≡ summary_line self.now) }
    {
        let mut line = Bytes::new(alloc);
        self.write_line(&mut line)?;
        Ok(line)
    }
}
