ghost use Rattle.std.specs.Prelude.{◌≡◌, true, false, MatchOption};
ghost use Rattle.std.specs.Option.{option_map};
ghost use Rattle.cluster_retries.specs.Ends.{error_seen};
ghost use Rattle.cluster_retries.specs.Table.{IsFollowed, IsLed, IsNotFollowed, IsNotLed, answered, are_left, following, judged, row_of};

use crate::retry_params::RetryParams;
use crate::round_end::{EndError, OperationTarget, RoundEnd};
use resp_value::{Redirection, RetryMethod};

/// What becomes of a request at the end of a round.
#[derive(Clone, Copy, Debug, PartialEq, Eq)]
pub enum Next {
    /// The end is its answer: the value, or the error that the end counts as.
    Answered,
    /// It is tried again, behind the action and what it repairs.
    Pending,
    /// It is tried again at once.
    AtOnce,
    /// It is tried again when it has slept.
    Sleep,
}

/// What is repaired after the end of a round.
#[derive(Clone, Copy, Debug, PartialEq, Eq)]
pub enum RecoveryAction {
    /// Nothing.
    None,
    /// The link of the round's node.
    RepairTarget,
    /// The map of the slots.
    RebuildSlots,
    /// The cluster, from its initial nodes.
    ReconnectInitial,
}

/// What follows an error, whatever it is.
#[derive(Clone, Copy, Debug, PartialEq, Eq)]
pub struct Row {
    pub next: Next,
    /// Whether the routing is reset.
    pub reset: bool,
    /// Whether the error's redirect is followed.
    pub redirected: bool,
    pub action: RecoveryAction,
}

/// What follows the end of a round.
#[derive(Drop)]
pub struct Chosen<'a> {
    pub next: Next,
    /// Whether the routing is reset before the next round.
    pub reset: bool,
    /// Where the next round is redirected. Its address is as the server wrote it, and may be none.
    pub redirect: Option<Redirection<'a>>,
    pub action: RecoveryAction,
}

impl Row {
    /// The end is answered, and this action is taken.
    fn answered(action: RecoveryAction) -> Row
        ensures { result ≡ answered action }
    {
        Row {
            next: Next::Answered,
            reset: false,
            redirected: false,
            action,
        }
    }

    /// The request is tried again behind this action, and its routing is reset.
    fn anew(next: Next, action: RecoveryAction) -> Row
        ensures { result ≡ record { next = next; reset = true; redirected = false; action = action } }
    {
        Row {
            next,
            reset: true,
            redirected: false,
            action,
        }
    }

    /// The request is redirected at once, beside this action.
    fn redirected(action: RecoveryAction) -> Row
        ensures { result
            ≡ record { next = Next.AtOnce; reset = false; redirected = true; action = action } }
    {
        Row {
            next: Next::AtOnce,
            reset: false,
            redirected: true,
            action,
        }
    }

    /// The request is tried again with the same routing.
    fn again(next: Next) -> Row
        ensures { result
            ≡ record { next = next; reset = false; redirected = false; action = RecoveryAction.None } }
    {
        Row {
            next,
            reset: false,
            redirected: false,
            action: RecoveryAction::None,
        }
    }

    /// The row of the table, while retries are left.
    fn of(target: &OperationTarget, method: RetryMethod) -> Row
        ensures { result ≡ row_of target.now method }
    {
        match (target, method) {
            (_, RetryMethod::ReconnectFromInitialConnections) => {
                Row::anew(Next::Pending, RecoveryAction::ReconnectInitial)
            }
            (OperationTarget::Node(_), RetryMethod::Reconnect) => {
                Row::anew(Next::Pending, RecoveryAction::RepairTarget)
            }
            (OperationTarget::FanOut, _) => Row::answered(RecoveryAction::None),
            (OperationTarget::NotFound, _) => Row::anew(Next::Sleep, RecoveryAction::RebuildSlots),
            (_, RetryMethod::AskRedirect) => Row::redirected(RecoveryAction::None),
            (_, RetryMethod::MovedRedirect) => Row::redirected(RecoveryAction::RebuildSlots),
            (_, RetryMethod::RefreshSlotsAndRetry) => {
                Row::anew(Next::Pending, RecoveryAction::RebuildSlots)
            }
            (_, RetryMethod::WaitAndRetry) => Row::again(Next::Sleep),
            (_, RetryMethod::NoRetry) => Row::answered(RecoveryAction::None),
            (_, RetryMethod::RetryImmediately) => Row::again(Next::Pending),
        }
    }
}

/// What follows an error, or none, where retries are left or not.
fn judge(target: &OperationTarget, error: Option<EndError<'_>>, left: bool) -> Row
    ensures { result ≡ judged target.now left (option_map error_seen error.entry) }
{
    let Some(error) = error else {
        return Row::answered(RecoveryAction::None);
    };
    let row = Row::of(target, error.retry_method());
    if left { row } else { Row::answered(row.action) }
}

/// Where an error leads, where its row follows that.
fn redirection<'a>(row: Row, error: Option<EndError<'a>>) -> Option<Redirection<'a>>
    ensures { MatchOption result
        (IsNotFollowed row.redirected (option_map error_seen error.entry))
        (λ r. IsFollowed row.redirected (option_map error_seen error.entry)
        r.slot r.address.now r.ask) }
{
    if !row.redirected {
        return None;
    }
    let Some(error) = error else {
        return None;
    };
    error.redirect_node()
}

/// What follows the end of a round of this number, by the table of retries:
///
/// | target | how its error is tried again | with retries left | action |
/// |---|---|---|---|
/// | any | `ReconnectFromInitialConnections` | reset, pending | reconnect from the initial nodes |
/// | node | `Reconnect` | reset, pending | repair that node |
/// | fan-out | any | answered | none |
/// | not found | any | reset, sleep | rebuild the slots |
/// | node | `AskRedirect` | redirected, at once | none |
/// | node | `MovedRedirect` | redirected, at once | rebuild the slots |
/// | node | `RefreshSlotsAndRetry` | reset, pending | rebuild the slots |
/// | node | `WaitAndRetry` | sleep | none |
/// | node | `NoRetry` | answered | none |
/// | node | `RetryImmediately` | pending | none |
///
/// The first row that fits counts. Retries are left where the number is below the number of retries; without them the error is
/// answered, and the action stays. An end that counts as no error is answered, and there is no action. The redirect is lent from the
/// end. Takes no memory.
#[tactic(auto, unfolding(crate::specs::Table::following), using(crate::proofs::Tables::led))]
pub fn choose_response<'a>(
    target: &OperationTarget,
    end: &'a RoundEnd,
    retry: u32,
    params: &RetryParams,
) -> Chosen<'a>
    ensures next { result.next ≡ (following target.now end.now (are_left retry params.now)).next }
    ensures reset { result.reset
        ≡ (following target.now end.now (are_left retry params.now)).reset }
    ensures redirect { MatchOption result.redirect
        (IsNotLed target.now end.now (are_left retry params.now))
        (λ r. IsLed target.now end.now (are_left retry params.now) r.slot r.address.now r.ask) }
    ensures action { result.action
        ≡ (following target.now end.now (are_left retry params.now)).action }
{
    let error = end.error();
    let left = retry < params.number_of_retries;
    let row = judge(target, error, left);
    Chosen {
        next: row.next,
        reset: row.reset,
        redirect: redirection(row, error),
        action: row.action,
    }
}
