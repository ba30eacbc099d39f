/// Why a run ended.
#[derive(Clone, Copy, Debug, PartialEq, Eq)]
pub enum Ending {
    /// Every submission has its outcome.
    Answered,
    /// 6,000 passes in a row were idle.
    Idle,
    /// The history holds 9,999,999 events.
    Full,
}
