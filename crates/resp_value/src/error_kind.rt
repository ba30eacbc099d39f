/// What a server error is about, by its code.
#[derive(Clone, Copy, PartialEq, Eq)]
pub enum ServerErrorKind {
    ResponseError,
    ExecAbort,
    BusyLoading,
    NoScript,
    Moved,
    Ask,
    TryAgain,
    ClusterDown,
    CrossSlot,
    MasterDown,
    ReadOnly,
    NotBusy,
    NoSub,
    NoPerm,
    Other,
}
