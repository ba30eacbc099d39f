ghost use Rattle.std.specs.Prelude.{◌≡◌, drop};
ghost use Rattle.resp_value.specs.ErrorTable.{kind_of, method_of, by_code, kinds};
ghost use Rattle.resp_value.specs.declared.error_kind.ServerErrorKind.TheVariants.{Other};

use crate::error_kind::ServerErrorKind;
use crate::retry_method::RetryMethod;

/// The kind of a code.
#[tactic(auto, unfolding(crate::specs::ErrorTable::kind_of))]
pub fn kind(code: &[u8]) -> ServerErrorKind
    ensures { result ≡ kind_of code.now }
{
    if code == b"ERR".as_slice() {
        return ServerErrorKind::ResponseError;
    }
    if code == b"EXECABORT".as_slice() {
        return ServerErrorKind::ExecAbort;
    }
    if code == b"LOADING".as_slice() {
        return ServerErrorKind::BusyLoading;
    }
    if code == b"NOSCRIPT".as_slice() {
        return ServerErrorKind::NoScript;
    }
    if code == b"MOVED".as_slice() {
        return ServerErrorKind::Moved;
    }
    if code == b"ASK".as_slice() {
        return ServerErrorKind::Ask;
    }
    if code == b"TRYAGAIN".as_slice() {
        return ServerErrorKind::TryAgain;
    }
    kind_behind(code)
}

/// The kind of a code that none of the first seven rows of the table has.
#[tactic(auto, unfolding(crate::specs::ErrorTable::kind_of))]
fn kind_behind(code: &[u8]) -> ServerErrorKind
    ensures { result ≡ by_code (drop 7 kinds) Other code.now }
{
    if code == b"CLUSTERDOWN".as_slice() {
        return ServerErrorKind::ClusterDown;
    }
    if code == b"CROSSSLOT".as_slice() {
        return ServerErrorKind::CrossSlot;
    }
    if code == b"MASTERDOWN".as_slice() {
        return ServerErrorKind::MasterDown;
    }
    if code == b"READONLY".as_slice() {
        return ServerErrorKind::ReadOnly;
    }
    if code == b"NOTBUSY".as_slice() {
        return ServerErrorKind::NotBusy;
    }
    if code == b"NOSUB".as_slice() {
        return ServerErrorKind::NoSub;
    }
    if code == b"NOPERM".as_slice() {
        return ServerErrorKind::NoPerm;
    }
    ServerErrorKind::Other
}

/// How a command with an error of this code is tried again.
#[tactic(auto, unfolding(crate::specs::ErrorTable::method_of))]
pub fn method(code: &[u8]) -> RetryMethod
    ensures { result ≡ method_of code.now }
{
    if code == b"MOVED".as_slice() {
        return RetryMethod::MovedRedirect;
    }
    if code == b"ASK".as_slice() {
        return RetryMethod::AskRedirect;
    }
    if code == b"READONLY".as_slice() {
        return RetryMethod::RefreshSlotsAndRetry;
    }
    if code == b"TRYAGAIN".as_slice() {
        return RetryMethod::WaitAndRetry;
    }
    if code == b"CLUSTERDOWN".as_slice() {
        return RetryMethod::WaitAndRetry;
    }
    if code == b"LOADING".as_slice() {
        return RetryMethod::WaitAndRetry;
    }
    if code == b"MASTERDOWN".as_slice() {
        return RetryMethod::WaitAndRetry;
    }
    RetryMethod::NoRetry
}
