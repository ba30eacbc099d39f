ghost use Rattle.std.specs.Prelude.{◌≡◌};
ghost use Rattle.outside.specs.NetWorld.{fault_of};

use redis_error::FaultKind;
use std::io::ErrorKind;

/// The fault that an error of the system is.
pub(crate) fn fault_of(kind: ErrorKind) -> FaultKind
    ensures { result ≡ fault_of kind }
{
    match kind {
        ErrorKind::ConnectionRefused => FaultKind::Refused,
        ErrorKind::ConnectionReset => FaultKind::Reset,
        ErrorKind::ConnectionAborted => FaultKind::Aborted,
        ErrorKind::NotConnected => FaultKind::NotConnected,
        ErrorKind::BrokenPipe => FaultKind::BrokenPipe,
        ErrorKind::UnexpectedEof => FaultKind::Eof,
        ErrorKind::TimedOut => FaultKind::TimedOut,
        ErrorKind::Interrupted => FaultKind::Interrupted,
        ErrorKind::PermissionDenied => FaultKind::Denied,
        _ => FaultKind::Other,
    }
}
