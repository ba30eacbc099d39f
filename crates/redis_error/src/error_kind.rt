use resp_value::ServerErrorKind;

/// What an error of the driver is about.
#[derive(Clone, Copy, PartialEq, Eq)]
pub enum ErrorKind {
    InvalidClientConfig,
    Client,
    Io,
    Parse,
    UnexpectedReturnType,
    ClusterConnectionNotFound,
    Server(ServerErrorKind),
    AuthenticationFailed,
    Resp3Required,
    EmptyCommand,
    Credentials,
    RouteWithoutLink,
    TurnsSpent,
}
