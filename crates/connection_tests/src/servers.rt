use connection_info::{ConnectionInfo, ProtocolVersion, RedisConnectionInfo};
use containers::Bytes;
use std::alloc::{AllocError, Global};

/// What is said to a server that is told its protocol alone.
pub fn said(protocol: ProtocolVersion) -> RedisConnectionInfo {
    RedisConnectionInfo {
        db: 0,
        username: None,
        password: None,
        protocol,
        skip_set_lib_name: true,
    }
}

/// The address of such a server.
pub fn at(
    alloc: Global,
    host: &[u8],
    port: u16,
    protocol: ProtocolVersion,
) -> Result<ConnectionInfo, AllocError> {
    let host = Bytes::from_slice(alloc, host)?;
    Ok(ConnectionInfo {
        host,
        port,
        redis: said(protocol),
    })
}

/// What was made, sent or done. A refusal counts as want of memory.
pub fn must<T, E: Drop>(done: Result<T, E>) -> Result<T, AllocError> {
    match done {
        Ok(value) => Ok(value),
        Err(_) => Err(AllocError),
    }
}
