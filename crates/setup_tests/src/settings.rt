use crate::addresses::redis;
use connection_info::{AsyncConnectionConfig, ProtocolVersion};
use connection_setup::{
    SetupResult, build_concurrency_limiter, check_setup, permit_vec_capacity, setup_messages,
};
use redis_error::{ErrorKind, RedisError};
use resp_value::{Value, Values};
use resp_write::Pipeline;
use std::alloc::{AllocError, Global};

/// Connections without and with settings.
const PLAIN: AsyncConnectionConfig = AsyncConnectionConfig {
    connection_timeout: Some(1000),
    response_timeout: Some(500),
    push_sender: false,
    credentials_provider: false,
    pipeline_buffer_size: 50,
    concurrency_limit: None,
    write_backpressure_boundary: 8192,
};

const SET: AsyncConnectionConfig = AsyncConnectionConfig {
    connection_timeout: None,
    response_timeout: Some(7),
    push_sender: true,
    credentials_provider: true,
    pipeline_buffer_size: 8,
    concurrency_limit: Some(16),
    write_backpressure_boundary: 4096,
};

/// The settings of `SET`, one after the other.
fn set() -> AsyncConnectionConfig {
    AsyncConnectionConfig::new()
        .set_connection_timeout(None)
        .set_response_timeout(Some(7))
        .set_pipeline_buffer_size(8)
        .set_concurrency_limit(16)
        .set_push_sender()
        .set_credentials_provider()
        .set_write_backpressure_boundary(4096)
}

#[test]
fn settings_are_kept(rt: HostRuntime) -> Result<(), AllocError> {
    assert!(rt; AsyncConnectionConfig::new() == PLAIN);
    assert!(rt; AsyncConnectionConfig::default() == PLAIN);
    assert!(rt; set().clone()? == SET);
    Ok(())
}

/// Whether a setup is two commands, of which the second selects the database -1.
fn selects(alloc: Global, said: &Pipeline) -> Result<bool, AllocError> {
    let packed = said.get_packed_pipeline(alloc)?;
    let wanted: &[u8] = b"*2\r\n$5\r\nHELLO\r\n$1\r\n3\r\n*2\r\n$6\r\nSELECT\r\n$2\r\n-1\r\n";
    Ok(packed.as_slice() == wanted && said.len() == 2)
}

/// Whether the setup of a database below 0, which no URL names, is said and is well.
fn is_selected(alloc: Global) -> Result<bool, AllocError> {
    let info = redis(alloc, &(b"h", Some(b"u"), None, -1))?;
    let said = setup_messages(alloc, &info, true);
    drop(info);
    selects(alloc, &said?)
}

/// Two replies that are well.
fn well(alloc: Global) -> Result<Values, AllocError> {
    let mut replies = Values::new(alloc);
    replies.push(Value::Okay)?;
    replies.push(Value::Okay)?;
    Ok(replies)
}

/// Whether a setup is well whose replies are.
fn is_ready(alloc: Global) -> Result<bool, AllocError> {
    let info = redis(alloc, &(b"h", None, None, -1))?;
    let replies = well(alloc)?;
    let judged = check_setup(alloc, &info, false, &replies);
    let is_so = matches!(&judged, SetupResult::Ready);
    drop(judged);
    Ok(is_so)
}

/// Commands, a limit and the permits of so many commands.
const PERMITS: [(u32, u32, u32); 6] = [
    (1_000_000, 4, 4),
    (2, 4, 2),
    (0, 4, 1),
    (5, 0, 1),
    (4, 4, 4),
    (u32::MAX, u32::MAX, u32::MAX),
];

/// None where the limit is refused.
fn refusal(error: &RedisError) -> Option<u32> {
    if matches!(error.kind(), ErrorKind::InvalidClientConfig) {
        None
    } else {
        Some(u32::MAX)
    }
}

/// The limit of the limiter that is built; 0 where there is none, and none where the limit is refused.
fn limit_of(limit: Option<u32>) -> Option<u32> {
    let built = build_concurrency_limiter(limit);
    let limit = match &built {
        Ok(Some(limiter)) => Some(limiter.limit()),
        Ok(None) => Some(0),
        Err(error) => refusal(error),
    };
    drop(built);
    limit
}

/// Limits, and those of the limiters that are built.
const LIMITS: [(Option<u32>, Option<u32>); 4] = [
    (Some(0), None),
    (Some(1), Some(1)),
    (Some(16), Some(16)),
    (None, Some(0)),
];

#[test]
fn setups_are_made(rt: HostRuntime) -> Result<(), AllocError> {
    assert!(rt; is_selected(rt.alloc())?);
    assert!(rt; is_ready(rt.alloc())?);
    Ok(())
}

#[test]
fn one_protocol_is_resp3(rt: HostRuntime) {
    assert!(rt;
        ProtocolVersion::RESP3.supports_resp3() && !ProtocolVersion::RESP2.supports_resp3()
    );
}

#[test]
fn permits_are_made(rt: HostRuntime) {
    for (count, limit, permits) in &PERMITS {
        assert_eq!(rt; permit_vec_capacity(*count, *limit), *permits);
    }
}

#[test]
fn limits_are_refused_or_kept(rt: HostRuntime) {
    for (limit, wanted) in &LIMITS {
        assert_eq!(rt; limit_of(*limit), *wanted);
    }
}
