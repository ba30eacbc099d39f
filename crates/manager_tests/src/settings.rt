use connection_info::{AsyncConnectionConfig, OpenError, ProtocolVersion};
use manager_config::ConnectionManagerConfig;
use redis_error::ConfigName;
use std::alloc::AllocError;

/// The delays, the fraction, the retries, and whether it subscribes again.
type Settings = (u64, Option<u64>, (u32, u32), u32, bool);

fn settings(config: &ConnectionManagerConfig) -> Settings {
    (
        config.min_delay(),
        config.max_delay(),
        config.exponent_base(),
        config.number_of_retries(),
        config.automatic_resubscription(),
    )
}

#[test]
fn a_new_configuration_has_the_defaults(rt: HostRuntime) {
    let config = ConnectionManagerConfig::new();
    assert!(rt; settings(&config) == (100, None, (2, 1), 6, false));
    assert!(rt; config.connection == AsyncConnectionConfig::new());
    assert!(rt; config == ConnectionManagerConfig::default());
}

#[test]
fn two_settings_leave_the_others(rt: HostRuntime) {
    let config = ConnectionManagerConfig::new()
        .set_min_delay(5)
        .set_automatic_resubscription();
    assert!(rt; settings(&config) == (5, None, (2, 1), 6, true));
}

/// A configuration of which every setting was changed.
fn changed() -> ConnectionManagerConfig {
    ConnectionManagerConfig::new()
        .set_min_delay(5)
        .set_max_delay(70)
        .set_exponent_base(3, 2)
        .set_number_of_retries(9)
        .set_automatic_resubscription()
        .set_connection_timeout(Some(11))
        .set_response_timeout(None)
        .set_push_sender()
        .set_credentials_provider()
        .set_pipeline_buffer_size(12)
        .set_concurrency_limit(13)
        .set_write_backpressure_boundary(14)
}

/// A connection of which the same was changed.
fn changed_connection() -> AsyncConnectionConfig {
    AsyncConnectionConfig::new()
        .set_connection_timeout(Some(11))
        .set_response_timeout(None)
        .set_push_sender()
        .set_credentials_provider()
        .set_pipeline_buffer_size(12)
        .set_concurrency_limit(13)
        .set_write_backpressure_boundary(14)
}

#[test]
fn each_setting_is_set(rt: HostRuntime) {
    let config = changed();
    assert!(rt; settings(&config) == (5, Some(70), (3, 2), 9, true));
    assert!(rt; config.connection_timeout() == Some(11) && config.response_timeout() == None);
    assert!(rt; config.connection == changed_connection());
}

#[test]
fn a_clone_is_equal(rt: HostRuntime) -> Result<(), AllocError> {
    let config = changed();
    let copy = config.clone()?;
    assert!(rt; copy == config && copy != ConnectionManagerConfig::new());
    Ok(())
}

/// Which settings are bad: resubscription without a sender, the fraction, a sender of pushes, permits, and places.
type Bad = [bool; 5];

fn config(bad: &Bad) -> ConnectionManagerConfig {
    let mut config = ConnectionManagerConfig::new();
    if bad[0] {
        config = config.set_automatic_resubscription();
    }
    if bad[1] {
        config = config.set_exponent_base(2, 0);
    }
    if bad[2] {
        config = config.set_push_sender();
    }
    if bad[3] {
        config = config.set_concurrency_limit(0);
    }
    if bad[4] {
        config = config.set_pipeline_buffer_size(0);
    }
    config
}

const CLIENT: Result<(), OpenError> = Err(OpenError::Client);

const BASE: Result<(), OpenError> = Err(OpenError::Config(ConfigName::Base));

const PUSH: Result<(), OpenError> = Err(OpenError::Config(ConfigName::Push));

const LIMIT: Result<(), OpenError> = Err(OpenError::Config(ConfigName::Limit));

const BUFFER: Result<(), OpenError> = Err(OpenError::Config(ConfigName::Buffer));

/// Bad settings with what is refused of them on RESP2 and on RESP3.
const REFUSED: [(Bad, Result<(), OpenError>, Result<(), OpenError>); 9] = [
    ([false, false, false, false, false], Ok(()), Ok(())),
    ([true, true, false, true, true], CLIENT, CLIENT),
    ([true, true, true, true, true], BASE, BASE),
    ([true, false, true, false, false], PUSH, Ok(())),
    ([false, true, false, false, false], BASE, BASE),
    ([false, false, true, true, true], PUSH, LIMIT),
    ([false, false, false, true, true], LIMIT, LIMIT),
    ([false, false, false, false, true], BUFFER, BUFFER),
    ([false, false, true, false, true], PUSH, BUFFER),
];

#[test]
fn the_first_bad_setting_is_refused(rt: HostRuntime) {
    for (bad, older, newer) in &REFUSED {
        let config = config(bad);
        assert!(rt; config.check(ProtocolVersion::RESP2) == *older);
        assert!(rt; config.check(ProtocolVersion::RESP3) == *newer);
    }
}
