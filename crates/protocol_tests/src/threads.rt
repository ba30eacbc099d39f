use resp_value::{Pairs, ServerError, Value, Values};
use std::test::Fail;

/// Takes only types that go to other threads, and that threads share.
fn crosses<T: Send + Sync>() {}

#[test]
fn values_cross_threads(_rt: HostRuntime) -> Result<(), Fail> {
    crosses::<Value>();
    crosses::<Values>();
    crosses::<Pairs>();
    crosses::<ServerError>();
    Ok(())
}
