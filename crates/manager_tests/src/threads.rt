use conn_manager::ConnectionManager;

/// Takes only types that go to other threads, and that threads share.
fn crosses<T: Send + Sync>() {}

#[test]
fn managers_cross_threads() {
    crosses::<ConnectionManager>();
}
