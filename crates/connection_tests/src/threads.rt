use mux_conn::MultiplexedConnection;

/// Takes only types that go to other threads, and that threads share.
fn crosses<T: Send + Sync>() {}

#[test]
fn connections_cross_threads() {
    crosses::<MultiplexedConnection>();
}
