use shared_session::Session;

/// Takes only types that go to other threads, and that threads share.
fn crosses<T: Send + Sync>() {}

#[test]
fn sessions_cross_threads() {
    crosses::<Session>();
}
