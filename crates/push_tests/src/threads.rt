use push_links::{Monitor, PubSub};

/// Takes only types that go to other threads, and that threads share.
fn crosses<T: Send + Sync>() {}

#[test]
fn links_cross_threads() {
    crosses::<PubSub>();
    crosses::<Monitor>();
}
