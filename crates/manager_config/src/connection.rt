ghost use Rattle.std.specs.Prelude.{◌≡◌, Some, true};

use crate::config::ConnectionManagerConfig;

/// The settings of its connections.
impl ConnectionManagerConfig {
    /// How many milliseconds connecting and setup may take; none is no limit.
    pub fn set_connection_timeout(self, timeout: Option<u64>) -> Self
        ensures { result ≡ record self { connection = record self.connection { connection_timeout = timeout } } }
    {
        ConnectionManagerConfig {
            connection: self.connection.set_connection_timeout(timeout),
            ..self
        }
    }

    /// Within how many milliseconds a request is to be answered; none is no limit.
    pub fn set_response_timeout(self, timeout: Option<u64>) -> Self
        ensures { result ≡ record self { connection = record self.connection { response_timeout = timeout } } }
    {
        ConnectionManagerConfig {
            connection: self.connection.set_response_timeout(timeout),
            ..self
        }
    }

    /// Somebody listens to pushes.
    pub fn set_push_sender(self) -> Self
        ensures { result ≡ record self { connection = record self.connection { push_sender = true } } }
    {
        ConnectionManagerConfig {
            connection: self.connection.set_push_sender(),
            ..self
        }
    }

    /// Credentials come while a connection lives.
    pub fn set_credentials_provider(self) -> Self
        ensures { result ≡ record self { connection = record self.connection { credentials_provider = true } } }
    {
        ConnectionManagerConfig {
            connection: self.connection.set_credentials_provider(),
            ..self
        }
    }

    /// How many messages may wait for their start.
    pub fn set_pipeline_buffer_size(self, size: u32) -> Self
        ensures { result ≡ record self { connection = record self.connection { pipeline_buffer_size = size } } }
    {
        ConnectionManagerConfig {
            connection: self.connection.set_pipeline_buffer_size(size),
            ..self
        }
    }

    /// How many permits there are.
    pub fn set_concurrency_limit(self, limit: u32) -> Self
        ensures { result ≡ record self { connection = record self.connection { concurrency_limit = Some limit } } }
    {
        ConnectionManagerConfig {
            connection: self.connection.set_concurrency_limit(limit),
            ..self
        }
    }

    /// From how many unwritten bytes on no message starts.
    pub fn set_write_backpressure_boundary(self, bytes: u64) -> Self
        ensures { result ≡ record self { connection = record self.connection { write_backpressure_boundary = bytes } } }
    {
        ConnectionManagerConfig {
            connection: self.connection.set_write_backpressure_boundary(bytes),
            ..self
        }
    }
}
