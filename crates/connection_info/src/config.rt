ghost use Rattle.std.specs.Prelude.{◌≡◌, Some, true};
ghost use Rattle.connection_info.specs.Config.{default_config};

/// How one connection behaves.
#[derive(Clone, Copy, Debug, PartialEq, Eq)]
pub struct AsyncConnectionConfig {
    /// How many milliseconds connecting and setup may take; none is no limit.
    pub connection_timeout: Option<u64>,
    /// How many milliseconds a request may wait for its reply from when it holds its permit; none is no limit.
    pub response_timeout: Option<u64>,
    /// Whether somebody listens to pushes.
    pub push_sender: bool,
    /// Whether credentials come while the connection lives.
    pub credentials_provider: bool,
    /// How many messages may wait for their start.
    pub pipeline_buffer_size: u32,
    /// How many permits there are; none is no limit.
    pub concurrency_limit: Option<u32>,
    /// From how many unwritten bytes on no message starts.
    pub write_backpressure_boundary: u64,
}

impl Default for AsyncConnectionConfig {
    ghost use Rattle.std.specs.Prelude.{◌≡◌};
    ghost use Rattle.connection_info.specs.Config.{default_config};

    ghost is_default = { λ config. config ≡ default_config };

    fn default() -> Self {
        AsyncConnectionConfig {
            connection_timeout: Some(1000),
            response_timeout: Some(500),
            push_sender: false,
            credentials_provider: false,
            pipeline_buffer_size: 50,
            concurrency_limit: None,
            write_backpressure_boundary: 8192,
        }
    }
}

impl AsyncConnectionConfig {
    /// A second to connect, half a second for a reply, 50 places, no limit of permits, a boundary of 8,192 bytes, and
    /// neither push sender nor source of credentials.
    pub fn new() -> Self
        ensures { result ≡ default_config }
    {
        AsyncConnectionConfig::default()
    }

    /// How many milliseconds connecting and setup may take; none is no limit.
    pub fn set_connection_timeout(self, timeout: Option<u64>) -> Self
        ensures { result ≡ record self { connection_timeout = timeout } }
    {
        AsyncConnectionConfig {
            connection_timeout: timeout,
            ..self
        }
    }

    /// How many milliseconds a request may wait for its reply; none is no limit.
    pub fn set_response_timeout(self, timeout: Option<u64>) -> Self
        ensures { result ≡ record self { response_timeout = timeout } }
    {
        AsyncConnectionConfig {
            response_timeout: timeout,
            ..self
        }
    }

    /// Somebody listens to pushes.
    pub fn set_push_sender(self) -> Self
        ensures { result ≡ record self { push_sender = true } }
    {
        AsyncConnectionConfig {
            push_sender: true,
            ..self
        }
    }

    /// Credentials come while the connection lives.
    pub fn set_credentials_provider(self) -> Self
        ensures { result ≡ record self { credentials_provider = true } }
    {
        AsyncConnectionConfig {
            credentials_provider: true,
            ..self
        }
    }

    /// How many messages may wait for their start.
    pub fn set_pipeline_buffer_size(self, size: u32) -> Self
        ensures { result ≡ record self { pipeline_buffer_size = size } }
    {
        AsyncConnectionConfig {
            pipeline_buffer_size: size,
            ..self
        }
    }

    /// How many permits there are.
    pub fn set_concurrency_limit(self, limit: u32) -> Self
        ensures { result ≡ record self { concurrency_limit = Some limit } }
    {
        AsyncConnectionConfig {
            concurrency_limit: Some(limit),
            ..self
        }
    }

    /// From how many unwritten bytes on no message starts.
    pub fn set_write_backpressure_boundary(self, bytes: u64) -> Self
        ensures { result ≡ record self { write_backpressure_boundary = bytes } }
    {
        AsyncConnectionConfig {
            write_backpressure_boundary: bytes,
            ..self
        }
    }
}
