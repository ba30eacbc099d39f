ghost use Rattle.std.specs.Prelude.{◌≡◌, Some, true};
ghost use Rattle.cluster_client.specs.Config.{unset_config};

/// What of a cluster's client is changed for one connection.
#[derive(Clone, Copy, Debug, PartialEq, Eq)]
pub struct ClusterConfig {
    /// How many milliseconds the connect and the setup of one connection may take; none is as many as the client says.
    pub connection_timeout: Option<u64>,
    /// How many milliseconds one node may take to answer; none is no limit, whatever the client says.
    pub response_timeout: Option<u64>,
    /// Whether somebody listens to pushes. Where nobody does here, the client decides.
    pub push_sender: bool,
}

impl Default for ClusterConfig {
    ghost use Rattle.std.specs.Prelude.{◌≡◌};
    ghost use Rattle.cluster_client.specs.Config.{unset_config};

    ghost is_default = { λ config. config ≡ unset_config };

    fn default() -> Self {
        ClusterConfig {
            connection_timeout: None,
            response_timeout: None,
            push_sender: false,
        }
    }
}

impl ClusterConfig {
    /// Nothing is set.
    pub fn new() -> Self
        ensures { result ≡ unset_config }
    {
        ClusterConfig::default()
    }

    /// How many milliseconds the connect and the setup of one connection may take.
    pub fn set_connection_timeout(self, timeout: u64) -> Self
        ensures { result ≡ record self { connection_timeout = Some timeout } }
    {
        ClusterConfig {
            connection_timeout: Some(timeout),
            ..self
        }
    }

    /// How many milliseconds one node may take to answer.
    pub fn set_response_timeout(self, timeout: u64) -> Self
        ensures { result ≡ record self { response_timeout = Some timeout } }
    {
        ClusterConfig {
            response_timeout: Some(timeout),
            ..self
        }
    }

    /// Somebody listens to pushes.
    pub fn set_push_sender(self) -> Self
        ensures { result ≡ record self { push_sender = true } }
    {
        ClusterConfig {
            push_sender: true,
            ..self
        }
    }
}
