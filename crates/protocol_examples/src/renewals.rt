//! When credentials are renewed, and what a server is told then.

ghost use Rattle.std.specs.Prelude.{◌≡◌, ◌≢◌, ℕ, List, length, codes, Some, None};
ghost use Rattle.resp_write.specs.Pack.{pack_pipeline};
ghost use Rattle.connection_info.specs.declared.protocol.ProtocolVersion.TheVariants.{RESP2};
ghost use Rattle.connection_setup.specs.Setup.{opening, pipeline_of};
ghost use Rattle.credentials.specs.Message.{auth_bytes};
ghost use Rattle.credentials.specs.Refresh.{default_refresh};
ghost use Rattle.credentials.specs.Threshold.{refresh_threshold};

/// Does nothing. Its contract: how long after they came credentials are renewed, in seconds of these moments, and how
/// a renewal that failed is tried again where nothing is said.
pub fn these_are_renewed()
    ensures hour { refresh_threshold 0 3600 4 5 ≡ Some 2880 }
    ensures no_later { refresh_threshold 0 3600 4 5 ≢ Some 2881 }
    ensures by_default { refresh_threshold 1000 4600 default_refresh.expiration_refresh_ratio.0
        default_refresh.expiration_refresh_ratio.1 ≡ Some 2880 }
    ensures rounded_down { refresh_threshold 0 7 1 2 ≡ Some 3 }
    ensures at_once { refresh_threshold 100 100 4 5 ≡ Some 0 }
    ensures expired { refresh_threshold 101 100 4 5 ≡ None }
    ensures greatest { refresh_threshold 0 18_446_744_073_709_551_615 1 1
        ≡ Some 18_446_744_073_709_551_615 }
    ensures saturated { refresh_threshold 0 18_446_744_073_709_551_615 2 1
        ≡ Some 18_446_744_073_709_551_615 }
    ensures tried_again { default_refresh.retry_config.number_of_retries ≡ 3 }
    ensures waits { default_refresh.retry_config.min_delay ≡ 100 }
    ensures waits_longest { default_refresh.retry_config.max_delay ≡ 30_000 }
    ensures doubled { default_refresh.retry_config.exponent_base ≡ (2, 1) }
{}

/// Does nothing. Its contract: the bytes that tell these credentials, which are those of a setup of the older protocol with
/// the same user and password.
pub fn these_are_told()
    ensures bytes { auth_bytes (codes "u") (codes "q")
        ≡ codes "*3\r\n$4\r\nAUTH\r\n$1\r\nu\r\n$1\r\nq\r\n" }
    ensures count { length (auth_bytes (codes "u") (codes "q")) ≡ 28 }
    ensures swapped { auth_bytes (codes "q") (codes "u")
        ≡ codes "*3\r\n$4\r\nAUTH\r\n$1\r\nq\r\n$1\r\nu\r\n" }
    ensures as_setup { (user : List ℕ) (password : List ℕ)
        → pack_pipeline (pipeline_of (opening RESP2 (Some user) (Some password))) ≡ auth_bytes user password }
{}
