//! Addresses of connections, their setups, and what the replies to these come to.

ghost use Rattle.std.specs.Prelude.{◌≡◌, ◌≢◌, ◌<◌, ℕ, true, false, List, [], ◌∷◌, length, codes, Some, None, pos};
ghost use Rattle.resp_value.specs.Data.{Data, error, okay};
ghost use Rattle.redis_error.specs.declared.redis_error.RedisError.TheVariants.{AuthFailed, Server};
ghost use Rattle.resp_write.specs.Pack.{pack_pipeline};
ghost use Rattle.connection_info.specs.declared.address.RedisConnectionInfo.{RedisConnectionInfo};
ghost use Rattle.connection_info.specs.declared.protocol.ProtocolVersion.TheVariants.{RESP2, RESP3};
ghost use Rattle.connection_info.specs.Address.{address_of};
ghost use Rattle.connection_info.specs.Written.{url_of, ReadsBack};
ghost use Rattle.connection_setup.specs.declared.judgement.SetupResult.TheVariants.{Ready, RepeatWithoutUser, Failed};
ghost use Rattle.connection_setup.specs.Setup.{opening, pipeline_of, setup};
ghost use Rattle.connection_setup.specs.Judgement.{judged};
ghost use Rattle.protocol_examples.specs.Connections.{an_error, at, counted, plain, place, secured, with_name};

/// Does nothing. Its contract: these texts are these addresses.
pub fn these_are_addresses()
    ensures name { address_of (codes "redis://127.0.0.1") ≡ Some (place (codes "127.0.0.1") 6379) }
    ensures database { address_of (codes "redis://h/4") ≡ Some (at (codes "h") 6379 (pos 4) RESP2) }
    ensures every_part { address_of (codes "valkey://u%40v:p%3Aq@[::1]:7000/2?a=b&protocol=3#c")
        ≡ Some (secured (codes "::1") 7000 (codes "u@v") (codes "p:q")) }
    ensures first_protocol { address_of (codes "redis://h?protocol=resp3&protocol=2")
        ≡ Some (at (codes "h") 6379 (pos 0) RESP3) }
{}

/// Does nothing. Its contract: these texts are no addresses, and neither is any text of more than a mebibyte.
pub fn these_are_none()
    ensures encrypted { address_of (codes "rediss://h") ≡ None }
    ensures no_host { address_of (codes "redis://:6379") ≡ None }
    ensures port { address_of (codes "redis://h:65536") ≡ None }
    ensures database { address_of (codes "redis://h/x") ≡ None }
    ensures password { address_of (codes "redis://u:%FF@h") ≡ None }
    ensures protocol { address_of (codes "redis://h?protocol=4") ≡ None }
    ensures long { (text : List ℕ) → 1_048_576 < length text → address_of text ≡ None }
{}

/// Does nothing. Its contract: these addresses have these URLs, and are read from them.
pub fn these_are_written()
    ensures database { url_of (at (codes "h") 6379 (pos 4) RESP2) ≡ codes "redis://h:6379/4" }
    ensures every_part { url_of (secured (codes "::1") 7000 (codes "u@v") (codes "p:q"))
        ≡ codes "redis://u%40v:p%3Aq@[::1]:7000/2?protocol=3" }
    ensures read { ReadsBack (secured (codes "::1") 7000 (codes "u@v") (codes "p:q")) }
{}

/// Does nothing. Its contract: how many bytes and commands the setups have that say least, what they begin with where a user is said
/// to have a password, and that a setup without its user name is that of an address without one.
pub fn these_are_setups()
    ensures newer_bytes { length (pack_pipeline (pipeline_of (setup (plain RESP3) true))) ≡ 132 }
    ensures newer_commands { length (setup (plain RESP3) true) ≡ 3 }
    ensures older_bytes { length (pack_pipeline (pipeline_of (setup (plain RESP2) true))) ≡ 110 }
    ensures older_commands { length (setup (plain RESP2) true) ≡ 2 }
    ensures older_user { pack_pipeline (pipeline_of (opening RESP2 (Some (codes "u")) (Some (codes "pw"))))
        ≡ codes "*3\r\n$4\r\nAUTH\r\n$1\r\nu\r\n$2\r\npw\r\n" }
    ensures newer_user { pack_pipeline (pipeline_of (opening RESP3 (Some (codes "u")) (Some (codes "pw"))))
        ≡ codes "*5\r\n$5\r\nHELLO\r\n$1\r\n3\r\n$4\r\nAUTH\r\n$1\r\nu\r\n$2\r\npw\r\n" }
    ensures no_password { (name : List ℕ) → opening RESP2 (Some name) None ≡ [] }
    ensures unnamed { (info : RedisConnectionInfo)
        → setup info false ≡ setup (record info { username = None }) true }
{}

/// Does nothing. Its contract: what replies come to. A setup without a user name is never repeated.
pub fn these_are_judged()
    ensures repeated { (replies : List Data)
        → judged (setup with_name true) (error counted ∷ replies) ≡ RepeatWithoutUser }
    ensures once { (info : RedisConnectionInfo) (replies : List Data)
        → judged (setup info false) replies ≢ RepeatWithoutUser }
    ensures refused { (replies : List Data)
        → judged (setup with_name true) (error an_error ∷ replies)
        ≡ Failed (AuthFailed (codes "WRONGPASS no")) }
    ensures bare { (replies : List Data)
        → judged (setup (plain RESP3) true) (error an_error ∷ replies) ≡ Failed (Server an_error) }
    ensures library { judged (setup (plain RESP3) true) (okay ∷ error an_error ∷ error counted ∷ [])
        ≡ Ready }
{}
