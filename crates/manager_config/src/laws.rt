ghost use Rattle.std.specs.Prelude.{◌≡◌, ◌≢◌, ◌<◌, ◌≤◌, ◌-◌, ◌*◌, ◌^◌, ◌↔◌, ℕ, Some, None, min, max, true, false};
ghost use Rattle.redis_error.specs.declared.config_name.ConfigName.TheVariants.{Resub, Base, Push, Limit, Buffer};
ghost use Rattle.connection_info.specs.declared.protocol.ProtocolVersion.{ProtocolVersion};
ghost use Rattle.connection_info.specs.declared.protocol.ProtocolVersion.TheVariants.{RESP2, RESP3};
ghost use Rattle.manager_config.specs.declared.config.ConnectionManagerConfig.{ConnectionManagerConfig};
ghost use Rattle.manager_config.specs.Config.{default_manager};
ghost use Rattle.manager_config.specs.Refused.{first_fault, IsTaken};
ghost use Rattle.manager_config.specs.Backoff.{delay_bound, backoff};

/// Does nothing. Its contract: nothing of a configuration is refused exactly where nothing stands against it.
pub fn a_config_is_taken_where_no_check_fails()
    ensures { (protocol : ProtocolVersion) (c : ConnectionManagerConfig)
        → (first_fault protocol c ≡ None) ↔ IsTaken protocol c }
{}

/// Does nothing. Its contract: a delay is below its bound, or 0 where that is 0; and each delay below the bound that no maximal
/// delay cuts is that of a draw, of the same number.
pub fn a_delay_is_below_its_bound()
    ensures below { (c : ConnectionManagerConfig) (n : ℕ) (draw : ℕ)
        → backoff c n draw < max 1 (delay_bound c n) }
    ensures each { (c : ConnectionManagerConfig) (n : ℕ) (draw : ℕ)
        → c.max_delay ≡ None → draw < delay_bound c n → backoff c n draw ≡ draw }
{}

/// Does nothing. Its contract: no delay is above the maximal one, and one that isn't above it isn't changed by it.
pub fn no_delay_is_above_the_maximal_one()
    ensures limited { (c : ConnectionManagerConfig) (n : ℕ) (draw : ℕ) (most : ℕ)
        → c.max_delay ≡ Some most → backoff c n draw ≤ most }
    ensures kept { (c : ConnectionManagerConfig) (n : ℕ) (draw : ℕ) (most : ℕ)
        → c.max_delay ≡ Some most → draw < delay_bound c n → draw ≤ most → backoff c n draw ≡ draw }
{}

/// Does nothing. Its contract: where nothing else is said the bound is 100 milliseconds at first and doubles with each attempt,
/// up to 2^64 - 1.
pub fn with_the_defaults_the_bound_doubles()
    ensures { (n : ℕ) → delay_bound default_manager n ≡ min (2 ^ 64 - 1) (100 * 2 ^ n) }
{}

/// Does nothing. Its contract: these are delays, and these are none.
pub fn these_are_delays()
    ensures first { backoff default_manager 0 250 ≡ 50 }
    ensures second { backoff default_manager 1 250 ≡ 50 }
    ensures third { backoff default_manager 2 250 ≡ 250 }
    ensures not_the_first_again { backoff default_manager 2 250 ≢ 50 }
    ensures at_the_bound { backoff default_manager 0 100 ≡ 0 }
    ensures limited { backoff (record default_manager { max_delay = Some 30 }) 2 250 ≡ 30 }
    ensures within_the_limit { backoff (record default_manager { max_delay = Some 30 }) 2 20 ≡ 20 }
    ensures without_delay { backoff (record default_manager { min_delay = 0 }) 5 250 ≡ 0 }
    ensures rounded_down { delay_bound (record default_manager { min_delay = 3; exponent_base = (3, 2) }) 2 ≡ 6 }
    ensures falling { delay_bound (record default_manager { exponent_base = (1, 10) }) 3 ≡ 0 }
    ensures at_its_end { delay_bound (record default_manager { min_delay = 18_446_744_073_709_551_615 }) 1
        ≡ 18_446_744_073_709_551_615 }
{}

/// Does nothing. Its contract: these configurations are refused, for these names, and these are taken.
pub fn these_are_refused()
    ensures default { (protocol : ProtocolVersion) → first_fault protocol default_manager ≡ None }
    ensures without_sender { first_fault RESP3 (record default_manager { automatic_resubscription = true; exponent_base = (2, 0) })
        ≡ Some Resub }
    ensures denominator { first_fault RESP2 (record default_manager { exponent_base = (2, 0) }) ≡ Some Base }
    ensures numerator { first_fault RESP2 (record default_manager { exponent_base = (0, 1) }) ≡ None }
    ensures pushes { first_fault RESP2 (record default_manager { connection = record default_manager.connection { push_sender = true } })
        ≡ Some Push }
    ensures newer { first_fault RESP3 (record default_manager { connection = record default_manager.connection { push_sender = true } })
        ≡ None }
    ensures permits { first_fault RESP2 (record default_manager { connection = record default_manager.connection { concurrency_limit = Some 0 } })
        ≡ Some Limit }
    ensures places { first_fault RESP2 (record default_manager { connection = record default_manager.connection { pipeline_buffer_size = 0 } })
        ≡ Some Buffer }
{}
