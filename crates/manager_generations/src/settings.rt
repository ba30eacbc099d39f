ghost use Rattle.std.specs.Prelude.{◌<◌};

use manager_config::ConnectionManagerConfig;

/// How a manager behaves, whose delays grow by a fraction with a denominator.
#[derive(Clone, Copy)]
pub struct Settings {
    pub config: ConnectionManagerConfig,
    ghost divides: { 0 < config.exponent_base.1 },
}
