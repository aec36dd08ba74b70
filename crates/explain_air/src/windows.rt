// The delays of a unit, within their limits.
ghost use Rattle.std.specs.Prelude.{◌≡◌};
ghost use Rattle.window_config.specs.Configs.{IsConfig};
ghost use Rattle.window_config.specs.Limits.{IsWithinLimits};

use window_config::{Config, Delays};

/// A delay profile within the limits.
#[derive(Drop)]
pub(crate) struct Windows {
    pub(crate) delays: Delays,
    pub ghost within: { IsWithinLimits delays },
}

impl Windows {
    /// The delays of a configuration.
    pub(crate) fn of(config: &Config) -> Windows
        requires { IsConfig config.now }
        ensures { result.delays ≡ config.now.delays }
    {
        Windows {
            delays: config.delays,
        }
    }
}
