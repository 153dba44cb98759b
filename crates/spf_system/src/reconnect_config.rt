//! The bounds of the delay between attempts.

ghost use Rattle.std.specs.Prelude.{◌≡◌};
ghost use Rattle.std.specs.Duration.{as_nanos};
ghost use Rattle.spf_system.specs.Bounds.{normalized};

use std::time::Duration;

/// The least and the greatest delay between attempts.
#[derive(Clone, Copy, Debug, PartialEq, Eq)]
pub struct ReconnectConfig {
    pub min_backoff: Duration,
    pub max_backoff: Duration,
}

impl ReconnectConfig {
    pub fn new(min_backoff: Duration, max_backoff: Duration) -> ReconnectConfig
        ensures { result ≡ record { min_backoff = min_backoff; max_backoff = max_backoff } }
    {
        ReconnectConfig {
            min_backoff,
            max_backoff,
        }
    }

    /// The same bounds, swapped where the least is above the greatest.
    pub fn normalize(self) -> ReconnectConfig
        ensures { result ≡ normalized self }
    {
        if self.max_backoff.as_nanos() < self.min_backoff.as_nanos() {
            return ReconnectConfig {
                min_backoff: self.max_backoff,
                max_backoff: self.min_backoff,
            };
        }
        self
    }
}

impl Default for ReconnectConfig {
    ghost use Rattle.std.specs.Prelude.{◌≡◌};
    ghost use Rattle.spf_system.specs.Bounds.{IsDefault};

    /// 200 milliseconds to 10 seconds.
    fn default() -> ReconnectConfig
        ensures { IsDefault result }
    {
        ReconnectConfig {
            min_backoff: Duration::from_millis(200),
            max_backoff: Duration::from_secs(10),
        }
    }
}
