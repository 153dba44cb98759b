//! Laws of the definitions that contracts cite. No law has a body: its contract is its statement.

ghost use Rattle.std.specs.Prelude.{◌≡◌, ℕ, ◌-◌, ◌*◌, ◌/◌, ◌≤◌, min};
ghost use Rattle.spf_system.specs.Backoff.{grown};
ghost use Rattle.spf_system.specs.Bounds.{normalized};

use crate::reconnect_config::ReconnectConfig;

/// A grown delay lies between its base less a tenth and its base,
/// the smaller of twice the current and the greatest delay.
pub fn jitter_is_a_tenth()
    ensures { (current max_delay word : ℕ) → let base = min (2 * current) max_delay in
        (base - base / 10 ≤ grown current max_delay word) × (grown current max_delay word ≤ base) }
{}

/// Bounds that were normalized stay as they are.
pub fn normalized_once(bounds: ReconnectConfig)
    ensures { normalized (normalized bounds) ≡ normalized bounds }
{}
