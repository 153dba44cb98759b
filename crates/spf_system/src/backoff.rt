//! Exponential backoff with jitter.

ghost use Rattle.std.specs.Prelude.{◌≡◌, ◌*◌};
ghost use Rattle.std.specs.Duration.{as_nanos};
ghost use Rattle.spf_system.specs.Backoff.{grown_without_identity, NANOS_PER_MILLI};
ghost use Rattle.spf_system.specs.Backoff as spec;

use std::time::Duration;

/// The least delay, in milliseconds, that grows while no identity is issued.
const MIN_WITHOUT_IDENTITY: u64 = 1_000;

/// The greatest delay, in milliseconds, while no identity is issued.
const MAX_WITHOUT_IDENTITY: u64 = 10_000;

/// A delay in whole milliseconds, at most `u64::MAX`.
fn millis(delay: Duration) -> u64
    ensures { result ≡ spec.millis (as_nanos delay) }
{
    delay.as_millis().min(u64::MAX as u128) as u64
}

/// Twice the current delay, at most `max`, less a random part of a tenth.
fn grown(current: u64, max: u64, word: u64) -> u64
    ensures { result ≡ spec.grown current max word }
{
    let base = current.saturating_mul(2).min(max);
    let jitter = base / 10;
    base - jitter + word % (jitter + 1)
}

/// Returns the delay after `current`: twice as long, at most `max`, in whole milliseconds, less a
/// part of its tenth that the random `word` chooses.
pub fn next_backoff(current: Duration, max: Duration, word: u64) -> Duration
    ensures { as_nanos result
        ≡ spec.grown (spec.millis (as_nanos current)) (spec.millis (as_nanos max)) word
        * NANOS_PER_MILLI }
{
    Duration::from_millis(grown(millis(current), millis(max), word))
}

/// The same while no identity is issued: from at least one second on, and up to at most ten.
pub fn next_backoff_for_no_identity(current: Duration, max: Duration, word: u64) -> Duration
    ensures { as_nanos result
        ≡ grown_without_identity (spec.millis (as_nanos current)) (spec.millis (as_nanos max)) word
        * NANOS_PER_MILLI }
{
    let current = millis(current).max(MIN_WITHOUT_IDENTITY);
    let max = millis(max).min(MAX_WITHOUT_IDENTITY);
    Duration::from_millis(grown(current, max, word))
}
