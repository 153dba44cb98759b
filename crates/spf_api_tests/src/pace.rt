//! Pauses between attempts, and errors in a row.

use spf_system::{
    AttemptEnd, ErrorKey, ErrorTracker, Pacer, ReconnectConfig, next_backoff,
    next_backoff_for_no_identity,
};
use std::time::Duration;

/// A current and a greatest delay in milliseconds, a random word, and the delay after them.
const BACKOFFS: &[(u64, u64, u64, u128)] = &[
    (30_000, 30_000, 0, 27_000),
    (30_000, 30_000, 3_000, 30_000),
    (30_000, 30_000, 3_001, 27_000),
    (0, 30_000, 7, 0),
    (2, 30_000, 7, 4),
];

/// The delay in milliseconds after a current and a greatest one.
fn grown(current: u64, max: u64, word: u64) -> u128 {
    next_backoff(
        Duration::from_millis(current),
        Duration::from_millis(max),
        word,
    )
    .as_millis()
}

#[test]
fn backoff(rt: HostRuntime) {
    for &(current, max, word, delay) in BACKOFFS {
        assert!(rt;
            grown(current, max, word) == delay,
            "{current} {max} {word}"
        );
    }
    let (current, max) = (Duration::from_millis(100), Duration::from_secs(30));
    let grown = next_backoff_for_no_identity(current, max, 0);
    assert!(rt; grown.as_millis() == 1_800);
}

#[test]
fn paced(rt: HostRuntime) {
    let mut pacer = Pacer::new(ReconnectConfig::default());
    let client = AttemptEnd::Client { no_identity: false };
    assert!(rt; pacer.after(client, 0).as_millis() == 200);
    assert!(rt; pacer.after(client, 0).as_millis() == 360);
    pacer.synchronised();
    let refused = AttemptEnd::Connect { no_identity: true };
    assert!(rt; pacer.grows(refused));
    assert!(rt; pacer.after(refused, 0).as_millis() == 1_800);
    let ended = AttemptEnd::Stream {
        gave_accepted: true,
        no_identity: false,
    };
    assert!(rt; !pacer.grows(ended));
    assert!(rt; pacer.after(ended, 0).as_millis() == 200);
}

#[test]
fn error_tracker(rt: HostRuntime) {
    let mut tracker = ErrorTracker::new(3);
    for is_news in [true, true, true, false] {
        assert!(rt; tracker.record_error(ErrorKey::ClientCreation) == is_news);
    }
    assert!(rt; tracker.consecutive_count() == 4);
    assert!(rt; tracker.record_error(ErrorKey::StreamConnect));
    assert!(rt; tracker.consecutive_count() == 1);
    assert!(rt; tracker.last_error_kind() == Some(ErrorKey::StreamConnect));
    tracker.reset();
    assert!(rt; tracker.consecutive_count() == 0);
    assert!(rt; tracker.last_error_kind().is_none());
}

#[test]
fn reconnect_config(rt: HostRuntime) {
    let inverted = ReconnectConfig::new(Duration::from_secs(10), Duration::from_secs(1));
    let bounds = inverted.normalize();
    assert!(rt; bounds.min_backoff.as_secs() == 1);
    assert!(rt; bounds.max_backoff.as_secs() == 10);
    assert!(rt; bounds.normalize() == bounds);
}
