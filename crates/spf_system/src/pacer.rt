//! The pauses of a live source, one after each attempt that ended.

ghost use Rattle.std.specs.Prelude.{◌≡◌, [], ◌∷◌, List};
ghost use Rattle.std.specs.Duration.{as_nanos};
ghost use Rattle.spf_system.specs.Delays.{PaceStep, Synchronised, Ended, StandsAfter, does_grow};
ghost use Rattle.spf_system.specs.Delays.{grown_at, delays_of};
ghost use Rattle.spf_system.specs.Delays as spec;

use crate::backoff::{next_backoff, next_backoff_for_no_identity};
use crate::reconnect_config::ReconnectConfig;
use std::time::Duration;

/// How an attempt ended, and whether the agent said that no identity is issued.
#[derive(Clone, Copy, Debug, PartialEq, Eq)]
pub enum AttemptEnd {
    /// No client was made.
    Client {
        no_identity: bool,
    },
    /// The connection was refused.
    Connect {
        no_identity: bool,
    },
    /// The stream ended, after an accepted update of its own or without one.
    Stream {
        gave_accepted: bool,
        no_identity: bool,
    },
}

/// Whether the delay grows in the form for no identity.
fn grows_without_identity(synchronised: bool, end: AttemptEnd) -> bool
    ensures { result ≡ spec.without_identity synchronised end }
{
    match end {
        AttemptEnd::Client { no_identity } | AttemptEnd::Connect { no_identity } => no_identity,
        AttemptEnd::Stream { no_identity, .. } => !synchronised && no_identity,
    }
}

/// Whether the pause is the grown delay, and not the one before.
fn pauses_grown(synchronised: bool, end: AttemptEnd) -> bool
    ensures { result ≡ spec.pauses_grown synchronised end }
{
    match end {
        AttemptEnd::Connect { .. } => synchronised,
        _ => false,
    }
}

/// The delay between attempts: it grows with failures, and
/// begins again at the least once updates are accepted.
#[derive(Clone, Copy)]
pub struct Pacer {
    bounds: ReconnectConfig,
    current: Duration,
    synchronised: bool,
}

impl Pacer {
    /// Returns a pacer whose delay is the least of the bounds, which are normalized first.
    pub fn new(bounds: ReconnectConfig) -> Pacer
        ensures { StandsAfter bounds [] result }
    {
        let bounds = bounds.normalize();
        Pacer {
            bounds,
            current: bounds.min_backoff,
            synchronised: false,
        }
    }

    /// An update was accepted: the delay is the least again.
    pub fn synchronised(&mut self)
        ensures { (bounds : ReconnectConfig) (past : List PaceStep)
            → StandsAfter bounds past self.old → StandsAfter bounds (Synchronised ∷ past) self.new }
    {
        self.current = self.bounds.min_backoff;
        self.synchronised = true;
    }

    /// Returns whether the delay grows at this end, and so a random word is used.
    pub fn grows(&self, end: AttemptEnd) -> bool
        ensures { result ≡ does_grow self.now.synchronised end }
    {
        match end {
            AttemptEnd::Stream { gave_accepted, .. } => !(self.synchronised && gave_accepted),
            _ => true,
        }
    }

    /// The delay grown once.
    fn grown(&self, end: AttemptEnd, word: u64) -> Duration
        ensures { as_nanos result
            ≡ grown_at self.now.synchronised end (as_nanos self.now.current)
            (as_nanos self.now.bounds.max_backoff) word }
    {
        if grows_without_identity(self.synchronised, end) {
            return next_backoff_for_no_identity(self.current, self.bounds.max_backoff, word);
        }
        next_backoff(self.current, self.bounds.max_backoff, word)
    }

    /// Returns the pause after an attempt that ended like this. The word is used exactly where the
    /// delay grows.
    pub fn after(&mut self, end: AttemptEnd, word: u64) -> Duration
        ensures pause { (bounds : ReconnectConfig) (past : List PaceStep)
            → StandsAfter bounds past self.old
            → delays_of bounds (Ended end word ∷ past) ≡ as_nanos result ∷ delays_of bounds past }
        ensures stands { (bounds : ReconnectConfig) (past : List PaceStep)
            → StandsAfter bounds past self.old
            → StandsAfter bounds (Ended end word ∷ past) self.new }
    {
        if !self.grows(end) {
            self.current = self.bounds.min_backoff;
            return self.current;
        }
        let before = self.current;
        self.current = self.grown(end, word);
        if pauses_grown(self.synchronised, end) {
            self.current
        } else {
            before
        }
    }
}
