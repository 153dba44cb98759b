//! The time of day.

ghost use Rattle.std.specs.Prelude.{◌≡◌, ◌≤ℤ◌, ℤ, pos, List, Option, Some, IfSome};
ghost use Rattle.spf_system.specs.Clock.{IsTime, later, moments_of, next_moment};
ghost use Rattle.spf_system.specs.Clock as spec;

use std::marker::Model;
use std::time;

/// A clock that gives Unix seconds, or none where the time is not available.
pub trait Clock {
    // What the clock gives from here on, where it is known; after that, it gives none for good.
    ghost moments: { Self → Option (List (Option ℤ)) };

    /// Unix seconds, from 0 on.
    fn now(&mut self) -> Option<i64>
        ensures gives { IsTime (moments self.old) (moments self.new) result }
        ensures range { IfSome result (λ moment. pos 0 ≤ℤ moment) };
}

/// A clock that gives these moments in turn, and then none. A negative one counts as none.
#[derive(Debug, Drop)]
pub struct MemClock {
    moments: Vec<Option<i64>>,
    at: usize,
}

impl Model for MemClock {
    ghost use Rattle.std.specs.Prelude.{◌≤◌, drop, vec_len, List, Option, ℤ};
    ghost use Rattle.spf_system.specs.Clock.{moments_of};

    ghost Value = { List (Option ℤ) };

    ghost view = { λ c. moments_of (drop c.at c.moments.items) };

    ghost invariant = { λ c. c.at ≤ vec_len c.moments };
}

impl MemClock {
    pub fn new(moments: Vec<Option<i64>>) -> MemClock
        ensures { result ≡ moments_of moments.items }
    {
        MemClock { moments, at: 0 }
    }
}

/// A moment from 0 on.
fn moment_of(seconds: Option<i64>) -> Option<i64>
    ensures { result ≡ spec.moment_of seconds }
{
    match seconds {
        Some(seconds) if seconds >= 0 => Some(seconds),
        _ => None,
    }
}

impl Clock for MemClock {
    ghost moments = { λ c. Some c };

    fn now(&mut self) -> Option<i64>
        ensures gives { IsTime (Some self.old) (Some self.new) result }
        ensures range { IfSome result (λ moment. pos 0 ≤ℤ moment) }
        ensures moment { result ≡ next_moment self.old }
        ensures later { self.new ≡ later self.old }
    {
        if self.at == self.moments.len() {
            return None;
        }
        let seconds = self.moments[self.at];
        self.at += 1;
        moment_of(seconds)
    }
}

/// The clock of the system.
#[derive(Drop)]
pub struct StdClock<R> {
    system: R,
}

impl<R: time::Clock> StdClock<R> {
    pub fn new(system: R) -> StdClock<R>
        ensures { result ≡ record { system = system } }
    {
        StdClock { system }
    }
}

impl<R: time::Clock> Clock for StdClock<R> {
    ghost use Rattle.std.specs.Prelude.{None};

    ghost moments = { λ _. None };

    fn now(&mut self) -> Option<i64> {
        let since_1970 = self.system.since_1970().ok()?;
        i64::try_from(since_1970.as_secs()).ok()
    }
}
