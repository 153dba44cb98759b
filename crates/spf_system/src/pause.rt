//! Pauses between attempts.

ghost use Rattle.std.specs.Prelude.{◌≡◌, ℕ, List, [], None, Option, Some, IfOk};
ghost use Rattle.spf_system.specs.Pause.{Pauses, paused};

use crate::stop_flag::StopFlag;
use spf_io::OutOfMemory;
use std::alloc::Global;
use std::marker::Model;
use std::thread;
use std::time::{self, Duration};

/// Waits for a given time.
pub trait Pause {
    ghost use Rattle.std.specs.declared.time.Duration.{Duration};

    // The delays so far, where they are known, and how many of them are kept.
    ghost delays: { Self → Option (List Duration) };

    ghost room: { Self → ℕ };

    fn pause(&mut self, delay: Duration)
        ensures delays { Pauses (room self.old) (delays self.old) (delays self.new) delay }
        ensures room { room self.new ≡ room self.old };

    /// From here on a pause ends soon once the flag is set, where it can.
    fn heed(&mut self, stop: StopFlag)
        ensures delays { delays self.new ≡ delays self.old }
        ensures room { room self.new ≡ room self.old }
    {}
}

/// A pause that returns at once, and keeps the first delays.
#[derive(Drop)]
pub struct MemPause {
    delays: Vec<Duration>,
    room: usize,
}

impl Model for MemPause {
    ghost use Rattle.std.specs.Prelude.{◌≤◌, vec_len, vec_capacity};
    ghost use Rattle.spf_system.specs.Pause.{KeptDelays};

    ghost Value = { KeptDelays };

    ghost view = { λ p. record { delays = p.delays.items; room = p.room } };

    ghost invariant = { λ p. (vec_len p.delays ≤ p.room) × (p.room ≤ vec_capacity p.delays) };
}

impl MemPause {
    /// Returns a pause with room for that many delays, which is allocated at once.
    pub fn new(alloc: Global, room: usize) -> Result<MemPause, OutOfMemory>
        ensures { IfOk result (λ p. p ≡ record { delays = []; room = room }) }
    {
        Ok(MemPause {
            delays: Vec::with_capacity(alloc, room)?,
            room,
        })
    }

    /// Returns the first delays.
    pub fn delays(&self) -> &[Duration]
        ensures { result.now ≡ self.now.delays }
    {
        self.delays.as_slice()
    }
}

impl Pause for MemPause {
    ghost use Rattle.std.specs.Prelude.{Some};

    ghost delays = { λ p. Some p.delays };

    ghost room = { λ p. p.room };

    fn pause(&mut self, delay: Duration)
        ensures delays { Pauses self.old.room (Some self.old.delays) (Some self.new.delays) delay }
        ensures room { self.new.room ≡ self.old.room }
    {
        if self.delays.len() < self.room {
            let _ = self.delays.push(delay);
        }
    }
}

/// How many nanoseconds the system sleeps at once, at most, before it looks at the flag again.
const PIECE_NANOS: u128 = 50_000_000;

/// A pause of the system. Once its flag is set it ends within a quarter of a second.
#[derive(Drop)]
pub struct StdPause<R> {
    system: R,
    stop: Option<StopFlag>,
}

impl<R: time::Clock> StdPause<R> {
    /// Returns a pause that heeds no flag yet.
    pub fn new(system: R) -> StdPause<R>
        ensures { result ≡ record { system = system; stop = None } }
    {
        StdPause { system, stop: None }
    }

    fn is_stopped(&self) -> bool {
        match &self.stop {
            Some(stop) => stop.is_set(),
            None => false,
        }
    }
}

impl<R: time::Clock + Drop> Pause for StdPause<R> {
    ghost use Rattle.std.specs.Prelude.{None};

    ghost delays = { λ _. None };

    ghost room = { λ _. 0 };

    fn pause(&mut self, delay: Duration) {
        let mut left = delay.as_nanos();
        'pieces: while left > 0 && !self.is_stopped() {
            let piece = left.min(PIECE_NANOS);
            thread::sleep(&self.system, Duration::from_nanos(piece as u64));
            left -= piece;
        }
    }

    fn heed(&mut self, stop: StopFlag) {
        self.stop = Some(stop);
    }
}
