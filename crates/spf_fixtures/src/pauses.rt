//! A pause whose delays are summed.

use spf_io::OutOfMemory;
use spf_system::Pause;
use std::alloc::Global;
use std::sync::Arc;
use std::sync::atomic::{AtomicU64, Ordering};
use std::time::Duration;

/// How many pauses there were, and the nanoseconds of all of them.
#[derive(Drop)]
pub struct Pauses {
    count: AtomicU64,
    nanos: AtomicU64,
}

impl Pauses {
    pub fn none(alloc: Global) -> Result<Arc<Pauses>, OutOfMemory> {
        let pauses = Pauses {
            count: AtomicU64::new(0),
            nanos: AtomicU64::new(0),
        };
        Ok(Arc::new(alloc, pauses)?)
    }

    fn add(&self, delay: Duration) {
        let nanos = u64::try_from(delay.as_nanos()).unwrap_or(u64::MAX);
        self.count.fetch_add(1, Ordering::SeqCst);
        self.nanos.fetch_add(nanos, Ordering::SeqCst);
    }

    /// Returns how many there were, and their nanoseconds.
    pub fn sum(&self) -> (u64, u64) {
        (
            self.count.load(Ordering::SeqCst),
            self.nanos.load(Ordering::SeqCst),
        )
    }
}

/// A pause that returns at once, and adds each delay to its pauses.
#[derive(Drop)]
pub struct SummedPause {
    pub pauses: Arc<Pauses>,
}

impl Pause for SummedPause {
    ghost use Rattle.std.specs.Prelude.{None};

    ghost delays = { λ _. None };

    ghost room = { λ _. 0 };

    fn pause(&mut self, delay: Duration) {
        self.pauses.add(delay);
    }
}
