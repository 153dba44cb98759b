//! The bell on which readers wait for a change.

use spf_io::OutOfMemory;
use std::alloc::Global;
use std::sync::atomic::{AtomicU64, Ordering};
use std::sync::{Arc, Condvar, Mutex, Wait};
use std::time::{Clock, Duration};

/// The longest time, in milliseconds, that a waiter sleeps before it looks at the count again.
const NAP_MILLIS: u64 = 100;

#[derive(Drop)]
struct Rung {
    count: AtomicU64,
    /// Held by waiters alone: ringing takes no lock.
    sleeping: Mutex<()>,
    changed: Condvar,
}

/// A bell that is rung at each change. No clause says that a waiter wakes: one that misses a ring
/// soon looks at the count again. Clones share it.
#[derive(Drop)]
pub struct Bell {
    rung: Arc<Rung>,
}

impl Bell {
    pub fn new(alloc: Global) -> Result<Bell, OutOfMemory> {
        let rung = Rung {
            count: AtomicU64::new(0),
            sleeping: Mutex::new(()),
            changed: Condvar::new(),
        };
        Ok(Bell {
            rung: Arc::new(alloc, rung)?,
        })
    }

    /// Counts one more ring and wakes all who wait. It never waits, so a drop may call it.
    pub fn ring(&self) {
        self.rung.count.fetch_add(1, Ordering::SeqCst);
        self.rung.changed.notify_all();
    }

    /// Returns the number of rings so far, which a waiter remembers before it looks for a change.
    pub fn now(&self) -> u64 {
        self.rung.count.load(Ordering::SeqCst)
    }

    /// Returns once the number of rings differs from `seen`.
    pub fn wait_past<R: Wait + Clock>(&self, rt: &R, seen: u64) {
        for _ in rt.forever() {
            if self.now() != seen {
                return;
            }
            self.sleep(rt, seen);
        }
    }

    /// Sleeps until a ring, but only for a short time.
    fn sleep<R: Wait + Clock>(&self, rt: &R, seen: u64) {
        let guard = self.rung.sleeping.lock(rt);
        if self.now() == seen {
            let nap = Duration::from_millis(NAP_MILLIS);
            let _ = self.rung.changed.wait_timeout(rt, guard, nap);
        }
    }

    /// Returns another handle of the same bell.
    pub fn try_clone(&self) -> Result<Bell, OutOfMemory> {
        Ok(Bell {
            rung: Arc::try_clone(&self.rung)?,
        })
    }
}
