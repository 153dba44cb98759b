//! A shared flag that ends waits, and the limit of a single wait.

use spf_io::OutOfMemory;
use std::alloc::Global;
use std::sync::Arc;
use std::sync::atomic::{AtomicBool, AtomicU64, Ordering};
use std::time::Duration;

/// The limit that stands for none.
const NO_LIMIT: u64 = u64::MAX;

#[derive(Drop)]
struct Marks {
    stopped: AtomicBool,
    /// Nanoseconds, or `NO_LIMIT`.
    limit: AtomicU64,
}

/// A flag that all waits look at: once it is set, they end soon. Clones share it.
#[derive(Drop)]
pub struct StopFlag {
    marks: Arc<Marks, Global>,
}

impl StopFlag {
    /// Returns a flag that is not set, without a limit.
    pub fn new(alloc: Global) -> Result<StopFlag, OutOfMemory> {
        let marks = Marks {
            stopped: AtomicBool::new(false),
            limit: AtomicU64::new(NO_LIMIT),
        };
        Ok(StopFlag {
            marks: Arc::new(alloc, marks)?,
        })
    }

    /// Sets the flag, for good.
    pub fn set(&self) {
        self.marks.stopped.store(true, Ordering::SeqCst);
    }

    pub fn is_set(&self) -> bool {
        self.marks.stopped.load(Ordering::SeqCst)
    }

    /// Bounds each single wait from here on, or lifts the bound. It goes up to some 584 years.
    pub fn limit(&self, wait: Option<Duration>) {
        let nanos = match wait {
            Some(wait) => wait.as_nanos().min(NO_LIMIT as u128 - 1) as u64,
            None => NO_LIMIT,
        };
        self.marks.limit.store(nanos, Ordering::SeqCst);
    }

    /// Returns the bound of a single wait, where one is set.
    pub fn wait_limit(&self) -> Option<Duration> {
        match self.marks.limit.load(Ordering::SeqCst) {
            NO_LIMIT => None,
            nanos => Some(Duration::from_nanos(nanos)),
        }
    }

    /// Returns another handle of the same flag.
    pub fn try_clone(&self) -> Result<StopFlag, OutOfMemory> {
        Ok(StopFlag {
            marks: Arc::try_clone(&self.marks)?,
        })
    }
}
