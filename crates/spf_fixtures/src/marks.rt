//! Marks by which a test and what it waits for tell each other how far they are.

use spf_io::OutOfMemory;
use spf_system::StopFlag;
use std::alloc::Global;
use std::thread;
use std::time::Duration;

/// How many turns a wait takes at most, of a millisecond each.
pub const TURNS: u64 = 10_000;

/// Two marks that threads share.
#[derive(Drop)]
pub struct Marks {
    /// The other side is where the test waits for it, and waits in turn.
    pub reached: StopFlag,
    /// The test lets it go on.
    pub go: StopFlag,
}

impl Marks {
    /// Marks that are not set.
    pub fn new(alloc: Global) -> Result<Marks, OutOfMemory> {
        Ok(Marks {
            reached: StopFlag::new(alloc)?,
            go: StopFlag::new(alloc)?,
        })
    }

    /// The same marks.
    pub fn try_clone(&self) -> Result<Marks, OutOfMemory> {
        Ok(Marks {
            reached: self.reached.try_clone()?,
            go: self.go.try_clone()?,
        })
    }

    /// Says that it is there, and waits. It returns whether the test let it go on.
    pub fn hold(&self, host: HostRuntime) -> bool {
        self.reached.set();
        is_set_soon(host, &self.go)
    }
}

/// Waits until the mark is set, and says whether it is.
pub fn is_set_soon(host: HostRuntime, mark: &StopFlag) -> bool {
    for _ in 0..TURNS {
        if mark.is_set() {
            return true;
        }
        thread::sleep(&host, Duration::from_millis(1));
    }
    false
}
