//! The pauses of a session, one after each attempt that ended, with all that they follow from.

ghost use Rattle.std.specs.Prelude.{◌≡◌, ℕ, [], List, Bool, OnErr, OnOk};
ghost use Rattle.spf_system.specs.Delays.{PaceStep};
ghost use Rattle.spf_system.specs.Pacing.{AreSynced, Paces, ended, synchronised};

use crate::pacer::{AttemptEnd, Pacer};
use crate::reconnect_config::ReconnectConfig;
use rand_core::Rng;
use spf_io::OutOfMemory;
use std::alloc::Global;
use std::time::Duration;

/// Where the delay stands, the words that were drawn, and the delays so far.
#[derive(Drop)]
pub struct Pace {
    bounds: ReconnectConfig,
    pacer: Pacer,
    words: Vec<u64>,
    delays: Vec<Duration>,
}

impl Pace {
    pub fn new(alloc: Global, bounds: ReconnectConfig) -> Pace
        ensures bounds { result.bounds ≡ bounds }
        ensures paces { Paces (λ words. []) result }
    {
        Pace {
            bounds,
            pacer: Pacer::new(bounds),
            words: Vec::new(alloc),
            delays: Vec::new(alloc),
        }
    }

    /// Returns the delays so far, oldest first.
    pub fn delays(&self) -> &[Duration]
        ensures { result.now ≡ self.now.delays.items }
    {
        self.delays.as_slice()
    }

    /// The first update was accepted.
    pub fn synchronised(&mut self)
        ensures bounds { self.new.bounds ≡ self.old.bounds }
        ensures paces { (steps : List ℕ → List PaceStep) → Paces steps self.old
            → Paces (synchronised steps) self.new }
    {
        self.pacer.synchronised();
    }

    /// Returns the delay after an attempt that ended like this. A word is drawn exactly where the
    /// delay grows.
    pub fn after<R: Rng>(
        &mut self,
        random: &mut R,
        end: AttemptEnd,
    ) -> Result<Duration, OutOfMemory>
        ensures bounds { self.new.bounds ≡ self.old.bounds }
        ensures paces { (synced : Bool) (steps : List ℕ → List PaceStep) → AreSynced synced steps
            → Paces steps self.old → OnOk result (Paces (ended synced end steps) self.new) }
        ensures refused { (steps : List ℕ → List PaceStep) → Paces steps self.old
            → OnErr result (Paces steps self.new) }
    {
        self.delays.reserve(1)?;
        self.words.reserve(1)?;
        if self.pacer.grows(end) {
            let word = random.next_u64();
            let delay = self.pacer.after(end, word);
            self.words.push_reserved(word);
            self.delays.push_reserved(delay);
            return Ok(delay);
        }
        let delay = self.pacer.after(end, 0);
        self.delays.push_reserved(delay);
        Ok(delay)
    }
}
