//! Random words, good enough for the jitter of pauses.

ghost use Rattle.std.specs.Prelude.{◌≡◌, ℕ};
ghost use Rattle.rand_core.specs.Steps.{stream_of};
ghost use Rattle.spf_system.specs.Words.{seed_of, word_step, word_steps};

use rand_core::utils::NextWord;
use rand_core::{Rng, utils};
use std::marker::Model;

/// Random words by a linear congruential generator: good enough for the jitter of pauses, and the
/// same words for the same seed. Contracts see the state.
#[derive(Debug, Drop)]
pub struct StepWords {
    state: u64,
}

impl Model for StepWords {
    ghost Value = { ℕ };

    ghost view = { λ w. w.state };
}

impl StepWords {
    pub fn new(seed: u64) -> StepWords
        ensures { result ≡ seed }
    {
        StepWords { state: seed }
    }

    /// Returns the generator whose seed is a moment of the clock, in Unix seconds; 0 where there is
    /// none, or it is before the epoch.
    pub fn seeded_at(moment: Option<i64>) -> StepWords
        ensures { result ≡ seed_of moment }
    {
        match moment {
            Some(moment) if moment >= 0 => StepWords::new(moment as u64),
            _ => StepWords::new(0),
        }
    }
}

impl NextWord<u64> for StepWords {
    ghost step = { word_step };

    fn next_word(&mut self) -> u64 {
        const MULTIPLIER: u64 = 6_364_136_223_846_793_005;
        const INCREMENT: u64 = 1_442_695_040_888_963_407;
        self.state = MULTIPLIER.wrapping_mul(self.state).wrapping_add(INCREMENT);
        self.state
    }
}

impl Rng for StepWords {
    ghost stream = { stream_of word_steps };

    fn next_u32(&mut self) -> u32 {
        (self.next_word() % (1 << 32)) as u32
    }

    fn next_u64(&mut self) -> u64 {
        self.next_word()
    }

    fn fill_bytes(&mut self, dst: &mut [u8]) {
        utils::fill_bytes_via_u64(self, dst)
    }
}
