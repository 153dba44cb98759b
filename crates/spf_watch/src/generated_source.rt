//! A generated session as a source, which makes its frames as they are read.

ghost use Rattle.std.specs.Prelude.{◌≡◌, ◌≤◌, Some, IfOk, length, take};
ghost use Rattle.spf_watch.specs.MadeSession.{made_session};
ghost use Rattle.spf_watch.specs.GeneratedParts.{GivesReady, MakesReady};

use crate::arguments::MakeArguments;
use crate::generated::GeneratedSession;
use spf_io::{Failed, OutOfMemory, Source};
use std::alloc::Global;
use std::marker::Model;

/// A source that fails only where memory runs out.
#[derive(Drop)]
pub(crate) struct GeneratedSource {
    session: GeneratedSession,
    frames: Vec<u8>,
    at: usize,
    failed: u64,
}

impl Model for GeneratedSource {
    ghost use Rattle.std.specs.Prelude.{◌≤◌, drop, vec_len};
    ghost use Rattle.spf_watch.specs.GeneratedParts.{GeneratedRead};

    ghost Value = { GeneratedRead };

    ghost view = { λ s. record {
      ready = drop s.at s.frames.items;
      later = s.session;
      failures = s.failed;
    } };

    ghost invariant = { λ s. s.at ≤ vec_len s.frames };
}

impl GeneratedSource {
    pub(crate) fn new(
        alloc: Global,
        arguments: MakeArguments,
    ) -> Result<GeneratedSource, OutOfMemory>
        ensures left { IfOk result
            (λ s. ⟦<GeneratedSource as Source>⟧.left s ≡ Some (made_session arguments)) }
        ensures failures { IfOk result (λ s. ⟦<GeneratedSource as Source>⟧.failures s ≡ 0) }
    {
        let mut frames = Vec::new(alloc);
        let session = GeneratedSession::open(alloc, arguments, &mut frames)?;
        Ok(GeneratedSource {
            session,
            frames,
            at: 0,
            failed: 0,
        })
    }

    /// Makes the next frames, where all before are read.
    fn ready(&mut self) -> Result<(), Failed>
        ensures { MakesReady self.old self.new result }
    {
        if self.at < self.frames.len() {
            return Ok(());
        }
        match self.session.next(&mut self.frames) {
            Ok(_) => {
                self.at = 0;
                Ok(())
            }
            Err(_) => {
                self.at = self.frames.len();
                self.failed = self.failed.saturating_add(1);
                Err(Failed)
            }
        }
    }

    /// Copies what is ready and fits into `buf`, and returns its length.
    fn give(&mut self, buf: &mut [u8]) -> usize
        ensures room { result ≤ length buf.new }
        ensures given { GivesReady self.old self.new (take result buf.new) (length buf.new) }
    {
        let n = buf.len().min(self.frames.len() - self.at);
        buf[..n].copy_from_slice(&self.frames[self.at..self.at + n]);
        self.at += n;
        n
    }
}

impl Source for GeneratedSource {
    ghost use Rattle.std.specs.Prelude.{◌++◌, Some};

    ghost left = { λ s. Some (s.ready ++ s.later) };

    ghost failures = { λ s. s.failures };

    fn read(&mut self, buf: &mut [u8]) -> Result<usize, Failed> {
        self.ready()?;
        Ok(self.give(buf))
    }
}
