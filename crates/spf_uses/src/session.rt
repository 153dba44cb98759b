//! Following a session with a picker and a publisher of one's own.

ghost use Rattle.std.specs.Prelude.{None, Some};
ghost use Rattle.spf_view.specs.Sessions.{Followed};
ghost use Rattle.spf_feed.specs.Items.{rules_with};
ghost use Rattle.spf_feed.specs.Run.{end_for, outputs, stream};
ghost use Rattle.spf_feed.specs.declared.ready.Ready.TheVariants.{Usable};
ghost use Rattle.spf_uses.specs.Rules.{last_index};

use spf_feed::{
    FollowError, NoRecorder, Publisher, Ready, ResourceLimits, Step, SvidPicker, follow_x509,
};
use spf_io::{OutOfMemory, Sink, Source};
use spf_x509::X509Svid;
use std::alloc::Global;
use std::sync::Arc;

/// Picks the last SVID of an update.
#[derive(Debug, Drop)]
pub struct LastPicker;

impl SvidPicker for LastPicker {
    ghost use Rattle.spf_uses.specs.Rules.{last_index};

    ghost picks = { λ _ svids. last_index svids };

    fn pick_svid(&self, svids: &[Arc<X509Svid>]) -> Option<usize> {
        if svids.is_empty() {
            None
        } else {
            Some(svids.len() - 1)
        }
    }
}

/// Counts the accepted updates and the denials of a session.
#[derive(Debug, Drop)]
pub struct StepCounter {
    pub accepted: u64,
    pub denied: u64,
}

impl Publisher for StepCounter {
    ghost use Rattle.std.specs.Prelude.{None};

    ghost steps = { λ _. None };

    fn publish(&mut self, step: Step) -> Result<(), OutOfMemory> {
        match step {
            Step::Accept { .. } => self.accepted = self.accepted.saturating_add(1),
            Step::Deny { .. } => self.denied = self.denied.saturating_add(1),
        }
        Ok(())
    }
}

/// Follows a session of at most 1,000 frames, writes a line for each event, and counts the steps.
pub fn follow<S: Source, K: Sink>(
    alloc: Global,
    source: &mut S,
    out: &mut K,
    steps: &mut StepCounter,
    limits: ResourceLimits,
) -> Result<u64, FollowError>
    // What is read and written belongs to one list of events, whose SVIDs the picker chooses by
    // `last_index`.
    ensures { let rules = rules_with limits None Usable (Some last_index) in
        Followed (stream rules) (outputs rules) 1000
        (record { left = S.left source.old; held = K.held out.old; steps = None; records = None })
        (record { left = S.left source.new; held = K.held out.new; steps = None; records = None })
        (end_for result) }
{
    follow_x509(
        alloc,
        source,
        out,
        steps,
        &mut NoRecorder::new(),
        limits,
        None,
        1000,
        Some(&LastPicker),
        Ready::Usable,
    )
}
