//! The lines of a live run.

ghost use Rattle.std.specs.Prelude.{◌≡◌, ◌≤◌, ◌⊎◌, None, Some, IfErr};
ghost use Rattle.spf_io.specs.Outside.{Rose};
ghost use Rattle.spiffe.specs.Reads.{IsRevision, SeesNoLess};
ghost use Rattle.spf_live.specs.Printing.{Prints, PrintsLine, PrintsOn};
ghost use Rattle.spf_live.specs.Runs.{FollowFails};

use crate::error::LiveError;
use spf_feed::state_line;
use spf_io::{Failed, OutOfMemory, Sink};
use spf_system::Clock;
use spiffe::X509SourceUpdates;
use std::alloc::Global;
use std::mem::drop;
use std::sync::Wait;
use std::time;

/// Prints the state that is published now, at the clock's moment.
fn print_state<T: Clock, K: Sink>(
    alloc: Global,
    updates: &mut X509SourceUpdates,
    clock: &mut T,
    out: &mut K,
) -> Result<(), LiveError>
    ensures line { PrintsLine updates.new.pass.seen updates.new.marked None (T.moments clock.old)
        (T.moments clock.new) (K.held out.old) (K.held out.new) result }
    ensures pass { SeesNoLess updates.old.pass updates.new.pass }
    ensures writes { K.failures out.old ≤ K.failures out.new }
    ensures cause { IfErr result (FollowFails ⊥ (Rose (K.failures out.old)
        (K.failures out.new))) }
{
    let state = match updates.state() {
        Ok(state) => state,
        Err(OutOfMemory) => return Err(LiveError::OutOfMemory),
    };
    let now = clock.now();
    let line = match state_line(alloc, &state, now) {
        Ok(line) => line,
        Err(OutOfMemory) => {
            drop(state);
            return Err(LiveError::OutOfMemory);
        }
    };
    drop(state);
    match out.put(line.as_str().as_bytes()) {
        Ok(()) => {
            drop(line);
            Ok(())
        }
        Err(Failed) => {
            drop(line);
            Err(LiveError::WriteFailed)
        }
    }
}

/// Waits for a change, and prints the state that is then published. Its revision is above the
/// marked one, which is that of what the updates have read.
fn print_change<R: Wait + time::Clock, T: Clock, K: Sink>(
    rt: &R,
    alloc: Global,
    updates: &mut X509SourceUpdates,
    clock: &mut T,
    out: &mut K,
) -> Result<(), LiveError>
    requires { IsRevision updates.old.pass updates.old.marked }
    ensures line { PrintsLine updates.new.pass.seen updates.new.marked (Some updates.old.marked)
        (T.moments clock.old) (T.moments clock.new) (K.held out.old) (K.held out.new) result }
    ensures pass { SeesNoLess updates.old.pass updates.new.pass }
    ensures writes { K.failures out.old ≤ K.failures out.new }
    ensures cause { IfErr result (FollowFails ⊥ (Rose (K.failures out.old)
        (K.failures out.new))) }
{
    match updates.changed(rt) {
        Ok(_revision) => print_state(alloc, updates, clock, out),
        Err(e) => {
            // Nobody has closed the source: without a change its supervisor ended out of memory.
            drop(e);
            Err(LiveError::OutOfMemory)
        }
    }
}

/// Prints a line after each change, until there are that many with the one before them.
fn print_changes<R: Wait + time::Clock, T: Clock, K: Sink>(
    rt: &R,
    alloc: Global,
    updates: &mut X509SourceUpdates,
    clock: &mut T,
    out: &mut K,
    lines: u64,
) -> Result<(), LiveError>
    requires marked { IsRevision updates.old.pass updates.old.marked }
    requires lines { 1 ≤ lines }
    ensures prints { PrintsOn updates.old.pass.seen updates.old.marked updates.new.pass.seen lines
        (T.moments clock.old) (T.moments clock.new) (K.held out.old) (K.held out.new) result }
    ensures pass { SeesNoLess updates.old.pass updates.new.pass }
    ensures writes { K.failures out.old ≤ K.failures out.new }
    ensures cause { IfErr result (FollowFails ⊥ (Rose (K.failures out.old)
        (K.failures out.new))) }
{
    'changes: for _ in 1..lines {
        match print_change(rt, alloc, updates, clock, out) {
            Ok(()) => {}
            Err(e) => return Err(e),
        }
    }
    Ok(())
}

/// Prints that many lines: the state that is published now, and then one after each change.
pub(crate) fn print_lines<R: Wait + time::Clock, T: Clock, K: Sink>(
    rt: &R,
    alloc: Global,
    updates: &mut X509SourceUpdates,
    clock: &mut T,
    out: &mut K,
    lines: u64,
) -> Result<(), LiveError>
    requires { 1 ≤ lines }
    ensures prints { Prints updates.old.pass.seen updates.new.pass.seen lines
        (T.moments clock.old) (T.moments clock.new) (K.held out.old) (K.held out.new) result }
    ensures pass { SeesNoLess updates.old.pass updates.new.pass }
    ensures cause { IfErr result (FollowFails ⊥ (Rose (K.failures out.old)
        (K.failures out.new))) }
{
    match print_state(alloc, updates, clock, out) {
        Ok(()) => print_changes(rt, alloc, updates, clock, out, lines),
        Err(e) => Err(e),
    }
}
