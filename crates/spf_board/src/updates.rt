//! What one reader follows of a source: its own pass, and the revision that it has seen.

ghost use Rattle.std.specs.Prelude.{◌≡◌, ◌≢◌, ◌⊎◌, true, IfErr, IfOk, MatchOption, OnErr, OnOk};
ghost use Rattle.std.specs.Fn.{CalledAt};
ghost use Rattle.spf_board.specs.Passes.{Renews, read_of};
ghost use Rattle.spf_board.specs.Passing.{MarksOnBy, ReadsOnBy, SaysClosed, SeesNoLess};
ghost use Rattle.spf_board.specs.Showing.{HasClosedCauseBy, IsRevisionBy, StaysBy};

use crate::closing::{check_open, known_open, learn, look};
use crate::pass::Pass;
use crate::shows::Shows;
use spf_io::OutOfMemory;
use spf_system::{Bell, Watch};
use std::fmt;
use std::marker::Model;
use std::sync::Wait;
use std::time::Clock;

/// The updates of a source, read through a pass of their own. One revision is marked as seen.
#[derive(Drop)]
pub struct SourceUpdates<K: Shows> {
    watch: Watch,
    pass: Pass<K>,
    marked: u64,
    bell: Bell,
}

impl<K: Shows> Model for SourceUpdates<K> {
    ghost use Rattle.spf_board.specs.Sources.{Updates};

    ghost Value = { Updates K.Step };

    ghost view = { λ u. record { cell = u.watch; pass = u.pass; marked = u.marked } };
}

impl<K: Shows> fmt::Debug for SourceUpdates<K> {
    fn fmt<W: fmt::Write>(&self, f: &mut fmt::Formatter<W>) -> fmt::Result {
        K::write_name(f)
    }
}

/// The revision that is published now.
fn revision_of<K: Shows>(pass: &mut Pass<K>) -> Result<u64, OutOfMemory>
    ensures revision { IfOk result (IsRevisionBy K.showing pass.new) }
    ensures closed { pass.new.closed ≡ pass.old.closed }
    ensures renews { OnOk result (Renews K.legal (read_of pass.old) (read_of pass.new)) }
    ensures pass { SeesNoLess pass.old pass.new }
{
    let state = pass.state(false)?;
    Ok(K::revision(&state))
}

/// The revision that is published now, where it is not the marked one.
fn unseen<K: Shows>(pass: &mut Pass<K>, marked: u64) -> Result<Option<u64>, OutOfMemory>
    ensures revision { IfOk result (λ r. MatchOption r (IsRevisionBy K.showing pass.new marked)
        (λ revision. IsRevisionBy K.showing pass.new revision × (revision ≢ marked))) }
    ensures closed { pass.new.closed ≡ pass.old.closed }
    ensures renews { OnOk result (Renews K.legal (read_of pass.old) (read_of pass.new)) }
    ensures pass { SeesNoLess pass.old pass.new }
{
    let revision = revision_of(pass)?;
    if revision == marked {
        Ok(None)
    } else {
        Ok(Some(revision))
    }
}

/// One look for a change. That the source is closed counts only where nothing is published but the
/// marked revision.
fn look_for_change<K: Shows>(
    watch: &Watch,
    pass: &mut Pass<K>,
    marked: u64,
) -> Result<Option<u64>, K::Error>
    ensures revision { IfOk result (λ r. MatchOption r (IsRevisionBy K.showing pass.new marked)
        (λ revision. IsRevisionBy K.showing pass.new revision × (revision ≢ marked))) }
    ensures closed { IfErr result (StaysBy K.showing K.legal watch.now marked pass.old
        pass.new) }
    ensures renews { OnOk result (Renews K.legal (read_of pass.old) (read_of pass.new)) }
    ensures pass { SeesNoLess pass.old pass.new }
{
    learn(watch, pass);
    match unseen(pass, marked) {
        Ok(Some(revision)) => Ok(Some(revision)),
        Ok(None) => {
            known_open(pass)?;
            Ok(None)
        }
        Err(OutOfMemory) => Err(K::out_of_memory()),
    }
}

/// Waits until a revision other than the marked one is published, or the source is closed.
fn await_change<K: Shows, R: Wait + Clock>(
    rt: &R,
    watch: &Watch,
    bell: &Bell,
    pass: &mut Pass<K>,
    marked: u64,
) -> Result<u64, K::Error>
    ensures revision { IfOk result (λ revision. IsRevisionBy K.showing pass.new revision
        × (revision ≢ marked)) }
    ensures closed { IfErr result (StaysBy K.showing K.legal watch.now marked pass.old
        pass.new) }
    ensures reads { OnOk result (ReadsOnBy K.legal pass.old pass.new) }
    ensures pass { SeesNoLess pass.old pass.new }
{
    'looks: for _ in rt.forever() {
        let rings = bell.now();
        if let Some(revision) = look_for_change(watch, pass, marked)? {
            return Ok(revision);
        }
        bell.wait_past(rt, rings);
    }
    unreachable!()
}

impl<K: Shows> SourceUpdates<K> {
    pub fn new(watch: Watch, pass: Pass<K>, bell: Bell) -> SourceUpdates<K>
        ensures { result ≡ record { cell = watch; pass = pass; marked = 0 } }
    {
        SourceUpdates {
            watch,
            pass,
            marked: 0,
            bell,
        }
    }

    /// Returns the state that is published now. Its revision is then marked as seen.
    pub fn state(&mut self) -> Result<K::State, OutOfMemory>
        ensures cell { self.new.cell ≡ self.old.cell }
        ensures state { IfOk result (λ s. K.showing.is_state self.new.pass.seen
            (K.showing.closed_of s) s) }
        ensures closed { IfOk result (λ s. SaysClosed self.old.cell self.new.pass
            (K.showing.closed_of s)) }
        ensures marked { IfOk result (λ s. self.new.marked ≡ K.showing.revision_of s) }
        ensures unmarked { OnErr result (self.new.marked ≡ self.old.marked) }
        ensures renews { OnOk result (Renews K.legal (read_of self.old.pass)
            (read_of self.new.pass)) }
        ensures pass { SeesNoLess self.old.pass self.new.pass }
    {
        let closed = look(&self.watch, &mut self.pass);
        let state = self.pass.state(closed)?;
        self.marked = K::revision(&state);
        Ok(state)
    }

    /// Reads what is published now, and marks its revision as seen.
    pub fn begin(&mut self) -> Result<(), OutOfMemory>
        ensures cell { self.new.cell ≡ self.old.cell }
        ensures revision { OnOk result (IsRevisionBy K.showing self.new.pass self.new.marked) }
        ensures renews { OnOk result (Renews K.legal (read_of self.old.pass)
            (read_of self.new.pass)) }
        ensures pass { SeesNoLess self.old.pass self.new.pass }
    {
        self.state()?;
        Ok(())
    }

    /// Returns the revision that is published now, which is not marked as seen.
    pub fn last(&mut self) -> Result<u64, OutOfMemory>
        ensures cell { self.new.cell ≡ self.old.cell }
        ensures revision { IfOk result (IsRevisionBy K.showing self.new.pass) }
        ensures marked { self.new.marked ≡ self.old.marked }
        ensures renews { OnOk result (Renews K.legal (read_of self.old.pass)
            (read_of self.new.pass)) }
        ensures pass { SeesNoLess self.old.pass self.new.pass }
    {
        revision_of(&mut self.pass)
    }

    /// Waits until a revision other than the marked one is published, marks it, and returns it. It
    /// fails where the source is closed, but an unseen revision comes first.
    pub fn changed<R: Wait + Clock>(&mut self, rt: &R) -> Result<u64, K::Error>
        ensures cell { self.new.cell ≡ self.old.cell }
        ensures revision { IfOk result (λ revision. IsRevisionBy K.showing self.new.pass revision
            × (revision ≢ self.old.marked) × (self.new.marked ≡ revision)) }
        ensures closed { IfErr result (StaysBy K.showing K.legal self.old.cell self.old.marked
            self.old.pass self.new.pass) }
        ensures unmarked { OnErr result (self.new.marked ≡ self.old.marked) }
        ensures reads { OnOk result (ReadsOnBy K.legal self.old.pass self.new.pass) }
        ensures pass { SeesNoLess self.old.pass self.new.pass }
    {
        let revision = await_change(rt, &self.watch, &self.bell, &mut self.pass, self.marked)?;
        self.marked = revision;
        Ok(revision)
    }

    /// The revision that is published now, which is not marked as seen. Whether the source is
    /// closed is looked at first.
    fn current(&mut self) -> Result<u64, K::Error>
        ensures cell { self.new.cell ≡ self.old.cell }
        ensures revision { IfOk result (IsRevisionBy K.showing self.new.pass) }
        ensures marked { self.new.marked ≡ self.old.marked }
        ensures cause { IfErr result (HasClosedCauseBy K.showing self.old.cell self.new.pass) }
        ensures renews { OnOk result (Renews K.legal (read_of self.old.pass)
            (read_of self.new.pass)) }
        ensures pass { SeesNoLess self.old.pass self.new.pass }
    {
        check_open(&self.watch, &mut self.pass)?;
        match revision_of(&mut self.pass) {
            Ok(revision) => Ok(revision),
            Err(OutOfMemory) => Err(K::out_of_memory()),
        }
    }

    /// Returns the current revision, not marked as seen, where `f` takes it; otherwise the first
    /// one of [`SourceUpdates::changed`] that `f` takes. Whether the source is closed is looked
    /// at first.
    pub fn wait_for<R: Wait + Clock, F: FnMut(&u64) -> bool>(
        &mut self,
        rt: &R,
        f: F,
    ) -> Result<u64, K::Error>
        requires { F.IsAlwaysCallable f }
        ensures cell { self.new.cell ≡ self.old.cell }
        ensures taken { IfOk result (λ revision. (before : F) × (after : F)
            × CalledAt F.FnMut before revision true after) }
        ensures revision { IfOk result (IsRevisionBy K.showing self.new.pass) }
        ensures marked { IfOk result (λ revision. (self.new.marked ≡ revision)
            ⊎ (self.new.marked ≡ self.old.marked)) }
        ensures cause { IfErr result (HasClosedCauseBy K.showing self.old.cell self.new.pass) }
        ensures unmarked { OnErr result (MarksOnBy (IsRevisionBy K.showing) self.old.pass
            self.old.marked self.new.pass self.new.marked) }
        ensures reads { OnOk result (ReadsOnBy K.legal self.old.pass self.new.pass) }
        ensures pass { SeesNoLess self.old.pass self.new.pass }
    {
        let mut f = f;
        let current = self.current()?;
        if f(&current) {
            return Ok(current);
        }
        'changes: for _ in rt.forever() {
            let revision = self.changed(rt)?;
            if f(&revision) {
                return Ok(revision);
            }
        }
        unreachable!()
    }

    /// Returns the pass, with all that it has seen.
    pub fn into_pass(self) -> Pass<K>
        ensures { result ≡ self.pass }
    {
        let SourceUpdates {
            watch: _watch,
            pass,
            marked: _,
            bell: _bell,
        } = self;
        pass
    }
}
