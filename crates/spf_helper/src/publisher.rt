//! A publisher that keeps the latest step on a disk.

ghost use Rattle.std.specs.Prelude.{◌≡◌, ◌||◌, ◌++◌, ◌∷◌, ◌+◌, ◌≤◌, [], false, Ok, IfOk, OnOk};
ghost use Rattle.std.specs.Prelude.{OnErr, length};
ghost use Rattle.std.specs.Prelude.{◌==◌, ◌-◌, ◌^◌, Some};
ghost use Rattle.std.specs.Bool.{OnFalse, OnTrue};
ghost use Rattle.spf_io.specs.Outside.{Rose};
ghost use Rattle.spf_feed.specs.Records.{RecordAppends};
ghost use Rattle.spf_feed.specs.Steps.{plain};
ghost use Rattle.spf_disk.specs.Crash.{LeavesOnly, Looks, Only};
ghost use Rattle.spf_helper.specs.Helping.{IsBeforeOrAfter, OpensAs, IsStanding};
ghost use Rattle.spf_disk.specs.Opening.{IsOpened};

use crate::generations::entry_of;
use spf_disk::{Disk, DiskFailed, OpenError, Opened, Slot, open_files, replace_entry, write_entry};
use spf_feed::{Publisher, Step};
use spf_io::OutOfMemory;
use std::alloc::Global;
use std::marker::Model;

/// A publisher that keeps the latest step on a disk, and all steps in memory.
#[derive(Drop)]
pub struct HelperPublisher<'a, D: Disk> {
    alloc: Global,
    disk: &'a mut D,
    base: u64,
    steps: Vec<Step>,
    acknowledged: u64,
    next: Slot,
    next_is_open: bool,
    other_is_open: bool,
    fault: bool,
    full: bool,
}

impl<'a, D: Disk> Model for HelperPublisher<'a, D> {
    ghost use Rattle.spf_helper.specs.Helping.{Helping};

    ghost Value = { Helping D };

    ghost use Rattle.std.specs.Prelude.{map, MatchBool, ◌||◌};
    ghost use Rattle.spf_feed.specs.Steps.{plain};
    ghost use Rattle.spf_disk.specs.Crash.{Only};
    ghost use Rattle.spf_helper.specs.Helping.{IsReady};

    ghost view = { λ p. record {
      disk = p.disk;
      base = p.base;
      steps = map plain p.steps.items;
      acknowledged = p.acknowledged;
      fault = p.fault;
      full = p.full;
    } };

    ghost invariant = { λ p. MatchBool (p.fault || p.full) (Unit {0})
        (Only (D.seen p.disk.now) (D.may_leave p.disk.now)
        × IsReady p.base p.acknowledged (map plain p.steps.items) p.next p.next_is_open
        p.other_is_open (D.seen p.disk.now)) };
}

impl<'a, D: Disk> HelperPublisher<'a, D> {
    /// A publisher over files that `open_files` has opened.
    pub fn over(alloc: Global, disk: &'a mut D, opened: Opened) -> HelperPublisher<'a, D>
        requires opened { IsOpened (D.seen disk.old) opened }
        requires durable { Only (D.seen disk.old) (D.may_leave disk.old) }
        ensures same_reference { result.disk.ghost_name ≡ disk.entry.ghost_name }
        ensures same_disk { result.disk.now ≡ disk.old }
        ensures base { result.base ≡ opened.number }
        ensures empty { (result.steps ≡ []) × (result.acknowledged ≡ 0) }
        ensures well { (result.fault ≡ false) × (result.full ≡ false) }
    {
        HelperPublisher {
            alloc,
            disk,
            base: opened.number,
            steps: Vec::new(alloc),
            acknowledged: 0,
            next: opened.next,
            next_is_open: opened.next_is_open,
            other_is_open: opened.other_is_open,
            fault: false,
            full: false,
        }
    }

    /// Syncs the three files, and reads them.
    pub fn open(alloc: Global, disk: &'a mut D) -> Result<HelperPublisher<'a, D>, OpenError>
        ensures same_reference { IfOk result
            (λ p. p.disk.ghost_name ≡ disk.entry.ghost_name) }
        ensures opens { OpensAs (D.seen disk.old) result }
        ensures empty { IfOk result (λ p. (p.steps ≡ []) × (p.acknowledged ≡ 0)
            × (p.fault ≡ false) × (p.full ≡ false)) }
        ensures looks { IfOk result (λ p. Looks D.seen D.may_leave D.moment D.left_since disk.old
            p.disk.now) }
        ensures durable { IfOk result (λ p. Only (D.seen p.disk.now) (D.may_leave p.disk.now)) }
    {
        let opened = open_files(alloc, disk)?;
        Ok(HelperPublisher::over(alloc, disk, opened))
    }

    /// The disk that was lent to it.
    pub(crate) fn into_disk(self) -> &'a mut D
        ensures same_reference { result.ghost_name ≡ self.entry.disk.ghost_name }
        ensures same_disk { result.now ≡ self.entry.disk.now }
    {
        let HelperPublisher { disk, .. } = self;
        disk
    }

    /// Returns how many of the first steps are written.
    pub fn acknowledged(&self) -> u64
        ensures count { result ≡ self.now.acknowledged }
        // Unless the disk failed or the numbers ran out, all
        // are, and each crash leaves what the last one says.
        ensures standing { OnFalse (self.now.fault || self.now.full)
            (IsStanding D.seen D.may_leave self.now) }
    {
        self.acknowledged
    }

    /// Returns whether the disk failed. After that no step is written.
    pub fn fault(&self) -> bool
        ensures { result ≡ self.now.fault }
    {
        self.fault
    }

    /// Returns whether a step came for which there is no number. After that no step is written.
    pub fn full(&self) -> bool
        ensures { result ≡ self.now.full }
    {
        self.full
    }
}

impl<'a, D: Disk> Publisher for HelperPublisher<'a, D> {
    ghost use Rattle.std.specs.Prelude.{Some};

    ghost steps = { λ p. Some p.steps };

    /// Memory is allocated before anything is written; where it runs out, nothing is changed.
    fn publish(&mut self, step: Step) -> Result<(), OutOfMemory>
        ensures appends { RecordAppends (Some self.old.steps) (Some self.new.steps) result
            (plain step) }
        ensures same_reference { self.new.disk.ghost_name ≡ self.old.disk.ghost_name }
        ensures refused { OnErr result (self.new ≡ self.old) }
        ensures same_base { self.new.base ≡ self.old.base }
        // A crash at any moment of the call leaves that, or what the step says.
        ensures any_moment { OnFalse (self.old.fault || self.old.full)
            (LeavesOnly D.moment D.left_since self.old.disk.now self.new.disk.now
            (IsBeforeOrAfter (D.seen self.old.disk.now) self.old.base
            (self.old.steps ++ plain step ∷ []))) }
        ensures later { D.failures self.old.disk.now ≤ D.failures self.new.disk.now }
        // Only the disk is a reason for a fault, and only the numbers for being full.
        ensures fault { OnFalse self.old.fault (OnTrue self.new.fault
            (Rose (D.failures self.old.disk.now) (D.failures self.new.disk.now))) }
        ensures full { OnFalse (self.old.fault || self.old.full) (OnOk result
            (self.new.full ≡ (self.old.base + length self.old.steps == 2 ^ 64 - 1))) }
        // After a fault, or where the numbers ran out, nothing is written.
        ensures stopped { OnTrue (self.old.fault || self.old.full)
            ((self.new.disk.now ≡ self.old.disk.now)
            × (self.new.acknowledged ≡ self.old.acknowledged)
            × (self.new.fault ≡ self.old.fault) × (self.new.full ≡ self.old.full)) }
        // A step that is not written does not count.
        ensures unwritten { OnTrue (self.new.fault || self.new.full)
            (self.new.acknowledged ≡ self.old.acknowledged) }
        // Otherwise all steps are written, and each crash leaves what the last one says.
        ensures standing { OnFalse (self.new.fault || self.new.full)
            (IsStanding D.seen D.may_leave self.new) }
    {
        if self.fault || self.full {
            self.steps.push(step)?;
            return Ok(());
        }
        let number = self.base + self.acknowledged;
        if number == u64::MAX {
            self.steps.push(step)?;
            self.full = true;
            return Ok(());
        }
        let entry = entry_of(self.alloc, number + 1, &step)?;
        let bytes = write_entry(self.alloc, &entry)?;
        self.steps.push(step)?;
        match replace_entry(self.disk, self.next, self.next_is_open, bytes.as_slice()) {
            Ok(()) => {
                self.acknowledged += 1;
                self.next = self.next.other();
                self.next_is_open = self.other_is_open;
                self.other_is_open = true;
                Ok(())
            }
            Err(DiskFailed) => {
                self.fault = true;
                Ok(())
            }
        }
    }
}
