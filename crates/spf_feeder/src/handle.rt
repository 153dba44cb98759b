//! The handle of a supervisor that was started.

ghost use Rattle.std.specs.Prelude.{◌≡◌, true, IfOk};
ghost use mathlib.Core.List.{IsPrefix};
ghost use Rattle.spf_board.specs.Lists.{is_ended, steps_of};
ghost use Rattle.spf_feeder.specs.Shutdowns.{Shuts, ShutsBy, ShutsConfigured};
ghost use Rattle.spf_feeder.specs.Shutdowns.{is_late as spec_is_late};

use crate::supervises::Supervises;
use spf_board::{Pass, Shows};
use spf_io::OutOfMemory;
use spf_system::{Clock, Closing, Job, Joins};
use std::marker::{Model, PhantomData};
use std::time::Duration;

/// What the handle of a supervisor needs besides the handle of its started job.
#[derive(Drop)]
pub struct PendingHandle<K: Shows> {
    closing: Closing,
    grace: Option<Duration>,
    kind: PhantomData<K>,
}

impl<K: Shows> Model for PendingHandle<K> {
    ghost use Rattle.spf_feeder.specs.Shutdowns.{Pending};

    ghost Value = { Pending };

    ghost view = { λ h. record { cell = h.closing; grace = h.grace } };
}

impl<K: Shows> PendingHandle<K> {
    /// Returns what a handle is made of that closes by this, with the grace of a shutdown.
    pub fn new(closing: Closing, grace: Option<Duration>) -> PendingHandle<K>
        ensures { (result.cell ≡ closing) × (result.grace ≡ grace) }
    {
        PendingHandle {
            closing,
            grace,
            kind: PhantomData,
        }
    }

    /// Returns the handle of the supervisor whose job was started.
    pub fn started<J: Job, H: Joins<J> + Drop>(self, handle: H) -> SupervisorHandle<K, J, H>
        ensures { (result.job ≡ H.job handle) × (result.cell ≡ self.cell)
            × (result.grace ≡ self.grace) }
    {
        let PendingHandle { closing, grace, .. } = self;
        SupervisorHandle {
            handle,
            closing,
            grace,
            kind: PhantomData,
            job: PhantomData,
        }
    }
}

/// The handle of a started supervisor. It stays with the thread that built the source. Dropping it
/// leaves the supervisor running.
#[derive(Drop)]
pub struct SupervisorHandle<K: Shows, J: Job, H: Joins<J> + Drop> {
    handle: H,
    closing: Closing,
    grace: Option<Duration>,
    kind: PhantomData<K>,
    job: PhantomData<J>,
}

impl<K: Shows, J: Job, H: Joins<J> + Drop> Model for SupervisorHandle<K, J, H> {
    ghost use Rattle.spf_feeder.specs.Shutdowns.{Handled};

    ghost Value = { Handled J };

    ghost view = { λ h. record { job = H.job h.handle; cell = h.closing; grace = h.grace } };
}

impl<K: Shows, J: Job, H: Joins<J> + Drop> SupervisorHandle<K, J, H> {
    /// Closes the source, waits for the supervisor, and returns what its job leaves.
    pub fn close_and_join(self) -> J::Done
        ensures { J.may_give self.job result }
    {
        let SupervisorHandle {
            handle,
            mut closing,
            ..
        } = self;
        closing.close();
        handle.join()
    }

    /// Closes the source and waits for the supervisor. It asks the clock right before and right
    /// after the wait, which may take as long as the grace.
    pub fn shutdown_with_timeout<T: Clock>(
        self,
        clock: &mut T,
        grace: Duration,
    ) -> Result<(), K::Error>
        ensures { ShutsBy K.showing.timed_out grace (T.moments clock.old)
            (T.moments clock.new) result }
    {
        let SupervisorHandle {
            handle,
            mut closing,
            ..
        } = self;
        closing.close();
        let started = clock.now();
        let _done = handle.join();
        let ended = clock.now();
        shut::<K>(started, ended, grace)
    }

    /// The same with the grace that the builder set. Where it set none, no clock is asked and
    /// nothing times out.
    pub fn shutdown_configured<T: Clock>(self, clock: &mut T) -> Result<(), K::Error>
        ensures { ShutsConfigured K.showing.timed_out self.grace (T.moments clock.old)
            (T.moments clock.new) result }
    {
        match self.grace {
            Some(grace) => self.shutdown_with_timeout(clock, grace),
            None => {
                let SupervisorHandle {
                    handle,
                    mut closing,
                    ..
                } = self;
                closing.close();
                let _done = handle.join();
                Ok(())
            }
        }
    }
}

/// Whether the second moment is more than the grace after the first.
fn is_late(started: i64, ended: i64, grace: Duration) -> bool
    ensures { result ≡ spec_is_late grace started ended }
{
    let taken = i128::from(ended) - i128::from(started);
    taken > 0 && taken as u128 * 1_000_000_000 > grace.as_nanos()
}

/// The result of a shutdown by its two moments.
fn shut<K: Shows>(started: Option<i64>, ended: Option<i64>, grace: Duration) -> Result<(), K::Error>
    ensures { Shuts K.showing.timed_out grace started ended result }
{
    match (started, ended) {
        (Some(started), Some(ended)) if is_late(started, ended, grace) => {
            Err(K::timed_out(started, ended))
        }
        _ => Ok(()),
    }
}

impl<K: Shows, J: Supervises<K>, H: Joins<J> + Drop> SupervisorHandle<K, J, H> {
    /// Closes the source, waits for the supervisor, and returns its record: what the pass of the
    /// same source has then seen is exactly the steps of the record, and it never sees more.
    pub fn join_record(self, pass: &mut Pass<K>) -> Result<J::Record, OutOfMemory>
        requires { pass.old.book ≡ J.board self.job }
        ensures record { IfOk result (J.is_of self.job) }
        ensures kept { IfOk result J.is_record }
        ensures settled { IfOk result (λ r. (J.steps r ≡ steps_of pass.new.seen)
            × (is_ended pass.new.seen ≡ true)) }
        ensures book { pass.new.book ≡ pass.old.book }
        ensures seen { IsPrefix pass.old.seen pass.new.seen }
    {
        J::into_record(self.close_and_join(), pass)
    }
}
