//! Jobs, what starts and joins them, and plain random words.

ghost use Rattle.std.specs.Prelude.{◌≡◌, ◌+◌};

use rand_core::Rng;
use spf_io::Failed;
use spf_system::{
    InlineSpawner, Job, Joins, RefusingSpawner, Running, Spawner, StepWords, start_thread,
};
use std::thread::Threads;

/// Adds two numbers.
#[derive(Drop)]
struct Sum {
    left: u32,
    right: u32,
}

impl Job for Sum {
    ghost use Rattle.std.specs.Prelude.{◌≡◌, ◌+◌};

    type Done = u64;

    ghost may_give = { λ j r. r ≡ j.left + j.right };

    fn run(self) -> u64 {
        u64::from(self.left) + u64::from(self.right)
    }
}

/// What a live source does with its spawner: the job leaves what it may leave.
fn sum_by<S: Spawner<Sum>>(spawner: &mut S, left: u32, right: u32) -> Result<u64, Failed> {
    let handle = spawner.start(Sum { left, right })?;
    Ok(handle.join())
}

#[derive(Drop)]
struct SumThreads<R: Threads + Drop> {
    rt: R,
    refusals: u64,
}

impl<R: Threads + Copy + Drop> Spawner<Sum> for SumThreads<R> {
    type Handle = Running<Sum, R>;

    ghost refusals = { λ s. s.refusals };

    fn start(&mut self, job: Sum) -> Result<Running<Sum, R>, Failed> {
        match start_thread(self.rt, job) {
            Ok(running) => Ok(running),
            Err(Failed) => {
                self.refusals = self.refusals.saturating_add(1);
                Err(Failed)
            }
        }
    }
}

#[test]
fn inline_job_runs_at_join(rt: HostRuntime) {
    assert_eq!(rt; sum_by(&mut InlineSpawner, 2, 3), Ok(5));
}

#[test]
fn refused_job_is_counted(rt: HostRuntime) {
    let mut spawner = RefusingSpawner::new();
    assert_eq!(rt; sum_by(&mut spawner, 2, 3), Err(Failed));
    assert_eq!(rt; sum_by(&mut spawner, 4, 5), Err(Failed));
    assert_eq!(rt; spawner.refusals(), 2);
}

#[test]
fn job_on_a_thread(rt: HostRuntime) {
    let mut spawner = SumThreads { rt, refusals: 0 };
    assert_eq!(rt; sum_by(&mut spawner, 2, 3), Ok(5));
}

/// The first words of Knuth's congruence, computed apart from this code.
#[test]
fn step_words(rt: HostRuntime) {
    let mut words = StepWords::new(0);
    assert_eq!(rt; words.next_u64(), 1_442_695_040_888_963_407);
    assert_eq!(rt; words.next_u64(), 1_876_011_003_808_476_466);
    assert_eq!(rt; words.next_u32(), 779_256_089);
    let mut bytes = [0; 3];
    StepWords::new(1).fill_bytes(&mut bytes);
    assert_eq!(rt; bytes, [124, 0, 253]);
}
