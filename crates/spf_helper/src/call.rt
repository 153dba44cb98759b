//! A publisher over a disk for the time of one call, which keeps what the call began with.

ghost use Rattle.std.specs.Prelude.{◌≡◌, ℕ};
ghost use Rattle.spf_disk.specs.Image.{Image};
ghost use Rattle.spf_helper.specs.Keeping.{Beginning, IsKept};

use crate::publisher::HelperPublisher;
use spf_disk::Disk;
use spf_feed::{Publisher, Step};
use spf_io::OutOfMemory;
use std::marker::{Brand, Model, PhantomData};

/// What a call begins with, which only proofs see: each call picks it.
pub(crate) trait Origin {
    ghost begin: { Beginning };

    // What a crash from a moment on may have left by then.
    ghost past: { ℕ → Image → Type 0 };
}

impl Origin for Brand {
    ghost use Rattle.std.specs.Prelude.{⊤};
    ghost use Rattle.spf_helper.specs.Keeping.{no_beginning};

    ghost begin = { no_beginning };

    ghost past = { λ _ _. ⊤ };
}

/// The publisher of one call.
#[derive(Drop)]
pub(crate) struct CallPublisher<'a, D: Disk, N: Origin> {
    inner: HelperPublisher<'a, D>,
    of: PhantomData<N>,
}

impl<'a, D: Disk, N: Origin> Model for CallPublisher<'a, D, N> {
    ghost use Rattle.spf_helper.specs.Helping.{Helping};
    ghost use Rattle.spf_helper.specs.Keeping.{IsKept};

    ghost Value = { Helping D };

    ghost view = { λ p. p.inner };

    ghost invariant = { λ p. IsKept D.seen D.may_leave D.moment D.left_since D.failures N.begin
        N.past p.inner };
}

impl<'a, D: Disk, N: Origin> CallPublisher<'a, D, N> {
    pub(crate) fn new(inner: HelperPublisher<'a, D>) -> CallPublisher<'a, D, N>
        requires { IsKept D.seen D.may_leave D.moment D.left_since D.failures N.begin N.past
            inner }
        ensures { result ≡ inner.entry }
    {
        CallPublisher {
            inner,
            of: PhantomData,
        }
    }

    pub(crate) fn into_inner(self) -> HelperPublisher<'a, D>
        ensures same { result ≡ self.entry }
        ensures same_reference { result.disk.ghost_name ≡ N.begin.loan }
        ensures kept { IsKept D.seen D.may_leave D.moment D.left_since D.failures N.begin N.past
            result }
    {
        let CallPublisher { inner, .. } = self;
        inner
    }
}

impl<'a, D: Disk, N: Origin> Publisher for CallPublisher<'a, D, N> {
    ghost use Rattle.std.specs.Prelude.{Some};

    ghost steps = { λ p. Some p.steps };

    fn publish(&mut self, step: Step) -> Result<(), OutOfMemory> {
        self.inner.publish(step)
    }
}
