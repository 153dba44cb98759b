//! How a handle closes its source.

ghost use Rattle.std.specs.Prelude.{◌≡◌, IfOk};
ghost use Rattle.spf_system.specs.declared.maker.Maker.TheVariants as makers;

use crate::bell::Bell;
use crate::cell::Closer;
use crate::stop_flag::StopFlag;
use spf_io::OutOfMemory;
use std::alloc::Global;
use std::marker::Model;

/// Closes a source in the name of a caller, ends the waits of its supervisor, and wakes those who
/// wait for a change.
#[derive(Drop)]
pub struct Closing {
    closer: Closer,
    stop: StopFlag,
    bell: Bell,
}

impl Model for Closing {
    ghost use Rattle.std.specs.Prelude.{◌≡◌, ℕ};
    ghost use Rattle.spf_system.specs.declared.maker.Maker.TheVariants as makers;

    ghost Value = { ℕ };

    ghost view = { λ c. c.closer.cell };

    ghost invariant = { λ c. c.closer.maker ≡ makers.Caller };
}

impl Closing {
    /// Makes a closing of a caller's closer, the flag that stops waits, and the bell to ring.
    pub fn new(closer: Closer, stop: StopFlag, bell: Bell) -> Closing
        requires { closer.maker ≡ makers.Caller }
        ensures { result ≡ closer.cell }
    {
        Closing { closer, stop, bell }
    }

    pub fn close(&mut self)
        ensures { self.new ≡ self.old }
    {
        self.closer.close();
        self.stop.set();
        self.bell.ring();
    }

    /// Returns the bell that it rings.
    pub fn bell(&self) -> Result<Bell, OutOfMemory> {
        self.bell.try_clone()
    }

    pub fn another(&mut self, alloc: Global) -> Result<Closing, OutOfMemory>
        ensures unchanged { self.new ≡ self.old }
        ensures same { IfOk result (λ c. c ≡ self.old) }
    {
        Ok(Closing {
            closer: self.closer.another(alloc)?,
            stop: self.stop.try_clone()?,
            bell: self.bell.try_clone()?,
        })
    }
}

/// What closes the source of the closer.
pub fn closing_of(
    alloc: Global,
    closer: &mut Closer,
    stop: &StopFlag,
    bell: &Bell,
) -> Result<Closing, OutOfMemory>
    requires { closer.old.maker ≡ makers.Caller }
    ensures unchanged { closer.new ≡ closer.old }
    ensures closing { IfOk result (λ c. c ≡ closer.old.cell) }
{
    let another = closer.another(alloc)?;
    let stop = stop.try_clone()?;
    let bell = bell.try_clone()?;
    Ok(Closing::new(another, stop, bell))
}

/// Closes a source once no handle of it is left.
pub struct LastHandle {
    closing: Closing,
}

impl LastHandle {
    pub fn new(closing: Closing) -> LastHandle {
        LastHandle { closing }
    }
}

impl Drop for LastHandle {
    fn drop(self) {
        let LastHandle { mut closing } = self;
        closing.close();
    }
}
