//! A value that several owners share.

ghost use Rattle.std.specs.Prelude.{◌≡◌, IfOk};

use spf_io::OutOfMemory;
use std::alloc::Global;
use std::cmp::Ordering;
use std::fmt;
use std::hash::{Hash, Hasher};
use std::marker::Model;
use std::sync::Arc;

/// A value that clones share, which contracts see as the value. It compares as the value does.
#[derive(Drop)]
pub struct Shared<T> {
    value: Arc<T>,
}

impl<T> Model for Shared<T> {
    ghost use Rattle.std.specs.Arc.{arc_value};

    ghost Value = { T };

    ghost coded = { T.code };

    ghost view = { λ s. arc_value s.value };
}

impl<T> Shared<T> {
    /// The value, which is dropped where memory runs out.
    pub fn new(alloc: Global, value: T) -> Result<Shared<T>, OutOfMemory>
    where
        T: Drop,
        ensures { IfOk result (λ s. s ≡ value) }
    {
        let value = Arc::new(alloc, value)?;
        Ok(Shared { value })
    }

    pub fn get(&self) -> &T
        ensures { result.now ≡ self.now }
    {
        &self.value
    }

    /// A further owner of the value.
    pub fn try_clone(&self) -> Result<Shared<T>, OutOfMemory>
        ensures { IfOk result (λ s. s ≡ self.now) }
    {
        let value = Arc::try_clone(&self.value)?;
        Ok(Shared { value })
    }
}

impl<T: PartialEq> PartialEq for Shared<T> {
    ghost eq = { T.eq };

    ghost laws = { T.laws };

    fn eq(&self, other: &Shared<T>) -> bool {
        *self.value == *other.value
    }
}

impl<T: Eq> Eq for Shared<T> {
    ghost laws = { T.Eq.laws };
}

impl<T: PartialOrd> PartialOrd for Shared<T> {
    ghost partial_cmp = { T.partial_cmp };

    ghost laws = { T.PartialOrd.laws };

    fn partial_cmp(&self, other: &Shared<T>) -> Option<Ordering> {
        self.get().partial_cmp(other.get())
    }
}

impl<T: Ord> Ord for Shared<T> {
    ghost cmp = { T.cmp };

    ghost total = { T.total };

    ghost matches_partial_cmp = { T.matches_partial_cmp };

    ghost matches_eq = { T.matches_eq };

    fn cmp(&self, other: &Shared<T>) -> Ordering {
        self.get().cmp(other.get())
    }
}

impl<T: Hash> Hash for Shared<T> {
    ghost use Rattle.std.specs.Cmp.Rules.{hashing};
    ghost use Rattle.std.proofs.Common.{rules};

    ghost hash_input = { T.hash_input };

    ghost respects_eq = { Prim.search (hashing, rules) };

    fn hash<H: Hasher>(&self, state: &mut H) {
        self.get().hash(state);
    }
}

impl<T: fmt::Debug> fmt::Debug for Shared<T> {
    fn fmt<W: fmt::Write>(&self, f: &mut fmt::Formatter<W>) -> fmt::Result {
        fmt::Debug::fmt(self.get(), f)
    }
}
