ghost use Rattle.std.specs.Prelude.{◌≡◌, IfOk};

use crate::memory::OutOfMemory;
use std::alloc::Global;
use std::cmp::Ordering;
use std::hash::{Hash, Hasher};
use std::marker::Model;

/// Bytes, which contracts see as their list.
#[derive(Debug, Drop)]
pub struct Bytes {
    bytes: Vec<u8>,
}

impl Model for Bytes {
    ghost use Rattle.std.specs.Prelude.{List, ℕ};

    ghost Value = { List ℕ };

    ghost view = { λ b. b.bytes.items };
}

impl Bytes {
    pub fn new(bytes: Vec<u8>) -> Bytes
        ensures { result ≡ bytes.items }
    {
        Bytes { bytes }
    }

    /// Returns a copy of the bytes.
    pub fn copy_of(alloc: Global, bytes: &[u8]) -> Result<Bytes, OutOfMemory>
        ensures { IfOk result (λ b. b ≡ bytes.now) }
    {
        let bytes = Vec::from_slice(alloc, bytes)?;
        Ok(Bytes { bytes })
    }

    pub fn as_slice(&self) -> &[u8]
        ensures { result.now ≡ self.now }
    {
        self.bytes.as_slice()
    }

    pub fn into_vec(self) -> Vec<u8>
        ensures { result.items ≡ self }
    {
        self.bytes
    }

    /// Returns a copy of the bytes.
    pub fn try_clone(&self, alloc: Global) -> Result<Bytes, OutOfMemory>
        ensures { IfOk result (λ b. b ≡ self.now) }
    {
        let bytes = Vec::from_slice(alloc, self.bytes.as_slice())?;
        Ok(Bytes { bytes })
    }
}

impl PartialEq for Bytes {
    ghost use Rattle.std.specs.Prelude.{nat_eq};
    ghost use Rattle.std.specs.Cmp.Lexicographic.{pointwise, nat_list_eq_equiv};
    ghost use Rattle.std.specs.Cmp as Cmp;

    ghost eq = { pointwise nat_eq };

    ghost laws = { Cmp.partial_equiv_from_equiv nat_list_eq_equiv };

    fn eq(&self, other: &Bytes) -> bool {
        self.bytes == other.bytes
    }
}

impl Eq for Bytes {
    ghost use Rattle.std.specs.Cmp.Lexicographic.{nat_list_eq_equiv};

    ghost laws = { nat_list_eq_equiv };
}

impl PartialOrd for Bytes {
    ghost use Rattle.std.specs.Prelude.{Some};
    ghost use Rattle.std.specs.Ordering.{nat_cmp};
    ghost use Rattle.std.specs.Cmp.Lexicographic.{slice_cmp, texts_po};

    ghost partial_cmp = { λ x y. Some (slice_cmp nat_cmp x y) };

    ghost laws = { texts_po };

    fn partial_cmp(&self, other: &Bytes) -> Option<Ordering> {
        Some(self.cmp(other))
    }
}

impl Ord for Bytes {
    ghost use Rattle.std.specs.Ordering.{nat_cmp};
    ghost use Rattle.std.specs.Cmp.Lexicographic.{slice_cmp, nat_list_cmp_total, texts_ties};
    ghost use Rattle.std.specs.Prelude.{refl};

    ghost cmp = { slice_cmp nat_cmp };

    ghost total = { nat_list_cmp_total };

    ghost matches_partial_cmp = { λ x y. refl };

    ghost matches_eq = { texts_ties };

    fn cmp(&self, other: &Bytes) -> Ordering {
        self.bytes.cmp(&other.bytes)
    }
}

impl Hash for Bytes {
    ghost use Rattle.std.specs.Hash as fed;
    ghost use Rattle.std.specs.Cmp.Rules.{hashing};
    ghost use Rattle.std.proofs.Common.{rules};

    ghost hash_input = { fed.slice fed.u8 };

    ghost respects_eq = { Prim.search (hashing, rules) };

    fn hash<H: Hasher>(&self, state: &mut H) {
        self.bytes.hash(state);
    }
}
