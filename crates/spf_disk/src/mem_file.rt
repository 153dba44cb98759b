//! A file in memory that may crash.

ghost use Rattle.std.specs.Prelude.{◌≡◌, ◌≤◌, ◌+◌, ◌<◌, ◌⊎◌, true, Some, IfOk, length};
ghost use Rattle.std.specs.Prelude.{slice_get};
ghost use Rattle.std.specs.Prelude.{replicate, ◌≢◌, ◌↔◌, IsTrue, []};
ghost use Rattle.spf_disk.specs.Image.{Written, Kept};
ghost use Rattle.spf_disk.specs.Memory.{IsUnsettled, IsFilled, longest};

use spf_io::OutOfMemory;
use std::alloc::Global;
use std::marker::Model;

/// The bytes, and for each position whether a crash leaves what is there.
#[derive(Debug, Drop)]
pub(crate) struct MemFile {
    bytes: Vec<u8>,
    settled: Vec<bool>,
}

impl Model for MemFile {
    ghost use Rattle.spf_disk.specs.Memory.{FileState};

    ghost Value = { FileState };

    ghost view = { λ f. record { bytes = f.bytes.items; settled = f.settled.items } };
}

/// The same settled positions, of `size` in all, but for those of the range.
fn unsettled(
    alloc: Global,
    settled: &[bool],
    from: usize,
    end: usize,
    size: usize,
) -> Result<Vec<bool>, OutOfMemory>
    ensures { IfOk result (λ v. IsUnsettled from end size settled.now v.items) }
{
    let mut left = Vec::new(alloc);
    for i in 0..size {
        left.push(stays(settled, i, from, end))?;
    }
    Ok(left)
}

/// Whether the position is settled, and not in the range.
fn stays(settled: &[bool], i: usize, from: usize, end: usize) -> bool
    ensures { IsTrue result
        ↔ ((slice_get settled.now i ≡ Some true) × ((i < from) ⊎ (end ≤ i))) }
{
    is_set(settled, i) && (i < from || i >= end)
}

fn is_set(settled: &[bool], i: usize) -> bool
    ensures { IsTrue result ↔ (slice_get settled.now i ≡ Some true) }
{
    match settled.get(i) {
        Some(set) => *set,
        None => false,
    }
}

impl MemFile {
    pub(crate) fn new(alloc: Global) -> MemFile
        ensures { result ≡ record { bytes = []; settled = [] } }
    {
        MemFile {
            bytes: Vec::new(alloc),
            settled: Vec::new(alloc),
        }
    }

    pub(crate) fn bytes(&self) -> &[u8]
        ensures { result.now ≡ self.now.bytes }
    {
        self.bytes.as_slice()
    }

    /// A file of which nothing is pending.
    pub(crate) fn holding(alloc: Global, bytes: Vec<u8>) -> Result<MemFile, OutOfMemory>
        ensures bytes { IfOk result (λ f. f.bytes ≡ bytes.items) }
        ensures settled { IfOk result
            (λ f. f.settled ≡ replicate (length f.bytes) true) }
    {
        let settled = vec![in alloc; true; bytes.len()]?;
        Ok(MemFile { bytes, settled })
    }

    fn longest(&self) -> usize
        ensures { result ≡ longest self.now }
    {
        self.bytes.len().max(self.settled.len())
    }

    /// The file after a write.
    pub(crate) fn written(
        &self,
        alloc: Global,
        at: usize,
        piece: &[u8],
    ) -> Result<MemFile, OutOfMemory>
        requires { at ≤ length self.now.bytes }
        ensures bytes { IfOk result (λ f. Written at piece.now self.now.bytes f.bytes) }
        ensures settled { IfOk result
            (λ f. IsUnsettled at (at + length piece.now) (longest self.now) self.now.settled
            f.settled) }
    {
        let mut bytes = self.bytes[..at].to_vec(alloc)?;
        bytes.extend_from_slice(piece)?;
        let end = bytes.len();
        if end < self.bytes.len() {
            bytes.extend_from_slice(&self.bytes[end..])?;
        }
        let settled = unsettled(alloc, self.settled.as_slice(), at, end, self.longest())?;
        Ok(MemFile { bytes, settled })
    }

    /// The file after a cut.
    pub(crate) fn kept(&self, alloc: Global, count: usize) -> Result<MemFile, OutOfMemory>
        requires { count ≤ length self.now.bytes }
        ensures bytes { IfOk result (λ f. Kept count self.now.bytes f.bytes) }
        ensures settled { IfOk result
            (λ f. IsUnsettled count (longest self.now) (longest self.now) self.now.settled
            f.settled) }
    {
        let bytes = self.bytes[..count].to_vec(alloc)?;
        let size = self.longest();
        let settled = unsettled(alloc, self.settled.as_slice(), count, size, size)?;
        Ok(MemFile { bytes, settled })
    }

    /// The file after a sync.
    pub(crate) fn synced(&self, alloc: Global) -> Result<MemFile, OutOfMemory>
        ensures { IfOk result (λ f. f ≡ record {
          bytes = self.now.bytes;
          settled = replicate (length self.now.bytes) true;
        }) }
    {
        let bytes = self.bytes.to_vec(alloc)?;
        let settled = vec![in alloc; true; bytes.len()]?;
        Ok(MemFile { bytes, settled })
    }

    /// The file after a crash, with `fill` wherever a crash may leave anything.
    pub(crate) fn filled(&self, alloc: Global, fill: u8) -> Result<MemFile, OutOfMemory>
        ensures filled { IfOk result (λ f. IsFilled fill self.now f.bytes) }
        ensures settled { IfOk result
            (λ f. f.settled ≡ replicate (length f.bytes) true) }
    {
        let bytes = filled(alloc, self.bytes.as_slice(), self.settled.as_slice(), fill)?;
        let settled = vec![in alloc; true; bytes.len()]?;
        Ok(MemFile { bytes, settled })
    }
}

fn filled(alloc: Global, bytes: &[u8], settled: &[bool], fill: u8) -> Result<Vec<u8>, OutOfMemory>
    ensures { IfOk result
        (λ v. IsFilled fill (record { bytes = bytes.now; settled = settled.now }) v.items) }
{
    let mut left = Vec::new(alloc);
    for i in 0..bytes.len().max(settled.len()) {
        left.push(octet_left(bytes, settled, i, fill))?;
    }
    Ok(left)
}

fn octet_left(bytes: &[u8], settled: &[bool], i: usize, fill: u8) -> u8
    ensures stays { slice_get settled.now i ≡ Some true → i < length bytes.now
        → Some result ≡ slice_get bytes.now i }
    ensures fills { (slice_get settled.now i ≢ Some true) ⊎ (length bytes.now ≤ i)
        → result ≡ fill }
{
    match bytes.get(i) {
        Some(octet) => if is_set(settled, i) { *octet } else { fill },
        None => fill,
    }
}
