//! The order of many texts.

use spf_io::{Bytes, OutOfMemory};
use spf_x509::sorted_texts;
use std::alloc::Global;

/// More texts than are sorted without buckets.
const COUNT: usize = 3000;

/// What the texts begin with, before one octet more: nothing, an octet, and
/// so much that texts of eight and of ten octets are compared past their leads.
const BEGINNINGS: &[&[u8]] = &[
    b"",
    b"\0",
    b"\xff",
    b"\x01\0\xff\0",
    b"seven--",
    b"\0and more",
];

/// Texts that begin alike and end with one octet, from 0 to 255 and from 0 again.
fn in_turn(alloc: Global, beginning: &[u8]) -> Result<Vec<Bytes>, OutOfMemory> {
    let mut texts = Vec::with_capacity(alloc, COUNT)?;
    for index in 0..COUNT {
        let mut octets = beginning.to_vec(alloc)?;
        octets.push((index % 256) as u8)?;
        texts.push(Bytes::new(octets))?;
    }
    Ok(texts)
}

/// Whether these are all indices, those of one octet after those of another.
fn are_by_octet(indices: &[usize]) -> bool {
    let mut wanted = 0usize;
    for index in indices {
        if *index != wanted {
            return false;
        }
        let next = wanted.wrapping_add(256);
        wanted = if next < COUNT { next } else { wanted % 256 + 1 };
    }
    indices.len() == COUNT
}

/// Whether the texts in turn are sorted by their octets.
fn is_sorted_by_octet(alloc: Global, beginning: &[u8]) -> Result<bool, OutOfMemory> {
    let texts = in_turn(alloc, beginning)?;
    let indices = sorted_texts(alloc, &texts)?;
    Ok(are_by_octet(&indices))
}

#[test]
fn many_texts(rt: HostRuntime) {
    for beginning in BEGINNINGS {
        let sorted = is_sorted_by_octet(rt.alloc(), beginning).expect(&rt, "memory");
        assert!(rt; sorted);
    }
}
