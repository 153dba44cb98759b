//! Reading an entry. A reader returns the value at the start of the bytes, and the bytes that
//! follow it. Memory grows with what is there, and not with a length or a count that is stated.

ghost use Rattle.std.specs.Prelude.{◌≡◌, ℕ, List as Members, Option, IfOk};
ghost use Rattle.std.specs.Option.{option_map};
ghost use Rattle.spf_disk.specs.Format.{number_at, field_at, text_at, list_at, entry_at};
ghost use Rattle.spf_disk.specs.Format.{generation_at, entry_of_kind};

use crate::generation::{AuthorityList, Entry, Generation};
use spf_io::{Bytes, List, OutOfMemory, Text};
use std::alloc::Global;

/// Reads a number, a length or a count: eight octets, big-endian.
#[tactic(auto, unfolding(crate::specs::Format::number_at))]
fn read_number(bytes: &[u8]) -> Option<(u64, &[u8])>
    ensures { option_map (λ x. (x.0, x.1.now)) result ≡ number_at bytes.now }
{
    match bytes {
        [a, b, c, d, e, f, g, h, rest @ ..] => {
            Some((u64::from_be_bytes([*a, *b, *c, *d, *e, *f, *g, *h]), rest))
        }
        _ => None,
    }
}

#[tactic(auto, unfolding(crate::specs::Format::field_at))]
fn read_field(bytes: &[u8]) -> Option<(&[u8], &[u8])>
    ensures { option_map (λ x. (x.0.now, x.1.now)) result ≡ field_at bytes.now }
{
    let (length, rest) = read_number(bytes)?;
    if (rest.len() as u64) < length {
        return None;
    }
    Some(rest.split_at(length as usize))
}

#[tactic(auto, unfolding(crate::specs::Format::text_at))]
fn read_text(bytes: &[u8]) -> Option<(&str, &[u8])>
    ensures { option_map (λ x. (x.0.now, x.1.now)) result ≡ text_at bytes.now }
{
    let (text, rest) = read_field(bytes)?;
    match str::from_utf8(text) {
        Ok(text) => Some((text, rest)),
        Err(_) => None,
    }
}

/// A member of a list.
trait ReadMember: Drop {
    ghost member_at: { Members ℕ → Option (Self × Members ℕ) };

    fn read(alloc: Global, bytes: &[u8]) -> Result<Option<(Self, &[u8])>, OutOfMemory>
        ensures { IfOk result (λ o. option_map (λ x. (x.0, x.1.now)) o ≡ member_at bytes.now) };
}

impl ReadMember for Bytes {
    ghost use Rattle.spf_disk.specs.Format.{field_at};

    ghost member_at = { field_at };

    fn read(alloc: Global, bytes: &[u8]) -> Result<Option<(Bytes, &[u8])>, OutOfMemory> {
        let Some((field, rest)) = read_field(bytes) else {
            return Ok(None);
        };
        Ok(Some((Bytes::copy_of(alloc, field)?, rest)))
    }
}

impl ReadMember for AuthorityList {
    ghost use Rattle.spf_disk.specs.Format.{authorities_at};

    ghost member_at = { authorities_at };

    #[tactic(auto, unfolding(crate::specs::Format::authorities_at))]
    fn read(alloc: Global, bytes: &[u8]) -> Result<Option<(AuthorityList, &[u8])>, OutOfMemory> {
        let Some((name, rest)) = read_text(bytes) else {
            return Ok(None);
        };
        let Some((certificates, rest)) = read_list::<Bytes>(alloc, rest)? else {
            return Ok(None);
        };
        let list = AuthorityList {
            name: Text::copy_of(alloc, name)?,
            certificates,
        };
        Ok(Some((list, rest)))
    }
}

fn read_list<M: ReadMember>(
    alloc: Global,
    bytes: &[u8],
) -> Result<Option<(List<M>, &[u8])>, OutOfMemory>
    ensures { IfOk result
        (λ o. option_map (λ x. (x.0, x.1.now)) o ≡ list_at M.member_at bytes.now) }
{
    let Some((count, mut rest)) = read_number(bytes) else {
        return Ok(None);
    };
    let mut members = Vec::new(alloc);
    'members: for _ in 0..count {
        let Some((member, after)) = M::read(alloc, rest)? else {
            return Ok(None);
        };
        members.push(member)?;
        rest = after;
    }
    Ok(Some((List::new(members), rest)))
}

#[tactic(auto, unfolding(crate::specs::Format::generation_at))]
fn read_accepted(
    alloc: Global,
    number: u64,
    bytes: &[u8],
) -> Result<Option<Generation>, OutOfMemory>
    ensures { IfOk result (λ o. o ≡ generation_at number bytes.now) }
{
    let Some((chain, rest)) = read_field(bytes) else {
        return Ok(None);
    };
    let Some((key, rest)) = read_field(rest) else {
        return Ok(None);
    };
    let Some((authorities, rest)) = read_list::<AuthorityList>(alloc, rest)? else {
        return Ok(None);
    };
    if !rest.is_empty() {
        return Ok(None);
    }
    Ok(Some(Generation {
        number,
        chain: Bytes::copy_of(alloc, chain)?,
        key: Bytes::copy_of(alloc, key)?,
        authorities,
    }))
}

fn read_kind(alloc: Global, number: u64, bytes: &[u8]) -> Result<Option<Entry>, OutOfMemory>
    ensures { IfOk result (λ o. o ≡ entry_of_kind number bytes.now) }
{
    match bytes {
        [0] => Ok(Some(Entry::Withdrawn { number })),
        [1, rest @ ..] => match read_accepted(alloc, number, rest)? {
            Some(generation) => Ok(Some(Entry::Accepted(generation))),
            None => Ok(None),
        },
        _ => Ok(None),
    }
}

/// Returns the entry that the bytes are, and None where they are not one.
#[tactic(auto, unfolding(crate::specs::Format::entry_at))]
pub fn read_entry(alloc: Global, bytes: &[u8]) -> Result<Option<Entry>, OutOfMemory>
    ensures { IfOk result (λ o. o ≡ entry_at bytes.now) }
{
    let Some((number, rest)) = read_number(bytes) else {
        return Ok(None);
    };
    read_kind(alloc, number, rest)
}
