//! Writing an entry.

ghost use Rattle.std.specs.Prelude.{◌≡◌, ◌++◌, ℕ, List as Members, Some, IfOk, OnOk};
ghost use Rattle.spf_disk.specs.Format.{number_text, field_text, list_text, entry_text, entry_at};
ghost use Rattle.spf_disk.specs.Format.{IsListOf, IsEntry, IsGeneration, HasLength64};

use crate::generation::{AuthorityList, Entry, Generation};
use spf_io::{Bytes, OutOfMemory};
use std::alloc::Global;

#[tactic(auto, unfolding(crate::specs::Format::number_text))]
fn put_number(out: &mut Vec<u8>, number: u64) -> Result<(), OutOfMemory>
    ensures { OnOk result (out.new.items ≡ out.old.items ++ number_text number) }
{
    out.extend_from_slice(&number.to_be_bytes())?;
    Ok(())
}

#[tactic(auto, unfolding(crate::specs::Format::field_text))]
fn put_field(out: &mut Vec<u8>, octets: &[u8]) -> Result<(), OutOfMemory>
    ensures short { HasLength64 octets.now }
    ensures octets { OnOk result (out.new.items ≡ out.old.items ++ field_text octets.now) }
{
    put_number(out, octets.len() as u64)?;
    out.extend_from_slice(octets)?;
    Ok(())
}

/// A member of a list.
trait PutMember {
    ghost text: { Self → Members ℕ };

    ghost fits: { Self → Type 0 };

    fn put(&self, out: &mut Vec<u8>) -> Result<(), OutOfMemory>
        ensures fits { OnOk result (fits self.now) }
        ensures octets { OnOk result (out.new.items ≡ out.old.items ++ text self.now) };
}

impl PutMember for Bytes {
    ghost use Rattle.spf_disk.specs.Format.{HasLength64, field_text};

    ghost text = { field_text };

    ghost fits = { λ b. HasLength64 b };

    fn put(&self, out: &mut Vec<u8>) -> Result<(), OutOfMemory> {
        put_field(out, self.as_slice())
    }
}

impl PutMember for AuthorityList {
    ghost use Rattle.spf_disk.specs.Format.{IsAuthorities, authorities_text};

    ghost text = { authorities_text };

    ghost fits = { IsAuthorities };

    #[tactic(auto, unfolding(crate::specs::Format::authorities_text))]
    fn put(&self, out: &mut Vec<u8>) -> Result<(), OutOfMemory> {
        put_field(out, self.name.as_str().as_bytes())?;
        put_list(out, self.certificates.as_slice())
    }
}

#[tactic(auto, unfolding(crate::specs::Format::list_text))]
fn put_list<M: PutMember>(out: &mut Vec<u8>, members: &[M]) -> Result<(), OutOfMemory>
    ensures fits { OnOk result (IsListOf M.fits members.now) }
    ensures octets { OnOk result (out.new.items ≡ out.old.items ++ list_text M.text members.now) }
{
    put_number(out, members.len() as u64)?;
    for member in members {
        member.put(out)?;
    }
    Ok(())
}

#[tactic(auto, unfolding(crate::specs::Format::entry_text))]
fn put_generation(out: &mut Vec<u8>, generation: &Generation) -> Result<(), OutOfMemory>
    ensures fits { OnOk result (IsGeneration generation.now) }
    ensures octets { OnOk result (out.new.items
        ≡ out.old.items ++ entry_text (Entry.Accepted generation.now)) }
{
    put_number(out, generation.number)?;
    out.push(1)?;
    put_field(out, generation.chain.as_slice())?;
    put_field(out, generation.key.as_slice())?;
    put_list(out, generation.authorities.as_slice())
}

#[tactic(auto, unfolding(crate::specs::Format::entry_text))]
fn put_entry(out: &mut Vec<u8>, entry: &Entry) -> Result<(), OutOfMemory>
    ensures fits { OnOk result (IsEntry entry.now) }
    ensures octets { OnOk result (out.new.items ≡ out.old.items ++ entry_text entry.now) }
{
    match entry {
        Entry::Withdrawn { number } => {
            put_number(out, *number)?;
            out.push(0)?;
            Ok(())
        }
        Entry::Accepted(generation) => put_generation(out, generation),
    }
}

/// Returns the bytes of an entry, which are read as that entry.
pub fn write_entry(alloc: Global, entry: &Entry) -> Result<Vec<u8>, OutOfMemory>
    ensures text { IfOk result (λ v. v.items ≡ entry_text entry.now) }
    ensures again { IfOk result (λ v. entry_at v.items ≡ Some entry.now) }
{
    let mut out = Vec::new(alloc);
    put_entry(&mut out, entry)?;
    Ok(out)
}
