//! The lines that show a session.

ghost use Rattle.std.specs.Prelude.{◌≡◌, ◌≤◌, ◌++◌, OnOk, IfOk, decimal, vec_len};
ghost use Rattle.std.specs.List.{flat_map};
ghost use Rattle.hex.specs.Hex.{encode_lower};
ghost use Rattle.spf_io.specs.Outside.{HasCause, PutAppends};
ghost use Rattle.spf_view.specs.Views.{Waiting};
ghost use Rattle.spf_feed.specs.Lines.{withdrawn_text};
ghost use Rattle.spf_jwt_feed.specs.Shown.{key_text, keys_text, after_comma, entry_text};
ghost use Rattle.spf_jwt_feed.specs.Shown.{visible_text, view_line, shown_text};
ghost use Rattle.spf_jwt_feed.specs.Standing.{view_in};

use crate::snapshot::JwtSnapshot;
use crate::standing::Standing;
use itoa::Buffer;
use spf_feed::Denial;
use spf_id::TrustDomain;
use spf_io::{Failed, OutOfMemory, Sink};
use spf_jwt::{JwtAuthority, JwtAuthorityIter, JwtBundle, JwtBundleSet};
use std::alloc::Global;
use std::marker::Model;

/// How many octets are kept free before a line for its number: as many as a `u64` can take.
const NUMBER_ROOM: usize = 20;

/// Appends two digits for each octet.
fn push_hex(line: &mut Vec<u8>, octets: &[u8]) -> Result<(), OutOfMemory>
    ensures text { OnOk result (line.new.items ≡ line.old.items ++ encode_lower octets.now) }
    ensures grows { vec_len line.old ≤ vec_len line.new }
{
    let start = line.len();
    let Some(size) = octets.len().checked_mul(2) else {
        return Err(OutOfMemory);
    };
    let Some(end) = start.checked_add(size) else {
        return Err(OutOfMemory);
    };
    line.resize(end, 0)?;
    match hex::encode_to_slice(octets, &mut line[start..]) {
        Ok(()) => Ok(()),
        Err(_) => unreachable!(),
    }
}

/// Appends the ID of a key and its JSON text.
fn push_key(line: &mut Vec<u8>, key: &JwtAuthority) -> Result<(), OutOfMemory>
    ensures text { OnOk result (line.new.items ≡ line.old.items ++ key_text key.now) }
    ensures grows { vec_len line.old ≤ vec_len line.new }
{
    push_hex(line, key.key_id().as_bytes())?;
    line.push(b':')?;
    push_hex(line, key.jwk_json())
}

/// Appends each key with a comma before it.
fn push_others(line: &mut Vec<u8>, keys: JwtAuthorityIter<'_>) -> Result<(), OutOfMemory>
    ensures text { OnOk result
        (line.new.items ≡ line.old.items ++ flat_map after_comma keys.entry) }
    ensures grows { vec_len line.old ≤ vec_len line.new }
{
    for key in keys {
        line.push(b',')?;
        push_key(line, key)?;
    }
    Ok(())
}

/// Appends the keys in order, with commas between them.
fn push_keys(line: &mut Vec<u8>, bundle: &JwtBundle) -> Result<(), OutOfMemory>
    ensures text { OnOk result
        (line.new.items ≡ line.old.items ++ keys_text bundle.now.authorities) }
    ensures grows { vec_len line.old ≤ vec_len line.new }
{
    let mut keys = bundle.jwt_authorities();
    let Some(first) = keys.next() else {
        return Ok(());
    };
    push_key(line, first)?;
    push_others(line, keys)
}

/// Appends a trust domain and its keys.
fn push_bundle(
    line: &mut Vec<u8>,
    domain: &TrustDomain,
    bundle: &JwtBundle,
) -> Result<(), OutOfMemory>
    ensures text { OnOk result
        (line.new.items ≡ line.old.items ++ entry_text (domain.now, bundle.now)) }
    ensures grows { vec_len line.old ≤ vec_len line.new }
{
    line.push(b' ')?;
    line.extend_from_slice(domain.as_str().as_bytes())?;
    line.push(b'=')?;
    push_keys(line, bundle)
}

/// Appends, for each trust domain in order, its name and its keys.
fn push_bundles(line: &mut Vec<u8>, set: &JwtBundleSet) -> Result<(), OutOfMemory>
    ensures text { OnOk result (line.new.items ≡ line.old.items ++ flat_map entry_text set.now) }
    ensures grows { vec_len line.old ≤ vec_len line.new }
{
    for (domain, bundle) in set.iter() {
        push_bundle(line, domain, bundle)?;
    }
    Ok(())
}

fn push_withdrawn(line: &mut Vec<u8>, reason: &Denial) -> Result<(), OutOfMemory>
    ensures text { OnOk result (line.new.items ≡ line.old.items ++ withdrawn_text reason.now) }
    ensures grows { vec_len line.old ≤ vec_len line.new }
{
    match reason {
        Denial::NoIdentityIssued => line.extend_from_slice(b" withdrawn no_identity_issued")?,
        Denial::PermissionDenied(message) => {
            line.extend_from_slice(b" withdrawn permission_denied:")?;
            push_hex(line, message.as_str().as_bytes())?;
        }
    }
    Ok(())
}

/// Appends what is visible, which follows the revision.
fn push_visible(line: &mut Vec<u8>, standing: &Standing) -> Result<(), OutOfMemory>
    ensures text { OnOk result
        (line.new.items ≡ line.old.items ++ visible_text (view_in standing.now)) }
    ensures grows { vec_len line.old ≤ vec_len line.new }
{
    match standing {
        Standing::Permitted(set) => {
            line.extend_from_slice(b" permitted")?;
            push_bundles(line, set)
        }
        Standing::Withdrawn(reason) => push_withdrawn(line, reason),
    }
}

/// Appends the revision, what is visible, and a line feed.
#[tactic(auto, unfolding(crate::specs::Shown::view_line))]
fn push_view(line: &mut Vec<u8>, revision: u64, standing: &Standing) -> Result<(), OutOfMemory>
    ensures text { OnOk result
        (line.new.items ≡ line.old.items ++ view_line (view_in standing.now) revision) }
    ensures grows { vec_len line.old ≤ vec_len line.new }
{
    line.extend_from_slice(Buffer::new().format(revision).as_bytes())?;
    push_visible(line, standing)?;
    line.push(b'\n')?;
    Ok(())
}

/// The line of a session in one buffer, with room for its number before it. What it shows is
/// written anew only where that changes.
#[derive(Drop)]
pub(crate) struct NumberedLine {
    octets: Vec<u8>,
}

impl Model for NumberedLine {
    ghost use Rattle.std.specs.Prelude.{◌≤◌, drop, vec_len, List, ℕ};

    ghost Value = { List ℕ };

    ghost view = { λ l. drop 20 l.octets.items };

    ghost invariant = { λ l. 20 ≤ vec_len l.octets };
}

impl NumberedLine {
    /// The line before the first accepted item.
    #[tactic(auto, unfolding(crate::specs::Shown::view_line, crate::specs::Shown::shown_text))]
    pub(crate) fn new(alloc: Global) -> Result<NumberedLine, OutOfMemory>
        ensures text { IfOk result (λ l. l ≡ shown_text Waiting 0) }
    {
        let mut octets = vec![in alloc; b' '; NUMBER_ROOM]?;
        octets.extend_from_slice(b" waiting\n")?;
        Ok(NumberedLine { octets })
    }

    /// Writes the line of the snapshot anew.
    #[tactic(auto, unfolding(crate::specs::Shown::shown_text))]
    pub(crate) fn write(&mut self, snapshot: &JwtSnapshot) -> Result<(), OutOfMemory>
        ensures text { OnOk result
            (self.new ≡ shown_text snapshot.now.view snapshot.now.revision) }
    {
        self.octets.truncate(NUMBER_ROOM);
        self.octets.push(b' ')?;
        push_view(&mut self.octets, snapshot.revision(), snapshot.standing())?;
        Ok(())
    }

    /// Puts the line with this number, in one piece.
    pub(crate) fn put<K: Sink>(&mut self, sink: &mut K, number: u64) -> Result<(), Failed>
        ensures bytes { PutAppends (K.held sink.old) (K.held sink.new) result
            (decimal number ++ self.old) }
        ensures text { self.new ≡ self.old }
        ensures cause { HasCause (K.failures sink.old) (K.failures sink.new) result }
    {
        let start = itoa::write_digits(number, &mut self.octets, NUMBER_ROOM);
        sink.put(&self.octets[start..])
    }
}
