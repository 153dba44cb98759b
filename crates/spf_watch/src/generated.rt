//! Generated sessions: streams of updates of any length, the same for the same seed.

ghost use Rattle.std.specs.Prelude.{◌≡◌, ℕ, ◌+◌, ◌<◌, ◌++◌, ◌%◌, [], IfOk, OnOk, OnErr, pos};
ghost use Rattle.spf_watch.specs.MadeSession.{roots_of, client_frames, denial_frame, end_frame};
ghost use Rattle.spf_watch.specs.MadeSession.{frames_by};
ghost use Rattle.spf_watch.specs.MadeSession.{generation_by, item_frame, leaf_spec};
ghost use Rattle.spf_watch.specs.MadeSession.{made_session, ordered, root_spec};
ghost use Rattle.spf_watch.specs.MadeSession.{intermediate_spec};
ghost use Rattle.spf_watch.specs.GeneratedParts.{AreParts, IsExpiry, Yields, IsWorkload};
ghost use Rattle.spf_watch.specs.declared.generated.Variant.TheVariants as variants;
ghost use Rattle.spf_watch.specs.Template.{IsTemplate, dated};
ghost use Rattle.spf_watch.specs.MadeSession as spec;

use crate::arguments::MakeArguments;
use crate::template::Template;
use spf_api::{BundleEntry, ContextResponse, Response, SvidEntry, write_payload};
use spf_der::{CertSpec, KeyUsageBits, write_key, write_time};
use spf_feed::frame_kind;
use spf_io::{Bytes, List, OutOfMemory, Text};
use std::alloc::Global;
use std::marker::Model;

/// When the certificates of the first item expire, in Unix
/// seconds; each new generation expires a second later.
const FIRST_EXPIRY: i64 = 2_000_000_000;

/// The offsets of notAfter in the certificates of authorities, intermediates and workloads.
const ROOT_EXPIRY_OFFSET: usize = 33;

const INTERMEDIATE_EXPIRY_OFFSET: usize = 38;

const LEAF_EXPIRY_OFFSET: usize = 39;

/// The moment frame before the first item.
const MOMENT: &[u8] = b"\x08\x00\x00\x00\x08\x00\x00\x00\x00\x00\x00\x03\xe8";

const CLIENT_MADE_AND_CONNECTED: &[u8] = b"\x01\x00\x00\x00\x00\x03\x00\x00\x00\x00";

const DENIED: &[u8] = b"\x06\x00\x00\x00\x07\x07\x00\x00\x00\x02no";

const STREAM_END: &[u8] = b"\x07\x00\x00\x00\x00";

const CLOSE: &[u8] = b"\x09\x00\x00\x00\x00";

const BAD_KEY: &[u8] = b"\x00";

/// Room for a chain or a bundle.
const PAIR_ROOM: usize = 512;

/// How an item differs from the plain one.
#[derive(Clone, Copy)]
pub(crate) enum Variant {
    Plain,
    Reordered,
    BadKey,
}

/// One identity of the session: its text, its leaf, and its key.
#[derive(Drop)]
struct Workload {
    identity: Text,
    leaf: Template,
    key: Vec<u8>,
}

/// What the items of all generations are put together from.
#[derive(Drop)]
struct Parts {
    first: Workload,
    second: Workload,
    third: Workload,
    intermediate: Template,
    root_a: Template,
    root_b: Template,
    foreign_root: Template,
}

fn spec(serial: u8, key_usage: Option<KeyUsageBits>, ca: Option<bool>, uris: Vec<Text>) -> CertSpec
    ensures { result ≡ record {
      serial = serial;
      expiry = pos 2000000000;
      key_usage = key_usage;
      ca = ca;
      uris = uris.items;
    } }
{
    CertSpec {
        serial,
        expiry: FIRST_EXPIRY,
        key_usage,
        ca,
        uris: List::new(uris),
    }
}

fn root(alloc: Global, serial: u8) -> Result<Template, OutOfMemory>
    ensures { IfOk result (IsTemplate (root_spec serial 0)) }
{
    Template::new(
        alloc,
        &spec(serial, None, None, Vec::new(alloc)),
        ROOT_EXPIRY_OFFSET,
    )
}

fn intermediate(alloc: Global) -> Result<Template, OutOfMemory>
    ensures { IfOk result (IsTemplate (intermediate_spec 0)) }
{
    let usage = KeyUsageBits {
        digital_signature: false,
        key_cert_sign: true,
        crl_sign: false,
    };
    let spec = spec(20, Some(usage), Some(true), Vec::new(alloc));
    Template::new(alloc, &spec, INTERMEDIATE_EXPIRY_OFFSET)
}

fn leaf(alloc: Global, serial: u8, identity: &str) -> Result<Template, OutOfMemory>
    ensures { (index : ℕ) → serial ≡ 1 + index → identity.now ≡ spec.identity index
        → IfOk result (IsTemplate (leaf_spec index 0)) }
{
    let usage = KeyUsageBits {
        digital_signature: true,
        key_cert_sign: false,
        crl_sign: false,
    };
    let mut uris = Vec::new(alloc);
    uris.push(Text::copy_of(alloc, identity)?)?;
    let spec = spec(serial, Some(usage), Some(false), uris);
    Template::new(alloc, &spec, LEAF_EXPIRY_OFFSET)
}

fn make_workload(alloc: Global, serial: u8, identity: &str) -> Result<Workload, OutOfMemory>
    ensures { (index : ℕ) → serial ≡ 1 + index → identity.now ≡ spec.identity index
        → IfOk result (IsWorkload index) }
{
    Ok(Workload {
        identity: Text::copy_of(alloc, identity)?,
        leaf: leaf(alloc, serial, identity)?,
        key: write_key(alloc, serial)?,
    })
}

fn make_parts(alloc: Global) -> Result<Parts, OutOfMemory>
    ensures { IfOk result AreParts }
{
    Ok(Parts {
        first: make_workload(alloc, 1, "spiffe://example.org/w0")?,
        second: make_workload(alloc, 2, "spiffe://example.org/w1")?,
        third: make_workload(alloc, 3, "spiffe://example.org/w2")?,
        intermediate: intermediate(alloc)?,
        root_a: root(alloc, 10)?,
        root_b: root(alloc, 11)?,
        foreign_root: root(alloc, 12)?,
    })
}

/// The expiry of a generation as a UTCTime; all generations expire on one day.
fn expiry_time(alloc: Global, generation: u16) -> Result<Vec<u8>, OutOfMemory>
    ensures { IfOk result (λ v. IsExpiry generation v.items) }
{
    write_time(alloc, FIRST_EXPIRY + i64::from(generation))
}

/// Two certificates with this notAfter, one after the other.
fn pair(
    alloc: Global,
    first: &Template,
    second: &Template,
    expiry: &[u8],
) -> Result<Bytes, OutOfMemory>
    ensures { IfOk result (λ b. b ≡ dated first.now expiry.now ++ dated second.now expiry.now) }
{
    let mut octets = Vec::with_capacity(alloc, PAIR_ROOM)?;
    first.push(expiry, &mut octets)?;
    second.push(expiry, &mut octets)?;
    Ok(Bytes::new(octets))
}

/// The bundle of an item.
#[tactic(auto, using(crate::proofs::GeneratedLemmas::dated_root))]
fn bundle(
    alloc: Global,
    parts: &Parts,
    variant: Variant,
    expiry: &[u8],
) -> Result<Bytes, OutOfMemory>
    ensures { AreParts parts.now → (generation : ℕ) → IsExpiry generation expiry.now
        → IfOk result (λ b. b ≡ roots_of variant generation) }
{
    match variant {
        Variant::Reordered => pair(alloc, &parts.root_b, &parts.root_a, expiry),
        Variant::Plain | Variant::BadKey => pair(alloc, &parts.root_a, &parts.root_b, expiry),
    }
}

/// The entry of a workload.
fn entry(
    alloc: Global,
    workload: &Workload,
    intermediate: &Template,
    expiry: &[u8],
    key: &[u8],
    bundle: &[u8],
) -> Result<SvidEntry, OutOfMemory>
    ensures { IfOk result (λ e. e ≡ record {
      spiffe_id = workload.now.identity;
      x509_svid = dated workload.now.leaf expiry.now ++ dated intermediate.now expiry.now;
      x509_svid_key = key.now;
      bundle = bundle.now;
      hint = [];
    }) }
{
    Ok(SvidEntry {
        spiffe_id: workload.identity.try_clone(alloc)?,
        x509_svid: pair(alloc, &workload.leaf, intermediate, expiry)?,
        x509_svid_key: Bytes::copy_of(alloc, key)?,
        bundle: Bytes::copy_of(alloc, bundle)?,
        hint: Text::new(String::new(alloc)),
    })
}

/// The key of the first entry of an item.
fn first_key(parts: &Parts, variant: Variant) -> &[u8]
    ensures { AreParts parts.now → result.now ≡ spec.first_key variant }
{
    match variant {
        Variant::BadKey => BAD_KEY,
        Variant::Plain | Variant::Reordered => parts.first.key.as_slice(),
    }
}

/// Three entries in the order of an item.
fn in_order(
    alloc: Global,
    variant: Variant,
    first: SvidEntry,
    second: SvidEntry,
    third: SvidEntry,
) -> Result<Vec<SvidEntry>, OutOfMemory>
    ensures { IfOk result (λ v. v.items ≡ ordered variant first second third) }
{
    let entries = match variant {
        Variant::Reordered => vec![in alloc; first, third, second]?,
        Variant::Plain | Variant::BadKey => vec![in alloc; first, second, third]?,
    };
    Ok(entries)
}

fn entries(
    alloc: Global,
    parts: &Parts,
    variant: Variant,
    expiry: &[u8],
) -> Result<Vec<SvidEntry>, OutOfMemory>
    ensures { AreParts parts.now → (generation : ℕ) → IsExpiry generation expiry.now
        → IfOk result (λ v. v.items ≡ spec.entries variant generation) }
{
    let bundle = bundle(alloc, parts, variant, expiry)?;
    let bundle = bundle.as_slice();
    let first_key = first_key(parts, variant);
    let second_key = parts.second.key.as_slice();
    let third_key = parts.third.key.as_slice();
    let first = entry(
        alloc,
        &parts.first,
        &parts.intermediate,
        expiry,
        first_key,
        bundle,
    )?;
    let second = entry(
        alloc,
        &parts.second,
        &parts.intermediate,
        expiry,
        second_key,
        bundle,
    )?;
    let third = entry(
        alloc,
        &parts.third,
        &parts.intermediate,
        expiry,
        third_key,
        bundle,
    )?;
    in_order(alloc, variant, first, second, third)
}

#[tactic(auto, using(crate::proofs::GeneratedLemmas::dated_root))]
fn item(
    alloc: Global,
    parts: &Parts,
    variant: Variant,
    generation: u16,
) -> Result<ContextResponse, OutOfMemory>
    ensures { AreParts parts.now → IfOk result (λ r. r ≡ spec.item variant generation) }
{
    let expiry = expiry_time(alloc, generation)?;
    let svids = entries(alloc, parts, variant, expiry.as_slice())?;
    let mut foreign_root = Vec::new(alloc);
    parts
        .foreign_root
        .push(expiry.as_slice(), &mut foreign_root)?;
    let entry = BundleEntry {
        name: Text::copy_of(alloc, "other.org")?,
        bundle: Bytes::new(foreign_root),
    };
    Ok(ContextResponse {
        svids: List::new(svids),
        federated: List::new(vec![in alloc; entry]?),
        crls: List::new(Vec::new(alloc)),
    })
}

/// Appends the frame of an item.
fn push_item(
    alloc: Global,
    parts: &Parts,
    variant: Variant,
    generation: u16,
    frames: &mut Vec<u8>,
) -> Result<(), OutOfMemory>
    ensures { AreParts parts.now
        → OnOk result (frames.new.items ≡ frames.old.items ++ item_frame variant generation) }
{
    let item = item(alloc, parts, variant, generation)?;
    let payload = write_payload(alloc, &Response::Context(item))?;
    let Ok(length) = u32::try_from(payload.len()) else {
        return Err(OutOfMemory);
    };
    frames.push(frame_kind::ITEM)?;
    frames.extend_from_slice(&length.to_be_bytes())?;
    frames.extend_from_slice(payload.as_slice())?;
    Ok(())
}

/// Appends a frame, and the frames of a new client.
fn push_ended(frame: &[u8], frames: &mut Vec<u8>) -> Result<(), OutOfMemory>
    ensures { OnOk result (frames.new.items ≡ frames.old.items ++ (frame.now ++ client_frames)) }
{
    frames.extend_from_slice(frame)?;
    frames.extend_from_slice(CLIENT_MADE_AND_CONNECTED)?;
    Ok(())
}

/// Appends the frame of an item, and the frames of a new client.
fn push_item_and_client(
    alloc: Global,
    parts: &Parts,
    variant: Variant,
    generation: u16,
    frames: &mut Vec<u8>,
) -> Result<(), OutOfMemory>
    ensures { AreParts parts.now
        → OnOk result
        (frames.new.items
        ≡ frames.old.items ++ (item_frame variant generation ++ client_frames)) }
{
    push_item(alloc, parts, variant, generation, frames)?;
    frames.extend_from_slice(CLIENT_MADE_AND_CONNECTED)?;
    Ok(())
}

/// Appends the frames of a denial.
#[tactic(auto, using(crate::proofs::GeneratedLemmas::denial_is))]
fn push_denial(frames: &mut Vec<u8>) -> Result<(), OutOfMemory>
    ensures { OnOk result
        (frames.new.items ≡ frames.old.items ++ (denial_frame ++ client_frames)) }
{
    push_ended(DENIED, frames)
}

/// Appends the frames of the end of a stream.
#[tactic(auto, using(crate::proofs::GeneratedLemmas::end_is))]
fn push_stream_end(frames: &mut Vec<u8>) -> Result<(), OutOfMemory>
    ensures { OnOk result (frames.new.items ≡ frames.old.items ++ (end_frame ++ client_frames)) }
{
    push_ended(STREAM_END, frames)
}

/// Appends the frames of an operation, by a choice from 0 to 7 and the generation after it.
#[tactic(auto, unfolding(crate::specs::MadeSession::frames_by))]
fn push_operation(
    alloc: Global,
    parts: &Parts,
    choice: u32,
    generation: u16,
    frames: &mut Vec<u8>,
) -> Result<(), OutOfMemory>
    ensures { AreParts parts.now
        → OnOk result (frames.new.items ≡ frames.old.items ++ frames_by choice generation) }
{
    match choice {
        0..=3 => push_item(alloc, parts, Variant::Plain, generation, frames),
        4 => push_item(alloc, parts, Variant::Reordered, generation, frames),
        5 => push_denial(frames),
        6 => push_stream_end(frames),
        _ => push_item_and_client(alloc, parts, Variant::BadKey, generation, frames),
    }
}

/// A session that is generated. Contracts see it as the frames that are to come.
#[derive(Drop)]
pub(crate) struct GeneratedSession {
    alloc: Global,
    parts: Parts,
    /// How many operations come before the close; `None` after the close.
    left: Option<u16>,
    seed: u32,
    generation: u16,
}

impl Model for GeneratedSession {
    ghost use Rattle.std.specs.Prelude.{List, ℕ, ◌<◌};
    ghost use Rattle.spf_watch.specs.MadeSession.{frames_left};
    ghost use Rattle.spf_watch.specs.GeneratedParts.{AreParts, HasRoom};

    ghost Value = { List ℕ };

    ghost view = { λ s. frames_left s.left s.seed s.generation };

    ghost invariant = { λ s. AreParts s.parts × (s.seed < 65537) × HasRoom s.left s.generation };
}

impl GeneratedSession {
    /// Replaces `frames` by the opening of the session.
    pub(crate) fn open(
        alloc: Global,
        arguments: MakeArguments,
        frames: &mut Vec<u8>,
    ) -> Result<GeneratedSession, OutOfMemory>
        ensures { IfOk result (λ s. made_session arguments ≡ frames.new.items ++ s) }
    {
        frames.clear();
        frames.extend_from_slice(MOMENT)?;
        frames.extend_from_slice(CLIENT_MADE_AND_CONNECTED)?;
        let parts = make_parts(alloc)?;
        match push_item_and_client(alloc, &parts, Variant::Plain, 0, frames) {
            Ok(()) => Ok(GeneratedSession {
                alloc,
                parts,
                left: Some(arguments.operations),
                seed: u32::from(arguments.seed),
                generation: 0,
            }),
            Err(e) => {
                drop(parts);
                Err(e)
            }
        }
    }

    /// Replaces `frames` by those of the next operation, or by
    /// the close. Returns `false` where nothing is to come.
    pub(crate) fn next(&mut self, frames: &mut Vec<u8>) -> Result<bool, OutOfMemory>
        ensures frames { IfOk result (λ more. Yields more self.old self.new frames.new.items) }
        ensures kept { OnErr result (self.new ≡ self.old) }
    {
        frames.clear();
        let Some(left) = self.left else {
            return Ok(false);
        };
        if left == 0 {
            frames.extend_from_slice(CLOSE)?;
            self.left = None;
            return Ok(true);
        }
        let seed = (75 * self.seed + 74) % 65537;
        let generation = generation_after(seed, self.generation);
        push_operation(self.alloc, &self.parts, seed % 8, generation, frames)?;
        self.left = Some(left - 1);
        self.seed = seed;
        self.generation = generation;
        Ok(true)
    }
}

/// The generation after an operation: four of eight seeds raise it.
fn generation_after(seed: u32, generation: u16) -> u16
    requires { generation < 65535 }
    ensures { result ≡ generation_by seed generation }
{
    if seed % 8 < 4 {
        generation + 1
    } else {
        generation
    }
}
