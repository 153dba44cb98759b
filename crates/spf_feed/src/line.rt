//! The lines that show a session.

ghost use Rattle.std.specs.Prelude.{◌≡◌, ◌≤◌, ◌++◌, ◌∷◌, ℕ, ℤ, false, Bool, List, Option, None};
ghost use Rattle.std.specs.Prelude.{IsTrue, IfOk, OnOk, decimal, length};
ghost use Rattle.std.specs.List.{flat_map};
ghost use Rattle.std.specs.Option.{option_map};
ghost use Rattle.std.specs.Arc.{arc_value};
ghost use Rattle.std.specs.Ordering.{nat_cmp};
ghost use Rattle.std.specs.Cmp.Lexicographic.{slice_cmp};
ghost use Rattle.spf_io.specs.Outside.{HasCause, PutAppends};
ghost use Rattle.hex.specs.Hex.{encode_lower};
ghost use Rattle.spf_view.specs.Views.{Waiting};
ghost use Rattle.spf_view.specs.Standing.{shown_by};
ghost use Rattle.spf_x509.specs.Indices.{IsSortedIndices};
ghost use Rattle.spf_feed.specs.Lines.{after_comma, hex_list, shown_at, choice_text};
ghost use Rattle.spf_feed.specs.Lines.{withdrawn_text};
ghost use Rattle.spf_feed.specs.Shown.{entry_text, revocations_text, context_text, visible_text};
ghost use Rattle.spf_feed.specs.Shown.{view_line, shown_text};
ghost use Rattle.spf_feed.specs.Sorted.{AreIndexed, AreSorted, listed};
ghost use Rattle.spf_feed.specs.Standing.{view_in, IsKept};
ghost use Rattle.spf_feed.specs.Steps.{is_accept};
ghost use Rattle.spf_feed.specs.Numbered.{ShowsKept};

use crate::indices::Indices;
use crate::line_buffer::LineBuffer;
use crate::picker::usable;
use crate::prepared::Prepared;
use crate::snapshot::Snapshot;
use crate::sorted::{Orders, next_order};
use crate::standing::Standing;
use crate::state::X509SourceState;
use crate::step::Denial;
use itoa::Buffer;
use spf_id::TrustDomain;
use spf_io::{Bytes, Failed, OutOfMemory, Sink, Text};
use spf_x509::{Certificate, X509BundleSet, X509Context, X509Svid};
use std::alloc::Global;
use std::marker::Model;
use std::sync::Arc;

/// How many octets are kept free before a line for its number: as many as a `u64` can take.
const NUMBER_ROOM: usize = 20;

/// A value that is shown by its octets.
trait Octets {
    ghost shown: { Self → List ℕ };

    fn octets(&self) -> &[u8]
        ensures { result.now ≡ shown self.now };
}

impl Octets for Certificate {
    ghost shown = { λ c. c };

    fn octets(&self) -> &[u8] {
        self.as_bytes()
    }
}

impl Octets for Bytes {
    ghost shown = { λ b. b };

    fn octets(&self) -> &[u8] {
        self.as_slice()
    }
}

/// Appends each item with a comma before it.
fn push_others<T: Octets>(line: &mut LineBuffer, items: &[T]) -> Result<(), OutOfMemory>
    ensures text { OnOk result
        (line.new ≡ line.old ++ flat_map (λ x. after_comma (T.shown x)) items.now) }
    ensures grows { length line.old ≤ length line.new }
{
    for item in items {
        line.push(b',')?;
        line.push_hex(item.octets())?;
    }
    Ok(())
}

/// Appends the items in order, with commas between them.
fn push_list<T: Octets>(line: &mut LineBuffer, items: &[T]) -> Result<(), OutOfMemory>
    ensures text { OnOk result (line.new ≡ line.old ++ hex_list T.shown items.now) }
    ensures grows { length line.old ≤ length line.new }
{
    let Some((first, others)) = items.split_first() else {
        return Ok(());
    };
    line.push_hex(first.octets())?;
    push_others(line, others)?;
    Ok(())
}

fn push_at<T: Octets>(line: &mut LineBuffer, items: &[T], index: usize) -> Result<(), OutOfMemory>
    ensures text { OnOk result
        (line.new ≡ line.old ++ encode_lower (shown_at T.shown items.now index)) }
    ensures grows { length line.old ≤ length line.new }
{
    match items.get(index) {
        Some(item) => line.push_hex(item.octets()),
        None => Ok(()),
    }
}

/// Appends the items at the indices, each with a comma before it.
fn push_other_indices<T: Octets>(
    line: &mut LineBuffer,
    items: &[T],
    indices: &[usize],
) -> Result<(), OutOfMemory>
    ensures text { OnOk result
        (line.new
        ≡ line.old
        ++ flat_map (λ p. after_comma (shown_at T.shown items.now p)) indices.now) }
    ensures grows { length line.old ≤ length line.new }
{
    for index in indices {
        line.push(b',')?;
        push_at(line, items, *index)?;
    }
    Ok(())
}

/// Appends the items at the indices in order, with commas between them.
fn push_indices<T: Octets>(
    line: &mut LineBuffer,
    items: &[T],
    indices: &[usize],
) -> Result<(), OutOfMemory>
    ensures text { OnOk result
        (line.new ≡ line.old ++ hex_list (shown_at T.shown items.now) indices.now) }
    ensures grows { length line.old ≤ length line.new }
{
    let Some((first, others)) = indices.split_first() else {
        return Ok(());
    };
    push_at(line, items, *first)?;
    push_other_indices(line, items, others)?;
    Ok(())
}

/// Appends a trust domain, and its authorities at the indices.
fn push_bundle(
    line: &mut LineBuffer,
    domain: &TrustDomain,
    authorities: &[Certificate],
    order: &[usize],
) -> Result<(), OutOfMemory>
    ensures text { OnOk result
        (line.new
        ≡ line.old ++ 32 ∷ domain.now
        ++ 61 ∷ hex_list (shown_at (λ c. c) authorities.now) order.now) }
    ensures grows { length line.old ≤ length line.new }
{
    line.push(b' ')?;
    line.extend(domain.as_str().as_bytes())?;
    line.push(b'=')?;
    push_indices(line, authorities, order)?;
    Ok(())
}

/// Appends, for each trust domain in order, its name and its authorities, sorted.
fn push_bundles(
    line: &mut LineBuffer,
    set: &X509BundleSet,
    orders: &[Indices],
) -> Result<(), OutOfMemory>
    requires { AreIndexed set.now orders.now }
    ensures text { OnOk result (line.new ≡ line.old ++ flat_map entry_text set.now) }
    ensures grows { length line.old ≤ length line.new }
{
    let mut left = orders;
    for (domain, bundle) in set.iter() {
        let (order, rest) = next_order(left, bundle);
        push_bundle(line, domain, bundle.authorities(), order)?;
        left = rest;
    }
    Ok(())
}

/// Appends the revocation lists, sorted, where there is one.
fn push_crls(line: &mut LineBuffer, crls: &[Bytes], order: &[usize]) -> Result<(), OutOfMemory>
    requires { IsSortedIndices (slice_cmp nat_cmp) crls.now order.now }
    ensures text { OnOk result (line.new ≡ line.old ++ revocations_text crls.now) }
    ensures grows { length line.old ≤ length line.new }
{
    if crls.is_empty() {
        return Ok(());
    }
    line.extend(b" #")?;
    push_indices(line, crls, order)?;
    Ok(())
}

/// Appends the ID, the expiry and the chain of an SVID, or three dashes.
fn push_choice(line: &mut LineBuffer, svid: Option<&Arc<X509Svid>>) -> Result<(), OutOfMemory>
    ensures text { OnOk result
        (line.new
        ≡ line.old ++ choice_text (option_map (λ a. arc_value a.now) svid.entry)) }
    ensures grows { length line.old ≤ length line.new }
{
    let Some(svid) = svid else {
        line.extend(b" - - -")?;
        return Ok(());
    };
    line.push(b' ')?;
    line.extend(svid.spiffe_id().as_str().as_bytes())?;
    line.push(b' ')?;
    line.extend(Buffer::new().format(svid.expiry_unix()).as_bytes())?;
    line.push(b' ')?;
    push_list(line, svid.cert_chain())?;
    Ok(())
}

/// Appends a context by its orders, and the choice that is shown.
fn push_context(
    line: &mut LineBuffer,
    context: &X509Context,
    orders: Orders<'_>,
    choice: Option<&Arc<X509Svid>>,
) -> Result<(), OutOfMemory>
    requires { AreSorted context.now (listed orders) }
    ensures text { OnOk result
        (line.new
        ≡ line.old
        ++ context_text context.now (option_map (λ a. arc_value a.now) choice.entry)) }
    ensures grows { length line.old ≤ length line.new }
{
    line.extend(b" permitted")?;
    push_choice(line, choice)?;
    push_bundles(line, context.bundle_set(), orders.authorities)?;
    push_crls(line, context.crls(), orders.crls)?;
    Ok(())
}

fn push_permitted(
    line: &mut LineBuffer,
    held: &Prepared,
    now: Option<i64>,
) -> Result<(), OutOfMemory>
    requires { IsTrue (is_accept held.now) }
    ensures text { OnOk result
        (line.new ≡ line.old ++ visible_text (shown_by held.now) now) }
    ensures grows { length line.old ≤ length line.new }
{
    let choice = usable(held.chosen(), now);
    match (held.context(), held.orders()) {
        (Some(context), Some(orders)) => push_context(line, context, orders, choice),
        _ => unreachable!(),
    }
}

fn push_withdrawn(line: &mut LineBuffer, reason: &Denial) -> Result<(), OutOfMemory>
    ensures text { OnOk result (line.new ≡ line.old ++ withdrawn_text reason.now) }
    ensures grows { length line.old ≤ length line.new }
{
    match reason {
        Denial::NoIdentityIssued => line.extend(b" withdrawn no_identity_issued")?,
        Denial::PermissionDenied(message) => {
            line.extend(b" withdrawn permission_denied:")?;
            line.push_hex(message.as_str().as_bytes())?;
        }
    }
    Ok(())
}

/// Appends what is visible, which follows the revision.
fn push_visible(
    line: &mut LineBuffer,
    standing: &Standing,
    now: Option<i64>,
) -> Result<(), OutOfMemory>
    requires { IsKept standing.now }
    ensures text { OnOk result
        (line.new ≡ line.old ++ visible_text (view_in standing.now) now) }
    ensures grows { length line.old ≤ length line.new }
{
    match standing {
        Standing::Permitted(held) => push_permitted(line, held, now),
        Standing::Withdrawn(reason) => push_withdrawn(line, reason),
    }
}

/// Appends the revision, what is visible, and a line feed.
#[tactic(auto, unfolding(crate::specs::Shown::view_line))]
fn push_view(
    line: &mut LineBuffer,
    revision: u64,
    standing: &Standing,
    now: Option<i64>,
) -> Result<(), OutOfMemory>
    requires { IsKept standing.now }
    ensures text { OnOk result
        (line.new ≡ line.old ++ view_line (view_in standing.now) revision now) }
    ensures grows { length line.old ≤ length line.new }
{
    line.extend(Buffer::new().format(revision).as_bytes())?;
    push_visible(line, standing, now)?;
    line.push(b'\n')?;
    Ok(())
}

/// Returns the line of a state at a moment, without a number before it. Without a moment the choice
/// is not shown.
pub fn state_line(
    alloc: Global,
    state: &X509SourceState,
    now: Option<i64>,
) -> Result<Text, OutOfMemory>
    ensures { IfOk result (λ t. t ≡ view_line state.now.view state.now.revision now) }
{
    let mut line = LineBuffer::new(alloc);
    push_view(&mut line, state.revision(), state.standing(), now)?;
    match String::from_utf8(line.into_octets()) {
        Ok(text) => Ok(Text::new(text)),
        Err(_) => Err(OutOfMemory),
    }
}

/// The line of a session in one buffer, with room for its number before it. What it shows is
/// written anew only where that changes.
#[derive(Drop)]
pub(crate) struct NumberedLine {
    octets: LineBuffer,
    shows_choice: bool,
}

impl Model for NumberedLine {
    ghost use Rattle.std.specs.Prelude.{◌≤◌, drop, length};
    ghost use Rattle.spf_feed.specs.Numbered.{LineView};

    ghost Value = { LineView };

    ghost view = { λ l. record { text = drop 20 l.octets; shows_choice = l.shows_choice } };

    ghost invariant = { λ l. 20 ≤ length l.octets };
}

impl NumberedLine {
    /// The line before the first accepted item.
    #[tactic(auto, unfolding(crate::specs::Shown::view_line, crate::specs::Shown::shown_text))]
    pub(crate) fn new(alloc: Global) -> Result<NumberedLine, OutOfMemory>
        ensures text { IfOk result (λ l. l.text ≡ shown_text Waiting 0 None) }
    {
        let mut octets = LineBuffer::new(alloc);
        octets.extend(&[b' '; NUMBER_ROOM])?;
        octets.extend(b" waiting\n")?;
        Ok(NumberedLine {
            octets,
            shows_choice: false,
        })
    }

    /// Writes the line of the snapshot anew.
    #[tactic(auto, unfolding(crate::specs::Shown::shown_text))]
    fn write(&mut self, snapshot: &Snapshot, now: Option<i64>) -> Result<(), OutOfMemory>
        ensures text { OnOk result
            (self.new.text ≡ shown_text snapshot.now.view snapshot.now.revision now) }
        ensures choice { self.new.shows_choice ≡ self.old.shows_choice }
    {
        self.octets.cut(NUMBER_ROOM);
        self.octets.push(b' ')?;
        push_view(
            &mut self.octets,
            snapshot.revision(),
            snapshot.standing(),
            now,
        )?;
        Ok(())
    }

    /// Shows the snapshot at a moment. A snapshot that did not change
    /// is written anew only where the choice appears or expires.
    pub(crate) fn show(
        &mut self,
        snapshot: &Snapshot,
        is_changed: bool,
        now: Option<i64>,
    ) -> Result<(), OutOfMemory>
        ensures shows { OnOk result
            ((before : Option ℤ) → (is_changed ≡ false → ShowsKept snapshot.now before self.old)
            → ShowsKept snapshot.now now self.new) }
    {
        let shows_choice = snapshot.shows_choice(now);
        if is_changed || shows_choice != self.shows_choice {
            self.write(snapshot, now)?;
            self.shows_choice = shows_choice;
        }
        Ok(())
    }

    /// Puts the line with this number, in one piece.
    pub(crate) fn put<K: Sink>(&mut self, sink: &mut K, number: u64) -> Result<(), Failed>
        ensures bytes { PutAppends (K.held sink.old) (K.held sink.new) result
            (decimal number ++ self.old.text) }
        ensures text { self.new.text ≡ self.old.text }
        ensures choice { self.new.shows_choice ≡ self.old.shows_choice }
        ensures cause { HasCause (K.failures sink.old) (K.failures sink.new) result }
    {
        self.octets.put_numbered(sink, number, NUMBER_ROOM)
    }
}
