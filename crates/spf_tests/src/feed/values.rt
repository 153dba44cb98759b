//! Calls beside sessions.

ghost use Rattle.std.specs.Prelude.{IsTrue, IfOk};
ghost use Rattle.spf_feed.specs.Steps.{is_accept};

use spf_api::{context_from_view, read_context_view};
use spf_feed::{
    Denial, FrameError, LimitBroken, LimitKind, Phase, Prepared, RawFrame, ResourceLimits,
    Snapshot, Step, X509SourceState, read_frame, state_line, validate_limits,
};
use spf_fixtures::{is_written, octets};
use spf_id::TrustDomain;
use spf_io::MemSource;
use spf_x509::X509Context;
use std::alloc::Global;
use std::fmt;
use std::sync::Arc;
use std::test::Fail;

fn frame_name(frame: &Result<Option<RawFrame>, FrameError>) -> &'static str {
    match frame {
        Ok(Some(RawFrame { kind: 9, .. })) => "kind 9",
        Ok(Some(_)) => "another",
        Ok(None) => "end",
        Err(FrameError::TooLong) => "too long",
        Err(FrameError::BadFrame) => "bad",
        Err(_) => "another",
    }
}

/// The name of the frame that the octets begin with.
fn frame_in(alloc: Global, text: &str, allowed: bool) -> Result<&'static str, Fail> {
    let mut source = MemSource::new(octets(alloc, text)?, Vec::new(alloc), Vec::new(alloc));
    let frame = read_frame(alloc, &mut source, Phase::Client, allowed);
    Ok(frame_name(&frame))
}

/// The octets, whether a frame is allowed, and the name of the frame.
static FRAMES: [(&str, bool, &str); 6] = [
    ("09 00000000", true, "kind 9"),
    ("0a", true, "bad"),
    ("01 01000001", true, "bad"),
    ("01 00000002 00", true, "bad"),
    ("", true, "end"),
    ("01", false, "too long"),
];

#[test]
fn frame_reader(rt: HostRuntime) -> Result<(), Fail> {
    let alloc = rt.alloc();
    for (text, allowed, name) in FRAMES.iter() {
        let is = frame_in(alloc, text, *allowed)?;
        assert!(rt; is == *name, "{text}");
    }
    Ok(())
}

fn shown<T: fmt::Display + Drop>(alloc: Global, value: T) -> Result<String, Fail> {
    Ok(value.to_string(alloc)?)
}

fn context_in(alloc: Global, payload: &[u8]) -> Result<X509Context, Fail> {
    let Some(view) = read_context_view(alloc, payload)? else {
        return Err(Fail::from("no layout"));
    };
    let context = context_from_view(alloc, &view)?;
    Ok(context)
}

/// The context of a named item, which follows the kind and the length of its frame.
fn context(alloc: Global, name: &str) -> Result<X509Context, Fail> {
    let frame = octets(alloc, name)?;
    match frame.as_slice().get(5..) {
        Some(payload) => context_in(alloc, payload),
        None => Err(Fail::from("no item")),
    }
}

/// Whether J1 keeps the limits, or breaks this one first.
fn is_limited(
    alloc: Global,
    limits: ResourceLimits,
    broken: Option<LimitBroken>,
) -> Result<bool, Fail> {
    let context = context(alloc, "J1")?;
    Ok(validate_limits(&context, limits).err() == broken)
}

#[test]
fn limits(rt: HostRuntime) -> Result<(), Fail> {
    let alloc = rt.alloc();
    assert!(rt; is_limited(alloc, ResourceLimits::unlimited(), None)?);
    assert!(rt; is_limited(alloc, ResourceLimits::default_limits(), None)?);
    let few = ResourceLimits::new(Some(2), Some(0), Some(143), Some(0));
    let broken = LimitBroken {
        kind: LimitKind::MaxSvids,
        limit: 2,
        actual: 3,
    };
    assert!(rt; is_limited(alloc, few, Some(broken))?);
    let small = ResourceLimits::new(None, None, Some(143), None);
    let broken = LimitBroken {
        kind: LimitKind::MaxBundleDerBytes,
        limit: 143,
        actual: 144,
    };
    assert!(rt; is_limited(alloc, small, Some(broken))?);
    Ok(())
}

/// The prepared Accept of a named item, whose choice is its first SVID.
fn accepted(alloc: Global, name: &str) -> Result<Prepared, Fail>
    ensures { IfOk result (λ p. IsTrue (is_accept p)) }
{
    let step = Step::Accept {
        context: Arc::new(alloc, context(alloc, name)?)?,
        limits: ResourceLimits::default(),
        choice: Some(0),
    };
    Ok(Prepared::new(alloc, step)?)
}

fn denied(alloc: Global) -> Result<Prepared, Fail> {
    let reason = Arc::new(alloc, Denial::NoIdentityIssued)?;
    Ok(Prepared::new(alloc, Step::Deny { reason })?)
}

/// The indices of the SVIDs, of the authorities of two trust domains, and of the revocation lists.
fn indices(alloc: Global, step: &Prepared) -> Result<String, Fail> {
    let own = TrustDomain::new(alloc, "example.org")?;
    let other = TrustDomain::new(alloc, "other.org")?;
    let text = format!(in alloc;
        "{:?} {:?} {:?} {:?}",
        step.svid_positions(),
        step.authority_positions(&own),
        step.authority_positions(&other),
        step.crl_positions()
    )?;
    Ok(text)
}

/// A denial, or the prepared Accept of a named item.
fn step_of(alloc: Global, name: &str) -> Result<Prepared, Fail> {
    if name == "denial" {
        denied(alloc)
    } else {
        accepted(alloc, name)
    }
}

fn copy_of(alloc: Global, name: &str) -> Result<Prepared, Fail> {
    let step = step_of(alloc, name)?;
    Ok(step.try_clone()?)
}

/// Whether the indices of a copy of the step are these.
fn is_indexed(alloc: Global, name: &str, text: &str) -> Result<bool, Fail> {
    let copy = copy_of(alloc, name)?;
    is_written(alloc, indices(alloc, &copy)?, text)
}

/// A step, and its indices.
static INDICES: [(&str, &str); 3] = [
    ("J1", "[1, 2, 0] Some([0, 1]) None []"),
    ("J2", "[2, 1, 0] Some([1, 0]) None []"),
    ("denial", "[] None None []"),
];

#[test]
fn prepared(rt: HostRuntime) -> Result<(), Fail> {
    let alloc = rt.alloc();
    for (name, text) in INDICES.iter() {
        assert!(rt; is_indexed(alloc, name, text)?, "{name}");
    }
    Ok(())
}

/// The snapshot of an accepted I1, or the same after a denial.
fn snapshot_of(alloc: Global, is_denied: bool) -> Result<Snapshot, Fail> {
    let mut snapshot = Snapshot::opening(accepted(alloc, "I1")?);
    if is_denied {
        snapshot.apply(denied(alloc)?);
    }
    Ok(snapshot)
}

/// The ID of the SVID that a state gives, or why it gives none.
fn svid_text(alloc: Global, state: &X509SourceState, now: Option<i64>) -> Result<String, Fail> {
    match state.svid(now) {
        Ok(svid) => shown(alloc, svid.spiffe_id().as_str()),
        Err(error) => shown(alloc, error),
    }
}

/// The line of a state, then its SVID, its revision, and
/// whether it is closed, is usable and has a context.
fn state_text(alloc: Global, state: &X509SourceState, now: Option<i64>) -> Result<String, Fail> {
    let line = state_line(alloc, state, now)?;
    let svid = svid_text(alloc, state, now)?;
    let text = format!(in alloc;
        "{}{svid} {} {} {} {}",
        line.as_str(),
        state.revision(),
        state.is_closed(),
        state.is_usable(now),
        state.context_ref().is_some()
    )?;
    Ok(text)
}

fn state_of(alloc: Global, is_denied: bool, is_closed: bool) -> Result<X509SourceState, Fail> {
    let snapshot = snapshot_of(alloc, is_denied)?;
    Ok(snapshot.state(alloc, is_closed)?)
}

/// Whether the state, denied or not and closed or not, is shown like this.
fn is_state(
    alloc: Global,
    is_denied: bool,
    is_closed: bool,
    now: Option<i64>,
    text: &str,
) -> Result<bool, Fail> {
    let state = state_of(alloc, is_denied, is_closed)?;
    is_written(alloc, state_text(alloc, &state, now)?, text)
}

/// A name, whether it is denied, whether it is closed, the moment, and what is shown.
static STATES: [(&str, bool, bool, Option<i64>, &str); 5] = [
    (
        "permitted, no moment",
        false,
        false,
        None,
        "0 permitted - - - example.org=ROOT1\nno suitable svid found 0 false false true",
    ),
    (
        "permitted, usable",
        false,
        false,
        Some(999),
        "0 permitted P1\nspiffe://example.org/w 0 false true true",
    ),
    (
        "permitted, expired",
        false,
        false,
        Some(1000),
        "0 permitted - - - example.org=ROOT1\nno suitable svid found 0 false false true",
    ),
    (
        "withdrawn",
        true,
        false,
        Some(5),
        "1 withdrawn no_identity_issued\n\
         material withdrawn: no identity issued 1 false false false",
    ),
    (
        "withdrawn, closed",
        true,
        true,
        Some(5),
        "1 withdrawn no_identity_issued\nmaterial withdrawn: no identity issued 1 true false false",
    ),
];

#[test]
fn states(rt: HostRuntime) -> Result<(), Fail> {
    let alloc = rt.alloc();
    for (name, is_denied, is_closed, now, text) in STATES.iter() {
        assert!(rt;
            is_state(alloc, *is_denied, *is_closed, *now, text)?,
            "{name}"
        );
    }
    Ok(())
}
