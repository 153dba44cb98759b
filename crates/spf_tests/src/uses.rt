//! The examples of spf_uses.

ghost use Rattle.std.specs.Prelude.{IsTrue, IfOk};
ghost use Rattle.spf_feed.specs.Steps.{plain, is_accept};

use spf_feed::{Denial, Prepared, ResourceLimits, Step};
use spf_fixtures::octets;
use spf_id::{SpiffeIdError, TrustDomain};
use spf_io::{MemSink, MemSource};
use spf_uses::{StepCounter, authorities_for, follow, is_member, is_valid_at, revision_after};
use spf_x509::{X509Bundle, X509BundleSet, X509Context};
use std::alloc::Global;
use std::mem::drop;
use std::process::Abort;
use std::sync::Arc;
use std::test::Fail;

/// What `is_member` says of a text and of `example.org`.
fn membership(rt: &(impl Abort + AllocGlobal), text: &str) -> Result<bool, SpiffeIdError> {
    let domain = TrustDomain::new(rt.alloc(), "example.org").expect(rt, "a trust domain");
    let is_member = is_member(rt.alloc(), text, &domain);
    drop(domain);
    is_member
}

const MEMBERS: &[(&str, Result<bool, SpiffeIdError>)] = &[
    ("spiffe://example.org/w", Ok(true)),
    ("spiffe://other.org/w", Ok(false)),
    ("https://example.org/w", Err(SpiffeIdError::WrongScheme)),
    ("spiffe://example.org/w/", Err(SpiffeIdError::TrailingSlash)),
];

#[test]
fn members(rt: HostRuntime) {
    for &(text, wanted) in MEMBERS {
        assert!(rt; membership(&rt, text) == wanted, "{text}");
    }
}

/// Whether the chain of LEAF1 is valid at that moment with these octets as its key, where they are
/// one.
fn valid(alloc: Global, key: &str, now: i64) -> Result<Option<bool>, Fail> {
    let chain = octets(alloc, "LEAF1 INTER1")?;
    let key = octets(alloc, key)?;
    let is_valid = is_valid_at(alloc, chain.as_slice(), key.as_slice(), now);
    drop(chain);
    drop(key);
    match is_valid {
        Ok(is_valid) => Ok(Some(is_valid)),
        Err(e) => {
            drop(e);
            Ok(None)
        }
    }
}

const MOMENTS: &[(&str, i64, Option<bool>)] = &[
    ("KEY1", 999, Some(true)),
    ("KEY1", 1000, Some(false)),
    ("00", 999, None),
];

#[test]
fn validity(rt: HostRuntime) -> Result<(), Fail> {
    for &(key, now, wanted) in MOMENTS {
        assert!(rt; valid(rt.alloc(), key, now)? == wanted, "{key} {now}");
    }
    Ok(())
}

/// A set of a bundle of ROOT1 and ROOT2.
fn bundles(alloc: Global) -> Result<X509BundleSet, Fail> {
    let domain = TrustDomain::new(alloc, "example.org")?;
    let authorities = octets(alloc, "ROOT1 ROOT2")?;
    let mut set = X509BundleSet::new(alloc);
    set.add_bundle(X509Bundle::parse_from_der(alloc, domain, authorities.as_slice())?)?;
    Ok(set)
}

#[test]
fn authorities(rt: HostRuntime) -> Result<(), Fail> {
    let set = bundles(rt.alloc())?;
    for (name, wanted) in [("example.org", 2), ("other.org", 0)] {
        let domain = TrustDomain::new(rt.alloc(), name)?;
        assert_eq!(rt; authorities_for(&set, &domain).len(), wanted, "{name}");
    }
    Ok(())
}

/// An accepted context without SVIDs.
fn accepted(alloc: Global) -> Result<Step, Fail>
    ensures { IfOk result (λ step. IsTrue (is_accept (plain step))) }
{
    let context = X509Context::new(
        Vec::new(alloc),
        Arc::new(alloc, bundles(alloc)?)?,
        Vec::new(alloc),
    );
    Ok(Step::Accept {
        context: Arc::new(alloc, context)?,
        limits: ResourceLimits::default(),
        choice: None,
    })
}

/// A denial, and the context again.
fn later(alloc: Global) -> Result<Vec<Prepared>, Fail> {
    let reason = Arc::new(alloc, Denial::NoIdentityIssued)?;
    let mut steps = Vec::new(alloc);
    steps.push(Prepared::new(alloc, accepted(alloc)?)?)?;
    steps.push(Prepared::new(alloc, Step::Deny { reason })?)?;
    steps.push(Prepared::new(alloc, accepted(alloc)?)?)?;
    Ok(steps)
}

/// The same context changes nothing; a denial and the context after it do.
#[test]
fn steps(rt: HostRuntime) -> Result<(), Fail> {
    let alloc = rt.alloc();
    let first = Prepared::new(alloc, accepted(alloc)?)?;
    assert_eq!(rt; revision_after(alloc, first, later(alloc)?)?, 2);
    Ok(())
}

/// How many steps were accepted and denied.
type Counts = (u64, u64);

/// The number of events, where a session was followed to its end, and its steps.
fn follow_counting(alloc: Global, frames: Vec<u8>, out: &mut MemSink) -> (Option<u64>, Counts) {
    let mut source = MemSource::new(frames, Vec::new(alloc), Vec::new(alloc));
    let mut steps = StepCounter {
        accepted: 0,
        denied: 0,
    };
    let limits = ResourceLimits::default_limits();
    let answer = follow(alloc, &mut source, out, &mut steps, limits);
    drop(source);
    let counts = (steps.accepted, steps.denied);
    match answer {
        Ok(events) => (Some(events), counts),
        Err(e) => {
            drop(e);
            (None, counts)
        }
    }
}

/// Whether the fourth of the lines begins like this.
fn has_fourth(lines: &[u8], start: &str) -> bool {
    match str::from_utf8(lines) {
        Ok(lines) => match lines.lines().nth(3) {
            Some(line) => line.starts_with(start),
            None => false,
        },
        Err(_) => false,
    }
}

/// A session whose picker takes the last of two SVIDs,
/// and whose publisher counts an update and a denial.
#[test]
fn session(rt: HostRuntime) -> Result<(), Fail> {
    let frames = octets(rt.alloc(), "M999 CM CN TWOFED CM CN IS7no CL")?;
    let out = MemSink::new(rt.alloc(), 1 << 16, Vec::new(rt.alloc()));
    let mut out = out.expect(&rt, "a sink");
    let followed = follow_counting(rt.alloc(), frames, &mut out);
    assert!(rt; followed == (Some(8), (1, 1)));
    assert!(rt; has_fourth(out.bytes(), "4 0 permitted spiffe://example.org/v 1000 "));
    drop(out);
    Ok(())
}
