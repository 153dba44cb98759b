//! What responses mean, and the first rule that they break.

use spf_api::{
    BundlesResponse, ContextResponse, WorkloadApiError, bundle_set_from, context_from, svid_from,
    svids_from,
};
use spf_fixtures::{FIRST, SECOND, SvidRow, bundle_entries, context, octets};
use spf_id::TrustDomain;
use spf_x509::{Certificate, X509BundleSet, X509Context, X509Svid, X509SvidError};
use std::alloc::Global;
use std::mem::drop;
use std::process::Abort;
use std::test::Fail;

/// The field that is missing, or the kind of any other result.
fn refusal<T>(answer: &Result<T, WorkloadApiError>) -> &str {
    match answer {
        Err(WorkloadApiError::MissingRequiredField { field }) => field.as_str(),
        Err(WorkloadApiError::X509Svid(X509SvidError::PrivateKey(_))) => "a bad key",
        Err(_) => "another fault",
        Ok(_) => "an answer",
    }
}

/// Whether the result is that error.
fn is_refused<T: Drop>(answer: Result<T, WorkloadApiError>, wanted: &str) -> bool {
    let found = refusal(&answer) == wanted;
    drop(answer);
    found
}

/// What is asked of a response.
#[derive(Clone, Copy)]
enum Asked {
    Context,
    Svids,
}

/// Whether the response of those SVID entries is refused with that error.
fn refuses(alloc: Global, asked: Asked, svids: &[SvidRow<'_>], wanted: &str) -> Result<bool, Fail> {
    let response = context(alloc, svids, &[])?;
    let is_refused = match asked {
        Asked::Context => is_refused(context_from(alloc, &response), wanted),
        Asked::Svids => is_refused(svids_from(alloc, &response), wanted),
    };
    drop(response);
    Ok(is_refused)
}

const BARE: SvidRow<'static> = SvidRow {
    spiffe_id: "",
    key: "KEY1",
    bundle: "",
    hint: "",
};

const KEYLESS: SvidRow<'static> = SvidRow {
    spiffe_id: "spiffe://example.org/w",
    key: "",
    bundle: "ROOT1",
    hint: "",
};

const BAD_KEY: SvidRow<'static> = SvidRow {
    spiffe_id: "spiffe://example.org/w",
    key: "00",
    bundle: "ROOT1",
    hint: "",
};

const REFUSALS: &[(&str, Asked, &[SvidRow<'static>], &str)] = &[
    (
        "empty_bundle_comes_first",
        Asked::Context,
        &[BARE],
        "X509SVID.bundle",
    ),
    (
        "missing_fields: no SVID",
        Asked::Context,
        &[],
        "X509SVIDResponse.svids",
    ),
    (
        "missing_fields: no key",
        Asked::Svids,
        &[KEYLESS],
        "X509SVID.x509_svid_key",
    ),
    (
        "client_refuses_bad_key",
        Asked::Context,
        &[BAD_KEY],
        "a bad key",
    ),
];

/// An empty bundle comes before an empty spiffe_id.
#[test]
fn refusals(rt: HostRuntime) -> Result<(), Fail> {
    for &(name, asked, svids, wanted) in REFUSALS {
        assert!(rt; refuses(rt.alloc(), asked, svids, wanted)?, "{name}");
    }
    Ok(())
}

/// Whether the authority of these octets stands alone, or none where there are no octets.
fn is_alone(authorities: &[Certificate], octets: &[u8]) -> bool {
    match authorities {
        [] => octets.is_empty(),
        [only] => only.as_bytes() == octets,
        _ => false,
    }
}

/// Whether the set has a bundle of the trust domain with that authority alone.
fn holds(
    rt: &impl Abort,
    alloc: Global,
    set: &X509BundleSet,
    domain: &str,
    authority: &str,
) -> Result<bool, Fail> {
    let authority = octets(alloc, authority)?;
    let domain = TrustDomain::new(alloc, domain).expect(rt, "a trust domain");
    let holds = match set.get_ref(&domain) {
        Some(bundle) => is_alone(bundle.authorities(), authority.as_slice()),
        None => false,
    };
    drop(domain);
    drop(authority);
    Ok(holds)
}

/// What a context holds: this many SVIDs and bundles, and for a trust domain that authority or
/// none.
#[derive(Clone, Copy)]
struct HeldContext<'a> {
    svids: usize,
    bundles: usize,
    domain: &'a str,
    authority: &'a str,
}

fn is_held(
    rt: &impl Abort,
    alloc: Global,
    found: &X509Context,
    held: &HeldContext<'_>,
) -> Result<bool, Fail> {
    if found.svids().len() != held.svids || found.bundle_set().len() != held.bundles {
        return Ok(false);
    }
    holds(rt, alloc, found.bundle_set(), held.domain, held.authority)
}

/// Whether the response of those entries gives a context that holds that.
fn gives(
    rt: &impl Abort,
    alloc: Global,
    svids: &[SvidRow<'_>],
    federated: &[(&str, &str)],
    held: &HeldContext<'_>,
) -> Result<bool, Fail> {
    let response = context(alloc, svids, federated)?;
    let found = context_from(alloc, &response).expect(rt, "a context");
    drop(response);
    let answer = is_held(rt, alloc, &found, held);
    drop(found);
    answer
}

/// A row's SVID entries and federated bundles, and what their context holds.
type ContextRow = (
    &'static str,
    &'static [SvidRow<'static>],
    &'static [(&'static str, &'static str)],
    HeldContext<'static>,
);

const CONTEXTS: &[ContextRow] = &[
    (
        "empty_federated_bundle",
        &[FIRST],
        &[("other.org", "")],
        HeldContext {
            svids: 1,
            bundles: 2,
            domain: "other.org",
            authority: "",
        },
    ),
    (
        "last_bundle_replaces",
        &[FIRST, SECOND],
        &[],
        HeldContext {
            svids: 2,
            bundles: 1,
            domain: "example.org",
            authority: "ROOT2",
        },
    ),
    (
        "federated_bundle_replaces",
        &[FIRST, SECOND],
        &[("example.org", "ROOT3")],
        HeldContext {
            svids: 2,
            bundles: 1,
            domain: "example.org",
            authority: "ROOT3",
        },
    ),
];

/// The bundle of the second SVID entry replaces that of the first, and a federated one both.
#[test]
fn contexts(rt: HostRuntime) -> Result<(), Fail> {
    for (name, svids, federated, held) in CONTEXTS {
        assert!(rt; gives(&rt, rt.alloc(), svids, federated, held)?, "{name}");
    }
    Ok(())
}

/// Whether the SVID is of the rows' workload, with that hint.
fn is_first(svid: &X509Svid, hint: Option<&str>) -> bool {
    svid.spiffe_id().as_str() == "spiffe://example.org/w" && svid.hint() == hint
}

/// Whether the first SVID, with that hint, is all that the response gives.
fn gives_first(rt: &impl Abort, alloc: Global, item: &ContextResponse, hint: Option<&str>) -> bool {
    let all = svids_from(alloc, item).expect(rt, "SVIDs");
    let one = svid_from(alloc, item).expect(rt, "an SVID");
    let is_all = match all.as_slice() {
        [only] => *only == one && is_first(&one, hint),
        _ => false,
    };
    drop(one);
    drop(all);
    is_all
}

/// The first entry with a hint.
const HINTED: SvidRow<'static> = SvidRow {
    hint: "internal",
    ..FIRST
};

const HINTS: &[(&str, &[SvidRow<'static>], Option<&str>)] = &[
    ("client", &[FIRST], None),
    ("hints_are_kept", &[HINTED], Some("internal")),
];

/// A hint that is not empty is kept.
#[test]
fn client(rt: HostRuntime) -> Result<(), Fail> {
    for &(name, rows, hint) in HINTS {
        let item = context(rt.alloc(), rows, &[])?;
        let is_given = gives_first(&rt, rt.alloc(), &item, hint);
        drop(item);
        assert!(rt; is_given, "{name}");
    }
    Ok(())
}

/// What a response of those bundles gives.
fn bundles(
    alloc: Global,
    rows: &[(&str, &str)],
) -> Result<Result<X509BundleSet, WorkloadApiError>, Fail> {
    let bundles = bundle_entries(alloc, rows)?;
    let response = BundlesResponse { bundles };
    let found = bundle_set_from(alloc, &response);
    drop(response);
    Ok(found)
}

#[test]
fn client_bundles(rt: HostRuntime) -> Result<(), Fail> {
    let none = bundles(rt.alloc(), &[])?;
    assert!(rt; is_refused(none, "X509BundlesResponse.bundles"));
    let one = bundles(rt.alloc(), &[("example.org", "ROOT1")])?.expect(&rt, "a bundle");
    let holds = holds(&rt, rt.alloc(), &one, "example.org", "ROOT1");
    drop(one);
    assert!(rt; holds?);
    Ok(())
}
