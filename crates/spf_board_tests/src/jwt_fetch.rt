//! Fetches of a source before and after it is closed.

use crate::jwt_links::{granting, over, refusing};
use crate::jwt_source::opened;
use spf_api::{GrpcStatusCode, WorkloadApiError};
use spf_fixtures::TOKEN1;
use spf_id::SpiffeId;
use spf_io::{OutOfMemory, Text};
use spf_jwt_client::JwtFetcher;
use spf_jwt_feed::JwtSourceError;
use spf_jwt_source::JwtSource;
use spf_link::MemConnector;
use std::alloc::Global;

fn name_of(error: &JwtSourceError) -> &'static str {
    match error {
        JwtSourceError::FetchJwtSvid(WorkloadApiError::PermissionDenied(_)) => "denied",
        JwtSourceError::Closed => "closed",
        _ => "another error",
    }
}

/// What the source fetches over a connector, for the audience, and for the identity where one is
/// given.
fn fetched(
    alloc: Global,
    source: &JwtSource,
    connector: MemConnector,
    audience: &[Text],
    id: Option<&SpiffeId>,
) -> &'static str {
    let mut fetcher = JwtFetcher::new(connector);
    let answer = match id {
        Some(_) => source.fetch_jwt_svid_with_id(alloc, &mut fetcher, audience, id),
        None => source.fetch_jwt_svid(alloc, &mut fetcher, audience),
    };
    drop(fetcher);
    match answer {
        Ok(svid) => {
            let is_token = svid.token() == TOKEN1;
            drop(svid);
            if is_token {
                "the token"
            } else {
                "another token"
            }
        }
        Err(error) => {
            let name = name_of(&error);
            drop(error);
            name
        }
    }
}

fn audience_of(alloc: Global, name: &str) -> Result<Vec<Text>, OutOfMemory> {
    let name = Text::copy_of(alloc, name)?;
    Ok(vec![in alloc; name]?)
}

/// A connector that grants the token, or denies it.
fn connector(alloc: Global, is_granted: bool) -> Result<MemConnector, OutOfMemory> {
    if is_granted {
        over(alloc, granting(alloc)?)
    } else {
        over(alloc, refusing(alloc, GrpcStatusCode::PermissionDenied)?)
    }
}

/// Whether the source is closed, whether the token is granted, whether it is asked for the identity
/// of the token, and what is fetched.
static FETCHES: [(bool, bool, bool, &str); 6] = [
    (false, true, false, "the token"),
    (false, true, true, "the token"),
    (false, false, false, "denied"),
    (false, false, true, "denied"),
    (true, true, false, "closed"),
    (true, true, true, "closed"),
];

/// What fetches return before and after a shutdown.
#[test]
fn fetches_of_a_source(rt: HostRuntime) {
    let alloc = rt.alloc();
    let audience = audience_of(alloc, "a").expect(&rt, "an audience");
    let id = SpiffeId::new(alloc, "spiffe://example.org/w").expect(&rt, "an identity");
    let mut held = opened(rt, alloc);
    for &(is_closed, is_granted, has_id, wanted) in FETCHES.iter() {
        if is_closed {
            held.source.shutdown();
        }
        let connector = connector(alloc, is_granted).expect(&rt, "a connector");
        let id = if has_id { Some(&id) } else { None };
        let found = fetched(alloc, &held.source, connector, audience.as_slice(), id);
        assert!(rt;
            found == wanted,
            "{is_closed} {is_granted} {has_id}: {found}"
        );
    }
    drop(held);
    drop(id);
    drop(audience);
}
