//! Fetches of JWT-SVIDs by a live source, over a socket.

use crate::jwt_threads::live::{connector_to, is_left, is_state};
use crate::jwt_threads::on_thread::JwtAgentJob;
use spf_api::WorkloadApiError;
use spf_fixtures::{Agent, AgentConnector, FixedClock, Scene, ShortPause, TOKEN1};
use spf_io::Text;
use spf_jwt_client::JwtFetcher;
use spf_jwt_feed::JwtSourceError;
use spf_jwt_source::{BoardPlaces, JwtPass, JwtSource};
use spf_system::{InlineSpawner, Spawner, StepWords};
use std::alloc::Global;
use std::mem::drop;
use std::process::Abort;
use std::sync::Wait;
use std::test::Fail;

fn is_denial(error: &JwtSourceError) -> bool {
    matches!(
        error,
        JwtSourceError::FetchJwtSvid(WorkloadApiError::PermissionDenied(_))
    )
}

/// Whether the source fetches the token over this connector for the audience, or is denied it.
fn is_fetched(
    alloc: Global,
    source: &JwtSource,
    connector: AgentConnector,
    audience: &[Text],
    is_denied: bool,
) -> bool {
    let mut fetcher = JwtFetcher::new(connector);
    let answer = source.fetch_jwt_svid(alloc, &mut fetcher, audience);
    drop(fetcher);
    match answer {
        Ok(svid) => {
            let is_token = svid.token() == TOKEN1;
            drop(svid);
            is_token && !is_denied
        }
        Err(error) => {
            let is_denial = is_denial(&error);
            drop(error);
            is_denial && is_denied
        }
    }
}

/// Whether one fetch for the audience `a` is granted and the next one denied.
fn are_fetched<R: Abort>(host: HostRuntime, rt: &R, source: &JwtSource, path: &str) -> bool {
    let alloc = host.alloc();
    let audience = [Text::copy_of(alloc, "a").expect(rt, "memory")];
    let first = connector_to(host, rt, path);
    let is_granted = is_fetched(alloc, source, first, &audience, false);
    let second = connector_to(host, rt, path);
    let is_denied = is_fetched(alloc, source, second, &audience, true);
    drop(audience);
    is_granted && is_denied
}

/// Whether a source of the agent at this path, which fetches or not, holds the bundles that it
/// began with, and so does its record.
fn is_unchanged<R, S>(host: HostRuntime, rt: R, path: &str, spawner: &mut S, fetches: bool) -> bool
where
    R: Wait + Abort + Copy + Drop,
    S: Spawner<JwtAgentJob<R>>,
    S::Handle: Drop,
{
    let built = JwtSource::builder(connector_to(host, &rt, path)).build(
        rt,
        host.alloc(),
        &mut FixedClock,
        ShortPause::new(host),
        StepWords::new(0),
        spawner,
        &mut BoardPlaces::new(),
    );
    let (source, mut pass, handle) = built.expect(&rt, "a source");
    let is_fetched = !fetches || are_fetched(host, &rt, &source, path);
    let is_first = is_state(&source, &mut pass, 0, false);
    let record = handle.join_record(&mut pass);
    drop(pass);
    drop(source);
    is_left(record, false) && is_fetched && is_first
}

/// The scenes of an agent, and whether the source fetches.
static ROWS: [(&[Scene], bool); 2] = [
    // The row inline-record, of JWT bundles: a key set of `example.org`, and what is not read.
    (
        &[("CN SET1", None), ("CN IS7no", None), ("", Some(""))],
        false,
    ),
    // A key set of `example.org`; a grant of the token; and a denial.
    (
        &[
            ("CN SET1", None),
            (
                "CN 05 000000a1 00000001 ID \
                 0000007b65794a68624763694f694a46557a49314e694973496d74705a434936496d737849697769 \
                 6448 \
                 6c77496a6f69536c6455496e302e65794a7a645749694f694a7a63476c6d5a6d55364c79396c6547 \
                 4674 \
                 6347786c4c6d39795a793933496977695958566b496a6f6959534973496d5634634349364f58302e \
                 7369 \
                 67 \
                 00000000 07 00000000",
                None,
            ),
            ("04 00000007 07 00000002 6e6f", None),
        ],
        true,
    ),
];

/// No fetch, granted or denied, changes the bundles or the record.
#[test]
fn fetches_leave_the_bundles(rt: HostRuntime) -> Result<(), Fail> {
    for (scenes, fetches) in ROWS.iter() {
        let agent = Agent::start(rt, &rt, "jwt_fetch", scenes)?;
        let is_found = is_unchanged(rt, rt, agent.path(), &mut InlineSpawner, *fetches);
        agent.end(rt, &rt)?;
        assert!(rt; is_found, "{fetches}");
    }
    Ok(())
}
