//! Sources that are built over doubles: what a build gives, by the answers of its links.

use crate::building::{Builder, built};
use crate::places::EitherPlaces;
use spf_api::{ClientFault, GrpcStatusCode};
use spf_fixtures::{EitherSpawner, good_link, refusing_link};
use spf_io::Text;
use spf_link::{MemConnector, MemLink};
use spiffe::X509Source;
use std::alloc::Global;
use std::test::Fail;
use std::time::Duration;

/// The link that the word stands for, or why there is no client. Most give the item I1.
fn link(alloc: Global, word: &str) -> Result<Result<MemLink, ClientFault>, Fail> {
    match word {
        "rejected" => Ok(Ok(refusing_link(alloc, GrpcStatusCode::InvalidArgument)?)),
        "unsupported" => Ok(Ok(refusing_link(alloc, GrpcStatusCode::Unimplemented)?)),
        "away" => Ok(Ok(refusing_link(alloc, GrpcStatusCode::Unavailable)?)),
        "nobody" => Ok(Err(ClientFault::Unreachable(Text::copy_of(alloc, "no socket")?))),
        _ => Ok(Ok(good_link(alloc)?)),
    }
}

/// A builder over that link, and over a second one that gives the item I1.
fn builder(alloc: Global, word: &str) -> Result<Builder<MemConnector>, Fail> {
    let mut links = vec![in alloc; link(alloc, word)?]?;
    links.push(Ok(good_link(alloc)?))?;
    let builder = X509Source::builder(MemConnector::new(alloc, links));
    match word {
        "late" => Ok(builder.initial_sync_timeout(Duration::from_secs(0))),
        _ => Ok(builder),
    }
}

/// The first link, what a build gives, and the pauses before it with their nanoseconds: one of
/// 200 ms where the first link refuses for now, and where the first client cannot be made.
static CAUSES: [(&str, &str, u64, u64); 6] = [
    ("rejected", "an error of the source", 0, 0),
    ("unsupported", "an unsupported call", 0, 0),
    ("late", "a timeout", 0, 0),
    ("good", "revision 0", 0, 0),
    ("away", "revision 0", 1, 200_000_000),
    ("nobody", "revision 0", 1, 200_000_000),
];

/// The answers of the links, and the timeout.
#[test]
fn build_causes(rt: HostRuntime) -> Result<(), Fail> {
    let alloc = rt.alloc();
    for &(word, wanted, pauses, nanos) in CAUSES.iter() {
        let builder = builder(alloc, word)?;
        let found = built(
            rt,
            alloc,
            builder,
            &mut EitherSpawner::inline(),
            &mut EitherPlaces::giving(),
        );
        assert!(rt; found == (wanted, pauses, nanos), "{word}");
    }
    Ok(())
}

/// What a build gives without a place, without a supervisor, and with an invalid endpoint.
#[test]
fn refused_builds(rt: HostRuntime) -> Result<(), Fail> {
    let alloc = rt.alloc();
    let unplaced = builder(alloc, "good")?;
    let found = built(
        rt,
        alloc,
        unplaced,
        &mut EitherSpawner::inline(),
        &mut EitherPlaces::refusing(),
    );
    assert!(rt; found.0 == "no place");
    let unsupervised = builder(alloc, "good")?;
    let found = built(
        rt,
        alloc,
        unsupervised,
        &mut EitherSpawner::refusing(),
        &mut EitherPlaces::giving(),
    );
    assert!(rt; found.0 == "no supervisor");
    let nowhere = builder(alloc, "good")?.endpoint(&rt, alloc, "foo")?;
    let found = built(
        rt,
        alloc,
        nowhere,
        &mut EitherSpawner::inline(),
        &mut EitherPlaces::giving(),
    );
    assert!(rt; found.0 == "no endpoint");
    Ok(())
}
