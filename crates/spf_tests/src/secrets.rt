//! Debug output, which shows the lengths of keys, tokens and payloads alone.

use spf_api::{JwtSvidEntry, read_context_view};
use spf_disk::Generation;
use spf_feed::SessionEvent;
use spf_fixtures::{TOKEN1, first_item, octets};
use spf_frame::{Payload, RawFrame};
use spf_io::{Bytes, List, Text};
use spf_jwt::JwtSvid;
use std::alloc::Global;
use std::fmt::Debug;
use std::mem::drop;
use std::test::Fail;

/// What KEY1 looks like where its octets are shown.
const KEY: &str = "[48, 13,";

/// Whether the debug output has the text, and nothing of what is hidden.
fn hides<T: Debug>(alloc: Global, value: &T, text: &str, hidden: &str) -> bool {
    match format!(in alloc; "{value:?}") {
        Ok(shown) => shown.as_str().contains(text) && !shown.as_str().contains(hidden),
        Err(_) => false,
    }
}

/// A response with a key, the event that carries it, and its view.
#[test]
fn keys_of_responses(rt: HostRuntime) -> Result<(), Fail> {
    let alloc = rt.alloc();
    let text = "x509_svid_key: <15 bytes>";
    let response = first_item(alloc)?;
    assert!(rt; hides(alloc, &response, text, KEY));
    let event = SessionEvent::Item(response);
    assert!(rt; hides(alloc, &event, text, KEY));
    drop(event);
    let payload = octets(
        alloc,
        "00000001 FIRST 00000048 ROOT1 00000000 00000000 00000000",
    )?;
    let view = read_context_view(alloc, payload.as_slice())?;
    assert!(rt; hides(alloc, &view, text, KEY));
    drop(view);
    Ok(())
}

#[test]
fn keys_of_generations(rt: HostRuntime) -> Result<(), Fail> {
    let alloc = rt.alloc();
    let generation = Generation {
        number: 1,
        chain: Bytes::new(Vec::new(alloc)),
        key: Bytes::new(octets(alloc, "KEY1")?),
        authorities: List::new(Vec::new(alloc)),
    };
    assert!(rt; hides(alloc, &generation, "key: <15 bytes>", KEY));
    Ok(())
}

#[test]
fn payloads_of_frames(rt: HostRuntime) -> Result<(), Fail> {
    let alloc = rt.alloc();
    let frame = RawFrame {
        kind: 5,
        payload: Bytes::new(octets(alloc, "KEY1")?),
    };
    assert!(rt;
        hides(
            alloc,
            &frame,
            "RawFrame { kind: 5, payload: <15 bytes> }",
            KEY
        )
    );
    drop(frame);
    let payload = Payload::new(alloc);
    assert!(rt; hides(alloc, &payload, "Payload { octets: <0 bytes> }", KEY));
    Ok(())
}

#[test]
fn tokens(rt: HostRuntime) -> Result<(), Fail> {
    let alloc = rt.alloc();
    let entry = JwtSvidEntry {
        spiffe_id: Text::copy_of(alloc, "")?,
        svid: Text::copy_of(alloc, TOKEN1)?,
        hint: Text::copy_of(alloc, "")?,
    };
    assert!(rt; hides(alloc, &entry, "svid: <123 bytes>", TOKEN1));
    drop(entry);
    let svid = JwtSvid::parse_insecure(alloc, TOKEN1)?;
    assert!(rt; hides(alloc, &svid, "token: <123 bytes>", TOKEN1));
    Ok(())
}
