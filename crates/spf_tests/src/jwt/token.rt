//! Tokens: what they say, and the first rule that each breaks.

use base64::engine::general_purpose::URL_SAFE_NO_PAD;
use spf_api::JwtSvidError;
use spf_fixtures::TOKEN1;
use spf_io::OutOfMemory;
use spf_jwt::JwtSvid;
use std::alloc::Global;
use std::mem::drop;

/// The token of a header and claims, each the text of a JSON value.
fn token_of(alloc: Global, header: &str, claims: &str) -> Result<String, OutOfMemory> {
    let header = URL_SAFE_NO_PAD.encode(alloc, header.as_bytes())?;
    let claims = URL_SAFE_NO_PAD.encode(alloc, claims.as_bytes())?;
    Ok(format!(in alloc; "{header}.{claims}.sig")?)
}

/// The name of the rule that a token breaks.
fn refusal(alloc: Global, error: JwtSvidError) -> Result<String, OutOfMemory> {
    let text = format!(in alloc; "{error}");
    drop(error);
    Ok(text?)
}

/// The audiences, each before a comma.
fn audiences(alloc: Global, svid: &JwtSvid) -> Result<String, OutOfMemory> {
    let mut text = String::new(alloc);
    for audience in svid.audience() {
        text.push_str(audience.as_str())?;
        text.push(',')?;
    }
    Ok(text)
}

fn shown(alloc: Global, svid: &JwtSvid) -> Result<String, OutOfMemory> {
    let id = svid.spiffe_id().as_str();
    let audiences = audiences(alloc, svid)?;
    let key = svid.key_id().unwrap_or("-");
    let text = format!(in alloc; "{id} {audiences} {} {key}", svid.expiry());
    drop(audiences);
    Ok(text?)
}

/// What a token says: the ID, the audiences, the expiry and the key.
fn says(alloc: Global, token: &str) -> Result<String, OutOfMemory> {
    match JwtSvid::parse_insecure(alloc, token) {
        Ok(svid) => {
            let text = shown(alloc, &svid);
            drop(svid);
            text
        }
        Err(error) => refusal(alloc, error),
    }
}

fn are_same(one: &Result<JwtSvid, JwtSvidError>, other: &Result<JwtSvid, JwtSvidError>) -> bool {
    match (one, other) {
        (Ok(one), Ok(other)) => *one == *other,
        _ => false,
    }
}

/// Whether another reading of a token is equal to the first.
fn is_read_alike(alloc: Global, token: &str, other: Result<JwtSvid, JwtSvidError>) -> bool {
    let svid = JwtSvid::parse_insecure(alloc, token);
    let are_same = are_same(&svid, &other);
    drop(other);
    drop(svid);
    are_same
}

/// Whether a copy of a token is equal to it.
fn is_copied(alloc: Global, token: &str) -> Result<bool, JwtSvidError> {
    let svid = JwtSvid::parse_insecure(alloc, token)?;
    let copy = svid.try_clone(alloc);
    let is_same = match &copy {
        Ok(copy) => *copy == svid,
        Err(OutOfMemory) => false,
    };
    drop(copy);
    drop(svid);
    Ok(is_same)
}

#[test]
fn token(rt: HostRuntime) {
    let alloc = rt.alloc();
    let text = says(alloc, TOKEN1).expect(&rt, "memory");
    assert!(rt; text.as_str() == "spiffe://example.org/w a, 9 k1", "{text}");
    let given = JwtSvid::from_workload_api_token(alloc, TOKEN1);
    assert!(rt; is_read_alike(alloc, TOKEN1, given));
    let read = JwtSvid::from_str(alloc, TOKEN1);
    assert!(rt; is_read_alike(alloc, TOKEN1, read));
    assert!(rt; is_copied(alloc, TOKEN1).expect(&rt, "a token"));
}

/// The name of the rule that a token breaks first; `Ok` where it breaks none.
pub(crate) fn outcome(alloc: Global, token: &str) -> Result<String, OutOfMemory> {
    match JwtSvid::parse_insecure(alloc, token) {
        Ok(svid) => {
            drop(svid);
            Ok(String::from_str(alloc, "Ok")?)
        }
        Err(error) => refusal(alloc, error),
    }
}

/// The same of the token of a header and claims.
fn outcome_of(alloc: Global, header: &str, claims: &str) -> Result<String, OutOfMemory> {
    let token = token_of(alloc, header, claims)?;
    outcome(alloc, token.as_str())
}

/// Texts that are not tokens, by their parts alone.
const BROKEN_PARTS: &[(&str, &str)] = &[
    ("not-a-jwt", "Parts"),
    ("", "Parts"),
    ("..", "Parts"),
    ("a.b", "Parts"),
    ("a.b.c.d", "Parts"),
    ("a.b.c=", "Parts"),
    ("..sig", "HeaderText"),
    ("e30=.e30.sig", "HeaderText"),
];

#[test]
fn broken_parts(rt: HostRuntime) {
    for &(token, wanted) in BROKEN_PARTS {
        let found = outcome(rt.alloc(), token).expect(&rt, "memory");
        assert!(rt; found.as_str() == wanted, "{token}: {found}");
    }
}

const CLAIMS: &str = "{\"sub\":\"spiffe://example.org/w\",\"aud\":\"a\",\"exp\":9}";

/// Headers before good claims.
const HEADERS: &[(&str, &str)] = &[
    ("{\"alg\":\"ES256\"}", "Ok"),
    (
        "{\"alg\":\"PS512\",\"typ\":\"JOSE\",\"kid\":\"\",\"n\":-1}",
        "Ok",
    ),
    ("{\"alg\":\"HS256\",\"alg\":\"RS256\"}", "Ok"),
    ("{\"a\":1.5,\"a\":1,\"alg\":\"RS256\"}", "Ok"),
    ("[]", "HeaderText"),
    ("{", "HeaderText"),
    ("{\"alg\":\"\\ud800\"}", "HeaderText"),
    ("{\"alg\":\"HS256\",\"x\":[{\"y\":-0}]}", "HeaderFloat"),
    ("{\"x\":18446744073709551616}", "HeaderFloat"),
    ("{}", "UnsupportedAlg"),
    ("{\"alg\":null,\"typ\":1}", "UnsupportedAlg"),
    ("{\"alg\":\"none\"}", "UnsupportedAlg"),
    ("{\"alg\":\"RS256 \"}", "UnsupportedAlg"),
    ("{\"alg\":\"RS256\",\"typ\":null,\"kid\":1}", "InvalidTyp"),
    ("{\"alg\":\"RS256\",\"typ\":\"jwt\"}", "InvalidTyp"),
    ("{\"alg\":\"RS256\",\"kid\":null}", "InvalidKid"),
    ("{\"alg\":\"RS256\",\"kid\":1}", "InvalidKid"),
];

#[test]
fn headers(rt: HostRuntime) {
    for &(header, wanted) in HEADERS {
        let found = outcome_of(rt.alloc(), header, CLAIMS).expect(&rt, "memory");
        assert!(rt; found.as_str() == wanted, "{header}: {found}");
    }
}

/// Claims after a good header.
const ALL_CLAIMS: &[(&str, &str)] = &[
    (
        "{\"sub\":\"spiffe://a/b\",\"aud\":[\"a\",\"\"],\"exp\":-1,\"iat\":0}",
        "Ok",
    ),
    (
        "{\"sub\":\"spiffe://a/b\",\"aud\":\"\",\"exp\":9223372036854775807}",
        "Ok",
    ),
    ("null", "ClaimsText"),
    ("{\"sub\":", "ClaimsText"),
    ("{\"exp\":1e2}", "ClaimsFloat"),
    ("{\"exp\":18446744073709551616}", "ClaimsFloat"),
    ("{}", "MissingClaim"),
    ("{\"sub\":null,\"aud\":1,\"exp\":1}", "InvalidSub"),
    ("{\"sub\":\"x\"}", "InvalidSub"),
    ("{\"sub\":\"spiffe://a/b\",\"exp\":null}", "MissingClaim"),
    ("{\"sub\":\"spiffe://a/b\",\"aud\":null}", "InvalidAud"),
    ("{\"sub\":\"spiffe://a/b\",\"aud\":[]}", "InvalidAud"),
    ("{\"sub\":\"spiffe://a/b\",\"aud\":[\"a\",1]}", "InvalidAud"),
    (
        "{\"sub\":\"spiffe://a/b\",\"aud\":{\"a\":\"b\"}}",
        "InvalidAud",
    ),
    ("{\"sub\":\"spiffe://a/b\",\"aud\":\"a\"}", "MissingClaim"),
    (
        "{\"sub\":\"spiffe://a/b\",\"aud\":\"a\",\"exp\":null}",
        "InvalidExp",
    ),
    (
        "{\"sub\":\"spiffe://a/b\",\"aud\":\"a\",\"exp\":\"9\"}",
        "InvalidExp",
    ),
    (
        "{\"sub\":\"spiffe://a/b\",\"aud\":\"a\",\"exp\":9223372036854775808}",
        "InvalidExp",
    ),
];

#[test]
fn claims(rt: HostRuntime) {
    for &(claims, wanted) in ALL_CLAIMS {
        let found = outcome_of(rt.alloc(), "{\"alg\":\"ES256\"}", claims).expect(&rt, "memory");
        assert!(rt; found.as_str() == wanted, "{claims}: {found}");
    }
}
