//! Requests of the Workload API.

ghost use Rattle.std.specs.Prelude.{◌≡◌, IfOk};
ghost use Rattle.spf_link.specs.Request.{answered_by};

use crate::headers::Headers;
use spf_api::{ResponseKind, SecretLength};
use spf_io::{List, OutOfMemory, Text};
use std::alloc::Global;
use std::fmt;

/// A request of the Workload API (SPIFFE Workload API sections 5 and 6).
/// Debug output shows only the length of a token.
#[derive(PartialEq, Eq, Drop)]
pub enum Request {
    /// The X.509-SVIDs of the workload, with their bundles.
    X509Svid,
    /// The X.509 bundles of its trust domain and of federated ones.
    X509Bundles,
    /// The JWT bundles of its trust domain and of federated ones.
    JwtBundles,
    /// A JWT-SVID for an audience. The empty ID asks for those of every identity of the workload.
    JwtSvid {
        spiffe_id: Text,
        audience: List<Text>,
    },
    /// The claims of a JWT-SVID, where it is good for the audience.
    ValidateJwt {
        audience: Text,
        svid: Text,
    },
}

impl fmt::Debug for Request {
    fn fmt<W: fmt::Write>(&self, f: &mut fmt::Formatter<W>) -> fmt::Result {
        match self {
            Request::X509Svid => write!(f, "X509Svid"),
            Request::X509Bundles => write!(f, "X509Bundles"),
            Request::JwtBundles => write!(f, "JwtBundles"),
            Request::JwtSvid {
                spiffe_id,
                audience,
            } => f
                .debug_struct("JwtSvid")
                .field("spiffe_id", spiffe_id)
                .field("audience", audience)
                .finish(),
            Request::ValidateJwt { audience, svid } => f
                .debug_struct("ValidateJwt")
                .field("audience", audience)
                .field("svid", &SecretLength(svid.as_str().len()))
                .finish(),
        }
    }
}

/// Copies of the texts.
fn copies_of(alloc: Global, texts: &[Text]) -> Result<List<Text>, OutOfMemory>
    ensures { IfOk result (λ l. l ≡ texts.now) }
{
    let mut copies = Vec::with_capacity(alloc, texts.len())?;
    for text in texts {
        copies.push(text.try_clone(alloc)?)?;
    }
    Ok(List::new(copies))
}

impl Request {
    /// Returns a copy of the request.
    pub fn try_clone(&self, alloc: Global) -> Result<Request, OutOfMemory>
        ensures { IfOk result (λ r. r ≡ self.now) }
    {
        match self {
            Request::X509Svid => Ok(Request::X509Svid),
            Request::X509Bundles => Ok(Request::X509Bundles),
            Request::JwtBundles => Ok(Request::JwtBundles),
            Request::JwtSvid {
                spiffe_id,
                audience,
            } => Ok(Request::JwtSvid {
                spiffe_id: spiffe_id.try_clone(alloc)?,
                audience: copies_of(alloc, audience.as_slice())?,
            }),
            Request::ValidateJwt { audience, svid } => Ok(Request::ValidateJwt {
                audience: audience.try_clone(alloc)?,
                svid: svid.try_clone(alloc)?,
            }),
        }
    }

    /// Returns the kind of the responses that it asks for.
    pub fn response_kind(&self) -> ResponseKind
        ensures { result ≡ answered_by self.now }
    {
        match self {
            Request::X509Svid => ResponseKind::Context,
            Request::X509Bundles => ResponseKind::Bundles,
            Request::JwtBundles => ResponseKind::JwtBundles,
            Request::JwtSvid { .. } => ResponseKind::JwtSvids,
            Request::ValidateJwt { .. } => ResponseKind::Validation,
        }
    }
}

/// What a `start` was given.
#[derive(Drop)]
pub struct Start {
    pub headers: Headers,
    pub request: Request,
}

impl Start {
    /// Returns a copy of the headers and of the request.
    pub fn copy_of(
        alloc: Global,
        headers: &Headers,
        request: &Request,
    ) -> Result<Start, OutOfMemory>
        ensures { IfOk result (λ s. s ≡ record { headers = headers.now; request = request.now }) }
    {
        Ok(Start {
            headers: headers.try_clone(alloc)?,
            request: request.try_clone(alloc)?,
        })
    }
}
