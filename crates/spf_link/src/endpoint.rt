//! The endpoint that a text names.

ghost use Rattle.std.specs.Prelude.{◌≡◌, None, IfOk, string_bytes};
ghost use Rattle.spf_io.specs.Rule.{Gives};
ghost use Rattle.url.specs.Parser.{parse_url};
ghost use Rattle.spf_link.specs.Endpoint.{is_memory, parsed, unix_rule, ipv4_in};
ghost use Rattle.spf_link.specs.Endpoint.{tcp_host_in, tcp_rule, scheme_rule, endpoint_rule};
ghost use Rattle.spf_link.specs.Endpoint as spec;

use spf_api::{EndpointError, EndpointParseError};
use spf_io::{OutOfMemory, Text};
use std::alloc::Global;
use std::net::Ipv4Addr;
use url::{Host, ParseError, Url};

/// The environment variable that names the endpoint.
pub const WORKLOAD_API_ENDPOINT_ENV: &str = "SPIFFE_ENDPOINT_SOCKET";

/// An IP address, in the bits of its octets in network order.
#[derive(Clone, Copy, Debug, PartialEq, Eq)]
pub enum EndpointHost {
    V4(u32),
    V6(u128),
}

/// Where a Workload API listens.
#[derive(Debug, PartialEq, Eq, Drop)]
pub enum Endpoint {
    /// A Unix socket, by its path.
    Unix(Text),
    /// A TCP address.
    Tcp { host: EndpointHost, port: u16 },
}

/// The text, with the slashes of its scheme added where they are left out.
fn rewritten(alloc: Global, text: &str) -> Result<String, OutOfMemory>
    ensures { IfOk result (λ s. string_bytes s ≡ spec.rewritten text.now) }
{
    if !text.starts_with("unix://") {
        if let Some(rest) = text.strip_prefix("unix:/") {
            return Ok(format!(in alloc; "unix:///{rest}")?);
        }
    }
    if !text.starts_with("tcp://") {
        if let Some(rest) = text.strip_prefix("tcp:") {
            return Ok(format!(in alloc; "tcp://{rest}")?);
        }
    }
    Ok(format!(in alloc; "{text}")?)
}

fn url_of(alloc: Global, text: &str) -> Result<Url, EndpointError>
    ensures { Gives is_memory (λ u. u) result (parsed (parse_url None text.now)) }
{
    match Url::parse(alloc, text) {
        Ok(url) => Ok(url),
        Err(ParseError::OutOfMemory | ParseError::Overflow) => Err(EndpointError::OutOfMemory),
        Err(_) => Err(EndpointError::Parse(EndpointParseError)),
    }
}

/// The rules of every scheme.
fn check_common(url: &Url) -> Result<(), EndpointError>
    ensures { result ≡ spec.check_common url.now }
{
    if !url.username().is_empty() || url.password().is_some() {
        return Err(EndpointError::HasUserInfo);
    }
    if url.query().is_some() {
        return Err(EndpointError::HasQuery);
    }
    if url.fragment().is_some() {
        return Err(EndpointError::HasFragment);
    }
    Ok(())
}

fn unix_endpoint(alloc: Global, url: &Url) -> Result<Endpoint, EndpointError>
    ensures { Gives is_memory (λ e. e) result (unix_rule url.now) }
{
    if url.has_host() {
        return Err(EndpointError::UnixAuthorityNotAllowed);
    }
    let path = url.path();
    if path == "/" || !path.starts_with('/') {
        return Err(EndpointError::UnixMissingPath);
    }
    Ok(Endpoint::Unix(Text::copy_of(alloc, path)?))
}

/// The bits of four decimal numbers up to 255, without leading zeros.
fn ipv4_of(text: &str) -> Option<u32>
    ensures { result ≡ ipv4_in text.now }
{
    match Ipv4Addr::parse_ascii(text.as_bytes()) {
        Ok(address) => Some(address.to_bits()),
        Err(_) => None,
    }
}

fn tcp_host(url: &Url) -> Option<EndpointHost>
    ensures { result ≡ tcp_host_in url.now }
{
    match url.host() {
        Some(Host::Domain(text)) => Some(EndpointHost::V4(ipv4_of(text)?)),
        Some(Host::Ipv4(address)) => Some(EndpointHost::V4(address.to_bits())),
        Some(Host::Ipv6(address)) => Some(EndpointHost::V6(address.to_bits())),
        None => None,
    }
}

fn tcp_endpoint(url: &Url) -> Result<Endpoint, EndpointError>
    ensures { result ≡ tcp_rule url.now }
{
    let Some(host) = tcp_host(url) else {
        return Err(EndpointError::TcpHostNotIp);
    };
    let Some(port) = url.port() else {
        return Err(EndpointError::TcpMissingPort);
    };
    let path = url.path();
    if !path.is_empty() && path != "/" {
        return Err(EndpointError::TcpUnexpectedPath);
    }
    Ok(Endpoint::Tcp { host, port })
}

/// The endpoint by the rules of its scheme.
fn by_scheme(alloc: Global, url: &Url) -> Result<Endpoint, EndpointError>
    ensures { Gives is_memory (λ e. e) result (scheme_rule url.now) }
{
    match url.scheme() {
        "unix" => unix_endpoint(alloc, url),
        "tcp" => tcp_endpoint(url),
        _ => Err(EndpointError::InvalidScheme),
    }
}

impl Endpoint {
    /// Returns the endpoint that a text names, such as `unix:///run/agent.sock` or
    /// `tcp://127.0.0.1:8081`, or the first broken rule, in the order of `EndpointError`. The path
    /// of a socket keeps the escapes that a URL gives it.
    #[tactic(auto, unfolding(crate::specs::Endpoint::endpoint_rule))]
    pub fn parse(alloc: Global, input: &str) -> Result<Endpoint, EndpointError>
        ensures { Gives is_memory (λ e. e) result (endpoint_rule input.now) }
    {
        let text = rewritten(alloc, input)?;
        let url = url_of(alloc, text.as_str())?;
        check_common(&url)?;
        by_scheme(alloc, &url)
    }

    /// The same as `parse`.
    pub fn from_str(alloc: Global, input: &str) -> Result<Endpoint, EndpointError>
        ensures { Gives is_memory (λ e. e) result (endpoint_rule input.now) }
    {
        Endpoint::parse(alloc, input)
    }

    /// Returns a copy of the endpoint.
    pub fn try_clone(&self, alloc: Global) -> Result<Endpoint, OutOfMemory>
        ensures { IfOk result (λ e. e ≡ self.now) }
    {
        match self {
            Endpoint::Unix(path) => Ok(Endpoint::Unix(path.try_clone(alloc)?)),
            Endpoint::Tcp { host, port } => Ok(Endpoint::Tcp {
                host: *host,
                port: *port,
            }),
        }
    }
}
