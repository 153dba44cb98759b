//! The URI of a TCP endpoint.

ghost use Rattle.std.specs.Prelude.{◌≡◌, IfOk, string_bytes};
ghost use Rattle.spf_link.specs.TcpUri.{V4, V6};
ghost use Rattle.spf_link.specs.TcpUri as spec;

use crate::endpoint::EndpointHost;
use spf_io::{OutOfMemory, Text};
use std::alloc::Global;
use std::net::{Ipv4Addr, Ipv6Addr};

fn ipv4_uri(alloc: Global, bits: u32, port: u16) -> Result<String, OutOfMemory>
    ensures { IfOk result (λ s. string_bytes s ≡ spec.tcp_uri (V4 bits) port) }
{
    let address = Ipv4Addr::from_bits(bits);
    Ok(format!(in alloc; "http://{address}:{port}")?)
}

fn ipv6_uri(alloc: Global, bits: u128, port: u16) -> Result<String, OutOfMemory>
    ensures { IfOk result (λ s. string_bytes s ≡ spec.tcp_uri (V6 bits) port) }
{
    let address = Ipv6Addr::from_bits(bits);
    Ok(format!(in alloc; "http://[{address}]:{port}")?)
}

/// `http://HOST:PORT`, with an IPv6 host in brackets in the form of RFC 5952.
pub fn tcp_uri(alloc: Global, host: EndpointHost, port: u16) -> Result<Text, OutOfMemory>
    ensures { IfOk result (λ t. t ≡ spec.tcp_uri host port) }
{
    match host {
        EndpointHost::V4(bits) => Ok(Text::new(ipv4_uri(alloc, bits, port)?)),
        EndpointHost::V6(bits) => Ok(Text::new(ipv6_uri(alloc, bits, port)?)),
    }
}
