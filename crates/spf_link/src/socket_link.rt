//! Links over sockets, and how an endpoint is reached.

ghost use Rattle.std.specs.Prelude.{◌≡◌, IfErr};
ghost use Rattle.std.specs.Net.Socket.{socket_ip, socket_port};
ghost use Rattle.spf_link.specs.Endpoints.{IsAddressOf, IsNoStatus};

use crate::endpoint::{Endpoint, EndpointHost};
use crate::socket::{Socket, SocketEnd, is_over};
use crate::wire_link::WireLink;
use spf_api::ClientFault;
use spf_io::{OutOfMemory, StdSink, StdSource, Text};
use spf_system::StopFlag;
use std::alloc::Global;
use std::io::{self, ErrorKind};
use std::net::{IpAddr, Ipv4Addr, Ipv6Addr, Net, SocketAddr, TcpStream};
use std::os::unix::net::UnixStream;
use std::time::Duration;

/// For how many milliseconds the system tries to connect, at most, before the flag is looked at.
const TRY_MILLIS: u64 = 200;

/// A link over the wire of a Unix or TCP socket.
pub type SocketLink = WireLink<StdSource<SocketEnd>, StdSink<SocketEnd>>;

fn address_of(host: EndpointHost, port: u16) -> SocketAddr
    ensures ip { IsAddressOf host (socket_ip result) }
    ensures port { socket_port result ≡ port }
{
    let ip = match host {
        EndpointHost::V4(bits) => IpAddr::V4(Ipv4Addr::from_bits(bits)),
        EndpointHost::V6(bits) => IpAddr::V6(Ipv6Addr::from_bits(bits)),
    };
    SocketAddr::new(ip, port)
}

/// Connects as the system does; with a flag, in tries of at most `TRY_MILLIS` each.
fn connect_tcp<R: Net<Stream = TcpStream>>(
    net: &R,
    address: SocketAddr,
    stop: &Option<StopFlag>,
) -> io::Result<TcpStream> {
    if stop.is_none() {
        return net.connect(address);
    }
    let mut waited_millis = 0u64;
    'tries: for _ in 0..u64::MAX {
        if is_over(stop, waited_millis) {
            break;
        }
        match net.connect_timeout(address, Duration::from_millis(TRY_MILLIS)) {
            Ok(stream) => return Ok(stream),
            Err(e) => {
                if e.kind() != ErrorKind::TimedOut {
                    return Err(e);
                }
            }
        }
        waited_millis = waited_millis.saturating_add(TRY_MILLIS);
    }
    Err(io::Error::from(ErrorKind::TimedOut))
}

/// The socket of an endpoint, and the same one for writing.
fn open<R: Net<Stream = TcpStream>>(
    net: &R,
    endpoint: &Endpoint,
    stop: &Option<StopFlag>,
) -> io::Result<(Socket, Socket)> {
    let socket = match endpoint {
        Endpoint::Unix(path) => Socket::Unix(UnixStream::connect(net, path.as_str())?),
        Endpoint::Tcp { host, port } => {
            Socket::Tcp(connect_tcp(net, address_of(*host, *port), stop)?)
        }
    };
    socket.wait_in_pieces()?;
    let other = socket.try_clone()?;
    Ok((socket, other))
}

/// A text that names the endpoint and says what went wrong.
fn why(alloc: Global, endpoint: &Endpoint, e: &io::Error) -> Result<Text, OutOfMemory> {
    let text = match endpoint {
        Endpoint::Unix(path) => {
            let path = path.as_str();
            format!(in alloc; "{path}: {e}")?
        }
        Endpoint::Tcp { host, port } => {
            let address = address_of(*host, *port);
            format!(in alloc; "{address}: {e}")?
        }
    };
    Ok(Text::new(text))
}

fn clone_of(stop: &Option<StopFlag>) -> Result<Option<StopFlag>, OutOfMemory> {
    match stop {
        Some(stop) => Ok(Some(stop.try_clone()?)),
        None => Ok(None),
    }
}

fn link_over(
    alloc: Global,
    socket: Socket,
    other: Socket,
    stop: &Option<StopFlag>,
) -> Result<SocketLink, OutOfMemory> {
    let source = StdSource::new(SocketEnd::new(socket, clone_of(stop)?));
    let sink = StdSink::new(SocketEnd::new(other, clone_of(stop)?));
    Ok(WireLink::new(alloc, source, sink))
}

/// A link to the endpoint. Where it cannot be reached, the text names it.
pub(crate) fn connect_endpoint<R: Net<Stream = TcpStream>>(
    net: &R,
    alloc: Global,
    endpoint: &Endpoint,
    stop: &Option<StopFlag>,
) -> Result<SocketLink, ClientFault>
    ensures { IfErr result (λ f. IsNoStatus f) }
{
    let (socket, other) = match open(net, endpoint, stop) {
        Ok(sockets) => sockets,
        Err(e) => {
            return Err(match why(alloc, endpoint, &e) {
                Ok(text) => ClientFault::Unreachable(text),
                Err(_) => ClientFault::OutOfMemory,
            });
        }
    };
    match link_over(alloc, socket, other, stop) {
        Ok(link) => Ok(link),
        Err(_) => Err(ClientFault::OutOfMemory),
    }
}
