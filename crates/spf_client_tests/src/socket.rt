//! Links over real sockets, to server threads of the tests.

use spf_api::{
    ClientFault, EndpointError, EndpointParseError, GrpcStatusCode, LinkFault, Response,
    TransportError, WorkloadApiError,
};
use spf_client::WorkloadApiClient;
use spf_fixtures::{first_item, octets};
use spf_io::{OutOfMemory, Text};
use spf_link::{
    Connector, Endpoint, EndpointConnector, EnvConnector, Headers, Link, NoInterceptor, Request,
    SocketLink,
};
use spf_system::{EnvValue, MemEnvironment, StopFlag};
use spf_x509::X509Svid;
use std::alloc::Global;
use std::fs;
use std::io::{self, Read, Write};
use std::mem::drop;
use std::net::TcpListener;
use std::os::unix::net::UnixListener;
use std::process::Abort;
use std::test::Fail;
use std::thread::{self, JoinHandle, Threads};
use std::time::{Duration, Instant};

/// How many seconds a wait that is ended may take, with some slack for a busy machine.
const SOON: u64 = 1;

/// Reads a request, and answers it with these octets.
fn answer<T: Read + Write>(stream: &mut T, octets: &[u8]) -> io::Result<()> {
    let mut request = [0u8; 64];
    stream.read(&mut request)?;
    stream.write_all(octets)
}

/// Waits until the other side is gone.
fn wait_for_end<T: Read>(stream: &mut T) {
    let mut rest = [0u8; 64];
    for _ in 0..1000 {
        match stream.read(&mut rest) {
            Ok(0) | Err(_) => return,
            Ok(_) => {}
        }
    }
}

/// Answers one request after another on one connection; then it is closed, or nothing more is sent.
fn serve<T: Read + Write>(stream: &mut T, answers: &[Vec<u8>], closes: bool) {
    for octets in answers {
        if answer(stream, octets.as_slice()).is_err() {
            return;
        }
    }
    if !closes {
        wait_for_end(stream);
    }
}

fn serve_tcp(listener: &TcpListener, answers: &[Vec<u8>]) {
    if let Ok((mut stream, _)) = listener.accept() {
        serve(&mut stream, answers, false);
    }
}

fn serve_unix(listener: &UnixListener, answers: &[Vec<u8>]) {
    if let Ok((mut stream, _)) = listener.accept() {
        serve(&mut stream, answers, true);
    }
}

/// Takes a request, sets the flag, and sends nothing.
fn stop_instead(listener: &TcpListener, stop: &StopFlag) {
    if let Ok((mut stream, _)) = listener.accept() {
        let mut request = [0u8; 64];
        let _ = stream.read(&mut request);
        stop.set();
        wait_for_end(&mut stream);
    }
}

/// The text of a TCP endpoint on loopback.
fn endpoint_of(alloc: Global, listener: &TcpListener) -> Option<String> {
    let address = listener.local_addr().ok()?;
    format!(in alloc; "tcp://{address}").ok()
}

/// The octets of each text.
fn answers_of(alloc: Global, texts: &[&str]) -> Result<Vec<Vec<u8>>, Fail> {
    let mut answers = Vec::new(alloc);
    for text in texts {
        answers.push(octets(alloc, text)?)?;
    }
    Ok(answers)
}

/// Whether the refusal is a status of that code.
fn has_code(fault: LinkFault, code: GrpcStatusCode) -> bool {
    let has_code = match &fault {
        LinkFault::Status(status) => status.code() == code,
        _ => false,
    };
    drop(fault);
    has_code
}

/// Whether nothing was reached, for a reason that names this.
fn is_unreachable(connected: Result<SocketLink, ClientFault>, named: &str) -> bool {
    match connected {
        Ok(link) => {
            drop(link);
            false
        }
        Err(fault) => {
            let is_named = match &fault {
                ClientFault::Unreachable(text) => text.as_str().contains(named),
                _ => false,
            };
            drop(fault);
            is_named
        }
    }
}

/// A listener on loopback, and the text of its endpoint.
fn listen(rt: HostRuntime) -> Option<(TcpListener, String)> {
    let listener = TcpListener::bind(&rt, "127.0.0.1:0").ok()?;
    match endpoint_of(rt.alloc(), &listener) {
        Some(endpoint) => Some((listener, endpoint)),
        None => {
            drop(listener);
            None
        }
    }
}

/// Starts a server of one connection on loopback, and returns the text of its endpoint as well.
fn tcp_server<R: Threads + Abort>(
    host: HostRuntime,
    rt: &R,
    answers: Vec<Vec<u8>>,
) -> (JoinHandle<()>, String) {
    let (listener, endpoint) = listen(host).expect(rt, "a listener");
    let server = thread::spawn(rt, move || serve_tcp(&listener, answers.as_slice()));
    (server.expect(rt, "a thread"), endpoint)
}

/// The link that the connector makes.
fn link_of(mut connector: EndpointConnector<HostRuntime>) -> Result<SocketLink, ClientFault> {
    let connected = connector.connect();
    drop(connector);
    connected
}

/// A link to the endpoint of the text, whose waits heed the flag.
fn link_to(
    rt: HostRuntime,
    endpoint: &str,
    stop: Option<StopFlag>,
) -> Result<SocketLink, ClientFault> {
    match EndpointConnector::new(rt, rt.alloc(), endpoint) {
        Ok(mut connector) => {
            if let Some(stop) = stop {
                connector.heed(stop);
            }
            link_of(connector)
        }
        Err(OutOfMemory) => {
            drop(stop);
            Err(ClientFault::OutOfMemory)
        }
    }
}

/// A link to the socket of that path.
fn unix_link(rt: HostRuntime, path: &str) -> Result<SocketLink, ClientFault> {
    match Text::copy_of(rt.alloc(), path) {
        Ok(path) => link_of(EndpointConnector::to(rt, rt.alloc(), Endpoint::Unix(path))),
        Err(OutOfMemory) => Err(ClientFault::OutOfMemory),
    }
}

fn start(alloc: Global, link: &mut SocketLink) -> Result<(), LinkFault> {
    let headers = Headers::new(alloc);
    let started = link.start(&headers, &Request::X509Svid);
    drop(headers);
    started
}

/// Whether a request is granted.
fn is_started(alloc: Global, link: &mut SocketLink) -> bool {
    match start(alloc, link) {
        Ok(()) => true,
        Err(fault) => {
            drop(fault);
            false
        }
    }
}

/// Whether the next item is that one.
fn gives(link: &mut SocketLink, item: &Response) -> bool {
    let next = link.next();
    let is_item = match &next {
        Ok(Some(found)) => *found == *item,
        _ => false,
    };
    drop(next);
    is_item
}

/// The item I1, and the octets of each text.
fn first_and_answers(alloc: Global, texts: &[&str]) -> Result<(Response, Vec<Vec<u8>>), Fail> {
    let answers = answers_of(alloc, texts)?;
    match first_item(alloc) {
        Ok(item) => Ok((Response::Context(item), answers)),
        Err(fail) => {
            drop(answers);
            Err(fail)
        }
    }
}

#[test]
fn socket_link(rt: HostRuntime) -> Result<(), Fail> {
    // The second request is answered after items of the first stream.
    let (first, answers) = first_and_answers(rt.alloc(), &["CN I1 I1 I1", "CN I1"])?;
    let (server, endpoint) = tcp_server(rt, &rt, answers);
    let mut link = link_to(rt, endpoint.as_str(), None).expect(&rt, "a link");
    drop(endpoint);
    for _ in 0..2 {
        assert!(rt; is_started(rt.alloc(), &mut link));
        assert!(rt; gives(&mut link, &first));
    }
    drop(link);
    drop(first);
    server.join(&rt);
    Ok(())
}

/// A path for a socket of this process.
fn socket_path(rt: &HostRuntime) -> Option<String> {
    let process = std::process::id(rt.process());
    format!(in rt.alloc(); "/tmp/spf_client_tests-{process}.sock").ok()
}

/// Whether the next item is cut.
fn is_cut(link: &mut SocketLink) -> bool {
    match link.next() {
        Ok(item) => {
            drop(item);
            false
        }
        Err(fault) => has_code(fault, GrpcStatusCode::Internal),
    }
}

/// Starts a server of one connection at the path.
fn unix_server<R: Threads + Abort>(
    host: HostRuntime,
    rt: &R,
    path: &str,
    answers: Vec<Vec<u8>>,
) -> JoinHandle<()> {
    let listener = UnixListener::bind(&host, path).expect(rt, "a listener");
    let server = thread::spawn(rt, move || serve_unix(&listener, answers.as_slice()));
    server.expect(rt, "a thread")
}

#[test]
fn unix_answer_is_cut(rt: HostRuntime) -> Result<(), Fail> {
    let answers = answers_of(rt.alloc(), &["CN 05 0000011a 0000"])?;
    let path = socket_path(&rt).expect(&rt, "a path");
    let server = unix_server(rt, &rt, path.as_str(), answers);
    let mut link = unix_link(rt, path.as_str()).expect(&rt, "a link");
    assert!(rt; is_started(rt.alloc(), &mut link));
    assert!(rt; is_cut(&mut link));
    drop(link);
    server.join(&rt);
    fs::remove_file(&rt, path.as_str()).expect(&rt, "a file");
    drop(path);
    Ok(())
}

/// Whether a request is refused as unavailable.
fn is_refused(alloc: Global, link: &mut SocketLink) -> bool {
    match start(alloc, link) {
        Ok(()) => false,
        Err(fault) => has_code(fault, GrpcStatusCode::Unavailable),
    }
}

/// Whether a request over the link is refused soon.
fn is_refused_soon(rt: &HostRuntime, link: &mut SocketLink) -> bool {
    let Ok(begun) = Instant::now(rt) else {
        return false;
    };
    if !is_refused(rt.alloc(), link) {
        return false;
    }
    match begun.elapsed(rt) {
        Ok(elapsed) => elapsed < Duration::from_secs(SOON),
        Err(_) => false,
    }
}

#[test]
fn wait_ends_by_its_mark(rt: HostRuntime) {
    let (listener, endpoint) = listen(rt).expect(&rt, "a listener");
    let stop = StopFlag::new(rt.alloc()).expect(&rt, "a flag");
    let theirs = stop.try_clone().expect(&rt, "a flag");
    let server = thread::spawn(&rt, move || stop_instead(&listener, &theirs));
    let server = server.expect(&rt, "a thread");
    let mut link = link_to(rt, endpoint.as_str(), Some(stop)).expect(&rt, "a link");
    drop(endpoint);
    assert!(rt; is_refused_soon(&rt, &mut link));
    drop(link);
    server.join(&rt);
}

#[test]
fn wait_ends_by_its_limit(rt: HostRuntime) {
    // The system accepts the connection, and no one answers.
    let (listener, endpoint) = listen(rt).expect(&rt, "a listener");
    let stop = StopFlag::new(rt.alloc()).expect(&rt, "a flag");
    stop.limit(Some(Duration::from_millis(300)));
    let mut link = link_to(rt, endpoint.as_str(), Some(stop)).expect(&rt, "a link");
    drop(endpoint);
    assert!(rt; is_refused_soon(&rt, &mut link));
    drop(link);
    drop(listener);
}

/// A path at which nobody listens.
const NOBODY: &str = "/tmp/spf_client_tests-nobody.sock";

fn long_path(alloc: Global) -> Option<String> {
    String::from_utf8(vec![in alloc; b'x'; 200].ok()?).ok()
}

#[test]
fn no_path_is_reached(rt: HostRuntime) {
    let long = long_path(rt.alloc()).expect(&rt, "a path");
    for path in [NOBODY, "/etc/hostname", "", long.as_str()] {
        assert!(rt; is_unreachable(unix_link(rt, path), path), "{path}");
    }
    drop(long);
}

#[test]
fn no_address_is_reached(rt: HostRuntime) {
    let (listener, endpoint) = listen(rt).expect(&rt, "a listener");
    drop(listener);
    assert!(rt; is_unreachable(link_to(rt, endpoint.as_str(), None), "127.0.0.1:"));
    drop(endpoint);
}

/// Whether the text names no endpoint, before a connection and at one.
fn is_broken(rt: HostRuntime, text: &str) -> Result<bool, OutOfMemory> {
    let mut connector = EndpointConnector::new(rt, rt.alloc(), text)?;
    let is_invalid = connector.validate() == Err(EndpointError::Parse(EndpointParseError));
    let is_unreachable = is_unreachable(link_of(connector), "endpoint socket is not a valid URI");
    Ok(is_invalid && is_unreachable)
}

/// Whether nothing is reached where the environment names no endpoint.
fn is_unset(rt: HostRuntime) -> bool {
    let environment = MemEnvironment::new(EnvValue::Missing);
    let mut connector = EnvConnector::new(rt, rt.alloc(), environment);
    let connected = connector.connect();
    drop(connector);
    is_unreachable(connected, "SPIFFE_ENDPOINT_SOCKET")
}

#[test]
fn no_endpoint_is_reached(rt: HostRuntime) {
    assert!(rt; is_broken(rt, "foo").expect(&rt, "memory"));
    assert!(rt; is_unset(rt));
}

fn is_first(answer: Result<X509Svid, WorkloadApiError>) -> bool {
    match answer {
        Ok(svid) => {
            let is_first = svid.spiffe_id().as_str() == "spiffe://example.org/w";
            drop(svid);
            is_first
        }
        Err(e) => {
            drop(e);
            false
        }
    }
}

type Client = WorkloadApiClient<SocketLink, NoInterceptor>;

/// A client of the endpoint that the environment names.
fn client_of(rt: HostRuntime, endpoint: &str) -> Result<Client, WorkloadApiError> {
    let value = EnvValue::Found(Text::copy_of(rt.alloc(), endpoint)?);
    let environment = MemEnvironment::new(value);
    let client = WorkloadApiClient::connect_env(rt, rt.alloc(), &environment);
    drop(environment);
    client
}

/// Whether the client has the endpoint of the text.
fn has_endpoint(alloc: Global, client: &Client, text: &str) -> bool {
    match Endpoint::parse(alloc, text) {
        Ok(endpoint) => {
            let is_same = client.endpoint() == Some(&endpoint);
            drop(endpoint);
            is_same
        }
        Err(e) => {
            drop(e);
            false
        }
    }
}

#[test]
fn client_over_a_socket(rt: HostRuntime) -> Result<(), Fail> {
    let answers = answers_of(rt.alloc(), &["CN I1", "CN I1"])?;
    let (server, endpoint) = tcp_server(rt, &rt, answers);
    let mut client = client_of(rt, endpoint.as_str()).expect(&rt, "a client");
    assert!(rt; has_endpoint(rt.alloc(), &client, endpoint.as_str()));
    drop(endpoint);
    for _ in 0..2 {
        assert!(rt; is_first(client.fetch_x509_svid(rt.alloc())));
    }
    drop(client);
    server.join(&rt);
    Ok(())
}

/// Whether the error is that nothing was reached, or that no endpoint is set, and names this.
fn is_named(alloc: Global, e: &WorkloadApiError, named: &str) -> Result<bool, OutOfMemory> {
    match e {
        WorkloadApiError::Transport(TransportError::Connect(e)) => {
            Ok(format!(in alloc; "{e}")?.as_str().contains(named))
        }
        WorkloadApiError::MissingEndpointSocket => Ok(named == "SPIFFE_ENDPOINT_SOCKET"),
        _ => Ok(false),
    }
}

/// Whether there is no client, for a reason that names this.
fn is_nobody(
    alloc: Global,
    made: Result<Client, WorkloadApiError>,
    named: &str,
) -> Result<bool, OutOfMemory> {
    match made {
        Ok(client) => {
            drop(client);
            Ok(false)
        }
        Err(e) => {
            let is_named = is_named(alloc, &e, named);
            drop(e);
            is_named
        }
    }
}

#[test]
fn client_of_nobody(rt: HostRuntime) {
    let alloc = rt.alloc();
    let path = Text::copy_of(alloc, NOBODY).expect(&rt, "memory");
    let made = WorkloadApiClient::connect(rt, alloc, Endpoint::Unix(path));
    assert!(rt; is_nobody(alloc, made, NOBODY).expect(&rt, "memory"));
    let environment = MemEnvironment::new(EnvValue::Missing);
    let made = WorkloadApiClient::connect_env(rt, alloc, &environment);
    drop(environment);
    assert!(rt; is_nobody(alloc, made, "SPIFFE_ENDPOINT_SOCKET").expect(&rt, "memory"));
}
