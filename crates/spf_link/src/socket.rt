//! Sockets as readers and writers, whose waits end soon once a flag is set.

ghost use Rattle.std.specs.Io.{ReadsAtMost, WritesAtMost};

use spf_system::StopFlag;
use std::io::{self, ErrorKind, Read, Write};
use std::net::TcpStream;
use std::os::unix::net::UnixStream;
use std::time::Duration;

/// How many milliseconds the system waits at once, at most, before the flag is looked at again.
const PIECE_MILLIS: u64 = 100;

/// Whether a wait that has lasted for this many milliseconds is to end.
pub(crate) fn is_over(stop: &Option<StopFlag>, waited_millis: u64) -> bool {
    match stop {
        None => false,
        Some(stop) => {
            stop.is_set()
                || match stop.wait_limit() {
                    None => false,
                    Some(limit) => u128::from(waited_millis) >= limit.as_millis(),
                }
        }
    }
}

/// Whether the system gave up waiting, and the call may be made again.
fn is_to_repeat(kind: ErrorKind) -> bool {
    matches!(
        kind,
        ErrorKind::WouldBlock | ErrorKind::TimedOut | ErrorKind::Interrupted
    )
}

/// A connected socket.
#[derive(Drop)]
pub(crate) enum Socket {
    Unix(UnixStream),
    Tcp(TcpStream),
}

impl Socket {
    /// Limits each read and each write of the system to a wait of one piece.
    pub(crate) fn wait_in_pieces(&self) -> io::Result<()> {
        let piece = Some(Duration::from_millis(PIECE_MILLIS));
        match self {
            Socket::Unix(stream) => {
                stream.set_read_timeout(piece)?;
                stream.set_write_timeout(piece)
            }
            Socket::Tcp(stream) => {
                stream.set_nodelay(true)?;
                stream.set_read_timeout(piece)?;
                stream.set_write_timeout(piece)
            }
        }
    }

    pub(crate) fn try_clone(&self) -> io::Result<Socket> {
        match self {
            Socket::Unix(stream) => Ok(Socket::Unix(stream.try_clone()?)),
            Socket::Tcp(stream) => Ok(Socket::Tcp(stream.try_clone()?)),
        }
    }

    fn read(&mut self, buf: &mut [u8]) -> io::Result<usize>
        ensures { ReadsAtMost result buf.new }
    {
        match self {
            Socket::Unix(stream) => stream.read(buf),
            Socket::Tcp(stream) => stream.read(buf),
        }
    }

    fn write(&mut self, buf: &[u8]) -> io::Result<usize>
        ensures { WritesAtMost result buf.now }
    {
        match self {
            Socket::Unix(stream) => stream.write(buf),
            Socket::Tcp(stream) => stream.write(buf),
        }
    }
}

/// One end of a socket, read from or written to. A wait
/// that is to end fails, as a read or write that failed.
#[derive(Drop)]
pub struct SocketEnd {
    socket: Socket,
    stop: Option<StopFlag>,
}

impl SocketEnd {
    pub(crate) fn new(socket: Socket, stop: Option<StopFlag>) -> SocketEnd {
        SocketEnd { socket, stop }
    }
}

impl Read for SocketEnd {
    fn read(&mut self, buf: &mut [u8]) -> io::Result<usize> {
        let mut waited_millis = 0u64;
        'pieces: for _ in 0..u64::MAX {
            if is_over(&self.stop, waited_millis) {
                break;
            }
            match self.socket.read(buf) {
                Ok(n) => return Ok(n),
                Err(e) => {
                    if !is_to_repeat(e.kind()) {
                        return Err(e);
                    }
                }
            }
            waited_millis = waited_millis.saturating_add(PIECE_MILLIS);
        }
        Err(io::Error::from(ErrorKind::TimedOut))
    }
}

impl Write for SocketEnd {
    fn write(&mut self, buf: &[u8]) -> io::Result<usize> {
        let mut waited_millis = 0u64;
        'pieces: for _ in 0..u64::MAX {
            if is_over(&self.stop, waited_millis) {
                break;
            }
            match self.socket.write(buf) {
                Ok(n) => return Ok(n),
                Err(e) => {
                    if !is_to_repeat(e.kind()) {
                        return Err(e);
                    }
                }
            }
            waited_millis = waited_millis.saturating_add(PIECE_MILLIS);
        }
        Err(io::Error::from(ErrorKind::TimedOut))
    }

    fn flush(&mut self) -> io::Result<()> {
        Ok(())
    }
}
