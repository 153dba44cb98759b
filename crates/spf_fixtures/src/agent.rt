//! An agent of the tests: a thread that answers on a Unix socket, one connection after another.

use crate::marks::{Marks, TURNS};
use crate::names::octets;
use std::alloc::Global;
use std::io::{Read, Write};
use std::os::unix::net::{UnixListener, UnixStream};
use std::test::Fail;
use std::thread::{self, JoinHandle, Threads};
use std::time::Duration;
use std::{fs, process};

/// One connection: what answers its request, as `octets` reads it. Then the agent closes it; or it
/// tells the test, waits for it, says the rest, and then nothing more.
pub type Scene = (&'static str, Option<&'static str>);

/// The same in octets.
#[derive(Drop)]
struct Played {
    answer: Vec<u8>,
    rest: Option<Vec<u8>>,
}

fn rest_of(alloc: Global, rest: Option<&str>) -> Result<Option<Vec<u8>>, Fail> {
    match rest {
        Some(rest) => Ok(Some(octets(alloc, rest)?)),
        None => Ok(None),
    }
}

fn scenes_of(alloc: Global, scenes: &[Scene]) -> Result<Vec<Played>, Fail> {
    let mut all = Vec::new(alloc);
    for &(answer, rest) in scenes {
        let rest = rest_of(alloc, rest)?;
        let answer = octets(alloc, answer)?;
        all.push(Played { answer, rest })?;
    }
    Ok(all)
}

/// Takes a connection, where one comes before the test lets all go on.
fn accepted(host: HostRuntime, listener: &UnixListener, marks: &Marks) -> Option<UnixStream> {
    for _ in 0..TURNS {
        if let Ok((stream, _)) = listener.accept() {
            return Some(stream);
        }
        if marks.go.is_set() {
            return None;
        }
        thread::sleep(&host, Duration::from_millis(1));
    }
    None
}

/// Waits until the other side is gone.
fn wait_for_end(stream: &mut UnixStream) {
    let mut rest = [0u8; 64];
    for _ in 0..1000 {
        match stream.read(&mut rest) {
            Ok(0) | Err(_) => return,
            Ok(_) => {}
        }
    }
}

/// Reads a request, and plays the scene.
fn play(host: HostRuntime, stream: &mut UnixStream, scene: &Played, marks: &Marks) {
    let mut request = [0u8; 64];
    let _ = stream.set_read_timeout(Some(Duration::from_secs(10)));
    let _ = stream.read(&mut request);
    let _ = stream.write_all(scene.answer.as_slice());
    if let Some(rest) = &scene.rest {
        if marks.hold(host) {
            let _ = stream.write_all(rest.as_slice());
            wait_for_end(stream);
        }
    }
}

/// Plays the scenes, each on a connection of its own.
fn serve(host: HostRuntime, listener: &UnixListener, scenes: &[Played], marks: &Marks) {
    for scene in scenes {
        match accepted(host, listener, marks) {
            Some(mut stream) => play(host, &mut stream, scene, marks),
            None => return,
        }
    }
}

/// The thread of an agent, the file of its socket, and the marks that it shares with its test.
pub struct Agent {
    path: String,
    server: JoinHandle<()>,
    marks: Marks,
}

impl Agent {
    /// Starts an agent that plays these scenes.
    pub fn start<R: Threads>(
        host: HostRuntime,
        rt: &R,
        name: &str,
        scenes: &[Scene],
    ) -> Result<Agent, Fail> {
        let process = process::id(host.process());
        let path = format!(in host.alloc(); "/tmp/spf_agent-{process}-{name}.sock")?;
        let marks = Marks::new(host.alloc())?;
        let theirs = marks.try_clone()?;
        let scenes = scenes_of(host.alloc(), scenes)?;
        let listener = UnixListener::bind(&host, path.as_str())?;
        listener.set_nonblocking(true)?;
        let server = thread::spawn(rt, move || {
            serve(host, &listener, scenes.as_slice(), &theirs)
        })?;
        Ok(Agent {
            path,
            server,
            marks,
        })
    }

    /// The path of the socket.
    pub fn path(&self) -> &str {
        self.path.as_str()
    }

    /// The marks that the agent heeds.
    pub fn marks(&self) -> &Marks {
        &self.marks
    }

    /// Lets the agent go on to its end, and removes the socket.
    pub fn end<R: Threads>(self, host: HostRuntime, rt: &R) -> Result<(), Fail> {
        let Agent {
            path,
            server,
            marks,
        } = self;
        marks.go.set();
        server.join(rt);
        fs::remove_file(&host, path.as_str())?;
        Ok(())
    }
}
