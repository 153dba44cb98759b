//! A denial between two asks.

ghost use Rattle.std.specs.Prelude.{◌≡◌, ◌≢◌, []};
ghost use Rattle.spf_board.specs.Lists.{steps_of};

use crate::source::{Held, opened, withdraw};
use spf_gate::gate_serve;
use spf_io::{Failed, MemSink, Source};
use spiffe::{BoardPlaces, Desk, Pass, X509Source};
use std::alloc::Global;
use std::marker::Model;
use std::process::Abort;
use std::sync::Wait;
use std::test::Fail;

/// What the first read returns: an empty policy, and an ask.
static FIRST: &[u8] = b"---\nspiffe://example.org/w\n";

/// What the second returns, after another pass has read a denial.
static SECOND: &[u8] = b"spiffe://example.org/w\n";

/// An input that hands out its second ask only after another pass has read a denial.
#[derive(Drop)]
struct LateAsk<R: Wait + Drop> {
    alloc: Global,
    source: X509Source,
    other: Pass,
    // What is to publish the denial, and what has published it.
    desk: Option<Desk<R>>,
    spent: Option<Desk<R>>,
    is_begun: bool,
    failures: u64,
}

impl<R: Wait + Drop> Model for LateAsk<R> {
    ghost use Rattle.std.specs.Prelude.{◌≡◌, ◌≢◌, [], IfSome, ℕ};
    ghost use Rattle.spf_board.specs.Lists.{steps_of};

    ghost Value = { ℕ };

    ghost view = { λ a. a.failures };

    ghost invariant = { λ a. (a.other.book ≡ a.source.board)
        × IfSome a.desk (λ d. steps_of d.list ≢ []) };
}

impl<R: Wait + Drop> LateAsk<R> {
    /// Publishes a denial, and reads it by the other pass. It returns whether that was done.
    fn deny(&mut self) -> bool
        ensures { self.new ≡ self.old }
    {
        let Some(mut desk) = self.desk.take() else {
            return false;
        };
        let published = withdraw(self.alloc, &mut desk);
        self.spent = Some(desk);
        published.is_ok() && self.source.state(&mut self.other).is_ok()
    }

    /// The next piece of the input.
    fn next(&mut self) -> &'static [u8]
        ensures { self.new ≡ self.old }
    {
        if !self.is_begun {
            self.is_begun = true;
            return FIRST;
        }
        if self.deny() { SECOND } else { b"" }
    }
}

impl<R: Wait + Drop> Source for LateAsk<R> {
    ghost use Rattle.std.specs.Prelude.{None};

    ghost left = { λ _. None };

    ghost failures = { λ a. a };

    fn read(&mut self, buf: &mut [u8]) -> Result<usize, Failed> {
        let piece = self.next();
        match buf.get_mut(..piece.len()) {
            Some(front) => {
                front.copy_from_slice(piece);
                Ok(piece.len())
            }
            None => {
                self.failures = self.failures.saturating_add(1);
                Err(Failed)
            }
        }
    }
}

/// An input of asks of this source, whose denial this desk publishes.
fn late_ask<R: Wait + Abort + Copy + Drop>(
    rt: R,
    alloc: Global,
    source: &mut X509Source,
    pass: &mut Pass,
    desk: Desk<R>,
) -> LateAsk<R>
    requires { (pass.old.book ≡ source.old.board) × (steps_of desk.list ≢ []) }
    ensures { pass.new.book ≡ source.new.board }
{
    let other = source.another_pass(pass, &mut BoardPlaces::new());
    let other = other.expect(&rt, "a pass");
    let source = source.try_clone().expect(&rt, "a handle");
    LateAsk {
        alloc,
        source,
        other,
        desk: Some(desk),
        spent: None,
        is_begun: false,
        failures: 0,
    }
}

const LINES: &str = "no-rule 0 spiffe://example.org/w\nwithdrawn 1 spiffe://example.org/w\n";

/// The second of two asks is answered by a denial that another pass has read between them.
#[test]
fn denial_between_two_asks(rt: HostRuntime) -> Result<(), Fail> {
    let alloc = rt.alloc();
    let Held {
        mut source,
        mut pass,
        desk,
        stop,
    } = opened(rt, alloc)?;
    let mut out = MemSink::new(alloc, 4096, Vec::new(alloc)).expect(&rt, "a sink");
    let mut input = late_ask(rt, alloc, &mut source, &mut pass, desk);
    let end = gate_serve(alloc, &source, &mut pass, &mut input, &mut out, 100);
    assert!(rt; end == Ok(2));
    assert!(rt; out.bytes() == LINES.as_bytes());
    drop(input);
    drop(out);
    drop(stop);
    drop(pass);
    drop(source);
    Ok(())
}
