//! The lines of a source that was built.

ghost use Rattle.std.specs.Prelude.{◌≡◌, ◌≤◌, IfErr};
ghost use Rattle.spf_io.specs.Outside.{Rose};
ghost use Rattle.spf_live.specs.Printing.{PrintsTo};
ghost use Rattle.spf_live.specs.Runs.{FollowFails};

use crate::error::{LiveError, error_of};
use crate::printing::print_lines;
use spf_io::Sink;
use spf_system::Clock;
use spiffe::{Pass, Places, X509Source, X509SourceUpdates};
use std::alloc::Global;
use std::mem::drop;
use std::sync::Wait;
use std::time;

/// Prints that many lines of what the source holds. The pass that comes back has seen the lists of
/// all of them.
pub(crate) fn print_source<R: Wait + time::Clock, T: Clock, L: Places, K: Sink>(
    rt: &R,
    alloc: Global,
    source: X509Source,
    pass: Pass,
    clock: &mut T,
    places: &mut L,
    out: &mut K,
    lines: u64,
) -> (Pass, Result<(), LiveError>)
    requires pass { pass.book ≡ source.board }
    requires lines { 1 ≤ lines }
    ensures prints { PrintsTo result.0.seen lines (T.moments clock.old) (T.moments clock.new)
        (K.held out.old) (K.held out.new) result.1 }
    ensures board { result.0.book ≡ pass.book }
    ensures places { L.refusals places.old ≤ L.refusals places.new }
    ensures cause { IfErr result.1 (FollowFails
        (Rose (L.refusals places.old) (L.refusals places.new))
        (Rose (K.failures out.old) (K.failures out.new))) }
{
    let mut pass = pass;
    match source.updated(&mut pass, places) {
        Ok(updates) => {
            drop(pass);
            let printed = print_updates(rt, alloc, updates, clock, out, lines);
            drop(source);
            printed
        }
        Err(e) => {
            drop(source);
            (pass, Err(error_of(e)))
        }
    }
}

/// Prints that many lines of the updates, and returns their pass.
fn print_updates<R: Wait + time::Clock, T: Clock, K: Sink>(
    rt: &R,
    alloc: Global,
    updates: X509SourceUpdates,
    clock: &mut T,
    out: &mut K,
    lines: u64,
) -> (Pass, Result<(), LiveError>)
    requires { 1 ≤ lines }
    ensures prints { PrintsTo result.0.seen lines (T.moments clock.old) (T.moments clock.new)
        (K.held out.old) (K.held out.new) result.1 }
    ensures board { result.0.book ≡ updates.pass.book }
    ensures cause { IfErr result.1 (FollowFails ⊥ (Rose (K.failures out.old)
        (K.failures out.new))) }
{
    let mut updates = updates;
    let printed = print_lines(rt, alloc, &mut updates, clock, out, lines);
    (updates.into_pass(), printed)
}
