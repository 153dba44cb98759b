//! A source over a board that this program publishes on.

ghost use Rattle.std.specs.Prelude.{◌≡◌, ◌≢◌, Some, [], IfOk};
ghost use Rattle.spf_system.specs.declared.maker.Maker.TheVariants as makers;
ghost use Rattle.spf_board.specs.Lists.{steps_of};
ghost use Rattle.spf_feed.specs.Steps.{MayFollow, plain};

use crate::item::first_context;
use spf_feed::{NoPicker, Prepared, ResourceLimits, Step, select_svid, validate_limits};
use spf_io::OutOfMemory;
use spf_system::{Bell, Closer, StopFlag, closed_cell};
use spf_x509::X509Context;
use spiffe::{Desk, Front, Pass, X509, X509Source, open};
use std::alloc::Global;
use std::mem::drop;
use std::sync::{Arc, Wait};

/// A step that accepts the context, with its first SVID.
pub(crate) fn accepting(context: Arc<X509Context>) -> Result<Step, OutOfMemory>
    ensures { IfOk result (λ step. MayFollow (Some []) (plain step)) }
{
    let limits = ResourceLimits::default_limits();
    if validate_limits(&context, limits).is_err() {
        return Err(OutOfMemory);
    }
    let choice = select_svid(&context, None::<&NoPicker>);
    Ok(Step::Accept {
        context,
        limits,
        choice,
    })
}

/// The step of the first update.
fn first_step(alloc: Global) -> Result<Prepared, OutOfMemory>
    ensures { IfOk result (λ step. MayFollow (Some []) step) }
{
    Prepared::new(alloc, accepting(first_context(alloc)?)?)
}

/// What closes a source. Its supervisor is this program, which ends it by nothing else.
fn caller_of(alloc: Global) -> Result<Closer, OutOfMemory>
    ensures { IfOk result (λ caller. caller.maker ≡ makers.Caller) }
{
    let (caller, supervisor, watch) = closed_cell(alloc)?;
    drop(supervisor);
    drop(watch);
    Ok(caller)
}

fn flag_and_bell(alloc: Global) -> Result<(StopFlag, Bell), OutOfMemory> {
    let stop = StopFlag::new(alloc)?;
    match Bell::new(alloc) {
        Ok(bell) => Ok((stop, bell)),
        Err(OutOfMemory) => {
            drop(stop);
            Err(OutOfMemory)
        }
    }
}

/// A source over what was published.
fn source_over(alloc: Global, front: Front<X509>) -> Result<X509Source, OutOfMemory>
    ensures { IfOk result (λ source. source.board ≡ front.book) }
{
    let (stop, bell) = flag_and_bell(alloc)?;
    match caller_of(alloc) {
        Ok(caller) => X509Source::over(alloc, front, caller, stop, bell),
        Err(OutOfMemory) => {
            drop(stop);
            drop(bell);
            Err(OutOfMemory)
        }
    }
}

/// A source with one accepted update, its writer and its first pass.
pub(crate) fn opened<R: Wait + Drop>(
    rt: R,
    alloc: Global,
) -> Result<(X509Source, Pass, Desk<R>), OutOfMemory>
    ensures pass { IfOk result (λ r. r.1.book ≡ r.0.board) }
    ensures step { IfOk result (λ r. steps_of r.2.list ≢ []) }
{
    let step = first_step(alloc)?;
    let (desk, pass) = open(alloc, rt, step)?;
    match source_over(alloc, desk.front()) {
        Ok(source) => Ok((source, pass, desk)),
        Err(OutOfMemory) => {
            drop(pass);
            drop(desk);
            Err(OutOfMemory)
        }
    }
}
