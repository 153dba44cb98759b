//! A writer that publishes without pause.

ghost use Rattle.std.specs.Prelude.{◌≢◌, [], IfOk, OnOk};
ghost use Rattle.spf_board.specs.Lists.{steps_of};

use crate::board::accepting;
use crate::item::first_context;
use spf_feed::{Denial, Step};
use spf_io::OutOfMemory;
use spf_system::StopFlag;
use spf_x509::X509Context;
use spiffe::{Desk, publish_on};
use std::alloc::Global;
use std::mem::drop;
use std::sync::{Arc, Wait};

/// Publishes a denial, and then an update.
fn publish_both<R: Wait + Drop>(
    alloc: Global,
    desk: &mut Desk<R>,
    denial: &Arc<Denial>,
    context: &Arc<X509Context>,
) -> Result<(), OutOfMemory>
    requires { steps_of desk.old.list ≢ [] }
    ensures { OnOk result (steps_of desk.new.list ≢ []) }
{
    let reason = Arc::try_clone(denial)?;
    publish_on(alloc, desk, Step::Deny { reason })?;
    publish_on(alloc, desk, accepting(Arc::try_clone(context)?)?)
}

/// Publishes both in turn until the flag is set, and returns how many.
fn publish_in_turn<R: Wait + Drop>(
    rt: &R,
    alloc: Global,
    desk: &mut Desk<R>,
    denial: &Arc<Denial>,
    context: &Arc<X509Context>,
    stop: &StopFlag,
) -> Result<u64, OutOfMemory>
    requires { steps_of desk.old.list ≢ [] }
{
    let mut published = 0u64;
    'publishing: for _ in rt.forever() {
        if stop.is_set() {
            break;
        }
        publish_both(alloc, desk, denial, context)?;
        published = published.wrapping_add(2);
    }
    Ok(published)
}

/// What is published in turn.
fn denial_and_context(alloc: Global) -> Result<(Arc<Denial>, Arc<X509Context>), OutOfMemory> {
    let denial = Arc::new(alloc, Denial::NoIdentityIssued)?;
    match first_context(alloc) {
        Ok(context) => Ok((denial, context)),
        Err(OutOfMemory) => {
            drop(denial);
            Err(OutOfMemory)
        }
    }
}

/// Publishes denials and updates in turn until the flag is set, and returns how many.
pub(crate) fn publish_until<R: Wait + Copy + Drop>(
    rt: &R,
    alloc: Global,
    mut desk: Desk<R>,
    stop: &StopFlag,
) -> Result<u64, OutOfMemory>
    requires { steps_of desk.list ≢ [] }
{
    match denial_and_context(alloc) {
        Ok((denial, context)) => {
            let published = publish_in_turn(rt, alloc, &mut desk, &denial, &context, stop);
            drop(denial);
            drop(context);
            drop(desk);
            published
        }
        Err(OutOfMemory) => {
            drop(desk);
            Err(OutOfMemory)
        }
    }
}
