//! What a source and its supervisor keep of one closed cell.

ghost use Rattle.std.specs.Prelude.{◌≡◌, IfOk};
ghost use Rattle.spf_system.specs.declared.maker.Maker.TheVariants as makers;

use crate::bell::Bell;
use crate::cell::{Closer, Watch, closed_cell};
use crate::closing::{Closing, closing_of};
use crate::stop_flag::StopFlag;
use spf_io::OutOfMemory;
use std::alloc::Global;
use std::mem::drop;

/// What a source keeps of its cell: what closes it, ends the waits of its supervisor, and wakes
/// those who wait for a change.
#[derive(Drop)]
pub struct SourceCells {
    pub caller: Closer,
    pub stop: StopFlag,
    pub bell: Bell,
}

/// What the job of a supervisor keeps of the cell.
#[derive(Drop)]
pub struct JobCells {
    pub watch: Watch,
    pub closer: Closer,
    pub bell: Bell,
}

/// What closes a source, ends the waits of its supervisor, and wakes those who wait for a change:
/// all of one cell. It is made before anything is asked.
#[derive(Drop)]
pub struct Cells {
    pub closing: Closing,
    pub source: SourceCells,
    pub publisher_bell: Bell,
    pub job: JobCells,
}

/// What closes the source of the closer, with two bells more.
fn closing_bells(
    alloc: Global,
    caller: &mut Closer,
    stop: &StopFlag,
    bell: &Bell,
) -> Result<(Closing, Bell, Bell), OutOfMemory>
    requires { caller.old.maker ≡ makers.Caller }
    ensures unchanged { caller.new ≡ caller.old }
    ensures closing { IfOk result (λ r. r.0 ≡ caller.old.cell) }
{
    let closing = closing_of(alloc, caller, stop, bell)?;
    let source_bell = bell.try_clone()?;
    let publisher_bell = bell.try_clone()?;
    Ok((closing, source_bell, publisher_bell))
}

/// A new cell, what closes it, and two bells more.
#[derive(Drop)]
struct Parts {
    caller: Closer,
    closer: Closer,
    watch: Watch,
    closing: Closing,
    source_bell: Bell,
    publisher_bell: Bell,
}

fn parts_of(alloc: Global, stop: &StopFlag, bell: &Bell) -> Result<Parts, OutOfMemory>
    ensures makers { IfOk result (λ c. c.caller.maker ≡ makers.Caller) }
    ensures one { IfOk result (λ c. (c.caller.cell ≡ c.watch) × (c.closing ≡ c.watch)) }
{
    let (mut caller, closer, watch) = closed_cell(alloc)?;
    match closing_bells(alloc, &mut caller, stop, bell) {
        Ok((closing, source_bell, publisher_bell)) => Ok(Parts {
            caller,
            closer,
            watch,
            closing,
            source_bell,
            publisher_bell,
        }),
        Err(OutOfMemory) => {
            drop(caller);
            drop(closer);
            drop(watch);
            Err(OutOfMemory)
        }
    }
}

/// Opens a cell, and makes all that a source and its supervisor keep of it.
pub fn open_cells(alloc: Global) -> Result<Cells, OutOfMemory>
    ensures makers { IfOk result (λ c. c.source.caller.maker ≡ makers.Caller) }
    ensures one { IfOk result (λ c. (c.source.caller.cell ≡ c.job.watch)
        × (c.closing ≡ c.job.watch)) }
{
    let stop = StopFlag::new(alloc)?;
    let bell = Bell::new(alloc)?;
    match parts_of(alloc, &stop, &bell) {
        Ok(
            Parts {
                caller,
                closer,
                watch,
                closing,
                source_bell,
                publisher_bell,
            },
        ) => Ok(Cells {
            closing,
            source: SourceCells {
                caller,
                stop,
                bell: source_bell,
            },
            publisher_bell,
            job: JobCells {
                watch,
                closer,
                bell,
            },
        }),
        Err(OutOfMemory) => {
            drop(stop);
            drop(bell);
            Err(OutOfMemory)
        }
    }
}
