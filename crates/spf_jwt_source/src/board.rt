//! Opening a board.

ghost use Rattle.std.specs.Prelude.{◌≡◌, ◌∷◌, [], true, None, Some, IfOk};
ghost use Rattle.spf_board.specs.declared.entry.Entry.TheVariants as entry;
ghost use Rattle.spf_jwt_feed.specs.Steps.{MayFollow};
ghost use Rattle.spf_jwt_source.specs.Steps.{Legal};

use crate::desk::{DeskWriter, JwtDesk};
use crate::kind::{Jwt, JwtPass};
use crate::shared_step::SharedStep;
use spf_board::open_board;
use spf_io::OutOfMemory;
use std::alloc::Global;
use std::sync::Wait;

/// Returns a board on which one step is published, and its first pass.
pub fn open<R: Wait + Drop>(
    alloc: Global,
    rt: R,
    step: SharedStep,
) -> Result<(JwtDesk<R>, JwtPass), OutOfMemory>
    requires { MayFollow (Some []) step }
    ensures step { IfOk result (λ r. r.0.list ≡ entry.Step step ∷ []) }
    ensures pass { IfOk result (λ r. (r.1.book ≡ r.0.book) × (r.1.seen ≡ r.0.list)
        × (r.1.entered ≡ r.0.list) × (r.1.missed ≡ 0) × (r.1.closed ≡ None)) }
{
    let (writer, scribe, memory, mut readers) = open_board::<Jwt, R>(alloc, &rt, step)?;
    let held = DeskWriter::new(writer, scribe, rt);
    let Some(reader) = readers.pop() else {
        return Err(OutOfMemory);
    };
    Ok((
        JwtDesk::new(held),
        JwtPass::new(alloc, reader, memory, readers),
    ))
}
