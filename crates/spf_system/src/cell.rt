//! The cell, its closers, and its watches, which only look. No other module makes a mark.

ghost use Rattle.std.specs.Prelude.{◌≡◌, ℕ, IfOk, IfSome};
ghost use Rattle.std.specs.Arc.{arc_value};
ghost use Rattle.once_cell.specs.Once.{cell_name};

use crate::maker::Maker;
use once_cell::race::{Note, OnceBox};
use spf_io::OutOfMemory;
use std::alloc::Global;
use std::marker::Model;
use std::sync::Arc;

/// What a closed cell holds.
#[derive(Clone, Copy)]
struct ClosedMark {
    maker: Maker,
}

/// Looks at a cell, and cannot close it. Contracts see the cell's name.
#[derive(Drop)]
pub struct Watch {
    cell: Arc<OnceBox<ClosedMark>>,
}

impl Model for Watch {
    ghost Value = { ℕ };

    ghost view = { λ s. cell_name (arc_value s.cell) };
}

/// Closes the cell in the name of one maker. Contracts see the cell's name and the maker.
#[derive(Drop)]
pub struct Closer {
    cell: Arc<OnceBox<ClosedMark>>,
    maker: Maker,
    /// The memory of its mark, until it has closed.
    memory: Option<Box<ClosedMark>>,
}

impl Model for Closer {
    ghost use Rattle.std.specs.Prelude.{◌≡◌, IfSome};
    ghost use Rattle.std.specs.Arc.{arc_value};
    ghost use Rattle.once_cell.specs.Once.{cell_name};
    ghost use Rattle.spf_system.specs.Marks.{Mark, mark_by};

    ghost Value = { Mark };

    ghost view = { λ s. mark_by (cell_name (arc_value s.cell)) s.maker };

    ghost invariant = { λ s. IfSome s.memory (λ b. b.value.maker ≡ s.maker) };
}

/// Shows that a cell was closed, and by whom: it keeps a note of the mark that was read. A cell
/// stays closed.
#[derive(Drop)]
pub struct Closed {
    note: Note<ClosedMark>,
    maker: Maker,
}

impl Model for Closed {
    ghost use Rattle.std.specs.Prelude.{◌≡◌, Some};
    ghost use Rattle.spf_system.specs.Marks.{Mark, mark_by};

    ghost Value = { Mark };

    ghost view = { λ s. mark_by s.note.cell s.maker };

    ghost invariant = { λ s. s.note.known ≡ Some (record { maker = s.maker }) };
}

/// Makes an open cell, and returns its closer for callers, its closer for the supervisor, and a
/// watch.
pub fn closed_cell(alloc: Global) -> Result<(Closer, Closer, Watch), OutOfMemory>
    ensures makers { IfOk result
        (λ r. (r.0.maker ≡ Maker.Caller) × (r.1.maker ≡ Maker.Supervisor)) }
    ensures one_cell { IfOk result (λ r. (r.0.cell ≡ r.2) × (r.1.cell ≡ r.2)) }
{
    let cell = Arc::new(alloc, OnceBox::new(alloc))?;
    let watch = Watch {
        cell: Arc::try_clone(&cell)?,
    };
    let supervisor = closer_of(alloc, Arc::try_clone(&cell)?, Maker::Supervisor)?;
    let caller = closer_of(alloc, cell, Maker::Caller)?;
    Ok((caller, supervisor, watch))
}

/// A closer of the cell in the name of that maker.
fn closer_of(
    alloc: Global,
    cell: Arc<OnceBox<ClosedMark>>,
    maker: Maker,
) -> Result<Closer, OutOfMemory>
    ensures { IfOk result (λ r. (r.cell ≡ cell_name (arc_value cell)) × (r.maker ≡ maker)) }
{
    let memory = Box::new(alloc, ClosedMark { maker })?;
    Ok(Closer {
        cell,
        maker,
        memory: Some(memory),
    })
}

impl Closer {
    /// Closes the cell, unless it is closed. It allocates nothing.
    pub fn close(&mut self)
        ensures { self.new ≡ self.old }
    {
        if let Some(mark) = self.memory.take() {
            let _ = self.cell.set(mark);
        }
    }

    /// Returns another closer of the same cell and maker.
    pub fn another(&mut self, alloc: Global) -> Result<Closer, OutOfMemory>
        ensures unchanged { self.new ≡ self.old }
        ensures same { IfOk result (λ r. r ≡ self.old) }
    {
        closer_of(alloc, Arc::try_clone(&self.cell)?, self.maker)
    }

    /// Returns a watch of the cell.
    pub fn watch(&self) -> Result<Watch, OutOfMemory>
        ensures { IfOk result (λ r. r ≡ self.now.cell) }
    {
        Ok(Watch {
            cell: Arc::try_clone(&self.cell)?,
        })
    }
}

impl Watch {
    /// Returns who closed the cell, if anyone has.
    pub fn look(&self) -> Option<Closed>
        ensures { IfSome result (λ r. r.cell ≡ self.now) }
    {
        let mut note = self.cell.note();
        let mark = self.cell.get_as(&mut note)?;
        Some(Closed {
            maker: mark.maker,
            note,
        })
    }

    /// Returns another watch of the same cell.
    pub fn try_clone(&self) -> Result<Watch, OutOfMemory>
        ensures { IfOk result (λ r. r ≡ self.now) }
    {
        Ok(Watch {
            cell: Arc::try_clone(&self.cell)?,
        })
    }
}

impl Closed {
    pub fn maker(&self) -> Maker
        ensures { result ≡ self.now.maker }
    {
        self.maker
    }

    /// Two looks at one cell name one maker.
    pub fn agrees(&mut self, other: Closed)
        requires { other.cell ≡ self.old.cell }
        ensures unchanged { self.new ≡ self.old }
        ensures maker { other.maker ≡ self.old.maker }
    {
        let Closed { note, maker: _ } = other;
        self.note.compare(note);
    }
}
