//! Who closes a cell.

/// In whose name a cell is closed.
#[derive(Clone, Copy, Debug, PartialEq, Eq)]
pub enum Maker {
    /// A handle of the source.
    Caller,
    /// The supervisor, at its end.
    Supervisor,
}
