//! Why a supervisor ended.

/// Why a supervisor ended.
#[derive(Clone, Copy, Debug, PartialEq, Eq)]
pub enum SupervisorEnd {
    /// A caller closed the source.
    Closed,
    /// Memory ran out. No record says it: where memory ran out there is none.
    OutOfMemory,
}
