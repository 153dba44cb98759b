//! The arguments of the program.

use spf_program::number_up_to;

/// What the arguments ask for.
#[derive(Clone, Copy, PartialEq, Eq)]
pub(crate) enum Command {
    /// Measure how long one of this many reads of each thread takes.
    Reads { threads: u64, reads: u64 },
    /// Let threads check what they read while this many rounds are published.
    Storm { threads: u64, rounds: u64 },
}

/// A number from 1 to `max`.
fn number(max: u64, text: &str) -> Option<u64> {
    match number_up_to(max, text) {
        Some(0) => None,
        number => number,
    }
}

/// What the arguments ask for, where they are those of the program.
pub(crate) fn parse_command(arguments: &[String]) -> Option<Command> {
    let [name, threads, count] = arguments else {
        return None;
    };
    let threads = number(60, threads.as_str())?;
    match name.as_str() {
        "reads" => Some(Command::Reads {
            threads,
            reads: number(1_000_000_000, count.as_str())?,
        }),
        "storm" => Some(Command::Storm {
            threads,
            rounds: number(1_000_000_000, count.as_str())?,
        }),
        _ => None,
    }
}
