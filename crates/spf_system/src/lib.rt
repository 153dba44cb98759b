//! What a live source asks of its system besides input and output: the clock, pauses, the
//! environment, and a flag that ends waits, each with a double in memory, which contracts see
//! whole, and an adapter over std. Beside them: how long it pauses between attempts, and how often
//! it has met the same error; a cell that is closed once, by a caller or by the supervisor, and the
//! bell that is rung at each change of a source; jobs, what starts and joins them, and plain random
//! words for their pauses.
#![tactic(auto)]

mod backoff;
mod bell;
mod cell;
mod cells;
mod clock;
mod closing;
mod environment;
mod error_tracker;
mod inline;
mod job;
pub mod laws;
mod maker;
mod pace;
mod pacer;
mod pause;
mod reconnect_config;
mod refusing;
mod step_words;
mod stop_flag;
mod threads;

pub use backoff::{next_backoff, next_backoff_for_no_identity};
pub use bell::Bell;
pub use cell::{Closed, Closer, Watch, closed_cell};
pub use cells::{Cells, JobCells, SourceCells, open_cells};
pub use clock::{Clock, MemClock, StdClock};
pub use closing::{Closing, LastHandle, closing_of};
pub use environment::{EnvValue, Environment, MemEnvironment, StdEnvironment};
pub use error_tracker::{ErrorKey, ErrorTracker};
pub use inline::{HeldJob, InlineSpawner};
pub use job::{Job, Joins, Spawner};
pub use maker::Maker;
pub use pace::Pace;
pub use pacer::{AttemptEnd, Pacer};
pub use pause::{MemPause, Pause, StdPause};
pub use reconnect_config::ReconnectConfig;
pub use refusing::RefusingSpawner;
pub use step_words::StepWords;
pub use stop_flag::StopFlag;
pub use threads::{Gives, Running, start_thread};
