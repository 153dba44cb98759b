//! The board of a live source: one published snapshot with the history that it stands for, which
//! only grows, the one writer that publishes steps, what its readers remember, and what each of
//! them holds: its pass over the board, its place there, and the updates that it follows. It is the
//! same for every kind of step and of source; a kind says what a snapshot is and what a step makes
//! of it, and what the states and errors of a source are.
#![tactic(auto)]

mod closing;
mod desk;
mod entry;
mod front;
mod kind;
mod law;
mod memory;
mod opening;
mod pass;
mod places;
mod placing;
mod posted;
mod rule;
mod scribe;
mod shows;
mod updates;
mod writer;

pub use closing::{check_open, known_open, learn, look};
pub use desk::{Desk, Ended, Writes, settle};
pub use entry::{Entry, Kind};
pub use front::Front;
pub use kind::{Look, Replay};
pub use law::Law;
pub use memory::Memory;
pub use opening::{PLACES, open_board};
pub use pass::Pass;
pub use places::{BoardPlaces, PlaceFault, RefusingPlaces};
pub use placing::{Places, another_pass, placed};
pub use posted::{Change, Post, Posted, Twice};
pub use rule::{Place, PostReader, PostWriter, Reads};
pub use scribe::Scribe;
pub use shows::Shows;
pub use updates::SourceUpdates;
pub use writer::{publish_end, publish_step};
