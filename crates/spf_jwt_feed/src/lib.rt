//! Update streams of JWT bundles: the steps, the snapshot that they change, and the
//! lines that show it.
#![tactic(auto)]

mod event;
mod following;
pub mod laws;
mod line;
mod payload;
mod phase;
mod record;
mod snapshot;
mod standing;
mod state;
mod step;
mod turn;

pub use event::{JwtEvent, JwtItem, JwtReceived};
pub use following::{follow_jwt, publish, record_all};
pub use phase::phase_after;
pub use record::{JwtMetricsErrorKind, JwtMetricsRecord, JwtMetricsRecorder, MemJwtRecorder};
pub use snapshot::JwtSnapshot;
pub use spf_feed::NoRecorder;
pub use state::{JwtSourceError, JwtSourceState};
pub use step::{JwtPublisher, JwtStep, MemJwtPublisher};
pub use turn::{Records, Turn, turn_of};
