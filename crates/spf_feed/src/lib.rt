//! Update streams: frames, limits, the choice of an SVID, the
//! snapshot that steps change, and the lines that show it.
#![tactic(auto)]

mod event;
mod follow_error;
mod following;
mod frame;
mod hexadecimal;
mod indices;
pub mod laws;
mod limits;
mod line;
mod line_buffer;
mod payload;
mod phase;
mod picker;
mod prepared;
mod ready;
mod record;
mod sharing;
mod snapshot;
mod sorted;
mod standing;
mod state;
mod step;
mod turn;

pub use event::{Event, SessionEvent};
pub use follow_error::FollowError;
pub use following::{Change, follow_x509, follow_x509_sharing, moment_after, publish, record_all};
pub use frame::read_frame;
pub use limits::{LimitBroken, LimitKind, ResourceLimits, validate_limits};
pub use line::state_line;
pub use payload::{Received, read_client_fault, read_moment, valid_context};
pub use phase::{Phase, phase_after};
pub use picker::{FnPicker, HintPicker, NoPicker, PickFunction, SvidPicker, select_svid};
pub use prepared::Prepared;
pub use ready::Ready;
pub use record::{MemRecorder, MetricsErrorKind, MetricsRecord, MetricsRecorder, NoRecorder};
pub use sharing::{NoSharing, Sharing};
pub use snapshot::Snapshot;
pub use spf_frame::{FrameError, RawFrame, frame_kind};
pub use state::{X509SourceError, X509SourceState};
pub use step::{Denial, MemPublisher, Publisher, Step};
pub use turn::{Records, SessionRules, Terminal, Turn, turn_of};
