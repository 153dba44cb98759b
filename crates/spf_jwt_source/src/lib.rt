//! Live sources of JWT bundles: handles, their reads and fetches, the updates of one reader,
//! builders, and the supervisor with its record; the sessions of JWT bundles that it feeds, with
//! their rules; and the board on which it publishes, which up to 64 passes read without a lock.
//! What a caller needs of the crates of JWT below has its names here as well; the rest, such as
//! clocks, pauses and connectors, `spiffe` names.
#![tactic(auto)]

mod board;
mod builder;
mod desk;
mod handle;
mod kind;
mod opening;
mod places;
mod publishing;
mod received;
mod rules;
mod session;
mod shared_step;
mod shown;
mod sockets;
mod source;

pub use board::open;
pub use builder::{JwtSettings, JwtSourceBuilder};
pub use desk::{DeskWriter, JwtDesk, JwtEnded, publish_on};
pub use handle::{JwtDone, JwtJob, JwtPendingHandle, JwtSupervised, JwtSupervisorHandle, JwtTask};
pub use kind::{Jwt, JwtPass, Usable};
pub use places::JwtPlaces;
pub use publishing::BoardPublisher;
pub use rules::JwtRules;
pub use session::{JwtFeeder, JwtSession};
pub use shared_step::SharedStep;
pub use shown::Shown;
pub use source::{JwtSource, JwtSourceUpdates};
pub use spf_board::{BoardPlaces, Front, PLACES, PlaceFault, RefusingPlaces, settle};
pub use spf_feeder::SupervisorEnd;
pub use spf_jwt::{
    JwtAuthority, JwtBundle, JwtBundleSet, JwtResourceLimits, JwtSvid, validate_jwt_limits,
};
pub use spf_jwt_client::{JwtClient, JwtFetcher};
pub use spf_jwt_feed::{JwtMetricsRecorder, JwtSourceError, JwtSourceState, JwtStep};
