//! Live sources of SPIFFE identities: one supervisor publishes on the board of a source, and up to
//! 64 passes read what its steps replay to, without a lock. What a caller of these sources needs of
//! the crates below has its names here as well.
#![tactic(auto)]

mod board;
mod builder;
mod desk;
mod handle;
mod kind;
mod opening;
mod places;
mod publishing;
mod sockets;
mod source;

pub use board::open;
pub use builder::{Settings, X509SourceBuilder};
pub use desk::{Desk, DeskWriter, Ended, publish_on};
pub use handle::{PendingHandle, Supervised, SupervisorHandle, Task, X509Done, X509Job};
pub use kind::{Pass, UsableAt, X509};
pub use places::Places;
pub use publishing::BoardPublisher;
pub use source::{X509Source, X509SourceUpdates};
pub use spf_api::{
    ClientFault, EndpointError, EndpointParseError, GrpcStatusCode, GrpcStatusError, LinkFault,
    TransportError, WorkloadApiError,
};
pub use spf_board::{BoardPlaces, Front, PLACES, PlaceFault, RefusingPlaces, settle};
pub use spf_feed::{
    Denial, FnPicker, HintPicker, MetricsErrorKind, MetricsRecorder, NoPicker, NoRecorder,
    PickFunction, Ready, ResourceLimits as X509ResourceLimits, Step, SvidPicker, X509SourceError,
    X509SourceState,
};
pub use spf_feeder::{Feeder, SupervisorEnd};
pub use spf_id::{SpiffeId, SpiffeIdError, TrustDomain};
pub use spf_link::{
    Connector, Endpoint, EndpointConnector, EnvConnector, Link, WORKLOAD_API_ENDPOINT_ENV,
};
pub use spf_system::{
    Clock, Environment, InlineSpawner, Job, Joins, Pause, ReconnectConfig, RefusingSpawner,
    Spawner, StdClock, StdEnvironment, StdPause, StepWords, StopFlag,
};
pub use spf_x509::{
    BundleSource, Certificate, CertificateError, PrivateKey, PrivateKeyError, SvidSource,
    X509Bundle, X509BundleError, X509BundleSet, X509Context, X509Svid, X509SvidError,
};
