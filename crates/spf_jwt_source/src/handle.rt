//! The supervisor of a source: its job, its handle and its record.

use crate::kind::Jwt;
use crate::publishing::BoardPublisher;
use crate::rules::JwtRules;
use crate::session::JwtSession;
use spf_feeder::{Supervised, SupervisorDone, SupervisorJob, Task};

/// What the thread of a supervisor does.
pub type JwtJob<C, M, W, N, R> = SupervisorJob<C, Jwt, JwtSession<BoardPublisher<R>, M>, W, N, R>;

/// What a supervisor leaves.
pub type JwtDone<M, R> = SupervisorDone<Jwt, JwtSession<BoardPublisher<R>, M>>;

/// What a supervisor is given, its connector aside. Contracts alone see it.
pub type JwtTask = Task<Jwt, JwtRules>;

/// What the handle of a supervisor needs besides the handle of its started job.
pub type JwtPendingHandle = spf_feeder::PendingHandle<Jwt>;

/// What came to a supervisor, from the first event of the initial synchronisation on, and what it
/// published.
pub type JwtSupervised = Supervised<JwtRules>;

/// The handle of a started supervisor. It stays with the thread that built the source. Dropping it
/// leaves the supervisor running.
pub type JwtSupervisorHandle<J, H> = spf_feeder::SupervisorHandle<Jwt, J, H>;
