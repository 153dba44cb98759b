//! The supervisor of a source: its job, its handle and its record.

use crate::kind::X509;
use crate::publishing::BoardPublisher;
use spf_feeder::{SupervisorDone, SupervisorJob, X509Rules, X509Session};

/// What the thread of a supervisor does.
pub type X509Job<C, K, M, W, N, R> = SupervisorJob<
    C,
    X509,
    X509Session<BoardPublisher<R>, M, K>,
    W,
    N,
    R,
>;

/// What a supervisor leaves.
pub type X509Done<K, M, R> = SupervisorDone<X509, X509Session<BoardPublisher<R>, M, K>>;

/// What a supervisor is given, its connector aside. Contracts alone see it.
pub type Task<K> = spf_feeder::Task<X509, X509Rules<K>>;

/// What the handle of a supervisor needs besides the handle of its started job.
pub type PendingHandle = spf_feeder::PendingHandle<X509>;

/// What came to a supervisor, from the first event of the initial synchronisation on, and what it
/// published.
pub type Supervised<K> = spf_feeder::Supervised<X509Rules<K>>;

/// The handle of a started supervisor. It stays with the thread that built the source. Dropping it
/// leaves the supervisor running.
pub type SupervisorHandle<J, H> = spf_feeder::SupervisorHandle<X509, J, H>;
