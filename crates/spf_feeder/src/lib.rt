//! The feeder of a live source: it asks a connector and its link, one ask a turn, and publishes the
//! step of each event before it asks again. A feeder is of sessions of any kind; those of X.509
//! identities stand here. Above it stands what the supervisors of sources share, whatever their
//! kind: what comes before their initial synchronisation, their job and its task, their handle,
//! what they leave, their record, and why they end.
#![tactic(auto)]

mod ask;
mod attempt;
mod done;
mod end;
mod feeder;
mod finishes;
mod handle;
mod job;
mod opening;
mod ready;
mod received;
mod record;
mod rules;
mod session;
mod supervises;
mod supervisor;
mod synchronisation;
mod task;
mod x509_rules;
mod x509_session;

pub use attempt::{end_of, gave_after, unless_accepted};
pub use done::SupervisorDone;
pub use end::SupervisorEnd;
pub use feeder::{Resting, SessionFeeder};
pub use finishes::Finishes;
pub use handle::{PendingHandle, SupervisorHandle};
pub use job::SupervisorJob;
pub use opening::{deadline_of, first_moment, open_session};
pub use ready::make_ready;
pub use received::{beside_item, shared};
pub use record::Supervised;
pub use rules::Governs;
pub use session::{ItemOf, Session, SessionParts, Stop};
pub use supervises::Supervises;
pub use supervisor::supervise;
pub use task::Task;
pub use x509_rules::X509Rules;
pub use x509_session::{Feeder, X509Session};
