//! Why following a session over a disk ended.

use spf_disk::OpenError;
use spf_feed::FollowError;

#[derive(Debug, Drop)]
pub enum HelperError {
    /// The files could not be opened.
    Open(OpenError),
    Follow(FollowError),
    /// The disk failed.
    DiskFault,
    /// There was no number for a step.
    Full,
}
