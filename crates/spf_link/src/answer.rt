//! Answers that a link in memory is given beforehand.

use spf_api::{LinkFault, Response};

/// One answer of a link in memory.
#[derive(Debug, PartialEq, Eq, Drop)]
pub enum Answer {
    /// The call is refused. It fits `start` and `next`.
    Refused(LinkFault),
    /// The request is started. It fits `start`.
    Started,
    /// A response. It fits `next` where it is of the kind that was started.
    Item(Response),
    /// The stream ends. It fits `next`.
    End,
}
