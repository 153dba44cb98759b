//! What happens in a session.

use spf_api::{ClientFault, ContextResponse, GrpcStatusError};

/// An event of a session whose items are `I`.
#[derive(Debug, Drop)]
pub enum SessionEvent<I: Drop> {
    ClientMade,
    ClientFailed(ClientFault),
    Connected,
    ConnectStatus(GrpcStatusError),
    Item(I),
    ItemStatus(GrpcStatusError),
    StreamEnd,
    /// Unix seconds.
    Moment(i64),
    Close,
}

/// An event of an X.509 session.
pub type Event = SessionEvent<ContextResponse>;
