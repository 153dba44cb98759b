//! Errors of a connector and of a link.

use crate::status::{GrpcStatusError, TransportConnectError};
use spf_io::Text;
use thiserror::Error;

/// Why a connector made no client.
#[derive(Debug, PartialEq, Eq, Drop, Error)]
pub enum ClientFault {
    /// The endpoint refused the connection.
    #[error("{0}")]
    Status(GrpcStatusError),
    /// The endpoint could not be reached, for the reason of the text.
    #[error("{0}")]
    Unreachable(Text),
    /// Memory ran out.
    #[error("out of memory")]
    OutOfMemory,
}

/// Why a link refused a call.
#[derive(Debug, PartialEq, Eq, Drop, Error)]
pub enum LinkFault {
    /// The other side refused the call.
    #[error("{0}")]
    Status(GrpcStatusError),
    /// The connection was lost, or never made.
    #[error("{0}")]
    Connect(TransportConnectError),
    /// Memory ran out.
    #[error("out of memory")]
    OutOfMemory,
}
