//! What a client of the Workload API asks over: endpoints (SPIFFE Workload Endpoint section 4);
//! requests with their headers and interceptors; links and connectors of any kind, and those in
//! memory; and the wire, requests and answers as frames over a source and a sink, and over sockets.
#![tactic(auto)]

mod answer;
mod answers;
mod connector;
mod endpoint;
mod endpoint_connector;
mod env_connector;
mod environment;
mod headers;
mod interceptor;
mod kinds;
mod link;
mod mem_connector;
mod mem_link;
mod metadata;
mod request;
mod socket;
mod socket_link;
mod uri;
mod wire_fault;
mod wire_link;
mod wire_request;

pub use answer::Answer;
pub use connector::Connector;
pub use endpoint::{Endpoint, EndpointHost, WORKLOAD_API_ENDPOINT_ENV};
pub use endpoint_connector::EndpointConnector;
pub use env_connector::EnvConnector;
pub use environment::from_env;
pub use headers::Headers;
pub use interceptor::{
    InterceptFunction, Interceptor, InterceptorFault, InterceptorFn, NoInterceptor,
};
pub use link::Link;
pub use mem_connector::MemConnector;
pub use mem_link::MemLink;
pub use metadata::MetadataAdder;
pub use request::{Request, Start};
pub use socket::SocketEnd;
pub use socket_link::SocketLink;
pub use uri::tcp_uri;
pub use wire_link::WireLink;
