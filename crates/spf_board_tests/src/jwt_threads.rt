//! Live sources of JWT bundles whose supervisors run on threads, and fetches over a socket.

mod fetch;
mod live;
mod on_thread;
mod opening;
