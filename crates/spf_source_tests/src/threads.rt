//! Live sources whose supervisors run on threads, and sources over sockets.

mod live;
mod on_thread;
mod opening;
