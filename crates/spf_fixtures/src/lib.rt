//! What tests share: certificates, keys, frames and tokens by name; responses built of them, and
//! links that give these; an agent on a Unix socket, and what sources of the tests stand on, as
//! types without parameters.
#![tactic(auto)]

mod agent;
mod doubles;
mod either;
mod links;
mod marks;
mod names;
mod pauses;
mod responses;
mod tokens;

pub use agent::{Agent, Scene};
pub use doubles::{AgentConnector, AgentLink, FixedClock, HeldRecorder, ShortPause};
pub use either::EitherSpawner;
pub use links::{connector, good_link, refusing_link};
pub use marks::{Marks, TURNS, is_set_soon};
pub use names::{is_written, octets, written_out};
pub use pauses::{Pauses, SummedPause};
pub use responses::{FIRST, SECOND, SvidRow, bundle_entries, context, first_item};
pub use tokens::TOKEN1;
