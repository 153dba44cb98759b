//! What the programs of this workspace share: their arguments, numbers among them; options, pairs
//! of a name and a value, each name at most once; and the exit statuses and lines of their
//! failures.
#![tactic(auto)]

mod about;
mod arguments;
mod failure;
mod follow_failure;
mod live;
mod number;
mod pairs;
mod streams;
mod value;

pub use about::put_about;
pub use arguments::{ArgumentsError, program_arguments};
pub use failure::report;
pub use follow_failure::{follow_message, follow_number, follow_status};
pub use live::{LiveOptions, live_options};
pub use number::{MAX_NUMBER, moment, number_up_to};
pub use pairs::{are_pairs, value_of};
pub use streams::{FlushingReader, SharedOutput, SharedWriter};
pub use value::{
    count_option, limit_option, moment_option, number_option, ready_option, seconds_option,
    text_option,
};
