//! Statuses, errors, payloads and what responses mean.

mod payloads;
mod rules;
mod texts;
