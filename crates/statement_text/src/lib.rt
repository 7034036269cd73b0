//! The text of a listing and of a schedule: a line for each statement and each event, as they are read.
//!
//! Nothing here knows what a statement does to a machine, or when one is left out.
#![tactic(auto)]

mod event;
mod laws;
mod listing;
mod memory_lines;
mod statement;
mod typed;

pub use event::write_event;
pub use laws::{capabilities_are_read, migrated_is_read, statements_are_read, texts_are_listed};
pub use listing::write_listing;
pub use typed::tell_listing;
