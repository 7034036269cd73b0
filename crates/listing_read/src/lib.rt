//! Listings and schedules: the texts of which a machine is made and by which it runs, read line by line up to the
//! first fault.
//!
//! Nothing here knows what a statement does to a machine.
#![tactic(auto)]

mod capability;
mod fault;
mod fields;
mod flags;
mod hex_bytes;
mod listing;
mod memory_statements;
mod names;
mod object_fault;
mod page_bytes;
mod place;
mod schedule;
mod statement;
mod statements;
mod terms;
mod typed;

pub use fault::{Fault, ListingFault, ScheduleFault};
pub use listing::{Listing, read_listing};
pub use object_fault::{CutFault, FieldFault, PolicyFault, QuestionFault};
pub use page_bytes::PageBytes;
pub use schedule::{Timed, read_event, read_eventless};
pub use statement::Statement;
pub use terms::size_of;
