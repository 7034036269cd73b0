//! A hart's cache of leaves: at most 64, the oldest first.
//!
//! Nothing here knows of the tables from which the leaves were read, or when one is stale.
#![tactic(auto)]

mod entry;
mod laws;
mod tlb;

pub use entry::Entry;
pub use laws::{drop_law, fill_law};
pub use tlb::Tlb;
