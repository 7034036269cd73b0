//! The mapping cache: a translator that keeps where walks ended, in Sv32 tables, a cache for each
//! hart, and records of what each walk read.
//!
//! Nothing here knows of processes, of instructions, or of how a walk goes.
#![tactic(auto)]

mod changes;
mod keeping;
mod key;
mod listing;
mod map_cache;
mod mapping;
mod mappings;
mod tlbs;
mod translating;

pub use key::Key;
pub use map_cache::MapCache;
pub use mapping::{Mapping, MappingPlace};
pub use tlbs::{drop_all, empty_tlbs, hold, seek};
pub use translating::{allows, reached_leaf};
