//! The lines of a policy: which domain each object has, and who may read whom.
//!
//! A policy is read a line at a time, and a line `end` ends it. Nothing here knows of machines, or when a policy holds.
#![tactic(auto)]

mod domains;
mod fields;
mod laws;
mod line;
mod said;

pub use domains::read_listed;
pub use laws::{
    end_law, lines_read_back_law, names_law, next_names_law, read_back_law, replaced_law,
};
pub use line::read_policy;
pub use listing_read::PolicyFault;
pub use said::Next;
