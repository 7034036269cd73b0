//! Which walks read what: records that a page of a root depends on an item of the objects.
//!
//! Nothing here knows what a root is, what an item means, or when one changes.
#![tactic(auto)]

mod chain;
mod depends;
mod linking;
mod place;

pub use depends::{Depends, Full, RECORDS};
