//! The machine of a listing.
//!
//! Nothing here knows how a listing is spelled, or what a machine does afterwards.
#![tactic(auto)]

mod start;
mod statements;

pub use start::boot;
