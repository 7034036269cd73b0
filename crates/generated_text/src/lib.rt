//! The text that is generated for a number: a listing and a schedule that keep a machine busy, as a source of bytes.
//!
//! Nothing here knows of machines, or reads the text.
#![tactic(auto)]

mod pair;
mod source;

pub use source::MakeSource;
