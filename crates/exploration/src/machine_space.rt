//! The states of a machine as the space that a search goes through for a question, and the search.
//!
//! It joins what keeps states, what judges them, what choices do to them and what searches. Nothing here knows of lines and
//! texts.

mod asked;
mod begun;
mod exploring;
mod limits;
mod space;

pub use exploring::{Answered, explore_machine};
