//! Guards over addresses, and blocks: the aligned ranges of addresses for which one reading of a
//! walk answers.
//!
//! Pure arithmetic. Nothing here knows of objects, of walks or of tables.
#![tactic(auto)]

mod block;
mod passing;
mod size;

pub use block::Block;
pub use passing::{Miss, pass};
