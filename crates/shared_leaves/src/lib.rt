//! Leaf tables shared between spaces: a translator that keeps where walks ended, as the mapping cache does, with one
//! leaf table for all spaces whose walks join at one producer.
//!
//! Nothing here knows of processes, of instructions, or of how a walk goes.
#![tactic(auto)]

mod additions;
mod changes;
mod keeping;
mod key;
mod leaves;
mod shared_leaves;
mod translating;

pub use key::{Key, Table};
pub use shared_leaves::SharedLeaves;
