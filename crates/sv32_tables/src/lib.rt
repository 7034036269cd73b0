//! Sv32 page tables: pools of frames whose words are those that RISC-V hardware would walk.
//!
//! A root stands for an address space and leads from pages to leaves. In a `SharedPool` several roots
//! may lead to one leaf table, in a `TablePool`, which is one, each has leaf tables of its own. Nothing here knows of
//! capabilities, of walks over them, or of what a leaf's page holds.
#![tactic(auto)]

mod frame_use;
mod leaf;
mod pool;
mod refusal;
mod shared_pool;
mod shared_use;
mod word;
mod words;

pub use frame_use::FrameUse;
pub use leaf::Leaf;
pub use pool::{TablePool, last_leaves_are_found};
pub use refusal::{PageFault, PoolFull};
pub use shared_pool::{FRAMES, SharedPool, last_entries_are_found};
pub use shared_use::SharedUse;
