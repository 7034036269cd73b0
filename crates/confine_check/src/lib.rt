//! A checker of a stated cut: which objects are on the left, and whether the two sides of a machine are kept apart.
//!
//! A cut gives each object a side, by lines that are read one at a time. `confined` says whether the cut holds; where it
//! does, no event of any run leads across it. The fields that name objects are public, for other lines. Nothing here runs a
//! machine or prints.
#![tactic(auto)]

mod block;
mod breach;
mod checking;
mod cut;
mod fields;
mod laws;
mod line;
mod sleeping;
mod verdict;

pub use block::Block;
pub use checking::{confined, tell_full};
pub use confinement::CutSide;
pub use cut::Cut;
pub use fields::{read_block, read_kind};
pub use laws::{verdict_in_law, verdict_law};
pub use line::read_cut;
pub use listing_read::CutFault;
pub use verdict::Verdict;
