//! The commands `pack` and `unpack`: a listing to its image, and back to its text.
//!
//! Both run nothing, and write nothing before their input is accepted. Nothing here knows the words that ask for them.
#![tactic(auto)]

mod lines;
mod packing;
mod unpacking;

pub use packing::answer_pack;
pub use unpacking::answer_unpack;
