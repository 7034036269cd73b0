//! RV32I's instructions as words: what a word of 32 bits says, and the word of an instruction.
//!
//! Nothing here knows registers' values, memory, or what an instruction does.
#![tactic(auto)]

mod code;
mod fields;
mod groups;
mod illegal;
mod insn;
mod words;

pub use code::{decode, encode};
pub use illegal::Illegal;
pub use insn::Insn;
