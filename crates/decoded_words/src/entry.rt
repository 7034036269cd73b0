//! A word with its instruction.
use rv32_decode::Insn;

/// A word, and the instruction that it is.
#[derive(Clone, Copy)]
pub struct Entry {
    pub word: u32,
    pub insn: Insn,
}
