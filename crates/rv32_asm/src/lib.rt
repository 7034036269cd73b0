//! RV32I's instructions as text: a line of assembler to its instruction, and an instruction to its line.
//!
//! Nothing here knows what an instruction does, nor of labels, directives or more than one line.
#![tactic(auto)]

mod addressed;
mod arithmetic;
mod assembly;
mod control;
mod lines;
mod mnemonic;
mod operands;
mod printing;

pub use assembly::{AsmFault, assemble, assemble_insn};
pub use printing::disassemble;
