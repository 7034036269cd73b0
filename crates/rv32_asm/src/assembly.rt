//! A line of assembler to its instruction.
ghost use Rattle.std.specs.Prelude.{◌≡◌, IfOk};
ghost use Rattle.coy_text.specs.Words.{words_of};
ghost use Rattle.rv32_decode.specs.InRange.{InRange};
ghost use Rattle.rv32_asm.specs.Assembly.{insn_of, coded};

use crate::lines::insn_of_line;
use crate::mnemonic::Mnemonic;
use coy_text::word;
use rv32_decode::{Insn, encode};

/// Why a text is no instruction.
#[derive(Clone, Copy, Debug, PartialEq, Eq)]
pub enum AsmFault {
    /// The first word is no mnemonic, or there is no word.
    BadMnemonic,
    /// The operands are not those of the mnemonic's form, or one is out of its range.
    BadOperand,
}

/// The instruction that the words of a text say.
#[tactic(auto, unfolding(crate::specs::Assembly::insn_of))]
pub fn assemble_insn(text: &[u8]) -> Result<Insn, AsmFault>
    ensures value { result ≡ insn_of (words_of text.now) }
    ensures in_range { IfOk result InRange }
{
    let Some(mnemonic) = Mnemonic::named(word(text, 0)) else {
        return Err(AsmFault::BadMnemonic);
    };
    insn_of_line(mnemonic, text).ok_or(AsmFault::BadOperand)
}

/// The word of the instruction that the words of a text say.
pub fn assemble(text: &[u8]) -> Result<u32, AsmFault>
    ensures { result ≡ coded (insn_of (words_of text.now)) }
{
    Ok(encode(assemble_insn(text)?))
}
