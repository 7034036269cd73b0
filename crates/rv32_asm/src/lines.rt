//! The lines of each form: a mnemonic and its operands.
ghost use Rattle.std.specs.Prelude.{◌≡◌, pos, negsuc, IfSome};
ghost use Rattle.coy_text.specs.Words.{words_of};
ghost use Rattle.rv32_decode.specs.declared.insn.Insn.TheVariants.{Jal};
ghost use Rattle.rv32_decode.specs.InRange.{InRange};
ghost use Rattle.rv32_asm.specs.Forms.{registers_line, immediate_line, shift_line, load_line, store_line, branch_line, upper_line, jump_line, bare_line, line_of};
ghost use Rattle.rv32_asm.specs.Mnemonics.{register_insn, immediate_insn, shift_insn, load_insn, store_insn, branch_insn, upper_insn, bare_insn, form_meant};

use crate::addressed::{LoadOp, StoreOp};
use crate::arithmetic::{ImmediateOp, RegisterOp, ShiftOp, UpperOp};
use crate::control::{BareOp, BranchOp};
use crate::mnemonic::Mnemonic;
use crate::operands::{address, immediate_12, natural, offset, register};
use coy_text::{word, word_count};
use rv32_decode::Insn;

/// `m rd rs1 rs2`
#[tactic(auto, unfolding(crate::specs::Forms::registers_line))]
fn registers_line(op: RegisterOp, line: &[u8]) -> Option<Insn>
    ensures value { result ≡ registers_line (register_insn op) (words_of line.now) }
    ensures in_range { IfSome result InRange }
{
    if word_count(line) != 4 {
        return None;
    }
    let rd = register(word(line, 1))?;
    let rs1 = register(word(line, 2))?;
    let rs2 = register(word(line, 3))?;
    Some(op.insn(rd, rs1, rs2))
}

/// `m rd rs1 imm`
#[tactic(auto, unfolding(crate::specs::Forms::immediate_line))]
fn immediate_line(op: ImmediateOp, line: &[u8]) -> Option<Insn>
    ensures value { result ≡ immediate_line (immediate_insn op) (words_of line.now) }
    ensures in_range { IfSome result InRange }
{
    if word_count(line) != 4 {
        return None;
    }
    let rd = register(word(line, 1))?;
    let rs1 = register(word(line, 2))?;
    let imm = immediate_12(word(line, 3))?;
    Some(op.insn(rd, rs1, imm))
}

/// `m rd rs1 sh`
#[tactic(auto, unfolding(crate::specs::Forms::shift_line))]
fn shift_line(op: ShiftOp, line: &[u8]) -> Option<Insn>
    ensures value { result ≡ shift_line (shift_insn op) (words_of line.now) }
    ensures in_range { IfSome result InRange }
{
    if word_count(line) != 4 {
        return None;
    }
    let rd = register(word(line, 1))?;
    let rs1 = register(word(line, 2))?;
    let sh = natural(31, word(line, 3))?;
    Some(op.insn(rd, rs1, sh as u8))
}

/// `m rd imm(rs1)`
#[tactic(auto, unfolding(crate::specs::Forms::load_line))]
fn load_line(op: LoadOp, line: &[u8]) -> Option<Insn>
    ensures value { result ≡ load_line (load_insn op) (words_of line.now) }
    ensures in_range { IfSome result InRange }
{
    if word_count(line) != 3 {
        return None;
    }
    let rd = register(word(line, 1))?;
    let (imm, rs1) = address(word(line, 2))?;
    Some(op.insn(rd, rs1, imm))
}

/// `m rs2 imm(rs1)`
#[tactic(auto, unfolding(crate::specs::Forms::store_line))]
fn store_line(op: StoreOp, line: &[u8]) -> Option<Insn>
    ensures value { result ≡ store_line (store_insn op) (words_of line.now) }
    ensures in_range { IfSome result InRange }
{
    if word_count(line) != 3 {
        return None;
    }
    let rs2 = register(word(line, 1))?;
    let (imm, rs1) = address(word(line, 2))?;
    Some(op.insn(rs1, rs2, imm))
}

/// `m rs1 rs2 off`
#[tactic(auto, unfolding(crate::specs::Forms::branch_line))]
fn branch_line(op: BranchOp, line: &[u8]) -> Option<Insn>
    ensures value { result ≡ branch_line (branch_insn op) (words_of line.now) }
    ensures in_range { IfSome result InRange }
{
    if word_count(line) != 4 {
        return None;
    }
    let rs1 = register(word(line, 1))?;
    let rs2 = register(word(line, 2))?;
    let off = offset(-4096, 4094, word(line, 3))?;
    Some(op.insn(rs1, rs2, off))
}

/// `m rd imm`
#[tactic(auto, unfolding(crate::specs::Forms::upper_line))]
fn upper_line(op: UpperOp, line: &[u8]) -> Option<Insn>
    ensures value { result ≡ upper_line (upper_insn op) (words_of line.now) }
    ensures in_range { IfSome result InRange }
{
    if word_count(line) != 3 {
        return None;
    }
    let rd = register(word(line, 1))?;
    let imm = natural(1_048_575, word(line, 2))?;
    Some(op.insn(rd, imm))
}

/// `jal rd off`
#[tactic(auto, unfolding(crate::specs::Forms::jump_line))]
fn jump_line(line: &[u8]) -> Option<Insn>
    ensures value { result ≡ jump_line Jal (words_of line.now) }
    ensures in_range { IfSome result InRange }
{
    if word_count(line) != 3 {
        return None;
    }
    let rd = register(word(line, 1))?;
    let off = offset(-1_048_576, 1_048_574, word(line, 2))?;
    Some(Insn::Jal { rd, off })
}

/// `m`
#[tactic(auto, unfolding(crate::specs::Forms::bare_line))]
fn bare_line(op: BareOp, line: &[u8]) -> Option<Insn>
    ensures value { result ≡ bare_line (bare_insn op) (words_of line.now) }
    ensures in_range { IfSome result InRange }
{
    if word_count(line) != 1 {
        return None;
    }
    Some(op.insn())
}

/// The instruction of a line that begins with a mnemonic.
pub fn insn_of_line(mnemonic: Mnemonic, line: &[u8]) -> Option<Insn>
    ensures value { result ≡ line_of (form_meant mnemonic) (words_of line.now) }
    ensures in_range { IfSome result InRange }
{
    match mnemonic {
        Mnemonic::Registers(op) => registers_line(op, line),
        Mnemonic::Immediate(op) => immediate_line(op, line),
        Mnemonic::Shift(op) => shift_line(op, line),
        Mnemonic::Load(op) => load_line(op, line),
        Mnemonic::Store(op) => store_line(op, line),
        Mnemonic::Branch(op) => branch_line(op, line),
        Mnemonic::Upper(op) => upper_line(op, line),
        Mnemonic::Jump => jump_line(line),
        Mnemonic::Bare(op) => bare_line(op, line),
    }
}
