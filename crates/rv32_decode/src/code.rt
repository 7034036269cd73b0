//! Words to instructions and back.

ghost use Rattle.std.specs.Prelude.{◌≡◌, IfOk, IfSome, IsErr, Some, None, Ok, ◌↔◌, ◌⊎◌, Contains, bit_and};
ghost use Rattle.rv32_decode.specs.InRange.{InRange};
ghost use Rattle.rv32_decode.specs.declared.insn.Insn.TheVariants.{Fence};
ghost use Rattle.rv32_decode.specs.Table.{Row, rows, made, insn_at};
ghost use Rattle.rv32_decode.specs.Word.{word_of};

use crate::fields::field;
use crate::groups::{
    branch, jump, jump_to_register, load, on_immediate, on_registers, order, store, system, upper,
    upper_from_here,
};
use crate::words::{word_b, word_i, word_j, word_r, word_s, word_u};
use crate::{Illegal, Insn};

/// The instruction that a word says.
///
/// # Errors
///
/// `Illegal` where the word is of no row of the instruction table.
#[tactic(auto, using(crate::proofs::OneRow::one_row))]
pub fn decode(word: u32) -> Result<Insn, Illegal>
    ensures row { (row : Row) → Contains rows row
        → bit_and word row.mask ≡ row.match → result ≡ Ok (made row.form word) }
    ensures ok { IfOk result (λ insn. insn_at word ≡ Some insn) }
    ensures illegal { IsErr result ↔ (insn_at word ≡ None) }
    ensures in_range { IfOk result InRange }

    // Of FENCE's words `encode` gives one; every other instruction has one word.
    ensures word { IfOk result (λ insn. (insn ≡ Fence) ⊎ (word ≡ word_of insn)) }
{
    match find(word) {
        Some(insn) => Ok(insn),
        None => Err(Illegal),
    }
}

/// The instruction of the row that a word matches.
#[tactic(auto, using(crate::proofs::Agreement::by_fields, crate::proofs::Agreement::no_row))]
fn find(word: u32) -> Option<Insn>
    ensures row { result ≡ insn_at word }
    ensures in_range { IfSome result InRange }
    ensures word { IfSome result (λ insn. (insn ≡ Fence) ⊎ (word ≡ word_of insn)) }
{
    match field(word, 6, 0) {
        0b0110111 => upper(word),
        0b0010111 => upper_from_here(word),
        0b1101111 => jump(word),
        0b1100111 => jump_to_register(word),
        0b1100011 => branch(word),
        0b0000011 => load(word),
        0b0100011 => store(word),
        0b0010011 => on_immediate(word),
        0b0110011 => on_registers(word),
        0b0001111 => order(word),
        0b1110011 => system(word),
        _ => None,
    }
}

/// The word of an instruction, of `Fence` the one with the fields that assemblers write.
#[tactic(auto, using(crate::proofs::RoundTrip::reads_back))]
pub fn encode(insn: Insn) -> u32
    requires { InRange insn }
    ensures word { result ≡ word_of insn }
    ensures read_back { insn_at result ≡ Some insn }
{
    place(insn)
}

/// The match of an instruction's row, with the operands in their places.
#[tactic(auto, unfolding(crate::specs::Word::word_of))]
fn place(insn: Insn) -> u32
    requires { InRange insn }
    ensures { result ≡ word_of insn }
{
    match insn {
        Insn::Add { rd, rs1, rs2 } => word_r(0x0000_0033, rd, rs1, rs2),
        Insn::Sub { rd, rs1, rs2 } => word_r(0x4000_0033, rd, rs1, rs2),
        Insn::Sll { rd, rs1, rs2 } => word_r(0x0000_1033, rd, rs1, rs2),
        Insn::Slt { rd, rs1, rs2 } => word_r(0x0000_2033, rd, rs1, rs2),
        Insn::Sltu { rd, rs1, rs2 } => word_r(0x0000_3033, rd, rs1, rs2),
        Insn::Xor { rd, rs1, rs2 } => word_r(0x0000_4033, rd, rs1, rs2),
        Insn::Srl { rd, rs1, rs2 } => word_r(0x0000_5033, rd, rs1, rs2),
        Insn::Sra { rd, rs1, rs2 } => word_r(0x4000_5033, rd, rs1, rs2),
        Insn::Or { rd, rs1, rs2 } => word_r(0x0000_6033, rd, rs1, rs2),
        Insn::And { rd, rs1, rs2 } => word_r(0x0000_7033, rd, rs1, rs2),
        Insn::Addi { rd, rs1, imm } => word_i(0x0000_0013, rd, rs1, imm),
        Insn::Slti { rd, rs1, imm } => word_i(0x0000_2013, rd, rs1, imm),
        Insn::Sltiu { rd, rs1, imm } => word_i(0x0000_3013, rd, rs1, imm),
        Insn::Xori { rd, rs1, imm } => word_i(0x0000_4013, rd, rs1, imm),
        Insn::Ori { rd, rs1, imm } => word_i(0x0000_6013, rd, rs1, imm),
        Insn::Andi { rd, rs1, imm } => word_i(0x0000_7013, rd, rs1, imm),
        Insn::Slli { rd, rs1, sh } => word_r(0x0000_1013, rd, rs1, sh),
        Insn::Srli { rd, rs1, sh } => word_r(0x0000_5013, rd, rs1, sh),
        Insn::Srai { rd, rs1, sh } => word_r(0x4000_5013, rd, rs1, sh),
        Insn::Lb { rd, rs1, imm } => word_i(0x0000_0003, rd, rs1, imm),
        Insn::Lh { rd, rs1, imm } => word_i(0x0000_1003, rd, rs1, imm),
        Insn::Lw { rd, rs1, imm } => word_i(0x0000_2003, rd, rs1, imm),
        Insn::Lbu { rd, rs1, imm } => word_i(0x0000_4003, rd, rs1, imm),
        Insn::Lhu { rd, rs1, imm } => word_i(0x0000_5003, rd, rs1, imm),
        Insn::Jalr { rd, rs1, imm } => word_i(0x0000_0067, rd, rs1, imm),
        Insn::Sb { rs1, rs2, imm } => word_s(0x0000_0023, rs1, rs2, imm),
        Insn::Sh { rs1, rs2, imm } => word_s(0x0000_1023, rs1, rs2, imm),
        Insn::Sw { rs1, rs2, imm } => word_s(0x0000_2023, rs1, rs2, imm),
        Insn::Beq { rs1, rs2, off } => word_b(0x0000_0063, rs1, rs2, off),
        Insn::Bne { rs1, rs2, off } => word_b(0x0000_1063, rs1, rs2, off),
        Insn::Blt { rs1, rs2, off } => word_b(0x0000_4063, rs1, rs2, off),
        Insn::Bge { rs1, rs2, off } => word_b(0x0000_5063, rs1, rs2, off),
        Insn::Bltu { rs1, rs2, off } => word_b(0x0000_6063, rs1, rs2, off),
        Insn::Bgeu { rs1, rs2, off } => word_b(0x0000_7063, rs1, rs2, off),
        Insn::Jal { rd, off } => word_j(0x0000_006f, rd, off),
        Insn::Lui { rd, imm } => word_u(0x0000_0037, rd, imm),
        Insn::Auipc { rd, imm } => word_u(0x0000_0017, rd, imm),
        Insn::Fence => 0x0ff0_000f,
        Insn::Ecall => 0x0000_0073,
        Insn::Ebreak => 0x0010_0073,
    }
}
