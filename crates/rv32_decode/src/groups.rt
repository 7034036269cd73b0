//! The instructions that share an opcode, told apart by funct3 and funct7.

ghost use Rattle.std.specs.Prelude.{◌≡◌, IfSome};
ghost use Rattle.rv32_decode.specs.InRange.{InRange};
ghost use Rattle.rv32_decode.specs.Word.{word_of};
ghost use Rattle.rv32_decode.specs.declared.insn.Insn.TheVariants.{Fence};
ghost use Rattle.rv32_decode.specs.Fields.{bits};
ghost use Rattle.rv32_decode.specs.Groups.{insn_by};

use crate::Insn;
use crate::fields::{field, immediate_b, immediate_i, immediate_j, immediate_s, register};

/// Arithmetic on two registers.
#[tactic(auto, unfolding(crate::specs::Table::rows, crate::specs::Groups::insn_by, crate::specs::Word::word_of))]
pub(crate) fn on_registers(word: u32) -> Option<Insn>
    requires { bits word 6 0 ≡ 0x33 }
    ensures row { result ≡ insn_by 0x33 (bits word 14 12) (bits word 31 25) word }
    ensures in_range { IfSome result InRange }
    ensures word { IfSome result (λ insn. word ≡ word_of insn) }
{
    let rd = register(word, 7);
    let rs1 = register(word, 15);
    let rs2 = register(word, 20);
    let funct3 = field(word, 14, 12);
    match field(word, 31, 25) {
        0b0000000 => match funct3 {
            0b000 => Some(Insn::Add { rd, rs1, rs2 }),
            0b001 => Some(Insn::Sll { rd, rs1, rs2 }),
            0b010 => Some(Insn::Slt { rd, rs1, rs2 }),
            0b011 => Some(Insn::Sltu { rd, rs1, rs2 }),
            0b100 => Some(Insn::Xor { rd, rs1, rs2 }),
            0b101 => Some(Insn::Srl { rd, rs1, rs2 }),
            0b110 => Some(Insn::Or { rd, rs1, rs2 }),
            0b111 => Some(Insn::And { rd, rs1, rs2 }),
            _ => None,
        },
        0b0100000 => match funct3 {
            0b000 => Some(Insn::Sub { rd, rs1, rs2 }),
            0b101 => Some(Insn::Sra { rd, rs1, rs2 }),
            _ => None,
        },
        _ => None,
    }
}

/// Loads.
#[tactic(auto, unfolding(crate::specs::Table::rows, crate::specs::Groups::insn_by, crate::specs::Word::word_of))]
pub(crate) fn load(word: u32) -> Option<Insn>
    requires { bits word 6 0 ≡ 0x03 }
    ensures row { result ≡ insn_by 0x03 (bits word 14 12) (bits word 31 25) word }
    ensures in_range { IfSome result InRange }
    ensures word { IfSome result (λ insn. word ≡ word_of insn) }
{
    let rd = register(word, 7);
    let rs1 = register(word, 15);
    let imm = immediate_i(word);
    match field(word, 14, 12) {
        0b000 => Some(Insn::Lb { rd, rs1, imm }),
        0b001 => Some(Insn::Lh { rd, rs1, imm }),
        0b010 => Some(Insn::Lw { rd, rs1, imm }),
        0b100 => Some(Insn::Lbu { rd, rs1, imm }),
        0b101 => Some(Insn::Lhu { rd, rs1, imm }),
        _ => None,
    }
}

/// Branches.
#[tactic(auto, unfolding(crate::specs::Table::rows, crate::specs::Groups::insn_by, crate::specs::Word::word_of))]
pub(crate) fn branch(word: u32) -> Option<Insn>
    requires { bits word 6 0 ≡ 0x63 }
    ensures row { result ≡ insn_by 0x63 (bits word 14 12) (bits word 31 25) word }
    ensures in_range { IfSome result InRange }
    ensures word { IfSome result (λ insn. word ≡ word_of insn) }
{
    let rs1 = register(word, 15);
    let rs2 = register(word, 20);
    let off = immediate_b(word);
    match field(word, 14, 12) {
        0b000 => Some(Insn::Beq { rs1, rs2, off }),
        0b001 => Some(Insn::Bne { rs1, rs2, off }),
        0b100 => Some(Insn::Blt { rs1, rs2, off }),
        0b101 => Some(Insn::Bge { rs1, rs2, off }),
        0b110 => Some(Insn::Bltu { rs1, rs2, off }),
        0b111 => Some(Insn::Bgeu { rs1, rs2, off }),
        _ => None,
    }
}

/// Stores.
#[tactic(auto, unfolding(crate::specs::Table::rows, crate::specs::Groups::insn_by, crate::specs::Word::word_of))]
pub(crate) fn store(word: u32) -> Option<Insn>
    requires { bits word 6 0 ≡ 0x23 }
    ensures row { result ≡ insn_by 0x23 (bits word 14 12) (bits word 31 25) word }
    ensures in_range { IfSome result InRange }
    ensures word { IfSome result (λ insn. word ≡ word_of insn) }
{
    let rs1 = register(word, 15);
    let rs2 = register(word, 20);
    let imm = immediate_s(word);
    match field(word, 14, 12) {
        0b000 => Some(Insn::Sb { rs1, rs2, imm }),
        0b001 => Some(Insn::Sh { rs1, rs2, imm }),
        0b010 => Some(Insn::Sw { rs1, rs2, imm }),
        _ => None,
    }
}

/// Arithmetic on a register and an immediate.
#[tactic(auto, unfolding(crate::specs::Table::rows, crate::specs::Groups::insn_by, crate::specs::Word::word_of))]
pub(crate) fn on_immediate(word: u32) -> Option<Insn>
    requires { bits word 6 0 ≡ 0x13 }
    ensures row { result ≡ insn_by 0x13 (bits word 14 12) (bits word 31 25) word }
    ensures in_range { IfSome result InRange }
    ensures word { IfSome result (λ insn. word ≡ word_of insn) }
{
    let rd = register(word, 7);
    let rs1 = register(word, 15);
    let sh = register(word, 20);
    let imm = immediate_i(word);
    match field(word, 14, 12) {
        0b000 => Some(Insn::Addi { rd, rs1, imm }),
        0b010 => Some(Insn::Slti { rd, rs1, imm }),
        0b011 => Some(Insn::Sltiu { rd, rs1, imm }),
        0b100 => Some(Insn::Xori { rd, rs1, imm }),
        0b110 => Some(Insn::Ori { rd, rs1, imm }),
        0b111 => Some(Insn::Andi { rd, rs1, imm }),
        0b001 => match field(word, 31, 25) {
            0b0000000 => Some(Insn::Slli { rd, rs1, sh }),
            _ => None,
        },
        0b101 => match field(word, 31, 25) {
            0b0000000 => Some(Insn::Srli { rd, rs1, sh }),
            0b0100000 => Some(Insn::Srai { rd, rs1, sh }),
            _ => None,
        },
        _ => None,
    }
}

/// The jump to a register and an immediate.
#[tactic(auto, unfolding(crate::specs::Table::rows, crate::specs::Groups::insn_by, crate::specs::Word::word_of))]
pub(crate) fn jump_to_register(word: u32) -> Option<Insn>
    requires { bits word 6 0 ≡ 0x67 }
    ensures row { result ≡ insn_by 0x67 (bits word 14 12) (bits word 31 25) word }
    ensures in_range { IfSome result InRange }
    ensures word { IfSome result (λ insn. word ≡ word_of insn) }
{
    match field(word, 14, 12) {
        0b000 => Some(Insn::Jalr {
            rd: register(word, 7),
            rs1: register(word, 15),
            imm: immediate_i(word),
        }),
        _ => None,
    }
}

/// The jump by an offset.
#[tactic(auto, unfolding(crate::specs::Table::rows, crate::specs::Groups::insn_by, crate::specs::Word::word_of))]
pub(crate) fn jump(word: u32) -> Option<Insn>
    requires { bits word 6 0 ≡ 0x6f }
    ensures row { result ≡ insn_by 0x6f (bits word 14 12) (bits word 31 25) word }
    ensures in_range { IfSome result InRange }
    ensures word { IfSome result (λ insn. word ≡ word_of insn) }
{
    Some(Insn::Jal {
        rd: register(word, 7),
        off: immediate_j(word),
    })
}

/// The upper immediate of a register.
#[tactic(auto, unfolding(crate::specs::Table::rows, crate::specs::Groups::insn_by, crate::specs::Word::word_of))]
pub(crate) fn upper(word: u32) -> Option<Insn>
    requires { bits word 6 0 ≡ 0x37 }
    ensures row { result ≡ insn_by 0x37 (bits word 14 12) (bits word 31 25) word }
    ensures in_range { IfSome result InRange }
    ensures word { IfSome result (λ insn. word ≡ word_of insn) }
{
    Some(Insn::Lui {
        rd: register(word, 7),
        imm: field(word, 31, 12),
    })
}

/// The upper immediate of a register, counted from the instruction.
#[tactic(auto, unfolding(crate::specs::Table::rows, crate::specs::Groups::insn_by, crate::specs::Word::word_of))]
pub(crate) fn upper_from_here(word: u32) -> Option<Insn>
    requires { bits word 6 0 ≡ 0x17 }
    ensures row { result ≡ insn_by 0x17 (bits word 14 12) (bits word 31 25) word }
    ensures in_range { IfSome result InRange }
    ensures word { IfSome result (λ insn. word ≡ word_of insn) }
{
    Some(Insn::Auipc {
        rd: register(word, 7),
        imm: field(word, 31, 12),
    })
}

/// The order of accesses to memory.
#[tactic(auto, unfolding(crate::specs::Table::rows, crate::specs::Groups::insn_by, crate::specs::Word::word_of))]
pub(crate) fn order(word: u32) -> Option<Insn>
    requires { bits word 6 0 ≡ 0x0f }
    ensures row { result ≡ insn_by 0x0f (bits word 14 12) (bits word 31 25) word }
    ensures in_range { IfSome result InRange }
    ensures word { IfSome result (λ insn. insn ≡ Fence) }
{
    match field(word, 14, 12) {
        0b000 => Some(Insn::Fence),
        _ => None,
    }
}

/// Calls of the system.
#[tactic(auto, unfolding(crate::specs::Table::rows, crate::specs::Groups::insn_by, crate::specs::Word::word_of))]
pub(crate) fn system(word: u32) -> Option<Insn>
    requires { bits word 6 0 ≡ 0x73 }
    ensures row { result ≡ insn_by 0x73 (bits word 14 12) (bits word 31 25) word }
    ensures in_range { IfSome result InRange }
    ensures word { IfSome result (λ insn. word ≡ word_of insn) }
{
    match word {
        0x0000_0073 => Some(Insn::Ecall),
        0x0010_0073 => Some(Insn::Ebreak),
        _ => None,
    }
}
