//! The instructions of RV32I and their operands.

/// An instruction of RV32I, named by its mnemonic.
///
/// `rd` is the register that is written, `rs1` and `rs2` are the registers that are read, each from
/// 0 to 31. `imm` is from -2048 to 2047, in `Lui` and `Auipc` the upper 20 bits from 0 to 1048575.
/// `sh` is a shift from 0 to 31. `off` is an even distance in bytes from the instruction itself,
/// from -4096 to 4094 in a branch and from -1048576 to 1048574 in `Jal`. `InRange` of this crate's
/// definitions says all of this.
#[derive(Clone, Copy)]
pub enum Insn {
    /// `rd = rs1 + rs2`.
    Add { rd: u8, rs1: u8, rs2: u8 },
    /// `rd = rs1 - rs2`.
    Sub { rd: u8, rs1: u8, rs2: u8 },
    /// `rd = rs1 << rs2`, by the low five bits.
    Sll { rd: u8, rs1: u8, rs2: u8 },
    /// `rd` is 1 where `rs1 < rs2` as signed numbers, else 0.
    Slt { rd: u8, rs1: u8, rs2: u8 },
    /// `rd` is 1 where `rs1 < rs2` as unsigned numbers, else 0.
    Sltu { rd: u8, rs1: u8, rs2: u8 },
    /// `rd = rs1 ^ rs2`.
    Xor { rd: u8, rs1: u8, rs2: u8 },
    /// `rd = rs1 >> rs2`, zeros shifted in.
    Srl { rd: u8, rs1: u8, rs2: u8 },
    /// `rd = rs1 >> rs2`, the sign shifted in.
    Sra { rd: u8, rs1: u8, rs2: u8 },
    /// `rd = rs1 | rs2`.
    Or { rd: u8, rs1: u8, rs2: u8 },
    /// `rd = rs1 & rs2`.
    And { rd: u8, rs1: u8, rs2: u8 },
    /// `rd = rs1 + imm`.
    Addi { rd: u8, rs1: u8, imm: i32 },
    /// `rd` is 1 where `rs1 < imm` as signed numbers, else 0.
    Slti { rd: u8, rs1: u8, imm: i32 },
    /// `rd` is 1 where `rs1 < imm` as unsigned numbers, `imm` sign-extended first, else 0.
    Sltiu { rd: u8, rs1: u8, imm: i32 },
    /// `rd = rs1 ^ imm`.
    Xori { rd: u8, rs1: u8, imm: i32 },
    /// `rd = rs1 | imm`.
    Ori { rd: u8, rs1: u8, imm: i32 },
    /// `rd = rs1 & imm`.
    Andi { rd: u8, rs1: u8, imm: i32 },
    /// `rd = rs1 << sh`.
    Slli { rd: u8, rs1: u8, sh: u8 },
    /// `rd = rs1 >> sh`, zeros shifted in.
    Srli { rd: u8, rs1: u8, sh: u8 },
    /// `rd = rs1 >> sh`, the sign shifted in.
    Srai { rd: u8, rs1: u8, sh: u8 },
    /// Loads the byte at `rs1 + imm`, sign-extended.
    Lb { rd: u8, rs1: u8, imm: i32 },
    /// Loads the halfword at `rs1 + imm`, sign-extended.
    Lh { rd: u8, rs1: u8, imm: i32 },
    /// Loads the word at `rs1 + imm`.
    Lw { rd: u8, rs1: u8, imm: i32 },
    /// Loads the byte at `rs1 + imm`, zero-extended.
    Lbu { rd: u8, rs1: u8, imm: i32 },
    /// Loads the halfword at `rs1 + imm`, zero-extended.
    Lhu { rd: u8, rs1: u8, imm: i32 },
    /// Jumps to `rs1 + imm` with bit 0 cleared, and links in `rd`.
    Jalr { rd: u8, rs1: u8, imm: i32 },
    /// Stores the low byte of `rs2` at `rs1 + imm`.
    Sb { rs1: u8, rs2: u8, imm: i32 },
    /// Stores the low halfword of `rs2` at `rs1 + imm`.
    Sh { rs1: u8, rs2: u8, imm: i32 },
    /// Stores `rs2` at `rs1 + imm`.
    Sw { rs1: u8, rs2: u8, imm: i32 },
    /// Branches by `off` where `rs1 == rs2`.
    Beq { rs1: u8, rs2: u8, off: i32 },
    /// Branches by `off` where `rs1 != rs2`.
    Bne { rs1: u8, rs2: u8, off: i32 },
    /// Branches by `off` where `rs1 < rs2` as signed numbers.
    Blt { rs1: u8, rs2: u8, off: i32 },
    /// Branches by `off` where `rs1 >= rs2` as signed numbers.
    Bge { rs1: u8, rs2: u8, off: i32 },
    /// Branches by `off` where `rs1 < rs2` as unsigned numbers.
    Bltu { rs1: u8, rs2: u8, off: i32 },
    /// Branches by `off` where `rs1 >= rs2` as unsigned numbers.
    Bgeu { rs1: u8, rs2: u8, off: i32 },
    /// Jumps by `off` and links in `rd`.
    Jal { rd: u8, off: i32 },
    /// `rd = imm << 12`.
    Lui { rd: u8, imm: u32 },
    /// `rd = pc + (imm << 12)`.
    Auipc { rd: u8, imm: u32 },
    /// Orders memory accesses; does nothing here.
    Fence,
    /// Calls the system.
    Ecall,
    /// Breaks into a debugger.
    Ebreak,
}
