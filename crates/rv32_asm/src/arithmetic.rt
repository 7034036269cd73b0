//! The mnemonics of arithmetic: on two registers, on a register and an immediate, and on an upper immediate.
ghost use Rattle.std.specs.Prelude.{◌≡◌, ◌<◌, ◌^◌, option_map};
ghost use Rattle.rv32_decode.specs.InRange.{InRange, IsRegister, IsImmediate};
ghost use Rattle.rv32_asm.specs.Forms.{registers, immediates, shifts, uppers, named};
ghost use Rattle.rv32_asm.specs.Mnemonics.{register_insn, immediate_insn, shift_insn, upper_insn};

use rv32_decode::Insn;

/// A mnemonic that two source registers follow.
#[derive(Clone, Copy)]
pub enum RegisterOp {
    Add,
    Sub,
    Sll,
    Slt,
    Sltu,
    Xor,
    Srl,
    Sra,
    Or,
    And,
}

impl RegisterOp {
    /// The mnemonic that a word is, where it is one of these.
    pub fn named(word: &[u8]) -> Option<Self>
        ensures { option_map register_insn result ≡ named registers word.now }
    {
        match word {
            b"add" => Some(Self::Add),
            b"sub" => Some(Self::Sub),
            b"sll" => Some(Self::Sll),
            b"slt" => Some(Self::Slt),
            b"sltu" => Some(Self::Sltu),
            b"xor" => Some(Self::Xor),
            b"srl" => Some(Self::Srl),
            b"sra" => Some(Self::Sra),
            b"or" => Some(Self::Or),
            b"and" => Some(Self::And),
            _ => None,
        }
    }

    /// The instruction that the operands make.
    pub fn insn(self, rd: u8, rs1: u8, rs2: u8) -> Insn
        requires rd { IsRegister rd }
        requires rs1 { IsRegister rs1 }
        requires rs2 { IsRegister rs2 }
        ensures value { result ≡ register_insn self rd rs1 rs2 }
        ensures in_range { InRange result }
    {
        match self {
            Self::Add => Insn::Add { rd, rs1, rs2 },
            Self::Sub => Insn::Sub { rd, rs1, rs2 },
            Self::Sll => Insn::Sll { rd, rs1, rs2 },
            Self::Slt => Insn::Slt { rd, rs1, rs2 },
            Self::Sltu => Insn::Sltu { rd, rs1, rs2 },
            Self::Xor => Insn::Xor { rd, rs1, rs2 },
            Self::Srl => Insn::Srl { rd, rs1, rs2 },
            Self::Sra => Insn::Sra { rd, rs1, rs2 },
            Self::Or => Insn::Or { rd, rs1, rs2 },
            Self::And => Insn::And { rd, rs1, rs2 },
        }
    }
}

/// A mnemonic that a source register and an immediate follow.
#[derive(Clone, Copy)]
pub enum ImmediateOp {
    Addi,
    Slti,
    Sltiu,
    Xori,
    Ori,
    Andi,
}

impl ImmediateOp {
    /// The mnemonic that a word is, where it is one of these.
    pub fn named(word: &[u8]) -> Option<Self>
        ensures { option_map immediate_insn result ≡ named immediates word.now }
    {
        match word {
            b"addi" => Some(Self::Addi),
            b"slti" => Some(Self::Slti),
            b"sltiu" => Some(Self::Sltiu),
            b"xori" => Some(Self::Xori),
            b"ori" => Some(Self::Ori),
            b"andi" => Some(Self::Andi),
            _ => None,
        }
    }

    /// The instruction that the operands make.
    pub fn insn(self, rd: u8, rs1: u8, imm: i32) -> Insn
        requires rd { IsRegister rd }
        requires rs1 { IsRegister rs1 }
        requires imm { IsImmediate imm }
        ensures value { result ≡ immediate_insn self rd rs1 imm }
        ensures in_range { InRange result }
    {
        match self {
            Self::Addi => Insn::Addi { rd, rs1, imm },
            Self::Slti => Insn::Slti { rd, rs1, imm },
            Self::Sltiu => Insn::Sltiu { rd, rs1, imm },
            Self::Xori => Insn::Xori { rd, rs1, imm },
            Self::Ori => Insn::Ori { rd, rs1, imm },
            Self::Andi => Insn::Andi { rd, rs1, imm },
        }
    }
}

/// A mnemonic that a source register and a distance in bits follow.
#[derive(Clone, Copy)]
pub enum ShiftOp {
    Slli,
    Srli,
    Srai,
}

impl ShiftOp {
    /// The mnemonic that a word is, where it is one of these.
    pub fn named(word: &[u8]) -> Option<Self>
        ensures { option_map shift_insn result ≡ named shifts word.now }
    {
        match word {
            b"slli" => Some(Self::Slli),
            b"srli" => Some(Self::Srli),
            b"srai" => Some(Self::Srai),
            _ => None,
        }
    }

    /// The instruction that the operands make.
    pub fn insn(self, rd: u8, rs1: u8, sh: u8) -> Insn
        requires rd { IsRegister rd }
        requires rs1 { IsRegister rs1 }
        requires sh { sh < 32 }
        ensures value { result ≡ shift_insn self rd rs1 sh }
        ensures in_range { InRange result }
    {
        match self {
            Self::Slli => Insn::Slli { rd, rs1, sh },
            Self::Srli => Insn::Srli { rd, rs1, sh },
            Self::Srai => Insn::Srai { rd, rs1, sh },
        }
    }
}

/// A mnemonic that a destination register and an upper immediate follow.
#[derive(Clone, Copy)]
pub enum UpperOp {
    Lui,
    Auipc,
}

impl UpperOp {
    /// The mnemonic that a word is, where it is one of these.
    pub fn named(word: &[u8]) -> Option<Self>
        ensures { option_map upper_insn result ≡ named uppers word.now }
    {
        match word {
            b"lui" => Some(Self::Lui),
            b"auipc" => Some(Self::Auipc),
            _ => None,
        }
    }

    /// The instruction that the operands make.
    pub fn insn(self, rd: u8, imm: u32) -> Insn
        requires rd { IsRegister rd }
        requires imm { imm < 2 ^ 20 }
        ensures value { result ≡ upper_insn self rd imm }
        ensures in_range { InRange result }
    {
        match self {
            Self::Lui => Insn::Lui { rd, imm },
            Self::Auipc => Insn::Auipc { rd, imm },
        }
    }
}
