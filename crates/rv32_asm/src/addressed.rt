//! The mnemonics that an address follows.
ghost use Rattle.std.specs.Prelude.{◌≡◌, ◌<◌, ◌^◌, option_map};
ghost use Rattle.rv32_decode.specs.InRange.{InRange, IsRegister, IsImmediate};
ghost use Rattle.rv32_asm.specs.Forms.{loads, stores, named};
ghost use Rattle.rv32_asm.specs.Mnemonics.{load_insn, store_insn};

use rv32_decode::Insn;

/// A mnemonic that a destination register and an address follow.
#[derive(Clone, Copy)]
pub enum LoadOp {
    Lb,
    Lh,
    Lw,
    Lbu,
    Lhu,
    Jalr,
}

impl LoadOp {
    /// The mnemonic that a word is, where it is one of these.
    pub fn named(word: &[u8]) -> Option<Self>
        ensures { option_map load_insn result ≡ named loads word.now }
    {
        match word {
            b"lb" => Some(Self::Lb),
            b"lh" => Some(Self::Lh),
            b"lw" => Some(Self::Lw),
            b"lbu" => Some(Self::Lbu),
            b"lhu" => Some(Self::Lhu),
            b"jalr" => Some(Self::Jalr),
            _ => None,
        }
    }

    /// The instruction that the operands make.
    pub fn insn(self, rd: u8, rs1: u8, imm: i32) -> Insn
        requires rd { IsRegister rd }
        requires rs1 { IsRegister rs1 }
        requires imm { IsImmediate imm }
        ensures value { result ≡ load_insn self rd rs1 imm }
        ensures in_range { InRange result }
    {
        match self {
            Self::Lb => Insn::Lb { rd, rs1, imm },
            Self::Lh => Insn::Lh { rd, rs1, imm },
            Self::Lw => Insn::Lw { rd, rs1, imm },
            Self::Lbu => Insn::Lbu { rd, rs1, imm },
            Self::Lhu => Insn::Lhu { rd, rs1, imm },
            Self::Jalr => Insn::Jalr { rd, rs1, imm },
        }
    }
}

/// A mnemonic that a source register and an address follow.
#[derive(Clone, Copy)]
pub enum StoreOp {
    Sb,
    Sh,
    Sw,
}

impl StoreOp {
    /// The mnemonic that a word is, where it is one of these.
    pub fn named(word: &[u8]) -> Option<Self>
        ensures { option_map store_insn result ≡ named stores word.now }
    {
        match word {
            b"sb" => Some(Self::Sb),
            b"sh" => Some(Self::Sh),
            b"sw" => Some(Self::Sw),
            _ => None,
        }
    }

    /// The instruction that the operands make.
    pub fn insn(self, rs1: u8, rs2: u8, imm: i32) -> Insn
        requires rs1 { IsRegister rs1 }
        requires rs2 { IsRegister rs2 }
        requires imm { IsImmediate imm }
        ensures value { result ≡ store_insn self rs1 rs2 imm }
        ensures in_range { InRange result }
    {
        match self {
            Self::Sb => Insn::Sb { rs1, rs2, imm },
            Self::Sh => Insn::Sh { rs1, rs2, imm },
            Self::Sw => Insn::Sw { rs1, rs2, imm },
        }
    }
}
